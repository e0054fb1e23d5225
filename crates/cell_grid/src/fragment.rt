//! A part of a line of text that is drawn with the same attributes.
use crate::Attrs;
use sequences::Text;

/// A part of a line of text that is drawn with the same attributes.
#[derive(Debug, Drop)]
pub struct Fragment {
    /// The attributes of its characters, other than control characters.
    pub attrs: Attrs,
    /// The attributes of the characters that control characters are spelled with.
    pub control: Attrs,
    pub text: Text,
}
