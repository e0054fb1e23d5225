//! The attributes of what a text is drawn with.
use cell_grid::Attrs;

/// The attributes of what stands on the lines of a text. Its other characters have none.
#[derive(Clone, Copy, Debug)]
pub struct Looks {
    /// Of the characters that control characters are spelled with.
    pub control: Attrs,
    /// Of the characters that are selected.
    pub selected: Attrs,
    /// Of the characters of a suggestion.
    pub suggestion: Attrs,
}
