//! A known sequence and its key.
use key_names::{Key, KeyText};

/// A sequence of characters that is a key.
#[derive(Debug, Drop)]
pub struct SeqRow {
    pub text: KeyText,
    pub key: Key,
}
