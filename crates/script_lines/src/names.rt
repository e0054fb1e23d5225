//! The names in `set` lines.
use std::marker::Model;

/// What stands for a name in a `set` line: UTF-8 without a space.
#[derive(Debug, Drop)]
pub struct Name {
    words: String,
}

impl Model for Name {
    ghost use Rattle.std.specs.Prelude.{List, ℕ, string_bytes};

    ghost Value = { List ℕ };

    ghost view = { λ name. string_bytes name.words };
}

impl Name {
    ghost use Rattle.std.specs.Prelude.{◌≡◌, string_bytes};

    /// Returns the name with these words.
    pub(crate) fn from_words(words: String) -> Name
        ensures { result ≡ string_bytes words }
    {
        Name { words }
    }

    /// Returns the name as a text in UTF-8.
    pub fn as_str(&self) -> &str
        ensures { result.now ≡ self.now }
    {
        self.words.as_str()
    }
}
