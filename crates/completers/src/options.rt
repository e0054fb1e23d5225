//! Options with inner words.
ghost use Rattle.std.specs.Prelude.{◌≡◌, IfOk};

use text_doc::{Item, Lines, NoMemory, Sequence, Text};

/// The name of an option, and the words that can follow it, if there are any.
#[derive(Debug, Drop)]
pub struct NestedOption {
    pub name: Text,
    pub words: Option<Lines>,
}

/// A list of options.
pub type NestedOptions = Sequence<NestedOption>;

impl NestedOption {
    /// Returns an option with an equal name and equal words.
    pub fn copy(&self) -> Result<NestedOption, NoMemory>
        ensures { IfOk result (λ copy. copy ≡ self.now) }
    {
        let name = self.name.copy()?;
        let words = match &self.words {
            Some(words) => Some(words.copy()?),
            None => None,
        };
        Ok(NestedOption { name, words })
    }
}

impl Item for NestedOption {
    fn copied(&self) -> Result<NestedOption, NoMemory> {
        self.copy()
    }
}
