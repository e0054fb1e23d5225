//! A completion, seen as its fields.
ghost use Rattle.std.specs.Prelude.{◌≡◌, IfOk};

use crate::{Item, NoMemory, Sequence, Text};

/// A text to put in place of the `back` characters before the cursor.
#[derive(Debug, Drop)]
pub struct Completion {
    pub text: Text,
    pub back: usize,
}

impl Completion {
    /// Returns a completion with an equal text and the same `back`.
    pub fn copy(&self) -> Result<Self, NoMemory>
        ensures { IfOk result (λ copy. copy ≡ self.now) }
    {
        let text = self.text.copy()?;
        Ok(Completion {
            text,
            back: self.back,
        })
    }
}

/// A list of completions.
pub type Completions = Sequence<Completion>;

impl Item for Completion {
    fn copied(&self) -> Result<Self, NoMemory> {
        self.copy()
    }
}
