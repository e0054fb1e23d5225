//! The characters of one cell. A clause sees them as their list.
use std::marker::Model;

/// The characters of one cell: a character and those that join it. It takes no memory.
#[derive(Clone, Copy, Debug)]
pub struct CellText {
    chars: [char; 8],
    len: u8,
}

impl Model for CellText {
    ghost use Rattle.std.specs.Prelude.{List, ℕ, take, length};
    ghost use Rattle.cell_grid.specs.CellText.{padded, IsFilled, padded-take, length-filled};

    ghost Value = { List ℕ };

    ghost view = { λ t. take t.len t.chars };

    ghost invariant = { λ t. IsFilled t.chars t.len };

    ghost inverse = { λ text. record { chars = padded text; len = length text } };

    ghost inverse_ok = { λ t h i. record {
      chars = padded-take t.chars t.len h i;
      len = length-filled t.chars t.len h i;
    } };
}

impl CellText {
    ghost use Rattle.std.specs.Prelude.{◌≡◌, ◌<◌, ◌≤◌, ◌↔◌, ◌++◌, ◌∷◌, [], IsFalse, IsTrue, length};
    ghost use Rattle.cell_grid.specs.CellText.{with_joined};

    /// The most characters that a cell holds.
    pub const MAX_CHARS: usize = 8;

    /// Returns the text of this one character.
    pub fn new(first: char) -> CellText
        ensures { result ≡ first ∷ [] }
    {
        let mut chars = [' '; 8];
        chars[0] = first;
        CellText { chars, len: 1 }
    }

    /// Adds a character behind the others, where there is room.
    pub fn join(&mut self, next: char) -> bool
        ensures joined { self.new ≡ with_joined self.old next }
        ensures room { IsTrue result ↔ (length self.old < 8) }
        ensures full { IsFalse result ↔ (length self.old ≡ 8) }
    {
        if usize::from(self.len) == Self::MAX_CHARS {
            return false;
        }
        self.chars[usize::from(self.len)] = next;
        self.len += 1;
        true
    }

    /// Returns the characters, from the first on.
    pub fn as_slice(&self) -> &[char]
        ensures value { result.now ≡ self.now }
        ensures some { 1 ≤ length result.now }
        ensures few { length result.now ≤ 8 }
    {
        &self.chars[..usize::from(self.len)]
    }
}

impl PartialEq for CellText {
    ghost use Rattle.std.specs.Str.{bytes_eq};
    ghost use Rattle.cell_grid.specs.Same.{same_text-is_partial_equivalence};

    ghost eq = { bytes_eq };

    ghost laws = { same_text-is_partial_equivalence };

    fn eq(&self, other: &CellText) -> bool {
        self.as_slice() == other.as_slice()
    }
}

impl Eq for CellText {
    ghost use Rattle.cell_grid.specs.Same.{same_text-is_equivalence};

    ghost laws = { same_text-is_equivalence };
}
