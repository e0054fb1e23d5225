//! A cell: a character of one or two columns with those that join it, or the second half of a wide one.
use crate::{Attrs, CellText};

/// One place of a screen.
#[derive(Clone, Copy, Debug)]
pub enum Cell {
    /// A character with those that join it, which takes `width` columns from here on.
    Lead {
        text: CellText,
        width: u8,
        attrs: Attrs,
    },
    /// The second column of a wide character.
    Tail,
}

impl Cell {
    ghost use Rattle.std.specs.Prelude.{◌≡◌, ◌↔◌, IsTrue, length};
    ghost use Rattle.cell_grid.specs.declared.cell.Cell.TheVariants.{Tail};
    ghost use Rattle.cell_grid.specs.Cell.{joined, blank, narrow, is_wide, spread};

    /// Returns a space without attributes.
    pub fn blank() -> Cell
        ensures { result ≡ blank }
    {
        Cell::narrow(' ', Attrs::plain())
    }

    /// Returns a character that takes one column.
    pub fn narrow(character: char, attrs: Attrs) -> Cell
        ensures { result ≡ narrow character attrs }
    {
        Cell::Lead {
            text: CellText::new(character),
            width: 1,
            attrs,
        }
    }

    /// Returns how many places the cell takes in a row, that of its Tail included.
    pub fn columns(&self) -> usize
        ensures { result ≡ length (spread self.now) }
    {
        match self {
            Cell::Lead { width, .. } => 1 + usize::from(width.saturating_sub(1)),
            Cell::Tail => 1,
        }
    }

    /// Returns the cell with a character joined to its text, where that has room. A Tail has no text.
    pub fn joined(&self, next: char) -> Cell
        ensures { result ≡ joined self.now next }
    {
        match self {
            Cell::Lead { text, width, attrs } => {
                let mut text = *text;
                text.join(next);
                Cell::Lead {
                    text,
                    width: *width,
                    attrs: *attrs,
                }
            }
            Cell::Tail => Cell::Tail,
        }
    }

    /// Tells whether it is the second column of a wide character.
    pub fn is_tail(&self) -> bool
        ensures { IsTrue result ↔ (self.now ≡ Tail) }
    {
        match self {
            Cell::Lead { .. } => false,
            Cell::Tail => true,
        }
    }

    /// Tells whether it is a Lead of two columns.
    pub fn is_wide(&self) -> bool
        ensures { result ≡ is_wide self.now }
    {
        match self {
            Cell::Lead { width, .. } => *width == 2,
            Cell::Tail => false,
        }
    }
}

impl PartialEq for Cell {
    ghost use Rattle.cell_grid.specs.Cell.{same_cell};
    ghost use Rattle.cell_grid.specs.Same.{same_cell-is_partial_equivalence};

    ghost eq = { same_cell };

    ghost laws = { same_cell-is_partial_equivalence };

    fn eq(&self, other: &Cell) -> bool {
        match (self, other) {
            (
                Cell::Lead { text, width, attrs },
                Cell::Lead {
                    text: other_text,
                    width: other_width,
                    attrs: other_attrs,
                },
            ) => {
                if *width != *other_width {
                    return false;
                }
                *attrs == *other_attrs && *text == *other_text
            }
            (Cell::Tail, Cell::Tail) => true,
            _ => false,
        }
    }
}

impl Eq for Cell {
    ghost use Rattle.cell_grid.specs.Same.{same_cell-is_equivalence};

    ghost laws = { same_cell-is_equivalence };
}
