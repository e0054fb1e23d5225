//! Whether a terminal draws cells as they are.
ghost use Rattle.std.specs.Prelude.{◌↔◌, IsTrue};
ghost use Rattle.cell_grid.specs.Drawable.{AllDrawable, AllJoining, IsCharacter, IsColour};

use crate::{Cell, Colour, Grid};
use unicode_width::UnicodeWidthChar;

/// Tells whether each character takes no column.
fn all_joining(text: &[char]) -> bool
    ensures { IsTrue result ↔ AllJoining text.now }
{
    for c in text {
        if c.width() != Some(0) {
            return false;
        }
    }
    true
}

/// Tells whether a character of this many columns comes first, and then characters of none.
fn is_character(text: &[char], width: u8) -> bool
    ensures { IsTrue result ↔ IsCharacter text.now width }
{
    match text {
        [] => false,
        [first, rest @ ..] => first.width() == Some(usize::from(width)) && all_joining(rest),
    }
}

/// Tells whether a terminal has the colour.
fn is_colour(colour: Option<Colour>) -> bool
    ensures { IsTrue result ↔ IsColour colour }
{
    match colour {
        Some(Colour::Ansi(n)) => n <= 15,
        Some(Colour::Rgb(_, _, _)) => true,
        None => true,
    }
}

/// Tells whether each cell of a row can be drawn.
fn all_drawable(cells: &[Cell]) -> bool
    ensures { IsTrue result ↔ AllDrawable cells.now }
{
    for cell in cells {
        if !cell.is_drawable() {
            return false;
        }
    }
    true
}

impl Cell {
    ghost use Rattle.std.specs.Prelude.{◌↔◌, IsTrue};
    ghost use Rattle.cell_grid.specs.Drawable.{IsDrawable};

    /// Tells whether a terminal draws the cell as it is: its first character takes the cell's columns, those that
    /// join it take none, and its colours are a terminal's.
    pub fn is_drawable(&self) -> bool
        ensures { IsTrue result ↔ IsDrawable self.now }
    {
        match self {
            Cell::Lead { text, width, attrs } => {
                is_character(text.as_slice(), *width) && is_colour(attrs.fg) && is_colour(attrs.bg)
            }
            Cell::Tail => true,
        }
    }
}

impl Grid {
    ghost use Rattle.std.specs.Prelude.{◌↔◌, IsTrue};
    ghost use Rattle.cell_grid.specs.Drawable.{AllRowsDrawable};

    /// Tells whether a terminal draws each cell as it is.
    pub fn is_drawable(&self) -> bool
        ensures { IsTrue result ↔ AllRowsDrawable self.now }
    {
        for row in 0..self.rows() {
            if !all_drawable(self.row(row)) {
                return false;
            }
        }
        true
    }
}
