//! The size of a screen. A clause sees it as its rows and columns.
use std::marker::Model;

/// The size of a terminal's screen, in rows and columns.
#[derive(Clone, Copy, PartialEq, Eq, Debug)]
pub struct Size {
    rows: u32,
    cols: u32,
}

impl Model for Size {
    ghost use Rattle.cell_grid.specs.Size.{Extent, IsScreen};

    ghost Value = { Extent };

    ghost view = { λ s. record { rows = s.rows; cols = s.cols } };

    ghost invariant = { λ s. IsScreen s.rows s.cols };

    ghost inverse = { λ e. record { rows = e.rows; cols = e.cols } };
}

impl Size {
    ghost use Rattle.std.specs.Prelude.{◌≡◌, ◌≤◌, ◌↔◌, IsSome, IfSome};
    ghost use Rattle.cell_grid.specs.Size.{IsScreen};

    /// The largest number of rows.
    pub const MAX_ROWS: u32 = 500;

    /// The largest number of columns.
    pub const MAX_COLS: u32 = 1000;

    /// Returns the size of this many rows and columns, where a screen can have it.
    pub fn new(rows: u32, cols: u32) -> Option<Size>
        ensures within { IsSome result ↔ IsScreen rows cols }
        ensures value { IfSome result (λ size. size ≡ record { rows = rows; cols = cols }) }
    {
        if rows == 0 || rows > Self::MAX_ROWS || cols == 0 || cols > Self::MAX_COLS {
            return None;
        }
        Some(Size { rows, cols })
    }

    /// Returns how many rows the screen has.
    pub fn rows(&self) -> u32
        ensures value { result ≡ self.now.rows }
        ensures some { 1 ≤ result }
        ensures few { result ≤ 500 }
    {
        self.rows
    }

    /// Returns how many columns the screen has.
    pub fn cols(&self) -> u32
        ensures value { result ≡ self.now.cols }
        ensures some { 1 ≤ result }
        ensures few { result ≤ 1000 }
    {
        self.cols
    }
}
