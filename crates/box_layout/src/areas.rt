//! Rectangles of a drawing.
ghost use Rattle.std.specs.Prelude.{◌≡◌, ◌+◌, ◌≤◌, ◌==◌, None, Some, if◌then◌else◌};
ghost use Rattle.box_layout.specs.Areas.{whole, area_from, room_of, part_of, IsDrawable};

use cell_grid::Size;

/// A rectangle of a drawing: its first row and column, and its size.
#[derive(Clone, Copy, Debug)]
pub struct Area {
    pub row: u32,
    pub col: u32,
    pub size: Size,
}

impl Area {
    /// Returns all of a drawing.
    pub(crate) fn whole(size: Size) -> Area
        ensures is { result ≡ whole size }
        ensures drawable { IsDrawable result }
    {
        prove!(size.rows() >= 1 && size.rows() <= 500 && size.cols() <= 1000);
        Area {
            row: 0,
            col: 0,
            size,
        }
    }

    /// Returns so many rows and columns from a place on, none where these are 0.
    pub(crate) fn from(row: u32, col: u32, rows: u32, cols: u32) -> Option<Area>
        requires few_rows { rows ≤ 500 }
        requires few_cols { cols ≤ 1000 }
        ensures { result ≡ area_from row col rows cols }
    {
        match Size::new(rows, cols) {
            Some(size) => Some(Area { row, col, size }),
            None => None,
        }
    }

    /// Returns how many columns, or rows, it has.
    pub(crate) fn room(&self, across: bool) -> u32
        ensures value { result ≡ room_of across self.now }
        ensures few { result ≤ 1000 }
    {
        if across {
            self.size.cols()
        } else {
            self.size.rows()
        }
    }

    /// Returns the part that begins after so many of its columns, or rows, and has so many of them; none where these
    /// are 0.
    pub(crate) fn part(&self, across: bool, before: u32, count: u32) -> Option<Area>
        requires drawable { IsDrawable self.now }
        requires room { before + count ≤ room_of across self.now }
        ensures { result
            ≡ (if count == 0 then None else Some (part_of across self.now before count)) }
    {
        if across {
            Area::from(self.row, self.col + before, self.size.rows(), count)
        } else {
            Area::from(self.row + before, self.col, count, self.size.cols())
        }
    }
}
