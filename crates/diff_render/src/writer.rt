//! A writer of a frame's bytes, which knows the row, the column and the pen that the terminal has
//! after them, and leads it on step by step.
ghost use Rattle.std.specs.Prelude.{◌≡◌, ◌+◌, ◌-◌, ◌<◌, ◌≤◌, ◌⊎◌, OnOk};
ghost use Rattle.cell_grid.specs.declared.cell.Cell.TheVariants.{Lead};
ghost use Rattle.cell_grid.specs.Attrs.{plain};
ghost use Rattle.cell_grid.specs.Drawable.{IsCharacter, IsPen};
ghost use Rattle.diff_render.specs.Spelling.{joined};
ghost use Rattle.diff_render.specs.Writer.{IsPlaced, Moves, Grows, Writes, Erases, ErasesBelow};

use crate::spelling::{push_arrow, push_pen, push_text};
use cell_grid::{Attrs, CellText};
use std::alloc::AllocError;

/// The bytes so far, and where they lead: a place counted from the base line, and a pen.
#[derive(Debug, Drop)]
pub(crate) struct Writer {
    pub(crate) out: String,
    /// The screen's size.
    pub(crate) rows: u32,
    pub(crate) cols: u32,
    /// How many lines there are from the base line on.
    pub(crate) height: u32,
    pub(crate) row: u32,
    pub(crate) col: u32,
    pub(crate) pen: Attrs,
}

impl Writer {
    /// Goes right.
    #[tactic(auto, using(crate::proofs::Leaves::moves_right))]
    pub(crate) fn right(&mut self, n: u32) -> Result<(), AllocError>
        requires placed { IsPlaced self.old }
        requires some { 0 < n }
        requires fits { self.old.col + n < self.old.cols }
        ensures { OnOk result (Moves self.old self.new self.old.row (self.old.col + n)
            self.old.pen 6) }
    {
        push_arrow(&mut self.out, n, 'C')?;
        self.col += n;
        Ok(())
    }

    /// Goes left.
    pub(crate) fn left(&mut self, n: u32) -> Result<(), AllocError>
        requires placed { IsPlaced self.old }
        requires some { 0 < n }
        requires fits { n ≤ self.old.col }
        ensures { OnOk result (Moves self.old self.new self.old.row (self.old.col - n)
            self.old.pen 6) }
    {
        push_arrow(&mut self.out, n, 'D')?;
        self.col -= n;
        Ok(())
    }

    /// Goes to the first column.
    pub(crate) fn home(&mut self) -> Result<(), AllocError>
        requires { IsPlaced self.old }
        ensures { OnOk result (Moves self.old self.new self.old.row 0 self.old.pen 1) }
    {
        self.out.push('\r')?;
        self.col = 0;
        Ok(())
    }

    /// Goes up.
    pub(crate) fn up(&mut self, n: u32) -> Result<(), AllocError>
        requires placed { IsPlaced self.old }
        requires some { 0 < n }
        requires fits { n ≤ self.old.row }
        ensures { OnOk result (Moves self.old self.new (self.old.row - n) self.old.col
            self.old.pen 6) }
    {
        push_arrow(&mut self.out, n, 'A')?;
        self.row -= n;
        Ok(())
    }

    /// Goes to the next line.
    pub(crate) fn down(&mut self) -> Result<(), AllocError>
        requires placed { IsPlaced self.old }
        requires fits { self.old.row + 1 < self.old.height }
        ensures { OnOk result (Moves self.old self.new (self.old.row + 1) self.old.col
            self.old.pen 1) }
    {
        self.out.push('\n')?;
        self.row += 1;
        Ok(())
    }

    /// Goes from the last line to a new one.
    pub(crate) fn grow(&mut self) -> Result<(), AllocError>
        requires placed { IsPlaced self.old }
        requires last { self.old.row + 1 ≡ self.old.height }
        requires room { self.old.height < self.old.rows }
        requires pen { self.old.pen ≡ plain }
        ensures { OnOk result (Grows self.old self.new) }
    {
        self.out.push('\n')?;
        self.row += 1;
        self.height += 1;
        Ok(())
    }

    /// Takes a pen that has attributes beside those of this one.
    pub(crate) fn add_pen(&mut self, more: &Attrs, pen: &Attrs) -> Result<(), AllocError>
        requires placed { IsPlaced self.old }
        requires pen { IsPen more.now }
        requires some { more.now ≡ plain → ⊥ }
        requires joined { joined self.old.pen more.now ≡ pen.now }
        ensures { OnOk result (Moves self.old self.new self.old.row self.old.col pen.now 52) }
    {
        push_pen(&mut self.out, true, more)?;
        self.pen = *pen;
        Ok(())
    }

    /// Takes a pen, whatever it has.
    pub(crate) fn take_pen(&mut self, pen: &Attrs) -> Result<(), AllocError>
        requires placed { IsPlaced self.old }
        requires pen { IsPen pen.now }
        ensures { OnOk result (Moves self.old self.new self.old.row self.old.col pen.now 52) }
    {
        push_pen(&mut self.out, false, pen)?;
        self.pen = *pen;
        Ok(())
    }

    /// Takes the plain pen, whatever it has.
    pub(crate) fn take_plain_pen(&mut self) -> Result<(), AllocError>
        requires { IsPlaced self.old }
        ensures { OnOk result (Moves self.old self.new self.old.row self.old.col plain 3) }
    {
        self.out.push_str("\x1b[m")?;
        self.pen = Attrs::plain();
        Ok(())
    }

    /// Prints a cell with the pen.
    pub(crate) fn print(&mut self, text: &CellText, width: u8) -> Result<(), AllocError>
        requires placed { IsPlaced self.old }
        requires text { IsCharacter text.now width }
        requires width { (width ≡ 1) ⊎ (width ≡ 2) }
        requires fits { self.old.col + width ≤ self.old.cols }
        ensures { OnOk result (Writes self.old self.new (Lead text.now width self.old.pen) 32) }
    {
        push_text(&mut self.out, text.as_slice())?;
        self.col = (self.col + u32::from(width)).min(self.cols - 1);
        Ok(())
    }

    /// Erases to the end of the line.
    pub(crate) fn erase_line(&mut self) -> Result<(), AllocError>
        requires placed { IsPlaced self.old }
        requires pen { self.old.pen ≡ plain }
        ensures { OnOk result (Erases self.old self.new) }
    {
        self.out.push_str("\x1b[K")?;
        Ok(())
    }

    /// Erases to the end of the line, and all lines below.
    pub(crate) fn erase_below(&mut self) -> Result<(), AllocError>
        requires placed { IsPlaced self.old }
        requires pen { self.old.pen ≡ plain }
        ensures { OnOk result (ErasesBelow self.old self.new) }
    {
        self.out.push_str("\x1b[J")?;
        Ok(())
    }
}
