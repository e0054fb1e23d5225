//! How a writer goes to a place and takes a pen with few bytes.
ghost use Rattle.std.specs.Prelude.{◌≡◌, ◌+◌, ◌-◌, ◌<◌, ◌≤◌, OnOk};
ghost use Rattle.cell_grid.specs.Attrs.{plain};
ghost use Rattle.cell_grid.specs.Drawable.{IsPen};
ghost use Rattle.diff_render.specs.Writer.{IsPlaced, Moves};

use crate::pens::{joined, lacking};
use crate::writer::Writer;
use cell_grid::Attrs;
use std::alloc::AllocError;

/// Counts the bytes that a cursor control of so many places takes.
fn arrow_len(n: u32) -> u32
    ensures { result ≤ 6 }
{
    match n {
        0..=1 => 3,
        2..=9 => 4,
        10..=99 => 5,
        _ => 6,
    }
}

/// Tells whether going back takes fewer bytes from the first column on.
fn is_nearer_from_home(col: u32, to: u32) -> bool
    requires { to ≤ col }
{
    to == 0 || 1 + arrow_len(to) < arrow_len(col - to)
}

impl Writer {
    /// Goes back in the line.
    fn back(&mut self, to: u32) -> Result<(), AllocError>
        requires placed { IsPlaced self.old }
        requires behind { to < self.old.col }
        ensures { OnOk result (Moves self.old self.new self.old.row to self.old.pen 7) }
    {
        if !is_nearer_from_home(self.col, to) {
            self.left(self.col - to)?;
            return Ok(());
        }
        self.home()?;
        if to > 0 {
            self.right(to)?;
        }
        Ok(())
    }

    /// Goes to a column.
    pub(crate) fn go_col(&mut self, to: u32) -> Result<(), AllocError>
        requires placed { IsPlaced self.old }
        requires within { to < self.old.cols }
        ensures { OnOk result (Moves self.old self.new self.old.row to self.old.pen 7) }
    {
        if to < self.col {
            self.back(to)?;
        } else if to > self.col {
            self.right(to - self.col)?;
        }
        Ok(())
    }

    /// Goes to a line below.
    fn go_down(&mut self, to: u32) -> Result<(), AllocError>
        requires placed { IsPlaced self.old }
        requires below { self.old.row ≤ to }
        requires within { to < self.old.height }
        ensures { OnOk result (Moves self.old self.new to self.old.col self.old.pen
            (to - self.old.row)) }
    {
        for _line in self.row..to {
            self.down()?;
        }
        Ok(())
    }

    /// Goes to a line.
    pub(crate) fn go_row(&mut self, to: u32) -> Result<(), AllocError>
        requires placed { IsPlaced self.old }
        requires within { to < self.old.height }
        ensures { OnOk result (Moves self.old self.new to self.old.col self.old.pen
            (to - self.old.row + 6)) }
    {
        if to < self.row {
            self.up(self.row - to)?;
        } else {
            self.go_down(to)?;
        }
        Ok(())
    }

    /// Takes the plain pen.
    pub(crate) fn use_plain_pen(&mut self) -> Result<(), AllocError>
        requires { IsPlaced self.old }
        ensures { OnOk result (Moves self.old self.new self.old.row self.old.col plain 3) }
    {
        if self.pen != Attrs::plain() {
            self.take_plain_pen()?;
        }
        Ok(())
    }

    /// Takes a pen that is another one.
    fn change_pen(&mut self, pen: &Attrs) -> Result<(), AllocError>
        requires placed { IsPlaced self.old }
        requires pen { IsPen pen.now }
        ensures { OnOk result (Moves self.old self.new self.old.row self.old.col pen.now 52) }
    {
        let more = lacking(&self.pen, pen);
        if more != Attrs::plain() && joined(&self.pen, &more) == *pen {
            self.add_pen(&more, pen)?;
        } else {
            self.take_pen(pen)?;
        }
        Ok(())
    }

    /// Takes a pen.
    pub(crate) fn use_pen(&mut self, pen: &Attrs) -> Result<(), AllocError>
        requires placed { IsPlaced self.old }
        requires pen { IsPen pen.now }
        ensures { OnOk result (Moves self.old self.new self.old.row self.old.col pen.now 52) }
    {
        if *pen != self.pen {
            self.change_pen(pen)?;
        }
        Ok(())
    }
}
