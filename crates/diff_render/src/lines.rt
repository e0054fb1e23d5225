//! How all lines of a drawing are redrawn.
ghost use Rattle.std.specs.Prelude.{◌≡◌, ◌+◌, ◌-◌, ◌≤◌, ◌<◌, max, OnOk, length, take};
ghost use Rattle.cell_grid.specs.Attrs.{plain};
ghost use Rattle.cell_grid.specs.Row.{blank_row};
ghost use Rattle.cell_grid.specs.Grid.{IsRow, columns};
ghost use Rattle.cell_grid.specs.Drawable.{AllRowsDrawable};
ghost use Rattle.diff_render.specs.Redrawn.{line_at, IsBlankBelow, IsDrawnRow, IsErasedBelow, GrowsTo, RowsSoFar};
ghost use Rattle.diff_render.specs.Redrawn.{Redrawn};
ghost use Rattle.diff_render.specs.Writer.{IsPlaced};

use crate::rows::{erase_from, erased_from, update_line};
use crate::writer::Writer;
use cell_grid::{Cell, Grid};
use std::alloc::AllocError;

impl Writer {
    /// Goes from the last line to new ones, up to a height.
    fn grow_to(&mut self, height: u32) -> Result<(), AllocError>
        requires placed { IsPlaced self.old }
        requires last { self.old.row + 1 ≡ self.old.height }
        requires more { self.old.height ≤ height }
        requires room { height ≤ self.old.rows }
        requires pen { self.old.pen ≡ plain }
        ensures { OnOk result (GrowsTo self.old self.new height) }
    {
        for _height in self.height..height {
            self.grow()?;
        }
        Ok(())
    }
}

/// Returns a row of a grid, or blanks behind the last one.
fn line_of<'a>(grid: &'a Grid, blanks: &'a [Cell], row: u32) -> &'a [Cell]
    requires { blanks.now ≡ blank_row (columns grid.now) }
    ensures row { IsRow (columns grid.now) result.now }
    ensures value { result.now ≡ line_at (columns grid.now) grid.now row }
{
    if row < grid.rows() {
        grid.row(row)
    } else {
        blanks
    }
}

/// Returns the row from which on a grid is blank.
fn blank_below(grid: &Grid, blanks: &[Cell]) -> u32
    requires { blanks.now ≡ blank_row (columns grid.now) }
    ensures within { result ≤ length grid.now }
    ensures blank { IsBlankBelow result grid.now }
    ensures drawn { 0 < result → IsDrawnRow (result - 1) grid.now }
{
    let mut end = 0;
    for row in 0..grid.rows() {
        if grid.row(row) != blanks {
            end = row + 1;
        }
    }
    end
}

/// Redraws each line that changed, up to one.
fn draw_lines(
    w: &mut Writer,
    old: &Grid,
    new: &Grid,
    blanks: &[Cell],
    end: u32,
) -> Result<(), AllocError>
    requires placed { IsPlaced w.old }
    requires old_cols { columns old.now ≡ w.old.cols }
    requires new_cols { columns new.now ≡ w.old.cols }
    requires old_rows { length old.now ≤ w.old.height }
    requires cells { AllRowsDrawable new.now }
    requires blanks { blanks.now ≡ blank_row w.old.cols }
    requires within { end ≤ w.old.height }
    ensures { OnOk result (RowsSoFar w.old w.new old.now (take w.old.height new.now) 0 end) }
{
    for at in 0..end {
        let before = line_of(old, blanks, at);
        let after = line_of(new, blanks, at);
        update_line(w, at, before, after)?;
    }
    Ok(())
}

/// Redraws the lines before one from which on all become blank, and erases what is left there: from the
/// row above on, where its rest becomes blank.
fn erase_rest(
    w: &mut Writer,
    old: &Grid,
    new: &Grid,
    blanks: &[Cell],
    end: u32,
) -> Result<(), AllocError>
    requires placed { IsPlaced w.old }
    requires old_cols { columns old.now ≡ w.old.cols }
    requires new_cols { columns new.now ≡ w.old.cols }
    requires old_rows { length old.now ≤ w.old.height }
    requires cells { AllRowsDrawable new.now }
    requires blanks { blanks.now ≡ blank_row w.old.cols }
    requires within { end < w.old.height }
    requires below { IsBlankBelow end (take w.old.height new.now) }
    requires some { IsErasedBelow w.old.height w.old.cols end old.now (take w.old.height new.now) }
    ensures { OnOk result (RowsSoFar w.old w.new old.now (take w.old.height new.now)
        0 w.old.height) }
{
    if end > 0 {
        let before = line_of(old, blanks, end - 1);
        let after = line_of(new, blanks, end - 1);
        let col = erased_from(before, after);
        if col < after.len() {
            draw_lines(w, old, new, blanks, end - 1)?;
            erase_from(w, end - 1, col, before, after)?;
            return Ok(());
        }
    }
    draw_lines(w, old, new, blanks, end)?;
    let before = line_of(old, blanks, end);
    let after = line_of(new, blanks, end);
    erase_from(w, end, 0, before, after)?;
    Ok(())
}

/// Redraws the lines that are there. Where they become blank from a place on, they are erased there.
fn draw_all(w: &mut Writer, old: &Grid, new: &Grid, blanks: &[Cell]) -> Result<(), AllocError>
    requires placed { IsPlaced w.old }
    requires old_cols { columns old.now ≡ w.old.cols }
    requires new_cols { columns new.now ≡ w.old.cols }
    requires old_rows { length old.now ≤ w.old.height }
    requires cells { AllRowsDrawable new.now }
    requires blanks { blanks.now ≡ blank_row w.old.cols }
    ensures { OnOk result (RowsSoFar w.old w.new old.now (take w.old.height new.now)
        0 w.old.height) }
{
    prove!(old.cols() == w.cols);
    let end = blank_below(new, blanks).min(w.height);
    let old_end = blank_below(old, blanks);
    if end < old_end {
        erase_rest(w, old, new, blanks, end)?;
        return Ok(());
    }
    draw_lines(w, old, new, blanks, end)?;
    Ok(())
}

/// Draws the rows of a grid from one on, where there are blank lines.
fn draw_below(w: &mut Writer, new: &Grid, blanks: &[Cell], first: u32) -> Result<(), AllocError>
    requires placed { IsPlaced w.old }
    requires new_cols { columns new.now ≡ w.old.cols }
    requires new_rows { length new.now ≡ w.old.height }
    requires cells { AllRowsDrawable new.now }
    requires blanks { blanks.now ≡ blank_row w.old.cols }
    requires within { first ≤ w.old.row }
    ensures { OnOk result (RowsSoFar w.old w.new (take first new.now) new.now first w.old.height) }
{
    for at in first..new.rows() {
        update_line(w, at, blanks, new.row(at))?;
    }
    Ok(())
}

/// Makes the lines those of the new grid, and blank behind its last row. The lines that are there come
/// first, so that a letter that wraps costs no way back.
pub(crate) fn redraw(
    w: &mut Writer,
    old: &Grid,
    new: &Grid,
    blanks: &[Cell],
) -> Result<(), AllocError>
    requires placed { IsPlaced w.old }
    requires old_cols { columns old.now ≡ w.old.cols }
    requires new_cols { columns new.now ≡ w.old.cols }
    requires old_rows { w.old.height ≡ length old.now }
    requires new_rows { length new.now ≤ w.old.rows }
    requires cells { AllRowsDrawable new.now }
    requires blanks { blanks.now ≡ blank_row w.old.cols }
    ensures { OnOk result (Redrawn w.old w.new old.now new.now) }
{
    draw_all(w, old, new, blanks)?;
    let height = old.rows();
    let higher = new.rows();
    if height < higher {
        w.use_plain_pen()?;
        w.go_row(height - 1)?;
        w.grow_to(higher)?;
        draw_below(w, new, blanks, height)?;
    }
    Ok(())
}
