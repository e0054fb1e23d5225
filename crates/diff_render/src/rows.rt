//! How a line is redrawn: only the cells that changed, and what becomes blank at its end.
ghost use Rattle.std.specs.Prelude.{◌≡◌, ◌+◌, ◌-◌, ◌*◌, ◌<◌, ◌≤◌, not, OnOk, length, drop};
ghost use Rattle.cell_grid.specs.Cell.{same_cell};
ghost use Rattle.cell_grid.specs.Grid.{IsRow};
ghost use Rattle.cell_grid.specs.Drawable.{IsDrawable, AllDrawable};
ghost use Rattle.diff_render.specs.Redrawing.{ErasesFrom, IsBlankFrom, Redraws, RowSoFar, Updates};
ghost use Rattle.diff_render.specs.Writer.{IsPlaced};
ghost use Rattle.diff_render.specs.Fits.{FitsAt};

use crate::writer::Writer;
use cell_grid::Cell;
use std::alloc::AllocError;

/// Tells whether two cells are different.
fn differ(a: &Cell, b: &Cell) -> bool
    ensures { result ≡ not (same_cell a.now b.now) }
{
    *a != *b
}

/// Redraws one cell of the line, where it changed.
fn draw_cell(w: &mut Writer, at: u32, old: &Cell, new: &Cell) -> Result<(), AllocError>
    requires placed { IsPlaced w.old }
    requires cell { IsDrawable new.now }
    requires fits { FitsAt at new.now w.old.cols }
    ensures { OnOk result (Redraws w.old w.new at old.now new.now) }
{
    if let Cell::Lead { text, width, attrs } = new {
        if differ(old, new) {
            w.go_col(at)?;
            w.use_pen(attrs)?;
            w.print(text, *width)?;
        }
    }
    Ok(())
}

/// Redraws the cells of the line that changed, up to a column.
fn draw_cells(w: &mut Writer, old: &[Cell], new: &[Cell], end: usize) -> Result<(), AllocError>
    requires placed { IsPlaced w.old }
    requires old_row { IsRow w.old.cols old.now }
    requires new_row { IsRow w.old.cols new.now }
    requires cells { AllDrawable new.now }
    requires within { end ≤ length new.now }
    ensures { OnOk result (RowSoFar w.old w.new old.now new.now end) }
{
    for at in 0..end {
        draw_cell(w, at as u32, &old[at], &new[at])?;
    }
    Ok(())
}

/// Returns the column from which on a row is blank.
fn blank_from(cells: &[Cell]) -> usize
    ensures within { result ≤ length cells.now }
    ensures blank { IsBlankFrom result cells.now }
{
    let blank = Cell::blank();
    let mut end = 0;
    for (at, cell) in cells.iter().enumerate() {
        if *cell != blank {
            end = at + 1;
        }
    }
    end
}

/// Returns the column from which on a row becomes blank where it was not: the first one behind the new
/// cells at which the old row differs, or the row's end.
pub(crate) fn erased_from(old: &[Cell], new: &[Cell]) -> usize
    requires { length old.now ≡ length new.now }
    ensures within { result ≤ length new.now }
    ensures blank { IsBlankFrom result new.now }
{
    for at in blank_from(new)..new.len() {
        if differ(&old[at], &new[at]) {
            return at;
        }
    }
    new.len()
}

/// Redraws the writer's line. Where it becomes blank at its end, it is erased there.
fn draw_line(w: &mut Writer, old: &[Cell], new: &[Cell]) -> Result<(), AllocError>
    requires placed { IsPlaced w.old }
    requires old_row { IsRow w.old.cols old.now }
    requires new_row { IsRow w.old.cols new.now }
    requires cells { AllDrawable new.now }
    ensures { OnOk result (RowSoFar w.old w.new old.now new.now (length new.now)) }
{
    let end = erased_from(old, new);
    draw_cells(w, old, new, end)?;
    let (_old_front, old_rest) = old.split_at(end);
    let (_new_front, new_rest) = new.split_at(end);
    if end < new.len() && old_rest != new_rest {
        w.go_col(end as u32)?;
        w.use_plain_pen()?;
        w.erase_line()?;
    }
    Ok(())
}

/// Redraws a line before a column, and erases all from there on, the lines below too.
pub(crate) fn erase_from(
    w: &mut Writer,
    row: u32,
    col: usize,
    old: &[Cell],
    new: &[Cell],
) -> Result<(), AllocError>
    requires placed { IsPlaced w.old }
    requires old_row { IsRow w.old.cols old.now }
    requires new_row { IsRow w.old.cols new.now }
    requires cells { AllDrawable new.now }
    requires in_rows { row < w.old.height }
    requires in_cols { col < length new.now }
    requires blank { IsBlankFrom col new.now }
    ensures { OnOk result (ErasesFrom w.old w.new row col old.now new.now) }
{
    w.go_row(row)?;
    draw_cells(w, old, new, col)?;
    w.go_col(col as u32)?;
    w.use_plain_pen()?;
    w.erase_below()?;
    Ok(())
}

/// Redraws a line, where it changed.
pub(crate) fn update_line(
    w: &mut Writer,
    row: u32,
    old: &[Cell],
    new: &[Cell],
) -> Result<(), AllocError>
    requires placed { IsPlaced w.old }
    requires old_row { IsRow w.old.cols old.now }
    requires new_row { IsRow w.old.cols new.now }
    requires cells { AllDrawable new.now }
    requires within { row < w.old.height }
    ensures { OnOk result (Updates w.old w.new row old.now new.now 7) }
{
    if old != new {
        w.go_row(row)?;
        draw_line(w, old, new)?;
    }
    Ok(())
}
