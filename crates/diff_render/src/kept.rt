//! How what is on the screen is kept: a drawing of the same height is changed where it differs.
ghost use Rattle.std.specs.Prelude.{◌≡◌, ◌<◌, OnOk, OnErr, IfOk, length, slice_set};
ghost use Rattle.cell_grid.specs.Grid.{columns, row_at};
ghost use Rattle.diff_render.specs.Frames.{FitsScreen, HasCursor, WasDrawnAt};
ghost use Rattle.diff_render.specs.ScreenFields.{IsKept};
ghost use Rattle.diff_render.specs.declared.shown.OnScreen.TheVariants.{Drawn};

use crate::shown::OnScreen;
use cell_grid::{Drawing, Grid, Size};
use std::alloc::{AllocError, Global};

/// Makes a row of a grid that of another one.
fn keep_row(kept: &mut Grid, grid: &Grid, row: u32)
    requires in_kept { row < length kept.old }
    requires in_grid { row < length grid.now }
    requires cols { columns kept.old ≡ columns grid.now }
    ensures row { kept.new ≡ slice_set kept.old row (row_at grid.now row) }
    ensures cols { columns kept.new ≡ columns kept.old }
{
    if kept.row(row) != grid.row(row) {
        kept.lay(row, 0, grid.row(row));
    }
}

/// Makes a grid another one of its size, in the rows that differ.
fn keep_grid(kept: &mut Grid, grid: &Grid)
    requires rows { length kept.old ≡ length grid.now }
    requires cols { columns kept.old ≡ columns grid.now }
    ensures { kept.new ≡ grid.now }
{
    for row in 0..grid.rows() {
        keep_row(kept, grid, row);
    }
}

/// Makes a drawing another one of its size.
fn keep_drawing(kept: &mut Drawing, drawing: &Drawing)
    requires rows { length kept.old.grid ≡ length drawing.now.grid }
    requires cols { columns kept.old.grid ≡ columns drawing.now.grid }
    ensures { kept.new ≡ drawing.now }
{
    keep_grid(&mut kept.grid, &drawing.grid);
    kept.row = drawing.row;
    kept.col = drawing.col;
}

/// Copies a drawing.
fn copied(alloc: Global, drawing: &Drawing) -> Result<Drawing, AllocError>
    ensures { IfOk result (λ copy. copy ≡ drawing.now) }
{
    let mut grid = Grid::blank(alloc, drawing.grid.rows(), drawing.grid.cols())?;
    keep_grid(&mut grid, &drawing.grid);
    Ok(Drawing {
        grid,
        row: drawing.row,
        col: drawing.col,
    })
}

/// Makes what is on the screen a drawing.
pub(crate) fn keep(
    alloc: Global,
    screen: &mut OnScreen,
    drawing: &Drawing,
    size: Size,
) -> Result<(), AllocError>
    requires kept { IsKept screen.old }
    requires was { WasDrawnAt size screen.old }
    requires fits { FitsScreen size drawing.now }
    requires cursor { HasCursor drawing.now }
    ensures screen { OnOk result (screen.new ≡ Drawn drawing.now size) }
    ensures kept { OnOk result (IsKept screen.new) }
    ensures err { OnErr result (screen.new ≡ screen.old) }
{
    if let OnScreen::Drawn { drawing: kept, .. } = screen {
        if kept.grid.rows() == drawing.grid.rows() {
            keep_drawing(kept, drawing);
            return Ok(());
        }
    }
    let drawing = copied(alloc, drawing)?;
    *screen = OnScreen::Drawn { drawing, size };
    Ok(())
}
