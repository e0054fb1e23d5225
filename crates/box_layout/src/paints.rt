//! The drawing of windows at their places.
ghost use Rattle.std.specs.Prelude.{◌≡◌, [], ◌∷◌, ◌++◌, List, IfOk, OnOk, length};
ghost use Rattle.cell_grid.specs.Grid.{columns};
ghost use Rattle.box_layout.specs.Areas.{IsInside, whole};
ghost use Rattle.box_layout.specs.Painting.{area_rows, drawn_rows, painted};
ghost use Rattle.box_layout.specs.Placed.{AllInside, PlacedFields, area_of};

use crate::areas::Area;
use crate::focus::cursor_of_all;
use crate::{Pane, Placed, PlacedList};
use cell_grid::{Drawing, Grid, NoMemory, Size};
use std::alloc::Global;
use win_view::{Viewport, show};

/// Returns the drawing of these windows. Each place has the cell of the last window that holds it, else a blank. A half
/// of a wide character whose other half is covered is a blank too. The cursor is that of the last window with the
/// focus, and at the first place where there is none. Each window is painted over those before it.
pub fn paint(alloc: Global, placed: &PlacedList, size: Size) -> Result<Drawing, NoMemory>
    requires { AllInside (whole size) placed.now }
    ensures { IfOk result (λ drawing. drawing ≡ painted placed.now size) }
{
    let all = placed.as_slice();
    let grid = paint_all(alloc, all, size)?;
    let (row, col) = cursor_of_all(all).unwrap_or((0, 0));
    Ok(Drawing { grid, row, col })
}

/// Returns the grid of a drawing of this size that shows these windows.
fn paint_all(alloc: Global, placed: &[Placed], size: Size) -> Result<Grid, NoMemory>
    requires { AllInside (whole size) placed.now }
    ensures { IfOk result (λ grid. grid ≡ drawn_rows placed.now size) }
{
    let area = Area {
        row: 0,
        col: 0,
        size,
    };
    let mut grid = Grid::blank(alloc, size.rows(), size.cols())?;
    for at in 0..placed.len() {
        let one = &placed[at];
        paint_over(alloc, &mut grid, &area, one)?;
    }
    Ok(grid)
}

/// Paints a window over those that a grid shows of an area.
pub fn paint_over(
    alloc: Global,
    grid: &mut Grid,
    area: &Area,
    placed: &Placed,
) -> Result<(), NoMemory>
    requires inside { IsInside area.now (area_of placed.now) }
    requires rows { length grid.old ≡ area.now.size.rows }
    requires cols { columns grid.old ≡ area.now.size.cols }
    ensures paints { OnOk result ((before : List PlacedFields)
        → grid.old ≡ area_rows before area.now
        → grid.new ≡ area_rows (before ++ placed.now ∷ []) area.now) }
    ensures rows { length grid.new ≡ length grid.old }
    ensures cols { columns grid.new ≡ columns grid.old }
{
    let pane: &Pane = placed.pane;
    let viewport = Viewport {
        row: placed.row - area.row,
        col: placed.col - area.col,
        size: placed.size,
        behind: pane.attrs,
    };
    prove!(viewport.size.cols() > 0);
    show(alloc, &pane.content, placed.scroll, &viewport, grid)?;
    Ok(())
}
