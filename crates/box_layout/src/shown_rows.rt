//! One row of what windows show at their places.
ghost use Rattle.std.specs.Prelude.{◌≡◌, [], ◌∷◌, IfOk};
ghost use Rattle.box_layout.specs.Painting.{shown_cells};
ghost use Rattle.box_layout.specs.Placed.{AllInside};

use crate::Placed;
use crate::areas::Area;
use crate::paints::paint_over;
use cell_grid::{Grid, NoMemory, Size};
use std::alloc::Global;

/// Returns the first row of what an area shows, as a grid of one row. A window inside the area that is on this row
/// begins there, so one row of it is shown: the first row of a window is the same whatever the window's height.
pub fn shown_row(alloc: Global, placed: &[Placed], area: &Area) -> Result<Grid, NoMemory>
    requires { AllInside area.now placed.now }
    ensures { IfOk result (λ grid. grid
        ≡ shown_cells placed.now area.now.row area.now.col area.now.size.cols ∷ []) }
{
    let first = Area {
        row: area.row,
        col: area.col,
        size: one_row(&area.size),
    };
    let mut grid = Grid::blank(alloc, 1, area.size.cols())?;
    for one in placed {
        if one.row == area.row {
            prove!(one.size.rows() > 0);
            let cut = Placed {
                pane: one.pane,
                scroll: one.scroll,
                row: one.row,
                col: one.col,
                size: one_row(&one.size),
            };
            paint_over(alloc, &mut grid, &first, &cut)?;
        }
    }
    Ok(grid)
}

/// Returns one row of as many columns.
fn one_row(size: &Size) -> Size
    ensures { result ≡ record { rows = 1; cols = size.now.cols } }
{
    match Size::new(1, size.cols()) {
        Some(row) => row,
        None => unreachable!(),
    }
}
