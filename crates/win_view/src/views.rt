//! What a window shows of its content.
ghost use Rattle.std.specs.Prelude.{◌≡◌, IfOk, length};
ghost use Rattle.cell_grid.specs.Grid.{columns};
ghost use Rattle.win_view.specs.Contents.{IsContent};
ghost use Rattle.win_view.specs.Views.{viewed, viewed_with};

use crate::cursors::seen_cursor;
use crate::{Content, Scroll, Viewport, show};
use cell_grid::{Attrs, Grid, NoMemory, Size};
use std::alloc::Global;

/// The cells of a window, and the row and the column of its cursor.
#[derive(Debug, Drop)]
pub struct WindowView {
    pub grid: Grid,
    pub row: u32,
    pub col: u32,
}

/// Returns what a window of this size shows at this scroll. Places behind the content are blank. The cursor's place is
/// that in the content less the scroll, and 0 where the scroll is greater. The rows above the window are counted, and
/// not built.
pub fn view(
    alloc: Global,
    content: &Content,
    size: Size,
    scroll: Scroll,
) -> Result<WindowView, NoMemory>
    requires { IsContent content.now }
    ensures { IfOk result (λ view. view ≡ viewed content.now size scroll) }
{
    view_with(alloc, content, size, scroll, Attrs::plain())
}

/// Returns what a window of this size shows at this scroll, as `view` does. Places behind the content are spaces with
/// the attributes `behind`.
pub fn view_with(
    alloc: Global,
    content: &Content,
    size: Size,
    scroll: Scroll,
    behind: Attrs,
) -> Result<WindowView, NoMemory>
    requires { IsContent content.now }
    ensures view { IfOk result (λ view. view ≡ viewed_with behind content.now size scroll) }
    ensures rows { IfOk result (λ view. length view.grid ≡ size.rows) }
    ensures cols { IfOk result (λ view. columns view.grid ≡ size.cols) }
{
    let (row, col) = seen_cursor(content, size, scroll);
    let viewport = Viewport {
        row: 0,
        col: 0,
        size,
        behind,
    };
    let mut grid = Grid::blank(alloc, size.rows(), size.cols())?;
    prove!(size.cols() <= grid.cols());
    show(alloc, content, scroll, &viewport, &mut grid)?;
    Ok(WindowView { grid, row, col })
}
