//! The first row of a line, with which each walk over a line's rows goes on.
ghost use Rattle.std.specs.Prelude.{◌≤◌};
ghost use Rattle.cell_grid.specs.Row.{IsWhole};
ghost use Rattle.win_view.specs.FirstRow.{IsFirstRow};

use cell_grid::Cell;

/// Returns how many cells the first row takes, Tails included. It looks at one cell alone.
pub fn first_row(cells: &[Cell], width: usize) -> usize
    requires whole { IsWhole cells.now }
    requires width { 1 ≤ width }
    ensures { IsFirstRow width cells.now result }
{
    if cells.len() <= width {
        return cells.len();
    }
    if !cells[width].is_tail() {
        return width;
    }
    if width == 1 { 2 } else { width - 1 }
}
