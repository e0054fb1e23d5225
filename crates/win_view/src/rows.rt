//! The rows of a line.
ghost use Rattle.std.specs.Prelude.{◌≡◌, ◌+◌, ◌<◌, ◌≤◌, ◌^◌, ◌++◌, List, length};
ghost use Rattle.cell_grid.specs.declared.cell.Cell.{Cell};
ghost use Rattle.cell_grid.specs.Row.{IsWhole};
ghost use Rattle.win_view.specs.Rows.{AllNarrow, holdable, rows_of};

use crate::first_rows::first_row;
use cell_grid::Cell;

/// Returns how many rows of this width a line has: these cells, and behind them `more` cells of one column each, which
/// need not be there. It walks over the rows of `cells`, whose every character may be wide, and reckons the others.
pub fn count_rows(cells: &[Cell], more: usize, width: u32) -> usize
    requires whole { IsWhole cells.now }
    requires width { 1 ≤ width }
    requires few { length cells.now + more < 2 ^ 63 }
    ensures { (rest : List Cell) → AllNarrow rest → length rest ≡ more
        → result ≡ length (rows_of width (cells.now ++ rest)) }
{
    let width = width as usize;
    let mut rest = cells;
    let mut rows = 1;
    let mut count = first_row(rest, width);
    while count < rest.len() {
        let (_, behind) = rest.split_at(count);
        rest = behind;
        rows += 1;
        count = first_row(rest, width);
    }
    rows + rows_behind(rest, more, width)
}

/// Returns how many rows more there are where these cells stand in the last one.
fn rows_behind(cells: &[Cell], more: usize, width: usize) -> usize
    requires width { 1 ≤ width }
    requires whole { IsWhole cells.now }
    requires fits { length (holdable width cells.now) ≤ width }
    ensures rows { (rest : List Cell) → AllNarrow rest → length rest ≡ more
        → result + 1 ≡ length (rows_of width (cells.now ++ rest)) }
    ensures few { result ≤ more }
{
    let held = cells.len().min(width);
    more.saturating_sub(width - held).div_ceil(width)
}
