//! Where a line's cell stands when the line is wrapped.
ghost use Rattle.std.specs.Prelude.{◌≡◌, ◌+◌, ◌<◌, ◌≤◌, length};
ghost use Rattle.cell_grid.specs.Row.{IsWhole};
ghost use Rattle.win_view.specs.Contents.{last_row, rows_to};

use crate::first_rows::first_row;
use cell_grid::Cell;

/// A row and a column, each counted from 0.
#[derive(Clone, Copy, Debug)]
pub struct Place {
    pub row: usize,
    pub col: usize,
}

/// Returns the row of a line's cell among the line's rows, and its column there. It walks over the rows up to the cell.
pub fn place_in_line(cells: &[Cell], cell: usize, width: usize) -> Place
    requires whole { IsWhole cells.now }
    requires cell { cell < length cells.now }
    requires width { 1 ≤ width }
    ensures row { result.row + 1 ≡ length (rows_to width cells.now cell) }
    ensures col { result.col + 1 ≡ length (last_row (rows_to width cells.now cell)) }
    ensures row_within { result.row < length cells.now }
    ensures col_within { result.col < width }
{
    let mut rest = cells;
    let mut at = cell;
    let mut row = 0;
    let mut count = first_row(rest, width);
    while count <= at {
        let (_, behind) = rest.split_at(count);
        rest = behind;
        at -= count;
        row += 1;
        count = first_row(rest, width);
    }
    let col = if width == 1 { 0 } else { at };
    Place { row, col }
}
