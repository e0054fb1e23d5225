//! A line cut into rows.
ghost use Rattle.std.specs.Prelude.{◌≡◌, ◌≤◌, IfOk};
ghost use Rattle.cell_grid.specs.Row.{IsWhole};
ghost use Rattle.win_view.specs.Rows.{holdable, rows_of};

use crate::first_rows::first_row;
use crate::narrow_cells::narrowed;
use cell_grid::{Cell, CellRow, CellRows, NoMemory};
use std::alloc::Global;

/// Returns the rows of a line, at least one. A wide character is never parted. At width 1 it is U+FFFD.
pub fn wrap(alloc: Global, row: &CellRow, width: u32) -> Result<CellRows, NoMemory>
    requires { 1 ≤ width }
    ensures { IfOk result (λ rows. rows ≡ rows_of width row.now) }
{
    let width = width as usize;
    let mut rows = CellRows::new(alloc);
    let mut rest = row.as_slice();
    let mut count = first_row(rest, width);
    while count < rest.len() {
        let (first, behind) = rest.split_at(count);
        rows.push(held_row(alloc, first, width)?)?;
        rest = behind;
        count = first_row(rest, width);
    }
    rows.push(held_row(alloc, rest, width)?)?;
    Ok(rows)
}

/// Returns these cells as a row of this width holds them.
fn held_row(alloc: Global, cells: &[Cell], width: usize) -> Result<CellRow, NoMemory>
    requires whole { IsWhole cells.now }
    requires width { 1 ≤ width }
    ensures { IfOk result (λ row. row ≡ holdable width cells.now) }
{
    let mut row = CellRow::new(alloc);
    for cell in cells {
        if !cell.is_tail() {
            let lead = if width == 1 { narrowed(cell) } else { *cell };
            row.push(lead)?;
        }
    }
    Ok(row)
}
