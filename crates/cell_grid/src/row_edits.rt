//! Writing into a row of cells: what stays uncovered of a wide character becomes blank.
ghost use Rattle.std.specs.Prelude.{◌≡◌, ◌+◌, ◌≤◌, length};
ghost use Rattle.cell_grid.specs.Row.{mend_end, mend_start, laid_at};

use crate::Cell;

/// Blanks a wide Lead at the end, whose Tail is cut off.
fn mend_last(front: &mut [Cell])
    ensures { front.new ≡ mend_end front.old }
{
    let len = front.len();
    if len > 0 && front[len - 1].is_wide() {
        front[len - 1] = Cell::blank();
    }
}

/// Blanks a Tail at the start, whose Lead is cut off.
fn mend_first(back: &mut [Cell])
    ensures { back.new ≡ mend_start back.old }
{
    if !back.is_empty() && back[0].is_tail() {
        back[0] = Cell::blank();
    }
}

/// Lays cells over those of the row.
pub fn lay_cells(row: &mut [Cell], at: usize, cells: &[Cell])
    requires { at + length cells.now ≤ length row.old }
    ensures { row.new ≡ laid_at row.old at cells.now }
{
    let (front, rest) = row.split_at_mut(at);
    let (here, back) = rest.split_at_mut(cells.len());
    mend_last(front);
    mend_first(back);
    here.copy_from_slice(cells);
}
