//! The columns of a line that a window shows where lines don't wrap, laid into a row of a grid.
ghost use Rattle.std.specs.Prelude.{◌≡◌, ◌+◌, ◌-◌, ◌<◌, ◌≤◌, length, slice_index_or, slice_set};
ghost use Rattle.cell_grid.specs.Cell.{blank};
ghost use Rattle.cell_grid.specs.Grid.{columns, row_at};
ghost use Rattle.cell_grid.specs.Row.{IsWhole, laid_at};
ghost use Rattle.win_view.specs.Views.{attrs_of, columns_from, half_of, spaced_end, spaced_start};

use cell_grid::{Attrs, Cell, Grid};

/// Lays the columns of a line from `across` on, at most `width` of them, into a row of a grid. A half of a wide
/// character is a space with its attributes. Returns how many they are.
pub fn lay_columns(
    line: &[Cell],
    across: usize,
    width: usize,
    row: u32,
    col: u32,
    grid: &mut Grid,
) -> usize
    requires whole { IsWhole line.now }
    requires row_within { row < length grid.old }
    requires fits { col + width ≤ columns grid.old }
    ensures count { result ≡ length (columns_from across width line.now) }
    ensures laid { grid.new
        ≡ slice_set grid.old row (laid_at (row_at grid.old row) col
        (columns_from across width line.now)) }
    ensures cols { columns grid.new ≡ columns grid.old }
{
    let start = across.min(line.len());
    let (_, behind) = line.split_at(start);
    let (shown, _) = behind.split_at(width.min(behind.len()));
    lay_cut(shown, attrs_before(line, start), row, col, grid);
    shown.len()
}

/// Returns the attributes of a cell, which a Tail has from its Lead.
fn attrs_of(cell: &Cell) -> Attrs
    ensures { result ≡ attrs_of cell.now }
{
    match cell {
        Cell::Lead { attrs, .. } => *attrs,
        Cell::Tail => Attrs::plain(),
    }
}

/// Returns the attributes of the cell before a place of a line, if there is one.
fn attrs_before(line: &[Cell], at: usize) -> Attrs
    requires { at ≤ length line.now }
    ensures { 0 < at → result ≡ attrs_of (slice_index_or line.now (at - 1) blank) }
{
    if at == 0 {
        return Attrs::plain();
    }
    attrs_of(&line[at - 1])
}

/// Returns a space in place of half a character.
fn half_of(attrs: Attrs) -> Cell
    ensures { result ≡ half_of attrs }
{
    Cell::narrow(' ', attrs)
}

/// Lays cells of which a half may stand at either end. A Tail at the start, whose Lead is cut off, is a space with
/// these attributes, the Lead's.
fn lay_cut(cells: &[Cell], attrs: Attrs, row: u32, col: u32, grid: &mut Grid)
    requires whole { IsWhole (spaced_end (spaced_start attrs cells.now)) }
    requires row_within { row < length grid.old }
    requires fits { col + length cells.now ≤ columns grid.old }
    ensures laid { grid.new
        ≡ slice_set grid.old row (laid_at (row_at grid.old row) col
        (spaced_end (spaced_start attrs cells.now))) }
    ensures cols { columns grid.new ≡ columns grid.old }
{
    if !cells.is_empty() && cells[0].is_tail() {
        prove!(col <= grid.cols());
        let (_, rest) = cells.split_at(1);
        grid.lay(row, col, &[half_of(attrs)]);
        lay_front(rest, row, col + 1, grid);
        return;
    }
    lay_front(cells, row, col, grid);
}

/// Lays cells of which a half may stand at the end: a wide Lead there, whose Tail is cut off, is a space with its
/// attributes.
fn lay_front(cells: &[Cell], row: u32, col: u32, grid: &mut Grid)
    requires whole { IsWhole (spaced_end cells.now) }
    requires row_within { row < length grid.old }
    requires fits { col + length cells.now ≤ columns grid.old }
    ensures laid { grid.new
        ≡ slice_set grid.old row (laid_at (row_at grid.old row) col (spaced_end cells.now)) }
    ensures cols { columns grid.new ≡ columns grid.old }
{
    let len = cells.len();
    if len > 0 && cells[len - 1].is_wide() {
        prove!(col <= grid.cols());
        let (front, _) = cells.split_at(len - 1);
        let half = half_of(attrs_of(&cells[len - 1]));
        grid.lay(row, col, front);
        grid.lay(row, col + (len - 1) as u32, &[half]);
        return;
    }
    grid.lay(row, col, cells);
}
