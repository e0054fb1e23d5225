//! Lines of cells, and what printing and erasing write into them.
ghost use Rattle.std.specs.Prelude.{◌≡◌, ◌<◌, ◌≤◌, ◌+◌, ◌-◌, ◌∷◌, ◌++◌, [], ◌⊎◌, ℕ, length, replicate, slice_set, vec_len, slice_get, take, IfOk, IsSomeAnd, OnOk, OnErr};
ghost use Rattle.cell_grid.specs.Attrs.{plain};
ghost use Rattle.cell_grid.specs.Cell.{IsLead, spread};
ghost use Rattle.cell_grid.specs.Row.{IsWhole, laid_at, put_at};
ghost use Rattle.cell_grid.specs.Grid.{AllRows, blank_rows, row_at, put_in};
ghost use Rattle.term_model.specs.Term.{HasLead};
ghost use Rattle.term_model.specs.Obeying.{wiped, joined_row};

use cell_grid::{Attrs, Cell, CellRow, NoMemory};
use std::alloc::Global;

/// Returns the pen's background with no other attribute.
fn background(pen: Attrs) -> Attrs
    ensures { result ≡ record plain { bg = pen.bg } }
{
    Attrs {
        bg: pen.bg,
        ..Attrs::plain()
    }
}

/// Returns a space with the pen's background and no other attribute.
fn wiped(pen: Attrs) -> Cell
    ensures { result ≡ wiped pen }
{
    Cell::narrow(' ', background(pen))
}

/// Returns a row of such spaces.
pub(crate) fn wiped_row(alloc: Global, cols: usize, pen: Attrs) -> Result<CellRow, NoMemory>
    ensures { IfOk result (λ row. row ≡ replicate cols (wiped pen)) }
{
    let row = CellRow::filled(alloc, ' ', background(pen), cols)?;
    Ok(row)
}

/// Returns rows of blanks.
pub(crate) fn blank_rows(alloc: Global, rows: usize, cols: usize) -> Result<Vec<CellRow>, NoMemory>
    ensures { IfOk result (λ lines. lines.items ≡ blank_rows rows cols) }
{
    let mut lines = Vec::new(alloc);
    for _ in 0..rows {
        let row = wiped_row(alloc, cols, Attrs::plain())?;
        lines.push(row)?;
    }
    Ok(lines)
}

/// Writes such spaces over a row from a place on.
fn erase_from(row: &mut CellRow, at: usize, pen: Attrs)
    requires whole { IsWhole row.old }
    requires within { at ≤ length row.old }
    ensures { row.new ≡ laid_at row.old at (replicate (length row.old - at) (wiped pen)) }
{
    for place in at..row.len() {
        row.put(place, wiped(pen));
    }
}

/// Writes such spaces over one of the lines from a place on.
pub(crate) fn erase_in(lines: &mut Vec<CellRow>, line: usize, at: usize, pen: Attrs)
    requires line { line < vec_len lines.old }
    requires whole { IsWhole (row_at lines.old.items line) }
    requires within { at ≤ length (row_at lines.old.items line) }
    ensures { let row = row_at lines.old.items line in lines.new.items
        ≡ slice_set lines.old.items line
        (laid_at row at (replicate (length row - at) (wiped pen))) }
{
    erase_from(&mut lines[line], at, pen);
}

/// Puts a Lead into one of the lines.
pub(crate) fn put_in(lines: &mut Vec<CellRow>, line: usize, at: usize, lead: Cell)
    requires line { line < vec_len lines.old }
    requires lead { IsLead lead }
    requires fits { at + length (spread lead) ≤ length (row_at lines.old.items line) }
    ensures { lines.new.items ≡ put_in lines.old.items line at lead }
{
    lines[line].put(at, lead);
}

/// Joins a character to the Lead at a place of a row.
fn join_to(row: &mut CellRow, at: usize, c: char)
    requires whole { IsWhole row.old }
    requires lead { IsSomeAnd (slice_get row.old at) IsLead }
    ensures { row.new ≡ joined_row row.old at c }
{
    if let Cell::Lead {
        mut text,
        width,
        attrs,
    } = *row.cell(at)
    {
        text.join(c);
        row.put(at, Cell::Lead { text, width, attrs });
    }
}

/// Joins a character to the Lead at a place of the lines.
pub(crate) fn join_in(lines: &mut Vec<CellRow>, line: usize, at: usize, c: char)
    requires line { line < vec_len lines.old }
    requires whole { IsWhole (row_at lines.old.items line) }
    requires lead { HasLead lines.old.items (line, at) }
    ensures { lines.new.items
        ≡ slice_set lines.old.items line (joined_row (row_at lines.old.items line) at c) }
{
    join_to(&mut lines[line], at, c);
}

/// Writes such spaces over all lines from one on.
pub(crate) fn erase_lines(lines: &mut Vec<CellRow>, from: usize, cols: usize, pen: Attrs)
    requires wide { AllRows cols lines.old.items }
    requires within { from ≤ vec_len lines.old }
    ensures { lines.new.items
        ≡ take from lines.old.items
        ++ replicate (vec_len lines.old - from) (replicate cols (wiped pen)) }
{
    for line in from..lines.len() {
        erase_in(lines, line, 0, pen);
    }
}
