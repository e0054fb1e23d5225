//! The lines that a text is drawn on.
ghost use Rattle.std.specs.Prelude.{◌≡◌, ◌≤◌, IfOk, length};
ghost use Rattle.text_rows.specs.DrawnText.{IsDrawnText};
ghost use Rattle.text_rows.specs.Lines.{drawn_lines, line_cells, with_line};

use crate::{DrawnText, Looks};
use cell_grid::{Attrs, Cell, CellRow, CellRows, NoMemory};
use std::alloc::Global;
use text_doc::cut_line;

/// Returns the lines that a text is drawn on. It builds the cells of all of them.
pub fn drawn_lines(alloc: Global, drawn: &DrawnText) -> Result<CellRows, NoMemory>
    requires { IsDrawnText drawn.now }
    ensures { IfOk result (λ lines. lines ≡ drawn_lines drawn.now) }
{
    let mut lines = CellRows::new(alloc);
    let mut before = drawn.message;
    let mut start = 0;
    let mut left = drawn.text;
    while let Some((line, rest)) = cut_line(left) {
        lines.push(line_cells(drawn, before, start, line, &[])?)?;
        before = drawn.continuation;
        start += line.len() + 1;
        left = rest;
    }
    lines.push(line_cells(drawn, before, start, left, drawn.suggestion)?)?;
    Ok(lines)
}

/// Returns the cells of a line that begins at this place of the text, has `before` before it and `behind` behind it.
fn line_cells(
    drawn: &DrawnText,
    before: &CellRow,
    start: usize,
    line: &[char],
    behind: &[char],
) -> Result<CellRow, NoMemory>
    requires { IsDrawnText drawn.now }
    ensures { IfOk result (λ cells. cells
        ≡ line_cells drawn.now before.now start line.now behind.now) }
{
    let looks = drawn.looks;
    let from = drawn.selected_from.saturating_sub(start);
    let to = drawn.selected_to.saturating_sub(start);
    let mut cells = with_line(&looks, from, to, before, line)?;
    cells.push_chars(behind, looks.suggestion, looks.control)?;
    cells.push(Cell::blank())?;
    Ok(cells)
}

/// Returns these cells with those of a line's characters behind them, which are selected from one place of the line up
/// to another.
fn with_line(
    looks: &Looks,
    from: usize,
    to: usize,
    before: &CellRow,
    line: &[char],
) -> Result<CellRow, NoMemory>
    requires { from ≤ to }
    ensures { IfOk result (λ cells. cells ≡ with_line looks.now from to before.now line.now) }
{
    let (front, rest) = line.split_at(from.min(line.len()));
    let (selected, back) = rest.split_at((to - from).min(rest.len()));
    let mut cells = before.copy()?;
    cells.push_chars(front, Attrs::plain(), looks.control)?;
    cells.push_chars(selected, looks.selected, looks.control)?;
    cells.push_chars(back, Attrs::plain(), looks.control)?;
    Ok(cells)
}
