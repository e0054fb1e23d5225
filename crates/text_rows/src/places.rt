//! Where the places of a text are on the lines that it is drawn on.
ghost use Rattle.std.specs.Prelude.{◌≡◌, ◌<◌, ◌≤◌, IfOk, length};
ghost use Rattle.text_rows.specs.DrawnText.{IsDrawnText};
ghost use Rattle.text_rows.specs.Lines.{drawn_lines};
ghost use Rattle.cell_grid.specs.Attrs.{plain};
ghost use Rattle.cell_grid.specs.TextCells.{with_chars};
ghost use Rattle.text_rows.specs.Places.{cells_before, last_line, place_cell, place_line};
ghost use Rattle.win_view.specs.Contents.{line_at};

use crate::DrawnText;
use cell_grid::{Attrs, CellRow, NoMemory};
use text_doc::cut_line;

/// A line and a cell of it, each counted from 0.
#[derive(Clone, Copy, Debug, PartialEq, Eq)]
pub struct Place {
    pub line: usize,
    pub cell: usize,
}

/// Returns the line and the cell of a place of the text: the first cell behind those of what stands before the place.
pub fn place_of(drawn: &DrawnText, at: usize) -> Result<Place, NoMemory>
    requires drawn { IsDrawnText drawn.now }
    requires place { at ≤ length drawn.now.text }
    ensures line { IfOk result (λ place. place.line ≡ place_line drawn.now at) }
    ensures cell { IfOk result (λ place. place.cell ≡ place_cell drawn.now at) }
    ensures line_within { place_line drawn.now at < length (drawn_lines drawn.now) }
    ensures cell_within { place_cell drawn.now at
        < length (line_at (drawn_lines drawn.now) (place_line drawn.now at)) }
{
    let (front, _) = drawn.text.split_at(at);
    let mut left = front;
    let mut line = 0;
    while let Some((_, rest)) = cut_line(left) {
        left = rest;
        line += 1;
    }
    let before = cells_before(drawn, line);
    let cell = count_with(before, left)?;
    Ok(Place { line, cell })
}

/// Returns the cells before the characters of the line with this number.
fn cells_before<'a>(drawn: &DrawnText<'a>, line: usize) -> &'a CellRow
    ensures { result.now ≡ cells_before drawn.now line }
{
    if line == 0 {
        drawn.message
    } else {
        drawn.continuation
    }
}

/// Returns how many cells these are with those of the characters behind them.
fn count_with(before: &CellRow, chars: &[char]) -> Result<usize, NoMemory>
    ensures { IfOk result (λ count. count
        ≡ length (with_chars plain plain before.now chars.now)) }
{
    let mut cells = before.copy()?;
    cells.push_chars(chars, Attrs::plain(), Attrs::plain())?;
    Ok(cells.len())
}
