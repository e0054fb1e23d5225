//! What a window shows of a text.
ghost use Rattle.std.specs.Prelude.{◌≡◌, ◌+◌, ◌<◌, ◌≤◌, ◌^◌, IfOk, length, sum_by};
ghost use Rattle.text_rows.specs.DrawnText.{IsDrawnText};
ghost use Rattle.text_rows.specs.Places.{content_at};
ghost use Rattle.win_view.specs.Contents.{IsContent};

use crate::DrawnText;
use crate::lines::drawn_lines;
use crate::places::place_of;
use cell_grid::NoMemory;
use std::alloc::Global;
use win_view::Content;

/// Returns what a window shows of a text, with its cursor at a place. The cells of all lines are built.
pub fn content(alloc: Global, drawn: &DrawnText, at: usize, wrap: bool) -> Result<Content, NoMemory>
    requires drawn { IsDrawnText drawn.now }
    requires place { at ≤ length drawn.now.text }
    ensures content { IfOk result (λ content. content ≡ content_at drawn.now at wrap) }
    ensures is { IfOk result IsContent }
{
    let place = place_of(drawn, at)?;
    let lines = drawn_lines(alloc, drawn)?;
    Ok(Content {
        lines,
        line: place.line,
        cell: place.cell,
        wrap,
    })
}
