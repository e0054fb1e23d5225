//! The scroll with which a window shows its cursor.
ghost use Rattle.std.specs.Prelude.{◌≡◌, IsOkAnd};
ghost use Rattle.win_view.specs.Contents.{IsContent};
ghost use Rattle.win_view.specs.Settling.{settled};

use crate::cursors::cursor_place;
use crate::{Content, Scroll, height, scroll_to};
use cell_grid::{NoMemory, Size};
use std::alloc::Global;

/// Returns the scroll at which a window of this size shows the content's cursor, as near to the old one as can be.
/// Where lines wrap, it goes down alone. It takes no memory, so it never fails.
pub fn settle(
    _alloc: Global,
    content: &Content,
    size: Size,
    old: Scroll,
) -> Result<Scroll, NoMemory>
    requires { IsContent content.now }
    ensures { IsOkAnd result (λ scroll. scroll ≡ settled content.now size old) }
{
    let place = cursor_place(content, size.cols());
    let rows = height(content, size.cols());
    let down = scroll_to(old.down, 0, place.row as u32, size.rows(), rows);
    if content.wrap {
        return Ok(Scroll {
            down,
            across: old.across,
        });
    }
    let line = &content.lines.as_slice()[content.line];
    let across = scroll_to(
        old.across,
        0,
        place.col as u32,
        size.cols(),
        line.len() as u32,
    );
    Ok(Scroll { down, across })
}
