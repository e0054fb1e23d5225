//! Where the cursor of a content stands.
ghost use Rattle.std.specs.Prelude.{◌≡◌, ◌<◌, ◌≤◌, ◌^◌, length, false, true};
ghost use Rattle.win_view.specs.Contents.{IsContent, content_rows, cursor_col, cursor_row};
ghost use Rattle.win_view.specs.Views.{seen_col, seen_row};

use crate::heights::wrapped_height;
use crate::places::{Place, place_in_line};
use crate::{Content, Scroll};
use cell_grid::Size;

/// Returns the row and the column of the cursor in the content. The rows above it are counted, and not built.
pub fn cursor_place(content: &Content, width: u32) -> Place
    requires content { IsContent content.now }
    requires width { 1 ≤ width }
    ensures row { result.row ≡ cursor_row content.now width }
    ensures col { result.col ≡ cursor_col content.now width }
    ensures row_within { result.row < length (content_rows content.now width) }
    ensures row_fits { result.row < 2 ^ 31 }
    ensures col_within { content.now.wrap ≡ true → result.col < width }
    ensures col_fits { result.col < 2 ^ 32 }
    ensures col_few { content.now.wrap ≡ false → result.col < 2 ^ 31 }
{
    if !content.wrap {
        return Place {
            row: content.line,
            col: content.cell,
        };
    }
    let lines = content.lines.as_slice();
    let (above, _) = lines.split_at(content.line);
    let line = &lines[content.line];
    let place = place_in_line(line.as_slice(), content.cell, width as usize);
    Place {
        row: wrapped_height(above, width) + place.row,
        col: place.col,
    }
}

/// Returns the row and the column of the cursor in a window of this size: those in the content less the scroll, and 0
/// where the scroll is greater. The window's cells are not built.
pub fn seen_cursor(content: &Content, size: Size, scroll: Scroll) -> (u32, u32)
    requires { IsContent content.now }
    ensures row { result.0 ≡ seen_row content.now size.cols scroll.down }
    ensures col { result.1 ≡ seen_col content.now.wrap content.now size.cols scroll.across }
    ensures row_fits { result.0 < 2 ^ 31 }
    ensures col_fits { result.1 < 2 ^ 31 }
{
    let place = cursor_place(content, size.cols());
    let row = (place.row as u32).saturating_sub(scroll.down);
    let col = place.col as u32;
    if content.wrap {
        return (row, col);
    }
    (row, col.saturating_sub(scroll.across))
}
