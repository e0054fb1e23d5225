//! How many rows a content has.
ghost use Rattle.std.specs.Prelude.{◌≡◌, ◌+◌, ◌<◌, ◌≤◌, ◌^◌, length, sum_by, flat_map};
ghost use Rattle.win_view.specs.Contents.{IsContent, content_rows};
ghost use Rattle.win_view.specs.Rows.{rows_of};

use crate::Content;
use crate::rows::count_rows;
use cell_grid::CellRow;

/// Returns how many rows the content has at this width. It counts them, and builds none.
pub fn height(content: &Content, width: u32) -> u32
    requires content { IsContent content.now }
    requires width { 1 ≤ width }
    ensures { result ≡ length (content_rows content.now width) }
{
    if content.wrap {
        wrapped_height(content.lines.as_slice(), width) as u32
    } else {
        content.lines.len() as u32
    }
}

/// Returns how many rows these lines have where they are wrapped.
pub fn wrapped_height(lines: &[CellRow], width: u32) -> usize
    requires width { 1 ≤ width }
    requires few { length lines.now + sum_by length lines.now < 2 ^ 31 }
    ensures value { result ≡ length (flat_map (rows_of width) lines.now) }
    ensures few { result ≤ length lines.now + sum_by length lines.now }
{
    let mut rows = 0;
    for line in lines {
        rows += count_rows(line.as_slice(), 0, width);
    }
    rows
}
