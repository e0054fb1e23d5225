//! The content of a window, shown in a part of a grid.
ghost use Rattle.std.specs.Prelude.{◌≡◌, ◌+◌, ◌≤◌, OnErr, OnOk, flat_map, length, map};
ghost use Rattle.std.specs.List.{All};
ghost use Rattle.cell_grid.specs.Grid.{AllRows, blitted, columns};
ghost use Rattle.win_view.specs.Contents.{IsContent};
ghost use Rattle.win_view.specs.Greedy.{IsHeld};
ghost use Rattle.win_view.specs.Rows.{rows_of};
ghost use Rattle.win_view.specs.Showing.{HasRoom, part_of, shown_of};
ghost use Rattle.win_view.specs.Views.{columns_from, window_rows_with};

use crate::layings::Laying;
use crate::{Content, Scroll, Viewport};
use cell_grid::{CellRow, Grid, NoMemory};
use std::alloc::Global;

/// Shows a content in a part of a grid, from this scroll on, in one walk over the cells of the part. A half of a wide
/// character of the grid that stays uncovered becomes blank. Each row of the window is as wide as the part and parts no
/// wide character. It takes memory for one row of spaces alone, and where there is none the grid stays as it was. The
/// rows above the window are counted, and not built.
pub fn show(
    alloc: Global,
    content: &Content,
    scroll: Scroll,
    viewport: &Viewport,
    grid: &mut Grid,
) -> Result<(), NoMemory>
    requires content { IsContent content.now }
    requires rows_fit { viewport.now.row + viewport.now.size.rows ≤ length grid.old }
    requires cols_fit { viewport.now.col + viewport.now.size.cols ≤ columns grid.old }
    ensures shows { OnOk result (grid.new
        ≡ blitted grid.old
        (window_rows_with viewport.now.behind content.now viewport.now.size scroll)
        viewport.now.row viewport.now.col) }
    ensures every { OnOk result (AllRows viewport.now.size.cols
        (window_rows_with viewport.now.behind content.now viewport.now.size scroll)) }
    ensures err { OnErr result (grid.new ≡ grid.old) }
    ensures rows { length grid.new ≡ length grid.old }
    ensures cols { columns grid.new ≡ columns grid.old }
{
    let laying = Laying::new(alloc, viewport, grid)?;
    let lines = content.lines.as_slice();
    if content.wrap {
        show_wrapped(laying, lines, scroll.down, grid);
        return Ok(());
    }
    let (_, below) = lines.split_at((scroll.down as usize).min(lines.len()));
    show_cut(laying, below, scroll.across as usize, grid);
    Ok(())
}

/// Shows these lines wrapped, from the row `down` on.
fn show_wrapped(mut laying: Laying, lines: &[CellRow], down: u32, grid: &mut Grid)
    requires { HasRoom laying grid.old }
    ensures shows { grid.new
        ≡ blitted grid.old (part_of laying
        (shown_of laying down (flat_map (rows_of (length laying.spaces.items)) lines.now)))
        laying.row laying.col }
    ensures held { All (IsHeld (length laying.spaces.items))
        (shown_of laying down (flat_map (rows_of (length laying.spaces.items)) lines.now)) }
    ensures cols { columns grid.new ≡ columns grid.old }
{
    laying.above = down;
    laying.show_lines(lines, grid);
    laying.show_spaces(grid);
}

/// Shows the columns of these lines from `across` on.
fn show_cut(mut laying: Laying, lines: &[CellRow], across: usize, grid: &mut Grid)
    requires { HasRoom laying grid.old }
    ensures shows { grid.new
        ≡ blitted grid.old (part_of laying
        (shown_of laying 0 (map (columns_from across (length laying.spaces.items)) lines.now)))
        laying.row laying.col }
    ensures held { All (IsHeld (length laying.spaces.items))
        (shown_of laying 0 (map (columns_from across (length laying.spaces.items)) lines.now)) }
    ensures cols { columns grid.new ≡ columns grid.old }
{
    laying.above = 0;
    laying.show_columns(lines, across, grid);
    laying.show_spaces(grid);
}
