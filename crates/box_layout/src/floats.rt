//! Where floats stand over what is in their box.
ghost use Rattle.std.specs.Prelude.{◌≡◌, ◌+◌, ◌≤◌, ◌++◌, drop, take, length, None, Some, IfOk, OnOk};
ghost use Rattle.std.specs.List.{list_all};
ghost use Rattle.cell_grid.specs.Cell.{blank, same_cell};
ghost use Rattle.box_layout.specs.Areas.{IsDrawable};
ghost use Rattle.box_layout.specs.Floats.{near_rows, near_area, is_from, is_free, top_right_area, float_area};
ghost use Rattle.box_layout.specs.Floats.{with_floats};
ghost use Rattle.box_layout.specs.Placed.{AllInside};

use crate::areas::Area;
use crate::focus::cursor_of_all;
use crate::shown_rows::shown_row;
use crate::{Float, FloatPlace, Pane, Placed, PlacedList};
use cell_grid::{Cell, NoMemory};
use std::alloc::Global;

/// Adds the panes of the floats of a box that have a place, each over those behind a place of the
/// list, which are those of the box.
pub(crate) fn place_floats<'a>(
    alloc: Global,
    floats: &'a [Float],
    area: &Area,
    first: usize,
    placed: &mut PlacedList<'a>,
) -> Result<(), NoMemory>
    requires within { first ≤ length placed.old }
    requires inside { AllInside area.now (drop first placed.old) }
    requires drawable { IsDrawable area.now }
    ensures { OnOk result (placed.new
        ≡ take first placed.old ++ with_floats area.now (drop first placed.old) floats.now) }
{
    for float in floats {
        let pane: &Pane = &float.pane;
        let under = &placed.as_slice()[first..];
        if let Some(found) = float_area(alloc, under, area, pane, &float.place)? {
            placed.push(Placed {
                pane,
                scroll: pane.scroll,
                row: found.row,
                col: found.col,
                size: found.size,
            })?;
        }
    }
    Ok(())
}

/// Returns the area of a float, over what stands in its box before it.
fn float_area(
    alloc: Global,
    under: &[Placed],
    area: &Area,
    pane: &Pane,
    place: &FloatPlace,
) -> Result<Option<Area>, NoMemory>
    requires inside { AllInside area.now under.now }
    requires drawable { IsDrawable area.now }
    ensures { IfOk result (λ found. found ≡ float_area under.now area.now pane.now place.now) }
{
    match place {
        FloatPlace::TopRight => top_right_area(alloc, under, area, pane),
        FloatPlace::Near { row, col } => Ok(near_area(area, *row, *col, pane)),
    }
}

/// Returns the area of a float near a place of a box, if the place is in the box.
fn near_area(area: &Area, row: u32, col: u32, pane: &Pane) -> Option<Area>
    requires drawable { IsDrawable area.now }
    ensures { result ≡ near_area area.now row col pane.now }
{
    let rows = area.size.rows();
    let cols = area.size.cols();
    if row >= rows || col >= cols {
        return None;
    }
    let (_, _, _, height) = pane.height.numbers();
    let (_, _, _, width) = pane.width.numbers();
    let (first, height) = near_rows(row, rows - 1 - row, height);
    let width = width.min(cols);
    Area::from(
        area.row + first,
        area.col + col.min(cols - width),
        height,
        width,
    )
}

/// Returns the first row and the height of a float near a row with so many rows below it.
fn near_rows(row: u32, below: u32, height: u32) -> (u32, u32)
    requires few { row + below ≤ 500 }
    ensures { result ≡ near_rows row below height }
{
    if height <= below {
        return (row + 1, height);
    }
    if row <= below {
        return (row + 1, below);
    }
    (row - height.min(row), height.min(row))
}

/// Returns the area of a float at the right end of a box's first row, if it fits and is free.
fn top_right_area(
    alloc: Global,
    under: &[Placed],
    area: &Area,
    pane: &Pane,
) -> Result<Option<Area>, NoMemory>
    requires inside { AllInside area.now under.now }
    requires drawable { IsDrawable area.now }
    ensures { IfOk result (λ found. found ≡ top_right_area under.now area.now pane.now) }
{
    let cols = area.size.cols();
    let (_, _, _, width) = pane.width.numbers();
    if width > cols || !is_free(alloc, under, area, width)? {
        return Ok(None);
    }
    Ok(Area::from(area.row, area.col + (cols - width), 1, width))
}

/// Tells whether the last columns of a box's first row show blanks alone, and not the cursor.
fn is_free(alloc: Global, under: &[Placed], area: &Area, count: u32) -> Result<bool, NoMemory>
    requires inside { AllInside area.now under.now }
    requires drawable { IsDrawable area.now }
    requires within { count ≤ area.now.size.cols }
    ensures { IfOk result (λ free. free ≡ is_free under.now area.now count) }
{
    let first = area.size.cols() - count;
    let grid = shown_row(alloc, under, area)?;
    let blanks = are_blank(grid.row(0), first as usize);
    Ok(blanks && !is_from(cursor_of_all(under), area.row, area.col + first, count))
}

/// Tells whether the cells behind the first ones are blanks.
fn are_blank(cells: &[Cell], first: usize) -> bool
    ensures { result ≡ list_all (λ cell. same_cell cell blank) (drop first cells.now) }
{
    let blank = Cell::blank();
    cells.iter().skip(first).all(|cell| *cell == blank)
}

/// Tells whether a cursor stands in a row from a column on.
fn is_from(cursor: Option<(u32, u32)>, row: u32, col: u32, count: u32) -> bool
    requires few { col + count ≤ 1000 }
    ensures { result ≡ is_from cursor row col count }
{
    match cursor {
        Some((cursor_row, cursor_col)) => {
            cursor_row == row && col <= cursor_col && cursor_col < col + count
        },
        None => false,
    }
}
