//! The menu of completions as a window.
ghost use Rattle.std.specs.Prelude.{◌≡◌, ◌+◌, ◌<◌, ◌≤◌, All, IfOk, OnOk, length, map, slice_get};
ghost use Rattle.std.specs.List.{range_with_len};
ghost use Rattle.layout_dims.specs.Numbers.{greatest};
ghost use Rattle.prompt_view.specs.Floats.{asked_menu_rows, columns_of, first_item, is_chosen, item_attrs, item_row};
ghost use Rattle.prompt_view.specs.Floats.{menu_cols, menu_pane, menu_rows, near_row, row_with, text_of};
ghost use Rattle.prompt_view.specs.Rooms.{window_of};
ghost use Rattle.prompt_view.specs.Scene.{IsScene};
ghost use Rattle.win_view.specs.Contents.{line_at};
ghost use Rattle.win_view.specs.Rows.{rows_of};
ghost use Rattle.win_view.specs.Views.{filled_with};

use crate::Scene;
use crate::panes::{exactly, unscrolled};
use box_layout::Pane;
use cell_grid::{Attrs, Cell, CellRow, CellRows, NoMemory, Size};
use std::alloc::Global;
use text_doc::Completion;
use win_view::{Content, scroll_to, wrap};

/// The most rows of a menu.
const MOST_ROWS: usize = 16;

/// The fewest columns of a menu, where the screen has so many.
const FEWEST_COLS: usize = 7;

/// Returns the window of the menu, which has so many rows on the screen.
pub fn menu_pane(alloc: Global, scene: &Scene, rows: u32) -> Result<Pane, NoMemory>
    requires scene { IsScene scene.now }
    requires items { 0 < length scene.now.items }
    requires rows { rows ≡ menu_rows scene.now }
    requires some { 1 ≤ rows }
    requires few { rows ≤ 16 }
    ensures { IfOk result (λ pane. pane ≡ menu_pane scene.now) }
{
    let cols = menu_cols(alloc, scene)?;
    let height = asked_menu_rows(scene);
    let lines = item_rows(alloc, scene, first_item(scene, rows), rows, cols)?;
    Ok(Pane {
        content: Content {
            lines,
            line: 0,
            cell: 0,
            wrap: false,
        },
        scroll: unscrolled(),
        width: exactly(cols),
        height: exactly(height),
        attrs: scene.looks.menu,
        focus: false,
    })
}

/// Returns how many rows the menu has near its place, which is in this row of the buffer's window.
pub fn menu_rows(scene: &Scene, row: u32, window: Size) -> u32
    requires row { row ≡ near_row scene.now }
    requires window { window ≡ window_of scene.now }
    requires within { row < window.rows }
    ensures rows { result ≡ menu_rows scene.now }
    ensures few { result ≤ 16 }
{
    let below = window.rows() - 1 - row;
    asked_menu_rows(scene).min(below.max(row))
}

/// Returns how many rows the menu asks for.
fn asked_menu_rows(scene: &Scene) -> u32
    ensures rows { result ≡ asked_menu_rows scene.now }
    ensures few { result ≤ 16 }
{
    MOST_ROWS.min(scene.items.len()) as u32
}

/// Returns how many columns the menu has.
fn menu_cols(alloc: Global, scene: &Scene) -> Result<u32, NoMemory>
    ensures cols { IfOk result (λ cols. cols ≡ menu_cols scene.now) }
    ensures some { IfOk result (λ cols. 1 ≤ cols) }
    ensures few { IfOk result (λ cols. cols ≤ 1000) }
{
    let widest = widest_item(alloc, scene.items)?;
    let most = scene.size.cols() as usize;
    let cols = widest.saturating_add(2).max(FEWEST_COLS).min(most);
    Ok(cols as u32)
}

/// Returns the columns of the widest item.
fn widest_item(alloc: Global, items: &[Completion]) -> Result<usize, NoMemory>
    ensures { IfOk result (λ widest. widest
        ≡ greatest (map (λ item. columns_of item.text) items.now)) }
{
    let mut widest = 0;
    for item in items {
        let cols = columns_of(alloc, item.text.as_slice())?;
        widest = widest.max(cols);
    }
    Ok(widest)
}

/// Returns how many columns a text has where it stands alone.
pub fn columns_of(alloc: Global, text: &[char]) -> Result<usize, NoMemory>
    ensures { IfOk result (λ cols. cols ≡ columns_of text.now) }
{
    let mut cells = CellRow::new(alloc);
    cells.push_chars(text, Attrs::plain(), Attrs::plain())?;
    Ok(cells.len())
}

/// Returns the number of the first item that is shown.
fn first_item(scene: &Scene, rows: u32) -> u32
    requires scene { IsScene scene.now }
    requires items { 0 < length scene.now.items }
    requires rows { rows ≡ menu_rows scene.now }
    requires some { 1 ≤ rows }
    ensures item { result ≡ first_item scene.now }
    ensures few { result ≤ 10000 }
{
    let chosen = scene.chosen.unwrap_or(0);
    scroll_to(0, 1, chosen as u32, rows, scene.items.len() as u32)
}

/// Returns the rows of so many items from one on.
fn item_rows(
    alloc: Global,
    scene: &Scene,
    first: u32,
    rows: u32,
    cols: u32,
) -> Result<CellRows, NoMemory>
    requires cols { cols ≡ menu_cols scene.now }
    requires some { 1 ≤ cols }
    requires few_cols { cols ≤ 1000 }
    requires few_rows { first + rows ≤ 20000 }
    ensures rows { IfOk result (λ lines. lines
        ≡ map (item_row scene.now) (range_with_len first rows)) }
    ensures long { IfOk result (λ lines. All (λ row. length row ≡ cols) lines) }
{
    let mut lines = CellRows::new(alloc);
    for at in 0..rows {
        let row = item_row(alloc, scene, (first + at) as usize, cols)?;
        lines.push(row)?;
    }
    Ok(lines)
}

/// Returns the row of an item.
fn item_row(alloc: Global, scene: &Scene, item: usize, cols: u32) -> Result<CellRow, NoMemory>
    requires cols { cols ≡ menu_cols scene.now }
    requires some { 1 ≤ cols }
    requires few { cols ≤ 1000 }
    ensures row { IfOk result (λ row. row ≡ item_row scene.now item) }
    ensures long { IfOk result (λ row. length row ≡ cols) }
{
    let attrs = item_attrs(scene, item);
    let text = item_text(scene.items, item);
    let row = row_with(alloc, attrs, scene.looks.control, cols, text)?;
    Ok(row)
}

/// Returns the text of an item, an empty one where there is no such item.
fn item_text<'a>(items: &'a [Completion], item: usize) -> &'a [char]
    ensures { result.now ≡ text_of (slice_get items.now item) }
{
    match items.get(item) {
        Some(item) => item.text.as_slice(),
        None => &[],
    }
}

/// Returns the attributes of an item.
fn item_attrs(scene: &Scene, item: usize) -> Attrs
    ensures { result ≡ item_attrs scene.now item }
{
    if is_chosen(scene.chosen, item) {
        scene.looks.chosen
    } else {
        scene.looks.menu
    }
}

/// Tells whether an item is the chosen one.
fn is_chosen(chosen: Option<usize>, item: usize) -> bool
    ensures { result ≡ is_chosen chosen item }
{
    match chosen {
        Some(chosen) => chosen == item,
        None => false,
    }
}

/// Returns a row of so many columns: a space, whole characters of a text, and spaces.
fn row_with(
    alloc: Global,
    attrs: Attrs,
    control: Attrs,
    cols: u32,
    text: &[char],
) -> Result<CellRow, NoMemory>
    requires some { 1 ≤ cols }
    requires few { cols ≤ 1000 }
    ensures row { IfOk result (λ row. row ≡ row_with attrs control cols text.now) }
    ensures long { IfOk result (λ row. length row ≡ cols) }
{
    let mut cells = CellRow::new(alloc);
    cells.push(Cell::narrow(' ', attrs))?;
    cells.push_chars(text, attrs, control)?;
    let mut row = first_row(alloc, &cells, (cols - 1).max(1))?;
    fill(&mut row, attrs, cols as usize)?;
    Ok(row)
}

/// Returns the first of the rows of this width that a line has.
fn first_row(alloc: Global, cells: &CellRow, width: u32) -> Result<CellRow, NoMemory>
    requires { 1 ≤ width }
    ensures row { IfOk result (λ row. row ≡ line_at (rows_of width cells.now) 0) }
    ensures fits { IfOk result (λ row. length row ≤ width) }
{
    prove!(cells.as_slice().len() == cells.len());
    let rows = wrap(alloc, cells, width)?;
    match rows.get(0) {
        Some(row) => {
            let row = row.copy()?;
            Ok(row)
        }
        None => Ok(CellRow::new(alloc)),
    }
}

/// Adds spaces with these attributes behind the cells of a row, up to this width.
fn fill(row: &mut CellRow, attrs: Attrs, width: usize) -> Result<(), NoMemory>
    ensures { OnOk result (row.new ≡ filled_with attrs width row.old) }
{
    while row.len() < width {
        row.push(Cell::narrow(' ', attrs))?;
    }
    Ok(())
}
