//! Windows of one line of text, and the sizes that windows ask for.
ghost use Rattle.std.specs.Prelude.{◌≡◌, ◌≤◌, ◌∷◌, [], IfOk, length};
ghost use Rattle.prompt_view.specs.Bars.{exactly, text_cells, text_pane, unscrolled};
ghost use Rattle.win_view.specs.Contents.{IsContent};

use box_layout::Pane;
use cell_grid::{Attrs, Cell, CellRow, CellRows, NoMemory};
use layout_dims::Dimension;
use std::alloc::Global;
use win_view::{Content, Scroll};

/// Returns a window of so many columns and one row that shows one line of text, and spaces with its attributes behind
/// it.
pub fn text_pane(
    alloc: Global,
    attrs: Attrs,
    control: Attrs,
    text: &[char],
    cols: u32,
) -> Result<Pane, NoMemory>
    requires text { length text.now ≤ 40000 }
    requires cols { cols ≤ 1000000 }
    ensures { IfOk result (λ pane. pane ≡ text_pane attrs control text.now cols) }
{
    let content = text_content(alloc, attrs, control, text, true)?;
    Ok(Pane {
        content,
        scroll: unscrolled(),
        width: exactly(cols),
        height: exactly(1),
        attrs,
        focus: false,
    })
}

/// Returns one line of text with these attributes, and a space behind it.
pub fn text_content(
    alloc: Global,
    attrs: Attrs,
    control: Attrs,
    text: &[char],
    wrap: bool,
) -> Result<Content, NoMemory>
    requires { length text.now ≤ 40000 }
    ensures content { IfOk result (λ content. content
        ≡ record { lines = text_cells attrs control text.now ∷ []; line = 0; cell = 0; wrap = wrap }) }
    ensures is { IfOk result IsContent }
{
    let cells = text_cells(alloc, attrs, control, text)?;
    let mut lines = CellRows::new(alloc);
    lines.push(cells)?;
    Ok(Content {
        lines,
        line: 0,
        cell: 0,
        wrap,
    })
}

/// Returns the cells of one line of text, and a space behind them.
fn text_cells(
    alloc: Global,
    attrs: Attrs,
    control: Attrs,
    text: &[char],
) -> Result<CellRow, NoMemory>
    ensures { IfOk result (λ cells. cells ≡ text_cells attrs control text.now) }
{
    let mut cells = CellRow::new(alloc);
    cells.push_chars(text, attrs, control)?;
    cells.push(Cell::narrow(' ', attrs))?;
    Ok(cells)
}

/// Returns the scroll of a window that is not scrolled.
pub fn unscrolled() -> Scroll
    ensures { result ≡ unscrolled }
{
    Scroll { down: 0, across: 0 }
}

/// Returns a dimension of so many rows or columns, neither more nor fewer.
pub fn exactly(count: u32) -> Dimension
    requires { count ≤ 1000000 }
    ensures { result ≡ exactly count }
{
    match Dimension::new(count, count, 1, count) {
        Ok(dimension) => dimension,
        Err(_) => unreachable!(),
    }
}
