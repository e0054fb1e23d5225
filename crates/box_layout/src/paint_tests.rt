//! Drawings of windows at their places, worked out by hand.
ghost use Rattle.std.specs.Prelude.{◌+◌, ◌≤◌, IsTrue};
ghost use Rattle.box_layout.specs.Areas.{IsInside};
ghost use Rattle.box_layout.specs.Placed.{AllInside, AllOnScreen, area_of};
ghost use Rattle.win_view.specs.Contents.{IsContent};

use crate::areas::Area;
use crate::focus::cursor_of_all;
use crate::paint_cases::Look::{Bold, Plain, Reversed, Underlined};
use crate::paint_cases::{CASES, Case, Look, Run, WINDOW, Window};
use crate::shown_rows::shown_row;
use crate::{Pane, Placed, PlacedList, paint};
use cell_grid::{Attrs, CellRow, CellRows, Fragment, NoMemory, Size, cells_of};
use layout_dims::Dimension;
use sequences::Text;
use std::alloc::Global;
use std::process::Abort;
use std::test::Fail;
use win_view::{Content, Scroll};

fn attrs_of(look: Look) -> Attrs {
    let mut attrs = Attrs::plain();
    match look {
        Plain => {}
        Bold => attrs.bold = true,
        Underlined => attrs.underline = true,
        Reversed => attrs.reverse = true,
    }
    attrs
}

fn row_of(alloc: Global, runs: &[Run]) -> Result<CellRow, NoMemory> {
    let mut fragments = Vec::new(alloc);
    for (words, look) in runs {
        let attrs = attrs_of(*look);
        fragments.push(Fragment {
            attrs,
            control: attrs,
            text: Text::read_str(alloc, words)?,
        })?;
    }
    let row = cells_of(alloc, fragments.as_slice())?;
    Ok(row)
}

pub(crate) fn is_content(content: &Content) -> bool
    ensures { IsTrue result → IsContent content.now }
{
    let lines = content.lines.as_slice();
    let mut few = lines.len();
    for line in lines {
        few = few.saturating_add(line.len());
    }
    few < 1 << 31 && content.line < lines.len() && content.cell < lines[content.line].len()
}

fn is_part(start: u32, room: u32, from: u32, count: u32) -> bool
    ensures begins { IsTrue result → start ≤ from }
    ensures ends { IsTrue result → from + count ≤ start + room }
{
    start <= from && count <= room && from - start <= room - count
}

fn is_inside(one: &Placed, area: &Area) -> bool
    ensures { IsTrue result → IsInside area.now (area_of one.now) }
{
    is_part(area.row, area.size.rows(), one.row, one.size.rows())
        && is_part(area.col, area.size.cols(), one.col, one.size.cols())
}

fn are_inside(placed: &[Placed], area: &Area) -> bool
    ensures { IsTrue result → AllInside area.now placed.now }
{
    for one in placed {
        if !is_inside(one, area) {
            return false;
        }
    }
    true
}

fn are_on_screen(placed: &[Placed]) -> bool
    ensures { IsTrue result → AllOnScreen placed.now }
{
    for one in placed {
        if one.row > 1000 || one.col > 1000 {
            return false;
        }
    }
    true
}

fn size_of(size: (u32, u32)) -> Result<Size, Fail> {
    let size = Size::new(size.0, size.1).ok_or("size")?;
    Ok(size)
}

fn pane_of(rt: &(impl Abort + AllocGlobal), window: &Window) -> Result<Pane, Fail> {
    let mut lines = CellRows::new(rt.alloc());
    for words in window.lines {
        lines.push(row_of(rt.alloc(), &[(*words, window.look)])?)?;
    }
    let content = Content {
        lines,
        line: window.cursor.0,
        cell: window.cursor.1,
        wrap: window.wrap,
    };
    assert!(rt; is_content(&content));
    Ok(Pane {
        content,
        scroll: Scroll { down: 0, across: 0 },
        width: Dimension::new(1, 1, 1, 1).ok().ok_or("width")?,
        height: Dimension::new(1, 1, 1, 1).ok().ok_or("height")?,
        attrs: attrs_of(window.behind),
        focus: window.focus,
    })
}

fn panes_of(rt: &(impl Abort + AllocGlobal), windows: &[Window]) -> Result<Vec<Pane>, Fail> {
    let mut panes = Vec::new(rt.alloc());
    for window in windows {
        panes.push(pane_of(rt, window)?)?;
    }
    Ok(panes)
}

/// Returns each window at its place, and at the scroll of the case.
fn placed_in<'a>(
    rt: &(impl Abort + AllocGlobal),
    windows: &[Window],
    panes: &'a [Pane],
) -> Result<PlacedList<'a>, Fail> {
    let mut placed = PlacedList::new(rt.alloc());
    for (window, pane) in windows.iter().zip(panes) {
        placed.push(Placed {
            pane,
            scroll: Scroll {
                down: window.scroll.0,
                across: window.scroll.1,
            },
            row: window.place.0,
            col: window.place.1,
            size: size_of(window.size)?,
        })?;
    }
    Ok(placed)
}

fn assert_painted(rt: &(impl Abort + AllocGlobal), case: &Case) -> Result<(), Fail> {
    let what = case.what;
    let panes = panes_of(rt, case.windows)?;
    let placed = placed_in(rt, case.windows, panes.as_slice())?;
    let size = size_of(case.size)?;
    let all = Area {
        row: 0,
        col: 0,
        size,
    };
    assert!(rt; are_inside(placed.as_slice(), &all));
    assert!(rt; are_on_screen(placed.as_slice()));
    let drawing = paint(rt.alloc(), &placed, size)?;
    assert_eq!(rt; drawing.grid.rows() as usize, case.rows.len(), "{what}");
    let mut row = 0;
    for runs in case.rows {
        let cells = row_of(rt.alloc(), runs)?;
        assert!(rt; row < drawing.grid.rows());
        assert!(rt;
            drawing.grid.row(row) == cells.as_slice(),
            "{what}: row {row}"
        );
        row += 1;
    }
    let cursor = cursor_of_all(placed.as_slice());
    assert_eq!(rt; cursor, case.cursor, "{what}");
    assert_eq!(rt;
        (drawing.row, drawing.col),
        case.cursor.unwrap_or((0, 0)),
        "{what}"
    );
    Ok(())
}

/// Asserts what the first row of an area shows, where all windows are inside it.
fn assert_row(
    rt: &(impl Abort + AllocGlobal),
    windows: &[Window],
    area: &Area,
    wanted: &[Run],
) -> Result<(), Fail> {
    let panes = panes_of(rt, windows)?;
    let placed = placed_in(rt, windows, panes.as_slice())?;
    assert!(rt; are_inside(placed.as_slice(), area));
    let shown = shown_row(rt.alloc(), placed.as_slice(), area)?;
    let wanted = row_of(rt.alloc(), wanted)?;
    assert!(rt; shown.row(0) == wanted.as_slice());
    Ok(())
}

#[test]
fn paints_windows(rt: HostRuntime) -> Result<(), Fail> {
    for case in &CASES {
        assert_painted(&rt, case)?;
    }
    Ok(())
}

#[test]
fn shows_one_row(rt: HostRuntime) -> Result<(), Fail> {
    for case in &CASES {
        let area = Area {
            row: 0,
            col: 0,
            size: size_of(case.size)?,
        };
        let first = case.rows.first().ok_or("first row")?;
        assert_row(&rt, case.windows, &area, first)?;
    }
    let area = Area {
        row: 1,
        col: 2,
        size: size_of((2, 5))?,
    };
    let high = Window {
        lines: &["ab", "cd"],
        place: (1, 3),
        size: (2, 4),
        behind: Reversed,
        ..WINDOW
    };
    let low = Window {
        lines: &["xyz"],
        place: (2, 2),
        size: (1, 3),
        ..WINDOW
    };
    let wanted = [(" ", Plain), ("ab", Bold), ("  ", Reversed)];
    assert_row(&rt, &[high, low], &area, &wanted)?;
    Ok(())
}
