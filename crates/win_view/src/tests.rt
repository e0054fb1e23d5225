//! Rows, scrolls and views worked out by hand.
ghost use Rattle.std.specs.Prelude.{IsTrue};
ghost use Rattle.win_view.specs.Contents.{IsContent};

use super::*;
use cell_grid::{Attrs, Cell, CellRow, CellRows, Fragment, Grid, NoMemory, Size, cells_of};
use std::alloc::Global;
use std::process::Abort;
use std::test::Fail;
use text_doc::Text;

fn bold() -> Attrs {
    Attrs {
        bold: true,
        ..Attrs::plain()
    }
}

fn fragment(alloc: Global, attrs: Attrs, words: &str) -> Result<Fragment, NoMemory> {
    let text = Text::read_str(alloc, words)?;
    Ok(Fragment {
        attrs,
        control: attrs,
        text,
    })
}

fn underlined() -> Attrs {
    Attrs {
        underline: true,
        ..Attrs::plain()
    }
}

/// Returns a row of bold characters, and plain ones behind them.
fn row_of(alloc: Global, strong: &str, plain: &str) -> Result<CellRow, NoMemory> {
    row_over(alloc, strong, plain, Attrs::plain())
}

/// Returns a row of bold characters, and others with these attributes behind them.
fn row_over(alloc: Global, strong: &str, others: &str, attrs: Attrs) -> Result<CellRow, NoMemory> {
    let fragments = [
        fragment(alloc, bold(), strong)?,
        fragment(alloc, attrs, others)?,
    ];
    let row = cells_of(alloc, &fragments)?;
    Ok(row)
}

fn assert_wrapped(
    rt: &(impl Abort + AllocGlobal),
    words: &str,
    width: u32,
    wanted: &[&str],
) -> Result<(), Fail> {
    let line = row_of(rt.alloc(), words, "")?;
    assert!(rt; width > 0 && line.len() < 100);
    let rows = wrap(rt.alloc(), &line, width)?;
    assert_eq!(rt; rows.len(), wanted.len(), "{words:?} at {width}");
    for (row, characters) in rows.as_slice().iter().zip(wanted) {
        let cells = row_of(rt.alloc(), characters, "")?;
        assert!(rt; row.as_slice() == cells.as_slice(), "{words:?} at {width}");
    }
    assert_eq!(rt; count_rows(line.as_slice(), 0, width), wanted.len());
    Ok(())
}

const WRAPPED: [(&str, u32, &[&str]); 14] = [
    ("", 3, &[""]),
    ("abc", 3, &["abc"]),
    ("abcd", 3, &["abc", "d"]),
    ("ab中c", 1, &["a", "b", "\u{fffd}", "c"]),
    ("ab中c", 2, &["ab", "中", "c"]),
    ("ab中c", 3, &["ab", "中c"]),
    ("ab中c", 4, &["ab中", "c"]),
    ("a中国b", 4, &["a中", "国b"]),
    ("中国", 3, &["中", "国"]),
    ("中国", 4, &["中国"]),
    ("中", 1, &["\u{fffd}"]),
    ("中\u{301}国", 1, &["\u{fffd}", "\u{fffd}"]),
    ("中e\u{301}x", 3, &["中e\u{301}", "x"]),
    ("", 1, &[""]),
];

#[test]
fn rows_of_a_line(rt: HostRuntime) -> Result<(), Fail> {
    for (words, width, wanted) in WRAPPED {
        assert_wrapped(&rt, words, width, wanted)?;
    }
    Ok(())
}

// Cells that are not there are counted behind those that are.
#[test]
fn rows_of_cells_not_built(rt: HostRuntime) -> Result<(), Fail> {
    for (words, more, width, wanted) in [
        ("", 0, 4, 1),
        ("", 4, 4, 1),
        ("", 5, 4, 2),
        ("ab", 5, 3, 3),
        ("中", 3, 3, 2),
        ("ab中", 1, 3, 2),
        ("ab中", 2, 3, 3),
        ("中", 2, 1, 3),
        ("", 3, 1, 3),
    ] {
        let line = row_of(rt.alloc(), words, "")?;
        assert!(rt; line.len() < 100);
        assert_eq!(rt;
            count_rows(line.as_slice(), more, width),
            wanted,
            "{words:?} {more}"
        );
    }
    Ok(())
}

#[test]
fn scrolls_to_the_cursor(rt: HostRuntime) {
    for (old, offset, cursor, window, content, wanted) in [
        (0, 0, 0, 3, 10, 0),
        (0, 0, 5, 3, 10, 3),
        (2, 0, 3, 3, 10, 2),
        (9, 0, 5, 3, 10, 5),
        (9, 0, 9, 3, 10, 7),
        (5, 0, 0, 3, 2, 0),
        (0, 1, 2, 3, 10, 1),
        (0, 1, 2, 2, 10, 1),
        (9, 1, 4, 3, 10, 3),
        (0, 1, 9, 5, 10, 5),
        (3, 1, 0, 5, 10, 0),
    ] {
        assert!(rt; cursor < content && window > 0);
        assert_eq!(rt; scroll_to(old, offset, cursor, window, content), wanted);
    }
}

fn is_content(content: &Content) -> bool
    ensures { IsTrue result → IsContent content.now }
{
    let lines = content.lines.as_slice();
    let mut few = lines.len();
    for line in lines {
        few = few.saturating_add(line.len());
    }
    few < 1 << 31 && content.line < lines.len() && content.cell < lines[content.line].len()
}

/// Returns lines of bold characters.
fn content_of(
    alloc: Global,
    lines: &[&str],
    line: usize,
    cell: usize,
    wrap: bool,
) -> Result<Content, NoMemory> {
    let mut rows = CellRows::new(alloc);
    for words in lines {
        rows.push(row_of(alloc, words, "")?)?;
    }
    Ok(Content {
        lines: rows,
        line,
        cell,
        wrap,
    })
}

// Five rows at width 3: `abc`, `d`, `ef`, `中 ` and a space. The scrolls are those down and across.
#[test]
fn settles_down_and_across(rt: HostRuntime) -> Result<(), Fail> {
    for (wrap, line, cell, old, wanted) in [
        (true, 1, 4, (0, 7), (2, 7)),
        (true, 1, 4, (4, 7), (3, 7)),
        (true, 0, 0, (4, 0), (0, 0)),
        (true, 2, 0, (0, 0), (3, 0)),
        (false, 1, 4, (0, 0), (0, 2)),
        (false, 1, 4, (9, 9), (1, 2)),
        (false, 0, 0, (9, 9), (0, 0)),
        (false, 2, 0, (0, 1), (1, 0)),
    ] {
        let content = content_of(rt.alloc(), &["abcd", "ef中 ", " "], line, cell, wrap)?;
        assert!(rt; is_content(&content));
        let size = Size::new(2, 3).ok_or("size")?;
        let rows = if wrap { 5 } else { 3 };
        assert_eq!(rt; height(&content, 3), rows);
        let old = Scroll {
            down: old.0,
            across: old.1,
        };
        let wanted = Scroll {
            down: wanted.0,
            across: wanted.1,
        };
        assert_eq!(rt; settle(rt.alloc(), &content, size, old)?, wanted);
    }
    Ok(())
}

// What a window shows: the cursor's line and cell, the window's rows and columns, the scroll, and then the rows, each
// as its bold and its plain characters, and the cursor.
type Shown = (
    bool,
    (usize, usize),
    (u32, u32),
    (u32, u32),
    &'static [(&'static str, &'static str)],
    (u32, u32),
);

const SHOWN: [Shown; 13] = [
    (
        true,
        (0, 5),
        (3, 3),
        (1, 0),
        &[("中c", ""), (" ", "  "), ("x", "  ")],
        (1, 0),
    ),
    (
        true,
        (1, 0),
        (5, 3),
        (0, 0),
        &[
            ("ab", " "),
            ("中c", ""),
            (" ", "  "),
            ("x", "  "),
            ("", "   "),
        ],
        (3, 0),
    ),
    (true, (0, 3), (1, 3), (1, 9), &[("中c", "")], (0, 1)),
    (true, (0, 0), (1, 3), (3, 0), &[("x", "  ")], (0, 0)),
    (
        true,
        (0, 0),
        (2, 3),
        (9, 0),
        &[("", "   "), ("", "   ")],
        (0, 0),
    ),
    (
        true,
        (0, 3),
        (2, 1),
        (2, 0),
        &[("\u{fffd}", ""), ("c", "")],
        (0, 0),
    ),
    (
        false,
        (0, 2),
        (2, 3),
        (0, 0),
        &[("ab ", ""), ("x", "  ")],
        (0, 2),
    ),
    (
        false,
        (0, 4),
        (2, 3),
        (0, 3),
        &[(" c ", ""), ("", "   ")],
        (0, 1),
    ),
    (false, (0, 2), (1, 2), (0, 2), &[("中", "")], (0, 0)),
    (false, (0, 2), (1, 1), (0, 2), &[(" ", "")], (0, 0)),
    (false, (0, 3), (1, 1), (0, 3), &[(" ", "")], (0, 0)),
    (
        false,
        (1, 0),
        (2, 2),
        (1, 0),
        &[("x", " "), ("", "  ")],
        (0, 0),
    ),
    (false, (0, 4), (1, 2), (0, 9), &[("", "  ")], (0, 0)),
];

/// Asserts what is shown over blanks, and over spaces with attributes.
fn assert_shown(
    rt: &(impl Abort + AllocGlobal),
    shown: &Shown,
    behind: Option<Attrs>,
) -> Result<(), Fail> {
    let (wrap, (line, cell), (rows, cols), (down, across), wanted, cursor) = *shown;
    let content = content_of(rt.alloc(), &["ab中c ", "x"], line, cell, wrap)?;
    assert!(rt; is_content(&content));
    let size = Size::new(rows, cols).ok_or("size")?;
    let scroll = Scroll { down, across };
    let seen = match behind {
        None => view(rt.alloc(), &content, size, scroll)?,
        Some(attrs) => view_with(rt.alloc(), &content, size, scroll, attrs)?,
    };
    assert_eq!(rt; seen.grid.rows() as usize, wanted.len());
    assert_eq!(rt; (seen.row, seen.col), cursor);
    assert_eq!(rt; seen_cursor(&content, size, scroll), cursor);
    let attrs = behind.unwrap_or(Attrs::plain());
    let mut row = 0;
    for (strong, others) in wanted {
        let cells = row_over(rt.alloc(), strong, others, attrs)?;
        assert!(rt; row < seen.grid.rows());
        assert!(rt;
            seen.grid.row(row) == cells.as_slice(),
            "{wrap} {down} {across}: {strong:?}"
        );
        row += 1;
    }
    Ok(())
}

#[test]
fn views_of_a_window(rt: HostRuntime) -> Result<(), Fail> {
    for shown in &SHOWN {
        assert_shown(&rt, shown, None)?;
        assert_shown(&rt, shown, Some(underlined()))?;
    }
    Ok(())
}

// What a part of a grid shows: whether lines wrap, the lines, the scroll, and the part's rows, each as its bold
// characters and the spaces behind them.
type Part = (
    bool,
    &'static [&'static str],
    (u32, u32),
    &'static [(&'static str, &'static str)],
);

const PARTS: [Part; 3] = [
    (
        true,
        &["ab中c"],
        (0, 0),
        &[("ab中", ""), ("c", "   "), ("", "    ")],
    ),
    (
        true,
        &["ab中c", "国人"],
        (1, 0),
        &[("c", "   "), ("国人", ""), ("", "    ")],
    ),
    (
        false,
        &["ab中cd国", "x"],
        (0, 3),
        &[(" cd ", ""), ("", "    "), ("", "    ")],
    ),
];

/// Returns a grid of five rows, each of three wide characters.
fn wide_grid(rt: &(impl Abort + AllocGlobal)) -> Result<Grid, Fail> {
    let wide = row_of(rt.alloc(), "", "中国人")?;
    let mut grid = Grid::blank(rt.alloc(), 5, 6)?;
    for row in 0..5 {
        assert!(rt; row < grid.rows() && wide.len() <= grid.cols() as usize);
        grid.lay(row, 0, wide.as_slice());
    }
    Ok(grid)
}

/// Asserts that the part has three rows and four columns, and parts a wide character at either side, of which a blank
/// is left.
fn assert_part(rt: &(impl Abort + AllocGlobal), part: &Part) -> Result<(), Fail> {
    let (wrap, lines, (down, across), wanted) = *part;
    let content = content_of(rt.alloc(), lines, 0, 0, wrap)?;
    assert!(rt; is_content(&content));
    let viewport = Viewport {
        row: 1,
        col: 1,
        size: Size::new(3, 4).ok_or("size")?,
        behind: underlined(),
    };
    let mut grid = wide_grid(rt)?;
    assert!(rt; 1 + viewport.size.rows() <= grid.rows());
    assert!(rt; 1 + viewport.size.cols() <= grid.cols());
    show(
        rt.alloc(),
        &content,
        Scroll { down, across },
        &viewport,
        &mut grid,
    )?;
    let wide = row_of(rt.alloc(), "", "中国人")?;
    assert!(rt; 4 < grid.rows());
    assert!(rt; grid.row(0) == wide.as_slice() && grid.row(4) == wide.as_slice());
    let mut row = 1;
    for (strong, spaces) in wanted {
        let cells = row_over(rt.alloc(), strong, spaces, underlined())?;
        assert!(rt; row < grid.rows());
        let shown = grid.row(row);
        assert!(rt; shown.len() == 6);
        assert!(rt; shown[0] == Cell::blank() && shown[5] == Cell::blank());
        assert!(rt;
            &shown[1..5] == cells.as_slice(),
            "{wrap} {down} {across}: {strong:?}"
        );
        row += 1;
    }
    assert_eq!(rt; row, 4);
    Ok(())
}

#[test]
fn parts_of_a_grid(rt: HostRuntime) -> Result<(), Fail> {
    for part in &PARTS {
        assert_part(&rt, part)?;
    }
    Ok(())
}
