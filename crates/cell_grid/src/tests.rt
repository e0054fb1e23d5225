//! Cells of texts, rows and grids worked out by hand, and each call that allocates once with ample memory.
ghost use Rattle.std.specs.Prelude.{◌≡◌, length};
ghost use Rattle.cell_grid.specs.Cell.{IsLead, spread};

use super::*;
use sequences::{Sequence, Text};
use std::alloc::Global;
use std::process::Abort;
use std::test::Fail;

fn bold() -> Attrs {
    Attrs {
        bold: true,
        ..Attrs::plain()
    }
}

fn wide(c: char) -> Cell
    ensures lead { IsLead result }
    ensures columns { length (spread result) ≡ 2 }
{
    Cell::Lead {
        text: CellText::new(c),
        width: 2,
        attrs: bold(),
    }
}

fn fragment(alloc: Global, words: &str) -> Result<Fragment, NoMemory> {
    let text = Text::read_str(alloc, words)?;
    Ok(Fragment {
        attrs: Attrs::plain(),
        control: bold(),
        text,
    })
}

/// Returns a row of Leads, each told by its characters, its width and whether it is bold.
fn row_of(alloc: Global, leads: &[(&str, u8, bool)]) -> Result<CellRow, NoMemory> {
    let mut row = CellRow::new(alloc);
    for (words, width, is_bold) in leads {
        let attrs = if *is_bold { bold() } else { Attrs::plain() };
        let mut chars = words.chars();
        let Some(first) = chars.next() else {
            continue;
        };
        let mut text = CellText::new(first);
        for c in chars {
            text.join(c);
        }
        if *width == 1 || *width == 2 {
            row.push(Cell::Lead {
                text,
                width: *width,
                attrs,
            })?;
        }
    }
    Ok(row)
}

fn assert_drawn(
    rt: &(impl Abort + AllocGlobal),
    words: &str,
    leads: &[(&str, u8, bool)],
) -> Result<(), Fail> {
    let drawn = cells_of(rt.alloc(), &[fragment(rt.alloc(), words)?])?;
    let wanted = row_of(rt.alloc(), leads)?;
    assert!(rt; drawn.as_slice() == wanted.as_slice(), "{words:?}");
    Ok(())
}

// What a text is drawn as: its Leads, worked out by hand.
const DRAWN: [(&str, &[(&str, u8, bool)]); 17] = [
    ("ab", &[("a", 1, false), ("b", 1, false)]),
    (
        "\u{0}\t",
        &[
            ("^", 1, true),
            ("@", 1, true),
            ("^", 1, true),
            ("I", 1, true),
        ],
    ),
    (
        "\u{1b}\u{1f}",
        &[
            ("^", 1, true),
            ("[", 1, true),
            ("^", 1, true),
            ("_", 1, true),
        ],
    ),
    ("\u{7f}", &[("^", 1, true), ("?", 1, true)]),
    (
        "\u{80}",
        &[
            ("<", 1, true),
            ("8", 1, true),
            ("0", 1, true),
            (">", 1, true),
        ],
    ),
    (
        "\u{9f}",
        &[
            ("<", 1, true),
            ("9", 1, true),
            ("f", 1, true),
            (">", 1, true),
        ],
    ),
    (
        "~\u{a0}\u{a1}",
        &[("~", 1, false), (" ", 1, false), ("\u{a1}", 1, false)],
    ),
    ("中x", &[("中", 2, false), ("x", 1, false)]),
    ("e\u{301}x", &[("e\u{301}", 1, false), ("x", 1, false)]),
    ("中\u{301}\u{302}", &[("中\u{301}\u{302}", 2, false)]),
    ("\u{1b}\u{301}", &[("^", 1, true), ("[\u{301}", 1, true)]),
    ("\u{a0}\u{301}", &[(" \u{301}", 1, false)]),
    ("\u{301}\u{302}a", &[("a", 1, false)]),
    (
        "a12345\u{301}\u{301}",
        &[
            ("a", 1, false),
            ("1", 1, false),
            ("2", 1, false),
            ("3", 1, false),
            ("4", 1, false),
            ("5\u{301}\u{301}", 1, false),
        ],
    ),
    (
        "a\u{300}\u{301}\u{302}\u{303}\u{304}\u{305}\u{306}\u{307}b",
        &[
            (
                "a\u{300}\u{301}\u{302}\u{303}\u{304}\u{305}\u{306}",
                1,
                false,
            ),
            ("b", 1, false),
        ],
    ),
    ("\u{17d8}\u{ad}", &[("\u{fffd}\u{ad}", 1, false)]),
    ("", &[]),
];

#[test]
fn cells_of_a_text(rt: HostRuntime) -> Result<(), Fail> {
    for (words, leads) in DRAWN {
        assert_drawn(&rt, words, leads)?;
    }
    Ok(())
}

// A character of no width joins the last cell of the fragment before, and keeps that one's attributes.
#[test]
fn joins_across_fragments(rt: HostRuntime) -> Result<(), Fail> {
    let mut second = fragment(rt.alloc(), "\u{301}b")?;
    second.attrs = bold();
    let drawn = cells_of(rt.alloc(), &[fragment(rt.alloc(), "a")?, second])?;
    let wanted = row_of(rt.alloc(), &[("a\u{301}", 1, false), ("b", 1, true)])?;
    assert!(rt; drawn.as_slice() == wanted.as_slice());
    Ok(())
}

// Two narrow characters over the halves of two wide ones.
#[test]
fn put_blanks_the_uncovered_halves(rt: HostRuntime) -> Result<(), Fail> {
    let mut row = row_of(rt.alloc(), &[("中", 2, false), ("国", 2, false)])?;
    assert!(rt; row.len() == 4);
    let x = Cell::narrow('x', Attrs::plain());
    row.put(1, x);
    let y = Cell::narrow('y', Attrs::plain());
    row.put(2, y);
    let wanted = row_of(
        rt.alloc(),
        &[
            (" ", 1, false),
            ("x", 1, false),
            ("y", 1, false),
            (" ", 1, false),
        ],
    )?;
    assert!(rt; row.as_slice() == wanted.as_slice());
    Ok(())
}

// The first character has no width and joins the Lead that stood there.
#[test]
fn pushed_characters_join_what_stands_before(rt: HostRuntime) -> Result<(), Fail> {
    let mut row = row_of(rt.alloc(), &[("e", 1, true)])?;
    row.push_chars(&['\u{301}', '中', '\u{1b}'], bold(), Attrs::plain())?;
    let wanted = row_of(
        rt.alloc(),
        &[
            ("e\u{301}", 1, true),
            ("中", 2, true),
            ("^", 1, false),
            ("[", 1, false),
        ],
    )?;
    assert!(rt; row.as_slice() == wanted.as_slice());
    Ok(())
}

// A part of one row and two columns over the inner halves of two wide characters.
#[test]
fn blit_blanks_the_uncovered_halves(rt: HostRuntime) -> Result<(), Fail> {
    let mut grid = Grid::blank(rt.alloc(), 2, 4)?;
    grid.put(1, 0, wide('中'));
    grid.put(1, 2, wide('国'));
    let part = Grid::blank(rt.alloc(), 1, 2)?;
    grid.blit(&part, 1, 1)?;
    let wanted = row_of(
        rt.alloc(),
        &[
            (" ", 1, false),
            (" ", 1, false),
            (" ", 1, false),
            (" ", 1, false),
        ],
    )?;
    assert!(rt; grid.row(0) == wanted.as_slice());
    assert!(rt; grid.row(1) == wanted.as_slice());
    Ok(())
}

#[test]
fn copies_are_equal(rt: HostRuntime) -> Result<(), Fail> {
    let mut rows: CellRows = Sequence::new(rt.alloc());
    rows.push(row_of(rt.alloc(), &[("中", 2, true), ("x", 1, false)])?)?;
    rows.push(row_of(rt.alloc(), &[("y", 1, false)])?)?;
    let copy = rows.copy()?;
    assert!(rt; copy.len() == 2);
    for (mine, theirs) in rows.as_slice().iter().zip(copy.as_slice()) {
        assert!(rt; mine.as_slice() == theirs.as_slice());
    }
    Ok(())
}

#[test]
fn sizes_within_the_limits(rt: HostRuntime) {
    for (rows, cols, within) in [
        (1, 1, true),
        (500, 1000, true),
        (0, 1, false),
        (1, 0, false),
        (501, 1, false),
        (1, 1001, false),
    ] {
        assert!(rt; Size::new(rows, cols).is_some() == within);
    }
}
