//! Lines and places worked out by hand.
ghost use Rattle.std.specs.Prelude.{◌≤◌, IsTrue, length};
ghost use Rattle.text_rows.specs.DrawnText.{IsDrawnText};

use super::*;
use cell_grid::{Attrs, CellRow, NoMemory};
use std::alloc::Global;
use std::process::Abort;
use std::test::Fail;
use text_doc::Text;

fn reversed() -> Attrs {
    Attrs {
        reverse: true,
        ..Attrs::plain()
    }
}

fn bold() -> Attrs {
    Attrs {
        bold: true,
        ..Attrs::plain()
    }
}

fn blinking() -> Attrs {
    Attrs {
        blink: true,
        ..Attrs::plain()
    }
}

// What is drawn: the message, the continuation, the text, the range that is selected, and the suggestion; then the
// lines, each as its plain characters, the selected ones, plain ones, and those of the suggestion; then places with
// their lines and cells.
type Case = (
    (&'static str, &'static str),
    &'static str,
    (usize, usize),
    &'static str,
    &'static [(&'static str, &'static str, &'static str, &'static str)],
    &'static [(usize, usize, usize)],
);

const CASES: [Case; 6] = [
    (
        ("> ", "  "),
        "",
        (0, 0),
        "",
        &[("> ", "", "", "")],
        &[(0, 0, 2)],
    ),
    (
        ("> ", "  "),
        "ab\ncd",
        (0, 0),
        "",
        &[("> ab", "", "", ""), ("  cd", "", "", "")],
        &[(0, 0, 2), (2, 0, 4), (3, 1, 2), (5, 1, 4)],
    ),
    (
        ("> ", ""),
        "ab\n\ncd",
        (1, 5),
        "ef",
        &[("> a", "b", "", ""), ("", "", "", ""), ("", "c", "d", "ef")],
        &[(3, 1, 0), (4, 2, 0), (6, 2, 2)],
    ),
    (
        ("", ""),
        "a中b",
        (1, 2),
        "",
        &[("a", "中", "b", "")],
        &[(1, 0, 1), (2, 0, 3), (3, 0, 4)],
    ),
    (
        ("$", "."),
        "e\u{301}x\n\u{301}y",
        (0, 0),
        "\u{301}",
        &[("$e\u{301}x", "", "", ""), (".\u{301}y\u{301}", "", "", "")],
        &[(1, 0, 2), (2, 0, 2), (4, 1, 1), (5, 1, 1), (6, 1, 2)],
    ),
    (
        ("", ""),
        "ab",
        (2, 9),
        "c",
        &[("ab", "", "", "c")],
        &[(0, 0, 0), (2, 0, 2)],
    ),
];

/// Returns the cells of a line, and a blank behind them.
fn line_of(
    alloc: Global,
    parts: (&'static str, &'static str, &'static str, &'static str),
) -> Result<CellRow, NoMemory> {
    let control = blinking();
    let mut row = CellRow::new(alloc);
    for (words, attrs) in [
        (parts.0, Attrs::plain()),
        (parts.1, reversed()),
        (parts.2, Attrs::plain()),
        (parts.3, bold()),
        (" ", Attrs::plain()),
    ] {
        let text = Text::read_str(alloc, words)?;
        row.push_chars(text.as_slice(), attrs, control)?;
    }
    Ok(row)
}

pub fn cells_of(alloc: Global, words: &str) -> Result<CellRow, NoMemory> {
    let text = Text::read_str(alloc, words)?;
    let mut row = CellRow::new(alloc);
    row.push_chars(text.as_slice(), Attrs::plain(), Attrs::plain())?;
    Ok(row)
}

pub fn is_drawn(drawn: &DrawnText) -> bool
    ensures { IsTrue result → IsDrawnText drawn.now }
{
    drawn.message.len() <= 1000
        && drawn.continuation.len() <= 1000
        && drawn.text.len() <= 32768
        && drawn.suggestion.len() <= 32768
        && drawn.selected_from <= drawn.selected_to
}

fn assert_lines(rt: &(impl Abort + AllocGlobal), case: &Case) -> Result<(), Fail> {
    let (before, words, range, behind, lines, places) = *case;
    let message = cells_of(rt.alloc(), before.0)?;
    let continuation = cells_of(rt.alloc(), before.1)?;
    let text = Text::read_str(rt.alloc(), words)?;
    let suggestion = Text::read_str(rt.alloc(), behind)?;
    let drawn = DrawnText {
        message: &message,
        continuation: &continuation,
        text: text.as_slice(),
        selected_from: range.0,
        selected_to: range.1,
        suggestion: suggestion.as_slice(),
        looks: Looks {
            control: blinking(),
            selected: reversed(),
            suggestion: bold(),
        },
    };
    assert!(rt; is_drawn(&drawn));
    let shown = content(rt.alloc(), &drawn, 0, true)?;
    assert_eq!(rt; shown.lines.len(), lines.len(), "{words:?}");
    for (row, parts) in shown.lines.as_slice().iter().zip(lines) {
        let wanted = line_of(rt.alloc(), *parts)?;
        assert!(rt; row.as_slice() == wanted.as_slice(), "{words:?}");
    }
    for (at, line, cell) in places {
        assert!(rt; *at <= drawn.text.len());
        let shown = content(rt.alloc(), &drawn, *at, false)?;
        assert_eq!(rt; (shown.line, shown.cell), (*line, *cell), "{words:?} {at}");
    }
    Ok(())
}

#[test]
fn draws_lines(rt: HostRuntime) -> Result<(), Fail> {
    for case in &CASES {
        assert_lines(&rt, case)?;
    }
    Ok(())
}
