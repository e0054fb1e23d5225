//! Screens that were worked out by hand from what each control is to do.
use crate::Terminal;
use cell_grid::{Attrs, Cell, CellRow, Colour, Grid, Size};
use std::alloc::{AllocError, Global};
use std::test::Fail;

/// Adds a row's cells: `.` is a blank, `%` a space with a background, `~` a Tail.
fn push_row(shown: &mut String, row: &CellRow) -> Result<(), AllocError> {
    for cell in row.as_slice() {
        match cell {
            Cell::Tail => shown.push('~')?,
            Cell::Lead { text, attrs, .. } => match text.as_slice() {
                [' '] if attrs.bg.is_some() => shown.push('%')?,
                [' '] => shown.push('.')?,
                characters => {
                    for character in characters {
                        shown.push(*character)?;
                    }
                }
            },
        }
    }
    Ok(())
}

/// All lines from the first on, each behind a `|`, then the cursor and the first visible line.
fn shown(alloc: Global, terminal: &Terminal) -> Result<String, AllocError> {
    let mut shown = String::new(alloc);
    for i in 0..terminal.lines() {
        shown.push('|')?;
        push_row(&mut shown, terminal.line(i))?;
    }
    let (row, col) = terminal.cursor();
    let top = terminal.top();
    let place = format!(in alloc; "| {row},{col} {top}")?;
    shown.push_str(place.as_str())?;
    Ok(shown)
}

/// A terminal of 2 rows and 4 columns that obeyed the bytes.
fn obeyed(alloc: Global, bytes: &[u8]) -> Result<Terminal, Fail> {
    let size = Size::new(2, 4).ok_or("size")?;
    let mut terminal = Terminal::start(alloc, size)?;
    terminal.obey(bytes)?;
    Ok(terminal)
}

/// What is shown after some text, as `shown` says it.
const SCREENS: [(&str, &str); 61] = [
    ("", "|....|....| 0,0 0"),
    ("ab", "|ab..|....| 0,2 0"),
    // a pending wrap: done by the next character, kept by attributes, forgotten by all else
    ("abcd", "|abcd|....| 0,3 0"),
    ("abcde", "|abcd|e...| 1,1 0"),
    ("abcd\re", "|ebcd|....| 0,1 0"),
    ("abcd\u{1b}[De", "|abed|....| 0,3 0"),
    ("abcd\u{1b}[1me", "|abcd|e...| 1,1 0"),
    ("abcd\u{1b}[2me", "|abcd|e...| 1,1 0"),
    ("abcd\u{7}e", "|abce|....| 0,3 0"),
    ("abcd\u{85}e", "|abce|....| 0,3 0"),
    ("abcd\u{1b}ce", "|abce|....| 0,3 0"),
    ("abcd\u{1b}[6ne", "|abce|....| 0,3 0"),
    ("abcd\u{1b}[?1me", "|abce|....| 0,3 0"),
    ("abcd\u{1b}[3\u{e9}", "|abc\u{e9}|....| 0,3 0"),
    // LF, also on the last row
    ("ab\ncd", "|ab..|..cd| 1,3 0"),
    ("a\n\nb", "|a...|....|.b..| 1,2 1"),
    // up, right and left: without a number, with 0, with more, and past the edge
    ("a\n\u{1b}[Ab", "|ab..|....| 0,2 0"),
    ("a\n\u{1b}[0Ab", "|ab..|....| 0,2 0"),
    ("\n\u{1b}[9Ab", "|b...|....| 0,1 0"),
    ("\u{1b}[Ca", "|.a..|....| 0,2 0"),
    ("\u{1b}[0Ca", "|.a..|....| 0,2 0"),
    ("\u{1b}[02Ca", "|..a.|....| 0,3 0"),
    ("\u{1b}[99999999999Ca", "|...a|....| 0,3 0"),
    ("abc\u{1b}[Dx", "|abx.|....| 0,3 0"),
    ("abc\u{1b}[0Dx", "|abx.|....| 0,3 0"),
    ("abc\u{1b}[2Dx", "|axc.|....| 0,2 0"),
    ("abc\u{1b}[9Dx", "|xbc.|....| 0,1 0"),
    // erasing to the end of the row and of the page, also with a background
    ("abcd\r\u{1b}[C\u{1b}[K", "|a...|....| 0,1 0"),
    ("abcdef\u{1b}[A\u{1b}[J", "|ab..|....| 0,2 0"),
    ("abcd\r\u{1b}[41m\u{1b}[K", "|%%%%|....| 0,0 0"),
    ("ab\u{1b}[41m\u{1b}[J", "|ab%%|%%%%| 0,2 0"),
    ("\n\u{1b}[41m\n", "|....|....|%%%%| 1,0 1"),
    // other forms do nothing
    ("ab\r\u{1b}[0K", "|ab..|....| 0,0 0"),
    ("\u{1b}[1;2Ca", "|a...|....| 0,1 0"),
    ("\u{1b}[2 Ca", "|a...|....| 0,1 0"),
    ("\u{1b}[?2Ca", "|a...|....| 0,1 0"),
    ("a\u{1b}bc\u{7f}\u{85}", "|ac..|....| 0,2 0"),
    // broken sequences: what fits none is read anew, and an unfinished one does nothing
    ("ab\u{1b}[3\rx", "|xb..|....| 0,1 0"),
    ("\u{1b}[ 3a", "|3a..|....| 0,2 0"),
    ("\u{1b}[1\u{e9}", "|\u{e9}...|....| 0,1 0"),
    ("\u{1b}[3\u{1b}[Ca", "|.a..|....| 0,2 0"),
    ("a\u{1b}[3", "|a...|....| 0,1 0"),
    // autowrap off and on
    ("\u{1b}[?7labcde", "|abce|....| 0,3 0"),
    ("\u{1b}[?7l\u{1b}[?7habcde", "|abcd|e...| 1,1 0"),
    // wide characters, at the last column and past it
    ("\u{4e16}a", "|\u{4e16}~a.|....| 0,3 0"),
    ("ab\u{4e16}x", "|ab\u{4e16}~|x...| 1,1 0"),
    ("abc\u{4e16}", "|abc.|....| 0,3 0"),
    ("abcd\u{4e16}", "|abcd|\u{4e16}~..| 1,2 0"),
    ("\u{1b}[?7labcd\u{4e16}", "|abcd|....| 0,3 0"),
    // half of one overwritten or erased
    ("\u{4e16}\u{754c}\r\u{1b}[Cx", "|.x\u{754c}~|....| 0,2 0"),
    ("\u{4e16}\u{754c}\rx", "|x.\u{754c}~|....| 0,1 0"),
    ("a\u{4e16}b\r\u{754c}", "|\u{754c}~.b|....| 0,2 0"),
    ("\u{4e16}\u{754c}\r\u{1b}[C\u{1b}[K", "|....|....| 0,1 0"),
    // joined characters, up to eight in all, and without a place printed last
    (
        "e\u{301}\u{1b}[1m\u{302}",
        "|e\u{301}\u{302}...|....| 0,1 0",
    ),
    (
        "e\u{301}\u{302}\u{303}\u{304}\u{305}\u{306}\u{307}\u{308}",
        "|e\u{301}\u{302}\u{303}\u{304}\u{305}\u{306}\u{307}...|....| 0,1 0",
    ),
    ("\u{4e16}\u{301}", "|\u{4e16}\u{301}~..|....| 0,2 0"),
    ("abcd\u{301}", "|abcd\u{301}|....| 0,3 0"),
    ("a\r\u{301}", "|a...|....| 0,0 0"),
    ("a\u{7}\u{301}", "|a...|....| 0,1 0"),
    ("\u{301}", "|....|....| 0,0 0"),
    // a character of more than two columns
    ("\u{17d8}a", "|\u{fffd}a..|....| 0,2 0"),
];

#[test]
fn shows_what_it_obeyed(rt: HostRuntime) -> Result<(), Fail> {
    let alloc = rt.alloc();
    for (text, expected) in SCREENS {
        let terminal = obeyed(alloc, text.as_bytes())?;
        assert_eq!(rt; shown(alloc, &terminal)?.as_str(), expected, "{text:?}");
    }
    let cut = obeyed(alloc, b"\xff\xe4\xb8a\x1b[?25l\x1b[?2004h")?;
    assert_eq!(rt;
        shown(alloc, &cut)?.as_str(),
        "|\u{fffd}\u{fffd}a.|....| 0,3 0"
    );
    assert!(rt; cut.marks_pastes() && !cut.shows_cursor() && cut.wraps());
    Ok(())
}

#[test]
fn sets_the_pen(rt: HostRuntime) -> Result<(), Fail> {
    let plain = Attrs::plain();
    let all = Attrs {
        fg: None,
        bg: None,
        bold: true,
        italic: true,
        underline: true,
        blink: true,
        reverse: true,
        hidden: true,
        strike: true,
    };
    let bold = Attrs {
        bold: true,
        ..plain
    };
    let underlined = Attrs {
        underline: true,
        ..bold
    };
    let ansi = |fg, bg| Attrs {
        fg: Some(Colour::Ansi(fg)),
        bg: Some(Colour::Ansi(bg)),
        ..plain
    };
    let red = Attrs {
        fg: Some(Colour::Rgb(38, 2, 1)),
        ..plain
    };
    let cases = [
        ("1;3;4;5;7;8;9m", all),
        ("1;m", plain),
        ("1;2;6m", bold),
        (";1m", bold),
        ("1:2m", plain),
        ("?1m", plain),
        ("31;102m", ansi(1, 10)),
        ("97;40m", ansi(15, 0)),
        ("38;2;38;2;1m", red),
        (
            "48;2;255;0;9;1m",
            Attrs {
                bg: Some(Colour::Rgb(255, 0, 9)),
                ..bold
            },
        ),
        // cut short, or above 255: the 38 does nothing, and reading goes on behind it
        ("38;2;1;4m", underlined),
        ("38;2;256;1;4m", underlined),
        ("38;38;2;38;2;1m", red),
    ];
    for (sequence, expected) in cases {
        let text = format!(in rt.alloc(); "\u{1b}[{sequence}")?;
        let terminal = obeyed(rt.alloc(), text.as_bytes())?;
        assert!(rt; terminal.pen() == expected, "{sequence}");
    }
    Ok(())
}

/// What is shown after some bytes and then some others: an unfinished character or sequence at the end of the first does nothing.
const IN_TWO_CALLS: [(&[u8], &[u8], &str); 6] = [
    (b"a\xe4\xb8", b"b", "|ab..|....| 0,2 0"),
    (b"a\xe4", b"\xb8\x96", "|a\u{fffd}\u{fffd}.|....| 0,3 0"),
    (b"abcd\x1b[3\xe4", b"e", "|abcd|e...| 1,1 0"),
    (b"abcd\x1b[3", b"e", "|abcd|e...| 1,1 0"),
    (b"abcd\x1b", b"[De", "|abcd|[De.| 1,3 0"),
    (b"a\x1b[41m", b"\x1b[K", "|a%%%|....| 0,1 0"),
];

#[test]
fn obeys_in_two_calls(rt: HostRuntime) -> Result<(), Fail> {
    let alloc = rt.alloc();
    for (first, second, expected) in IN_TWO_CALLS {
        let mut terminal = obeyed(alloc, first)?;
        terminal.obey(second)?;
        assert_eq!(rt; shown(alloc, &terminal)?.as_str(), expected, "{first:?}");
    }
    Ok(())
}

/// The largest screen, filled, and then in other sizes.
#[test]
fn holds_the_largest_screen(rt: HostRuntime) -> Result<(), Fail> {
    let alloc = rt.alloc();
    let size = Size::new(500, 1000).ok_or("size")?;
    let mut terminal = Terminal::start(alloc, size)?;
    let text = vec![in alloc; b'x'; 500_000]?;
    terminal.obey(text.as_slice())?;
    assert!(rt; terminal.size() == size);
    assert!(rt; terminal.lines() == 500 && terminal.top() == 0);
    assert_eq!(rt; terminal.cursor(), (499, 999));
    let full = CellRow::filled(alloc, 'x', Attrs::plain(), 1000)?;
    assert!(rt; terminal.line(499).as_slice() == full.as_slice());
    for (rows, cols, lines) in [(400, 1000, 500), (500, 1000, 600), (500, 999, 600)] {
        let size = Size::new(rows, cols).ok_or("size")?;
        terminal.resize(size)?;
        assert!(rt; terminal.size() == size);
        assert_eq!(rt; terminal.lines(), lines);
    }
    let mut grid = Grid::blank(alloc, 500, 1000)?;
    assert!(rt; grid.rows() == 500 && grid.cols() == 1000 && full.len() == 1000);
    grid.lay(499, 0, full.as_slice());
    assert!(rt; grid.rows() == 500);
    assert!(rt; grid.row(499) == full.as_slice());
    Ok(())
}

/// What is shown after some text, another size and some more text.
const RESIZED: [(&str, u32, u32, &str, &str); 12] = [
    // fewer and more rows, with the cursor on the last, the first and the second
    ("abcdefgh\u{1b}[C", 1, 4, "", "|abcd|efgh| 0,3 1"),
    ("abcdefg", 1, 4, "", "|abcd|efg.| 0,3 1"),
    ("abcdefg\u{1b}[A", 1, 4, "", "|abcd| 0,3 0"),
    ("abcdefg", 3, 4, "", "|abcd|efg.|....| 1,3 0"),
    ("a\nb\nc", 1, 4, "", "|a...|.b..|..c.| 0,3 2"),
    ("a\nb\nc\u{1b}[A", 1, 4, "", "|a...|.b..| 0,3 1"),
    ("a\nb\nc", 4, 4, "", "|a...|.b..|..c.|....|....| 1,3 1"),
    // fewer and more columns
    ("abcdefg", 2, 2, "", "|ab|ef| 1,1 0"),
    ("abcdefg", 2, 6, "", "|abcd..|efg...| 1,3 0"),
    ("a\u{4e16}b", 2, 2, "", "|a.|..| 0,1 0"),
    // the pending wrap and the place printed last are forgotten
    ("abcd", 2, 5, "e", "|abce.|.....| 0,4 0"),
    ("a", 2, 3, "\u{301}", "|a..|...| 0,1 0"),
];

#[test]
fn takes_another_size(rt: HostRuntime) -> Result<(), Fail> {
    let alloc = rt.alloc();
    for (text, rows, cols, more, expected) in RESIZED {
        let mut terminal = obeyed(alloc, text.as_bytes())?;
        terminal.resize(Size::new(rows, cols).ok_or("size")?)?;
        terminal.obey(more.as_bytes())?;
        assert_eq!(rt;
            shown(alloc, &terminal)?.as_str(),
            expected,
            "{text:?} {rows} {cols}"
        );
    }
    Ok(())
}
