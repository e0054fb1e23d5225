//! Rows of texts that were typed, against a plain list, and moves by rows over texts with empty ones.
use crate::{Doc, InsertFault, MAX_LENGTH, Text};
use std::alloc::Global;
use std::process::Abort;
use std::test::Fail;

fn letter(number: usize) -> char {
    if number % 40 == 39 { '\n' } else { 'a' }
}

/// Checks the rows of a document against those that a walk of its plain list meets.
fn check_rows(rt: &impl Abort, doc: &Doc, plain: &[char]) {
    assert!(rt; doc.has_text(plain));
    let mut row: usize = 0;
    let mut start = 0;
    for (at, c) in plain.iter().enumerate() {
        if at % 37 == 0 {
            let col = at.saturating_sub(start);
            assert!(rt; at <= doc.len());
            assert_eq!(rt; doc.row_col_of(at), (row, col), "at {at}");
            assert_eq!(rt; doc.line_start_from(at), start, "at {at}");
            assert_eq!(rt; doc.index_of(row, col), at, "at {at}");
        }
        if *c == '\n' {
            assert!(rt; start <= doc.len());
            assert_eq!(rt; doc.line_end_from(start), at, "from {start}");
            row = row.saturating_add(1);
            start = at + 1;
        }
    }
}

#[test]
fn typed_letter_by_letter(rt: HostRuntime) -> Result<(), Fail> {
    let mut doc = Doc::new(rt.alloc(), Text::new(rt.alloc()), 0)?;
    let mut last = Text::new(rt.alloc());
    for number in 0..30_000 {
        let c = letter(number);
        assert!(rt; doc.insert(&[c]).is_ok());
        last.push(c)?;
    }
    check_rows(&rt, &doc, last.as_slice());
    doc.set_cursor(0);
    let mut plain = Text::new(rt.alloc());
    for number in 0..30_000 {
        let c = letter(number);
        if number < MAX_LENGTH - 30_000 {
            assert!(rt; doc.insert(&[c]).is_ok());
            plain.push(c)?;
        } else {
            assert_eq!(rt; doc.insert(&[c]), Err(InsertFault::TooLong));
        }
    }
    plain.extend_from_slice(last.as_slice())?;
    check_rows(&rt, &doc, plain.as_slice());
    Ok(())
}

#[test]
fn deleted_from_the_middle(rt: HostRuntime) -> Result<(), Fail> {
    let mut text = Text::new(rt.alloc());
    for number in 0..400 {
        text.push(letter(number))?;
    }
    // where the deleted part begins and ends
    for (from, to) in [
        (0, 0),
        (0, 1),
        (39, 40),
        (38, 41),
        (10, 130),
        (200, 400),
        (0, 400),
    ] {
        assert!(rt; from <= to);
        assert!(rt; to <= text.len());
        assert!(rt; text.len() <= MAX_LENGTH);
        let mut doc = Doc::new(rt.alloc(), text.copy()?, 0)?;
        doc.delete(from, to);
        let mut plain = Text::from_chars(rt.alloc(), &text.as_slice()[..from])?;
        plain.extend_from_slice(&text.as_slice()[to..])?;
        check_rows(&rt, &doc, plain.as_slice());
    }
    Ok(())
}

#[test]
fn moves_by_rows(rt: HostRuntime) -> Result<(), Fail> {
    // the text, the cursor, rows, column; the place up and the place down
    let moves = [
        ("", 0, 1, 0, None, None),
        ("\n", 0, 1, 3, None, Some(1)),
        ("\n", 1, 1, 3, Some(0), None),
        ("\nab", 3, 1, 2, Some(0), None),
        ("\nab", 0, 1, 1, None, Some(2)),
        ("ab\n\ncd", 1, 1, 1, None, Some(3)),
        ("ab\n\ncd", 1, 2, 1, None, Some(5)),
        ("ab\n\ncd", 3, 1, 1, Some(1), Some(5)),
        ("ab\n\ncd", 6, 2, 9, Some(2), None),
        ("ab\n", 3, 1, 1, Some(1), None),
        ("ab\n", 0, 7, 5, None, Some(3)),
        ("\n\n\n", 1, 9, 0, Some(0), Some(3)),
    ];
    for (words, cursor, count, col, up, down) in moves {
        let text = Text::read_str(rt.alloc(), words)?;
        assert!(rt; cursor <= text.len());
        assert!(rt; text.len() <= MAX_LENGTH);
        let doc = Doc::new(rt.alloc(), text, cursor)?;
        assert_eq!(rt;
            doc.up(count, col),
            up,
            "{count} up from {cursor} in {words}"
        );
        assert_eq!(rt;
            doc.down(count, col),
            down,
            "{count} down from {cursor} in {words}"
        );
    }
    Ok(())
}
