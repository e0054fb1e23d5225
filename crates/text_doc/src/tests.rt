//! Places worked out by hand, edits, copies, and each call that allocates once with ample memory.
use crate::{Completion, Completions, Doc, InsertFault, MAX_LENGTH, Text, cut_line};
use std::alloc::Global;
use std::process::Abort;
use std::test::Fail;

fn doc(rt: &impl Abort, alloc: Global, words: &str, cursor: usize) -> Result<Doc, Fail> {
    let text = Text::read_str(alloc, words)?;
    assert!(rt; cursor <= text.len());
    assert!(rt; text.len() <= MAX_LENGTH);
    Ok(Doc::new(alloc, text, cursor)?)
}

#[test]
fn words(rt: HostRuntime) -> Result<(), Fail> {
    // the text, the cursor, big words or small ones; the word start before, the one behind, the word end behind
    let rows = [
        ("", 0, false, None, None, None),
        ("ab cd", 0, false, None, Some(3), Some(2)),
        ("ab cd", 1, false, Some(0), Some(3), Some(2)),
        ("ab cd", 2, false, Some(0), Some(3), Some(5)),
        ("ab cd", 3, false, Some(0), None, Some(5)),
        ("ab cd", 5, false, Some(3), None, None),
        ("a_1.b  ", 0, false, None, Some(3), Some(3)),
        ("a_1.b  ", 3, false, Some(0), Some(4), Some(4)),
        ("a_1.b  ", 7, false, Some(4), None, None),
        ("a_1.b  ", 0, true, None, None, Some(5)),
        ("a_1.b  ", 7, true, Some(0), None, None),
        (" \t\n \u{3000}x", 0, false, None, Some(5), Some(6)),
        ("é..x", 0, false, None, Some(3), Some(3)),
    ];
    for (text, cursor, big, before, start, end) in rows {
        let doc = doc(&rt, rt.alloc(), text, cursor)?;
        assert_eq!(rt; doc.prev_word(big), before, "before {cursor} in {text}");
        assert_eq!(rt;
            doc.next_word_start(big),
            start,
            "start behind {cursor} in {text}"
        );
        assert_eq!(rt;
            doc.next_word_end(big),
            end,
            "end behind {cursor} in {text}"
        );
    }
    Ok(())
}

#[test]
fn lines(rt: HostRuntime) {
    // the bytes; the first line and what follows it, where there is a line feed
    let rows = [
        ("", None),
        ("ab", None),
        ("\n", Some(("", ""))),
        ("ab\n", Some(("ab", ""))),
        ("a\r\n\nb", Some(("a\r", "\nb"))),
    ];
    for (bytes, wanted) in rows {
        match (cut_line(bytes.as_bytes()), wanted) {
            (None, None) => {}
            (Some((line, rest)), Some((wanted_line, wanted_rest))) => {
                assert_eq!(rt; line, wanted_line.as_bytes(), "the first line of {bytes}");
                assert_eq!(rt; rest, wanted_rest.as_bytes(), "behind it in {bytes}");
            }
            _ => panic!(rt; "another number of lines in {bytes}"),
        }
    }
    let chars = ['é', '\n', 'x'];
    let Some((line, rest)) = cut_line(chars.as_slice()) else {
        panic!(rt; "no line feed");
    };
    assert!(rt; line == &chars[..1]);
    assert!(rt; rest == &chars[2..]);
}

#[test]
fn rows_and_columns(rt: HostRuntime) -> Result<(), Fail> {
    // the text, the cursor; row, column, the row's start and end
    let places = [
        ("", 0, 0, 0, 0, 0),
        ("ab\n\ncde", 2, 0, 2, 0, 2),
        ("ab\n\ncde", 3, 1, 0, 3, 3),
        ("ab\n\ncde", 4, 2, 0, 4, 7),
        ("ab\n\ncde", 7, 2, 3, 4, 7),
        ("a\r\u{2028}b\n", 4, 0, 4, 0, 4),
        ("a\r\u{2028}b\n", 5, 1, 0, 5, 5),
    ];
    for (text, cursor, row, col, start, end) in places {
        let doc = doc(&rt, rt.alloc(), text, cursor)?;
        assert_eq!(rt; doc.row_col(), (row, col), "at {cursor} in {text}");
        assert_eq!(rt; doc.line_start(), start, "start at {cursor} in {text}");
        assert_eq!(rt; doc.line_end(), end, "end at {cursor} in {text}");
    }
    // row, column; the place in "ab\n\ncde"
    for (row, col, place) in [
        (0, 1, 1),
        (0, 9, 2),
        (1, 0, 3),
        (1, 5, 3),
        (2, 2, 6),
        (8, 1, 5),
        (8, 9, 7),
    ] {
        let doc = doc(&rt, rt.alloc(), "ab\n\ncde", 0)?;
        assert_eq!(rt; doc.index_of(row, col), place, "row {row}, column {col}");
    }
    // the cursor in "ab\n\ncde", rows, column; the place up, the place down
    let moves = [
        (1, 1, 1, None, Some(3)),
        (1, 2, 2, None, Some(6)),
        (1, 9, 2, None, Some(6)),
        (3, 1, 1, Some(1), Some(5)),
        (5, 1, 1, Some(3), None),
        (5, 2, 9, Some(2), None),
        (5, 7, 0, Some(0), None),
        (3, 0, 1, None, None),
    ];
    for (cursor, count, col, up, down) in moves {
        let doc = doc(&rt, rt.alloc(), "ab\n\ncde", cursor)?;
        assert_eq!(rt; doc.up(count, col), up, "{count} up from {cursor}");
        assert_eq!(rt; doc.down(count, col), down, "{count} down from {cursor}");
    }
    Ok(())
}

#[test]
fn characters_and_brackets(rt: HostRuntime) -> Result<(), Fail> {
    // the cursor in "xaxa\naxa", how many; the place of "a" behind the cursor, and before it
    let finds = [
        (0, 1, Some(1), None),
        (0, 2, Some(3), None),
        (0, 3, None, None),
        (1, 1, Some(3), None),
        (4, 1, None, Some(3)),
        (4, 2, None, Some(1)),
        (4, 3, None, None),
        (7, 1, None, Some(5)),
        (2, 0, None, None),
    ];
    for (cursor, nth, behind, before) in finds {
        let doc = doc(&rt, rt.alloc(), "xaxa\naxa", cursor)?;
        assert_eq!(rt;
            doc.find_char('a', true, nth),
            behind,
            "{nth} behind {cursor}"
        );
        assert_eq!(rt;
            doc.find_char('a', false, nth),
            before,
            "{nth} before {cursor}"
        );
    }
    // the text, the cursor; the match
    let matches = [
        ("(a(b)c)", 0, Some(6)),
        ("(a(b)c)", 2, Some(4)),
        ("(a(b)c)", 6, Some(0)),
        ("(a(b)c)", 4, Some(2)),
        ("(a(b)c)", 1, None),
        ("([)]", 0, Some(2)),
        ("([)]", 3, Some(1)),
        ("{<}>", 1, Some(3)),
        ("(()", 0, None),
        ("())", 2, None),
        ("()", 2, None),
    ];
    for (text, cursor, place) in matches {
        let doc = doc(&rt, rt.alloc(), text, cursor)?;
        assert_eq!(rt; doc.matching_bracket(), place, "at {cursor} in {text}");
    }
    Ok(())
}

#[test]
fn marks_after_edits(rt: HostRuntime) -> Result<(), Fail> {
    // the mark before; the mark after "XY" at place 2 of "abcd", and after deleting places 1 and 2
    for (mark, inserted, deleted) in [(0, 0, 0), (2, 2, 1), (3, 5, 1), (4, 6, 2)] {
        let mut one = doc(&rt, rt.alloc(), "abcd", 2)?;
        assert!(rt; mark <= one.len());
        one.set_mark(Some(mark));
        let mut other = one.copy()?;
        assert!(rt; one.insert(&['X', 'Y']).is_ok());
        assert!(rt; one.has_text(&['a', 'b', 'X', 'Y', 'c', 'd']));
        assert_eq!(rt; (one.cursor(), one.mark()), (4, Some(inserted)), "{mark}");
        assert!(rt; 3 <= other.len());
        other.delete(1, 3);
        assert!(rt; other.has_text(&['a', 'd']));
        assert_eq!(rt;
            (other.cursor(), other.mark()),
            (1, Some(deleted)),
            "{mark}"
        );
    }
    Ok(())
}

#[test]
fn parts(rt: HostRuntime) -> Result<(), Fail> {
    let mut doc = doc(&rt, rt.alloc(), "abcd", 4)?;
    assert_eq!(rt; doc.len(), 4);
    assert!(rt; doc.part(0, 2)?.equals(&['a', 'b']));
    assert!(rt; doc.cut(1, 2)?.equals(&['b']));
    assert!(rt; doc.text()?.equals(&['a', 'c', 'd']));
    assert_eq!(rt; (doc.cursor(), doc.mark()), (3, None));
    Ok(())
}

#[test]
fn sameness_and_limit(rt: HostRuntime) -> Result<(), Fail> {
    let mut doc = doc(&rt, rt.alloc(), "acd", 3)?;
    let same = doc.copy()?;
    doc.set_mark(Some(0));
    assert!(rt; doc.is_same(&same));
    doc.set_cursor(0);
    assert!(rt; !doc.is_same(&same));
    assert!(rt; doc.is_same_text(&same));
    let long = vec![in rt.alloc(); 'x'; MAX_LENGTH - 2]?;
    assert_eq!(rt; doc.insert(long.as_slice()), Err(InsertFault::TooLong));
    assert_eq!(rt; doc.len(), 3);
    assert!(rt; doc.insert(&long[1..]).is_ok());
    assert_eq!(rt; doc.len(), MAX_LENGTH);
    Ok(())
}

#[test]
fn sentences(rt: HostRuntime) -> Result<(), Fail> {
    let sentences = [
        (InsertFault::TooLong, "more than 32768 characters"),
        (InsertFault::NoMemory, "no memory for the text"),
    ];
    for (fault, sentence) in sentences {
        let told = format!(in rt.alloc(); "{fault}")?;
        assert_eq!(rt; told.as_str(), sentence);
    }
    Ok(())
}

#[test]
fn completion_lists(rt: HostRuntime) -> Result<(), Fail> {
    let text = Text::from_chars(rt.alloc(), &['é', '\u{3000}'])?;
    let mut completions = Completions::new(rt.alloc());
    completions.push(Completion { text, back: 3 })?;
    for completion in completions.copy()?.as_slice() {
        assert_eq!(rt; completion.back, 3);
        assert!(rt; completion.text.equals(&['é', '\u{3000}']));
    }
    completions.clear();
    assert!(rt; completions.is_empty());
    Ok(())
}
