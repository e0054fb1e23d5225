//! Runs worked out by hand, limits, and each call that allocates once with ample memory.
ghost use Rattle.std.specs.Prelude.{◌≡◌, ◌≤◌, length, IfOk, IsSomeAnd};
ghost use Rattle.edit_buffer.specs.BufferState.{ReachWithin};

use crate::{Buffer, Clip, Edit, EditFault, Ring};
use std::alloc::Global;
use std::process::Abort;
use std::test::Fail;
use text_doc::{Completion, Completions, Lines, MAX_LENGTH, NoMemory, Text};

/// Returns a buffer on an empty line, with no history.
fn empty_buffer(alloc: Global) -> Result<Buffer, NoMemory> {
    let buffer = Buffer::new(alloc, Lines::new(alloc), Text::new(alloc))?;
    Ok(buffer)
}

fn insert(rt: &impl Abort, alloc: Global, buffer: &mut Buffer, chars: &[char]) -> Result<(), Fail> {
    let text = Text::from_chars(alloc, chars)?;
    let answer = buffer.apply(Edit::Insert(text))?;
    assert!(rt; answer.text && !answer.mark);
    Ok(())
}

fn assert_doc(rt: &impl Abort, buffer: &Buffer, chars: &[char], cursor: usize) {
    assert!(rt; buffer.doc().has_text(chars));
    assert_eq!(rt; buffer.doc().cursor(), cursor);
    assert!(rt; buffer.doc().mark().is_none());
}

#[test]
fn undo_is_bounded(rt: HostRuntime) -> Result<(), Fail> {
    let mut buffer = empty_buffer(rt.alloc())?;
    for _ in 0..1_001 {
        buffer.save()?;
        insert(&rt, rt.alloc(), &mut buffer, &['a'])?;
    }
    assert_eq!(rt; buffer.doc().len(), 1_001);
    for _ in 0..1_000 {
        assert!(rt; buffer.undo()?);
    }
    assert!(rt; !buffer.undo()?);
    assert_doc(&rt, &buffer, &['a'], 1);
    for _ in 0..1_000 {
        assert!(rt; buffer.redo()?);
    }
    assert!(rt; !buffer.redo()?);
    assert_eq!(rt; buffer.doc().len(), 1_001);
    Ok(())
}

fn assert_first(rt: &impl Abort, ring: &Ring, letter: char) {
    match ring.first() {
        Some(clip) => assert!(rt; clip.text.equals(&[letter]), "{letter}"),
        None => panic!(rt; "no clip"),
    }
}

#[test]
fn ring_keeps_sixty_clips(rt: HostRuntime) -> Result<(), Fail> {
    let mut ring = Ring::new(rt.alloc())?;
    assert!(rt; ring.first().is_none() && !ring.turns());
    // 61 puts, of the characters from U+0041 to U+007D
    for number in 0..61u8 {
        let text = Text::from_chars(rt.alloc(), &[char::from(b'A' + number)])?;
        ring.put(Clip { text, lines: false });
    }
    assert!(rt; ring.turns());
    // the newest of 60 first; the first put, U+0041, is gone
    for number in 0..60u8 {
        assert_first(&rt, &ring, char::from(b'}' - number));
        ring.rotate();
    }
    assert_first(&rt, &ring, '}');
    ring.rotate();
    assert_first(&rt, &ring, '|');
    Ok(())
}

/// Returns a buffer with "ab\nc" in the history.
fn buffer_with_history(rt: &impl Abort, alloc: Global) -> Result<Buffer, Fail> {
    let entry = Text::from_chars(alloc, &['a', 'b', '\n', 'c'])?;
    assert!(rt; entry.len() <= MAX_LENGTH);
    let mut history = Lines::new(alloc);
    history.push(entry)?;
    let buffer = Buffer::new(alloc, history, Text::new(alloc))?;
    Ok(buffer)
}

fn assert_joined(
    rt: &impl Abort,
    alloc: Global,
    front: &[char],
    back: &[char],
    chars: &[char],
) -> Result<(), Fail> {
    let mut text = Text::from_chars(alloc, front)?;
    text.extend_from_slice(back)?;
    assert!(rt; text.equals(chars));
    Ok(())
}

#[test]
fn working_lines(rt: HostRuntime) -> Result<(), Fail> {
    let mut buffer = buffer_with_history(&rt, rt.alloc())?;
    assert_eq!(rt; (buffer.lines(), buffer.index()), (2, 1));
    assert!(rt; buffer.back(7)?);
    assert_doc(&rt, &buffer, &['a', 'b', '\n', 'c'], 4);
    insert(&rt, rt.alloc(), &mut buffer, &['!'])?;
    assert!(rt; buffer.forward(1)?);
    assert_doc(&rt, &buffer, &[], 0);
    assert!(rt; buffer.lines() == 2 && buffer.index() == 1);
    assert!(rt; buffer.line(0).equals(&['a', 'b', '\n', 'c', '!']));
    let (front, back) = buffer.line_parts(0);
    assert_joined(&rt, rt.alloc(), front, back, &['a', 'b', '\n', 'c', '!'])?;
    let (front, back) = buffer.line_parts(1);
    assert_joined(&rt, rt.alloc(), front, back, &[])?;
    buffer.goto(0, 0)?;
    assert_doc(&rt, &buffer, &['a', 'b', '\n', 'c', '!'], 0);
    Ok(())
}

/// A range of "hello" and what takes its place, at a cursor and a mark, and what comes of it.
struct Replacement {
    cursor: usize,
    mark: usize,
    from: usize,
    to: usize,
    new: &'static str,
    text: &'static str,
    cursor_then: usize,
    mark_then: usize,
    changes: [bool; 3],
}

const REPLACEMENTS: [Replacement; 6] = [
    // as many others: the mark keeps its number
    Replacement {
        cursor: 2,
        mark: 2,
        from: 1,
        to: 3,
        new: "EL",
        text: "hELlo",
        cursor_then: 3,
        mark_then: 2,
        changes: [true, true, false],
    },
    // the same ones
    Replacement {
        cursor: 3,
        mark: 2,
        from: 1,
        to: 3,
        new: "el",
        text: "hello",
        cursor_then: 3,
        mark_then: 2,
        changes: [false, false, false],
    },
    // more, with cursor and mark behind
    Replacement {
        cursor: 5,
        mark: 4,
        from: 1,
        to: 3,
        new: "abc",
        text: "habclo",
        cursor_then: 6,
        mark_then: 5,
        changes: [true, true, true],
    },
    // fewer, with the cursor before and the mark inside
    Replacement {
        cursor: 0,
        mark: 2,
        from: 1,
        to: 3,
        new: "x",
        text: "hxlo",
        cursor_then: 0,
        mark_then: 1,
        changes: [true, false, true],
    },
    // some in place of none, with cursor and mark there
    Replacement {
        cursor: 2,
        mark: 2,
        from: 2,
        to: 2,
        new: "--",
        text: "he--llo",
        cursor_then: 4,
        mark_then: 2,
        changes: [true, true, false],
    },
    // none in place of all
    Replacement {
        cursor: 1,
        mark: 5,
        from: 0,
        to: 5,
        new: "",
        text: "",
        cursor_then: 0,
        mark_then: 0,
        changes: [true, true, true],
    },
];

#[test]
fn replacements(rt: HostRuntime) -> Result<(), Fail> {
    for case in &REPLACEMENTS {
        let hello = Text::read_str(rt.alloc(), "hello")?;
        assert!(rt; hello.len() <= MAX_LENGTH);
        let mut buffer = Buffer::new(rt.alloc(), Lines::new(rt.alloc()), hello)?;
        assert!(rt; case.cursor <= buffer.doc().len());
        assert!(rt; buffer.apply(Edit::Cursor(case.cursor))?.cursor != (case.cursor == 5));
        assert!(rt; case.mark <= buffer.doc().len());
        assert!(rt; buffer.apply(Edit::Mark(Some(case.mark)))?.mark);
        assert!(rt; case.from <= case.to && case.to <= buffer.doc().len());
        let new = Text::read_str(rt.alloc(), case.new)?;
        let answer = buffer.apply(Edit::Replace {
            from: case.from,
            to: case.to,
            text: new,
        })?;
        assert_eq!(rt;
            [answer.text, answer.cursor, answer.mark],
            case.changes,
            "{}",
            case.text
        );
        let text = Text::read_str(rt.alloc(), case.text)?;
        assert!(rt; buffer.doc().has_text(text.as_slice()), "{}", case.text);
        assert_eq!(rt; buffer.doc().cursor(), case.cursor_then, "{}", case.text);
        assert_eq!(rt; buffer.doc().mark(), Some(case.mark_then), "{}", case.text);
    }
    Ok(())
}

fn replace_last(alloc: Global, buffer: &mut Buffer, new: &[char]) -> Result<(), EditFault> {
    let text = Text::from_chars(alloc, new)?;
    let len = buffer.doc().len();
    buffer.apply(Edit::Replace {
        from: len.saturating_sub(1),
        to: len,
        text,
    })?;
    Ok(())
}

fn assert_full_to_y(rt: &impl Abort, buffer: &Buffer) {
    assert_eq!(rt; buffer.doc().len(), MAX_LENGTH);
    assert_eq!(rt; buffer.doc().char_at(32_766), 'x');
    assert_eq!(rt; buffer.doc().char_at(32_767), 'y');
}

#[test]
fn replacement_at_the_limit(rt: HostRuntime) -> Result<(), Fail> {
    let full = Text::from_vec(vec![in rt.alloc(); 'x'; MAX_LENGTH]?);
    assert!(rt; full.len() <= MAX_LENGTH);
    let mut buffer = Buffer::new(rt.alloc(), Lines::new(rt.alloc()), full)?;
    replace_last(rt.alloc(), &mut buffer, &['y'])?;
    assert_full_to_y(&rt, &buffer);
    let refused = replace_last(rt.alloc(), &mut buffer, &['z', 'z']);
    assert!(rt; matches!(refused, Err(EditFault::TooLong)));
    assert_full_to_y(&rt, &buffer);
    Ok(())
}

#[test]
fn too_long(rt: HostRuntime) -> Result<(), Fail> {
    let mut buffer = empty_buffer(rt.alloc())?;
    insert(&rt, rt.alloc(), &mut buffer, &['x'])?;
    let long = vec![in rt.alloc(); 'x'; MAX_LENGTH]?;
    let refused = buffer.apply(Edit::Insert(Text::from_vec(long)));
    assert!(rt; matches!(refused, Err(EditFault::TooLong)));
    assert_doc(&rt, &buffer, &['x'], 1);
    assert_eq!(rt;
        EditFault::TooLong.to_string(rt.alloc())?.as_str(),
        "more than 32768 characters"
    );
    assert_eq!(rt;
        EditFault::NoMemory.to_string(rt.alloc())?.as_str(),
        "no memory for the text"
    );
    Ok(())
}

/// Items that put "xy" in place of the character before the cursor.
fn items(alloc: Global, count: usize) -> Result<Completions, NoMemory>
    ensures { IfOk result (ReachWithin 1) }
{
    let mut items = Completions::new(alloc);
    for _ in 0..count {
        let text = Text::from_chars(alloc, &['x', 'y'])?;
        items.push(Completion { text, back: 1 })?;
    }
    Ok(items)
}

fn assert_menu(rt: &impl Abort, buffer: &Buffer, count: usize)
    ensures { IsSomeAnd buffer.now.menu (λ m. (1 ≤ m.original.cursor) × (length m.items ≡ count)) }
{
    match buffer.menu() {
        Some(menu) => {
            assert!(rt; 1 <= menu.original.cursor());
            assert_eq!(rt; menu.items.len(), count);
        }
        None => panic!(rt; "no menu"),
    }
}

#[test]
fn menu(rt: HostRuntime) -> Result<(), Fail> {
    let mut buffer = empty_buffer(rt.alloc())?;
    assert!(rt; !buffer.start_menu(Completions::new(rt.alloc()))?);
    insert(&rt, rt.alloc(), &mut buffer, &['a', 'b'])?;
    assert!(rt; 1 <= buffer.doc().cursor());
    assert!(rt; buffer.start_menu(items(rt.alloc(), 1)?)?);
    assert_menu(&rt, &buffer, 1);
    buffer.choose(Some(0))?;
    assert_doc(&rt, &buffer, &['a', 'x', 'y'], 3);
    buffer.cancel_menu();
    assert!(rt; buffer.menu().is_none());
    assert_doc(&rt, &buffer, &['a', 'b'], 2);
    Ok(())
}

#[test]
fn menu_keeps_ten_thousand_items(rt: HostRuntime) -> Result<(), Fail> {
    let mut buffer = empty_buffer(rt.alloc())?;
    insert(&rt, rt.alloc(), &mut buffer, &['a'])?;
    assert!(rt; 1 <= buffer.doc().cursor());
    assert!(rt; buffer.start_menu(items(rt.alloc(), 1)?)?);
    assert_menu(&rt, &buffer, 1);
    buffer.add_items(items(rt.alloc(), 9_999)?)?;
    assert_menu(&rt, &buffer, 10_000);
    buffer.add_items(items(rt.alloc(), 1)?)?;
    assert_menu(&rt, &buffer, 10_000);
    Ok(())
}
