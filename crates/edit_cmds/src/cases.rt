//! What tables of tests work on: states of texts in which `|` stands at the cursor, keys, and steps one after the other.
ghost use Rattle.std.specs.Prelude.{◌≤◌, length, IfOk};
ghost use Rattle.std.specs.List.{All};
ghost use Rattle.edit_state.specs.Searches.{HasOrigin};

use crate::run;
use edit_buffer::{Buffer, Ring};
use edit_state::{Arg, Command, Done, EditState, NoMemory};
use key_names::{Key, KeyPress, KeyText};
use std::alloc::Global;
use std::process::Abort;
use std::test::Fail;
use text_doc::{Lines, MAX_LENGTH, Text};

/// A command on a letter, what it answers, and the text then.
pub(crate) type Step = (Command, char, Done, &'static str);

/// Returns a text without the sign of the cursor, and its place.
fn read_marked(alloc: Global, marked: &str) -> Result<(Text, usize), NoMemory> {
    let marked = Text::read_str(alloc, marked)?;
    let mut text = Text::new(alloc);
    let mut cursor = 0;
    for c in marked.as_slice() {
        if *c == '|' {
            cursor = text.len();
        } else {
            text.push(*c)?;
        }
    }
    Ok((text, cursor))
}

/// Returns a state of this text.
pub(crate) fn state_of(rt: &impl Abort, alloc: Global, marked: &str) -> Result<EditState, Fail>
    ensures { IfOk result HasOrigin }
{
    let (text, cursor) = read_marked(alloc, marked)?;
    state_behind(rt, alloc, Lines::new(alloc), text, cursor)
}

/// Returns a state of this text behind the lines "ab\nc" and "de".
pub(crate) fn state_with_history(
    rt: &impl Abort,
    alloc: Global,
    marked: &str,
) -> Result<EditState, Fail>
    ensures { IfOk result HasOrigin }
{
    let (text, cursor) = read_marked(alloc, marked)?;
    let older = Text::read_str(alloc, "ab\nc")?;
    let newer = Text::read_str(alloc, "de")?;
    assert!(rt; older.len() <= MAX_LENGTH && newer.len() <= MAX_LENGTH);
    let mut history = Lines::new(alloc);
    history.push(older)?;
    history.push(newer)?;
    state_behind(rt, alloc, history, text, cursor)
}

/// Returns a state of a text of the letter `a` that leaves room for so many characters.
pub(crate) fn state_with_room(
    rt: &impl Abort,
    alloc: Global,
    room: usize,
) -> Result<EditState, Fail>
    ensures { IfOk result HasOrigin }
{
    assert!(rt; room < MAX_LENGTH);
    let text = Text::from_vec(vec![in alloc; 'a'; MAX_LENGTH - room]?);
    state_behind(rt, alloc, Lines::new(alloc), text, 1)
}

/// Returns a state of this text behind these lines.
fn state_behind(
    rt: &impl Abort,
    alloc: Global,
    history: Lines,
    text: Text,
    cursor: usize,
) -> Result<EditState, Fail>
    requires { All (λ line. length line ≤ 32768) history }
    ensures { IfOk result HasOrigin }
{
    assert!(rt; text.len() <= MAX_LENGTH);
    let buffer = Buffer::new(alloc, history, text)?;
    let mut state = EditState::new(buffer, Ring::new(alloc)?, false);
    assert!(rt; cursor <= state.buffer.doc().len());
    state.go_to(cursor);
    Ok(state)
}

/// Returns the argument that is written so.
pub(crate) fn arg_of(alloc: Global, written: &str) -> Result<Option<Arg>, NoMemory> {
    let mut digits = Text::new(alloc);
    let mut negative = false;
    for c in written.chars() {
        if c == '-' {
            negative = true;
        } else {
            digits.push(c)?;
        }
    }
    if negative || !digits.is_empty() {
        Ok(Some(Arg { negative, digits }))
    } else {
        Ok(None)
    }
}

pub(crate) fn letter(alloc: Global, c: char) -> Result<KeyPress, NoMemory> {
    Ok(KeyPress {
        key: Key::Char(c),
        text: KeyText::from_chars(alloc, &[c])?,
    })
}

pub(crate) fn assert_text(
    rt: &impl Abort,
    alloc: Global,
    state: &EditState,
    marked: &str,
) -> Result<(), Fail> {
    let (text, cursor) = read_marked(alloc, marked)?;
    assert!(rt; state.buffer.doc().has_text(text.as_slice()), "{marked}");
    assert_eq!(rt; state.buffer.doc().cursor(), cursor, "{marked}");
    Ok(())
}

pub(crate) fn assert_steps(
    rt: &impl Abort,
    alloc: Global,
    state: &mut EditState,
    steps: &[Step],
) -> Result<(), Fail>
    requires { HasOrigin state.old }
{
    for step in steps {
        let (command, c, done, then) = *step;
        let key = letter(alloc, c)?;
        assert_eq!(rt; run(alloc, command, &key, state)?, done, "{then}");
        assert_text(rt, alloc, state, then)?;
    }
    Ok(())
}
