//! Tables worked out by hand.
use crate::{EMACS, counting, deleting, emacs_bindings, inserting, killing, moving, restoring};
use edit_buffer::{Buffer, Ring};
use edit_state::{Amount, Arg, Command, Done, EditState, NoMemory, amount_in};
use key_names::{Key, KeyPress, KeyText};
use key_proc::{Bindings, Facts, Fired, Held};
use std::alloc::Global;
use std::process::Abort;
use std::test::Fail;
use text_doc::{Lines, MAX_LENGTH, Text};

/// Returns a state of this text with the cursor at this place and this argument.
fn state_of(
    rt: &impl Abort,
    alloc: Global,
    text: &str,
    at: usize,
    arg: Option<Arg>,
) -> Result<EditState, Fail> {
    let text = Text::read_str(alloc, text)?;
    assert!(rt; text.len() <= MAX_LENGTH);
    let buffer = Buffer::new(alloc, Lines::new(alloc), text)?;
    let mut state = EditState::new(buffer, Ring::new(alloc)?, false);
    state.arg = arg;
    go_to(rt, &mut state, at);
    Ok(state)
}

fn go_to(rt: &impl Abort, state: &mut EditState, at: usize) {
    assert!(rt; at <= state.buffer.doc().len());
    state.go_to(at);
}

/// Returns the argument of a sign and digits, and none where there are neither.
fn arg_of(alloc: Global, negative: bool, digits: &str) -> Result<Option<Arg>, NoMemory> {
    let digits = Text::read_str(alloc, digits)?;
    if negative || !digits.is_empty() {
        Ok(Some(Arg { negative, digits }))
    } else {
        Ok(None)
    }
}

fn run(state: &mut EditState, alloc: Global, command: Command) -> Result<Done, NoMemory> {
    match command {
        Command::DeleteChar => Ok(deleting::delete_char(state)),
        Command::BackwardDeleteChar => Ok(deleting::backward_delete_char(state)),
        Command::KillLine => killing::kill_line(state),
        Command::UnixLineDiscard => killing::unix_line_discard(state),
        Command::KillWord => killing::kill_word(state, alloc),
        Command::BackwardKillWord => killing::backward_kill_word(state, alloc),
        Command::UnixWordRubout => killing::unix_word_rubout(state, alloc),
        Command::Newline => inserting::newline(state, alloc),
        Command::BackwardChar => Ok(moving::backward_char(state)),
        Command::ForwardWord => Ok(moving::forward_word(state)),
        _ => Ok(Done::Bell),
    }
}

/// A command with a negative sign or none and digits, on a text and a cursor, what it answers, and text and cursor then.
type Case = (
    Command,
    bool,
    &'static str,
    &'static str,
    usize,
    Done,
    &'static str,
    usize,
);

const CASES: [Case; 21] = [
    (
        Command::DeleteChar,
        false,
        "",
        "abc",
        1,
        Done::Changed,
        "ac",
        1,
    ),
    (
        Command::DeleteChar,
        false,
        "",
        "abc",
        3,
        Done::Bell,
        "abc",
        3,
    ),
    (
        Command::DeleteChar,
        false,
        "9",
        "abc",
        1,
        Done::Changed,
        "a",
        1,
    ),
    (
        Command::DeleteChar,
        true,
        "2",
        "abc",
        2,
        Done::Changed,
        "c",
        0,
    ),
    (
        Command::BackwardDeleteChar,
        false,
        "",
        "abc",
        0,
        Done::Bell,
        "abc",
        0,
    ),
    (
        Command::BackwardDeleteChar,
        false,
        "0",
        "abc",
        2,
        Done::Bell,
        "abc",
        2,
    ),
    (
        Command::BackwardDeleteChar,
        true,
        "",
        "abc",
        2,
        Done::Changed,
        "ab",
        2,
    ),
    (
        Command::KillLine,
        false,
        "",
        "ab\ncd",
        1,
        Done::Changed,
        "a\ncd",
        1,
    ),
    (
        Command::KillLine,
        false,
        "",
        "ab\ncd",
        2,
        Done::Changed,
        "abcd",
        2,
    ),
    (
        Command::KillLine,
        true,
        "",
        "ab\ncd",
        4,
        Done::Changed,
        "ab\nd",
        3,
    ),
    (Command::KillLine, false, "", "ab", 2, Done::Same, "ab", 2),
    (
        Command::UnixLineDiscard,
        false,
        "",
        "ab\ncd",
        3,
        Done::Changed,
        "abcd",
        2,
    ),
    (
        Command::UnixLineDiscard,
        false,
        "",
        "ab\ncd",
        5,
        Done::Changed,
        "ab\n",
        3,
    ),
    (
        Command::UnixLineDiscard,
        false,
        "",
        "",
        0,
        Done::Same,
        "",
        0,
    ),
    (
        Command::KillWord,
        false,
        "",
        "ab, cd",
        0,
        Done::Changed,
        ", cd",
        0,
    ),
    (
        Command::KillWord,
        true,
        "5",
        "ab, cd",
        0,
        Done::Changed,
        ", cd",
        0,
    ),
    (
        Command::BackwardKillWord,
        false,
        "",
        "ab, cd",
        6,
        Done::Changed,
        "ab, ",
        4,
    ),
    (
        Command::UnixWordRubout,
        false,
        "",
        "ab, cd",
        3,
        Done::Changed,
        " cd",
        0,
    ),
    (
        Command::Newline,
        false,
        "",
        "\t x",
        3,
        Done::Changed,
        "\t x\n\t ",
        6,
    ),
    (
        Command::BackwardChar,
        true,
        "",
        "ab",
        0,
        Done::Changed,
        "ab",
        1,
    ),
    (
        Command::ForwardWord,
        false,
        "2",
        "ab, cd",
        0,
        Done::Changed,
        "ab, cd",
        3,
    ),
];

fn assert_case(
    rt: &impl Abort,
    alloc: Global,
    state: &mut EditState,
    case: &Case,
) -> Result<(), Fail> {
    let (command, _, _, text, _, done, then, cursor) = *case;
    assert_eq!(rt; run(state, alloc, command)?, done, "{text}");
    let then = Text::read_str(alloc, then)?;
    assert!(rt; state.buffer.doc().has_text(then.as_slice()), "{text}");
    assert_eq!(rt; state.buffer.doc().cursor(), cursor, "{text}");
    Ok(())
}

#[test]
fn commands(rt: HostRuntime) -> Result<(), Fail> {
    for case in &CASES {
        let arg = arg_of(rt.alloc(), case.1, case.2)?;
        let mut state = state_of(&rt, rt.alloc(), case.3, case.4, arg)?;
        assert_case(&rt, rt.alloc(), &mut state, case)?;
    }
    Ok(())
}

fn assert_first_clip(rt: &impl Abort, state: &EditState, chars: &[char]) {
    match state.ring.first() {
        Some(clip) => assert!(rt; clip.text.equals(chars) && !clip.lines),
        None => panic!(rt; "no clip"),
    }
}

fn assert_repeats(rt: &impl Abort, alloc: Global, state: &mut EditState) -> Result<(), Fail> {
    killing::kill_word(state, alloc)?;
    state.previous = Some(Command::KillWord.number());
    killing::kill_word(state, alloc)?;
    assert_first_clip(rt, state, &['a', 'b', ',']);
    killing::backward_kill_word(state, alloc)?;
    assert_first_clip(rt, state, &['a', 'b', ',']);
    state.ring.rotate();
    assert_first_clip(rt, state, &['a', 'b']);
    Ok(())
}

#[test]
fn a_repeated_kill_joins(rt: HostRuntime) -> Result<(), Fail> {
    let mut state = state_of(&rt, rt.alloc(), "ab, cd", 0, None)?;
    assert_repeats(&rt, rt.alloc(), &mut state)
}

fn assert_selects(rt: &impl Abort, state: &mut EditState) -> Result<(), Fail> {
    assert_eq!(rt; killing::cut_selection(state)?, Done::Same);
    assert_eq!(rt; moving::select_left(state), Done::Changed);
    assert_eq!(rt; killing::copy_selection(state)?, Done::Changed);
    assert_eq!(rt; state.buffer.doc().mark(), None);
    assert_first_clip(rt, state, &['b']);
    assert_eq!(rt; moving::select_left(state), Done::Changed);
    assert_eq!(rt; killing::cut_selection(state)?, Done::Changed);
    assert_first_clip(rt, state, &['a']);
    Ok(())
}

#[test]
fn selections(rt: HostRuntime) -> Result<(), Fail> {
    let mut state = state_of(&rt, rt.alloc(), "ab", 2, None)?;
    assert_selects(&rt, &mut state)
}

/// Returns the command that a key fires where no fact holds.
fn fired(table: &Bindings<EMACS>, alloc: Global, key: Key) -> Option<Command> {
    let mut held = Held::new();
    held.push(KeyPress {
        key,
        text: KeyText::new(alloc),
    });
    match held.decide(table, &Facts::none(), false) {
        Fired::Fire { command, .. } => Command::from_number(command),
        _ => None,
    }
}

#[test]
fn keys_fire_commands(rt: HostRuntime) -> Result<(), Fail> {
    let table = emacs_bindings(rt.alloc())?;
    assert_eq!(rt;
        fired(&table, rt.alloc(), Key::Char('x')),
        Some(Command::SelfInsert)
    );
    assert_eq!(rt;
        fired(&table, rt.alloc(), Key::Control('k')),
        Some(Command::KillLine)
    );
    assert_eq!(rt; fired(&table, rt.alloc(), Key::Escape), None);
    Ok(())
}

fn press(alloc: Global, key: Key, text: &str) -> Result<KeyPress, NoMemory> {
    let text = KeyText::read_str(alloc, text)?;
    Ok(KeyPress { key, text })
}

fn assert_types(rt: &impl Abort, alloc: Global, state: &mut EditState) -> Result<(), Fail> {
    let letter = press(alloc, Key::Char('x'), "x")?;
    assert_eq!(rt;
        inserting::self_insert(state, alloc, &letter)?,
        Done::Changed
    );
    let paste = press(alloc, Key::Paste, "yz")?;
    assert_eq!(rt; inserting::self_insert(state, alloc, &paste)?, Done::Same);
    assert_eq!(rt;
        inserting::insert_text(state, alloc, &paste)?,
        Done::Changed
    );
    state.suggestion = Some(Text::read_str(alloc, "!")?);
    assert_eq!(rt; inserting::insert_suggestion(state, alloc)?, Done::Changed);
    assert!(rt; state.buffer.doc().has_text(&['x', 'y', 'z', '!']));
    Ok(())
}

#[test]
fn typing(rt: HostRuntime) -> Result<(), Fail> {
    let mut state = state_of(&rt, rt.alloc(), "", 0, None)?;
    assert_types(&rt, rt.alloc(), &mut state)
}

fn assert_counts(rt: &impl Abort, alloc: Global, state: &mut EditState) -> Result<(), Fail> {
    assert_eq!(rt; counting::negative_argument(state, alloc), Done::Changed);
    assert_eq!(rt; counting::negative_argument(state, alloc), Done::Same);
    let digit = press(alloc, Key::Char('3'), "3")?;
    assert_eq!(rt;
        counting::digit_argument(state, alloc, &digit)?,
        Done::Changed
    );
    assert_eq!(rt; amount_in(&state.arg), Amount::Backward(3));
    Ok(())
}

#[test]
fn counting_digits(rt: HostRuntime) -> Result<(), Fail> {
    let mut state = state_of(&rt, rt.alloc(), "", 0, None)?;
    assert_counts(&rt, rt.alloc(), &mut state)
}

fn assert_restores(rt: &impl Abort, alloc: Global, state: &mut EditState) -> Result<(), Fail> {
    assert_eq!(rt; restoring::undo(state)?, Done::Bell);
    state.buffer.save()?;
    state.insert(alloc, &['!'], 1)?;
    assert_eq!(rt; restoring::undo(state)?, Done::Changed);
    assert!(rt; state.buffer.doc().has_text(&['a', 'b']));
    assert_eq!(rt; restoring::redo(state)?, Done::Changed);
    assert_eq!(rt; restoring::redo(state)?, Done::Bell);
    assert_eq!(rt; moving::set_mark(state), Done::Changed);
    assert_eq!(rt; restoring::cancel(state), Done::Changed);
    assert_eq!(rt; restoring::cancel(state), Done::Same);
    Ok(())
}

#[test]
fn restores(rt: HostRuntime) -> Result<(), Fail> {
    let mut state = state_of(&rt, rt.alloc(), "ab", 2, None)?;
    assert_restores(&rt, rt.alloc(), &mut state)
}
