//! Tables of keys and of full texts, worked out by hand. A key is decided, saved for and run as it is bound.
use crate::tests::{navigation, state_of};
use crate::{VI, ViCommand, is_ready, run_vi, vi_bindings, vi_facts};
use edit_buffer::Clip;
use edit_state::{Done, EditState, ViMode, ViState};
use key_names::{Key, KeyPress, KeyText};
use key_proc::{Bindings, Fact, Fired, Held, Save};
use std::alloc::Global;
use std::process::Abort;
use std::test::Fail;
use text_doc::{MAX_LENGTH, Text};

/// A text with the cursor at 0, keys of Navigation, and then the last answer, the text and the cursor.
type Case = (&'static str, &'static [Key], Done, &'static str, usize);

/// The key of an operator saves, so nothing is left to redo; undo, redo, digits and `escape` do not.
static UNDONE: [Case; 11] = [
    ("ab", &[Key::Char('u')], Done::Bell, "ab", 0),
    (
        "ab",
        &[Key::Char('x'), Key::Char('u')],
        Done::Changed,
        "ab",
        0,
    ),
    (
        "ab",
        &[Key::Char('x'), Key::Char('u'), Key::Control('r')],
        Done::Changed,
        "b",
        0,
    ),
    (
        "ab",
        &[
            Key::Char('x'),
            Key::Char('u'),
            Key::Escape,
            Key::Control('r'),
        ],
        Done::Changed,
        "b",
        0,
    ),
    (
        "ab",
        &[
            Key::Char('x'),
            Key::Char('u'),
            Key::Char('2'),
            Key::Control('r'),
        ],
        Done::Changed,
        "b",
        0,
    ),
    (
        "ab",
        &[
            Key::Char('x'),
            Key::Char('u'),
            Key::Char('d'),
            Key::Escape,
            Key::Control('r'),
        ],
        Done::Bell,
        "ab",
        0,
    ),
    // behind `d` the `c` ends the operator with a bell
    (
        "ab",
        &[
            Key::Char('x'),
            Key::Char('u'),
            Key::Char('d'),
            Key::Char('c'),
        ],
        Done::Bell,
        "ab",
        0,
    ),
    (
        "ab",
        &[
            Key::Char('x'),
            Key::Char('u'),
            Key::Char('d'),
            Key::Char('c'),
            Key::Control('r'),
        ],
        Done::Bell,
        "ab",
        0,
    ),
    // undo is no motion
    ("ab", &[Key::Char('d'), Key::Char('u')], Done::Bell, "ab", 0),
    // what `d` and `w` took comes back in one
    (
        "ab cd",
        &[Key::Char('d'), Key::Char('w'), Key::Char('u')],
        Done::Changed,
        "ab cd",
        0,
    ),
    (
        "ab cd",
        &[
            Key::Char('v'),
            Key::Char('l'),
            Key::Char('d'),
            Key::Char('u'),
        ],
        Done::Changed,
        "ab cd",
        1,
    ),
];

/// Presses a key: decides what it fires, saves as its binding says, and runs the command.
fn press(
    rt: &impl Abort,
    alloc: Global,
    table: &Bindings<VI>,
    key: Key,
    state: &mut EditState,
    vi: &mut ViState,
) -> Result<Done, Fail> {
    let mut held = Held::new();
    held.push(KeyPress {
        key,
        text: KeyText::new(alloc),
    });
    match held.decide(table, &vi_facts(state, *vi), false) {
        Fired::Fire {
            command,
            save,
            last,
            ..
        } => {
            if save == Save::Always {
                state.buffer.save()?;
            }
            assert!(rt; is_ready(state, *vi));
            match ViCommand::from_number(command) {
                Some(command) => Ok(run_vi(alloc, command, &last, state, vi)?),
                None => Ok(Done::Same),
            }
        },
        _ => Ok(Done::Same),
    }
}

/// Presses keys one after the other, and returns the last answer.
fn press_all(
    rt: &impl Abort,
    alloc: Global,
    table: &Bindings<VI>,
    keys: &[Key],
    state: &mut EditState,
) -> Result<Done, Fail> {
    let mut vi = navigation();
    let mut last = Done::Same;
    for key in keys {
        last = press(rt, alloc, table, *key, state, &mut vi)?;
    }
    Ok(last)
}

fn assert_case(
    rt: &impl Abort,
    alloc: Global,
    table: &Bindings<VI>,
    state: &mut EditState,
    case: &Case,
) -> Result<(), Fail> {
    let (before, keys, done, then, cursor) = *case;
    let then = Text::read_str(alloc, then)?;
    assert_eq!(rt; press_all(rt, alloc, table, keys, state)?, done, "{before}");
    assert!(rt; state.buffer.doc().has_text(then.as_slice()), "{before}");
    assert_eq!(rt; state.buffer.doc().cursor(), cursor, "{before}");
    Ok(())
}

#[test]
fn operators_and_undo(rt: HostRuntime) -> Result<(), Fail> {
    let table = vi_bindings(rt.alloc())?;
    for case in &UNDONE {
        let mut state = state_of(&rt, rt.alloc(), Text::read_str(rt.alloc(), case.0)?, 0)?;
        assert_case(&rt, rt.alloc(), &table, &mut state, case)?;
    }
    Ok(())
}

/// A command, whether the cursor is at the text's end, the room in the text, what it answers, and the mode then.
/// The clip is "xy".
type Limit = (ViCommand, bool, usize, Done, ViMode);

static LIMITS: [Limit; 12] = [
    (
        ViCommand::OverwriteChar,
        true,
        0,
        Done::Bell,
        ViMode::Replace,
    ),
    (
        ViCommand::OverwriteChar,
        true,
        1,
        Done::Changed,
        ViMode::Replace,
    ),
    (
        ViCommand::OverwriteChar,
        false,
        0,
        Done::Changed,
        ViMode::Replace,
    ),
    (
        ViCommand::PutBehind,
        false,
        1,
        Done::Bell,
        ViMode::Navigation,
    ),
    (
        ViCommand::PutBehind,
        false,
        2,
        Done::Changed,
        ViMode::Navigation,
    ),
    (
        ViCommand::PutBefore,
        false,
        1,
        Done::Bell,
        ViMode::Navigation,
    ),
    (
        ViCommand::OpenBelow,
        false,
        0,
        Done::Bell,
        ViMode::Navigation,
    ),
    (
        ViCommand::OpenAbove,
        false,
        0,
        Done::Bell,
        ViMode::Navigation,
    ),
    (
        ViCommand::OpenAbove,
        false,
        1,
        Done::Changed,
        ViMode::Insert,
    ),
    (
        ViCommand::ReplaceChars,
        false,
        0,
        Done::Changed,
        ViMode::Navigation,
    ),
    (
        ViCommand::SwapCase,
        false,
        0,
        Done::Changed,
        ViMode::Navigation,
    ),
    (
        ViCommand::CutAhead,
        false,
        0,
        Done::Changed,
        ViMode::Navigation,
    ),
];

/// Returns what vi's keys keep in the mode where a command is bound.
fn mode_for(command: ViCommand) -> ViState {
    let mode = match command {
        ViCommand::OverwriteChar => ViMode::Replace,
        _ => ViMode::Navigation,
    };
    ViState {
        mode,
        ..navigation()
    }
}

/// Returns a state with the room and the cursor of a limit.
fn limited(rt: &impl Abort, alloc: Global, limit: &Limit) -> Result<EditState, Fail> {
    let (_, at_end, room, _, _) = *limit;
    assert!(rt; room < MAX_LENGTH);
    let size = MAX_LENGTH - room;
    let text = Text::from_vec(vec![in alloc; 'a'; size]?);
    state_of(rt, alloc, text, if at_end { size } else { 0 })
}

/// Runs a command by the key `z`, with the clip on the ring.
fn run_limited(
    rt: &impl Abort,
    alloc: Global,
    command: ViCommand,
    state: &mut EditState,
    vi: &mut ViState,
) -> Result<Done, Fail> {
    let text = Text::from_chars(alloc, &['x', 'y'])?;
    state.ring.put(Clip { text, lines: false });
    let key = KeyPress {
        key: Key::Char('z'),
        text: KeyText::new(alloc),
    };
    assert!(rt; is_ready(state, *vi));
    let done = run_vi(alloc, command, &key, state, vi)?;
    Ok(done)
}

fn assert_limit(
    rt: &impl Abort,
    alloc: Global,
    state: &mut EditState,
    limit: &Limit,
) -> Result<(), Fail> {
    let (command, _, _, done, mode) = *limit;
    let before = state.buffer.doc().copy()?;
    let mut vi = mode_for(command);
    assert_eq!(rt; run_limited(rt, alloc, command, state, &mut vi)?, done);
    assert_eq!(rt; vi.mode, mode);
    let left = state.buffer.doc().is_same(&before);
    assert_eq!(rt; left, done == Done::Bell);
    Ok(())
}

#[test]
fn full_texts(rt: HostRuntime) -> Result<(), Fail> {
    for limit in &LIMITS {
        let mut state = limited(&rt, rt.alloc(), limit)?;
        assert_limit(&rt, rt.alloc(), &mut state, limit)?;
    }
    Ok(())
}

#[test]
fn facts_of_the_mode(rt: HostRuntime) -> Result<(), Fail> {
    let alloc = rt.alloc();
    let state = state_of(&rt, alloc, Text::new(alloc), 0)?;
    let facts = vi_facts(&state, navigation());
    assert!(rt; facts.has(Fact::Navigation) && facts.has(Fact::Empty));
    assert!(rt; !facts.has(Fact::Insert) && !facts.has(Fact::Operator));
    Ok(())
}
