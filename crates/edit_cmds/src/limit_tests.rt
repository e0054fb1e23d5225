//! Tables of insertions where the text has little room, worked out by hand.
ghost use Rattle.std.specs.Prelude.{◌≡◌, None, OnOk};

use crate::cases::{arg_of, state_with_room};
use crate::{moving, run};
use edit_buffer::Clip;
use edit_state::{Command, Done, EditState};
use key_names::{Key, KeyPress, KeyText};
use std::alloc::Global;
use std::process::Abort;
use std::test::Fail;
use text_doc::Text;

/// A command, its argument and the room in the text, what it answers, and how many characters it inserts.
type Case = (Command, &'static str, usize, Done, usize);

/// The key is `x` and was read as "xyz", the first clip is "xyz", and "xyz" is suggested.
static LIMITS: [Case; 17] = [
    (Command::SelfInsert, "", 0, Done::Bell, 0),
    (Command::SelfInsert, "", 1, Done::Changed, 1),
    (Command::SelfInsert, "9", 8, Done::Bell, 0),
    (Command::SelfInsert, "9", 9, Done::Changed, 9),
    (Command::QuotedInsert, "", 2, Done::Bell, 0),
    (Command::QuotedInsert, "", 3, Done::Changed, 3),
    (Command::InsertPaste, "", 2, Done::Bell, 0),
    (Command::InsertPaste, "", 3, Done::Changed, 3),
    (Command::Newline, "", 0, Done::Bell, 0),
    (Command::Newline, "", 1, Done::Changed, 1),
    (Command::InsertSuggestion, "", 2, Done::Bell, 0),
    (Command::InsertSuggestion, "", 3, Done::Changed, 3),
    (Command::Yank, "", 2, Done::Bell, 0),
    (Command::Yank, "", 3, Done::Changed, 3),
    (Command::Yank, "2", 5, Done::Bell, 0),
    (Command::Yank, "2", 6, Done::Changed, 6),
    // the first clip gives way to "vwxyz" in the text from before the paste
    (Command::YankPop, "", 4, Done::Bell, 0),
];

/// Sets a mark and puts clips on the ring, and then what is suggested and the text from before a paste.
fn prepare(alloc: Global, state: &mut EditState) -> Result<(), Fail>
    requires { state.old.search ≡ None }
    ensures { OnOk result (state.new.search ≡ None) }
{
    moving::set_mark(state);
    state.ring.put(clip(alloc, &['v', 'w', 'x', 'y', 'z'])?);
    state.ring.put(clip(alloc, &['x', 'y', 'z'])?);
    state.suggestion = Some(Text::from_chars(alloc, &['x', 'y', 'z'])?);
    state.before_paste = Some(state.buffer.doc().copy()?);
    state.previous = Some(Command::Yank.number());
    Ok(())
}

fn clip(alloc: Global, chars: &[char]) -> Result<Clip, Fail> {
    let text = Text::from_chars(alloc, chars)?;
    Ok(Clip { text, lines: false })
}

/// Asserts that mark, cursor and ring are as before, and for a paste also the text from before it.
fn assert_left(rt: &impl Abort, state: &EditState, pastes: bool) {
    assert_eq!(rt; state.buffer.doc().mark(), Some(1));
    assert_eq!(rt; state.buffer.doc().cursor(), 1);
    assert_eq!(rt; state.before_paste.is_some(), pastes);
    match state.ring.first() {
        Some(clip) => assert!(rt; clip.text.equals(&['x', 'y', 'z'])),
        None => panic!(rt; "no clip"),
    }
}

/// Runs a command where the text has little room.
fn run_limited(
    rt: &impl Abort,
    alloc: Global,
    state: &mut EditState,
    command: Command,
    arg: &str,
) -> Result<Done, Fail> {
    assert!(rt; state.search.is_none());
    prepare(alloc, state)?;
    state.arg = arg_of(alloc, arg)?;
    let text = KeyText::from_chars(alloc, &['x', 'y', 'z'])?;
    let key = KeyPress {
        key: Key::Char('x'),
        text,
    };
    let done = run(alloc, command, &key, state)?;
    Ok(done)
}

fn assert_limit(
    rt: &impl Abort,
    alloc: Global,
    state: &mut EditState,
    case: &Case,
) -> Result<(), Fail> {
    let (command, arg, room, done, count) = *case;
    let before = state.buffer.doc().copy()?;
    assert_eq!(rt;
        run_limited(rt, alloc, state, command, arg)?,
        done,
        "{room}"
    );
    let grown = state.buffer.doc().len().saturating_sub(before.len());
    assert_eq!(rt; grown, count, "{room}");
    if done == Done::Bell {
        assert!(rt; state.buffer.doc().is_same(&before), "{room}");
        assert_left(
            rt,
            state,
            command == Command::Yank || command == Command::YankPop,
        );
    }
    Ok(())
}

#[test]
fn insertions_at_the_limit(rt: HostRuntime) -> Result<(), Fail> {
    for case in &LIMITS {
        let mut state = state_with_room(&rt, rt.alloc(), case.2)?;
        assert_limit(&rt, rt.alloc(), &mut state, case)?;
    }
    Ok(())
}
