//! Tables of what commands do while a menu is open, worked out by hand.
ghost use Rattle.std.specs.Prelude.{◌≡◌, None, IfOk, OnOk};
ghost use Rattle.edit_buffer.specs.BufferState.{ReachWithin};
ghost use Rattle.edit_state.specs.Searches.{HasOrigin};

use crate::cases::{Step, assert_steps, letter, state_of};
use crate::run;
use edit_state::{Command, Done, EditState, NoMemory};
use std::alloc::Global;
use std::process::Abort;
use std::test::Fail;
use text_doc::{Completion, Completions, MAX_LENGTH, Text};

/// Puts an item behind the others that stands for this text in place of nothing.
fn push_item(items: &mut Completions, text: Text) -> Result<(), NoMemory>
    requires { ReachWithin 0 items.old }
    ensures { OnOk result (ReachWithin 0 items.new) }
{
    items.push(Completion { text, back: 0 })?;
    Ok(())
}

/// Returns items for "x" and for the other text.
fn items_with(alloc: Global, other: Text) -> Result<Completions, NoMemory>
    ensures { IfOk result (ReachWithin 0) }
{
    let mut items = Completions::new(alloc);
    push_item(&mut items, Text::from_chars(alloc, &['x'])?)?;
    push_item(&mut items, other)?;
    Ok(items)
}

/// Opens a menu of "x" and of the other text.
fn open_menu(rt: &impl Abort, alloc: Global, state: &mut EditState, other: Text) -> Result<(), Fail>
    requires { HasOrigin state.old }
    ensures { HasOrigin state.new }
{
    assert!(rt; state.search.is_none());
    assert!(rt; state.buffer.start_menu(items_with(alloc, other)?)?);
    Ok(())
}

/// Runs steps in a menu of "x" and "yy" behind the `a` of "ab".
fn assert_menu(
    rt: &impl Abort,
    alloc: Global,
    state: &mut EditState,
    steps: &[Step],
) -> Result<(), Fail>
    requires { HasOrigin state.old }
{
    open_menu(rt, alloc, state, Text::from_chars(alloc, &['y', 'y'])?)?;
    assert_steps(rt, alloc, state, steps)
}

/// The one behind none is the first, and the one behind the last is none.
static CHOICES: [Step; 16] = [
    (Command::MenuComplete, 'x', Done::Changed, "ax|b"),
    (Command::MenuComplete, 'x', Done::Changed, "ayy|b"),
    (Command::MenuComplete, 'x', Done::Changed, "a|b"),
    (Command::MenuCompleteBackward, 'x', Done::Changed, "ayy|b"),
    (Command::MenuCompleteBackward, 'x', Done::Changed, "ax|b"),
    (Command::MenuCompleteBackward, 'x', Done::Changed, "a|b"),
    (Command::AutoDown, 'x', Done::Changed, "ax|b"),
    (Command::AutoDown, 'x', Done::Changed, "ayy|b"),
    (Command::AutoUp, 'x', Done::Changed, "ax|b"),
    (Command::DigitArgument, '2', Done::Changed, "ax|b"),
    (Command::AutoDown, 'x', Done::Changed, "a|b"),
    (Command::NegativeArgument, '-', Done::Changed, "a|b"),
    (Command::AutoUp, 'x', Done::Changed, "ayy|b"),
    // the argument counts for no choice by a tab
    (Command::DigitArgument, '2', Done::Changed, "ayy|b"),
    (Command::MenuComplete, 'x', Done::Changed, "a|b"),
    (Command::MenuComplete, 'x', Done::Changed, "ax|b"),
];

#[test]
fn moves_choose_in_a_menu(rt: HostRuntime) -> Result<(), Fail> {
    let alloc = rt.alloc();
    let mut state = state_of(&rt, alloc, "a|b")?;
    assert_menu(&rt, alloc, &mut state, &CHOICES)
}

/// Accepting, moving and typing leave the menu to the one who runs the command. Cancelling closes it.
static OTHERS: [Step; 10] = [
    (Command::AcceptLine, 'x', Done::Accept, "a|b"),
    (Command::MenuComplete, 'x', Done::Changed, "ax|b"),
    (Command::AcceptLine, 'x', Done::Accept, "ax|b"),
    (Command::ForwardChar, 'x', Done::Changed, "axb|"),
    (Command::SelfInsert, 'z', Done::Changed, "axbz|"),
    (Command::Cancel, 'x', Done::Changed, "a|b"),
    (Command::Cancel, 'x', Done::Same, "a|b"),
    (Command::MenuCompleteBackward, 'x', Done::Same, "a|b"),
    (Command::MenuComplete, 'x', Done::StartComplete, "a|b"),
    (Command::AutoUp, 'x', Done::Same, "a|b"),
];

#[test]
fn other_keys_with_a_menu(rt: HostRuntime) -> Result<(), Fail> {
    let alloc = rt.alloc();
    let mut state = state_of(&rt, alloc, "a|b")?;
    assert_menu(&rt, alloc, &mut state, &OTHERS)
}

/// The menu's original has a mark, which neither a choice nor cancelling brings back.
static MARKED: [Step; 4] = [
    (Command::MenuComplete, 'x', Done::Changed, "ax|b"),
    (Command::CutSelection, 'x', Done::Same, "ax|b"),
    (Command::Cancel, 'x', Done::Changed, "a|b"),
    (Command::CutSelection, 'x', Done::Same, "a|b"),
];

#[test]
fn a_menu_takes_the_mark(rt: HostRuntime) -> Result<(), Fail> {
    let alloc = rt.alloc();
    let mut state = state_of(&rt, alloc, "a|b")?;
    let key = letter(alloc, 'x')?;
    assert_eq!(rt;
        run(alloc, Command::SetMark, &key, &mut state)?,
        Done::Changed
    );
    assert_menu(&rt, alloc, &mut state, &MARKED)
}

/// The second item leaves no room for the text.
static TOO_LONG: [Step; 6] = [
    (Command::MenuCompleteBackward, 'x', Done::Bell, "a|b"),
    (Command::MenuComplete, 'x', Done::Changed, "ax|b"),
    (Command::MenuComplete, 'x', Done::Bell, "ax|b"),
    (Command::DigitArgument, '5', Done::Changed, "ax|b"),
    (Command::AutoDown, 'x', Done::Bell, "ax|b"),
    (Command::AutoUp, 'x', Done::Changed, "a|b"),
];

#[test]
fn a_choice_too_long(rt: HostRuntime) -> Result<(), Fail> {
    let alloc = rt.alloc();
    let mut state = state_of(&rt, alloc, "a|b")?;
    let long = Text::from_vec(vec![in alloc; 'y'; MAX_LENGTH]?);
    open_menu(&rt, alloc, &mut state, long)?;
    assert_steps(&rt, alloc, &mut state, &TOO_LONG)
}
