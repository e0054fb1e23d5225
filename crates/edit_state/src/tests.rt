//! Tables worked out by hand, limits, and each call that allocates once with ample memory.
ghost use Rattle.std.specs.Prelude.{◌≡◌, ◌≤◌, length, IfOk, OnOk};
ghost use Rattle.edit_buffer.specs.BufferState.{ReachWithin};
ghost use Rattle.edit_state.specs.Searches.{IsSpot, origin};

use crate::{Amount, Arg, Command, Done, EditState, Search, amount_in, with_digit};
use edit_buffer::{Buffer, Ring};
use key_proc::Fact;
use std::alloc::Global;
use std::process::Abort;
use std::test::Fail;
use text_doc::{Completion, Completions, Lines, MAX_LENGTH, NoMemory, Text};

/// Returns a state of this text with the cursor at this place.
fn state_of(rt: &impl Abort, alloc: Global, text: &str, at: usize) -> Result<EditState, Fail> {
    let text = Text::read_str(alloc, text)?;
    assert!(rt; text.len() <= MAX_LENGTH);
    let buffer = Buffer::new(alloc, Lines::new(alloc), text)?;
    let mut state = EditState::new(buffer, Ring::new(alloc)?, false);
    go_to(rt, &mut state, at);
    Ok(state)
}

fn go_to(rt: &impl Abort, state: &mut EditState, at: usize) {
    assert!(rt; at <= state.buffer.doc().len());
    state.go_to(at);
}

/// Returns a state on an empty line, behind the lines "ab\nc" and "cab".
fn state_with_history(rt: &impl Abort, alloc: Global) -> Result<EditState, Fail> {
    let older = Text::read_str(alloc, "ab\nc")?;
    let newer = Text::read_str(alloc, "cab")?;
    assert!(rt; older.len() <= MAX_LENGTH && newer.len() <= MAX_LENGTH);
    let mut history = Lines::new(alloc);
    history.push(older)?;
    history.push(newer)?;
    let buffer = Buffer::new(alloc, history, Text::new(alloc))?;
    Ok(EditState::new(buffer, Ring::new(alloc)?, false))
}

/// Asserts what the document is.
fn assert_doc(
    rt: &impl Abort,
    alloc: Global,
    state: &EditState,
    text: &str,
    cursor: usize,
) -> Result<(), Fail> {
    let expected = Text::read_str(alloc, text)?;
    assert!(rt; state.buffer.doc().has_text(expected.as_slice()), "{text}");
    assert_eq!(rt; state.buffer.doc().cursor(), cursor, "{text}");
    Ok(())
}

const AMOUNTS: [(bool, &str, Amount); 9] = [
    (false, "7", Amount::Forward(7)),
    (false, "007", Amount::Forward(7)),
    (false, "999999", Amount::Forward(999_999)),
    (false, "1000000", Amount::Forward(1)),
    (false, "99999999", Amount::Forward(1)),
    (true, "", Amount::Backward(1)),
    (true, "3", Amount::Backward(3)),
    (true, "0", Amount::Forward(0)),
    (true, "1000000", Amount::Backward(1)),
];

#[test]
fn amounts(rt: HostRuntime) -> Result<(), Fail> {
    for (negative, digits, amount) in &AMOUNTS {
        let arg = Arg {
            negative: *negative,
            digits: Text::read_str(rt.alloc(), digits)?,
        };
        assert_eq!(rt; arg.amount(), *amount, "{digits}");
    }
    Ok(())
}

#[test]
fn amounts_by_themselves(rt: HostRuntime) {
    assert_eq!(rt; amount_in(&None), Amount::Forward(1));
    assert_eq!(rt; Amount::Backward(3).turned(), Amount::Forward(3));
    assert_eq!(rt;
        (Amount::Backward(3).times(), Amount::Backward(3).count()),
        (0, 1)
    );
    assert_eq!(rt;
        (Amount::Forward(0).times(), Amount::Forward(0).count()),
        (0, 1)
    );
}

#[test]
fn a_ninth_digit_is_lost(rt: HostRuntime) -> Result<(), Fail> {
    let mut arg = None;
    for digit in ['1', '2', '3', '4', '5', '6', '7', '8', '9'] {
        arg = Some(with_digit(rt.alloc(), &arg, digit)?);
    }
    match &arg {
        Some(arg) => assert!(rt; arg.digits.equals(&['1', '2', '3', '4', '5', '6', '7', '8'])),
        None => panic!(&rt; "no argument"),
    }
    Ok(())
}

#[test]
fn numbers(rt: HostRuntime) {
    assert_eq!(rt; Command::from_number(0), Some(Command::SelfInsert));
    assert_eq!(rt; Command::from_number(56), Some(Command::AbortSearch));
    assert_eq!(rt; Command::from_number(57), None);
    assert_eq!(rt; Command::KillWord.number(), 27);
}

/// What is done to a state, and what it answers.
#[derive(Clone, Copy)]
enum Step {
    Insert(char, u32),
    Chars(Amount),
    Down(u32),
    Up(u32),
    AutoUp(u32),
    AutoDown(u32),
    First,
    Last,
}

fn make_step(alloc: Global, state: &mut EditState, step: Step) -> Result<Done, NoMemory> {
    match step {
        Step::Insert(c, times) => state.insert(alloc, &[c], times),
        Step::Chars(amount) => Ok(state.move_by_chars(amount)),
        Step::Down(count) => Ok(state.rows_down(count)),
        Step::Up(count) => Ok(state.rows_up(count)),
        Step::AutoUp(count) => state.auto_up(count),
        Step::AutoDown(count) => state.auto_down(count),
        Step::First => state.first_line(),
        Step::Last => state.last_line(),
    }
}

/// Runs steps, each with its answer, the text and the cursor behind it.
fn run(
    rt: &impl Abort,
    alloc: Global,
    state: &mut EditState,
    steps: &[(Step, Done, &str, usize)],
) -> Result<(), Fail> {
    for (what, answer, text, cursor) in steps {
        let done = make_step(alloc, state, *what)?;
        assert_eq!(rt; done, *answer, "{text} {cursor}");
        assert_doc(rt, alloc, state, text, *cursor)?;
    }
    Ok(())
}

#[test]
fn typing_and_moving_in_a_row(rt: HostRuntime) -> Result<(), Fail> {
    let mut state = state_of(&rt, rt.alloc(), "ab\ncd", 4)?;
    run(
        &rt,
        rt.alloc(),
        &mut state,
        &[
            (Step::Chars(Amount::Forward(9)), Done::Changed, "ab\ncd", 5),
            (Step::Chars(Amount::Forward(1)), Done::Same, "ab\ncd", 5),
            (Step::Chars(Amount::Backward(9)), Done::Changed, "ab\ncd", 3),
            (Step::Chars(Amount::Backward(1)), Done::Same, "ab\ncd", 3),
            (Step::Insert('x', 3), Done::Changed, "ab\nxxxcd", 6),
            (Step::Insert('x', 0), Done::Same, "ab\nxxxcd", 6),
            (Step::Insert('x', 32_761), Done::Bell, "ab\nxxxcd", 6),
        ],
    )
}

#[test]
fn rows_keep_the_column(rt: HostRuntime) -> Result<(), Fail> {
    let text = "abcd\nx\nefgh";
    let mut state = state_of(&rt, rt.alloc(), text, 3)?;
    run(
        &rt,
        rt.alloc(),
        &mut state,
        &[
            (Step::Up(1), Done::Same, text, 3),
            (Step::Down(1), Done::Changed, text, 6),
            (Step::Down(1), Done::Changed, text, 10),
            (Step::Down(1), Done::Same, text, 10),
            (Step::Up(7), Done::Changed, text, 3),
        ],
    )
}

#[test]
fn auto_moves_reach_the_history(rt: HostRuntime) -> Result<(), Fail> {
    let mut state = state_with_history(&rt, rt.alloc())?;
    run(
        &rt,
        rt.alloc(),
        &mut state,
        &[
            (Step::AutoDown(1), Done::Same, "", 0),
            (Step::AutoUp(2), Done::Changed, "ab\nc", 4),
            (Step::AutoUp(1), Done::Changed, "ab\nc", 1),
            (Step::AutoUp(1), Done::Same, "ab\nc", 1),
            (Step::AutoDown(1), Done::Changed, "ab\nc", 4),
            (Step::AutoDown(1), Done::Changed, "cab", 3),
            (Step::First, Done::Changed, "ab\nc", 4),
            (Step::First, Done::Same, "ab\nc", 4),
            (Step::Last, Done::Changed, "", 0),
            (Step::Last, Done::Same, "", 0),
        ],
    )
}

/// A text, the cursor in it, a count, whether words are big, and where moves back and ahead go.
const WORD_MOVES: [(&str, usize, u32, bool, usize, usize); 6] = [
    ("ab, cd", 5, 1, false, 4, 6),
    ("ab, cd", 5, 2, false, 2, 6),
    ("ab, cd", 1, 1, false, 0, 2),
    ("ab, cd", 1, 1, true, 0, 3),
    ("ab, cd", 4, 2, true, 0, 6),
    ("  ", 1, 999_999, false, 0, 2),
];

fn assert_words(
    rt: &impl Abort,
    state: &mut EditState,
    case: &(&str, usize, u32, bool, usize, usize),
) {
    let (text, cursor, count, big, back, ahead) = *case;
    state.move_words_back(count, big);
    assert_eq!(rt; state.buffer.doc().cursor(), back, "{text}");
    go_to(rt, state, cursor);
    state.move_words_ahead(count, big);
    assert_eq!(rt; state.buffer.doc().cursor(), ahead, "{text}");
}

#[test]
fn word_moves(rt: HostRuntime) -> Result<(), Fail> {
    for case in &WORD_MOVES {
        let mut state = state_of(&rt, rt.alloc(), case.0, case.1)?;
        assert_words(&rt, &mut state, case);
    }
    Ok(())
}

fn assert_first_clip(rt: &impl Abort, state: &EditState, chars: &[char]) {
    match state.ring.first() {
        Some(clip) => assert!(rt; clip.text.equals(chars) && !clip.lines),
        None => panic!(rt; "no clip"),
    }
}

fn cut(rt: &impl Abort, state: &mut EditState, from: usize, to: usize) -> Result<Done, NoMemory> {
    assert!(rt; from <= to && to <= state.buffer.doc().len());
    state.cut(from, to)
}

fn assert_cuts(rt: &impl Abort, state: &mut EditState) -> Result<(), Fail> {
    assert_eq!(rt; cut(rt, state, 2, 2)?, Done::Same);
    assert!(rt; state.ring.first().is_none());
    assert_eq!(rt; cut(rt, state, 1, 3)?, Done::Changed);
    assert_first_clip(rt, state, &['e', 'l']);
    assert!(rt; 1 <= state.buffer.doc().len());
    assert_eq!(rt; state.delete(0, 1), Done::Changed);
    Ok(())
}

#[test]
fn cuts(rt: HostRuntime) -> Result<(), Fail> {
    let mut state = state_of(&rt, rt.alloc(), "hello", 4)?;
    assert_cuts(&rt, &mut state)?;
    assert_doc(&rt, rt.alloc(), &state, "lo", 1)?;
    Ok(())
}

fn assert_facts(rt: &impl Abort, alloc: Global, state: &mut EditState) -> Result<(), Fail> {
    assert!(rt; state.facts().has(Fact::Empty) && !state.facts().has(Fact::Suggestion));
    state.suggestion = Some(Text::read_str(alloc, "x")?);
    assert!(rt; state.facts().has(Fact::Suggestion) && !state.facts().has(Fact::Argument));
    state.insert(alloc, &['a'], 1)?;
    go_to(rt, state, 0);
    assert!(rt; !state.facts().has(Fact::Suggestion) && !state.facts().has(Fact::Empty));
    Ok(())
}

#[test]
fn facts(rt: HostRuntime) -> Result<(), Fail> {
    let mut state = state_of(&rt, rt.alloc(), "", 0)?;
    assert_facts(&rt, rt.alloc(), &mut state)
}

/// Puts an item behind the others that stands for this text in place of nothing.
fn push_item(items: &mut Completions, text: Text) -> Result<(), NoMemory>
    requires { ReachWithin 0 items.old }
    ensures { OnOk result (ReachWithin 0 items.new) }
{
    items.push(Completion { text, back: 0 })?;
    Ok(())
}

/// Items that put "x" and a text that leaves no room in place of nothing.
fn items(alloc: Global) -> Result<Completions, NoMemory>
    ensures { IfOk result (ReachWithin 0) }
{
    let mut items = Completions::new(alloc);
    push_item(&mut items, Text::from_chars(alloc, &['x'])?)?;
    let long = Text::from_vec(vec![in alloc; 'y'; MAX_LENGTH]?);
    push_item(&mut items, long)?;
    Ok(items)
}

fn start_menu(rt: &impl Abort, alloc: Global, state: &mut EditState) -> Result<(), Fail> {
    assert!(rt; state.buffer.start_menu(items(alloc)?)?);
    Ok(())
}

#[test]
fn choices(rt: HostRuntime) -> Result<(), Fail> {
    let mut state = state_of(&rt, rt.alloc(), "", 0)?;
    start_menu(&rt, rt.alloc(), &mut state)?;
    run(
        &rt,
        rt.alloc(),
        &mut state,
        &[
            (Step::AutoDown(1), Done::Changed, "x", 1),
            // in a menu of two items three steps lead back
            (Step::AutoDown(3), Done::Same, "x", 1),
            (Step::AutoUp(1), Done::Changed, "", 0),
            (Step::AutoUp(2), Done::Changed, "x", 1),
        ],
    )
}

#[test]
fn a_choice_too_long(rt: HostRuntime) -> Result<(), Fail> {
    let mut state = state_of(&rt, rt.alloc(), "ab", 1)?;
    start_menu(&rt, rt.alloc(), &mut state)?;
    run(
        &rt,
        rt.alloc(),
        &mut state,
        &[
            (Step::AutoUp(1), Done::Bell, "ab", 1),
            (Step::AutoDown(5), Done::Bell, "axb", 2),
        ],
    )
}

/// Returns a search for a needle that starts at the cursor.
fn search_here(buffer: &Buffer, needle: Text, forward: bool) -> Search
    ensures { IsSpot buffer.now (origin result) }
{
    Search {
        needle,
        forward,
        line: buffer.index(),
        at: buffer.doc().cursor(),
    }
}

/// Looks for a needle from the present place, and tells what the look answers and where it leads.
fn look(
    alloc: Global,
    state: &mut EditState,
    needle: &str,
    forward: bool,
) -> Result<(Done, usize, usize), Fail> {
    let needle = Text::read_str(alloc, needle)?;
    let search = search_here(&state.buffer, needle, forward);
    state.search = None;
    let done = state.look(search)?;
    Ok((done, state.buffer.index(), state.buffer.doc().cursor()))
}

/// A needle, whether the look is forward, what it answers, and the line and place where it leads.
const LOOKS: [(&str, bool, Done, usize, usize); 7] = [
    ("ab", false, Done::Changed, 1, 1),
    ("ab", true, Done::Changed, 1, 1),
    ("a", false, Done::Changed, 1, 1),
    ("b\nc", false, Done::Changed, 0, 1),
    ("c", true, Done::Changed, 0, 3),
    ("abc", true, Done::Bell, 0, 3),
    ("", true, Done::Changed, 0, 3),
];

#[test]
fn looks(rt: HostRuntime) -> Result<(), Fail> {
    let mut state = state_with_history(&rt, rt.alloc())?;
    for (needle, forward, done, line, at) in &LOOKS {
        let found = look(rt.alloc(), &mut state, needle, *forward)?;
        assert_eq!(rt; found, (*done, *line, *at), "{needle}");
    }
    Ok(())
}

fn abort(rt: &impl Abort, alloc: Global, state: &mut EditState) -> Result<Done, Fail> {
    assert!(rt; state.search.is_none());
    state.start_search(alloc, false);
    let done = state.abort_search()?;
    Ok(done)
}

#[test]
fn searches_end(rt: HostRuntime) -> Result<(), Fail> {
    let mut state = state_with_history(&rt, rt.alloc())?;
    assert_eq!(rt; abort(&rt, rt.alloc(), &mut state)?, Done::Changed);
    assert_doc(&rt, rt.alloc(), &state, "", 0)?;
    Ok(())
}
