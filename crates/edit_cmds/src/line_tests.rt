//! Tables of moves by rows and by lines of the history, of selections and of searches, worked out by hand.
use crate::cases::{Step, assert_steps, state_of, state_with_history};
use edit_state::{Command, Done};
use std::process::Abort;
use std::test::Fail;

/// The lines are "ab\nc", "de" and this one. Back leads to the end of a line, forward to the end of its first row.
static LINES: [Step; 22] = [
    (Command::NextHistory, 'x', Done::Same, "x|"),
    (Command::PreviousHistory, 'x', Done::Changed, "de|"),
    (Command::PreviousHistory, 'x', Done::Changed, "ab\nc|"),
    (Command::PreviousHistory, 'x', Done::Same, "ab\nc|"),
    (Command::NextHistory, 'x', Done::Changed, "de|"),
    (Command::NextHistory, 'x', Done::Changed, "x|"),
    (Command::BeginningOfHistory, 'x', Done::Changed, "ab\nc|"),
    (Command::BeginningOfHistory, 'x', Done::Same, "ab\nc|"),
    (Command::EndOfHistory, 'x', Done::Changed, "x|"),
    (Command::EndOfHistory, 'x', Done::Same, "x|"),
    (Command::DigitArgument, '9', Done::Changed, "x|"),
    (Command::PreviousHistory, 'x', Done::Changed, "ab\nc|"),
    (Command::DigitArgument, '2', Done::Changed, "ab\nc|"),
    (Command::NextHistory, 'x', Done::Changed, "x|"),
    (Command::NegativeArgument, '-', Done::Changed, "x|"),
    (Command::PreviousHistory, 'x', Done::Changed, "de|"),
    (Command::SelfInsert, 'f', Done::Changed, "def|"),
    (Command::SetMark, 'x', Done::Changed, "def|"),
    (Command::NextHistory, 'x', Done::Changed, "x|"),
    (Command::CutSelection, 'x', Done::Same, "x|"),
    (Command::PreviousHistory, 'x', Done::Changed, "def|"),
    (Command::CutSelection, 'x', Done::Same, "def|"),
];

#[test]
fn lines_of_the_history(rt: HostRuntime) -> Result<(), Fail> {
    let alloc = rt.alloc();
    let mut state = state_with_history(&rt, alloc, "x|")?;
    assert_steps(&rt, alloc, &mut state, &LINES)
}

/// From the first row up and from the last row down lies the history, unless a mark is set.
static AUTOS: [Step; 19] = [
    (Command::AutoDown, 'x', Done::Same, "x\ny|"),
    (Command::AutoUp, 'x', Done::Changed, "x|\ny"),
    (Command::AutoUp, 'x', Done::Changed, "de|"),
    (Command::AutoUp, 'x', Done::Changed, "ab\nc|"),
    (Command::AutoUp, 'x', Done::Changed, "a|b\nc"),
    (Command::AutoUp, 'x', Done::Same, "a|b\nc"),
    (Command::AutoDown, 'x', Done::Changed, "ab\nc|"),
    (Command::AutoDown, 'x', Done::Changed, "de|"),
    (Command::AutoDown, 'x', Done::Changed, "x|\ny"),
    (Command::AutoDown, 'x', Done::Changed, "x\ny|"),
    // two rows up are one here, and no line
    (Command::DigitArgument, '2', Done::Changed, "x\ny|"),
    (Command::AutoUp, 'x', Done::Changed, "x|\ny"),
    (Command::SetMark, 'x', Done::Changed, "x|\ny"),
    (Command::AutoUp, 'x', Done::Same, "x|\ny"),
    (Command::Cancel, 'x', Done::Changed, "x|\ny"),
    (Command::DigitArgument, '2', Done::Changed, "x|\ny"),
    (Command::AutoUp, 'x', Done::Changed, "ab\nc|"),
    (Command::DigitArgument, '9', Done::Changed, "ab\nc|"),
    (Command::AutoDown, 'x', Done::Changed, "x|\ny"),
];

#[test]
fn rows_lead_to_the_history(rt: HostRuntime) -> Result<(), Fail> {
    let alloc = rt.alloc();
    let mut state = state_with_history(&rt, alloc, "x\ny|")?;
    assert_steps(&rt, alloc, &mut state, &AUTOS)
}

/// The first selecting move sets the mark, and the others keep it.
static SELECTIONS: [Step; 14] = [
    (Command::SelectUp, 'x', Done::Changed, "a|b\ncd"),
    (Command::SelectUp, 'x', Done::Same, "a|b\ncd"),
    (Command::SelectRight, 'x', Done::Changed, "ab|\ncd"),
    (Command::SelectRight, 'x', Done::Same, "ab|\ncd"),
    (Command::CopySelection, 'x', Done::Changed, "ab|\ncd"),
    (Command::Yank, 'x', Done::Changed, "ab\nc|\ncd"),
    (Command::SelectDown, 'x', Done::Changed, "ab\nc\nc|d"),
    (Command::SelectDown, 'x', Done::Same, "ab\nc\nc|d"),
    (Command::SelectLeft, 'x', Done::Changed, "ab\nc\n|cd"),
    (Command::SelectLeft, 'x', Done::Same, "ab\nc\n|cd"),
    (Command::CutSelection, 'x', Done::Changed, "ab\nc|cd"),
    (Command::CutSelection, 'x', Done::Same, "ab\nc|cd"),
    (Command::SetMark, 'x', Done::Changed, "ab\nc|cd"),
    (Command::CutSelection, 'x', Done::Changed, "ab\nc|cd"),
];

#[test]
fn selections_by_moves(rt: HostRuntime) -> Result<(), Fail> {
    let alloc = rt.alloc();
    let mut state = state_of(&rt, alloc, "ab\nc|d")?;
    assert_steps(&rt, alloc, &mut state, &SELECTIONS)
}

/// A search forward looks from where it started on, and ends where it stands.
static SEARCH_FORWARD: [Step; 12] = [
    (Command::SearchForward, 'x', Done::Changed, "|ab ab"),
    (Command::SearchAgainForward, 'x', Done::Bell, "|ab ab"),
    (Command::ShortenNeedle, 'x', Done::Same, "|ab ab"),
    (Command::ExtendNeedle, 'b', Done::Changed, "a|b ab"),
    (Command::SearchAgainForward, 'x', Done::Changed, "ab a|b"),
    (Command::SearchForward, 'x', Done::Same, "ab a|b"),
    (Command::AcceptSearch, 'x', Done::Changed, "ab a|b"),
    (Command::AcceptSearch, 'x', Done::Same, "ab a|b"),
    (Command::SearchForward, 'x', Done::Changed, "ab a|b"),
    (Command::ExtendNeedle, 'a', Done::Bell, "ab a|b"),
    (Command::SearchAgainBackward, 'x', Done::Changed, "ab |ab"),
    (Command::AbortSearch, 'x', Done::Changed, "ab a|b"),
];

#[test]
fn searches_go_forward(rt: HostRuntime) -> Result<(), Fail> {
    let alloc = rt.alloc();
    let mut state = state_of(&rt, alloc, "|ab ab")?;
    assert_steps(&rt, alloc, &mut state, &SEARCH_FORWARD)
}

/// Searches go through the lines "ab\nc", "de" and this one.
static SEARCH_LINES: [Step; 11] = [
    (Command::SearchBackward, 'x', Done::Changed, "cd|"),
    (Command::ExtendNeedle, 'd', Done::Changed, "c|d"),
    (Command::SearchAgainBackward, 'x', Done::Changed, "|de"),
    (Command::SearchAgainBackward, 'x', Done::Bell, "|de"),
    (Command::AbortSearch, 'x', Done::Changed, "cd|"),
    (Command::SearchBackward, 'x', Done::Changed, "cd|"),
    (Command::ExtendNeedle, 'b', Done::Changed, "a|b\nc"),
    (Command::ShortenNeedle, 'x', Done::Changed, "cd|"),
    (Command::ExtendNeedle, 'e', Done::Changed, "d|e"),
    (Command::AcceptSearch, 'x', Done::Changed, "d|e"),
    (Command::NextHistory, 'x', Done::Changed, "cd|"),
];

#[test]
fn searches_go_through_lines(rt: HostRuntime) -> Result<(), Fail> {
    let alloc = rt.alloc();
    let mut state = state_with_history(&rt, alloc, "cd|")?;
    assert_steps(&rt, alloc, &mut state, &SEARCH_LINES)
}
