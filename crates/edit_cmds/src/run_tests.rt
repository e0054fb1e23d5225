//! Tables of what running a command does, worked out by hand. The sign `|` stands at the cursor.
use crate::cases::{Step, arg_of, assert_steps, assert_text, letter, state_of};
use crate::run;
use edit_state::{Command, Done};
use std::alloc::Global;
use std::process::Abort;
use std::test::Fail;

/// A command and its argument on a text, what it answers, and the text then. Its key is `x`.
type Case = (Command, &'static str, &'static str, Done, &'static str);

/// A case: a command, its argument and the text before, then what it answers, and the text then.
macro_rules! case {
    ($command:ident $arg:tt $before:tt => $done:ident $then:tt) => {
        (Command::$command, $arg, $before, Done::$done, $then)
    };
}

static CASES: [Case; 101] = [
    case!(TransposeChars "" "|ab" => Same "|ab"),
    case!(TransposeChars "" "a|" => Same "a|"),
    case!(TransposeChars "" "ab|" => Changed "ba|"),
    case!(TransposeChars "" "a|bc" => Changed "ba|c"),
    case!(TransposeChars "" "a\n|b" => Changed "ab\n|"),
    case!(TransposeChars "" "aa|" => Same "aa|"),
    case!(UppercaseWord "" "a|b cd" => Changed "aB| cd"),
    case!(UppercaseWord "2" "|ab cd" => Changed "AB CD|"),
    case!(UppercaseWord "-3" "|ab cd" => Changed "AB| cd"),
    case!(UppercaseWord "" "ab|" => Same "ab|"),
    case!(DowncaseWord "" "|AB CD" => Changed "ab| CD"),
    case!(DowncaseWord "0" "|AB" => Changed "ab|"),
    case!(CapitalizeWord "" "|aBC dE" => Changed "Abc| dE"),
    case!(CapitalizeWord "2" "|aBC 1dE" => Changed "Abc 1De|"),
    case!(CapitalizeWord "9" "ab|, cd" => Changed "ab, Cd|"),
    case!(DeleteHorizontalSpace "" "a | \tb" => Changed "a|b"),
    case!(DeleteHorizontalSpace "" "a|b" => Same "a|b"),
    case!(DeleteHorizontalSpace "" "| \n" => Changed "|\n"),
    case!(BeginningOfLine "" "ab\nc|d" => Changed "ab\n|cd"),
    case!(BeginningOfLine "" "|ab" => Same "|ab"),
    case!(EndOfLine "" "a|b\ncd" => Changed "ab|\ncd"),
    case!(EndOfLine "" "|" => Same "|"),
    case!(BackwardChar "9" "ab\nc|d" => Changed "ab\n|cd"),
    case!(BackwardChar "-" "a|bc" => Changed "ab|c"),
    case!(ForwardChar "9" "|ab\ncd" => Changed "ab|\ncd"),
    case!(ForwardChar "0" "|ab" => Changed "|ab"),
    case!(BackwardWord "2" "ab, cd|" => Changed "ab|, cd"),
    case!(BackwardWord "" "|ab" => Same "|ab"),
    case!(ForwardWord "-2" "|ab, cd" => Changed "ab|, cd"),
    case!(ForwardWord "" "ab |" => Same "ab |"),
    case!(AutoUp "" "ab\n|cd" => Changed "|ab\ncd"),
    case!(AutoUp "" "|ab" => Same "|ab"),
    case!(AutoDown "" "a|b\ncd" => Changed "ab\nc|d"),
    case!(AutoDown "9" "ab|\nc\n" => Changed "ab\nc\n|"),
    case!(BackwardDeleteChar "" "|ab" => Bell "|ab"),
    case!(BackwardDeleteChar "9" "ab|c" => Changed "|c"),
    case!(DeleteChar "" "ab|" => Bell "ab|"),
    case!(DeleteChar "-2" "abc|" => Changed "a|"),
    case!(KillLine "" "a|b\nc" => Changed "a|\nc"),
    case!(KillLine "" "ab|\nc" => Changed "ab|c"),
    case!(KillLine "-" "ab\nc|d" => Changed "ab\n|d"),
    case!(KillLine "" "ab|" => Same "ab|"),
    case!(UnixLineDiscard "" "ab\n|c" => Changed "ab|c"),
    case!(UnixLineDiscard "" "|ab" => Same "|ab"),
    case!(KillWord "2" "|ab, cd" => Changed "| cd"),
    case!(KillWord "" "ab|" => Same "ab|"),
    case!(BackwardKillWord "" "ab, cd|" => Changed "ab, |"),
    case!(UnixWordRubout "" "ab,| cd" => Changed "| cd"),
    case!(SelfInsert "3" "a|b" => Changed "axxx|b"),
    case!(SelfInsert "-" "a|b" => Changed "a|b"),
    case!(QuotedInsert "3" "a|b" => Changed "ax|b"),
    case!(InsertPaste "" "|" => Changed "x|"),
    case!(Newline "" " a|b" => Changed " a\n |b"),
    case!(Ignore "" "a|" => Same "a|"),
    case!(Ignore "4" "a|" => Changed "a|"),
    case!(EndOfFile "4" "|" => EndOfFile "|"),
    case!(AcceptLine "" "a|" => Accept "a|"),
    case!(Interrupt "" "a|" => Interrupt "a|"),
    case!(MenuComplete "" "a|" => StartComplete "a|"),
    case!(MenuCompleteBackward "" "a|" => Same "a|"),
    case!(Yank "" "a|" => Same "a|"),
    case!(YankPop "" "a|" => Same "a|"),
    case!(Undo "" "a|" => Bell "a|"),
    case!(Redo "" "a|" => Bell "a|"),
    case!(SetMark "" "a|" => Changed "a|"),
    case!(Cancel "" "a|" => Same "a|"),
    case!(CutSelection "" "a|" => Same "a|"),
    case!(CopySelection "" "a|" => Same "a|"),
    case!(PreviousHistory "" "a|" => Same "a|"),
    case!(NextHistory "" "a|" => Same "a|"),
    case!(InsertSuggestion "" "a|" => Same "a|"),
    case!(ExtendNeedle "" "a|" => Same "a|"),
    case!(AbortSearch "2" "a|" => Changed "a|"),
    case!(EndOfFile "" "|" => EndOfFile "|"),
    case!(AcceptLine "3" "|ab" => Accept "|ab"),
    case!(Interrupt "3" "|" => Interrupt "|"),
    case!(SetMark "2" "|ab" => Changed "|ab"),
    case!(BackwardKillWord "" "|ab" => Same "|ab"),
    case!(BackwardKillWord "2" "ab, cd| ef" => Changed "ab| ef"),
    case!(UnixWordRubout "" "|ab" => Same "|ab"),
    case!(UnixWordRubout "9" "ab, cd|" => Changed "|"),
    case!(QuotedInsert "-" "a|b" => Changed "ax|b"),
    case!(InsertPaste "3" "a|b" => Changed "ax|b"),
    case!(Newline "3" "\t|a" => Changed "\t\n\t|a"),
    case!(SelectLeft "" "|ab" => Changed "|ab"),
    case!(SelectLeft "-" "a|b" => Changed "ab|"),
    case!(SelectRight "2" "|abc" => Changed "ab|c"),
    case!(SelectUp "" "a|b" => Changed "a|b"),
    case!(SelectUp "9" "a\nb\nc|" => Changed "a|\nb\nc"),
    case!(SelectDown "2" "a|\n\nbc" => Changed "a\n\nb|c"),
    case!(SelectDown "" "a|" => Changed "a|"),
    case!(DigitArgument "" "a|" => Same "a|"),
    case!(DigitArgument "2" "a|" => Same "a|"),
    case!(NegativeArgument "" "a|" => Changed "a|"),
    case!(NegativeArgument "2" "a|" => Same "a|"),
    case!(BeginningOfHistory "" "a|" => Same "a|"),
    case!(EndOfHistory "" "a|" => Same "a|"),
    case!(SearchForward "" "a|" => Changed "a|"),
    case!(SearchAgainForward "" "a|" => Same "a|"),
    case!(ShortenNeedle "" "a|" => Same "a|"),
    case!(AcceptSearch "" "a|" => Same "a|"),
];

fn assert_case(rt: &impl Abort, alloc: Global, case: &Case) -> Result<(), Fail> {
    let (command, arg, before, done, then) = *case;
    let mut state = state_of(rt, alloc, before)?;
    state.arg = arg_of(alloc, arg)?;
    let key = letter(alloc, 'x')?;
    assert_eq!(rt; run(alloc, command, &key, &mut state)?, done, "{before}");
    assert_text(rt, alloc, &state, then)
}

#[test]
fn commands_by_table(rt: HostRuntime) -> Result<(), Fail> {
    for case in &CASES {
        assert_case(&rt, rt.alloc(), case)?;
    }
    Ok(())
}

const COLUMN: [Step; 5] = [
    (Command::AutoUp, 'x', Done::Changed, "abc\n|\nabcd"),
    (Command::AutoUp, 'x', Done::Changed, "abc|\n\nabcd"),
    (Command::AutoDown, 'x', Done::Changed, "abc\n|\nabcd"),
    (Command::EndOfLine, 'x', Done::Changed, "abc\n|\nabcd"),
    (Command::AutoDown, 'x', Done::Changed, "abc\n\n|abcd"),
];

#[test]
fn rows_keep_a_column(rt: HostRuntime) -> Result<(), Fail> {
    let alloc = rt.alloc();
    let mut state = state_of(&rt, alloc, "abc\n\nabcd|")?;
    assert_steps(&rt, alloc, &mut state, &COLUMN)
}

const PASTES: [Step; 11] = [
    (Command::KillWord, 'x', Done::Changed, "| b c"),
    (Command::Ignore, 'x', Done::Same, "| b c"),
    (Command::KillWord, 'x', Done::Changed, "| c"),
    (Command::SetMark, 'x', Done::Changed, "| c"),
    (Command::Yank, 'x', Done::Changed, " b| c"),
    (Command::YankPop, 'x', Done::Changed, "a| c"),
    (Command::YankPop, 'x', Done::Changed, " b| c"),
    (Command::ForwardChar, 'x', Done::Changed, " b |c"),
    (Command::YankPop, 'x', Done::Same, " b |c"),
    (Command::CutSelection, 'x', Done::Changed, "|c"),
    (Command::Yank, 'x', Done::Changed, " b |c"),
];

#[test]
fn clips_are_pasted(rt: HostRuntime) -> Result<(), Fail> {
    let alloc = rt.alloc();
    let mut state = state_of(&rt, alloc, "|a b c")?;
    assert_steps(&rt, alloc, &mut state, &PASTES)
}

const SEARCH: [Step; 13] = [
    (Command::SearchBackward, 'x', Done::Changed, "ab a|"),
    (Command::ExtendNeedle, 'a', Done::Changed, "ab |a"),
    (Command::KillLine, 'x', Done::Same, "ab |a"),
    (Command::ExtendNeedle, 'b', Done::Changed, "|ab a"),
    (Command::ExtendNeedle, 'z', Done::Bell, "|ab a"),
    (Command::ShortenNeedle, 'x', Done::Changed, "|ab a"),
    (Command::SearchAgainBackward, 'x', Done::Bell, "|ab a"),
    (Command::ShortenNeedle, 'x', Done::Changed, "ab |a"),
    (Command::SearchAgainBackward, 'x', Done::Changed, "|ab a"),
    (Command::SearchAgainForward, 'x', Done::Changed, "ab |a"),
    (Command::SearchAgainForward, 'x', Done::Bell, "ab |a"),
    (Command::AbortSearch, 'x', Done::Changed, "ab a|"),
    (Command::AbortSearch, 'x', Done::Same, "ab a|"),
];

#[test]
fn searches_find_and_return(rt: HostRuntime) -> Result<(), Fail> {
    let alloc = rt.alloc();
    let mut state = state_of(&rt, alloc, "ab a|")?;
    assert_steps(&rt, alloc, &mut state, &SEARCH)
}
