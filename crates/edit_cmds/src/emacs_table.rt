//! The table of Emacs keys.
ghost use Rattle.std.specs.Prelude.{◌≡◌, IfOk};
ghost use Rattle.edit_cmds.specs.EmacsTable.{emacs_table};

use edit_state::{Command, NoMemory};
use key_names::Key;
use key_proc::{BindingRow, Bindings, Fact, FactFilter, FactTest, RowKeys, Save, bindings_of};
use std::alloc::Global;

/// The number of rows of the table of Emacs keys, each key alternative counted.
pub const EMACS: usize = 95;

/// Returns the bindings of Emacs keys, and then those of an incremental search.
pub fn emacs_bindings(alloc: Global) -> Result<Bindings<EMACS>, NoMemory>
    ensures { IfOk result (λ table. table ≡ emacs_table) }
{
    bindings_of(alloc, &ROWS)
}

const ALWAYS: FactFilter = FactFilter::All(&[FactTest::Not(Fact::Searching)]);

const WITH_TEXT: FactFilter = FactFilter::All(&[
    FactTest::Not(Fact::Searching),
    FactTest::Not(Fact::Empty),
]);

const EMPTY: FactFilter = FactFilter::All(&[
    FactTest::Not(Fact::Searching),
    FactTest::Is(Fact::Empty),
]);

const UNSELECTED: FactFilter = FactFilter::All(&[
    FactTest::Not(Fact::Searching),
    FactTest::Not(Fact::Selection),
]);

const SELECTED: FactFilter = FactFilter::All(&[
    FactTest::Not(Fact::Searching),
    FactTest::Is(Fact::Selection),
]);

const COUNTED: FactFilter = FactFilter::All(&[
    FactTest::Not(Fact::Searching),
    FactTest::Is(Fact::Argument),
]);

const ONE_LINE: FactFilter = FactFilter::All(&[
    FactTest::Not(Fact::Searching),
    FactTest::Not(Fact::Multiline),
]);

const MULTILINE: FactFilter = FactFilter::All(&[
    FactTest::Not(Fact::Searching),
    FactTest::Is(Fact::Multiline),
]);

const SUGGESTED: FactFilter = FactFilter::All(&[
    FactTest::Not(Fact::Searching),
    FactTest::Is(Fact::Suggestion),
]);

const SEARCHING: FactFilter = FactFilter::All(&[FactTest::Is(Fact::Searching)]);

macro_rules! row {
    ($only:ident, $save:ident, $command:ident, $key:expr) => {
        BindingRow::Plain(RowKeys::One($key), $only, Save::$save, Command::$command as u32)
    };
    ($only:ident, $save:ident, $command:ident, $first:expr, $second:expr) => {
        BindingRow::Plain(RowKeys::Two($first, $second), $only, Save::$save, Command::$command as u32)
    };
}

static ROWS: [BindingRow; EMACS] = [
    row!(ALWAYS, UnlessRepeat, SelfInsert, Key::Any),
    row!(ALWAYS, Never, Ignore, Key::Escape),
    row!(ALWAYS, Always, BeginningOfLine, Key::Control('a')),
    row!(ALWAYS, Always, BeginningOfLine, Key::Home),
    row!(ALWAYS, Always, EndOfLine, Key::Control('e')),
    row!(ALWAYS, Always, EndOfLine, Key::End),
    row!(ALWAYS, Always, BackwardChar, Key::Control('b')),
    row!(ALWAYS, Always, BackwardChar, Key::Left),
    row!(ALWAYS, Always, ForwardChar, Key::Control('f')),
    row!(ALWAYS, Always, ForwardChar, Key::Right),
    row!(ALWAYS, Always, BackwardWord, Key::Escape, Key::Char('b')),
    row!(ALWAYS, Always, BackwardWord, Key::ControlLeft),
    row!(ALWAYS, Always, ForwardWord, Key::Escape, Key::Char('f')),
    row!(ALWAYS, Always, ForwardWord, Key::ControlRight),
    row!(ALWAYS, Always, AutoUp, Key::Up),
    row!(ALWAYS, Always, AutoUp, Key::Control('p')),
    row!(ALWAYS, Always, AutoDown, Key::Down),
    row!(ALWAYS, Always, AutoDown, Key::Control('n')),
    row!(ALWAYS, Always, PreviousHistory, Key::PageUp),
    row!(ALWAYS, Always, NextHistory, Key::PageDown),
    row!(
        ALWAYS,
        Always,
        BeginningOfHistory,
        Key::Escape,
        Key::Char('<')
    ),
    row!(ALWAYS, Always, EndOfHistory, Key::Escape, Key::Char('>')),
    row!(ALWAYS, Always, SelectLeft, Key::ShiftLeft),
    row!(ALWAYS, Always, SelectRight, Key::ShiftRight),
    row!(ALWAYS, Always, SelectUp, Key::ShiftUp),
    row!(ALWAYS, Always, SelectDown, Key::ShiftDown),
    row!(ALWAYS, UnlessRepeat, BackwardDeleteChar, Key::Control('h')),
    row!(ALWAYS, UnlessRepeat, DeleteChar, Key::Delete),
    row!(WITH_TEXT, UnlessRepeat, DeleteChar, Key::Control('d')),
    row!(EMPTY, Never, EndOfFile, Key::Control('d')),
    row!(ALWAYS, Always, TransposeChars, Key::Control('t')),
    row!(ALWAYS, Always, UppercaseWord, Key::Escape, Key::Char('u')),
    row!(ALWAYS, Always, DowncaseWord, Key::Escape, Key::Char('l')),
    row!(ALWAYS, Always, CapitalizeWord, Key::Escape, Key::Char('c')),
    row!(ALWAYS, Always, KillLine, Key::Control('k')),
    row!(ALWAYS, Always, UnixLineDiscard, Key::Control('u')),
    row!(ALWAYS, Always, KillWord, Key::Escape, Key::Char('d')),
    row!(
        ALWAYS,
        Always,
        BackwardKillWord,
        Key::Escape,
        Key::Control('h')
    ),
    row!(UNSELECTED, Always, UnixWordRubout, Key::Control('w')),
    row!(SELECTED, Always, CutSelection, Key::Control('w')),
    row!(SELECTED, Always, CopySelection, Key::Escape, Key::Char('w')),
    row!(
        ALWAYS,
        Always,
        DeleteHorizontalSpace,
        Key::Escape,
        Key::Char('\\')
    ),
    row!(ALWAYS, Always, Yank, Key::Control('y')),
    row!(ALWAYS, Always, YankPop, Key::Escape, Key::Char('y')),
    row!(ALWAYS, Never, Undo, Key::Control('_')),
    row!(ALWAYS, Never, Undo, Key::Control('x'), Key::Control('u')),
    row!(ALWAYS, Never, Redo, Key::Control('x'), Key::Control('r')),
    row!(ALWAYS, Always, SetMark, Key::Control('@')),
    row!(ALWAYS, Never, Cancel, Key::Control('g')),
    row!(ALWAYS, Always, QuotedInsert, Key::Control('q'), Key::Any),
    row!(ALWAYS, Never, DigitArgument, Key::Escape, Key::Char('0')),
    row!(ALWAYS, Never, DigitArgument, Key::Escape, Key::Char('1')),
    row!(ALWAYS, Never, DigitArgument, Key::Escape, Key::Char('2')),
    row!(ALWAYS, Never, DigitArgument, Key::Escape, Key::Char('3')),
    row!(ALWAYS, Never, DigitArgument, Key::Escape, Key::Char('4')),
    row!(ALWAYS, Never, DigitArgument, Key::Escape, Key::Char('5')),
    row!(ALWAYS, Never, DigitArgument, Key::Escape, Key::Char('6')),
    row!(ALWAYS, Never, DigitArgument, Key::Escape, Key::Char('7')),
    row!(ALWAYS, Never, DigitArgument, Key::Escape, Key::Char('8')),
    row!(ALWAYS, Never, DigitArgument, Key::Escape, Key::Char('9')),
    row!(ALWAYS, Never, NegativeArgument, Key::Escape, Key::Char('-')),
    row!(COUNTED, Never, DigitArgument, Key::Char('0')),
    row!(COUNTED, Never, DigitArgument, Key::Char('1')),
    row!(COUNTED, Never, DigitArgument, Key::Char('2')),
    row!(COUNTED, Never, DigitArgument, Key::Char('3')),
    row!(COUNTED, Never, DigitArgument, Key::Char('4')),
    row!(COUNTED, Never, DigitArgument, Key::Char('5')),
    row!(COUNTED, Never, DigitArgument, Key::Char('6')),
    row!(COUNTED, Never, DigitArgument, Key::Char('7')),
    row!(COUNTED, Never, DigitArgument, Key::Char('8')),
    row!(COUNTED, Never, DigitArgument, Key::Char('9')),
    row!(ALWAYS, Always, InsertPaste, Key::Paste),
    row!(ALWAYS, Always, MenuComplete, Key::Control('i')),
    row!(ALWAYS, Always, MenuCompleteBackward, Key::BackTab),
    row!(ONE_LINE, Never, AcceptLine, Key::Control('m')),
    row!(ONE_LINE, Never, AcceptLine, Key::Control('j')),
    row!(MULTILINE, Always, Newline, Key::Control('m')),
    row!(MULTILINE, Always, Newline, Key::Control('j')),
    row!(ALWAYS, Never, AcceptLine, Key::Escape, Key::Control('m')),
    row!(ALWAYS, Never, AcceptLine, Key::Escape, Key::Control('j')),
    row!(ALWAYS, Always, SearchBackward, Key::Control('r')),
    row!(ALWAYS, Always, SearchForward, Key::Control('s')),
    row!(SUGGESTED, Always, InsertSuggestion, Key::Right),
    row!(SUGGESTED, Always, InsertSuggestion, Key::Control('e')),
    row!(SUGGESTED, Always, InsertSuggestion, Key::Control('f')),
    row!(ALWAYS, Never, Interrupt, Key::Control('c')),
    row!(SEARCHING, Never, ExtendNeedle, Key::Any),
    row!(SEARCHING, Never, ShortenNeedle, Key::Control('h')),
    row!(SEARCHING, Never, SearchAgainBackward, Key::Control('r')),
    row!(SEARCHING, Never, SearchAgainForward, Key::Control('s')),
    row!(SEARCHING, Never, AcceptSearch, Key::Control('m')),
    row!(SEARCHING, Never, AcceptSearch, Key::Control('j')),
    row!(SEARCHING, Never, AcceptSearch, Key::Escape),
    row!(SEARCHING, Never, AbortSearch, Key::Control('g')),
    row!(SEARCHING, Never, AbortSearch, Key::Control('c')),
];
