//! The table of vi's keys.
ghost use Rattle.std.specs.Prelude.{◌≡◌, IfOk};
ghost use Rattle.vi_keys.specs.ViTable.{vi_table};

use crate::commands::{FIRST_NUMBER, ViCommand};
use edit_state::{Command, NoMemory};
use key_names::Key;
use key_proc::{BindingRow, Bindings, Fact, FactFilter, FactTest, RowKeys, Save, bindings_of};
use std::alloc::Global;

/// The number of rows of the table of vi's keys, each key alternative counted.
pub const VI: usize = 131;

/// Returns the bindings of vi's keys, and then those of an incremental search.
pub fn vi_bindings(alloc: Global) -> Result<Bindings<VI>, NoMemory>
    ensures { IfOk result (λ table. table ≡ vi_table) }
{
    bindings_of(alloc, &ROWS)
}

/// As characters are inserted.
const INSERT: FactFilter = FactFilter::All(&[
    FactTest::Not(Fact::Searching),
    FactTest::Is(Fact::Insert),
]);

const INSERT_TEXT: FactFilter = FactFilter::All(&[
    FactTest::Not(Fact::Searching),
    FactTest::Is(Fact::Insert),
    FactTest::Not(Fact::Empty),
]);

const INSERT_EMPTY: FactFilter = FactFilter::All(&[
    FactTest::Not(Fact::Searching),
    FactTest::Is(Fact::Insert),
    FactTest::Is(Fact::Empty),
]);

const INSERT_UNSELECTED: FactFilter = FactFilter::All(&[
    FactTest::Not(Fact::Searching),
    FactTest::Is(Fact::Insert),
    FactTest::Not(Fact::Selection),
]);

const INSERT_ONE_LINE: FactFilter = FactFilter::All(&[
    FactTest::Not(Fact::Searching),
    FactTest::Is(Fact::Insert),
    FactTest::Not(Fact::Multiline),
]);

const INSERT_MULTILINE: FactFilter = FactFilter::All(&[
    FactTest::Not(Fact::Searching),
    FactTest::Is(Fact::Insert),
    FactTest::Is(Fact::Multiline),
]);

const INSERT_SUGGESTED: FactFilter = FactFilter::All(&[
    FactTest::Not(Fact::Searching),
    FactTest::Is(Fact::Insert),
    FactTest::Is(Fact::Suggestion),
]);

/// As characters are replaced.
const REPLACE: FactFilter = FactFilter::All(&[
    FactTest::Not(Fact::Searching),
    FactTest::Is(Fact::Replace),
]);

const REPLACE_ONE_LINE: FactFilter = FactFilter::All(&[
    FactTest::Not(Fact::Searching),
    FactTest::Is(Fact::Replace),
    FactTest::Not(Fact::Multiline),
]);

const REPLACE_MULTILINE: FactFilter = FactFilter::All(&[
    FactTest::Not(Fact::Searching),
    FactTest::Is(Fact::Replace),
    FactTest::Is(Fact::Multiline),
]);

/// In Navigation, where no operator waits and nothing is selected.
const PLAIN: FactFilter = FactFilter::All(&[
    FactTest::Not(Fact::Searching),
    FactTest::Is(Fact::Navigation),
    FactTest::Not(Fact::Operator),
    FactTest::Not(Fact::Selection),
]);

/// In Navigation.
const MOTION: FactFilter = FactFilter::All(&[
    FactTest::Not(Fact::Searching),
    FactTest::Is(Fact::Navigation),
]);

const UNCOUNTED: FactFilter = FactFilter::All(&[
    FactTest::Not(Fact::Searching),
    FactTest::Is(Fact::Navigation),
    FactTest::Not(Fact::Argument),
]);

const COUNTED: FactFilter = FactFilter::All(&[
    FactTest::Not(Fact::Searching),
    FactTest::Is(Fact::Navigation),
    FactTest::Is(Fact::Argument),
]);

/// As an operator waits.
const WAITING: FactFilter = FactFilter::All(&[
    FactTest::Not(Fact::Searching),
    FactTest::Is(Fact::Operator),
]);

/// As something is selected in Navigation.
const SELECTED: FactFilter = FactFilter::All(&[
    FactTest::Not(Fact::Searching),
    FactTest::Is(Fact::Navigation),
    FactTest::Is(Fact::Selection),
]);

/// As an operator waits, or something is selected in Navigation.
const WAITING_OR_SELECTED: FactFilter = FactFilter::Either(
    &[FactTest::Not(Fact::Searching), FactTest::Is(Fact::Operator)],
    &[
        FactTest::Not(Fact::Searching),
        FactTest::Is(Fact::Navigation),
        FactTest::Is(Fact::Selection),
    ],
);

const SEARCHING: FactFilter = FactFilter::All(&[FactTest::Is(Fact::Searching)]);

/// A row of a command of vi's own.
macro_rules! row {
    ($only:ident, $save:ident, $command:ident, $key:expr) => {
        BindingRow::Plain(RowKeys::One($key), $only, Save::$save, FIRST_NUMBER + ViCommand::$command as u32)
    };
    ($only:ident, $save:ident, $command:ident, $first:expr, $second:expr) => {
        BindingRow::Plain(
            RowKeys::Two($first, $second),
            $only,
            Save::$save,
            FIRST_NUMBER + ViCommand::$command as u32,
        )
    };
}

/// A row of a command that other ways to read keys have too.
macro_rules! shared {
    ($only:ident, $save:ident, $command:ident, $key:expr) => {
        BindingRow::Plain(RowKeys::One($key), $only, Save::$save, Command::$command as u32)
    };
}

static ROWS: [BindingRow; VI] = [
    shared!(INSERT, UnlessRepeat, SelfInsert, Key::Any),
    shared!(INSERT, Always, BeginningOfLine, Key::Home),
    shared!(INSERT, Always, EndOfLine, Key::End),
    shared!(INSERT, Always, BackwardChar, Key::Left),
    shared!(INSERT, Always, ForwardChar, Key::Right),
    shared!(INSERT, Always, AutoUp, Key::Up),
    shared!(INSERT, Always, AutoDown, Key::Down),
    shared!(INSERT, UnlessRepeat, BackwardDeleteChar, Key::Control('h')),
    shared!(INSERT, UnlessRepeat, DeleteChar, Key::Delete),
    shared!(INSERT_TEXT, UnlessRepeat, DeleteChar, Key::Control('d')),
    shared!(INSERT_EMPTY, Never, EndOfFile, Key::Control('d')),
    shared!(INSERT, Always, KillLine, Key::Control('k')),
    shared!(INSERT, Always, UnixLineDiscard, Key::Control('u')),
    shared!(INSERT_UNSELECTED, Always, UnixWordRubout, Key::Control('w')),
    shared!(INSERT, Always, Yank, Key::Control('y')),
    shared!(INSERT, Always, InsertPaste, Key::Paste),
    shared!(INSERT, Always, MenuComplete, Key::Control('i')),
    shared!(INSERT, Always, MenuCompleteBackward, Key::BackTab),
    shared!(INSERT_ONE_LINE, Never, AcceptLine, Key::Control('m')),
    shared!(INSERT_ONE_LINE, Never, AcceptLine, Key::Control('j')),
    shared!(INSERT_MULTILINE, Always, Newline, Key::Control('m')),
    shared!(INSERT_MULTILINE, Always, Newline, Key::Control('j')),
    shared!(INSERT, Always, SearchBackward, Key::Control('r')),
    shared!(INSERT, Always, SearchForward, Key::Control('s')),
    shared!(INSERT_SUGGESTED, Always, InsertSuggestion, Key::Right),
    shared!(
        INSERT_SUGGESTED,
        Always,
        InsertSuggestion,
        Key::Control('e')
    ),
    shared!(
        INSERT_SUGGESTED,
        Always,
        InsertSuggestion,
        Key::Control('f')
    ),
    shared!(INSERT, Never, Interrupt, Key::Control('c')),
    row!(INSERT, Always, EnterNavigation, Key::Escape),
    row!(REPLACE, UnlessRepeat, OverwriteChar, Key::Any),
    row!(REPLACE, Always, OverwriteBack, Key::Control('h')),
    shared!(REPLACE_ONE_LINE, Never, AcceptLine, Key::Control('m')),
    shared!(REPLACE_ONE_LINE, Never, AcceptLine, Key::Control('j')),
    shared!(REPLACE_MULTILINE, Always, Newline, Key::Control('m')),
    shared!(REPLACE_MULTILINE, Always, Newline, Key::Control('j')),
    shared!(REPLACE, Never, Interrupt, Key::Control('c')),
    row!(REPLACE, Always, EnterNavigation, Key::Escape),
    row!(PLAIN, Never, Ignore, Key::Escape),
    row!(PLAIN, Never, Ignore, Key::Any),
    row!(MOTION, Always, MoveLeft, Key::Char('h')),
    row!(MOTION, Always, MoveLeft, Key::Left),
    row!(MOTION, Always, MoveLeft, Key::Control('h')),
    row!(MOTION, Always, MoveRight, Key::Char('l')),
    row!(MOTION, Always, MoveRight, Key::Right),
    row!(MOTION, Always, MoveRight, Key::Char(' ')),
    row!(MOTION, Always, MoveDown, Key::Char('j')),
    row!(MOTION, Always, MoveDown, Key::Down),
    row!(MOTION, Always, MoveDown, Key::Control('n')),
    row!(MOTION, Always, MoveUp, Key::Char('k')),
    row!(MOTION, Always, MoveUp, Key::Up),
    row!(MOTION, Always, MoveUp, Key::Control('p')),
    row!(UNCOUNTED, Always, MoveToRowStart, Key::Char('0')),
    row!(MOTION, Always, MoveToRowStart, Key::Home),
    row!(MOTION, Always, MoveToRowText, Key::Char('^')),
    row!(MOTION, Always, MoveToRowEnd, Key::Char('$')),
    row!(MOTION, Always, MoveToRowEnd, Key::End),
    row!(MOTION, Always, MoveToWord, Key::Char('w')),
    row!(MOTION, Always, MoveToBigWord, Key::Char('W')),
    row!(MOTION, Always, MoveBackWord, Key::Char('b')),
    row!(MOTION, Always, MoveBackBigWord, Key::Char('B')),
    row!(MOTION, Always, MoveToWordEnd, Key::Char('e')),
    row!(MOTION, Always, MoveToBigWordEnd, Key::Char('E')),
    row!(
        MOTION,
        Always,
        MoveToFirstRow,
        Key::Char('g'),
        Key::Char('g')
    ),
    row!(MOTION, Always, MoveToLastRow, Key::Char('G')),
    row!(MOTION, Always, FindAhead, Key::Char('f'), Key::Any),
    row!(MOTION, Always, FindBack, Key::Char('F'), Key::Any),
    row!(MOTION, Always, TillAhead, Key::Char('t'), Key::Any),
    row!(MOTION, Always, TillBack, Key::Char('T'), Key::Any),
    row!(MOTION, Always, FindAgain, Key::Char(';')),
    row!(MOTION, Always, FindTurned, Key::Char(',')),
    row!(MOTION, Always, MoveToBracket, Key::Char('%')),
    row!(MOTION, Never, Interrupt, Key::Control('c')),
    row!(PLAIN, Never, AcceptLine, Key::Control('m')),
    row!(PLAIN, Never, AcceptLine, Key::Control('j')),
    row!(MOTION, Never, DigitArgument, Key::Char('1')),
    row!(MOTION, Never, DigitArgument, Key::Char('2')),
    row!(MOTION, Never, DigitArgument, Key::Char('3')),
    row!(MOTION, Never, DigitArgument, Key::Char('4')),
    row!(MOTION, Never, DigitArgument, Key::Char('5')),
    row!(MOTION, Never, DigitArgument, Key::Char('6')),
    row!(MOTION, Never, DigitArgument, Key::Char('7')),
    row!(MOTION, Never, DigitArgument, Key::Char('8')),
    row!(MOTION, Never, DigitArgument, Key::Char('9')),
    row!(COUNTED, Never, DigitArgument, Key::Char('0')),
    row!(SELECTED, Always, DeleteSelection, Key::Char('d')),
    row!(SELECTED, Always, DeleteSelection, Key::Char('x')),
    row!(SELECTED, Always, ChangeSelection, Key::Char('c')),
    row!(SELECTED, Always, ChangeSelection, Key::Char('s')),
    row!(SELECTED, Always, YankSelection, Key::Char('y')),
    row!(PLAIN, Always, SelectChars, Key::Char('v')),
    row!(PLAIN, Always, SelectRows, Key::Char('V')),
    row!(PLAIN, Never, Undo, Key::Char('u')),
    row!(PLAIN, Never, Redo, Key::Control('r')),
    row!(PLAIN, Always, EnterReplace, Key::Char('R')),
    row!(PLAIN, Always, OpenBelow, Key::Char('o')),
    row!(PLAIN, Always, OpenAbove, Key::Char('O')),
    row!(PLAIN, Always, InsertHere, Key::Char('i')),
    row!(PLAIN, Always, InsertAtText, Key::Char('I')),
    row!(PLAIN, Always, InsertBehind, Key::Char('a')),
    row!(PLAIN, Always, InsertAtEnd, Key::Char('A')),
    row!(PLAIN, Always, PutBefore, Key::Char('P')),
    row!(PLAIN, Always, PutBehind, Key::Char('p')),
    row!(PLAIN, Always, JoinRows, Key::Char('J')),
    row!(PLAIN, Always, SwapCase, Key::Char('~')),
    row!(PLAIN, Always, ReplaceChars, Key::Char('r'), Key::Any),
    row!(PLAIN, Always, ChangeAhead, Key::Char('s')),
    row!(PLAIN, Always, ChangeWholeRows, Key::Char('S')),
    row!(PLAIN, Always, YankWholeRows, Key::Char('Y')),
    row!(PLAIN, Always, CutRest, Key::Char('D')),
    row!(PLAIN, Always, ChangeRest, Key::Char('C')),
    row!(PLAIN, Always, CutAhead, Key::Char('x')),
    row!(PLAIN, Always, CutBack, Key::Char('X')),
    row!(WAITING_OR_SELECTED, Never, Leave, Key::Escape),
    row!(WAITING, Never, EndOperator, Key::Any),
    row!(WAITING, Always, InnerWord, Key::Char('i'), Key::Char('w')),
    row!(WAITING, Always, AroundWord, Key::Char('a'), Key::Char('w')),
    row!(PLAIN, Always, DeleteOperator, Key::Char('d')),
    row!(WAITING, Always, DeleteRows, Key::Char('d')),
    row!(PLAIN, Always, ChangeOperator, Key::Char('c')),
    row!(WAITING, Always, ChangeRows, Key::Char('c')),
    row!(PLAIN, Always, YankOperator, Key::Char('y')),
    row!(WAITING, Always, YankRows, Key::Char('y')),
    shared!(SEARCHING, Never, ExtendNeedle, Key::Any),
    shared!(SEARCHING, Never, ShortenNeedle, Key::Control('h')),
    shared!(SEARCHING, Never, SearchAgainBackward, Key::Control('r')),
    shared!(SEARCHING, Never, SearchAgainForward, Key::Control('s')),
    shared!(SEARCHING, Never, AcceptSearch, Key::Control('m')),
    shared!(SEARCHING, Never, AcceptSearch, Key::Control('j')),
    shared!(SEARCHING, Never, AcceptSearch, Key::Escape),
    shared!(SEARCHING, Never, AbortSearch, Key::Control('g')),
    shared!(SEARCHING, Never, AbortSearch, Key::Control('c')),
];
