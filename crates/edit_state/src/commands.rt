//! The commands that keys are bound to, and their numbers.
ghost use Rattle.std.specs.Prelude.{◌≡◌, slice_get};
ghost use Rattle.edit_state.specs.CommandNumbers.{number_of, command_of};

/// What a key does as Emacs reads keys, and in an incremental search.
#[derive(Clone, Copy, Debug, PartialEq, Eq)]
pub enum Command {
    /// Inserts the typed character.
    SelfInsert,
    /// Does nothing.
    Ignore,
    /// Goes to the start of the row.
    BeginningOfLine,
    /// Goes to the end of the row.
    EndOfLine,
    BackwardChar,
    ForwardChar,
    BackwardWord,
    ForwardWord,
    /// Chooses in the menu, or goes a row up, or a line of the history back.
    AutoUp,
    /// Chooses in the menu, or goes a row down, or a line of the history forward.
    AutoDown,
    PreviousHistory,
    NextHistory,
    BeginningOfHistory,
    EndOfHistory,
    SelectLeft,
    SelectRight,
    SelectUp,
    SelectDown,
    BackwardDeleteChar,
    DeleteChar,
    EndOfFile,
    TransposeChars,
    UppercaseWord,
    DowncaseWord,
    CapitalizeWord,
    KillLine,
    UnixLineDiscard,
    KillWord,
    BackwardKillWord,
    UnixWordRubout,
    CutSelection,
    CopySelection,
    DeleteHorizontalSpace,
    Yank,
    YankPop,
    Undo,
    Redo,
    SetMark,
    /// Cancels the menu, or takes the mark away.
    Cancel,
    QuotedInsert,
    DigitArgument,
    NegativeArgument,
    InsertPaste,
    MenuComplete,
    MenuCompleteBackward,
    AcceptLine,
    Newline,
    SearchBackward,
    SearchForward,
    InsertSuggestion,
    Interrupt,
    /// Adds the typed character to what is searched for.
    ExtendNeedle,
    ShortenNeedle,
    SearchAgainBackward,
    SearchAgainForward,
    /// Ends the search where it stands.
    AcceptSearch,
    /// Ends the search where it started.
    AbortSearch,
}

const COMMANDS: [Command; 57] = [
    Command::SelfInsert,
    Command::Ignore,
    Command::BeginningOfLine,
    Command::EndOfLine,
    Command::BackwardChar,
    Command::ForwardChar,
    Command::BackwardWord,
    Command::ForwardWord,
    Command::AutoUp,
    Command::AutoDown,
    Command::PreviousHistory,
    Command::NextHistory,
    Command::BeginningOfHistory,
    Command::EndOfHistory,
    Command::SelectLeft,
    Command::SelectRight,
    Command::SelectUp,
    Command::SelectDown,
    Command::BackwardDeleteChar,
    Command::DeleteChar,
    Command::EndOfFile,
    Command::TransposeChars,
    Command::UppercaseWord,
    Command::DowncaseWord,
    Command::CapitalizeWord,
    Command::KillLine,
    Command::UnixLineDiscard,
    Command::KillWord,
    Command::BackwardKillWord,
    Command::UnixWordRubout,
    Command::CutSelection,
    Command::CopySelection,
    Command::DeleteHorizontalSpace,
    Command::Yank,
    Command::YankPop,
    Command::Undo,
    Command::Redo,
    Command::SetMark,
    Command::Cancel,
    Command::QuotedInsert,
    Command::DigitArgument,
    Command::NegativeArgument,
    Command::InsertPaste,
    Command::MenuComplete,
    Command::MenuCompleteBackward,
    Command::AcceptLine,
    Command::Newline,
    Command::SearchBackward,
    Command::SearchForward,
    Command::InsertSuggestion,
    Command::Interrupt,
    Command::ExtendNeedle,
    Command::ShortenNeedle,
    Command::SearchAgainBackward,
    Command::SearchAgainForward,
    Command::AcceptSearch,
    Command::AbortSearch,
];

impl Command {
    /// Returns the number of the command, which is below 1,000.
    pub fn number(self) -> u32
        ensures { result ≡ number_of self }
    {
        self as u32
    }

    /// Returns the command with this number.
    pub fn from_number(number: u32) -> Option<Command>
        ensures { result ≡ command_of number }
    {
        item_at(&COMMANDS, number as usize)
    }
}

fn item_at(commands: &[Command], place: usize) -> Option<Command>
    ensures { result ≡ slice_get commands.now place }
{
    commands.get(place).copied()
}
