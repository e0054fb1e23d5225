//! The commands that vi's keys are bound to, and their numbers.
ghost use Rattle.std.specs.Prelude.{◌≡◌, slice_get};
ghost use Rattle.vi_keys.specs.ViNumbers.{number_of, command_of};

/// The number of the first command. Those below it are of other ways to read keys.
pub const FIRST_NUMBER: u32 = 1_000;

/// What a key does as vi reads keys.
#[derive(Clone, Copy, Debug, PartialEq, Eq)]
pub enum ViCommand {
    /// Leaves insertion or replacing, one character back.
    EnterNavigation,
    /// Puts the typed character in place of the one at the cursor.
    OverwriteChar,
    /// Goes a character back as characters are replaced.
    OverwriteBack,
    /// Does nothing.
    Ignore,
    MoveLeft,
    MoveRight,
    MoveDown,
    MoveUp,
    MoveToRowStart,
    /// Goes to the row's first character that is not white space.
    MoveToRowText,
    MoveToRowEnd,
    MoveToWord,
    MoveToBigWord,
    MoveBackWord,
    MoveBackBigWord,
    MoveToWordEnd,
    MoveToBigWordEnd,
    /// Goes to the row that the argument names, or to the first one.
    MoveToFirstRow,
    /// Goes to the row that the argument names, or to the last one.
    MoveToLastRow,
    FindAhead,
    FindBack,
    TillAhead,
    TillBack,
    FindAgain,
    /// Finds the last one in the other direction.
    FindTurned,
    MoveToBracket,
    /// Waits for what is to be deleted.
    DeleteOperator,
    ChangeOperator,
    YankOperator,
    /// Deletes whole rows where this operator waits.
    DeleteRows,
    ChangeRows,
    YankRows,
    InnerWord,
    AroundWord,
    /// Ends the operator that waits, with a bell.
    EndOperator,
    /// Ends the operator and the selection.
    Leave,
    CutAhead,
    CutBack,
    CutRest,
    ChangeRest,
    ChangeAhead,
    ChangeWholeRows,
    YankWholeRows,
    ReplaceChars,
    SwapCase,
    JoinRows,
    PutBehind,
    PutBefore,
    InsertHere,
    InsertAtText,
    InsertBehind,
    InsertAtEnd,
    OpenBelow,
    OpenAbove,
    EnterReplace,
    Undo,
    Redo,
    SelectChars,
    SelectRows,
    DeleteSelection,
    ChangeSelection,
    YankSelection,
    DigitArgument,
    AcceptLine,
    Interrupt,
}

const COMMANDS: [ViCommand; 65] = [
    ViCommand::EnterNavigation,
    ViCommand::OverwriteChar,
    ViCommand::OverwriteBack,
    ViCommand::Ignore,
    ViCommand::MoveLeft,
    ViCommand::MoveRight,
    ViCommand::MoveDown,
    ViCommand::MoveUp,
    ViCommand::MoveToRowStart,
    ViCommand::MoveToRowText,
    ViCommand::MoveToRowEnd,
    ViCommand::MoveToWord,
    ViCommand::MoveToBigWord,
    ViCommand::MoveBackWord,
    ViCommand::MoveBackBigWord,
    ViCommand::MoveToWordEnd,
    ViCommand::MoveToBigWordEnd,
    ViCommand::MoveToFirstRow,
    ViCommand::MoveToLastRow,
    ViCommand::FindAhead,
    ViCommand::FindBack,
    ViCommand::TillAhead,
    ViCommand::TillBack,
    ViCommand::FindAgain,
    ViCommand::FindTurned,
    ViCommand::MoveToBracket,
    ViCommand::DeleteOperator,
    ViCommand::ChangeOperator,
    ViCommand::YankOperator,
    ViCommand::DeleteRows,
    ViCommand::ChangeRows,
    ViCommand::YankRows,
    ViCommand::InnerWord,
    ViCommand::AroundWord,
    ViCommand::EndOperator,
    ViCommand::Leave,
    ViCommand::CutAhead,
    ViCommand::CutBack,
    ViCommand::CutRest,
    ViCommand::ChangeRest,
    ViCommand::ChangeAhead,
    ViCommand::ChangeWholeRows,
    ViCommand::YankWholeRows,
    ViCommand::ReplaceChars,
    ViCommand::SwapCase,
    ViCommand::JoinRows,
    ViCommand::PutBehind,
    ViCommand::PutBefore,
    ViCommand::InsertHere,
    ViCommand::InsertAtText,
    ViCommand::InsertBehind,
    ViCommand::InsertAtEnd,
    ViCommand::OpenBelow,
    ViCommand::OpenAbove,
    ViCommand::EnterReplace,
    ViCommand::Undo,
    ViCommand::Redo,
    ViCommand::SelectChars,
    ViCommand::SelectRows,
    ViCommand::DeleteSelection,
    ViCommand::ChangeSelection,
    ViCommand::YankSelection,
    ViCommand::DigitArgument,
    ViCommand::AcceptLine,
    ViCommand::Interrupt,
];

impl ViCommand {
    /// Returns the number of the command, which is `FIRST_NUMBER` or greater.
    pub fn number(self) -> u32
        ensures { result ≡ number_of self }
    {
        FIRST_NUMBER + self as u32
    }

    /// Returns the command with this number.
    pub fn from_number(number: u32) -> Option<ViCommand>
        ensures { result ≡ command_of number }
    {
        if number < FIRST_NUMBER {
            return None;
        }
        item_at(&COMMANDS, (number - FIRST_NUMBER) as usize)
    }
}

fn item_at(commands: &[ViCommand], place: usize) -> Option<ViCommand>
    ensures { result ≡ slice_get commands.now place }
{
    commands.get(place).copied()
}
