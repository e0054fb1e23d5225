//! What each command does: motions, operators with what they work on, and the others.
ghost use Rattle.std.specs.Prelude.{◌≡◌};
ghost use Rattle.vi_keys.specs.Deeds.{deed_of, motion_of, operation_of, other_of};
ghost use Rattle.vi_keys.specs.declared.motions.Motion.TheVariants.{Character};

use crate::commands::ViCommand;
use crate::motions::Motion;
use edit_state::{Done, Operator, ViMode};

/// What a command does.
#[derive(Clone, Copy, Debug, PartialEq, Eq)]
pub enum Deed {
    Move(Motion),
    /// The operator waits for a motion.
    Await(Operator),
    /// The key of the operator comes while one waits.
    Again(Operator),
    /// The operator works on the selection.
    OnSelection(Operator),
    /// The operator works on what a motion takes.
    OnMotion(Operator, Motion),
    /// The operator works on rows.
    OnRows(Operator),
    /// The operator that waits works on a word, or a word and the white space behind it.
    OnWord(bool),
    /// Characters are inserted where a motion goes.
    InsertAt(Motion),
    /// Keys are read in another mode.
    Enter(ViMode),
    /// A character back, and to Navigation.
    EnterNavigation,
    /// A character back.
    OverwriteBack,
    Overwrite,
    Replace,
    SwapCase,
    Join,
    /// The first clip behind the cursor, or before it.
    Put(bool),
    /// A new row below the cursor's, or above it.
    Open(bool),
    /// A selection of rows, or of characters.
    Select(bool),
    Undo,
    Redo,
    Digit,
    /// The operator and the selection end.
    Leave,
    /// The operator ends, with a bell.
    EndOperator,
    /// Nothing but the answer.
    Answer(Done),
}

/// Returns what a command does.
pub fn deed_of(command: ViCommand) -> Deed
    ensures { result ≡ deed_of command }
{
    match motion_of(command) {
        Some(motion) => Deed::Move(motion),
        None => match operation_of(command) {
            Some(deed) => deed,
            None => other_of(command),
        },
    }
}

fn motion_of(command: ViCommand) -> Option<Motion>
    ensures { result ≡ motion_of command }
{
    match command {
        ViCommand::MoveLeft => Some(Motion::Left),
        ViCommand::MoveRight => Some(Motion::Right),
        ViCommand::MoveDown => Some(Motion::Down),
        ViCommand::MoveUp => Some(Motion::Up),
        ViCommand::MoveToRowStart => Some(Motion::RowStart),
        ViCommand::MoveToRowText => Some(Motion::RowText),
        ViCommand::MoveToRowEnd => Some(Motion::RowEnd),
        ViCommand::MoveToWord => Some(Motion::WordStart(false)),
        ViCommand::MoveToBigWord => Some(Motion::WordStart(true)),
        ViCommand::MoveBackWord => Some(Motion::WordBack(false)),
        ViCommand::MoveBackBigWord => Some(Motion::WordBack(true)),
        ViCommand::MoveToWordEnd => Some(Motion::WordLast(false)),
        ViCommand::MoveToBigWordEnd => Some(Motion::WordLast(true)),
        ViCommand::MoveToFirstRow => Some(Motion::FirstRow),
        ViCommand::MoveToLastRow => Some(Motion::LastRow),
        ViCommand::FindAhead => Some(character(true, false)),
        ViCommand::FindBack => Some(character(false, false)),
        ViCommand::TillAhead => Some(character(true, true)),
        ViCommand::TillBack => Some(character(false, true)),
        ViCommand::FindAgain => Some(Motion::LastFind),
        ViCommand::FindTurned => Some(Motion::LastFindTurned),
        ViCommand::MoveToBracket => Some(Motion::Bracket),
        _ => None,
    }
}

fn character(forward: bool, before: bool) -> Motion
    ensures { result ≡ Character forward before }
{
    Motion::Character { forward, before }
}

fn operation_of(command: ViCommand) -> Option<Deed>
    ensures { result ≡ operation_of command }
{
    match command {
        ViCommand::DeleteOperator => Some(Deed::Await(Operator::Delete)),
        ViCommand::ChangeOperator => Some(Deed::Await(Operator::Change)),
        ViCommand::YankOperator => Some(Deed::Await(Operator::Yank)),
        ViCommand::DeleteRows => Some(Deed::Again(Operator::Delete)),
        ViCommand::ChangeRows => Some(Deed::Again(Operator::Change)),
        ViCommand::YankRows => Some(Deed::Again(Operator::Yank)),
        ViCommand::DeleteSelection => Some(Deed::OnSelection(Operator::Delete)),
        ViCommand::ChangeSelection => Some(Deed::OnSelection(Operator::Change)),
        ViCommand::YankSelection => Some(Deed::OnSelection(Operator::Yank)),
        ViCommand::CutAhead => Some(Deed::OnMotion(Operator::Delete, Motion::Right)),
        ViCommand::CutBack => Some(Deed::OnMotion(Operator::Delete, Motion::Left)),
        ViCommand::CutRest => Some(Deed::OnMotion(Operator::Delete, Motion::RowEnd)),
        ViCommand::ChangeRest => Some(Deed::OnMotion(Operator::Change, Motion::RowEnd)),
        ViCommand::ChangeAhead => Some(Deed::OnMotion(Operator::Change, Motion::Right)),
        ViCommand::ChangeWholeRows => Some(Deed::OnRows(Operator::Change)),
        ViCommand::YankWholeRows => Some(Deed::OnRows(Operator::Yank)),
        ViCommand::InnerWord => Some(Deed::OnWord(false)),
        ViCommand::AroundWord => Some(Deed::OnWord(true)),
        _ => None,
    }
}

fn other_of(command: ViCommand) -> Deed
    ensures { result ≡ other_of command }
{
    match command {
        ViCommand::EnterNavigation => Deed::EnterNavigation,
        ViCommand::OverwriteChar => Deed::Overwrite,
        ViCommand::OverwriteBack => Deed::OverwriteBack,
        ViCommand::EndOperator => Deed::EndOperator,
        ViCommand::Leave => Deed::Leave,
        ViCommand::ReplaceChars => Deed::Replace,
        ViCommand::SwapCase => Deed::SwapCase,
        ViCommand::JoinRows => Deed::Join,
        ViCommand::PutBehind => Deed::Put(true),
        ViCommand::PutBefore => Deed::Put(false),
        ViCommand::InsertHere => Deed::Enter(ViMode::Insert),
        ViCommand::InsertAtText => Deed::InsertAt(Motion::RowText),
        ViCommand::InsertBehind => Deed::InsertAt(Motion::Right),
        ViCommand::InsertAtEnd => Deed::InsertAt(Motion::RowEnd),
        ViCommand::OpenBelow => Deed::Open(true),
        ViCommand::OpenAbove => Deed::Open(false),
        ViCommand::EnterReplace => Deed::Enter(ViMode::Replace),
        ViCommand::Undo => Deed::Undo,
        ViCommand::Redo => Deed::Redo,
        ViCommand::SelectChars => Deed::Select(false),
        ViCommand::SelectRows => Deed::Select(true),
        ViCommand::DigitArgument => Deed::Digit,
        ViCommand::AcceptLine => Deed::Answer(Done::Accept),
        ViCommand::Interrupt => Deed::Answer(Done::Interrupt),
        _ => Deed::Answer(Done::Same),
    }
}
