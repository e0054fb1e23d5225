//! Runs commands: the row of each, and then what every command leaves behind.
ghost use Rattle.std.specs.Prelude.{◌≡◌, IfOk, OnOk, OnErr};
ghost use Rattle.edit_state.specs.Searches.{HasOrigin};
ghost use Rattle.edit_cmds.specs.Leaving.{beside_previous};
ghost use Rattle.edit_cmds.specs.Running.{searches, fits, AnswersAs, builds_argument, moves_by_rows, pastes, keeps_of, effect, answer_named, IsToRing, ran};

use crate::groups::do_row;
use crate::leaving::{Keeps, answer_with, drops, leave_behind};
use edit_state::{Command, Done, EditState, NoMemory};
use key_names::KeyPress;
use std::alloc::Global;

/// Runs a command on the key that it was bound to: does its row, and then drops what no later command is to find. A
/// command of another kind does nothing during a search, and neither does one of a search where none runs.
pub fn run(
    alloc: Global,
    command: Command,
    key: &KeyPress,
    state: &mut EditState,
) -> Result<Done, NoMemory>
    requires { HasOrigin state.old }
    ensures state { OnOk result (state.new ≡ ran command key.now state.old) }
    ensures err { OnErr result (state.new ≡ state.old) }
    ensures origin { OnOk result (HasOrigin state.new) }
    ensures done { IfOk result (λ done. AnswersAs (answer_named command state.old)
        (IsToRing command key.now state.old) done state.old (beside_previous state.old state.new)) }
{
    let keeps = keeps_of(command);
    let dropped = drops(state, keeps);
    let done = do_fitting(alloc, command, key, state)?;
    leave_behind(state, command.number(), keeps);
    Ok(answer_with(dropped, done))
}

/// Does the row of a command where it fits to whether a search runs.
fn do_fitting(
    alloc: Global,
    command: Command,
    key: &KeyPress,
    state: &mut EditState,
) -> Result<Done, NoMemory>
    requires { HasOrigin state.old }
    ensures state { OnOk result (state.new ≡ effect command key.now state.old) }
    ensures err { OnErr result (state.new ≡ state.old) }
    ensures origin { OnOk result (HasOrigin state.new) }
    ensures done { IfOk result (λ done. AnswersAs (answer_named command state.old)
        (IsToRing command key.now state.old) done state.old state.new) }
{
    if !fits(command, state) {
        return Ok(Done::Same);
    }
    let done = do_row(alloc, command, key, state)?;
    Ok(done)
}

/// Tells whether a search runs and the command is one of it, or neither.
fn fits(command: Command, state: &EditState) -> bool
    ensures { result ≡ fits command state.now }
{
    searches(command) == state.search.is_some()
}

fn searches(command: Command) -> bool
    ensures { result ≡ searches command }
{
    match command {
        Command::ExtendNeedle | Command::ShortenNeedle => true,
        Command::SearchAgainBackward | Command::SearchAgainForward => true,
        Command::AcceptSearch | Command::AbortSearch => true,
        _ => false,
    }
}

/// Returns what a command keeps of what the others drop.
fn keeps_of(command: Command) -> Keeps
    ensures { result ≡ keeps_of command }
{
    Keeps {
        argument: builds_argument(command),
        column: moves_by_rows(command),
        paste: pastes(command),
    }
}

fn builds_argument(command: Command) -> bool
    ensures { result ≡ builds_argument command }
{
    match command {
        Command::DigitArgument | Command::NegativeArgument => true,
        _ => false,
    }
}

fn moves_by_rows(command: Command) -> bool
    ensures { result ≡ moves_by_rows command }
{
    match command {
        Command::AutoUp | Command::AutoDown => true,
        Command::SelectUp | Command::SelectDown => true,
        _ => false,
    }
}

fn pastes(command: Command) -> bool
    ensures { result ≡ pastes command }
{
    match command {
        Command::Yank | Command::YankPop => true,
        _ => false,
    }
}
