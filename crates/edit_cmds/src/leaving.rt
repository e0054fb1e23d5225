//! What every command leaves behind beside what its row does.
ghost use Rattle.std.specs.Prelude.{◌≡◌, ◌↔◌, false};
ghost use Rattle.edit_cmds.specs.Leaving.{keeping, left_behind, answer_with};

use edit_state::{Done, EditState};

/// Which parts of the state a command keeps. It drops the others.
#[derive(Clone, Copy, Debug, PartialEq, Eq)]
pub struct Keeps {
    pub argument: bool,
    /// The column of moves by rows.
    pub column: bool,
    /// The document from before a paste.
    pub paste: bool,
}

/// Notes the number of a command, and drops what it does not keep.
pub(crate) fn leave_behind(state: &mut EditState, number: u32, keeps: Keeps)
    ensures { state.new ≡ left_behind number keeps state.old }
{
    state.previous = Some(number);
    if !keeps.argument {
        state.arg = None;
    }
    if !keeps.column {
        state.column = None;
    }
    if !keeps.paste {
        state.before_paste = None;
    }
}

/// Tells whether something is held that a command does not keep.
pub(crate) fn drops(state: &EditState, keeps: Keeps) -> bool
    ensures { (result ≡ false) ↔ (keeping keeps state.now ≡ state.now) }
{
    let argument = state.arg.is_some() && !keeps.argument;
    let column = state.column.is_some() && !keeps.column;
    let paste = state.before_paste.is_some() && !keeps.paste;
    argument || column || paste
}

/// Returns the answer of a row, or that something changed where something is dropped.
pub(crate) fn answer_with(dropped: bool, done: Done) -> Done
    ensures { result ≡ answer_with dropped done }
{
    if dropped && done == Done::Same {
        Done::Changed
    } else {
        done
    }
}
