//! Commands that undo, redo and cancel.
ghost use Rattle.std.specs.Prelude.{◌≡◌, IfOk, OnOk, OnErr};
ghost use Rattle.edit_state.specs.Answers.{Answers};
ghost use Rattle.edit_cmds.specs.Restoring.{undo, HasNoUndo, redo, HasNoRedo, cancel};

use edit_buffer::Edit;
use edit_state::{Done, EditState, NoMemory};

/// Restores the text that was saved last and differs. It rings where there is none.
pub fn undo(state: &mut EditState) -> Result<Done, NoMemory>
    ensures state { OnOk result (state.new ≡ undo state.old) }
    ensures err { OnErr result (state.new ≡ state.old) }
    ensures done { IfOk result (λ done. Answers (HasNoUndo state.old) done state.old state.new) }
{
    let done = state.buffer.undo()?;
    if done {
        Ok(Done::Changed)
    } else {
        Ok(Done::Bell)
    }
}

/// Restores the text that was undone last. It rings where there is none.
pub fn redo(state: &mut EditState) -> Result<Done, NoMemory>
    ensures state { OnOk result (state.new ≡ redo state.old) }
    ensures err { OnErr result (state.new ≡ state.old) }
    ensures done { IfOk result (λ done. Answers (HasNoRedo state.old) done state.old state.new) }
{
    let done = state.buffer.redo()?;
    if done {
        Ok(Done::Changed)
    } else {
        Ok(Done::Bell)
    }
}

/// Cancels the menu, and without one takes the mark away.
pub fn cancel(state: &mut EditState) -> Done
    ensures state { state.new ≡ cancel state.old }
    ensures done { Answers ⊥ result state.old state.new }
{
    if state.buffer.menu().is_some() {
        state.buffer.cancel_menu();
        return Done::Changed;
    }
    state.edit(Edit::Mark(None))
}
