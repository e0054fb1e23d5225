//! Commands that delete and leave the ring.
ghost use Rattle.std.specs.Prelude.{◌≡◌, ◌≤◌, ◌+◌, length};
ghost use Rattle.edit_state.specs.Answers.{Answers};
ghost use Rattle.edit_state.specs.Arguments.{turned};
ghost use Rattle.edit_cmds.specs.Deleting.{first_of, end_of, chars_deleted, IsNothing, delete_char, backward_delete_char};
ghost use Rattle.edit_cmds.specs.Moving.{amount};

use edit_state::{Amount, Done, EditState, amount_in};
use text_doc::Doc;

/// Deletes characters from the cursor on, or before it by a negative argument. It rings where there is none.
pub fn delete_char(state: &mut EditState) -> Done
    ensures state { state.new ≡ delete_char state.old }
    ensures done { Answers (IsNothing (amount state.old) state.old) result state.old state.new }
{
    let amount = amount_in(&state.arg);
    delete_chars(state, amount)
}

/// Deletes characters before the cursor, or from it on by a negative argument. It rings where there is none.
pub fn backward_delete_char(state: &mut EditState) -> Done
    ensures state { state.new ≡ backward_delete_char state.old }
    ensures done { Answers (IsNothing (turned (amount state.old)) state.old) result state.old state.new }
{
    let amount = amount_in(&state.arg);
    delete_chars(state, amount.turned())
}

fn delete_chars(state: &mut EditState, amount: Amount) -> Done
    ensures state { state.new ≡ chars_deleted amount state.old }
    ensures done { Answers (IsNothing amount state.old) result state.old state.new }
{
    let (from, to) = range_of(state.buffer.doc(), amount);
    let done = state.delete(from, to);
    if from == to { Done::Bell } else { done }
}

fn range_of(doc: &Doc, amount: Amount) -> (usize, usize)
    ensures first { result.0 ≡ first_of doc.now amount }
    ensures end { result.1 ≡ end_of doc.now amount }
    ensures ordered { result.0 ≤ result.1 }
    ensures range { result.1 ≤ length doc.now.text }
{
    let cursor = doc.cursor();
    match amount {
        Amount::Forward(count) => (cursor, doc.len().min(cursor + count as usize)),
        Amount::Backward(count) => (cursor.saturating_sub(count as usize), cursor),
    }
}
