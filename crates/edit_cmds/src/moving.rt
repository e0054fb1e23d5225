//! Commands that move the cursor, and those that select by a move.
ghost use Rattle.std.specs.Prelude.{◌≡◌, ◌≢◌, ◌↔◌, true};
ghost use Rattle.edit_state.specs.Answers.{Answers};
ghost use Rattle.edit_cmds.specs.Moving.{beginning_of_line, end_of_line, backward_char, forward_char, backward_word, forward_word, set_mark, marked, select_left, select_right, select_up, select_down};

use edit_buffer::Edit;
use edit_state::{Done, EditState, amount_in};

/// Goes to the start of the row.
pub fn beginning_of_line(state: &mut EditState) -> Done
    ensures state { state.new ≡ beginning_of_line state.old }
    ensures done { Answers ⊥ result state.old state.new }
{
    let at = state.buffer.doc().line_start();
    state.go_to(at)
}

/// Goes to the end of the row.
pub fn end_of_line(state: &mut EditState) -> Done
    ensures state { state.new ≡ end_of_line state.old }
    ensures done { Answers ⊥ result state.old state.new }
{
    let at = state.buffer.doc().line_end();
    state.go_to(at)
}

/// Goes back by characters of the row.
pub fn backward_char(state: &mut EditState) -> Done
    ensures state { state.new ≡ backward_char state.old }
    ensures done { Answers ⊥ result state.old state.new }
{
    let amount = amount_in(&state.arg);
    state.move_by_chars(amount.turned())
}

/// Goes forward by characters of the row.
pub fn forward_char(state: &mut EditState) -> Done
    ensures state { state.new ≡ forward_char state.old }
    ensures done { Answers ⊥ result state.old state.new }
{
    let amount = amount_in(&state.arg);
    state.move_by_chars(amount)
}

/// Goes back by words.
pub fn backward_word(state: &mut EditState) -> Done
    ensures state { state.new ≡ backward_word state.old }
    ensures done { Answers ⊥ result state.old state.new }
{
    let count = amount_in(&state.arg).count();
    state.move_words_back(count, false)
}

/// Goes forward by words.
pub fn forward_word(state: &mut EditState) -> Done
    ensures state { state.new ≡ forward_word state.old }
    ensures done { Answers ⊥ result state.old state.new }
{
    let count = amount_in(&state.arg).count();
    state.move_words_ahead(count, false)
}

/// Sets the mark at the cursor.
pub fn set_mark(state: &mut EditState) -> Done
    ensures state { state.new ≡ set_mark state.old }
    ensures done { Answers ⊥ result state.old state.new }
{
    let at = state.buffer.doc().cursor();
    state.edit(Edit::Mark(Some(at)))
}

/// Sets the mark at the cursor where none is set, and tells whether none was.
fn mark_first(state: &mut EditState) -> bool
    ensures state { state.new ≡ marked state.old }
    ensures first { (result ≡ true) ↔ (state.old.buffer.doc.mark ≡ None) }
    ensures set { state.new.buffer.doc.mark ≢ None }
{
    if state.buffer.doc().mark().is_some() {
        return false;
    }
    set_mark(state);
    true
}

/// Selects as it goes back by characters of the row.
pub fn select_left(state: &mut EditState) -> Done
    ensures state { state.new ≡ select_left state.old }
    ensures done { Answers ⊥ result state.old state.new }
{
    let first = mark_first(state);
    let moved = backward_char(state);
    if first { Done::Changed } else { moved }
}

/// Selects as it goes forward by characters of the row.
pub fn select_right(state: &mut EditState) -> Done
    ensures state { state.new ≡ select_right state.old }
    ensures done { Answers ⊥ result state.old state.new }
{
    let first = mark_first(state);
    let moved = forward_char(state);
    if first { Done::Changed } else { moved }
}

/// Selects as it goes up by rows.
pub fn select_up(state: &mut EditState) -> Done
    ensures state { state.new ≡ select_up state.old }
    ensures done { Answers ⊥ result state.old state.new }
{
    let count = amount_in(&state.arg).count();
    let first = mark_first(state);
    let moved = state.rows_up(count);
    if first { Done::Changed } else { moved }
}

/// Selects as it goes down by rows.
pub fn select_down(state: &mut EditState) -> Done
    ensures state { state.new ≡ select_down state.old }
    ensures done { Answers ⊥ result state.old state.new }
{
    let count = amount_in(&state.arg).count();
    let first = mark_first(state);
    let moved = state.rows_down(count);
    if first { Done::Changed } else { moved }
}
