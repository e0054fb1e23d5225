//! Commands that cut, and those that put what is selected on the ring.
ghost use Rattle.std.specs.Prelude.{◌≡◌, ◌≤◌, ◌++◌, length, slice_range, IfOk, OnOk, OnErr};
ghost use Rattle.edit_state.specs.Answers.{Answers};
ghost use Rattle.edit_cmds.specs.Killing.{kill_line, unix_line_discard, repeats, first_text, killed_as, kill_word, words_killed, backward_kill_word, unix_word_rubout, unmarked, cut_selection, copy_selection};

use edit_buffer::{Clip, Edit};
use edit_state::{
    Amount, Command, Done, EditState, NoMemory, amount_in, word_ends_ahead, words_back,
};
use std::alloc::Global;
use text_doc::Text;

/// Cuts the rest of the row, or its line feed; by a negative argument the row up to the cursor.
pub fn kill_line(state: &mut EditState) -> Result<Done, NoMemory>
    ensures state { OnOk result (state.new ≡ kill_line state.old) }
    ensures err { OnErr result (state.new ≡ state.old) }
    ensures done { IfOk result (λ done. Answers ⊥ done state.old state.new) }
{
    let amount = amount_in(&state.arg);
    let doc = state.buffer.doc();
    let cursor = doc.cursor();
    let end = doc.line_end();
    let (from, to) = match amount {
        Amount::Backward(_) => (doc.line_start(), cursor),
        Amount::Forward(_) if cursor < doc.len() && end == cursor => (cursor, cursor + 1),
        Amount::Forward(_) => (cursor, end),
    };
    state.cut(from, to)
}

/// Cuts the row up to the cursor; at the start of a row it deletes the line feed before it.
pub fn unix_line_discard(state: &mut EditState) -> Result<Done, NoMemory>
    ensures state { OnOk result (state.new ≡ unix_line_discard state.old) }
    ensures err { OnErr result (state.new ≡ state.old) }
    ensures done { IfOk result (λ done. Answers ⊥ done state.old state.new) }
{
    let cursor = state.buffer.doc().cursor();
    let start = state.buffer.doc().line_start();
    if cursor > 0 && start == cursor {
        return Ok(state.delete(cursor - 1, cursor));
    }
    state.cut(start, cursor)
}

/// Cuts words behind the cursor. A repeat puts them behind what was cut before.
pub fn kill_word(state: &mut EditState, alloc: Global) -> Result<Done, NoMemory>
    ensures state { OnOk result (state.new ≡ kill_word state.old) }
    ensures err { OnErr result (state.new ≡ state.old) }
    ensures done { IfOk result (λ done. Answers ⊥ done state.old state.new) }
{
    let count = amount_in(&state.arg).count();
    let doc = state.buffer.doc();
    let from = doc.cursor();
    let to = word_ends_ahead(doc, count, false);
    let mut text = first_text(state, alloc, Command::KillWord)?;
    let behind = doc.part(from, to)?;
    text.extend_from_slice(behind.as_slice())?;
    Ok(kill_as(state, from, to, text))
}

/// Cuts words before the cursor. A repeat puts them before what was cut before.
pub fn backward_kill_word(state: &mut EditState, alloc: Global) -> Result<Done, NoMemory>
    ensures state { OnOk result (state.new ≡ backward_kill_word state.old) }
    ensures err { OnErr result (state.new ≡ state.old) }
    ensures done { IfOk result (λ done. Answers ⊥ done state.old state.new) }
{
    kill_words(state, alloc, Command::BackwardKillWord, false)
}

/// Cuts big words before the cursor. A repeat puts them before what was cut before.
pub fn unix_word_rubout(state: &mut EditState, alloc: Global) -> Result<Done, NoMemory>
    ensures state { OnOk result (state.new ≡ unix_word_rubout state.old) }
    ensures err { OnErr result (state.new ≡ state.old) }
    ensures done { IfOk result (λ done. Answers ⊥ done state.old state.new) }
{
    kill_words(state, alloc, Command::UnixWordRubout, true)
}

fn kill_words(
    state: &mut EditState,
    alloc: Global,
    command: Command,
    big: bool,
) -> Result<Done, NoMemory>
    ensures state { OnOk result (state.new ≡ words_killed command big state.old) }
    ensures err { OnErr result (state.new ≡ state.old) }
    ensures done { IfOk result (λ done. Answers ⊥ done state.old state.new) }
{
    let count = amount_in(&state.arg).count();
    let doc = state.buffer.doc();
    let to = doc.cursor();
    let from = words_back(doc, count, big);
    let mut text = doc.part(from, to)?;
    let first = first_text(state, alloc, command)?;
    text.extend_from_slice(first.as_slice())?;
    Ok(kill_as(state, from, to, text))
}

/// Cuts what stands between the mark and the cursor.
pub fn cut_selection(state: &mut EditState) -> Result<Done, NoMemory>
    ensures state { OnOk result (state.new ≡ cut_selection state.old) }
    ensures err { OnErr result (state.new ≡ state.old) }
    ensures done { IfOk result (λ done. Answers ⊥ done state.old state.new) }
{
    let cursor = state.buffer.doc().cursor();
    match state.buffer.doc().mark() {
        None => Ok(Done::Same),
        Some(mark) => {
            state.cut(mark.min(cursor), mark.max(cursor))?;
            state.edit(Edit::Mark(None));
            Ok(Done::Changed)
        }
    }
}

/// Puts what stands between the mark and the cursor on the ring.
pub fn copy_selection(state: &mut EditState) -> Result<Done, NoMemory>
    ensures state { OnOk result (state.new ≡ copy_selection state.old) }
    ensures err { OnErr result (state.new ≡ state.old) }
    ensures done { IfOk result (λ done. Answers ⊥ done state.old state.new) }
{
    let cursor = state.buffer.doc().cursor();
    match state.buffer.doc().mark() {
        None => Ok(Done::Same),
        Some(mark) => {
            let text = state.buffer.doc().part(mark.min(cursor), mark.max(cursor))?;
            state.edit(Edit::Mark(None));
            state.ring.put(Clip { text, lines: false });
            Ok(Done::Changed)
        }
    }
}

/// Returns the text of the first clip where the command repeats, else none.
fn first_text(state: &EditState, alloc: Global, command: Command) -> Result<Text, NoMemory>
    ensures { IfOk result (λ text. text ≡ first_text command state.now) }
{
    if !repeats(state, command) {
        return Ok(Text::new(alloc));
    }
    match state.ring.first() {
        Some(clip) => clip.text.copy(),
        None => Ok(Text::new(alloc)),
    }
}

/// Tells whether the command before was this one.
pub(crate) fn repeats(state: &EditState, command: Command) -> bool
    ensures { result ≡ repeats command state.now }
{
    match state.previous {
        Some(before) => before == command.number(),
        None => false,
    }
}

/// Deletes a range and puts this text on the ring. An empty range changes nothing.
fn kill_as(state: &mut EditState, from: usize, to: usize, text: Text) -> Done
    requires ordered { from ≤ to }
    requires range { to ≤ length state.old.buffer.doc.text }
    ensures state { state.new ≡ killed_as from to text state.old }
    ensures done { Answers ⊥ result state.old state.new }
{
    if from == to {
        return Done::Same;
    }
    state.kill(from, to, Clip { text, lines: false })
}
