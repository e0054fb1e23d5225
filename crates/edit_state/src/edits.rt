//! Edits of the document, and cuts, which put what they delete on the ring.
ghost use Rattle.std.specs.Prelude.{◌≡◌, ◌<◌, ◌≤◌, ◌+◌, ◌*◌, ◌↔◌, false, length, IfOk, OnOk, OnErr, IsTrue};
ghost use Rattle.std.specs.List.{repeat};
ghost use Rattle.edit_buffer.specs.Edits.{applied, FitsDocument, TakesNoMemory};
ghost use Rattle.edit_state.specs.Answers.{done_of, Answers};
ghost use Rattle.edit_state.specs.StateEdits.{edited_state, gone_to, inserted_times, IsTooLong, killed, cut};

use crate::{Done, EditState, NoMemory};
use edit_buffer::{Buffer, Clip, Edit, EditFault};
use std::alloc::{AllocError, Global};
use text_doc::{MAX_LENGTH, Text};

impl EditState {
    /// Makes an edit that asks for no memory.
    #[tactic(auto, using(crate::proofs::Telling::told))]
    pub fn edit(&mut self, edit: Edit) -> Done
        requires fits { FitsDocument edit self.old.buffer.doc }
        requires plain { TakesNoMemory edit }
        ensures state { self.new ≡ edited_state self.old edit }
        ensures done { Answers ⊥ result self.old self.new }
    {
        done_of(edit_plainly(&mut self.buffer, edit))
    }

    /// Moves the cursor to a place.
    pub fn go_to(&mut self, at: usize) -> Done
        requires { at ≤ length self.old.buffer.doc.text }
        ensures state { self.new ≡ gone_to self.old at }
        ensures done { Answers ⊥ result self.old self.new }
    {
        self.edit(Edit::Cursor(at))
    }

    /// Deletes a range and leaves the ring.
    pub fn delete(&mut self, from: usize, to: usize) -> Done
        requires ordered { from ≤ to }
        requires range { to ≤ length self.old.buffer.doc.text }
        ensures state { self.new ≡ edited_state self.old (Edit.Delete from to) }
        ensures done { Answers ⊥ result self.old self.new }
    {
        self.edit(Edit::Delete { from, to })
    }

    /// Inserts characters this many times, or rings where the text would be too long.
    pub fn insert(&mut self, alloc: Global, chars: &[char], times: u32) -> Result<Done, NoMemory>
        ensures state { IfOk result (λ _. self.new ≡ inserted_times self.old chars.now times) }
        ensures err { OnErr result (self.new ≡ self.old) }
        ensures done { IfOk result (λ done. Answers (IsTooLong self.old chars.now times)
            done self.old self.new) }
    {
        if !fits(chars, times, MAX_LENGTH - self.buffer.doc().len()) {
            return Ok(Done::Bell);
        }
        let text = Text::from_vec(chars.repeat(alloc, times as usize)?);
        let changed = insert_text(&mut self.buffer, text)?;
        Ok(done_of(changed))
    }

    /// Puts characters in place of as many. A cursor among them or at an end of them then stands behind them.
    pub fn replace(&mut self, from: usize, text: Text) -> Result<Done, NoMemory>
        requires { from + length text ≤ length self.old.buffer.doc.text }
        ensures state { OnOk result (self.new
            ≡ edited_state self.old (Edit.Replace from (from + length text) text)) }
        ensures err { OnErr result (self.new ≡ self.old) }
        ensures done { IfOk result (λ done. Answers ⊥ done self.old self.new) }
    {
        let changed = replace_text(&mut self.buffer, from, text)?;
        Ok(done_of(changed))
    }

    /// Deletes a range and puts a clip on the ring.
    pub fn kill(&mut self, from: usize, to: usize, clip: Clip) -> Done
        requires some { from < to }
        requires range { to ≤ length self.old.buffer.doc.text }
        ensures state { self.new ≡ killed self.old from to clip }
        ensures done { Answers ⊥ result self.old self.new }
    {
        edit_plainly(&mut self.buffer, Edit::Delete { from, to });
        self.ring.put(clip);
        Done::Changed
    }

    /// Deletes a range and puts its text on the ring. An empty range changes nothing.
    pub fn cut(&mut self, from: usize, to: usize) -> Result<Done, NoMemory>
        requires ordered { from ≤ to }
        requires range { to ≤ length self.old.buffer.doc.text }
        ensures state { OnOk result (self.new ≡ cut self.old from to) }
        ensures err { OnErr result (self.new ≡ self.old) }
        ensures done { IfOk result (λ done. Answers ⊥ done self.old self.new) }
    {
        if from == to {
            return Ok(Done::Same);
        }
        let text = self.buffer.doc().part(from, to)?;
        Ok(self.kill(from, to, Clip { text, lines: false }))
    }
}

/// Returns what a command answers that rings no bell.
pub(crate) fn done_of(changed: bool) -> Done
    ensures { result ≡ done_of changed }
{
    if changed { Done::Changed } else { Done::Same }
}

/// Makes an edit that asks for no memory, and tells whether the buffer differs from before.
pub(crate) fn edit_plainly(buffer: &mut Buffer, edit: Edit) -> bool
    requires fits { FitsDocument edit buffer.old.doc }
    requires plain { TakesNoMemory edit }
    ensures buffer { buffer.new ≡ applied buffer.old edit }
    ensures changed { (result ≡ false) ↔ (buffer.new ≡ buffer.old) }
{
    let _index = buffer.index();
    match buffer.apply(edit) {
        Ok(answer) => !answer.is_same(),
        Err(_) => false,
    }
}

/// Tells whether the characters find room this many times.
fn fits(chars: &[char], times: u32, room: usize) -> bool
    ensures { IsTrue result ↔ (times * length chars.now ≤ room) }
{
    match chars.len().checked_mul(times as usize) {
        Some(total) => total <= room,
        None => false,
    }
}

// Inserts a text that finds room.
fn insert_text(buffer: &mut Buffer, text: Text) -> Result<bool, NoMemory>
    requires { length buffer.old.doc.text + length text ≤ 32768 }
    ensures buffer { OnOk result (buffer.new ≡ applied buffer.old (Edit.Insert text)) }
    ensures err { OnErr result (buffer.new ≡ buffer.old) }
    ensures changed { IfOk result (λ changed. (changed ≡ false) ↔ (buffer.new ≡ buffer.old)) }
{
    let _index = buffer.index();
    match buffer.apply(Edit::Insert(text)) {
        Ok(answer) => Ok(!answer.is_same()),
        Err(_) => Err(AllocError),
    }
}

// Puts characters in place of as many.
fn replace_text(buffer: &mut Buffer, from: usize, text: Text) -> Result<bool, NoMemory>
    requires { from + length text ≤ length buffer.old.doc.text }
    ensures buffer { OnOk result (buffer.new
        ≡ applied buffer.old (Edit.Replace from (from + length text) text)) }
    ensures err { OnErr result (buffer.new ≡ buffer.old) }
    ensures changed { IfOk result (λ changed. (changed ≡ false) ↔ (buffer.new ≡ buffer.old)) }
{
    let _index = buffer.index();
    let to = from + text.len();
    match buffer.apply(Edit::Replace { from, to, text }) {
        Ok(answer) => Ok(!answer.is_same()),
        Err(_) => Err(AllocError),
    }
}
