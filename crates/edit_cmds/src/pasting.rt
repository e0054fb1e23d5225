//! Commands that insert clips of the ring.
ghost use Rattle.std.specs.Prelude.{◌≡◌, ◌↔◌, ◌<◌, ◌+◌, ◌==◌, if◌then◌else◌, true, slice_get, length, IfOk, IfSome, OnOk, OnErr, IsTrue, None, Some};
ghost use Rattle.text_doc.specs.Edits.{inserted};
ghost use Rattle.edit_buffer.specs.Rings.{rotated};
ghost use Rattle.edit_state.specs.Answers.{Answers};
ghost use Rattle.edit_state.specs.StateEdits.{edited_state, IsTooLong};
ghost use Rattle.edit_cmds.specs.Pasting.{pasted, yank, IsYankTooLong, next_text, follows_paste, IsPopTooLong, yank_pop};

use crate::killing::repeats;
use edit_buffer::{Edit, Ring};
use edit_state::{Command, Done, EditState, NoMemory, amount_in};
use std::alloc::{AllocError, Global};
use text_doc::{Doc, InsertFault, Text};

/// Inserts the first clip as often as the argument says, and keeps the document from before.
pub fn yank(state: &mut EditState, alloc: Global) -> Result<Done, NoMemory>
    ensures state { OnOk result (state.new ≡ yank state.old) }
    ensures err { OnErr result (state.new ≡ state.old) }
    ensures done { IfOk result (λ done. Answers (IsYankTooLong (slice_get state.old.ring 0) state.old)
        done state.old state.new) }
{
    let times = amount_in(&state.arg).times();
    let text = match state.ring.first() {
        None => return Ok(Done::Same),
        Some(clip) => clip.text.copy()?,
    };
    paste(state, alloc, &text, times)
}

/// Inserts characters this many times, and keeps the document from before. It does nothing where that is not once.
fn paste(state: &mut EditState, alloc: Global, text: &Text, times: u32) -> Result<Done, NoMemory>
    ensures state { OnOk result (state.new
        ≡ (if times == 0 then state.old else pasted text.now times state.old)) }
    ensures err { OnErr result (state.new ≡ state.old) }
    ensures done { IfOk result (λ done. Answers (IsTooLong state.old text.now times)
        done state.old state.new) }
{
    let before = state.buffer.doc().copy()?;
    if times == 0 {
        return Ok(Done::Same);
    }
    let kept = is_kept(&state.before_paste, &before);
    let done = state.insert(alloc, text.as_slice(), times)?;
    if done == Done::Bell {
        return Ok(Done::Bell);
    }
    state.before_paste = Some(before);
    if kept { Ok(done) } else { Ok(Done::Changed) }
}

/// Tells whether this is the document that is kept from before a paste.
fn is_kept(kept: &Option<Doc>, doc: &Doc) -> bool
    ensures { IsTrue result ↔ (kept.now ≡ Some doc.now) }
{
    match kept {
        Some(before) => before.is_same(doc) && before.mark() == doc.mark(),
        None => false,
    }
}

/// Takes the next clip in place of the one that was pasted last.
pub fn yank_pop(state: &mut EditState) -> Result<Done, NoMemory>
    ensures state { OnOk result (state.new ≡ yank_pop state.old) }
    ensures err { OnErr result (state.new ≡ state.old) }
    ensures done { IfOk result (λ done. Answers ((follows_paste state.old ≡ true)
        × IsPopTooLong state.old.before_paste state.old) done state.old state.new) }
{
    if !follows_paste(state) {
        return Ok(Done::Same);
    }
    match &state.before_paste {
        None => Ok(Done::Same),
        Some(before) => match with_next_clip(before, &state.ring)? {
            None => Ok(Done::Bell),
            Some(doc) => Ok(put_popped(state, doc)),
        },
    }
}

fn follows_paste(state: &EditState) -> bool
    ensures { result ≡ follows_paste state.now }
{
    repeats(state, Command::Yank) || repeats(state, Command::YankPop)
}

/// Returns the document with the clip at the cursor that is first after a rotation, and none where it would be too long.
fn with_next_clip(before: &Doc, ring: &Ring) -> Result<Option<Doc>, NoMemory>
    ensures pasted { IfOk result (λ doc. IfSome doc (λ new. new
        ≡ inserted before.now (next_text ring.now))) }
    ensures too_long { IfOk result (λ doc. (doc ≡ None)
        ↔ (32768 < length before.now.text + length (next_text ring.now))) }
{
    let mut doc = before.copy()?;
    let pasted = match ring.second() {
        Some(clip) => doc.insert(clip.text.as_slice()),
        None => doc.insert(&[]),
    };
    match pasted {
        Ok(()) => Ok(Some(doc)),
        Err(InsertFault::TooLong) => Ok(None),
        Err(InsertFault::NoMemory) => Err(AllocError),
    }
}

/// Puts a document in place of the present one, and rotates the ring.
fn put_popped(state: &mut EditState, doc: Doc) -> Done
    ensures state { state.new
        ≡ record (edited_state state.old (Edit.Whole doc)) { ring = rotated state.old.ring } }
    ensures done { Answers ⊥ result state.old state.new }
{
    let turned = state.ring.turns();
    let done = state.edit(Edit::Whole(doc));
    state.ring.rotate();
    if turned { Done::Changed } else { done }
}
