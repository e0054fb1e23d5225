//! The lists of undo and redo, which all working lines share.
ghost use Rattle.std.specs.Prelude.{◌≡◌, ◌<◌, ◌↔◌, [], length, take, drop, slice_get, option_copied, IsOk, IsTrue, IfOk, OnOk, OnErr};
ghost use Rattle.std.specs.List.{prefix_len};
ghost use Rattle.circular_buffer.specs.Buffer.{buffer};
ghost use Rattle.edit_buffer.specs.Undo.{has_text, first_has_text, differing, with_cursor, with_present, saved, undone, redone};

use crate::Buffer;
use crate::snapshots::Snapshot;
use circular_buffer::HeapCircularBuffer;
use text_doc::{Doc, NoMemory};

/// The most pairs that the lists of undo and redo hold together.
pub const MAX_PAIRS: usize = 1_000;

/// A list of pairs, the newest first.
pub(crate) type Snapshots = HeapCircularBuffer<Snapshot>;

impl Buffer {
    /// Keeps text and cursor for undo, and forgets what could be redone. The text is copied only where the pair that was
    /// kept last has another one; from one save on, until the text is edited, it is not even compared.
    pub fn save(&mut self) -> Result<(), NoMemory>
        ensures ok { OnOk result (self.new ≡ saved self.old) }
        ensures err { OnErr result (self.new ≡ self.old) }
        ensures sure { IsTrue (first_has_text self.old.doc.text self.old.undo) → IsOk result }
    {
        keep(&mut self.undo, &self.doc, self.is_kept)?;
        self.redo.clear();
        self.is_kept = true;
        Ok(())
    }

    /// Restores the pair that was kept last and has another text. Returns whether there is one.
    pub fn undo(&mut self) -> Result<bool, NoMemory>
        ensures answer { IfOk result (λ done. IsTrue done
            ↔ (0 < length (differing self.old.doc.text self.old.undo))) }
        ensures ok { OnOk result (self.new ≡ undone self.old) }
        ensures err { OnErr result (self.new ≡ self.old) }
        ensures sure { differing self.old.doc.text self.old.undo ≡ [] → IsOk result }
    {
        match first_differing(&self.undo, &self.doc) {
            None => {
                self.undo.clear();
                self.is_kept = false;
                Ok(false)
            }
            Some(pair) => {
                let restored = pair.to_doc()?;
                let present = Snapshot::of(&self.doc)?;
                pop_differing(&mut self.undo, &self.doc);
                self.redo.push_front(present);
                self.doc = restored;
                self.is_kept = false;
                Ok(true)
            }
        }
    }

    /// Restores the pair that was undone last. Returns whether there is one.
    pub fn redo(&mut self) -> Result<bool, NoMemory>
        ensures answer { IfOk result (λ done. IsTrue done ↔ (0 < length self.old.redo)) }
        ensures ok { OnOk result (self.new ≡ redone self.old) }
        ensures err { OnErr result (self.new ≡ self.old) }
        ensures sure { self.old.redo ≡ [] → IsOk result }
    {
        match self.redo.front() {
            None => Ok(false),
            Some(pair) => {
                let restored = pair.to_doc()?;
                keep(&mut self.undo, &self.doc, self.is_kept)?;
                self.redo.pop_front();
                self.doc = restored;
                self.is_kept = false;
                Ok(true)
            }
        }
    }
}

fn first_has_text_of(pairs: &Snapshots, doc: &Doc) -> bool
    ensures { result ≡ first_has_text doc.now.text pairs.now.items }
{
    match pairs.front() {
        Some(first) => first.has_text_of(doc),
        None => false,
    }
}

/// Counts the first pairs with the document's text, up to the first one with another.
fn count_equal(pairs: &Snapshots, doc: &Doc) -> usize
    ensures { result ≡ prefix_len (has_text doc.now.text) pairs.now.items }
{
    pairs
        .iter()
        .take_while(|pair| pair.has_text_of(doc))
        .count()
}

/// Returns the first pair with another text than the document.
fn first_differing<'a>(pairs: &'a Snapshots, doc: &Doc) -> Option<&'a Snapshot>
    ensures { option_copied result ≡ slice_get (differing doc.now.text pairs.now.items) 0 }
{
    let equal = count_equal(pairs, doc);
    pairs.nth_front(equal)
}

/// Drops the first pair with another text than the document, and those before it.
fn pop_differing(pairs: &mut Snapshots, doc: &Doc)
    ensures { pairs.new
        ≡ buffer (drop 1 (differing doc.now.text pairs.old.items)) pairs.old.capacity }
{
    let equal = count_equal(pairs, doc);
    for _ in 0..equal {
        pairs.pop_front();
    }
    pairs.pop_front();
}

/// Gives the first pair the document's cursor.
fn move_first_cursor(pairs: &mut Snapshots, doc: &Doc)
    requires { IsTrue (first_has_text doc.now.text pairs.old.items) }
    ensures { pairs.new
        ≡ buffer (take pairs.old.capacity (with_cursor doc.now.cursor pairs.old.items))
        pairs.old.capacity }
{
    if let Some(mut first) = pairs.pop_front() {
        first.take_cursor(doc);
        pairs.push_front(first);
    }
}

/// Keeps text and cursor of the document as the first pair. The text is copied only where the first pair has another
/// one, and not even compared where the first pair is known to have it.
fn keep(pairs: &mut Snapshots, doc: &Doc, is_kept: bool) -> Result<(), NoMemory>
    requires { IsTrue is_kept → IsTrue (first_has_text doc.now.text pairs.old.items) }
    ensures ok { OnOk result (pairs.new
        ≡ buffer (take pairs.old.capacity (with_present doc.now pairs.old.items))
        pairs.old.capacity) }
    ensures err { OnErr result (pairs.new ≡ pairs.old) }
    ensures sure { IsTrue (first_has_text doc.now.text pairs.old.items) → IsOk result }
{
    if is_kept || first_has_text_of(pairs, doc) {
        move_first_cursor(pairs, doc);
    } else {
        let present = Snapshot::of(doc)?;
        pairs.push_front(present);
    }
    Ok(())
}
