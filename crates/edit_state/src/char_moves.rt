//! Moves by characters, which stay in the row.
ghost use Rattle.std.specs.Prelude.{◌≡◌, ◌≤◌, length};
ghost use Rattle.edit_state.specs.Answers.{Answers};
ghost use Rattle.edit_state.specs.CharMoves.{place_back, place_ahead, place_by_chars};
ghost use Rattle.edit_state.specs.StateEdits.{gone_to};

use crate::{Amount, Done, EditState};
use text_doc::Doc;

impl EditState {
    /// Moves the cursor by characters, as far as its row goes.
    pub fn move_by_chars(&mut self, amount: Amount) -> Done
        ensures state { self.new ≡ gone_to self.old (place_by_chars self.old.buffer.doc amount) }
        ensures done { Answers ⊥ result self.old self.new }
    {
        let at = place_by_chars(self.buffer.doc(), amount);
        self.go_to(at)
    }
}

/// Returns the place so many characters from the cursor, in its row.
pub fn place_by_chars(doc: &Doc, amount: Amount) -> usize
    ensures place { result ≡ place_by_chars doc.now amount }
    ensures within { result ≤ length doc.now.text }
{
    match amount {
        Amount::Forward(count) => place_ahead(doc, count),
        Amount::Backward(count) => place_back(doc, count),
    }
}

/// Returns the place so many characters before the cursor, but not before its row.
pub fn place_back(doc: &Doc, count: u32) -> usize
    ensures place { result ≡ place_back doc.now count }
    ensures before { result ≤ doc.now.cursor }
    ensures within { result ≤ length doc.now.text }
{
    let cursor = doc.cursor();
    doc.line_start().max(cursor.saturating_sub(count as usize))
}

/// Returns the place so many characters behind the cursor, but not behind its row.
pub fn place_ahead(doc: &Doc, count: u32) -> usize
    ensures place { result ≡ place_ahead doc.now count }
    ensures behind { doc.now.cursor ≤ result }
    ensures within { result ≤ length doc.now.text }
{
    let cursor = doc.cursor();
    doc.line_end().min(cursor + count as usize)
}
