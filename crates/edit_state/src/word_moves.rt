//! Moves by words, of both kinds.
ghost use Rattle.std.specs.Prelude.{◌≡◌, ◌≤◌, length};
ghost use Rattle.edit_state.specs.Answers.{Answers};
ghost use Rattle.edit_state.specs.StateEdits.{gone_to};
ghost use Rattle.edit_state.specs.WordMoves.{words_back, word_starts_ahead, word_ends_ahead};

use crate::{Done, EditState};
use text_doc::Doc;

impl EditState {
    /// Moves the cursor so many words back, to the start of a word.
    pub fn move_words_back(&mut self, count: u32, big: bool) -> Done
        ensures state { self.new ≡ gone_to self.old (words_back big self.old.buffer.doc count) }
        ensures done { Answers ⊥ result self.old self.new }
    {
        let at = words_back(self.buffer.doc(), count, big);
        self.go_to(at)
    }

    /// Moves the cursor so many words forward, to the end of a word.
    pub fn move_words_ahead(&mut self, count: u32, big: bool) -> Done
        ensures state { self.new
            ≡ gone_to self.old (word_ends_ahead big self.old.buffer.doc count) }
        ensures done { Answers ⊥ result self.old self.new }
    {
        let at = word_ends_ahead(self.buffer.doc(), count, big);
        self.go_to(at)
    }
}

/// Returns where a word starts, so many words before the cursor: 0 where there are fewer.
#[tactic(auto, using(crate::proofs::Steps::steps))]
pub fn words_back(doc: &Doc, count: u32, big: bool) -> usize
    ensures place { result ≡ words_back big doc.now count }
    ensures before { result ≤ doc.now.cursor }
    ensures within { result ≤ length doc.now.text }
{
    let mut at = doc.cursor();
    let mut left = count;
    while left > 0 {
        let next = doc.prev_word_from(at, big).unwrap_or(0);
        if next == at {
            return at;
        }
        at = next;
        left -= 1;
    }
    at
}

/// Returns where a word starts, so many words behind the cursor: the text's end where there are fewer.
#[tactic(auto, using(crate::proofs::Steps::steps))]
pub fn word_starts_ahead(doc: &Doc, count: u32, big: bool) -> usize
    ensures place { result ≡ word_starts_ahead big doc.now count }
    ensures behind { doc.now.cursor ≤ result }
    ensures within { result ≤ length doc.now.text }
{
    let end = doc.len();
    let mut at = doc.cursor();
    let mut left = count;
    while left > 0 {
        let next = doc.next_word_start_from(at, big).unwrap_or(end);
        if next == at {
            return at;
        }
        at = next;
        left -= 1;
    }
    at
}

/// Returns where a word ends, so many words behind the cursor: the text's end where there are fewer.
#[tactic(auto, using(crate::proofs::Steps::steps))]
pub fn word_ends_ahead(doc: &Doc, count: u32, big: bool) -> usize
    ensures place { result ≡ word_ends_ahead big doc.now count }
    ensures behind { doc.now.cursor ≤ result }
    ensures within { result ≤ length doc.now.text }
{
    let end = doc.len();
    let mut at = doc.cursor();
    let mut left = count;
    while left > 0 {
        let next = doc.next_word_end_from(at, big).unwrap_or(end);
        if next == at {
            return at;
        }
        at = next;
        left -= 1;
    }
    at
}
