//! Commands that put other characters in place of some, and the one that deletes spaces.
ghost use Rattle.std.specs.Prelude.{◌≡◌, ◌≤◌, ◌+◌, ◌++◌, false, length, IfOk, OnOk, OnErr};
ghost use Rattle.std.specs.Option.{ForSome};
ghost use Rattle.edit_state.specs.Answers.{Answers};
ghost use Rattle.edit_state.specs.WordMoves.{word_end_ahead, word_ends_ahead};
ghost use Rattle.edit_cmds.specs.Rewriting.{pair_place, transpose_chars, char_cased, cased, words_cased, case_words, blanks_start, blanks_end, delete_horizontal_space};

use crate::inserting::is_blank;
use edit_state::{Done, EditState, NoMemory, amount_in};
use std::alloc::Global;
use text_doc::{Doc, Text};

/// How the letters of words are changed.
#[derive(Clone, Copy, Debug, PartialEq, Eq)]
pub enum Case {
    Upper,
    Lower,
    /// The first letter in upper case and the others in lower case.
    Capital,
}

/// Lets the two characters before the cursor change places at the end of a row, and else those around it.
pub fn transpose_chars(state: &mut EditState, alloc: Global) -> Result<Done, NoMemory>
    ensures state { OnOk result (state.new ≡ transpose_chars state.old) }
    ensures err { OnErr result (state.new ≡ state.old) }
    ensures done { IfOk result (λ done. Answers ⊥ done state.old state.new) }
{
    let doc = state.buffer.doc();
    match pair_place(doc) {
        None => Ok(Done::Same),
        Some(at) => {
            let pair = [doc.char_at(at + 1), doc.char_at(at)];
            let text = Text::from_chars(alloc, &pair)?;
            state.replace(at, text)
        }
    }
}

fn pair_place(doc: &Doc) -> Option<usize>
    ensures place { result ≡ pair_place doc.now }
    ensures within { ForSome result (λ at. at + 2 ≤ length doc.now.text) }
{
    let cursor = doc.cursor();
    let end = doc.line_end();
    if cursor == 0 {
        None
    } else if end > cursor {
        Some(cursor - 1)
    } else if cursor < 2 {
        None
    } else {
        Some(cursor - 2)
    }
}

/// Changes the case of the letters up to the end of a word, as many words as the argument says.
pub fn case_words(state: &mut EditState, alloc: Global, case: Case) -> Result<Done, NoMemory>
    ensures state { OnOk result (state.new ≡ case_words case state.old) }
    ensures err { OnErr result (state.new ≡ state.old) }
    ensures done { IfOk result (λ done. Answers ⊥ done state.old state.new) }
{
    let count = amount_in(&state.arg).count();
    let from = state.buffer.doc().cursor();
    let text = words_cased(state.buffer.doc(), alloc, count, case)?;
    state.replace(from, text)
}

/// Returns the words from the cursor on in another case.
fn words_cased(doc: &Doc, alloc: Global, count: u32, case: Case) -> Result<Text, NoMemory>
    ensures text { IfOk result (λ text. text
        ≡ words_cased case doc.now.text doc.now.cursor count) }
    ensures end { IfOk result (λ text. doc.now.cursor + length text
        ≡ word_ends_ahead false doc.now count) }
    ensures within { IfOk result (λ text. doc.now.cursor + length text
        ≤ length doc.now.text) }
{
    let mut text = Text::new(alloc);
    let mut at = doc.cursor();
    let mut left = count;
    while left > 0 {
        let end = word_end_from(doc, at);
        if end == at {
            return Ok(text);
        }
        let word = doc.part(at, end)?;
        push_cased(&mut text, word.as_slice(), case)?;
        at = end;
        left -= 1;
    }
    Ok(text)
}

/// Returns the end of the word behind a place, or that of the text.
fn word_end_from(doc: &Doc, at: usize) -> usize
    requires { at ≤ length doc.now.text }
    ensures place { result ≡ word_end_ahead false doc.now.text at }
    ensures behind { at ≤ result }
    ensures within { result ≤ length doc.now.text }
{
    doc.next_word_end_from(at, false).unwrap_or(doc.len())
}

/// Puts characters in another case behind a text.
fn push_cased(text: &mut Text, chars: &[char], case: Case) -> Result<(), NoMemory>
    ensures text { IfOk result (λ _. text.new ≡ text.old ++ cased case chars.now) }
    ensures length { IfOk result (λ _. length text.new ≡ length text.old + length chars.now) }
{
    let mut begun = false;
    for c in chars {
        text.push(char_cased(case, begun, *c))?;
        begun = begun || c.is_ascii_alphabetic();
    }
    Ok(())
}

fn char_cased(case: Case, begun: bool, c: char) -> char
    ensures { result ≡ char_cased case begun c }
{
    match case {
        Case::Upper => c.to_ascii_uppercase(),
        Case::Lower => c.to_ascii_lowercase(),
        Case::Capital if begun => c.to_ascii_lowercase(),
        Case::Capital => c.to_ascii_uppercase(),
    }
}

/// Deletes the spaces and tabs around the cursor.
pub fn delete_horizontal_space(state: &mut EditState) -> Done
    ensures state { state.new ≡ delete_horizontal_space state.old }
    ensures done { Answers ⊥ result state.old state.new }
{
    let from = blanks_start(state.buffer.doc());
    let to = blanks_end(state.buffer.doc());
    state.delete(from, to)
}

#[tactic(auto, using(crate::proofs::Blanks::blanks))]
fn blanks_start(doc: &Doc) -> usize
    ensures place { result ≡ blanks_start doc.now }
    ensures before { result ≤ doc.now.cursor }
{
    let mut at = doc.cursor();
    while at > 0 {
        if !is_blank(doc.char_at(at - 1)) {
            return at;
        }
        at -= 1;
    }
    at
}

#[tactic(auto, using(crate::proofs::Blanks::blanks))]
fn blanks_end(doc: &Doc) -> usize
    ensures place { result ≡ blanks_end doc.now }
    ensures behind { doc.now.cursor ≤ result }
    ensures within { result ≤ length doc.now.text }
{
    let end = doc.len();
    let mut at = doc.cursor();
    while at < end {
        if !is_blank(doc.char_at(at)) {
            return at;
        }
        at += 1;
    }
    at
}
