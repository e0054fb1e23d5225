//! Commands that insert: typed characters, pasted text, new rows and the suggestion.
ghost use Rattle.std.specs.Prelude.{◌≡◌, ◌∷◌, ◌==◌, ◌||◌, ◌≤◌, length, IfOk, OnOk, OnErr};
ghost use Rattle.std.specs.List.{prefix_len};
ghost use Rattle.edit_state.specs.Answers.{Answers};
ghost use Rattle.edit_state.specs.StateEdits.{IsTooLong};
ghost use Rattle.edit_cmds.specs.Inserting.{self_insert, IsSelfInsertTooLong, insert_text, is_blank, indent, newline, insert_suggestion, IsTooLongSuggestion};

use edit_state::{Done, EditState, NoMemory, amount_in};
use key_names::{Key, KeyPress};
use std::alloc::Global;
use text_doc::{Doc, Text};

/// Inserts a typed character as often as the argument says.
pub fn self_insert(state: &mut EditState, alloc: Global, key: &KeyPress) -> Result<Done, NoMemory>
    ensures state { OnOk result (state.new ≡ self_insert key.now.key state.old) }
    ensures err { OnErr result (state.new ≡ state.old) }
    ensures done { IfOk result (λ done. Answers (IsSelfInsertTooLong key.now.key state.old) done state.old state.new) }
{
    match key.key {
        Key::Char(c) => {
            let times = amount_in(&state.arg).times();
            state.insert(alloc, &[c], times)
        }
        _ => Ok(Done::Same),
    }
}

/// Inserts the characters that were read for a key, or those of a paste.
pub fn insert_text(state: &mut EditState, alloc: Global, key: &KeyPress) -> Result<Done, NoMemory>
    ensures state { OnOk result (state.new ≡ insert_text key.now.text state.old) }
    ensures err { OnErr result (state.new ≡ state.old) }
    ensures done { IfOk result (λ done. Answers (IsTooLong state.old key.now.text 1) done state.old state.new) }
{
    state.insert(alloc, key.text.as_slice(), 1)
}

/// Starts a new row with the spaces and tabs that the cursor's row starts with.
pub fn newline(state: &mut EditState, alloc: Global) -> Result<Done, NoMemory>
    ensures state { OnOk result (state.new ≡ newline state.old) }
    ensures err { OnErr result (state.new ≡ state.old) }
    ensures done { IfOk result (λ done. Answers (IsTooLong state.old (10 ∷ indent state.old.buffer.doc) 1) done state.old state.new) }
{
    let text = row_opening(alloc, state.buffer.doc())?;
    state.insert(alloc, text.as_slice(), 1)
}

/// Inserts the suggestion.
pub fn insert_suggestion(state: &mut EditState, alloc: Global) -> Result<Done, NoMemory>
    ensures state { OnOk result (state.new ≡ insert_suggestion state.old) }
    ensures err { OnErr result (state.new ≡ state.old) }
    ensures done { IfOk result (λ done. Answers (IsTooLongSuggestion state.old.suggestion state.old) done state.old state.new) }
{
    let text = match &state.suggestion {
        Some(text) => text.copy()?,
        None => return Ok(Done::Same),
    };
    state.insert(alloc, text.as_slice(), 1)
}

/// Returns a line feed and the indent of the cursor's row.
fn row_opening(alloc: Global, doc: &Doc) -> Result<Text, NoMemory>
    ensures { IfOk result (λ text. text ≡ 10 ∷ indent doc.now) }
{
    let row = doc.part(doc.line_start(), doc.cursor())?;
    let blanks = count_blanks(row.as_slice());
    let mut text = Text::from_chars(alloc, &['\n'])?;
    text.extend_from_slice(&row.as_slice()[..blanks])?;
    Ok(text)
}

/// Returns how many spaces and tabs the characters start with.
pub(crate) fn count_blanks(chars: &[char]) -> usize
    ensures count { result ≡ prefix_len is_blank chars.now }
    ensures within { result ≤ length chars.now }
{
    chars.iter().take_while(|c| is_blank(**c)).count()
}

/// Tells whether a character is a space or a tab.
pub(crate) fn is_blank(c: char) -> bool
    ensures { result ≡ is_blank c }
{
    c == ' ' || c == '\t'
}
