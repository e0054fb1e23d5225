//! The bytes of an entry.
ghost use Rattle.std.specs.Prelude.{◌≡◌, ◌++◌, ◌≤◌, [], ◌∷◌, List, ℕ, true, length, IfOk, OnOk, string_bytes};
ghost use Rattle.text_doc.specs.declared.documents.TheConstants.{MAX_LENGTH};
ghost use Rattle.line_history.specs.History.{entries_of, entry_bytes};
ghost use Rattle.line_history.specs.Writing.{char_bytes};
ghost use lib.Utf8.{scalar};

use std::alloc::Global;
use text_doc::{Bytes, NoMemory, Text};

/// Returns the bytes that put an entry behind the others of a history file: a line feed, a comment with the moment in
/// milliseconds, and the entry's lines in UTF-8, each behind a `+`.
///
/// They grow any file by the entry, also one that was cut off in the middle of an entry. An entry of more than
/// `text_doc::MAX_LENGTH` characters is written too, and passed over where the file is read.
pub fn entry_text(alloc: Global, entry: &Text, moment: u64) -> Result<Bytes, NoMemory>
    ensures bytes { IfOk result (λ bytes. bytes ≡ entry_bytes entry.now moment) }
    ensures reads_back { IfOk result (λ bytes. length entry.now ≤ MAX_LENGTH
        → entries_of bytes ≡ entry.now ∷ []) }
    ensures grows { IfOk result (λ bytes. (file : List ℕ) → length entry.now ≤ MAX_LENGTH
        → entries_of (file ++ bytes) ≡ entries_of file ++ entry.now ∷ []) }
{
    let mut words = format!(in alloc; "\n# {moment}\n+")?;
    for c in entry.as_slice() {
        push_char(&mut words, *c)?;
    }
    words.push('\n')?;
    Ok(Bytes::from_vec(words.into_bytes()))
}

/// Puts a character of an entry behind what is written.
fn push_char(words: &mut String, c: char) -> Result<(), NoMemory>
    ensures bytes { OnOk result (string_bytes words.new ≡ string_bytes words.old ++ char_bytes c) }
    ensures scalar { OnOk result (scalar c ≡ true) }
{
    words.push(c)?;
    if c == '\n' {
        words.push('+')?;
    }
    Ok(())
}
