//! The typed word, and blank texts.
ghost use Rattle.std.specs.Prelude.{◌≡◌, ◌≤◌, length, IfOk};
ghost use Rattle.std.specs.Char.{is_whitespace};
ghost use Rattle.std.specs.List.{list_all};
ghost use Rattle.completers.specs.Listed.{before_cursor};
ghost use Rattle.completers.specs.Typed.{is_of_word, typed_len, typed_word};

use text_doc::{Class, Doc, NoMemory, Text, class_of};

/// Returns the typed word: what stands right before the cursor.
pub fn typed_word(doc: &Doc) -> Result<Text, NoMemory>
    ensures word { IfOk result (λ word. word ≡ typed_word (before_cursor doc.now)) }
    ensures within { doc.now.cursor ≤ length doc.now.text }
{
    let end = doc.cursor();
    let word = doc.part(end - typed_len(doc), end)?;
    Ok(word)
}

/// Returns whether all characters are white space.
pub fn is_blank(text: &[char]) -> bool
    ensures { result ≡ list_all is_whitespace text.now }
{
    text.iter().all(|c| c.is_whitespace())
}

/// Returns how many characters the typed word has.
fn typed_len(doc: &Doc) -> usize
    ensures len { result ≡ typed_len (before_cursor doc.now) }
    ensures within { result ≤ doc.now.cursor }
{
    let end = doc.cursor();
    if end == 0 {
        return 0;
    }
    let last = doc.char_at(end - 1);
    let mut start = end;
    while start > 0 && is_of_word(last, doc.char_at(start - 1)) {
        start -= 1;
    }
    end - start
}

/// Returns whether `c` can stand in one word with `last`.
fn is_of_word(last: char, c: char) -> bool
    ensures { result ≡ is_of_word last c }
{
    matches!(
        (class_of(last, false), class_of(c, false)),
        (Class::Word, Class::Word) | (Class::Other, Class::Other)
    )
}
