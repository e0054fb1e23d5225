//! Words that fit what is typed.
ghost use Rattle.std.specs.Prelude.{◌≡◌, ◌++◌, true, false, [], ◌∷◌, length, map, filter, OnOk};
ghost use Rattle.completers.specs.Marked.{marked};
ghost use Rattle.completers.specs.Words.{fits, completion};

use memchr::memmem::Finder;
use std::alloc::Global;
use text_doc::{Completion, NoMemory, Text};

/// Puts the completions of those words that fit what is typed behind the others.
pub fn put_words(
    alloc: Global,
    items: &mut Vec<Completion>,
    words: &[Text],
    middle: bool,
    typed: &[char],
) -> Result<(), NoMemory>
    ensures { OnOk result (items.new.items ≡ items.old.items
        ++ map (completion (length typed.now)) (filter (fits middle typed.now) words.now)) }
{
    if middle {
        put_containing(alloc, items, words, typed)?;
    } else {
        put_starting(alloc, items, words, typed)?;
    }
    Ok(())
}

/// Puts the completions of those words that start with what is typed behind the others.
fn put_starting(
    alloc: Global,
    items: &mut Vec<Completion>,
    words: &[Text],
    typed: &[char],
) -> Result<(), NoMemory>
    ensures { OnOk result (items.new.items ≡ items.old.items
        ++ map (completion (length typed.now)) (filter (fits false typed.now) words.now)) }
{
    for text in words {
        let word = text.as_slice();
        if word.starts_with(typed) {
            put_word(alloc, items, word, typed.len())?;
        }
    }
    Ok(())
}

/// Puts the completions of those words that contain what is typed behind the others. One searcher and one buffer serve
/// for all words.
fn put_containing(
    alloc: Global,
    items: &mut Vec<Completion>,
    words: &[Text],
    typed: &[char],
) -> Result<(), NoMemory>
    ensures { OnOk result (items.new.items ≡ items.old.items
        ++ map (completion (length typed.now)) (filter (fits true typed.now) words.now)) }
{
    let mut needle = Vec::new(alloc);
    write_marked(&mut needle, typed)?;
    let finder = Finder::new(needle.as_slice());
    let mut bytes = Vec::new(alloc);
    for text in words {
        let word = text.as_slice();
        write_marked(&mut bytes, word)?;
        if finder.find(bytes.as_slice()).is_some() {
            put_word(alloc, items, word, typed.len())?;
        }
    }
    Ok(())
}

/// Puts the completion of a word behind the others.
fn put_word(
    alloc: Global,
    items: &mut Vec<Completion>,
    word: &[char],
    back: usize,
) -> Result<(), NoMemory>
    ensures { OnOk result (items.new.items ≡ items.old.items ++ completion back word.now ∷ []) }
{
    let text = Text::from_slice(alloc, word)?;
    items.push(Completion { text, back })?;
    Ok(())
}

/// Writes the bytes of a text in place of what the buffer held: three for each character, of which only the first has its
/// high bit set. So where the bytes of a text occur among those of another, no occurrence begins within a character.
fn write_marked(bytes: &mut Vec<u8>, text: &[char]) -> Result<(), NoMemory>
    ensures { OnOk result (bytes.new.items ≡ marked text.now) }
{
    bytes.clear();
    for c in text {
        let code = *c as u32;
        let high = code / 128;
        bytes.extend_from_slice(&[
            128 + (high / 128) as u8,
            (high % 128) as u8,
            (code % 128) as u8,
        ])?;
    }
    Ok(())
}
