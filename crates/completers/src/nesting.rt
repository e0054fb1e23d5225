//! Options with inner words, by what stands before the cursor.
ghost use Rattle.std.specs.Prelude.{◌≡◌, ◌≤◌, ◌++◌, false, not, length, map, filter, OnOk};
ghost use Rattle.std.specs.Option.{option_copied};
ghost use Rattle.std.specs.Char.{is_whitespace};
ghost use Rattle.std.specs.List.{prefix_len, position_or_len};
ghost use Rattle.completers.specs.Typed.{typed_word};
ghost use Rattle.completers.specs.Words.{fits, completion};
ghost use Rattle.completers.specs.Nested.{trimmed, has_space, nested_items, option_of, words_of};

use crate::NestedOption;
use crate::matching::put_words;
use std::alloc::Global;
use text_doc::{Completion, Lines, NoMemory, Text};

/// Puts the completions that options give behind the others. What is typed is the typed word of the text before the
/// cursor.
pub fn put_nested(
    alloc: Global,
    items: &mut Vec<Completion>,
    options: &[NestedOption],
    before: &[char],
    typed: &[char],
) -> Result<(), NoMemory>
    requires { typed.now ≡ typed_word before.now }
    ensures { OnOk result (items.new.items ≡ items.old.items
        ++ nested_items options.now before.now) }
{
    let text = trimmed(before);
    if !has_space(text) {
        put_names(alloc, items, options, typed)?;
        return Ok(());
    }
    let name = &text[..run_len(text)];
    if let Some(words) = words_of(options, name) {
        put_words(alloc, items, words.as_slice(), false, typed)?;
    }
    Ok(())
}

/// Puts the completions of those names that start with what is typed behind the others.
fn put_names(
    alloc: Global,
    items: &mut Vec<Completion>,
    options: &[NestedOption],
    typed: &[char],
) -> Result<(), NoMemory>
    ensures { OnOk result (items.new.items ≡ items.old.items
        ++ map (completion (length typed.now)) (filter (fits false typed.now)
        (map (λ option. option.name) options.now))) }
{
    for option in options {
        let name = option.name.as_slice();
        if name.starts_with(typed) {
            let text = Text::from_slice(alloc, name)?;
            items.push(Completion {
                text,
                back: typed.len(),
            })?;
        }
    }
    Ok(())
}

/// Returns the inner words of the first option with this name.
fn words_of<'a>(options: &'a [NestedOption], name: &[char]) -> Option<&'a Lines>
    ensures { option_copied result ≡ words_of (option_of name.now options.now) }
{
    for option in options {
        if option.name.as_slice() == name {
            return option.words.as_ref();
        }
    }
    None
}

fn trimmed(text: &[char]) -> &[char]
    ensures { result.now ≡ trimmed text.now }
{
    &text[white_len(text)..]
}

fn has_space(text: &[char]) -> bool
    ensures { result ≡ has_space text.now }
{
    text.iter().any(|c| *c == ' ')
}

/// Returns how many characters at the start are white space.
fn white_len(text: &[char]) -> usize
    ensures len { result ≡ prefix_len is_whitespace text.now }
    ensures within { result ≤ length text.now }
{
    text.iter().take_while(|c| c.is_whitespace()).count()
}

/// Returns how many characters at the start are no white space.
fn run_len(text: &[char]) -> usize
    ensures len { result ≡ position_or_len is_whitespace text.now }
    ensures within { result ≤ length text.now }
{
    text.iter().take_while(|c| !c.is_whitespace()).count()
}
