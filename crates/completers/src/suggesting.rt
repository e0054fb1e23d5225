//! What a history suggests.
ghost use Rattle.std.specs.Prelude.{◌≡◌, ◌∷◌, [], IfOk};
ghost use Rattle.std.specs.Option.{option_copied, option_or};
ghost use Rattle.completers.specs.Suggested.{last_line, rest_of_line, rest_of_newest, suggestion};

use crate::typed::is_blank;
use std::alloc::Global;
use text_doc::{Doc, Lines, NoMemory, Text, cut_line};

/// Returns what the history suggests to put behind the text: the rest, which may be empty, of the newest line that starts
/// with the text's last line. `None` where no line does, and where the last line is empty or all white space.
///
/// The newest entry of the history is the last, and of an entry the last line is the newest. Each entry is gone through
/// once, from the newest to the one that has the line.
pub fn suggest(alloc: Global, history: &Lines, doc: &Doc) -> Result<Option<Text>, NoMemory>
    ensures { IfOk result (λ text. text ≡ suggestion history.now doc.now.text) }
{
    let line = last_line(doc)?;
    if is_blank(line.as_slice()) {
        return Ok(None);
    }
    match newest_rest(history.as_slice(), line.as_slice()) {
        Some(rest) => {
            let text = Text::from_slice(alloc, rest)?;
            Ok(Some(text))
        }
        None => Ok(None),
    }
}

/// Returns what stands behind the last line feed.
fn last_line(doc: &Doc) -> Result<Text, NoMemory>
    ensures { IfOk result (λ line. line ≡ last_line doc.now.text) }
{
    let mut start = doc.len();
    while start > 0 && doc.char_at(start - 1) != '\n' {
        start -= 1;
    }
    let line = doc.part(start, doc.len())?;
    Ok(line)
}

/// Returns the rest of the newest line that starts with `line`.
fn newest_rest<'a>(history: &'a [Text], line: &[char]) -> Option<&'a [char]>
    ensures { option_copied result ≡ rest_of_newest history.now line.now }
{
    for at in (0..history.len()).rev() {
        let found = last_rest(history[at].as_slice(), line);
        if found.is_some() {
            return found;
        }
    }
    None
}

/// Returns the rest of the last line of an entry that starts with `line`.
fn last_rest<'a>(entry: &'a [char], line: &[char]) -> Option<&'a [char]>
    ensures { option_copied result ≡ rest_of_newest (entry.now ∷ []) line.now }
{
    let mut found = None;
    let mut left = entry;
    while let Some((old, rest)) = cut_line(left) {
        found = newer_rest(found, old, line);
        left = rest;
    }
    newer_rest(found, left, line)
}

/// Returns the rest of the line `old` where it starts with `line`, or else what was found before.
fn newer_rest<'a>(found: Option<&'a [char]>, old: &'a [char], line: &[char]) -> Option<&'a [char]>
    ensures { option_copied result
        ≡ option_or (rest_of_line line.now old.entry.now) (option_copied found.entry) }
{
    if old.starts_with(line) {
        Some(&old[line.len()..])
    } else {
        found
    }
}
