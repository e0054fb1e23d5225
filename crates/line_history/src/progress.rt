//! How the lines of a history file become entries, one line after the other.
ghost use Rattle.std.specs.Prelude.{◌≡◌, ◌+◌, ◌≤◌, ◌++◌, [], ◌∷◌, List, ℕ, Option, None, true, length, IfOk, OnOk};
ghost use Rattle.std.specs.Option.{ForSome};
ghost use Rattle.bstr.specs.Utf8.{lossy_chars};
ghost use Rattle.text_doc.specs.declared.documents.TheConstants.{MAX_LENGTH};
ghost use Rattle.line_history.specs.Reading.{after_line, before_line, ended, extended, front};

use bstr::ByteSlice;
use std::alloc::Global;
use std::marker::Model;
use text_doc::{Lines, MAX_LENGTH, NoMemory, Text};

/// The entries of the lines that were read so far. Of an entry that is too long only the front is held.
#[derive(Drop)]
pub(crate) struct Reader {
    entries: Lines,
    unfinished: Option<Text>,
}

impl Model for Reader {
    ghost use Rattle.std.specs.Prelude.{◌+◌, ◌≤◌, length};
    ghost use Rattle.std.specs.Option.{ForSome};
    ghost use Rattle.text_doc.specs.declared.documents.TheConstants.{MAX_LENGTH};
    ghost use Rattle.line_history.specs.Reading.{Progress};

    ghost Value = { Progress };

    ghost view = { λ r. record { entries = r.entries; unfinished = r.unfinished } };

    ghost invariant = { λ r. ForSome r.unfinished (λ text. length text ≤ MAX_LENGTH + 1) };
}

impl Reader {
    /// Makes a reader that has read no line yet.
    pub(crate) fn new(alloc: Global) -> Reader
        ensures { result ≡ record { entries = []; unfinished = None } }
    {
        Reader {
            entries: Lines::new(alloc),
            unfinished: None,
        }
    }

    /// Reads one line, without its line feed.
    pub(crate) fn take_line(&mut self, line: &[u8]) -> Result<(), NoMemory>
        ensures { OnOk result (self.new ≡ after_line self.old line.now) }
    {
        match line {
            [b'+', chars @ ..] => {
                let text = extended_text(self.entries.allocator(), self.unfinished.take(), chars)?;
                self.unfinished = Some(text);
                Ok(())
            }
            _ => self.end_entry(),
        }
    }

    /// Ends the unfinished entry, if there is one: it is kept where it is not too long.
    fn end_entry(&mut self) -> Result<(), NoMemory>
        ensures { OnOk result (self.new ≡ record { entries = ended self.old; unfinished = None }) }
    {
        if let Some(text) = self.unfinished.take() {
            if text.len() <= MAX_LENGTH {
                self.entries.push(text)?;
            }
        }
        Ok(())
    }

    /// Returns the entries, where no line follows.
    pub(crate) fn finish(mut self) -> Result<Lines, NoMemory>
        ensures { IfOk result (λ entries. entries ≡ ended self) }
    {
        self.end_entry()?;
        let Reader {
            entries,
            unfinished: _,
        } = self;
        Ok(entries)
    }
}

/// Puts one more line in UTF-8 behind an unfinished text, or behind none.
fn extended_text(alloc: Global, unfinished: Option<Text>, line: &[u8]) -> Result<Text, NoMemory>
    requires { ForSome unfinished (λ text. length text ≤ MAX_LENGTH + 1) }
    ensures text { IfOk result (λ text. text ≡ extended unfinished (lossy_chars line.now)) }
    ensures within { IfOk result (λ text. length text ≤ MAX_LENGTH + 1) }
{
    let mut text = begun_line(alloc, unfinished)?;
    push_chars(&mut text, line)?;
    Ok(text)
}

/// Returns what the next line of an entry is put behind: the text before it and a line feed, or nothing.
fn begun_line(alloc: Global, unfinished: Option<Text>) -> Result<Text, NoMemory>
    requires { ForSome unfinished (λ text. length text ≤ MAX_LENGTH + 1) }
    ensures text { IfOk result (λ text. text ≡ front (before_line unfinished)) }
    ensures within { IfOk result (λ text. length text ≤ MAX_LENGTH + 1) }
{
    let Some(mut text) = unfinished else {
        return Ok(Text::new(alloc));
    };
    if text.len() > MAX_LENGTH {
        return Ok(text);
    }
    text.push('\n')?;
    Ok(text)
}

/// Puts characters in UTF-8 behind a text, up to one more than a document may have.
fn push_chars(text: &mut Text, bytes: &[u8]) -> Result<(), NoMemory>
    requires { length text.old ≤ MAX_LENGTH + 1 }
    ensures text { OnOk result (text.new ≡ front (text.old ++ lossy_chars bytes.now)) }
    ensures within { OnOk result (length text.new ≤ MAX_LENGTH + 1) }
{
    for c in bytes.chars() {
        if text.len() > MAX_LENGTH {
            return Ok(());
        }
        text.push(c)?;
    }
    Ok(())
}
