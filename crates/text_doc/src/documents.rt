//! A document. A clause sees it as a `Document`: its text, its cursor and its mark.
ghost use Rattle.std.specs.Prelude.{◌≡◌, ◌+◌, ◌^◌, ◌<◌, ◌≤◌, ◌↔◌, ◌++◌, [], length, take, drop, slice_index, slice_range, option_map, IfOk, IsTrue, OnOk, OnErr};
ghost use Rattle.std.specs.Option.{ForSome};
ghost use Rattle.text_doc.specs.Document.{IsDocument, SameTextAndCursor};
ghost use Rattle.text_doc.specs.Edits.{inserted, mark_after_insert, deleted, place_after_delete};

use crate::indexed_texts::IndexedText;
use crate::{InsertFault, NoMemory, Text};
use std::alloc::Global;
use std::marker::Model;

/// The most characters that a document can have.
pub const MAX_LENGTH: usize = 32_768;

/// A text of at most `MAX_LENGTH` characters with a cursor and perhaps a mark. Both are places, counted in characters.
#[derive(Debug, Drop)]
pub struct Doc {
    text: IndexedText,
    cursor: usize,
    mark: Option<usize>,
}

impl Model for Doc {
    ghost use Rattle.text_doc.specs.Document.{Document, IsDocument};

    ghost Value = { Document };

    ghost view = { λ d. record { text = d.text; cursor = d.cursor; mark = d.mark } };

    ghost invariant = { λ d. IsDocument (record { text = d.text; cursor = d.cursor; mark = d.mark }) };
}

impl Doc {
    /// Returns a document of this text without a mark, in the text's memory. Its row starts take memory of their own.
    pub fn new(alloc: Global, text: Text, cursor: usize) -> Result<Doc, NoMemory>
        requires place { cursor ≤ length text }
        requires short { length text ≤ 32768 }
        ensures value { IfOk result (λ doc. doc
            ≡ record { text = text; cursor = cursor; mark = None }) }
        ensures document { IfOk result IsDocument }
    {
        let text = IndexedText::new(alloc, text)?;
        Ok(Doc {
            text,
            cursor,
            mark: None,
        })
    }

    /// Takes this text in exchange for its own, which `text` then holds, with the cursor at this place of it and
    /// without a mark. No character is copied; the row starts of the new text take memory.
    pub fn exchange(&mut self, text: &mut Text, cursor: usize) -> Result<(), NoMemory>
        requires place { cursor ≤ length text.old }
        requires short { length text.old ≤ 32768 }
        ensures ok { OnOk result (self.new
            ≡ record { text = text.old; cursor = cursor; mark = None }) }
        ensures text { OnOk result (text.new ≡ self.old.text) }
        ensures err { OnErr result (self.new ≡ self.old) }
        ensures text_stays { OnErr result (text.new ≡ text.old) }
        ensures document { IsDocument self.new }
    {
        self.text.exchange(text)?;
        self.cursor = cursor;
        self.mark = None;
        Ok(())
    }

    /// Returns an equal document, its mark included.
    pub fn copy(&self) -> Result<Doc, NoMemory>
        ensures value { IfOk result (λ copy. copy ≡ self.now) }
        ensures document { IfOk result IsDocument }
    {
        let text = self.text.copy()?;
        Ok(Doc {
            text,
            cursor: self.cursor,
            mark: self.mark,
        })
    }

    /// Returns the number of characters.
    pub fn len(&self) -> usize
        ensures len { result ≡ length self.now.text }
        ensures document { IsDocument self.now }
    {
        self.text.len()
    }

    /// Returns whether there is no character.
    pub fn is_empty(&self) -> bool
        ensures { IsTrue result ↔ (self.now.text ≡ []) }
    {
        self.text.len() == 0
    }

    /// Returns whether text and cursor are equal to those of `other`. The marks may differ.
    pub fn is_same(&self, other: &Doc) -> bool
        ensures { IsTrue result ↔ SameTextAndCursor self.now other.now }
    {
        self.cursor == other.cursor && self.text.is_same(&other.text)
    }

    /// Returns whether the text is equal to that of `other`. The cursors and the marks may differ.
    pub fn is_same_text(&self, other: &Doc) -> bool
        ensures { IsTrue result ↔ (self.now.text ≡ other.now.text) }
    {
        self.text.is_same(&other.text)
    }

    /// Returns whether the text is these characters.
    pub fn has_text(&self, chars: &[char]) -> bool
        ensures { IsTrue result ↔ (self.now.text ≡ chars.now) }
    {
        self.text.equals(chars)
    }

    /// Returns the character at the place `at`.
    pub fn char_at(&self, at: usize) -> char
        requires { at < length self.now.text }
        ensures { result ≡ slice_index self.now.text at }
    {
        self.text.char_at(at)
    }

    /// Returns the characters of the text as two slices, of which the second follows on the first. Where the text is
    /// cut is not said, and each edit may cut it elsewhere.
    pub fn parts(&self) -> (&[char], &[char])
        ensures parts { result.0.now ++ result.1.now ≡ self.now.text }
        ensures document { IsDocument self.now }
    {
        self.text.parts()
    }

    /// Returns a copy of the text.
    pub fn text(&self) -> Result<Text, NoMemory>
        ensures { IfOk result (λ text. text ≡ self.now.text) }
    {
        self.part(0, self.len())
    }

    /// Returns the cursor's place.
    pub fn cursor(&self) -> usize
        ensures cursor { result ≡ self.now.cursor }
        ensures document { IsDocument self.now }
    {
        self.cursor
    }

    /// Returns the mark's place.
    pub fn mark(&self) -> Option<usize>
        ensures mark { result ≡ self.now.mark }
        ensures document { IsDocument self.now }
    {
        self.mark
    }

    /// Moves the cursor.
    pub fn set_cursor(&mut self, at: usize)
        requires { at ≤ length self.old.text }
        ensures moved { self.new ≡ record self.old { cursor = at } }
        ensures document { IsDocument self.new }
    {
        self.cursor = at;
    }

    /// Sets the mark, or takes it away.
    pub fn set_mark(&mut self, at: Option<usize>)
        requires { ForSome at (λ place. place ≤ length self.old.text) }
        ensures marked { self.new ≡ record self.old { mark = at } }
        ensures document { IsDocument self.new }
    {
        self.mark = at;
    }

    /// Puts characters at the cursor, which then stands behind them. A mark above the cursor's old place moves along.
    pub fn insert(&mut self, chars: &[char]) -> Result<(), InsertFault>
        ensures ok { OnOk result (self.new ≡ inserted self.old chars.now) }
        ensures err { OnErr result (self.new ≡ self.old) }
        ensures too_long { (result
            ≡ Err InsertFault.TooLong) ↔ (32768 < length self.old.text + length chars.now) }
        ensures document { IsDocument self.new }
    {
        if chars.len() > MAX_LENGTH - self.text.len() {
            return Err(InsertFault::TooLong);
        }
        self.text.insert(self.cursor, chars)?;
        self.mark = moved_mark(self.mark, self.cursor, chars.len());
        self.cursor += chars.len();
        Ok(())
    }

    /// Deletes the characters from `from` up to and without `to`. A cursor or mark among them goes to `from`.
    pub fn delete(&mut self, from: usize, to: usize)
        requires ordered { from ≤ to }
        requires range { to ≤ length self.old.text }
        ensures deleted { self.new ≡ deleted self.old from to }
        ensures document { IsDocument self.new }
    {
        self.text.delete(from, to);
        self.cursor = place_after_delete(self.cursor, from, to);
        self.mark = match self.mark {
            Some(place) => Some(place_after_delete(place, from, to)),
            None => None,
        };
    }

    /// Deletes as `delete` does, and returns the deleted characters.
    pub fn cut(&mut self, from: usize, to: usize) -> Result<Text, NoMemory>
        requires ordered { from ≤ to }
        requires range { to ≤ length self.old.text }
        ensures text { IfOk result (λ text. text ≡ slice_range self.old.text from to) }
        ensures ok { OnOk result (self.new ≡ deleted self.old from to) }
        ensures err { OnErr result (self.new ≡ self.old) }
        ensures document { IsDocument self.new }
    {
        let text = self.part(from, to)?;
        self.delete(from, to);
        Ok(text)
    }

    /// Returns the characters from `from` up to and without `to`.
    pub fn part(&self, from: usize, to: usize) -> Result<Text, NoMemory>
        requires ordered { from ≤ to }
        requires range { to ≤ length self.now.text }
        ensures part { IfOk result (λ text. text ≡ slice_range self.now.text from to) }
        ensures document { IsDocument self.now }
    {
        self.text.part(from, to)
    }

    /// Returns the text for the walks along it.
    pub(crate) fn indexed(&self) -> &IndexedText
        ensures text { result.now ≡ self.now.text }
        ensures document { IsDocument self.now }
    {
        &self.text
    }
}

fn moved_mark(mark: Option<usize>, at: usize, count: usize) -> Option<usize>
    requires { ForSome mark (λ m. m + count < 2 ^ 64) }
    ensures { result ≡ option_map (mark_after_insert at count) mark }
{
    match mark {
        Some(place) if place > at => Some(place + count),
        _ => mark,
    }
}

fn place_after_delete(place: usize, from: usize, to: usize) -> usize
    requires { from ≤ to }
    ensures { result ≡ place_after_delete from to place }
{
    if place < to {
        place.min(from)
    } else {
        place - (to - from)
    }
}
