//! A text that is edited in place. A clause sees it as the list of its characters.
ghost use Rattle.std.specs.Prelude.{◌≡◌, ◌+◌, ◌-◌, ◌<◌, ◌≤◌, ◌↔◌, ◌++◌, List, ℕ, length, take, drop, slice_index, slice_range, IfOk, IsTrue, OnOk, OnErr};
ghost use Rattle.text_doc.specs.Rows.{row_of};
ghost use Rattle.text_doc.specs.RowStarts.{row_starts};

use crate::gap_buffers::GapBuffer;
use crate::{NoMemory, Text, comparing, row_starts};
use std::alloc::Global;
use std::marker::Model;

/// The characters of a document with their row starts. Both have a gap at the place of the last edit, and an edit there
/// moves nothing else.
#[derive(Debug, Drop)]
pub struct IndexedText {
    chars: GapBuffer<char>,
    starts: GapBuffer<usize>,
}

impl Model for IndexedText {
    ghost use Rattle.std.specs.Prelude.{List, ℕ};
    ghost use Rattle.text_doc.specs.Gap.{joined};
    ghost use Rattle.text_doc.specs.RowStarts.{IsIndexed};

    ghost Value = { List ℕ };

    ghost view = { λ t. joined t.chars };

    ghost invariant = { λ t. IsIndexed t.chars t.starts };
}

impl IndexedText {
    /// Returns this text, in its memory, with its row starts.
    pub fn new(alloc: Global, text: Text) -> Result<IndexedText, NoMemory>
        requires { length text ≤ 32768 }
        ensures { IfOk result (λ indexed. indexed ≡ text) }
    {
        let starts = row_starts::starts_of(alloc, text.as_slice())?;
        Ok(IndexedText {
            chars: GapBuffer::new(text),
            starts,
        })
    }

    /// Returns an equal text.
    pub fn copy(&self) -> Result<IndexedText, NoMemory>
        ensures { IfOk result (λ copy. copy ≡ self.now) }
    {
        let chars = self.chars.copy()?;
        let starts = self.starts.copy()?;
        Ok(IndexedText { chars, starts })
    }

    /// Takes this text in exchange for its own, which `text` then holds. No character is copied; the row starts of the
    /// new text are found first, which takes memory.
    pub fn exchange(&mut self, text: &mut Text) -> Result<(), NoMemory>
        requires { length text.old ≤ 32768 }
        ensures ok { OnOk result (self.new ≡ text.old) }
        ensures text { OnOk result (text.new ≡ self.old) }
        ensures err { OnErr result (self.new ≡ self.old) }
        ensures text_stays { OnErr result (text.new ≡ text.old) }
    {
        let starts = row_starts::starts_of(self.chars.allocator(), text.as_slice())?;
        self.chars.exchange(text);
        self.starts = starts;
        Ok(())
    }

    /// Returns the number of characters.
    pub fn len(&self) -> usize
        ensures len { result ≡ length self.now }
        ensures short { length self.now ≤ 32768 }
    {
        self.chars.len()
    }

    /// Returns the character at the place `at`.
    pub fn char_at(&self, at: usize) -> char
        requires { at < length self.now }
        ensures { result ≡ slice_index self.now at }
    {
        let (front, back) = self.chars.parts();
        if at < front.len() {
            front[at]
        } else {
            back[at - front.len()]
        }
    }

    /// Returns the characters as two slices, which follow on each other.
    pub fn parts(&self) -> (&[char], &[char])
        ensures { result.0.now ++ result.1.now ≡ self.now }
    {
        self.chars.parts()
    }

    /// Returns the characters from `from` up to and without `to`.
    pub fn part(&self, from: usize, to: usize) -> Result<Text, NoMemory>
        requires ordered { from ≤ to }
        requires range { to ≤ length self.now }
        ensures { IfOk result (λ text. text ≡ slice_range self.now from to) }
    {
        let (front, back) = self.chars.parts();
        let text = part_of(self.chars.allocator(), front, back, from, to)?;
        Ok(text)
    }

    /// Returns whether the text is these characters.
    pub fn equals(&self, chars: &[char]) -> bool
        ensures { IsTrue result ↔ (self.now ≡ chars.now) }
    {
        let (front, back) = self.chars.parts();
        comparing::is_joined(front, back, chars)
    }

    /// Returns whether two texts are equal.
    pub fn is_same(&self, other: &IndexedText) -> bool
        ensures { IsTrue result ↔ (self.now ≡ other.now) }
    {
        let (front, back) = self.chars.parts();
        let (other_front, other_back) = other.chars.parts();
        comparing::is_same(front, back, other_front, other_back)
    }

    /// Returns the number of the row of this place.
    pub fn row_of(&self, place: usize) -> usize
        requires { place ≤ length self.now }
        ensures row { result ≡ row_of self.now place }
        ensures within { result ≤ 32768 }
        ensures short { length self.now ≤ 32768 }
    {
        row_starts::row_at(&self.chars, &self.starts, place)
    }

    /// Returns the number of the last row.
    pub fn last_row(&self) -> usize
        ensures { result ≡ length (row_starts self.now) }
    {
        row_starts::last_row(&self.chars, &self.starts)
    }

    /// Returns where the row with this number, which is not the first, starts.
    pub fn start_of(&self, row: usize) -> usize
        requires some { 0 < row }
        requires within { row ≤ length (row_starts self.now) }
        ensures start { result ≡ slice_index (row_starts self.now) (row - 1) }
        ensures above { 0 < result }
        ensures within { result ≤ length self.now }
    {
        row_starts::start_at(&self.chars, &self.starts, row - 1)
    }

    /// Puts characters at the place `at`, where the gap goes. All room is taken before anything is moved.
    pub fn insert(&mut self, at: usize, chars: &[char]) -> Result<(), NoMemory>
        requires place { at ≤ length self.old }
        requires short { length self.old + length chars.now ≤ 32768 }
        ensures ok { OnOk result (self.new ≡ take at self.old ++ chars.now ++ drop at self.old) }
        ensures err { OnErr result (self.new ≡ self.old) }
    {
        self.chars.make_room(chars.len(), ' ')?;
        self.starts.make_room(row_starts::line_feeds(chars), 0)?;
        row_starts::insert(&mut self.chars, &mut self.starts, at, chars);
        Ok(())
    }

    /// Deletes the characters from `from`, where the gap goes, up to and without `to`.
    pub fn delete(&mut self, from: usize, to: usize)
        requires ordered { from ≤ to }
        requires range { to ≤ length self.old }
        ensures { self.new ≡ take from self.old ++ drop to self.old }
    {
        row_starts::delete(&mut self.chars, &mut self.starts, from, to);
    }
}

/// Returns a part of two slices, of which the second follows on the first.
fn part_of(
    alloc: Global,
    front: &[char],
    back: &[char],
    from: usize,
    to: usize,
) -> Result<Text, NoMemory>
    requires ordered { from ≤ to }
    requires range { to ≤ length front.now + length back.now }
    ensures { IfOk result (λ text. text ≡ slice_range (front.now ++ back.now) from to) }
{
    let gap = front.len();
    if to <= gap {
        let text = Text::from_slice(alloc, &front[from..to])?;
        return Ok(text);
    }
    if from >= gap {
        let text = Text::from_slice(alloc, &back[from - gap..to - gap])?;
        return Ok(text);
    }
    let mut text = Text::from_slice(alloc, &front[from..])?;
    text.extend_from_slice(&back[..to - gap])?;
    Ok(text)
}
