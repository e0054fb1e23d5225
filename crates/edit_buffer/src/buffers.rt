//! A buffer: a document in one of several working lines. A clause sees it as a `BufferState`.
ghost use Rattle.std.specs.Prelude.{◌≡◌, ◌≢◌, ◌<◌, ◌≤◌, ◌↔◌, ◌++◌, length, option_copied, IsOk, IfOk, IsTrue, OnOk, OnErr};
ghost use Rattle.std.specs.List.{All};
ghost use Rattle.edit_buffer.specs.BufferState.{IsBufferState, line_of};
ghost use Rattle.edit_buffer.specs.Edits.{applied, is_same, FitsDocument, MakesTooLong, TakesNoMemory, TellsChanges};
ghost use Rattle.edit_buffer.specs.Moves.{newest, opened};

use crate::edits::edit_doc;
use crate::undo::Snapshots;
use crate::{Applied, Edit, EditFault, MAX_PAIRS, Menu};
use std::alloc::Global;
use std::marker::Model;
use text_doc::{Doc, Lines, NoMemory, Text};

/// The most entries of the history that become working lines.
pub const MAX_ENTRIES: usize = 1_000;

/// A document in one of several working lines, with lists of undo and redo, and perhaps a menu of completions.
#[derive(Drop)]
pub struct Buffer {
    pub(crate) doc: Doc,
    /// The working lines. What stands in the place of the present one has no meaning, since `doc` holds its text.
    pub(crate) lines: Vec<Text>,
    pub(crate) index: usize,
    pub(crate) undo: Snapshots,
    pub(crate) redo: Snapshots,
    /// Whether the first pair of `undo` is known to have the document's text.
    pub(crate) is_kept: bool,
    pub(crate) menu: Option<Menu>,
}

impl Model for Buffer {
    ghost use Rattle.edit_buffer.specs.BufferState.{BufferState};

    ghost Value = { BufferState };

    ghost use Rattle.edit_buffer.specs.Insides.{state_of, IsKept};

    ghost view = { state_of };

    ghost invariant = { IsKept };
}

impl Buffer {
    /// Returns a buffer on a new line of this text, with its cursor at the end. The newest entries of the history,
    /// which has the oldest one first, are the working lines before the new one.
    pub fn new(alloc: Global, history: Lines, first: Text) -> Result<Buffer, NoMemory>
        requires entries { All (λ line. length line ≤ 32768) history }
        requires first { length first ≤ 32768 }
        ensures { IfOk result (λ buffer. buffer ≡ opened history first) }
    {
        let mut lines = history.into_vec();
        keep_newest(&mut lines);
        let index = lines.len();
        lines.push(Text::new(alloc))?;
        let cursor = first.len();
        let doc = Doc::new(alloc, first, cursor)?;
        let undo = Snapshots::with_capacity(alloc, MAX_PAIRS)?;
        let redo = Snapshots::with_capacity(alloc, MAX_PAIRS)?;
        Ok(Buffer {
            doc,
            lines,
            index,
            undo,
            redo,
            is_kept: false,
            menu: None,
        })
    }

    /// Returns the document.
    pub fn doc(&self) -> &Doc
        ensures doc { result.now ≡ self.now.doc }
        ensures state { IsBufferState self.now }
    {
        &self.doc
    }

    /// Returns the number of working lines.
    pub fn lines(&self) -> usize
        ensures lines { result ≡ length self.now.lines }
        ensures state { IsBufferState self.now }
    {
        self.lines.len()
    }

    /// Returns the number of the present working line, from 0.
    pub fn index(&self) -> usize
        ensures index { result ≡ self.now.index }
        ensures state { IsBufferState self.now }
    {
        self.index
    }

    /// Returns the text of another working line than the present one, whose text is that of `doc`.
    pub fn line(&self, i: usize) -> &Text
        requires within { i < length self.now.lines }
        requires other { i ≢ self.now.index }
        ensures { result.now ≡ line_of self.now i }
    {
        &self.lines[i]
    }

    /// Returns the text of any working line, the present one included, as two slices of which the second follows on the
    /// first. Where it is cut is not said.
    pub fn line_parts(&self, i: usize) -> (&[char], &[char])
        requires { i < length self.now.lines }
        ensures { result.0.now ++ result.1.now ≡ line_of self.now i }
    {
        if i == self.index {
            self.doc.parts()
        } else {
            self.lines[i].as_slice().split_at(0)
        }
    }

    /// Returns the menu.
    pub fn menu(&self) -> Option<&Menu>
        ensures menu { option_copied result ≡ self.now.menu }
        ensures state { IsBufferState self.now }
    {
        self.menu.as_ref()
    }

    /// Edits the document, and so the present working line. It costs what `Doc` spends on the same edit.
    pub fn apply(&mut self, edit: Edit) -> Result<Applied, EditFault>
        requires { FitsDocument edit self.old.doc }
        ensures ok { OnOk result (self.new ≡ applied self.old edit) }
        ensures err { OnErr result (self.new ≡ self.old) }

        ensures changes { IfOk result (λ answer. TellsChanges answer self.old.doc self.new.doc) }
        ensures same { IfOk result (λ answer.
            IsTrue (is_same answer) ↔ (self.new.doc ≡ self.old.doc)) }
        ensures too_long { (result ≡ Err EditFault.TooLong) ↔ MakesTooLong edit self.old.doc }
        ensures sure { TakesNoMemory edit → IsOk result }
    {
        let answer = edit_doc(&mut self.doc, edit)?;
        self.is_kept = self.is_kept && !answer.text;
        Ok(answer)
    }
}

/// Drops the oldest lines of a history above the newest 1,000.
pub fn keep_newest(lines: &mut Vec<Text>)
    ensures { lines.new.items ≡ newest lines.old.items }
{
    let excess = lines.len().saturating_sub(MAX_ENTRIES);
    let kept = lines.len() - excess;
    let all = lines.as_mut_slice();
    all.rotate_left(excess);
    lines.truncate(kept);
}
