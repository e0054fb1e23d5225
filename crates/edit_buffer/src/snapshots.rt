//! What undo and redo keep of a document.
ghost use Rattle.std.specs.Prelude.{◌≡◌, ◌≤◌, length, IfOk};
ghost use Rattle.std.specs.Bool.{OnTrue};
ghost use Rattle.text_doc.specs.Document.{IsDocument};
ghost use Rattle.edit_buffer.specs.BufferState.{pair_of, document_of};
ghost use Rattle.edit_buffer.specs.Undo.{has_text};

use std::marker::Model;
use text_doc::{Doc, NoMemory, Text};

/// A text and a cursor. A clause sees it as a `Pair`.
#[derive(Debug, Drop)]
pub struct Snapshot {
    /// In a block of just its length.
    text: Text,
    cursor: u32,
}

impl Model for Snapshot {
    ghost use Rattle.std.specs.Prelude.{◌≤◌, length};
    ghost use Rattle.edit_buffer.specs.BufferState.{Pair};

    ghost Value = { Pair };

    ghost view = { λ s. record { text = s.text; cursor = s.cursor } };

    ghost invariant = { λ s. (length s.text ≤ 32768) × (s.cursor ≤ length s.text) };
}

impl Snapshot {
    /// Returns text and cursor of a document.
    pub fn of(doc: &Doc) -> Result<Snapshot, NoMemory>
        ensures { IfOk result (λ pair. pair ≡ pair_of doc.now) }
    {
        let text = doc.text()?;
        let cursor = doc.cursor() as u32;
        Ok(Snapshot { text, cursor })
    }

    /// Returns a document of this text and cursor, without a mark.
    pub fn to_doc(&self) -> Result<Doc, NoMemory>
        ensures { IfOk result (λ doc. (doc ≡ document_of self.now) × IsDocument doc) }
    {
        let text = self.text.copy()?;
        let doc = Doc::new(text.allocator(), text, self.cursor as usize)?;
        Ok(doc)
    }

    /// Returns whether the text is that of the document.
    pub fn has_text_of(&self, doc: &Doc) -> bool
        ensures value { result ≡ has_text doc.now.text self.now }
        ensures equal { OnTrue result (self.now.text ≡ doc.now.text) }
    {
        doc.has_text(self.text.as_slice())
    }

    /// Moves the cursor to that of a document with this text.
    pub fn take_cursor(&mut self, doc: &Doc)
        requires { self.old.text ≡ doc.now.text }
        ensures { self.new ≡ record self.old { cursor = doc.now.cursor } }
    {
        self.cursor = doc.cursor() as u32;
    }
}
