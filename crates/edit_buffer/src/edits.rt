//! Edits of a document.
ghost use Rattle.std.specs.Prelude.{◌≡◌, ◌<◌, ◌≤◌, ◌+◌, ◌↔◌, [], false, length, IsOk, IsTrue, IfOk, OnOk, OnErr};
ghost use Rattle.text_doc.specs.Document.{IsDocument};
ghost use Rattle.text_doc.specs.Edits.{inserted, deleted};

use crate::EditFault;
use crate::replacements::replace_text;
use text_doc::{Doc, Text};

/// A change of a document.
#[derive(Debug, Drop)]
pub enum Edit {
    /// Puts characters at the cursor, as `Doc::insert` does.
    Insert(Text),
    /// Deletes a range, as `Doc::delete` does.
    Delete { from: usize, to: usize },
    /// Puts characters in place of a range. A cursor in the range or at an end of it then stands behind them. The mark
    /// keeps its number where the lengths are equal, and else moves as by a deletion and then an insertion.
    Replace { from: usize, to: usize, text: Text },
    /// Moves the cursor to a place.
    Cursor(usize),
    /// Sets the mark, or takes it away.
    Mark(Option<usize>),
    /// Puts another document in place of this one, its mark included.
    Whole(Doc),
}

/// What an edit changed, or nothing.
#[derive(Clone, Copy, PartialEq, Eq, Debug)]
pub struct Applied {
    pub text: bool,
    pub cursor: bool,
    pub mark: bool,
}

ghost use Rattle.edit_buffer.specs.Edits.{edited, is_same, FitsDocument, MakesTooLong, TakesNoMemory, TellsChanges};

impl Applied {
    /// Returns whether text, cursor and mark are as before.
    pub fn is_same(self) -> bool
        ensures { result ≡ is_same self }
    {
        !(self.text || self.cursor || self.mark)
    }
}

pub(crate) fn edit_doc(doc: &mut Doc, edit: Edit) -> Result<Applied, EditFault>
    requires { FitsDocument edit doc.old }
    ensures ok { OnOk result (doc.new ≡ edited edit doc.old) }
    ensures err { OnErr result (doc.new ≡ doc.old) }
    ensures document { IsDocument doc.new }
    ensures changes { IfOk result (λ answer. TellsChanges answer doc.old doc.new) }
    ensures too_long { (result ≡ Err EditFault.TooLong) ↔ MakesTooLong edit doc.old }
    ensures sure { TakesNoMemory edit → IsOk result }
{
    let cursor = doc.cursor();
    let mark = doc.mark();
    let text = edit_text(doc, edit)?;
    Ok(Applied {
        text,
        cursor: doc.cursor() != cursor,
        mark: doc.mark() != mark,
    })
}

/// Edits the document, and tells whether its text differs from before.
fn edit_text(doc: &mut Doc, edit: Edit) -> Result<bool, EditFault>
    requires { FitsDocument edit doc.old }
    ensures ok { OnOk result (doc.new ≡ edited edit doc.old) }
    ensures err { OnErr result (doc.new ≡ doc.old) }
    ensures document { IsDocument doc.new }
    ensures text { IfOk result (λ changed. (changed ≡ false) ↔ (doc.new.text ≡ doc.old.text)) }
    ensures too_long { (result ≡ Err EditFault.TooLong) ↔ MakesTooLong edit doc.old }
    ensures sure { TakesNoMemory edit → IsOk result }
{
    match edit {
        Edit::Insert(text) => insert_text(doc, &text),
        Edit::Delete { from, to } => {
            doc.delete(from, to);
            Ok(from != to)
        }
        Edit::Replace { from, to, text } => replace_text(doc, from, to, text.as_slice()),
        Edit::Cursor(at) => {
            doc.set_cursor(at);
            Ok(false)
        }
        Edit::Mark(at) => {
            doc.set_mark(at);
            Ok(false)
        }
        Edit::Whole(whole) => {
            let same = doc.is_same_text(&whole);
            *doc = whole;
            Ok(!same)
        }
    }
}

fn insert_text(doc: &mut Doc, text: &Text) -> Result<bool, EditFault>
    ensures ok { OnOk result (doc.new ≡ inserted doc.old text.now) }
    ensures err { OnErr result (doc.new ≡ doc.old) }
    ensures document { IsDocument doc.new }
    ensures text { IfOk result (λ changed. (changed ≡ false) ↔ (doc.new.text ≡ doc.old.text)) }
    ensures too_long { (result ≡ Err EditFault.TooLong)
        ↔ (32768 < length doc.old.text + length text.now) }
{
    doc.insert(text.as_slice())?;
    Ok(!text.is_empty())
}
