//! Characters in place of a range of a document, all or nothing.
ghost use Rattle.std.specs.Prelude.{◌≡◌, ◌≢◌, ◌<◌, ◌≤◌, ◌+◌, ◌-◌, ◌↔◌, false, length, option_map, IsTrue, IfOk, OnOk, OnErr};
ghost use Rattle.std.specs.Option.{ForSome};
ghost use Rattle.text_doc.specs.Document.{IsDocument};
ghost use Rattle.edit_buffer.specs.Edits.{replaced, text_replaced, cursor_after_replace, mark_after_replace};

use crate::EditFault;
use text_doc::{Doc, MAX_LENGTH, NoMemory, Text};

/// Puts characters in place of a range, and tells whether the text differs from before.
pub(crate) fn replace_text(
    doc: &mut Doc,
    from: usize,
    to: usize,
    chars: &[char],
) -> Result<bool, EditFault>
    requires ordered { from ≤ to }
    requires range { to ≤ length doc.old.text }
    ensures ok { OnOk result (doc.new ≡ replaced doc.old from to chars.now) }
    ensures err { OnErr result (doc.new ≡ doc.old) }
    ensures document { IsDocument doc.new }
    ensures text { IfOk result (λ changed. (changed ≡ false) ↔ (doc.new.text ≡ doc.old.text)) }
    ensures too_long { (result ≡ Err EditFault.TooLong)
        ↔ (32768 < length doc.old.text - (to - from) + length chars.now) }
{
    let same = is_range(doc, from, to, chars);
    replace_range(doc, from, to, chars)?;
    Ok(!same)
}

/// Tells whether these are the characters of a range.
fn is_range(doc: &Doc, from: usize, to: usize, chars: &[char]) -> bool
    requires ordered { from ≤ to }
    requires range { to ≤ length doc.now.text }
    ensures { IsTrue result ↔ (text_replaced doc.now.text from to chars.now ≡ doc.now.text) }
{
    if chars.len() != to - from {
        return false;
    }
    for (i, c) in chars.iter().enumerate() {
        if doc.char_at(from + i) != *c {
            return false;
        }
    }
    true
}

/// Puts characters in place of a range.
pub(crate) fn replace_range(
    doc: &mut Doc,
    from: usize,
    to: usize,
    chars: &[char],
) -> Result<(), EditFault>
    requires ordered { from ≤ to }
    requires range { to ≤ length doc.old.text }
    ensures ok { OnOk result (doc.new ≡ replaced doc.old from to chars.now) }
    ensures err { OnErr result (doc.new ≡ doc.old) }
    ensures document { IsDocument doc.new }
    ensures too_long { (result ≡ Err EditFault.TooLong)
        ↔ (32768 < length doc.old.text - (to - from) + length chars.now) }
{
    let kept = doc.len() - (to - from);
    if chars.len() > MAX_LENGTH - kept {
        return Err(EditFault::TooLong);
    }
    let cursor = moved_cursor(doc.cursor(), from, to, chars.len());
    let mark = moved_mark(doc.mark(), from, to, chars.len());
    exchange_range(doc, from, to, chars)?;
    doc.set_cursor(cursor);
    doc.set_mark(mark);
    Ok(())
}

fn moved_cursor(place: usize, from: usize, to: usize, count: usize) -> usize
    requires ordered { from ≤ to }
    requires short { (place ≤ 32768) × (from ≤ 32768) × (count ≤ 32768) }
    ensures { result ≡ cursor_after_replace from to count place }
{
    if place < from {
        place
    } else if place > to {
        place - to + (from + count)
    } else {
        from + count
    }
}

fn moved_mark(mark: Option<usize>, from: usize, to: usize, count: usize) -> Option<usize>
    requires ordered { from ≤ to }
    requires short { ForSome mark (λ m. m ≤ 32768) × (count ≤ 32768) }
    ensures { result ≡ option_map (mark_after_replace from to count) mark }
{
    match mark {
        Some(place) if count != to - from && place > from => {
            if place > to {
                Some(place - (to - from) + count)
            } else {
                Some(from)
            }
        }
        _ => mark,
    }
}

/// Puts characters in place of a range. Where cursor and mark go is left to the caller.
fn exchange_range(doc: &mut Doc, from: usize, to: usize, chars: &[char]) -> Result<(), EditFault>
    requires ordered { from ≤ to }
    requires range { to ≤ length doc.old.text }
    requires fits { length doc.old.text - (to - from) + length chars.now ≤ 32768 }
    ensures ok { OnOk result (doc.new.text ≡ text_replaced doc.old.text from to chars.now) }
    ensures err { OnErr result (doc.new ≡ doc.old) }
    ensures document { IsDocument doc.new }
    ensures fits { result ≢ Err EditFault.TooLong }
{
    if chars.len() <= MAX_LENGTH - doc.len() {
        insert_at(doc, to, chars)?;
        doc.delete(from, to);
        return Ok(());
    }
    // The old and the new characters do not fit side by side.
    *doc = rebuilt(doc, from, to, chars)?;
    Ok(())
}

/// Inserts characters at a place, behind which the cursor then stands.
fn insert_at(doc: &mut Doc, at: usize, chars: &[char]) -> Result<(), EditFault>
    requires place { at ≤ length doc.old.text }
    requires fits { length doc.old.text + length chars.now ≤ 32768 }
    ensures ok { OnOk result (doc.new.text ≡ text_replaced doc.old.text at at chars.now) }
    ensures err { OnErr result (doc.new ≡ doc.old) }
    ensures document { IsDocument doc.new }
    ensures fits { result ≢ Err EditFault.TooLong }
{
    let cursor = doc.cursor();
    doc.set_cursor(at);
    match doc.insert(chars) {
        Ok(()) => Ok(()),
        Err(_) => {
            doc.set_cursor(cursor);
            Err(EditFault::NoMemory)
        }
    }
}

/// Returns a document of the text with these characters in place of a range.
fn rebuilt(doc: &Doc, from: usize, to: usize, chars: &[char]) -> Result<Doc, NoMemory>
    requires ordered { from ≤ to }
    requires range { to ≤ length doc.now.text }
    requires fits { length doc.now.text - (to - from) + length chars.now ≤ 32768 }
    ensures { IfOk result (λ new. (new.text ≡ text_replaced doc.now.text from to chars.now)
        × IsDocument new) }
{
    let mut text = doc.part(0, from)?;
    text.extend_from_slice(chars)?;
    let behind = doc.part(to, doc.len())?;
    text.extend_from_slice(behind.as_slice())?;
    let new = Doc::new(text.allocator(), text, from)?;
    Ok(new)
}
