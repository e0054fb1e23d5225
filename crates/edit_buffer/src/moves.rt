//! Going from one working line to another. A move exchanges texts and copies none.
ghost use Rattle.std.specs.Prelude.{◌≡◌, ◌<◌, ◌≤◌, [], false, length, slice_index_or, slice_set, None, IsOk, IfOk, OnOk, OnErr};
ghost use Rattle.std.specs.List.{swap};
ghost use Rattle.text_doc.specs.Document.{IsDocument};
ghost use Rattle.edit_buffer.specs.BufferState.{line_of};
ghost use Rattle.edit_buffer.specs.Moves.{moved_to, can_go_back, gone_back, can_go_forward, gone_forward};

use crate::Buffer;
use text_doc::{Doc, NoMemory, Text};

impl Buffer {
    /// Goes up to `steps` working lines back, to the end of the text. Returns whether it went to another line.
    pub fn back(&mut self, steps: u32) -> Result<bool, NoMemory>
        ensures answer { IfOk result (λ moved. moved ≡ can_go_back self.old steps) }
        ensures ok { OnOk result (self.new ≡ gone_back self.old steps) }
        ensures err { OnErr result (self.new ≡ self.old) }
        ensures sure { can_go_back self.old steps ≡ false → IsOk result }
    {
        let index = self.index();
        if steps == 0 || index == 0 {
            return Ok(false);
        }
        let line = index.saturating_sub(steps as usize);
        let end = self.line(line).len();
        self.goto(line, end)?;
        Ok(true)
    }

    /// Goes up to `steps` working lines forward, to the end of the first row. Returns whether it went to another line.
    pub fn forward(&mut self, steps: u32) -> Result<bool, NoMemory>
        ensures answer { IfOk result (λ moved. moved ≡ can_go_forward self.old steps) }
        ensures ok { OnOk result (self.new ≡ gone_forward self.old steps) }
        ensures err { OnErr result (self.new ≡ self.old) }
        ensures sure { can_go_forward self.old steps ≡ false → IsOk result }
    {
        let ahead = self.lines() - 1 - self.index();
        if steps == 0 || ahead == 0 {
            return Ok(false);
        }
        let line = self.index() + ahead.min(steps as usize);
        self.goto(line, 0)?;
        let end = self.doc.line_end();
        self.doc.set_cursor(end);
        Ok(true)
    }

    /// Goes to a place of a working line, which may be the present one.
    pub fn goto(&mut self, line: usize, at: usize) -> Result<(), NoMemory>
        requires line { line < length self.old.lines }
        requires place { at ≤ length (line_of self.old line) }
        ensures ok { OnOk result (self.new ≡ moved_to self.old line at) }
        ensures err { OnErr result (self.new ≡ self.old) }
        ensures sure { line ≡ self.old.index → IsOk result }
    {
        if line == self.index {
            self.doc.set_mark(None);
            self.doc.set_cursor(at);
            return Ok(());
        }
        go_to_line(&mut self.doc, &mut self.lines, self.index, line, at)?;
        self.index = line;
        self.is_kept = false;
        Ok(())
    }
}

/// Gives the document the text of `line`, and its own text to the place of the line that was present.
fn go_to_line(
    doc: &mut Doc,
    lines: &mut Vec<Text>,
    present: usize,
    line: usize,
    at: usize,
) -> Result<(), NoMemory>
    requires present { present < length lines.old.items }
    requires line { line < length lines.old.items }
    requires place { at ≤ length (slice_index_or lines.old.items line []) }
    requires short { length (slice_index_or lines.old.items line []) ≤ 32768 }
    ensures doc { OnOk result (doc.new
        ≡ record { text = slice_index_or lines.old.items line []; cursor = at; mark = None }) }
    ensures lines { OnOk result (lines.new.items
        ≡ swap (slice_set lines.old.items line doc.old.text) present line) }
    ensures doc_stays { OnErr result (doc.new ≡ doc.old) }
    ensures lines_stay { OnErr result (lines.new.items ≡ lines.old.items) }
    ensures document { IsDocument doc.new }
{
    let lines = lines.as_mut_slice();
    doc.exchange(&mut lines[line], at)?;
    lines.swap(present, line);
    Ok(())
}
