//! The rows of a text, kept while it changes.
ghost use Rattle.std.specs.Prelude.{◌≡◌, ◌≤◌, length};
ghost use Rattle.text_rows.specs.Flows.{flow_of};

use crate::flows::Flow;
use crate::layings::{Ground, laid, laid_anew};
use crate::marks::Marks;
use cell_grid::{CellRow, NoMemory};
use std::alloc::Global;
use std::marker::Model;
use text_doc::Text;

/// The rows of a text at a width, with what stands before its lines. It keeps at which characters rows begin, and no
/// cells of the text. A new text costs a comparison with the old one, and the rows from the first change on until they
/// meet old ones.
#[derive(Drop)]
pub struct TextRows {
    message: CellRow,
    continuation: CellRow,
    text: Text,
    width: u32,
    opening: Flow,
    under: Flow,
    marks: Marks,
}

impl Model for TextRows {
    ghost use Rattle.text_rows.specs.Flows.{IsKept};
    ghost use Rattle.text_rows.specs.KeptRows.{RowsFields};

    ghost Value = { RowsFields };

    ghost view = { λ r.
        record {
          message = r.message;
          continuation = r.continuation;
          text = r.text;
          width = r.width;
        } };

    ghost invariant = { λ r.
        IsKept r.message r.continuation r.text r.width r.opening r.under r.marks.marks.items r.marks.room };
}

impl TextRows {
    ghost use Rattle.std.specs.Prelude.{◌≡◌, ◌≤◌, IfOk, OnErr, OnOk, flat_map, length};
    ghost use Rattle.text_rows.specs.DrawnText.{TextFields};
    ghost use Rattle.text_rows.specs.KeptRows.{IsDrawnFrom};
    ghost use Rattle.text_rows.specs.Lines.{drawn_lines};
    ghost use Rattle.win_view.specs.Rows.{rows_of};

    /// Lays a text on rows of this width. These cells stand before its first line and before each other one.
    pub fn new(
        alloc: Global,
        message: CellRow,
        continuation: CellRow,
        text: &[char],
        width: u32,
    ) -> Result<TextRows, NoMemory>
        requires width { 1 ≤ width }
        requires short_message { length message ≤ 1000 }
        requires short_continuation { length continuation ≤ 1000 }
        requires short_text { length text.now ≤ 32768 }
        ensures { IfOk result (λ rows. rows ≡ record {
          message = message;
          continuation = continuation;
          text = text.now;
          width = width;
        }) }
    {
        let opening = flow_of(&message, width);
        let under = flow_of(&continuation, width);
        let ground = Ground {
            width,
            room: opening.room,
            under,
        };
        let marks = laid(alloc, ground, text)?;
        let text = Text::from_chars(alloc, text)?;
        Ok(TextRows {
            message,
            continuation,
            text,
            width,
            opening,
            under,
            marks,
        })
    }

    /// Takes a new text in place of the old one. Without memory for it the old one stays.
    pub fn update(&mut self, text: &[char]) -> Result<(), NoMemory>
        requires { length text.now ≤ 32768 }
        ensures ok { OnOk result (self.new ≡ record self.old { text = text.now }) }
        ensures err { OnErr result (self.new ≡ self.old) }
    {
        let alloc = self.text.allocator();
        let ground = Ground {
            width: self.width,
            room: self.opening.room,
            under: self.under,
        };
        let known = self.marks.marks.as_slice();
        let marks = laid_anew(
            alloc,
            ground,
            self.text.as_slice(),
            known,
            self.marks.room,
            text,
        )?;
        let text = Text::from_chars(alloc, text)?;
        self.text = text;
        self.marks = marks;
        Ok(())
    }

    /// Lays the text anew on rows of another width. Without memory for it the old width stays.
    pub fn resize(&mut self, width: u32) -> Result<(), NoMemory>
        requires { 1 ≤ width }
        ensures ok { OnOk result (self.new ≡ record self.old { width = width }) }
        ensures err { OnErr result (self.new ≡ self.old) }
    {
        let alloc = self.text.allocator();
        let opening = flow_of(&self.message, width);
        let under = flow_of(&self.continuation, width);
        let ground = Ground {
            width,
            room: opening.room,
            under,
        };
        let marks = laid(alloc, ground, self.text.as_slice())?;
        self.width = width;
        self.opening = opening;
        self.under = under;
        self.marks = marks;
        Ok(())
    }

    /// Returns how many rows what is drawn of the text has, where this is suggested behind it.
    pub fn count(&self, suggestion: &[char]) -> usize
        requires { length suggestion.now ≤ 32768 }
        ensures { (t : TextFields) → IsDrawnFrom self.now suggestion.now t
            → result ≡ length (flat_map (rows_of self.now.width) (drawn_lines t)) }
    {
        let _message = self.message.as_slice();
        let _continuation = self.continuation.as_slice();
        let mut flow = Flow {
            rows: 0,
            room: self.marks.room,
        };
        flow.put_spelled(suggestion, self.width);
        flow.put(1, self.width);
        1 + self.opening.rows + self.marks.marks.len() + flow.rows
    }

    /// Returns the columns of a row.
    pub fn width(&self) -> u32
        ensures value { result ≡ self.now.width }
        ensures some { 1 ≤ result }
    {
        self.width
    }

    /// Returns the text.
    pub fn text(&self) -> &[char]
        ensures { result.now ≡ self.now.text }
    {
        self.text.as_slice()
    }
}

/// Returns how many rows but the first these cells have, and the room that is left in the last.
fn flow_of(cells: &CellRow, width: u32) -> Flow
    requires { length cells.now ≤ 1000 }
    ensures flow { result ≡ flow_of width cells.now }
    ensures few { result.rows ≤ 1000 }
{
    let mut flow = Flow::new(width);
    flow.put_cells(cells.as_slice(), width);
    flow
}
