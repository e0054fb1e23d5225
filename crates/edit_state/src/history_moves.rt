//! Steps through the history. The column is forgotten where another line is gone to.
ghost use Rattle.std.specs.Prelude.{◌≡◌, ◌<◌, IfOk, OnOk, OnErr, length};
ghost use Rattle.text_doc.specs.Rows.{line_end};
ghost use Rattle.edit_buffer.specs.BufferState.{line_of};
ghost use Rattle.edit_buffer.specs.Moves.{moved_to};
ghost use Rattle.edit_state.specs.Answers.{Answers};
ghost use Rattle.edit_state.specs.HistoryMoves.{lines_back, lines_forward};

use crate::edits::{done_of, edit_plainly};
use crate::{Done, EditState, NoMemory};
use edit_buffer::{Buffer, Edit};

impl EditState {
    /// Goes so many working lines back, or to the first one.
    #[tactic(auto, using(crate::proofs::Telling::told))]
    pub fn lines_back(&mut self, count: u32) -> Result<Done, NoMemory>
        ensures state { OnOk result (self.new ≡ lines_back self.old count) }
        ensures err { OnErr result (self.new ≡ self.old) }
        ensures done { IfOk result (λ done. Answers ⊥ done self.old self.new) }
    {
        let moved = self.buffer.back(count)?;
        if moved {
            self.column = None;
        }
        Ok(done_of(moved))
    }

    /// Goes so many working lines forward, or to the last one.
    #[tactic(auto, using(crate::proofs::Telling::told))]
    pub fn lines_forward(&mut self, count: u32) -> Result<Done, NoMemory>
        ensures state { OnOk result (self.new ≡ lines_forward self.old count) }
        ensures err { OnErr result (self.new ≡ self.old) }
        ensures done { IfOk result (λ done. Answers ⊥ done self.old self.new) }
    {
        let moved = self.buffer.forward(count)?;
        if moved {
            self.column = None;
        }
        Ok(done_of(moved))
    }

    /// Goes to the first working line.
    pub fn first_line(&mut self) -> Result<Done, NoMemory>
        ensures state { OnOk result (self.new ≡ lines_back self.old self.old.buffer.index) }
        ensures err { OnErr result (self.new ≡ self.old) }
        ensures done { IfOk result (λ done. Answers ⊥ done self.old self.new) }
    {
        if self.buffer.index() == 0 {
            return Ok(Done::Same);
        }
        let end = self.buffer.line(0).len();
        self.buffer.goto(0, end)?;
        self.column = None;
        Ok(Done::Changed)
    }

    /// Goes to the last working line.
    pub fn last_line(&mut self) -> Result<Done, NoMemory>
        ensures state { OnOk result (self.new
            ≡ lines_forward self.old (length self.old.buffer.lines)) }
        ensures err { OnErr result (self.new ≡ self.old) }
        ensures done { IfOk result (λ done. Answers ⊥ done self.old self.new) }
    {
        let last = self.buffer.lines() - 1;
        if self.buffer.index() == last {
            return Ok(Done::Same);
        }
        go_to_first_row(&mut self.buffer, last)?;
        self.column = None;
        Ok(Done::Changed)
    }
}

// Goes to the end of the first row of another working line.
fn go_to_first_row(buffer: &mut Buffer, line: usize) -> Result<(), NoMemory>
    requires { line < length buffer.old.lines }
    ensures ok { OnOk result (buffer.new
        ≡ moved_to buffer.old line (line_end (line_of buffer.old line) 0)) }
    ensures err { OnErr result (buffer.new ≡ buffer.old) }
{
    buffer.goto(line, 0)?;
    let end = buffer.doc().line_end();
    edit_plainly(buffer, Edit::Cursor(end));
    Ok(())
}
