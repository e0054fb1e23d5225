//! Moves by rows, which go to the kept column.
ghost use Rattle.std.specs.Prelude.{◌≡◌, ◌≤◌, length};
ghost use Rattle.std.specs.Option.{ForSome};
ghost use Rattle.edit_state.specs.Answers.{Answers};
ghost use Rattle.edit_state.specs.RowMoves.{kept_column, moved_to_row, rows_up, rows_down};

use crate::edits::{done_of, edit_plainly};
use crate::{Done, EditState};
use edit_buffer::Edit;

impl EditState {
    /// Goes so many rows up, or to the first row. In the first row all is as before.
    pub fn rows_up(&mut self, count: u32) -> Done
        ensures state { self.new ≡ rows_up self.old count }
        ensures done { Answers ⊥ result self.old self.new }
    {
        let column = self.kept_column();
        let place = self.buffer.doc().up(count, column);
        self.go_to_row(place, column)
    }

    /// Goes so many rows down, or to the last row. In the last row all is as before.
    pub fn rows_down(&mut self, count: u32) -> Done
        ensures state { self.new ≡ rows_down self.old count }
        ensures done { Answers ⊥ result self.old self.new }
    {
        let column = self.kept_column();
        let place = self.buffer.doc().down(count, column);
        self.go_to_row(place, column)
    }

    /// Returns the column that a move by rows goes to: the cursor's where none is kept.
    pub fn kept_column(&self) -> usize
        ensures { result ≡ kept_column self.now }
    {
        match self.column {
            Some(column) => column,
            None => {
                let doc = self.buffer.doc();
                doc.cursor() - doc.line_start()
            }
        }
    }

    /// Goes to a place of another row and keeps the column.
    #[tactic(auto, using(crate::proofs::Telling::told))]
    pub(crate) fn go_to_row(&mut self, place: Option<usize>, column: usize) -> Done
        requires place { ForSome place (λ at. at ≤ length self.old.buffer.doc.text) }
        requires column { column ≡ kept_column self.old }
        ensures state { self.new ≡ moved_to_row self.old place }
        ensures done { Answers ⊥ result self.old self.new }
    {
        match place {
            None => Done::Same,
            Some(at) => {
                let is_kept = self.column == Some(column);
                let moved = edit_plainly(&mut self.buffer, Edit::Cursor(at));
                self.column = Some(column);
                done_of(moved || !is_kept)
            }
        }
    }
}
