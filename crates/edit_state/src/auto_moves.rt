//! `auto-up` and `auto-down`: a choice in the menu, a move by rows, or a step through the history.
ghost use Rattle.std.specs.Prelude.{◌≡◌, true, false, IfOk, OnOk, OnErr};
ghost use Rattle.edit_state.specs.Answers.{Answers};
ghost use Rattle.edit_state.specs.AutoMoves.{up_or_back, down_or_forward, auto_up, auto_down};
ghost use Rattle.edit_state.specs.MenuMoves.{stops};

use crate::{Done, EditState, NoMemory};

impl EditState {
    /// Chooses so many items before the present choice where a menu is open. Else goes so many rows up; from the first
    /// row, where there is no mark, so many lines of the history back.
    pub fn auto_up(&mut self, count: u32) -> Result<Done, NoMemory>
        ensures state { OnOk result (self.new ≡ auto_up self.old count) }
        ensures err { OnErr result (self.new ≡ self.old) }
        ensures done { IfOk result (λ done. Answers
            (stops false count self.old.buffer.menu ≡ true) done self.old self.new) }
    {
        match self.buffer.menu() {
            Some(_) => self.choose_beside(false, count),
            None => self.up_or_back(count),
        }
    }

    /// Chooses so many items behind the present choice where a menu is open. Else goes so many rows down; from the last
    /// row, where there is no mark, so many lines of the history forward.
    pub fn auto_down(&mut self, count: u32) -> Result<Done, NoMemory>
        ensures state { OnOk result (self.new ≡ auto_down self.old count) }
        ensures err { OnErr result (self.new ≡ self.old) }
        ensures done { IfOk result (λ done. Answers
            (stops true count self.old.buffer.menu ≡ true) done self.old self.new) }
    {
        match self.buffer.menu() {
            Some(_) => self.choose_beside(true, count),
            None => self.down_or_forward(count),
        }
    }

    fn up_or_back(&mut self, count: u32) -> Result<Done, NoMemory>
        ensures state { OnOk result (self.new ≡ up_or_back self.old count) }
        ensures err { OnErr result (self.new ≡ self.old) }
        ensures done { IfOk result (λ done. Answers ⊥ done self.old self.new) }
    {
        let column = self.kept_column();
        let place = self.buffer.doc().up(count, column);
        if place.is_some() || self.buffer.doc().mark().is_some() {
            return Ok(self.go_to_row(place, column));
        }
        self.lines_back(count)
    }

    fn down_or_forward(&mut self, count: u32) -> Result<Done, NoMemory>
        ensures state { OnOk result (self.new ≡ down_or_forward self.old count) }
        ensures err { OnErr result (self.new ≡ self.old) }
        ensures done { IfOk result (λ done. Answers ⊥ done self.old self.new) }
    {
        let column = self.kept_column();
        let place = self.buffer.doc().down(count, column);
        if place.is_some() || self.buffer.doc().mark().is_some() {
            return Ok(self.go_to_row(place, column));
        }
        self.lines_forward(count)
    }
}
