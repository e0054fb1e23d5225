//! The facts that hold of an edit state.
ghost use Rattle.std.specs.Prelude.{◌≡◌};
ghost use Rattle.key_proc.specs.Facts.{has};
ghost use Rattle.key_proc.specs.declared.facts.Fact.{Fact};
ghost use Rattle.edit_state.specs.StateFacts.{holds_in, suggests};

use crate::EditState;
use key_proc::{Fact, Facts};

impl EditState {
    /// Returns the facts that hold, but for those of the way in which keys are read.
    pub fn facts(&self) -> Facts
        ensures { (fact : Fact) → has result fact ≡ holds_in self.now fact }
    {
        let facts = with_if(Facts::none(), Fact::Selection, self.holds(Fact::Selection));
        let facts = with_if(facts, Fact::Menu, self.holds(Fact::Menu));
        let facts = with_if(facts, Fact::Searching, self.holds(Fact::Searching));
        let facts = with_if(facts, Fact::Argument, self.holds(Fact::Argument));
        let facts = with_if(facts, Fact::Multiline, self.holds(Fact::Multiline));
        let facts = with_if(facts, Fact::Suggestion, self.holds(Fact::Suggestion));
        with_if(facts, Fact::Empty, self.holds(Fact::Empty))
    }

    /// Tells whether a fact holds. None does of the way in which keys are read.
    pub fn holds(&self, fact: Fact) -> bool
        ensures { result ≡ holds_in self.now fact }
    {
        match fact {
            Fact::Selection => self.buffer.doc().mark().is_some(),
            Fact::Menu => self.buffer.menu().is_some(),
            Fact::Searching => self.search.is_some(),
            Fact::Argument => self.arg.is_some(),
            Fact::Multiline => self.multiline,
            Fact::Suggestion => self.suggests(),
            Fact::Empty => self.buffer.doc().is_empty(),
            Fact::Emacs | Fact::Insert | Fact::Navigation => false,
            Fact::Replace | Fact::Operator => false,
        }
    }

    /// Tells whether a suggestion can be taken.
    fn suggests(&self) -> bool
        ensures { result ≡ suggests self.now }
    {
        let doc = self.buffer.doc();
        match &self.suggestion {
            Some(text) => !text.is_empty() && doc.cursor() == doc.len(),
            None => false,
        }
    }
}

ghost use Rattle.std.specs.Prelude.{◌&&◌, ◌||◌};
ghost use Rattle.key_proc.specs.Facts.{is_same_fact};

fn with_if(facts: Facts, fact: Fact, holds: bool) -> Facts
    ensures { (other : Fact) → has result other
        ≡ ((is_same_fact other fact && holds) || has facts other) }
{
    if holds { facts.with(fact) } else { facts }
}
