//! Facts about what is edited, and which of them hold.
use std::marker::Model;

/// What may hold of the editor when a key comes.
#[derive(Clone, Copy, Debug, PartialEq, Eq)]
pub enum Fact {
    /// Keys are read as Emacs reads them.
    Emacs,
    /// Keys are read as vi reads them, and typed text is inserted.
    Insert,
    /// Keys are read as vi reads them, and move the cursor.
    Navigation,
    /// Keys are read as vi reads them, and typed text replaces what is there.
    Replace,
    /// An operator of vi waits for the text that it works on.
    Operator,
    /// A mark is set.
    Selection,
    /// A menu of completions is open.
    Menu,
    /// An incremental search runs.
    Searching,
    /// An argument is held.
    Argument,
    /// The text may have several lines.
    Multiline,
    /// A suggestion can be taken.
    Suggestion,
    /// The text is empty.
    Empty,
}

/// Which facts hold.
#[derive(Clone, Copy, Debug)]
pub struct Facts {
    // One place for each fact, in the order of `Fact`.
    holding: [bool; 12],
}

impl Model for Facts {
    ghost use Rattle.std.specs.Prelude.{◌≡◌, List, Bool};

    ghost Value = { List Bool };

    ghost view = { λ facts. facts.holding };

    ghost inverse = { λ holding. record { holding = holding } };
}

impl Facts {
    ghost use Rattle.std.specs.Prelude.{◌≡◌, false, ◌||◌};
    ghost use Rattle.key_proc.specs.declared.facts.Fact.{Fact};
    ghost use Rattle.key_proc.specs.Facts.{has, is_same_fact};

    /// Returns facts of which none holds.
    pub fn none() -> Facts
        ensures { (fact : Fact) → has result fact ≡ false }
    {
        Facts {
            holding: [false; 12],
        }
    }

    /// Returns the same facts with this one.
    pub fn with(self, fact: Fact) -> Facts
        ensures { (other : Fact) → has result other ≡ (is_same_fact other fact || has self other) }
    {
        let mut holding = self.holding;
        holding[fact as usize] = true;
        Facts { holding }
    }

    /// Tells whether a fact holds.
    pub fn has(&self, fact: Fact) -> bool
        ensures { result ≡ has self.now fact }
    {
        self.holding[fact as usize]
    }
}
