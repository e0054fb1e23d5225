//! The terminal that a run enters before its first prompt, and leaves behind its last.
ghost use Rattle.std.specs.Prelude.{◌≡◌, ℕ, Option, None, Some, IfOk, OnOk, OnErr};
ghost use Rattle.causes.specs.Faults.{HasCause};
ghost use Rattle.ports.specs.Entries.{Entries, after_entry, told_mode};
ghost use Rattle.ports.specs.declared.ttys.Mode.{Mode};
ghost use Rattle.ports.specs.declared.ttys.Mode.TheVariants.{Cooked, Raw};

use crate::faults::{Failed, FailingCalls};
use cell_grid::Size;
use std::marker::Model;

/// How a terminal hands on what is typed.
#[derive(Clone, Copy, Debug, PartialEq, Eq)]
pub enum Mode {
    /// It edits and echoes whole lines itself.
    Cooked,
    /// It hands on each byte as it comes, and echoes none.
    Raw,
}

/// What a terminal says to who enters it.
#[derive(Clone, Copy, Debug)]
pub struct Entered {
    /// Its size.
    pub size: Size,
    /// The present moment, in milliseconds since 1970.
    pub moment: u64,
}

/// A terminal that is entered, which makes it raw, and left, which makes it cooked.
pub trait Tty {
    // The mode, where the terminal tells it.
    ghost mode: { Self → Option Mode };

    ghost entries: { Self → Entries };

    ghost faults: { Self → ℕ };

    /// Makes the terminal raw, and returns its size and the present moment. Where it fails the mode is as before.
    fn enter(&mut self) -> Result<Entered, Failed>
        ensures raw { OnOk result (mode self.new ≡ told_mode (mode self.old) Raw) }
        ensures entered { IfOk result (λ entered.
            entries self.new ≡ after_entry (entries self.old) entered) }
        ensures same_mode { OnErr result (mode self.new ≡ mode self.old) }
        ensures same_entries { OnErr result (entries self.new ≡ entries self.old) }
        ensures cause { HasCause (faults self.old) (faults self.new) result };

    /// Makes the terminal cooked. Where it fails nothing is said of the mode.
    fn leave(&mut self) -> Result<(), Failed>
        ensures cooked { OnOk result (mode self.new ≡ told_mode (mode self.old) Cooked) }
        ensures same_entries { entries self.new ≡ entries self.old }
        ensures cause { HasCause (faults self.old) (faults self.new) result };
}

/// A terminal in memory, which is cooked at first, and gives the same each time that it is entered.
#[derive(Debug, Drop)]
pub struct MemoryTty {
    mode: Mode,
    count: u64,
    last: Option<Entered>,
    gives: Entered,
    failing: FailingCalls,
}

impl Model for MemoryTty {
    ghost use Rattle.ports.specs.Entries.{TtyState};

    ghost Value = { TtyState };

    ghost view = { λ t. record {
      mode = t.mode;
      entries = record { count = t.count; last = t.last };
      gives = t.gives;
      faults = t.failing;
    } };
}

impl MemoryTty {
    /// Returns a terminal that gives this to who enters it, and of which the calls with these numbers fail. `enter` and
    /// `leave` are numbered together.
    pub fn new(gives: Entered, failing: FailingCalls) -> MemoryTty
        ensures mode { result.mode ≡ Cooked }
        ensures entries { result.entries ≡ record { count = 0; last = None } }
        ensures gives { result.gives ≡ gives }
        ensures faults { result.faults ≡ failing }
    {
        MemoryTty {
            mode: Mode::Cooked,
            count: 0,
            last: None,
            gives,
            failing,
        }
    }

    /// Returns the present mode.
    pub fn mode(&self) -> Mode
        ensures { result ≡ self.now.mode }
    {
        self.mode
    }

    /// Returns how often it was entered. The count stands still at its last number.
    pub fn entries(&self) -> u64
        ensures { result ≡ self.now.entries.count }
    {
        self.count
    }

    /// Returns the number of calls that failed so far.
    pub fn faults(&self) -> u64
        ensures { result ≡ self.now.faults }
    {
        self.failing.faults()
    }
}

impl Tty for MemoryTty {
    ghost mode = { λ t. Some t.mode };

    ghost entries = { λ t. t.entries };

    ghost faults = { λ t. t.faults };

    /// Makes the terminal raw, and returns what it was made to give. Where it fails only the count of faults changes.
    fn enter(&mut self) -> Result<Entered, Failed>
        ensures given { IfOk result (λ entered. entered ≡ self.old.gives) }
        ensures entered { OnOk result (self.new ≡ record self.old {
          mode = Raw;
          entries = after_entry self.old.entries self.old.gives;
        }) }
        ensures refused { OnErr result (self.new ≡ record self.old { faults = self.new.faults }) }
        ensures cause { HasCause self.old.faults self.new.faults result }
    {
        self.failing.admit()?;
        self.mode = Mode::Raw;
        self.count = self.count.saturating_add(1);
        self.last = Some(self.gives);
        Ok(self.gives)
    }

    /// Makes the terminal cooked. Where it fails only the count of faults changes, and the mode is as before.
    fn leave(&mut self) -> Result<(), Failed>
        ensures left { OnOk result (self.new ≡ record self.old { mode = Cooked }) }
        ensures refused { OnErr result (self.new ≡ record self.old { faults = self.new.faults }) }
        ensures cause { HasCause self.old.faults self.new.faults result }
    {
        let admitted = self.failing.admit();
        if admitted.is_ok() {
            self.mode = Mode::Cooked;
        }
        admitted
    }
}
