//! Where events come from.
ghost use Rattle.std.specs.Prelude.{◌≡◌, ℕ, Result};
ghost use Rattle.causes.specs.Faults.{HasFaultCause};
ghost use Rattle.events.specs.declared.events.Event.{Event};
ghost use Rattle.events.specs.declared.inboxes.InboxFault.{InboxFault};

use crate::events::Event;
use ports::Failed;
use text_doc::NoMemory;
use thiserror::Error;

/// Why an inbox gave no event.
#[derive(Clone, Copy, Debug, PartialEq, Eq, Error)]
pub enum InboxFault {
    /// What the events come from failed. The inbox counts it.
    #[error("what gives the events failed")]
    Failed,
    /// There was no memory for the event.
    #[error("no memory for an event")]
    NoMemory,
}

impl From<Failed> for InboxFault {
    ghost use Rattle.std.specs.Prelude.{◌≡◌};
    ghost use Rattle.events.specs.declared.inboxes.InboxFault.TheVariants.{Failed};

    ghost from_gives = { λ _ fault. fault ≡ Failed };

    fn from(_failed: Failed) -> InboxFault {
        InboxFault::Failed
    }
}

impl From<NoMemory> for InboxFault {
    ghost use Rattle.std.specs.Prelude.{◌≡◌};
    ghost use Rattle.events.specs.declared.inboxes.InboxFault.TheVariants.{NoMemory};

    ghost from_gives = { λ _ fault. fault ≡ NoMemory };

    fn from(_error: NoMemory) -> InboxFault {
        InboxFault::NoMemory
    }
}

/// Where events come from, one after the other.
pub trait Inbox {
    // What one call does to the inbox, by what it answers. So a list of answers tells what a run of calls did, and an
    // inbox that only borrows where its events come from can give its lender that back, with what was taken from it.
    ghost heard: { Self → Result Event InboxFault → Self → Type 0 };

    ghost faults: { Self → ℕ };

    /// Returns the next event. It may wait for it.
    fn next(&mut self) -> Result<Event, InboxFault>
        ensures heard { heard self.old result self.new }
        ensures cause { HasFaultCause InboxFault.Failed
            (faults self.old) (faults self.new) result };
}
