//! An inbox in memory. A clause sees it as the events that it gave and is still to give.
ghost use Rattle.std.specs.Prelude.{◌≡◌, [], vec_len, take, drop};
ghost use Rattle.events.specs.Inboxes.{Gives};

use crate::events::Event;
use crate::inboxes::{Inbox, InboxFault};
use ports::FailingCalls;
use std::marker::Model;

/// An inbox that gives copies of the events that it was made with, and behind the last one the end of the input for
/// ever.
#[derive(Debug, Drop)]
pub struct MemoryInbox {
    events: Vec<Event>,
    at: usize,
    ends: u64,
    failing: FailingCalls,
}

impl Model for MemoryInbox {
    ghost use Rattle.std.specs.Prelude.{◌≤◌, vec_len, take, drop};
    ghost use Rattle.std.specs.Coded.{codes};
    ghost use Rattle.events.specs.contracts.events.Event as event;
    ghost use Rattle.events.specs.Inboxes.{Supplied};

    ghost Value = { Supplied };

    ghost coded = { Prim.hlevel (codes, event.the_row.coded) };

    ghost view = { λ i. record {
      given = take i.at i.events.items;
      left = drop i.at i.events.items;
      ends = i.ends;
      faults = i.failing;
    } };

    ghost invariant = { λ i. i.at ≤ vec_len i.events };
}

impl MemoryInbox {
    /// Returns an inbox that is to give these events, and of which the calls with these numbers fail.
    pub fn new(events: Vec<Event>, failing: FailingCalls) -> MemoryInbox
        ensures { result ≡ record { given = []; left = events.items; ends = 0; faults = failing } }
    {
        MemoryInbox {
            events,
            at: 0,
            ends: 0,
            failing,
        }
    }

    /// Returns the events that it gave of those that it was made with, in order.
    pub fn given(&self) -> &[Event]
        ensures { result.now ≡ self.now.given }
    {
        &self.events.as_slice()[..self.at]
    }

    /// Returns how often it gave the end of the input behind its last event. The count stands still at its last number.
    pub fn ends(&self) -> u64
        ensures { result ≡ self.now.ends }
    {
        self.ends
    }

    /// Returns the number of calls that failed so far. A call that found no memory is not among them.
    pub fn faults(&self) -> u64
        ensures { result ≡ self.now.faults }
    {
        self.failing.faults()
    }
}

impl Inbox for MemoryInbox {
    ghost heard = { Gives };

    ghost faults = { λ i. i.faults };

    fn next(&mut self) -> Result<Event, InboxFault> {
        self.failing.admit()?;
        match self.events.get(self.at) {
            Some(event) => {
                let event = event.copy()?;
                self.at += 1;
                Ok(event)
            }
            None => {
                self.ends = self.ends.saturating_add(1);
                Ok(Event::End)
            }
        }
    }
}
