//! The state of a desk. A clause sees it as its fields.
ghost use Rattle.std.specs.Prelude.{◌≡◌, None, if◌then◌else◌};
ghost use Rattle.job_desk.specs.Desks.{IsDesk, new_desk, after_post, post_answer, after_cancel, after_take, after_take_open, after_close, is_live, is_idle};

use requests::Request;
use std::marker::Model;

/// What became of a request that was posted.
#[derive(Debug, Drop)]
pub enum Posted {
    /// It is in the slot, which was empty.
    Placed,
    /// It is in the slot, in place of this one.
    Replaced(Request),
    /// It was refused, and is handed back.
    Refused(Request),
}

/// The state of a desk, where one thread puts a request and another takes it. There is a slot for one request, and at most
/// one number of a request is live: that of the last one that was put in the slot and not cancelled since. Numbers rise
/// from 1 on.
#[derive(Debug, Drop)]
pub struct DeskState {
    slot: Option<Request>,
    live: Option<u64>,
    greatest: u64,
    closed: bool,
    posted: u64,
    taken: u64,
    replaced: u64,
}

impl Model for DeskState {
    ghost use Rattle.job_desk.specs.Desks.{DeskFields, IsDesk};
    ghost use Rattle.std.specs.Coded.{codes};
    ghost use Rattle.requests.specs.contracts.requests.Request as wanted;

    ghost Value = { DeskFields };

    ghost coded = { Prim.hlevel (codes, wanted.the_row.coded) };

    ghost view = { λ d. record { slot = d.slot; live = d.live; greatest = d.greatest; closed = d.closed; posted = d.posted; taken = d.taken; replaced = d.replaced } };

    ghost invariant = { λ d. IsDesk (record { slot = d.slot; live = d.live; greatest = d.greatest; closed = d.closed; posted = d.posted; taken = d.taken; replaced = d.replaced }) };
}

impl DeskState {
    /// Returns the state of a desk at which nothing was posted.
    pub fn new() -> DeskState
        ensures { result ≡ new_desk }
    {
        DeskState {
            slot: None,
            live: None,
            greatest: 0,
            closed: false,
            posted: 0,
            taken: 0,
            replaced: 0,
        }
    }

    /// Puts a request in the slot and makes its number the live one. It is refused, and nothing changes, where its number is
    /// not above all that were posted before.
    pub fn post(&mut self, request: Request) -> Posted
        ensures state { self.new ≡ after_post self.old request }
        ensures answer { result ≡ post_answer self.old request }
    {
        if request.id <= self.greatest {
            return Posted::Refused(request);
        }
        let id = request.id;
        let old = self.slot.replace(request);
        self.live = Some(id);
        self.greatest = id;
        self.posted += 1;
        match old {
            None => Posted::Placed,
            Some(old) => {
                self.replaced += 1;
                Posted::Replaced(old)
            }
        }
    }

    /// Empties the slot and leaves no live number. Returns what was in the slot.
    pub fn cancel(&mut self) -> Option<Request>
        ensures state { self.new ≡ after_cancel self.old }
        ensures request { result ≡ self.old.slot }
    {
        let old = self.slot.take();
        if old.is_some() {
            self.replaced += 1;
        }
        self.live = None;
        old
    }

    /// Hands out the request in the slot, which is empty then. Its number stays live.
    pub fn take(&mut self) -> Option<Request>
        ensures state { self.new ≡ after_take self.old }
        ensures request { result ≡ self.old.slot }
    {
        let request = self.slot.take();
        if request.is_some() {
            self.taken += 1;
        }
        request
    }

    /// Hands out the request in the slot of a desk that is not closed. Of one that is closed it takes none.
    pub fn take_open(&mut self) -> Option<Request>
        ensures state { self.new ≡ after_take_open self.old }
        ensures request { result ≡ (if self.old.closed then None else self.old.slot) }
    {
        if self.closed {
            return None;
        }
        self.take()
    }

    /// Returns whether this number is the live one and the desk is not closed.
    pub fn live(&self, id: u64) -> bool
        ensures { result ≡ is_live self.now id }
    {
        self.live == Some(id) && !self.closed
    }

    /// Closes the desk, for good. What is in the slot can still be taken.
    pub fn close(&mut self)
        ensures { self.new ≡ after_close self.old }
    {
        self.closed = true;
    }

    /// Returns whether the desk is closed.
    pub fn closed(&self) -> bool
        ensures { result ≡ self.now.closed }
    {
        self.closed
    }

    /// Returns whether nothing is to be taken: the slot is empty and the desk is not closed.
    pub fn is_idle(&self) -> bool
        ensures { result ≡ is_idle self.now }
    {
        self.slot.is_none() && !self.closed
    }

    /// Returns how many requests were put in the slot, how many of them were taken, and how many were handed back, for
    /// another one or by a cancel.
    pub fn totals(&self) -> (u64, u64, u64)
        ensures totals { result ≡ (self.now.posted, self.now.taken, self.now.replaced) }
        ensures desk { IsDesk self.now }
    {
        (self.posted, self.taken, self.replaced)
    }
}
