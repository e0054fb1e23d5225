//! A desk that threads share.
ghost use Rattle.std.specs.Prelude.{◌≡◌};
ghost use Rattle.job_desk.specs.Desks.{AreBalanced, DeskFields, post_answer};

use crate::{DeskState, Posted};
use requests::Request;
use std::sync::{Condvar, Mutex, Wait};

/// A desk where one thread puts requests and another takes them. Whenever the lock is free, every request that was posted
/// was taken, was replaced or is in the slot. Each change wakes who waits at the desk.
#[derive(Drop)]
pub struct Desk {
    state: Mutex<DeskState>,
    changed: Condvar,
}

impl Desk {
    /// Returns a desk at which nothing was posted.
    pub fn new() -> Desk {
        Desk {
            state: Mutex::new(DeskState::new()),
            changed: Condvar::new(),
        }
    }

    /// Puts a request in the slot and makes its number the live one, as `DeskState::post` does. Whoever waits for a request
    /// wakes. What it answers is what the desk as it stood then gives.
    pub fn post<R: Wait>(&self, rt: &R, request: Request) -> Posted
        ensures { (desk : DeskFields) × (result ≡ post_answer desk request) }
    {
        let posted = self.state.lock(rt).post(request);
        self.changed.notify_all();
        posted
    }

    /// Empties the slot and leaves no live number. Returns what was in the slot.
    pub fn cancel<R: Wait>(&self, rt: &R) -> Option<Request> {
        let request = self.state.lock(rt).cancel();
        self.changed.notify_all();
        request
    }

    /// Closes the desk, for good. Whoever waits for a request wakes, and takes none.
    pub fn close<R: Wait>(&self, rt: &R) {
        self.state.lock(rt).close();
        self.changed.notify_all();
    }

    /// Returns whether this number is the live one and the desk is not closed.
    pub fn live<R: Wait>(&self, rt: &R, id: u64) -> bool {
        self.state.lock(rt).live(id)
    }

    /// Waits until a request is in the slot or the desk is closed, and takes the request. `None` where the desk is closed.
    pub fn take<R: Wait>(&self, rt: &R) -> Option<Request> {
        let mut state = self
            .changed
            .wait_while(rt, self.state.lock(rt), |state| state.is_idle());
        state.take_open()
    }

    /// Returns how many requests were posted, taken and replaced so far. Those that were posted were taken or replaced, but
    /// for one that may be in the slot.
    pub fn totals<R: Wait>(&self, rt: &R) -> (u64, u64, u64)
        ensures { AreBalanced result }
    {
        self.state.lock(rt).totals()
    }
}
