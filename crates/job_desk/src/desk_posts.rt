//! The post of a worker at a desk.
ghost use Rattle.std.specs.Prelude.{◌≡◌, ◌+◌, None};
ghost use Rattle.job_desk.specs.Posts.{new_seen};

use crate::{Desk, Post};
use requests::Request;
use std::marker::Model;
use std::sync::Wait;

/// The requests that are posted at a desk. It tells neither the requests that it gave nor the numbers of the dead ones.
#[derive(Drop)]
pub struct DeskPost<'a, R: Wait> {
    rt: &'a R,
    desk: &'a Desk,
    taken: u64,
    asked: u64,
    dead: u64,
    shut: u64,
    open_id: Option<u64>,
}

impl<'a, R: Wait> Model for DeskPost<'a, R> {
    ghost use Rattle.std.specs.Prelude.{None};
    ghost use Rattle.job_desk.specs.Posts.{Seen};
    ghost use Rattle.std.specs.Coded.{codes};
    ghost use Rattle.requests.specs.contracts.requests.Request as wanted;

    ghost Value = { Seen };

    ghost coded = { Prim.hlevel (codes, wanted.the_row.coded) };

    ghost view = { λ p. record { taken = p.taken; asked = p.asked; dead = p.dead; shut = p.shut; open_id = p.open_id; given = None; refused = None } };
}

impl<'a, R: Wait> DeskPost<'a, R> {
    /// Returns the post of a worker at this desk.
    pub fn new(rt: &'a R, desk: &'a Desk) -> DeskPost<'a, R>
        ensures { result ≡ new_seen None None }
    {
        DeskPost {
            rt,
            desk,
            taken: 0,
            asked: 0,
            dead: 0,
            shut: 0,
            open_id: None,
        }
    }
}

impl<'a, R: Wait> Post for DeskPost<'a, R> {
    ghost seen = { λ p. p };

    /// Waits until a request is in the slot or the desk is closed. Waits for ever behind the last number of its count.
    fn next(&mut self) -> Option<Request> {
        let request = self.desk.take(self.rt);
        match &request {
            Some(request) => {
                self.taken = one_more(self.rt, self.taken);
                self.open_id = Some(request.id);
            }
            None => self.shut = self.shut.saturating_add(1),
        }
        request
    }

    fn live(&mut self, id: u64) -> bool {
        self.asked = self.asked.saturating_add(1);
        if self.desk.live(self.rt, id) {
            return true;
        }
        self.dead = one_more(self.rt, self.dead);
        self.open_id = None;
        false
    }
}

/// Returns the next number of a count. Waits for ever behind the last one.
fn one_more<R: Wait>(rt: &R, count: u64) -> u64
    ensures { result ≡ count + 1 }
{
    if count == u64::MAX {
        for _ in rt.forever() {}
        unreachable!()
    }
    count + 1
}
