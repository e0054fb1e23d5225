//! A batch: a part of the answer to a request. A clause sees it as its fields.
ghost use Rattle.std.specs.Prelude.{◌≡◌, IfOk};
ghost use Rattle.requests.specs.Batches.{IsBatch, IsWithin, numbered};

use crate::{Answer, Items, NoMemory, Request};
use std::alloc::Global;
use std::marker::Model;
use std::sync::Arc;

/// A part of the answer to a request. Completions come in batches of `BATCH_SIZE`, the last of which may be shorter, and
/// one that is empty where there are none; a suggestion or a verdict is one batch, with the number 0.
///
/// The batches of an answer share its request.
#[derive(Debug, Drop)]
pub struct Batch {
    request: Arc<Request>,
    number: u32,
    items: Items,
    last: bool,
}

impl Model for Batch {
    ghost use Rattle.requests.specs.Batches.{BatchFields, IsBatch};
    ghost use Rattle.std.specs.Coded.{codes};
    ghost use Rattle.requests.specs.contracts.requests.Request as asked;

    ghost Value = { BatchFields };

    ghost coded = { Prim.hlevel (codes, asked.the_row.coded) };

    ghost view = { λ b. record { request = b.request.value; number = b.number; items = b.items; last = b.last } };

    ghost invariant = { λ b. IsBatch (record { request = b.request.value; number = b.number; items = b.items; last = b.last }) };
}

impl Batch {
    /// Returns the batch with this number, from 0 on, of the answer to a request. `None` where the answer has no such
    /// batch.
    ///
    /// The whole answer is worked out for it. Who wants more than one batch cuts them from one `Answer`.
    pub fn make(alloc: Global, request: &Request, number: u32) -> Result<Option<Batch>, NoMemory>
        ensures { IfOk result (λ made. made ≡ numbered request.now number) }
    {
        let mut answer = Answer::new(alloc, request.copy()?)?;
        for _ in 0..number {
            if answer.next_batch()?.is_none() {
                return Ok(None);
            }
        }
        let batch = answer.next_batch()?;
        Ok(batch)
    }

    /// Puts a batch together of its request, its number, what it brings, and whether it is the last one.
    pub(crate) fn of(request: Arc<Request>, number: u32, items: Items, last: bool) -> Batch
        requires { IsBatch (record {
          request = request.value;
          number = number;
          items = items;
          last = last;
        }) }
        ensures { result ≡ record {
          request = request.value;
          number = number;
          items = items;
          last = last;
        } }
    {
        Batch {
            request,
            number,
            items,
            last,
        }
    }

    /// Returns the request that this answers a part of.
    pub fn request(&self) -> &Request
        ensures request { result.now ≡ self.now.request }
        ensures batch { IsBatch self.now }
    {
        &self.request
    }

    /// Returns the number of the batch, from 0 on.
    pub fn number(&self) -> u32
        ensures number { result ≡ self.now.number }
        ensures batch { IsBatch self.now }
    {
        self.number
    }

    /// Returns what the batch brings. No completion replaces more than what stands before the cursor of the request's
    /// document.
    #[tactic(auto, using(crate::proofs::ReachLemmas::batch_within))]
    pub fn items(&self) -> &Items
        ensures items { result.now ≡ self.now.items }
        ensures batch { IsBatch self.now }
        ensures within { IsWithin self.now.request.doc self.now.items }
    {
        &self.items
    }

    /// Gives away what the batch brings. No completion replaces more than what stands before the cursor of the request's
    /// document.
    #[tactic(auto, using(crate::proofs::ReachLemmas::batch_within))]
    pub fn into_items(self) -> Items
        ensures items { result ≡ self.items }
        ensures batch { IsBatch self }
        ensures within { IsWithin self.request.doc self.items }
    {
        let Batch {
            request: _,
            number: _,
            items,
            last: _,
        } = self;
        items
    }

    /// Returns whether no batch of the answer comes behind this one.
    pub fn last(&self) -> bool
        ensures last { result ≡ self.now.last }
        ensures batch { IsBatch self.now }
    {
        self.last
    }

    /// Returns an equal batch, which shares the request.
    pub fn copy(&self) -> Result<Batch, NoMemory>
        ensures { IfOk result (λ copy. copy ≡ self.now) }
    {
        let items = self.items.copy()?;
        let request = Arc::try_clone(&self.request)?;
        Ok(Batch {
            request,
            number: self.number,
            items,
            last: self.last,
        })
    }
}
