//! The whole answer to a request, from which its batches are cut in order. A clause sees it as its request and how many
//! batches it gave.
ghost use Rattle.std.specs.Prelude.{◌≡◌, IfOk, OnOk, OnErr};
ghost use Rattle.requests.specs.Batches.{numbered};
ghost use Rattle.requests.specs.Answers.{IsAnswer, new_answer, after_batch};

use crate::items::parts_of;
use crate::{Batch, Items, NoMemory, Request};
use std::alloc::Global;
use std::marker::Model;
use std::sync::Arc;

/// The whole answer to a request, worked out once, however many batches are cut from it.
///
/// What is left of it is kept as its parts, the last one first, so that the next one is taken off the end.
#[derive(Debug, Drop)]
pub struct Answer {
    request: Arc<Request>,
    given: u32,
    parts: Vec<Items>,
}

impl Model for Answer {
    ghost use Rattle.std.specs.Prelude.{◌≡◌, ◌-◌};
    ghost use Rattle.requests.specs.Whole.{answer_to};
    ghost use Rattle.requests.specs.Batching.{batch_count};
    ghost use Rattle.requests.specs.Answers.{AnswerFields, IsAnswer, parts_left};
    ghost use Rattle.std.specs.Coded.{codes};
    ghost use Rattle.requests.specs.contracts.requests.Request as asked;

    ghost Value = { AnswerFields };

    ghost coded = { Prim.hlevel (codes, asked.the_row.coded) };

    ghost view = { λ a. record { request = a.request.value; given = a.given } };

    ghost invariant = { λ a. IsAnswer (record { request = a.request.value; given = a.given })
        × (a.parts.items ≡ parts_left (answer_to a.request.value) (batch_count a.request.value - a.given)) };
}

impl Answer {
    /// Works out the answer to a request.
    pub fn new(alloc: Global, request: Request) -> Result<Answer, NoMemory>
        ensures { IfOk result (λ answer. answer ≡ new_answer request) }
    {
        let parts = parts_of(alloc, &request)?;
        let request = Arc::new(alloc, request)?;
        Ok(Answer {
            request,
            given: 0,
            parts,
        })
    }

    /// Returns the request that this is the answer to.
    pub fn request(&self) -> &Request
        ensures request { result.now ≡ self.now.request }
        ensures answer { IsAnswer self.now }
    {
        &self.request
    }

    /// Returns how many batches were cut from the answer so far, which is the number of the next one.
    pub fn given(&self) -> u32
        ensures given { result ≡ self.now.given }
        ensures answer { IsAnswer self.now }
    {
        self.given
    }

    /// Cuts the next batch from the answer. `None` behind the last one. The items are given away, and not copied.
    pub fn next_batch(&mut self) -> Result<Option<Batch>, NoMemory>
        ensures batch { IfOk result (λ batch. batch ≡ numbered self.old.request self.old.given) }
        ensures ok { OnOk result (self.new ≡ after_batch self.old) }
        ensures err { OnErr result (self.new ≡ self.old) }
    {
        let request = Arc::try_clone(&self.request)?;
        let Some(items) = self.parts.pop() else {
            return Ok(None);
        };
        let number = self.given;
        self.given += 1;
        let last = self.parts.is_empty();
        Ok(Some(Batch::of(request, number, items, last)))
    }
}
