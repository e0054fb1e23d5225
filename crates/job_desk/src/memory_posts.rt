//! A post in memory. A clause sees it as what it gave and said so far, and what it is still to give and to say.
ghost use Rattle.std.specs.Prelude.{◌≡◌, ◌+◌, ◌≤◌, [], ◌++◌, drop, take, length, IfOk, IfSome, IfNone, Some, option_to_list, vec_len, vec_capacity};
ghost use Rattle.job_desk.specs.Posts.{Seen, IsShut, after_given, after_live, new_seen, next_answer};

use crate::{NoMemory, Post};
use requests::Request;
use std::alloc::Global;
use std::collections::VecDeque;
use std::marker::Model;

/// A post that gives the requests that it was made with, and says of the open one what it was made to say, one answer for
/// each time that it is asked. It tells both what it gave and which numbers it said were dead.
#[derive(Debug, Drop)]
pub struct MemoryPost {
    requests: Vec<Request>,
    taken: usize,
    left: VecDeque<Request>,
    answers: VecDeque<bool>,
    refused: Vec<u64>,
    asked: u64,
    shut: u64,
    open_id: Option<u64>,
}

impl Model for MemoryPost {
    ghost use Rattle.std.specs.Prelude.{◌≡◌, ◌+◌, ◌≤◌, drop, take, length, Some, vec_len, vec_capacity};
    ghost use Rattle.job_desk.specs.Posts.{Planned};
    ghost use Rattle.std.specs.Coded.{codes};
    ghost use Rattle.requests.specs.contracts.requests.Request as wanted;

    ghost Value = { Planned };

    ghost coded = { Prim.hlevel (codes, wanted.the_row.coded) };

    ghost view = { λ p. record {
      seen = record { taken = p.taken; asked = p.asked; dead = vec_len p.refused; shut = p.shut; open_id = p.open_id; given = Some (take p.taken p.requests.items); refused = Some p.refused.items };
      left = p.left.items;
      answers = p.answers.items;
    } };

    ghost invariant = { λ p. (drop p.taken p.requests.items ≡ p.left.items) × (p.taken ≤ vec_len p.requests) × (vec_len p.refused + length p.answers.items ≤ vec_capacity p.refused) };
}

impl MemoryPost {
    /// Returns a post that is to give these requests and to say these answers, in order. Takes the room for all that it
    /// keeps.
    pub fn new(
        alloc: Global,
        requests: Vec<Request>,
        answers: Vec<bool>,
    ) -> Result<MemoryPost, NoMemory>
        ensures seen { IfOk result (λ post. post.seen ≡ new_seen (Some []) (Some [])) }
        ensures left { IfOk result (λ post. post.left ≡ requests.items) }
        ensures answers { IfOk result (λ post. post.answers ≡ answers.items) }
    {
        let left = copies(alloc, requests.as_slice())?;
        let answers = queue_of(alloc, answers.as_slice())?;
        let refused = Vec::with_capacity(alloc, answers.len())?;
        Ok(MemoryPost {
            requests,
            taken: 0,
            left,
            answers,
            refused,
            asked: 0,
            shut: 0,
            open_id: None,
        })
    }

    /// Returns the requests that it gave, in order.
    pub fn given(&self) -> &[Request]
        ensures { Some result.now ≡ self.now.seen.given }
    {
        &self.requests.as_slice()[..self.taken]
    }

    /// Returns the numbers of the requests that it said were dead, in order.
    pub fn refused(&self) -> &[u64]
        ensures { Some result.now ≡ self.now.seen.refused }
    {
        self.refused.as_slice()
    }

    /// Returns how often it was asked whether a request is live. The count stands still at its last number.
    pub fn asked(&self) -> u64
        ensures { result ≡ self.now.seen.asked }
    {
        self.asked
    }

    /// Returns how often it gave none. The count stands still at its last number.
    pub fn shut(&self) -> u64
        ensures { result ≡ self.now.seen.shut }
    {
        self.shut
    }
}

impl Post for MemoryPost {
    ghost seen = { λ p. p.seen };

    /// Returns the next of the requests that it was made with. `None` behind the last one.
    fn next(&mut self) -> Option<Request>
        ensures some { IfSome result (λ request. self.new.seen
            ≡ after_given self.old.seen request) }
        ensures none { IfNone result (IsShut self.old.seen self.new.seen) }
        ensures in_order { self.old.left ≡ option_to_list result ++ self.new.left }
        ensures end { IfNone result (self.old.left ≡ []) }
        ensures answers { self.new.answers ≡ self.old.answers }
    {
        match self.left.pop_front() {
            Some(request) => {
                self.taken += 1;
                self.open_id = Some(request.id);
                Some(request)
            }
            None => {
                self.shut = self.shut.saturating_add(1);
                None
            }
        }
    }

    /// Returns the next of the answers that it was made with. True behind the last one.
    fn live(&mut self, id: u64) -> bool
        requires { self.old.seen.open_id ≡ Some id }
        ensures seen { self.new.seen ≡ after_live result self.old.seen id }
        ensures answer { result ≡ next_answer self.old.answers }
        ensures rest { self.new.answers ≡ drop 1 self.old.answers }
        ensures left { self.new.left ≡ self.old.left }
    {
        self.asked = self.asked.saturating_add(1);
        match self.answers.pop_front() {
            Some(false) => {
                self.refused.push_reserved(id);
                self.open_id = None;
                false
            }
            _ => true,
        }
    }
}

/// Returns equal requests, in order.
fn copies(alloc: Global, requests: &[Request]) -> Result<VecDeque<Request>, NoMemory>
    ensures { IfOk result (λ queue. queue.items ≡ requests.now) }
{
    let mut queue = VecDeque::new(alloc);
    for request in requests {
        queue.push_back(request.copy()?)?;
    }
    Ok(queue)
}

/// Returns the answers as a queue.
fn queue_of(alloc: Global, answers: &[bool]) -> Result<VecDeque<bool>, NoMemory>
    ensures { IfOk result (λ queue. queue.items ≡ answers.now) }
{
    let mut queue = VecDeque::new(alloc);
    for answer in answers {
        queue.push_back(*answer)?;
    }
    Ok(queue)
}
