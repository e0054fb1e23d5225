//! What an answer brings, and the parts that it is cut into.
ghost use Rattle.std.specs.Prelude.{◌≡◌, [], ◌∷◌, length, IfOk};
ghost use Rattle.requests.specs.Whole.{completions_for, answer_to};
ghost use Rattle.requests.specs.Batching.{count_in, needed_batches};
ghost use Rattle.requests.specs.Answers.{parts_left};

use crate::{Kind, NoMemory, Request};
use completers::{Tools, Verdict, completions, suggest};
use std::alloc::Global;
use text_doc::{Completion, Completions, Text};

/// The most completions that a batch has.
pub const BATCH_SIZE: usize = 64;

/// What an answer or a part of it brings, by the kind of its request.
#[derive(Debug, Drop)]
pub enum Items {
    Completions(Completions),
    Suggestion(Option<Text>),
    Verdict(Verdict),
}

impl Items {
    /// Returns equal items.
    pub fn copy(&self) -> Result<Items, NoMemory>
        ensures { IfOk result (λ copy. copy ≡ self.now) }
    {
        match self {
            Items::Completions(items) => {
                let items = items.copy()?;
                Ok(Items::Completions(items))
            }
            Items::Suggestion(None) => Ok(Items::Suggestion(None)),
            Items::Suggestion(Some(text)) => {
                let text = text.copy()?;
                Ok(Items::Suggestion(Some(text)))
            }
            Items::Verdict(verdict) => {
                let verdict = verdict.copy()?;
                Ok(Items::Verdict(verdict))
            }
        }
    }
}

/// Works out the answer to a request. Returns its parts, the last one first.
pub(crate) fn parts_of(alloc: Global, request: &Request) -> Result<Vec<Items>, NoMemory>
    ensures { IfOk result (λ parts.
        parts.items ≡ parts_left (answer_to request.now) (count_in (answer_to request.now))) }
{
    match request.kind {
        Kind::Complete => {
            let items = all_completions(alloc, request)?;
            let parts = cut(alloc, items)?;
            Ok(parts)
        }
        Kind::Suggest => {
            let tools: &Tools = &request.tools;
            let text = suggest(alloc, &tools.history, &request.doc)?;
            let parts = single(alloc, Items::Suggestion(text))?;
            Ok(parts)
        }
        Kind::Check => {
            let tools: &Tools = &request.tools;
            let verdict = tools.validator.check(alloc, &request.doc)?;
            let parts = single(alloc, Items::Verdict(verdict))?;
            Ok(parts)
        }
    }
}

/// Returns all completions that a request asks for.
fn all_completions(alloc: Global, request: &Request) -> Result<Vec<Completion>, NoMemory>
    ensures { IfOk result (λ items. items.items ≡ completions_for request.now) }
{
    let tools: &Tools = &request.tools;
    match &tools.completer {
        None => Ok(Vec::new(alloc)),
        Some(completer) => {
            let items = completions(alloc, completer, &request.doc)?;
            Ok(items.into_vec())
        }
    }
}

/// Cuts completions into parts. Returns these, the last one first.
fn cut(alloc: Global, mut items: Vec<Completion>) -> Result<Vec<Items>, NoMemory>
    ensures { IfOk result (λ parts.
        parts.items ≡ parts_left (Items.Completions items.items) (needed_batches (length items.items))) }
{
    let count = needed_batches(items.len());
    let mut parts = Vec::with_capacity(alloc, count)?;
    for number in (0..count).rev() {
        let part = items.split_off(BATCH_SIZE * number)?;
        parts.push(Items::Completions(Completions::from_vec(part)))?;
    }
    Ok(parts)
}

/// Returns the number of parts of as many completions.
fn needed_batches(count: usize) -> usize
    ensures { result ≡ needed_batches count }
{
    count.div_ceil(BATCH_SIZE).max(1)
}

/// Returns an answer that is one part.
fn single(alloc: Global, items: Items) -> Result<Vec<Items>, NoMemory>
    ensures { IfOk result (λ parts. parts.items ≡ items ∷ []) }
{
    let mut parts = Vec::new(alloc);
    parts.push(items)?;
    Ok(parts)
}
