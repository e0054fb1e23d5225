//! Laws of answers, each the contract of a function that does nothing.
ghost use Rattle.requests.specs.Laws.{BatchesJoin, BatchesReach};

/// The batches of an answer, from the first to the last, joined are the whole answer.
pub fn batches_join()
    ensures { BatchesJoin }
{}

/// No completion of an answer replaces more than what stands before the cursor of the request's document.
pub fn batches_reach()
    ensures { BatchesReach }
{}
