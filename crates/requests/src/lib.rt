//! Requests for answers: what is asked for, the whole answer to a request, and the batches that it is cut into.
#![tactic(auto)]

mod answers;
mod batches;
mod items;
pub mod laws;
mod requests;
#[cfg(test)]
mod tests;

pub use answers::Answer;
pub use batches::Batch;
pub use items::{BATCH_SIZE, Items};
pub use requests::{Kind, Request};
pub use std::alloc::AllocError as NoMemory;
