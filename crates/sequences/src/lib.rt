//! The one list type, `Sequence`, with its aliases for characters, bytes and texts, and what it is to want memory.
#![tactic(auto)]

mod items;
mod lists;
mod queues;
#[cfg(test)]
mod tests;
mod texts;

pub use items::Item;
pub use lists::Sequence;
pub use queues::Queue;
pub use std::alloc::AllocError as NoMemory;
pub use texts::{Bytes, Lines, Text};
