//! Answers for a document that is being edited: completions of the typed word, what a history suggests, and whether the
//! text is valid.
#![tactic(auto)]

mod brackets;
mod distinct;
pub mod laws;
mod listing;
mod matching;
mod nesting;
mod numbers;
mod options;
mod suggesting;
#[cfg(test)]
mod tests;
mod tool_set;
mod trees;
mod typed;
mod validators;

pub use listing::{MAX_COMPLETIONS, completions};
pub use options::{NestedOption, NestedOptions};
pub use std::alloc::AllocError as NoMemory;
pub use suggesting::suggest;
pub use tool_set::Tools;
pub use trees::Completer;
pub use validators::{Validator, Verdict};
