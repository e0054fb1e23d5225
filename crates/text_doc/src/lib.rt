//! Documents: a text with a cursor and perhaps a mark, its places and its edits.
#![tactic(auto)]

mod brackets;
mod comparing;
mod completions;
mod documents;
mod faults;
mod finds;
mod gap_buffers;
mod indexed_texts;
mod lines;
mod places;
mod row_starts;
#[cfg(test)]
mod row_tests;
mod rows;
#[cfg(test)]
mod tests;
mod words;

pub use completions::{Completion, Completions};
pub use documents::{Doc, MAX_LENGTH};
pub use faults::InsertFault;
pub use lines::{TextUnit, cut_line};
pub use sequences::{Bytes, Item, Lines, NoMemory, Sequence, Text};
pub use words::{Class, class_of};
