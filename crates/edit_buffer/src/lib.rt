//! A buffer that is edited, with undo, working lines and a menu of completions, and a ring of clips.
#![tactic(auto)]

mod buffers;
mod edits;
mod faults;
pub mod laws;
mod menus;
mod moves;
mod replacements;
mod rings;
mod snapshots;
#[cfg(test)]
mod tests;
mod undo;

pub use buffers::{Buffer, MAX_ENTRIES, keep_newest};
pub use edits::{Applied, Edit};
pub use faults::EditFault;
pub use menus::{MAX_ITEMS, Menu};
pub use rings::{Clip, MAX_CLIPS, Ring};
pub use undo::MAX_PAIRS;
// A crate can name a buffer in a contract only if the types of its fields are exported.
#[doc(hidden)]
pub use snapshots::Snapshot;
