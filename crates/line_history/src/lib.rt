//! The history file of a prompt: its entries, the bytes of an entry, and the keepers that such a file is kept by.
#![tactic(auto)]

mod entries;
mod files;
mod keepers;
pub mod laws;
mod progress;
#[cfg(test)]
mod tests;

pub use entries::entry_text;
pub use files::read_entries;
pub use keepers::{Keeper, KeeperFault, MemoryKeeper};
