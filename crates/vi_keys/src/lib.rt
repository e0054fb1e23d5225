//! The commands of vi's keys, and the table that binds them.
#![tactic(auto)]

mod acts;
mod changing;
mod commands;
mod deeds;
mod facts;
#[cfg(test)]
mod key_tests;
pub mod laws;
mod motions;
mod moving;
mod operating;
mod planning;
mod plans;
mod reaches;
mod running;
mod runs;
mod spans;
#[cfg(test)]
mod tests;
mod vi_table;

pub use commands::{FIRST_NUMBER, ViCommand};
pub use facts::vi_facts;
pub use running::{is_ready, run_vi};
pub use vi_table::{VI, vi_bindings};
