//! The commands of Emacs keys and of an incremental search, and the table that binds them.
#![tactic(auto)]

#[cfg(test)]
mod cases;
pub mod counting;
pub mod deleting;
mod emacs_table;
mod groups;
pub mod inserting;
pub mod killing;
pub mod laws;
mod leaving;
#[cfg(test)]
mod limit_tests;
#[cfg(test)]
mod line_tests;
#[cfg(test)]
mod menu_tests;
pub mod moving;
pub mod pasting;
pub mod restoring;
pub mod rewriting;
#[cfg(test)]
mod run_tests;
mod running;
pub mod searching;
#[cfg(test)]
mod tests;

pub use emacs_table::{EMACS, emacs_bindings};
pub use leaving::Keeps;
pub use running::run;
