//! The words of the command `prompt`: the options that it takes, and what they ask for.
#![tactic(auto)]

mod commands;
mod outsides;
mod readers;
#[cfg(test)]
mod tests;

pub use outsides::{Outside, outside_of};
pub use readers::{Asked, read_words};
