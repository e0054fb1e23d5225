//! A model of a terminal: what bytes do to its screen, by ECMA-48 and by xterm's control sequences.
#![tactic(auto)]

mod fitting;
pub mod laws;
mod lines;
mod numbers;
mod reading;
mod rendition;
mod state;
mod terminal;
#[cfg(test)]
mod tests;

pub use terminal::Terminal;
