//! The settings of a prompt: their names, and the values that each may have.
#![tactic(auto)]

mod configs;
pub mod laws;
mod names;
mod numbers;
mod sizes;
#[cfg(test)]
mod tests;
mod values;

pub use configs::{Config, SetFault};
pub use numbers::read_number;
pub use sizes::read_size;
