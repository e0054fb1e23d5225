//! How a split divides its room among its children: dimensions, their totals, and the division by turns.
#![tactic(auto)]

mod dimension;
pub mod laws;
#[cfg(test)]
mod plain;
mod room;
mod stage;
#[cfg(test)]
mod tests;
mod totals;

pub use dimension::{Dimension, DimensionFault};
pub use room::{Sizes, divide};
pub use sequences::NoMemory;
pub use totals::{largest, sum};
