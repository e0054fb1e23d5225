//! The lines that a text is drawn on: what stands before, among and behind its characters, and where its places are.
#![tactic(auto)]

mod changes;
mod contents;
mod drawn_texts;
mod flows;
mod kept_rows;
#[cfg(test)]
mod kept_tests;
mod layings;
mod lines;
mod looks;
mod marks;
mod places;
#[cfg(test)]
mod tests;

pub use contents::content;
pub use drawn_texts::DrawnText;
pub use kept_rows::TextRows;
pub use looks::Looks;
pub use places::{Place, place_of};
