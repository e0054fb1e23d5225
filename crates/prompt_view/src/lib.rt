//! The drawing of a prompt: its text, what floats over it, and the bars below it.
#![tactic(auto)]

mod bars;
#[cfg(test)]
mod drawing_cases;
#[cfg(test)]
mod drawing_tests;
mod drawings;
mod floats;
pub mod laws;
mod lines;
mod menus;
mod panes;
mod rooms;
mod scenes;
mod scrolls;
#[cfg(test)]
mod tests;

pub use drawings::drawing;
pub use scenes::{Direction, Scene, SceneLooks, Selection};
pub use scrolls::settled_scroll;
