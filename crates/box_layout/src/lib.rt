//! Layouts of windows: splits that divide their room, windows, floats over them, and the drawing of them all.
#![tactic(auto)]

mod areas;
mod asked;
mod boxes;
mod floats;
mod focus;
pub mod laws;
mod listings;
mod nodes;
#[cfg(test)]
mod paint_cases;
#[cfg(test)]
mod paint_tests;
mod paints;
#[cfg(test)]
mod place_cases;
#[cfg(test)]
mod place_shapes;
#[cfg(test)]
mod place_tests;
mod placed;
#[cfg(test)]
mod preferred_tests;
mod shown_rows;

pub use boxes::place;
pub use cell_grid::{Drawing, NoMemory};
pub use listings::preferred;
pub use nodes::{Float, FloatPlace, Floats, Node, Nodes, Pane};
pub use paints::paint;
pub use placed::{Placed, PlacedList, set_scroll};
