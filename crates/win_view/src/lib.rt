//! The view of a window: lines that wrap, a scroll that follows the cursor, and the cells that the window shows.
#![tactic(auto)]

mod contents;
mod cursors;
mod cuts;
mod first_rows;
mod heights;
pub mod laws;
mod layings;
mod narrow_cells;
mod places;
mod rows;
mod scrolls;
mod settles;
mod shows;
#[cfg(test)]
mod tests;
mod viewports;
mod views;
mod wraps;

pub use contents::Content;
pub use cursors::seen_cursor;
pub use heights::height;
pub use rows::count_rows;
pub use scrolls::{Scroll, scroll_to};
pub use settles::settle;
pub use shows::show;
pub use viewports::Viewport;
pub use views::{WindowView, view, view_with};
pub use wraps::wrap;
