//! Cells, rows and grids of a terminal's screen, and the cells that a text is drawn with.
#![tactic(auto)]

mod attrs;
mod cell;
mod cell_row;
mod cell_text;
mod drawable;
mod drawing;
mod fragment;
mod grid;
mod row_edits;
mod size;
#[cfg(test)]
mod tests;
mod text_cells;

pub use attrs::{Attrs, Colour};
pub use cell::Cell;
pub use cell_row::{CellRow, CellRows};
pub use cell_text::CellText;
pub use drawing::Drawing;
pub use fragment::Fragment;
pub use grid::Grid;
pub use size::Size;
pub use std::alloc::AllocError as NoMemory;
pub use text_cells::cells_of;
