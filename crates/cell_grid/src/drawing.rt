//! A drawing: a grid and the place of the cursor in it.
use crate::Grid;

/// What is to be shown: a grid, and the row and the column of the cursor.
#[derive(Debug, Drop)]
pub struct Drawing {
    pub grid: Grid,
    pub row: u32,
    pub col: u32,
}
