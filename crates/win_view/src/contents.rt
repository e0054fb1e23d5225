//! What a window shows.
use cell_grid::CellRows;

/// Lines of cells, with the cursor on a cell of one of them. Both are counted from 0, and a Tail counts as a cell.
#[derive(Debug, Drop)]
pub struct Content {
    pub lines: CellRows,
    pub line: usize,
    pub cell: usize,
    /// Whether lines wrap. A line that doesn't is one row, of which the window shows some columns.
    pub wrap: bool,
}
