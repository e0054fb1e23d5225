//! Where a window stands.
use cell_grid::{Attrs, Size};

/// A part of a grid in which a window stands: its first row and column, and its size. Spaces with the attributes
/// `behind` stand in it behind the content.
#[derive(Clone, Copy, Debug)]
pub struct Viewport {
    pub row: u32,
    pub col: u32,
    pub size: Size,
    pub behind: Attrs,
}
