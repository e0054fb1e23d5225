//! The room that a node of a layout asks for.
ghost use Rattle.std.specs.Prelude.{◌≡◌, [], true, false};
ghost use Rattle.layout_dims.specs.Numbers.{sum_of};
ghost use Rattle.box_layout.specs.Asked.{asked_along};

use layout_dims::{Dimension, sum};

// The rows and the columns that a node asks for.
#[derive(Clone, Copy, Drop)]
pub(crate) struct Asked {
    // Whether it stands in a split at all.
    pub(crate) present: bool,
    pub(crate) rows: Dimension,
    pub(crate) cols: Dimension,
}

impl Asked {
    /// Tells what a node asks for that stands in a split.
    pub(crate) fn here(rows: Dimension, cols: Dimension) -> Asked
        ensures { result ≡ record { present = true; rows = rows; cols = cols } }
    {
        Asked {
            present: true,
            rows,
            cols,
        }
    }

    /// Tells what a node asks for that is not there.
    pub(crate) fn absent() -> Asked
        ensures { result ≡ record { present = false; rows = sum_of []; cols = sum_of [] } }
    {
        Asked {
            present: false,
            rows: sum(&[]),
            cols: sum(&[]),
        }
    }

    /// Returns the columns, or rows, that it asks for.
    pub(crate) fn along(&self, across: bool) -> Dimension
        ensures { result ≡ asked_along across self.now }
    {
        if across { self.cols } else { self.rows }
    }
}
