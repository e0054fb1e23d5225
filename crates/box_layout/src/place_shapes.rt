//! The words in which the layouts of tests are written.

// A minimum, a maximum, a weight and a preferred size.
pub(crate) type Numbers = (u32, u32, u32, u32);

pub(crate) const REST: Numbers = (0, 1_000_000, 1, 1);

pub(crate) const NONE: Numbers = (0, 0, 1, 0);

pub(crate) const ONE: Numbers = (1, 1, 1, 1);

pub(crate) const TWO: Numbers = (2, 2, 1, 2);

pub(crate) const THREE: Numbers = (3, 3, 1, 3);

pub(crate) const FIVE: Numbers = (5, 5, 1, 5);

pub(crate) const NINE: Numbers = (9, 9, 1, 9);

// A window that shows one line and a blank behind it, with the cursor on one of their cells.
#[derive(Clone, Copy)]
pub(crate) struct Window {
    pub(crate) width: Numbers,
    pub(crate) height: Numbers,
    pub(crate) words: &'static str,
    pub(crate) cell: usize,
    pub(crate) focus: bool,
}

#[derive(Clone, Copy)]
pub(crate) enum Spot {
    Right,
    Near(u32, u32),
}

#[derive(Clone, Copy)]
pub(crate) enum Shape {
    Rows(&'static [Shape]),
    Columns(&'static [Shape]),
    Plain(Window),
    There(bool, &'static Shape),
    Over(&'static Shape, &'static [(Window, Spot)]),
}

// A layout in a drawing of so many rows and columns, with the first row, the first column, the
// rows and the columns of each window, or without a place for them.
#[derive(Clone, Copy)]
pub(crate) struct Case {
    pub(crate) what: &'static str,
    pub(crate) shape: Shape,
    pub(crate) size: (u32, u32),
    pub(crate) done: bool,
    pub(crate) wanted: Option<&'static [(u32, u32, u32, u32)]>,
}
