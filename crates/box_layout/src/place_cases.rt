//! Layouts with the rectangles of their windows, worked out by hand.
use crate::place_shapes::Shape::{Columns, Over, Plain, Rows, There};
use crate::place_shapes::Spot::{Near, Right};
use crate::place_shapes::{Case, FIVE, NINE, NONE, ONE, REST, Shape, THREE, TWO, Window};

const WINDOW: Window = Window {
    width: REST,
    height: REST,
    words: "",
    cell: 0,
    focus: false,
};

const ANY: Shape = Plain(WINDOW);

const ROW: Shape = Plain(Window {
    height: ONE,
    ..WINDOW
});

const TWO_ROWS: Shape = Plain(Window {
    height: TWO,
    ..WINDOW
});

// A float of three rows and five columns.
const SMALL: Window = Window {
    width: FIVE,
    height: THREE,
    ..WINDOW
};

const CASE: Case = Case {
    what: "",
    shape: ANY,
    size: (1, 1),
    done: false,
    wanted: None,
};

pub(crate) const SPLITS: [Case; 12] = [
    Case {
        what: "too little room for the minima",
        shape: Rows(&[TWO_ROWS, TWO_ROWS]),
        size: (3, 4),
        wanted: None,
        ..CASE
    },
    Case {
        what: "room for the minima",
        shape: Rows(&[TWO_ROWS, TWO_ROWS]),
        size: (4, 4),
        wanted: Some(&[(0, 0, 2, 4), (2, 0, 2, 4)]),
        ..CASE
    },
    Case {
        what: "a window takes all",
        shape: ROW,
        size: (3, 4),
        wanted: Some(&[(0, 0, 3, 4)]),
        ..CASE
    },
    Case {
        what: "columns between two rows",
        shape: Rows(&[
            ROW,
            Columns(&[
                Plain(Window {
                    width: THREE,
                    ..WINDOW
                }),
                ANY,
            ]),
            ROW,
        ]),
        size: (5, 10),
        wanted: Some(&[(0, 0, 1, 10), (1, 0, 3, 3), (1, 3, 3, 7), (4, 0, 1, 10)]),
        ..CASE
    },
    Case {
        what: "columns between two rows that grow no more",
        shape: Rows(&[
            ROW,
            Columns(&[
                Plain(Window {
                    width: THREE,
                    ..WINDOW
                }),
                ANY,
            ]),
            ROW,
        ]),
        size: (5, 10),
        done: true,
        wanted: Some(&[(0, 0, 1, 10), (1, 0, 1, 3), (1, 3, 1, 1), (2, 0, 1, 10)]),
    },
    Case {
        what: "a part that is not there takes no row",
        shape: Rows(&[ROW, There(false, &ROW), ROW]),
        size: (2, 4),
        wanted: Some(&[(0, 0, 1, 4), (1, 0, 1, 4)]),
        ..CASE
    },
    Case {
        what: "a part that is there takes one",
        shape: Rows(&[ROW, There(true, &ROW), ROW]),
        size: (2, 4),
        wanted: None,
        ..CASE
    },
    Case {
        what: "a part that is there and has its row",
        shape: Rows(&[There(true, &ROW), ROW]),
        size: (2, 4),
        wanted: Some(&[(0, 0, 1, 4), (1, 0, 1, 4)]),
        ..CASE
    },
    Case {
        what: "a part that is not there gives nothing",
        shape: There(false, &TWO_ROWS),
        size: (1, 4),
        wanted: Some(&[]),
        ..CASE
    },
    Case {
        what: "a split without children",
        shape: Columns(&[]),
        size: (1, 4),
        wanted: Some(&[]),
        ..CASE
    },
    Case {
        what: "no division inside a child of size 0",
        shape: Rows(&[
            ROW,
            Columns(&[
                Plain(Window {
                    width: NINE,
                    height: NONE,
                    ..WINDOW
                }),
                Plain(Window {
                    width: NINE,
                    height: NONE,
                    ..WINDOW
                }),
            ]),
        ]),
        size: (1, 10),
        wanted: Some(&[(0, 0, 1, 10)]),
        ..CASE
    },
    Case {
        what: "too little room inside a child",
        shape: Rows(&[
            ROW,
            Columns(&[
                Plain(Window {
                    width: NINE,
                    ..WINDOW
                }),
                Plain(Window {
                    width: NINE,
                    ..WINDOW
                }),
            ]),
        ]),
        size: (3, 10),
        wanted: None,
        ..CASE
    },
];

// Floats over a window that takes all.
pub(crate) const NEAR: [Case; 14] = [
    Case {
        what: "below",
        shape: Over(&ANY, &[(SMALL, Near(2, 4))]),
        size: (10, 20),
        wanted: Some(&[(0, 0, 10, 20), (3, 4, 3, 5)]),
        ..CASE
    },
    Case {
        what: "below, as it just fits",
        shape: Over(&ANY, &[(SMALL, Near(6, 4))]),
        size: (10, 20),
        wanted: Some(&[(0, 0, 10, 20), (7, 4, 3, 5)]),
        ..CASE
    },
    Case {
        what: "above",
        shape: Over(&ANY, &[(SMALL, Near(7, 4))]),
        size: (10, 20),
        wanted: Some(&[(0, 0, 10, 20), (4, 4, 3, 5)]),
        ..CASE
    },
    Case {
        what: "too little room both ways, below",
        shape: Over(
            &ANY,
            &[(
                Window {
                    height: NINE,
                    ..SMALL
                },
                Near(2, 0),
            )],
        ),
        size: (5, 20),
        wanted: Some(&[(0, 0, 5, 20), (3, 0, 2, 5)]),
        ..CASE
    },
    Case {
        what: "too little room both ways, above",
        shape: Over(
            &ANY,
            &[(
                Window {
                    height: NINE,
                    ..SMALL
                },
                Near(3, 0),
            )],
        ),
        size: (5, 20),
        wanted: Some(&[(0, 0, 5, 20), (0, 0, 3, 5)]),
        ..CASE
    },
    Case {
        what: "moved left",
        shape: Over(&ANY, &[(SMALL, Near(0, 18))]),
        size: (10, 20),
        wanted: Some(&[(0, 0, 10, 20), (1, 15, 3, 5)]),
        ..CASE
    },
    Case {
        what: "wider than the box",
        shape: Over(&ANY, &[(SMALL, Near(0, 2))]),
        size: (10, 4),
        wanted: Some(&[(0, 0, 10, 4), (1, 0, 3, 4)]),
        ..CASE
    },
    Case {
        what: "a row outside the box",
        shape: Over(&ANY, &[(SMALL, Near(10, 0))]),
        size: (10, 20),
        wanted: Some(&[(0, 0, 10, 20)]),
        ..CASE
    },
    Case {
        what: "a column outside the box",
        shape: Over(&ANY, &[(SMALL, Near(0, 20))]),
        size: (10, 20),
        wanted: Some(&[(0, 0, 10, 20)]),
        ..CASE
    },
    Case {
        what: "no row for it",
        shape: Over(&ANY, &[(SMALL, Near(0, 0))]),
        size: (1, 20),
        wanted: Some(&[(0, 0, 1, 20)]),
        ..CASE
    },
    Case {
        what: "of width 0",
        shape: Over(
            &ANY,
            &[(
                Window {
                    width: NONE,
                    ..SMALL
                },
                Near(2, 4),
            )],
        ),
        size: (10, 20),
        wanted: Some(&[(0, 0, 10, 20)]),
        ..CASE
    },
    Case {
        what: "of height 0",
        shape: Over(
            &ANY,
            &[(
                Window {
                    height: NONE,
                    ..SMALL
                },
                Near(2, 4),
            )],
        ),
        size: (10, 20),
        wanted: Some(&[(0, 0, 10, 20)]),
        ..CASE
    },
    Case {
        what: "in a box further down and right",
        shape: Rows(&[
            TWO_ROWS,
            Columns(&[
                Plain(Window {
                    width: THREE,
                    ..WINDOW
                }),
                Over(&ANY, &[(SMALL, Near(4, 16)), (SMALL, Near(0, 1))]),
            ]),
        ]),
        size: (8, 20),
        wanted: Some(&[
            (0, 0, 2, 20),
            (2, 0, 6, 3),
            (2, 3, 6, 17),
            (3, 15, 3, 5),
            (3, 4, 3, 5),
        ]),
        ..CASE
    },
    Case {
        what: "too little room under it",
        shape: Over(&Rows(&[TWO_ROWS, TWO_ROWS]), &[(SMALL, Near(0, 0))]),
        size: (3, 20),
        wanted: None,
        ..CASE
    },
];

// A window that shows these characters.
const TEXT: Window = Window {
    words: "abcdefg",
    ..WINDOW
};

const LETTERS: Window = Window {
    words: "xy",
    ..SMALL
};

pub(crate) const RIGHT: [Case; 9] = [
    Case {
        what: "it fits, with its text's end before it",
        shape: Over(
            &Plain(TEXT),
            &[(
                Window {
                    width: THREE,
                    ..SMALL
                },
                Right,
            )],
        ),
        size: (2, 10),
        wanted: Some(&[(0, 0, 2, 10), (0, 7, 1, 3)]),
        ..CASE
    },
    Case {
        what: "over text",
        shape: Over(
            &Plain(Window {
                words: "abcdefgh",
                ..WINDOW
            }),
            &[(
                Window {
                    width: THREE,
                    ..SMALL
                },
                Right,
            )],
        ),
        size: (2, 10),
        wanted: Some(&[(0, 0, 2, 10)]),
        ..CASE
    },
    Case {
        what: "over the cursor",
        shape: Over(
            &Plain(Window {
                cell: 7,
                focus: true,
                ..TEXT
            }),
            &[(
                Window {
                    width: THREE,
                    ..SMALL
                },
                Right,
            )],
        ),
        size: (2, 10),
        wanted: Some(&[(0, 0, 2, 10)]),
        ..CASE
    },
    Case {
        what: "the cursor is before it",
        shape: Over(
            &Plain(Window {
                cell: 6,
                focus: true,
                ..TEXT
            }),
            &[(
                Window {
                    width: THREE,
                    ..SMALL
                },
                Right,
            )],
        ),
        size: (2, 10),
        wanted: Some(&[(0, 0, 2, 10), (0, 7, 1, 3)]),
        ..CASE
    },
    Case {
        what: "over a cursor without the focus",
        shape: Over(
            &Plain(Window { cell: 7, ..TEXT }),
            &[(
                Window {
                    width: THREE,
                    ..SMALL
                },
                Right,
            )],
        ),
        size: (2, 10),
        wanted: Some(&[(0, 0, 2, 10), (0, 7, 1, 3)]),
        ..CASE
    },
    Case {
        what: "as wide as the box",
        shape: Over(&ANY, &[(SMALL, Right)]),
        size: (2, 5),
        wanted: Some(&[(0, 0, 2, 5), (0, 0, 1, 5)]),
        ..CASE
    },
    Case {
        what: "in a box too narrow",
        shape: Over(&ANY, &[(SMALL, Right)]),
        size: (2, 4),
        wanted: Some(&[(0, 0, 2, 4)]),
        ..CASE
    },
    Case {
        what: "over an earlier float's text",
        shape: Over(&ANY, &[(LETTERS, Right), (SMALL, Right)]),
        size: (2, 10),
        wanted: Some(&[(0, 0, 2, 10), (0, 5, 1, 5)]),
        ..CASE
    },
    Case {
        what: "of width 0",
        shape: Over(
            &ANY,
            &[(
                Window {
                    width: NONE,
                    ..SMALL
                },
                Right,
            )],
        ),
        size: (2, 10),
        wanted: Some(&[(0, 0, 2, 10)]),
        ..CASE
    },
];
