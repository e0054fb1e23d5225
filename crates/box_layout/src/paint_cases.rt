//! Windows at their places, and what they show, worked out by hand.
use Look::{Bold, Plain, Reversed, Underlined};

/// The attributes of characters.
#[derive(Clone, Copy)]
pub enum Look {
    Plain,
    Bold,
    Underlined,
    Reversed,
}

/// Characters of one look.
pub type Run = (&'static str, Look);

/// What a window shows and where: bold lines over plain blanks, if nothing else is said.
#[derive(Clone, Copy)]
pub struct Window {
    pub lines: &'static [&'static str],
    pub look: Look,
    pub behind: Look,
    pub wrap: bool,
    /// The cursor's line and cell.
    pub cursor: (usize, usize),
    /// How far it is scrolled down and across.
    pub scroll: (u32, u32),
    /// Its first row and column.
    pub place: (u32, u32),
    /// Its rows and columns.
    pub size: (u32, u32),
    pub focus: bool,
}

/// A window of one place.
pub const WINDOW: Window = Window {
    lines: &[" "],
    look: Bold,
    behind: Plain,
    wrap: false,
    cursor: (0, 0),
    scroll: (0, 0),
    place: (0, 0),
    size: (1, 1),
    focus: false,
};

/// Windows, and what a drawing of them shows.
#[derive(Clone, Copy)]
pub struct Case {
    pub what: &'static str,
    pub windows: &'static [Window],
    /// The drawing's rows and columns.
    pub size: (u32, u32),
    pub rows: &'static [&'static [Run]],
    /// The cursor of the last window with the focus.
    pub cursor: Option<(u32, u32)>,
}

const LETTERS: Window = Window {
    lines: &["abcdef", "ghijkl"],
    size: (2, 6),
    ..WINDOW
};

// Two columns of text in a window of three.
const NOTE: Window = Window {
    lines: &["xy"],
    look: Underlined,
    behind: Reversed,
    place: (0, 2),
    size: (1, 3),
    ..WINDOW
};

const WIDE: Window = Window {
    lines: &["a中b国c"],
    size: (1, 7),
    ..WINDOW
};

const OVER: Window = Window {
    lines: &["xyz"],
    look: Underlined,
    ..WINDOW
};

/// The drawings.
pub const CASES: [Case; 15] = [
    Case {
        what: "no windows",
        windows: &[],
        size: (2, 2),
        rows: &[&[("  ", Plain)], &[("  ", Plain)]],
        cursor: None,
    },
    Case {
        what: "the later of two windows is shown",
        windows: &[LETTERS, NOTE],
        size: (2, 6),
        rows: &[
            &[
                ("ab", Bold),
                ("xy", Underlined),
                (" ", Reversed),
                ("f", Bold),
            ],
            &[("ghijkl", Bold)],
        ],
        cursor: None,
    },
    Case {
        what: "the earlier of two windows is covered",
        windows: &[NOTE, LETTERS],
        size: (2, 6),
        rows: &[&[("abcdef", Bold)], &[("ghijkl", Bold)]],
        cursor: None,
    },
    Case {
        what: "wide characters cut on either side",
        windows: &[
            WIDE,
            Window {
                place: (0, 2),
                size: (1, 3),
                ..OVER
            },
        ],
        size: (1, 7),
        rows: &[&[
            ("a", Bold),
            (" ", Plain),
            ("xyz", Underlined),
            (" ", Plain),
            ("c", Bold),
        ]],
        cursor: None,
    },
    Case {
        what: "a wide character covered whole",
        windows: &[
            WIDE,
            Window {
                lines: &["xy"],
                place: (0, 1),
                size: (1, 2),
                ..OVER
            },
        ],
        size: (1, 7),
        rows: &[&[("a", Bold), ("xy", Underlined), ("b国c", Bold)]],
        cursor: None,
    },
    Case {
        what: "a wide character over half of another",
        windows: &[
            WIDE,
            Window {
                lines: &["人"],
                place: (0, 2),
                size: (1, 2),
                ..OVER
            },
        ],
        size: (1, 7),
        rows: &[&[("a", Bold), (" ", Plain), ("人", Underlined), ("国c", Bold)]],
        cursor: None,
    },
    Case {
        what: "the half that was left is covered later",
        windows: &[
            WIDE,
            Window {
                lines: &["x"],
                place: (0, 2),
                ..OVER
            },
            Window {
                lines: &["y"],
                place: (0, 1),
                ..OVER
            },
        ],
        size: (1, 7),
        rows: &[&[("a", Bold), ("yx", Underlined), ("b国c", Bold)]],
        cursor: None,
    },
    Case {
        what: "halves at the window's edges",
        windows: &[Window {
            lines: &["中国"],
            scroll: (0, 1),
            place: (0, 1),
            size: (1, 2),
            ..WINDOW
        }],
        size: (1, 4),
        rows: &[&[(" ", Plain), ("  ", Bold), (" ", Plain)]],
        cursor: None,
    },
    Case {
        what: "wide characters that wrap",
        windows: &[Window {
            lines: &["中国"],
            behind: Underlined,
            wrap: true,
            size: (3, 3),
            ..WINDOW
        }],
        size: (3, 4),
        rows: &[
            &[("中", Bold), (" ", Underlined), (" ", Plain)],
            &[("国", Bold), (" ", Underlined), (" ", Plain)],
            &[("   ", Underlined), (" ", Plain)],
        ],
        cursor: None,
    },
    Case {
        what: "the attributes behind the content",
        windows: &[Window {
            lines: &["ab"],
            behind: Reversed,
            place: (1, 1),
            size: (2, 4),
            ..WINDOW
        }],
        size: (3, 6),
        rows: &[
            &[("      ", Plain)],
            &[(" ", Plain), ("ab", Bold), ("  ", Reversed), (" ", Plain)],
            &[(" ", Plain), ("    ", Reversed), (" ", Plain)],
        ],
        cursor: None,
    },
    Case {
        what: "the focus in two windows",
        windows: &[
            Window {
                cursor: (0, 1),
                focus: true,
                ..LETTERS
            },
            Window {
                lines: &["x", "yz"],
                look: Underlined,
                cursor: (1, 1),
                place: (0, 3),
                size: (2, 2),
                focus: true,
                ..WINDOW
            },
            Window {
                lines: &["v"],
                look: Reversed,
                ..WINDOW
            },
        ],
        size: (2, 6),
        rows: &[
            &[
                ("v", Reversed),
                ("bc", Bold),
                ("x", Underlined),
                (" ", Plain),
                ("f", Bold),
            ],
            &[("ghi", Bold), ("yz", Underlined), ("l", Bold)],
        ],
        cursor: Some((1, 4)),
    },
    Case {
        what: "a scroll that hides rows above the cursor",
        windows: &[Window {
            lines: &["a", "b", "cd"],
            cursor: (2, 1),
            scroll: (1, 0),
            place: (1, 1),
            size: (2, 2),
            focus: true,
            ..WINDOW
        }],
        size: (3, 3),
        rows: &[
            &[("   ", Plain)],
            &[(" ", Plain), ("b", Bold), (" ", Plain)],
            &[(" ", Plain), ("cd", Bold)],
        ],
        cursor: Some((2, 2)),
    },
    Case {
        what: "a scroll down that hides wrapped rows",
        windows: &[Window {
            lines: &["abcde"],
            wrap: true,
            cursor: (0, 4),
            scroll: (1, 0),
            place: (0, 2),
            size: (2, 2),
            focus: true,
            ..WINDOW
        }],
        size: (2, 4),
        rows: &[
            &[("  ", Plain), ("cd", Bold)],
            &[("  ", Plain), ("e", Bold), (" ", Plain)],
        ],
        cursor: Some((1, 2)),
    },
    Case {
        what: "a scroll across",
        windows: &[Window {
            lines: &["abcdef"],
            cursor: (0, 4),
            scroll: (0, 3),
            place: (0, 1),
            size: (1, 3),
            focus: true,
            ..WINDOW
        }],
        size: (1, 4),
        rows: &[&[(" ", Plain), ("def", Bold)]],
        cursor: Some((0, 2)),
    },
    Case {
        what: "a scroll beyond the cursor",
        windows: &[Window {
            lines: &["abc", "def"],
            cursor: (0, 1),
            scroll: (1, 2),
            place: (1, 1),
            size: (1, 2),
            focus: true,
            ..WINDOW
        }],
        size: (2, 3),
        rows: &[
            &[("   ", Plain)],
            &[(" ", Plain), ("f", Bold), (" ", Plain)],
        ],
        cursor: Some((1, 1)),
    },
];
