//! Scenes with their drawings, worked out by hand.
use crate::{Direction, Selection};

/// A scene, and its drawing. Each row of the drawing is given by its characters and, for each of its columns, by a
/// letter for the attributes of the cell: `.` for none, `p` of the prompt, `c` of the continuation, `^` of control
/// characters, `s` of the selection, `g` of the suggestion, `r` of the right prompt, `m` of the menu, `!` of its chosen
/// item, `v` of the verdict, `a` of the argument, `i` of the search and `t` of the toolbar.
#[derive(Clone, Copy)]
pub(crate) struct Case {
    pub what: &'static str,
    pub size: (u32, u32),
    pub message: &'static str,
    pub text: &'static str,
    pub cursor: usize,
    pub mark: Option<usize>,
    pub selection: Selection,
    pub multiline: bool,
    pub password: bool,
    pub wrap: bool,
    pub suggestion: &'static str,
    pub items: &'static [&'static str],
    pub chosen: Option<usize>,
    pub origin: usize,
    pub completes: bool,
    pub right_prompt: &'static str,
    pub verdict: &'static str,
    pub argument: &'static str,
    pub search: Option<Direction>,
    pub needle: &'static str,
    pub toolbar: &'static str,
    pub finished: bool,
    pub scroll: (u32, u32),
    pub room: Option<u32>,
    pub wanted_cursor: (u32, u32),
    pub rows: &'static [(&'static str, &'static str)],
}

const CASE: Case = Case {
    what: "",
    size: (3, 10),
    message: "> ",
    text: "a",
    cursor: 0,
    mark: None,
    selection: Selection::Exclusive,
    multiline: true,
    password: false,
    wrap: true,
    suggestion: "",
    items: &[],
    chosen: None,
    origin: 0,
    completes: false,
    right_prompt: "",
    verdict: "",
    argument: "",
    search: None,
    needle: "",
    toolbar: "",
    finished: false,
    scroll: (0, 0),
    room: None,
    wanted_cursor: (0, 2),
    rows: &[],
};

/// Texts, and what stands among their characters and behind them.
pub(crate) static TEXTS: [Case; 4] = [
    Case {
        what: "a text of one row",
        text: "abcd",
        cursor: 2,
        wanted_cursor: (0, 4),
        rows: &[("> abcd    ", "pp........")],
        ..CASE
    },
    Case {
        what: "columns from the scroll on",
        size: (2, 6),
        text: "abcdefgh",
        cursor: 8,
        wrap: false,
        scroll: (0, 5),
        wanted_cursor: (0, 5),
        rows: &[("defgh ", "......")],
        ..CASE
    },
    Case {
        what: "a suggestion behind a control character",
        text: "\u{1}",
        cursor: 1,
        suggestion: "cd",
        wanted_cursor: (0, 4),
        rows: &[("> ^Acd    ", "pp^^gg....")],
        ..CASE
    },
    Case {
        what: "a finished prompt",
        text: "ab",
        cursor: 2,
        mark: Some(0),
        suggestion: "cd",
        items: &["aa"],
        right_prompt: "R",
        toolbar: "T",
        finished: true,
        room: Some(3),
        wanted_cursor: (0, 4),
        rows: &[("> ab      ", "pp........")],
        ..CASE
    },
];

/// Wide characters at the edges of rows.
pub(crate) static WIDE_CHARACTERS: [Case; 5] = [
    Case {
        what: "a wide character before the cursor",
        size: (2, 6),
        message: "",
        text: "a中b",
        cursor: 2,
        wanted_cursor: (0, 3),
        rows: &[("a中b  ", "......")],
        ..CASE
    },
    Case {
        what: "a wide character that begins a new row",
        size: (2, 3),
        message: "",
        text: "a中中",
        cursor: 2,
        wanted_cursor: (1, 0),
        rows: &[("a中", "..."), ("中 ", "...")],
        ..CASE
    },
    Case {
        what: "a wide character cut by either edge, the second one selected",
        size: (1, 3),
        message: "",
        text: "中b中",
        cursor: 1,
        mark: Some(3),
        wrap: false,
        scroll: (0, 1),
        wanted_cursor: (0, 1),
        rows: &[(" b ", ".ss")],
        ..CASE
    },
    Case {
        what: "rows of one column",
        size: (3, 1),
        message: "",
        text: "a中",
        cursor: 2,
        wanted_cursor: (2, 0),
        rows: &[("a", "."), ("\u{fffd}", "."), (" ", ".")],
        ..CASE
    },
    Case {
        what: "a password with a wide character",
        size: (1, 5),
        text: "中",
        cursor: 1,
        password: true,
        wanted_cursor: (0, 3),
        rows: &[("> *  ", "pp...")],
        ..CASE
    },
];

/// One selection over two rows, by each of its kinds.
pub(crate) static SELECTIONS: [Case; 3] = [
    Case {
        what: "a selection up to the cursor",
        size: (2, 6),
        text: "ab\ncd",
        cursor: 3,
        mark: Some(1),
        wanted_cursor: (1, 2),
        rows: &[("> ab  ", "pp.s.."), ("  cd  ", "cc....")],
        ..CASE
    },
    Case {
        what: "a selection with the cursor's character",
        size: (2, 6),
        text: "ab\ncd",
        cursor: 3,
        mark: Some(1),
        selection: Selection::Inclusive,
        wanted_cursor: (1, 2),
        rows: &[("> ab  ", "pp.s.."), ("  cd  ", "ccs...")],
        ..CASE
    },
    Case {
        what: "a selection of rows",
        size: (2, 6),
        text: "ab\ncd",
        cursor: 3,
        mark: Some(1),
        selection: Selection::Rows,
        wanted_cursor: (1, 2),
        rows: &[("> ab  ", "ppss.."), ("  cd  ", "ccss..")],
        ..CASE
    },
];

/// Bars below the text.
pub(crate) static BARS: [Case; 5] = [
    Case {
        what: "a toolbar",
        text: "ab\ncd",
        cursor: 5,
        toolbar: "T",
        wanted_cursor: (1, 4),
        rows: &[
            ("> ab      ", "pp........"),
            ("  cd      ", "cc........"),
            ("T         ", "tttttttttt"),
        ],
        ..CASE
    },
    Case {
        what: "a backward search",
        size: (3, 20),
        text: "alpha",
        cursor: 1,
        search: Some(Direction::Backward),
        needle: "l",
        wanted_cursor: (0, 3),
        rows: &[
            ("> alpha             ", "pp.................."),
            ("I-search backward: l", "iiiiiiiiiiiiiiiiiiii"),
        ],
        ..CASE
    },
    Case {
        what: "the message of a verdict",
        size: (3, 14),
        text: "12x",
        cursor: 2,
        verdict: "not a number",
        wanted_cursor: (0, 4),
        rows: &[
            ("> 12x         ", "pp............"),
            ("not a number  ", "vvvvvvvvvvvvvv"),
        ],
        ..CASE
    },
    Case {
        what: "an argument and a forward search",
        size: (4, 11),
        argument: "-05",
        search: Some(Direction::Forward),
        rows: &[
            ("> a        ", "pp........."),
            ("Repeat: -05", "aaaaaaaaaaa"),
            ("I-search:  ", "iiiiiiiiiii"),
        ],
        ..CASE
    },
    Case {
        what: "the rows down to the end of the screen",
        size: (6, 4),
        toolbar: "T",
        room: Some(5),
        rows: &[
            ("> a ", "pp.."),
            ("    ", "...."),
            ("    ", "...."),
            ("    ", "...."),
            ("T   ", "tttt"),
        ],
        ..CASE
    },
];

/// Screens where the bars leave no row for the text.
pub(crate) static SMALL_SCREENS: [Case; 5] = [
    Case {
        what: "one row and a verdict",
        size: (1, 7),
        verdict: "v",
        wanted_cursor: (0, 0),
        rows: &[("Window ", ".......")],
        ..CASE
    },
    Case {
        what: "one row and an argument",
        size: (1, 7),
        argument: "1",
        wanted_cursor: (0, 0),
        rows: &[("Window ", ".......")],
        ..CASE
    },
    Case {
        what: "one row and a search",
        size: (1, 7),
        search: Some(Direction::Forward),
        wanted_cursor: (0, 0),
        rows: &[("Window ", ".......")],
        ..CASE
    },
    Case {
        what: "one row and a toolbar",
        size: (1, 1),
        toolbar: "T",
        wanted_cursor: (0, 0),
        rows: &[("W", ".")],
        ..CASE
    },
    Case {
        what: "two rows and two bars",
        size: (2, 20),
        argument: "1",
        toolbar: "T",
        wanted_cursor: (0, 0),
        rows: &[
            ("Window too small... ", "...................."),
            ("                    ", "...................."),
        ],
        ..CASE
    },
];

/// Menus.
pub(crate) static MENUS: [Case; 5] = [
    Case {
        what: "a menu as high as the rows below",
        size: (3, 12),
        cursor: 1,
        items: &["aa", "ab", "ac"],
        origin: 1,
        wanted_cursor: (0, 3),
        rows: &[
            ("> a         ", "pp.........."),
            ("    aa      ", "...mmmmmmm.."),
            ("    ab      ", "...mmmmmmm.."),
        ],
        ..CASE
    },
    Case {
        what: "the same where the last item is chosen",
        size: (3, 12),
        text: "ac",
        cursor: 2,
        items: &["aa", "ab", "ac"],
        chosen: Some(2),
        origin: 1,
        wanted_cursor: (0, 4),
        rows: &[
            ("> ac        ", "pp.........."),
            ("    ab      ", "...mmmmmmm.."),
            ("    ac      ", "...!!!!!!!.."),
        ],
        ..CASE
    },
    Case {
        what: "a menu that fits below and is moved left, with rows kept for it",
        size: (4, 9),
        cursor: 1,
        items: &["aa", "ab"],
        origin: 1,
        wanted_cursor: (0, 3),
        rows: &[
            ("> a      ", "pp......."),
            ("   aa    ", "..mmmmmmm"),
            ("   ab    ", "..mmmmmmm"),
            ("         ", "........."),
        ],
        ..CASE
    },
    Case {
        what: "a menu above",
        text: "a\nb\nc",
        cursor: 5,
        items: &["aa", "ab", "ac"],
        origin: 5,
        wanted_cursor: (2, 3),
        rows: &[
            ("> a aa    ", "pp.mmmmmmm"),
            ("  b ab    ", "cc.mmmmmmm"),
            ("  c       ", "cc........"),
        ],
        ..CASE
    },
    Case {
        what: "a menu as wide as the screen, whose item is cut before a wide character",
        size: (3, 6),
        message: "",
        text: "",
        items: &["a中中"],
        wanted_cursor: (0, 0),
        rows: &[
            ("      ", "......"),
            (" a中  ", "mmmmmm"),
            ("      ", "......"),
        ],
        ..CASE
    },
];

/// Menus that no row shows, and the rows that are kept for one.
pub(crate) static HIDDEN_MENUS: [Case; 3] = [
    Case {
        what: "no row for a menu",
        size: (1, 10),
        items: &["aa"],
        rows: &[("> a       ", "pp........")],
        ..CASE
    },
    Case {
        what: "a menu whose place is above the window",
        size: (2, 4),
        message: "",
        text: "abcdefghi",
        cursor: 9,
        items: &["aa"],
        scroll: (1, 0),
        wanted_cursor: (1, 1),
        rows: &[("efgh", "...."), ("i   ", "....")],
        ..CASE
    },
    Case {
        what: "rows kept for a menu while one types",
        size: (4, 4),
        completes: true,
        rows: &[
            ("> a ", "pp.."),
            ("    ", "...."),
            ("    ", "...."),
            ("    ", "...."),
        ],
        ..CASE
    },
];

/// Right prompts, and what stands before them and over them.
pub(crate) static RIGHT_PROMPTS: [Case; 4] = [
    Case {
        what: "a right prompt",
        size: (2, 12),
        text: "ab",
        cursor: 2,
        password: true,
        right_prompt: "R",
        wanted_cursor: (0, 4),
        rows: &[("> **       R", "pp.........r")],
        ..CASE
    },
    Case {
        what: "the cursor where the right prompt would stand",
        size: (2, 12),
        text: "abcdefghi",
        cursor: 9,
        right_prompt: "R",
        wanted_cursor: (0, 11),
        rows: &[("> abcdefghi ", "pp..........")],
        ..CASE
    },
    Case {
        what: "a right prompt over a typed space",
        size: (2, 6),
        message: "",
        text: "ab    ",
        right_prompt: "R",
        wanted_cursor: (0, 0),
        rows: &[("ab   R", ".....r"), ("      ", "......")],
        ..CASE
    },
    Case {
        what: "a menu over a part of the right prompt",
        text: "a\nb\nc",
        cursor: 5,
        items: &["aa", "ab", "ac"],
        origin: 4,
        right_prompt: "RRR",
        wanted_cursor: (2, 3),
        rows: &[
            (">  aa    R", "ppmmmmmmmr"),
            ("   ab     ", "ccmmmmmmm."),
            ("  c       ", "cc........"),
        ],
        ..CASE
    },
];
