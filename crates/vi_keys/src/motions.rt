//! Motions, and where each of them goes.

/// A way to go from the cursor.
#[derive(Clone, Copy, Debug, PartialEq, Eq)]
pub enum Motion {
    Left,
    Right,
    Down,
    Up,
    RowStart,
    /// To the row's first character that is not white space.
    RowText,
    RowEnd,
    /// To the start of a word, or of a big word.
    WordStart(bool),
    /// Back to the start of a word, or of a big word.
    WordBack(bool),
    /// To the last character of a word, or of a big word.
    WordLast(bool),
    /// To the row that the argument names, or to the first one.
    FirstRow,
    /// To the row that the argument names, or to the last one.
    LastRow,
    /// To a character of the row, or to the place before it.
    Character { forward: bool, before: bool },
    /// As the last find.
    LastFind,
    /// As the last find in the other direction.
    LastFindTurned,
    /// To the matching bracket.
    Bracket,
}

/// What an operator takes by a motion.
#[derive(Clone, Copy, Debug, PartialEq, Eq)]
pub enum Kind {
    /// The characters up to the greater place, without the one there.
    Exclusive,
    /// Also the one there.
    Inclusive,
    /// Whole rows.
    Rows,
}

/// Where a motion goes, and what an operator takes by it.
#[derive(Clone, Copy, Debug, PartialEq, Eq)]
pub struct Reach {
    pub place: usize,
    pub kind: Kind,
}
