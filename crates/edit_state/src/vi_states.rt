//! What vi's keys keep beside the edit state.

/// How vi reads keys.
#[derive(Clone, Copy, Debug, PartialEq, Eq)]
pub enum ViMode {
    Insert,
    Navigation,
    Replace,
}

/// What waits for the text that it works on.
#[derive(Clone, Copy, Debug, PartialEq, Eq)]
pub enum Operator {
    Delete,
    Change,
    Yank,
}

/// A search for a character in the cursor's row.
#[derive(Clone, Copy, Debug, PartialEq, Eq)]
pub struct Find {
    pub wanted: char,
    pub forward: bool,
    /// Whether it stops before the character.
    pub before: bool,
}

/// What vi's keys keep.
#[derive(Clone, Copy, Debug)]
pub struct ViState {
    pub mode: ViMode,
    pub operator: Option<Operator>,
    /// The count that was typed before the operator.
    pub operator_count: u32,
    pub last_find: Option<Find>,
    /// Whether a selection is of whole rows.
    pub lines: bool,
}
