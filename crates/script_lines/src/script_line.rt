//! What a line of a script can say.
use crate::Name;
use cell_grid::Size;
use text_doc::{Bytes, Text};

/// What a line of a script says.
#[derive(Debug, Drop)]
pub enum ScriptLine {
    /// `set NAME VALUE`: a value of a setting. Whether there is such a setting and it may have the value is left open.
    Set { name: Name, value: Text },
    /// `piece BYTES`: bytes that came from the terminal in one read, 1 to 65,536.
    Piece(Bytes),
    /// `resize ROWS COLUMNS`: the terminal has a new size.
    Resize(Size),
    /// `tick MOMENT`: the clock says a moment, in milliseconds from 0 to 1,000,000,000,000,000.
    Tick(u64),
    /// `show`: a report of the screen is printed.
    Show,
    /// `end`: the input ends.
    End,
}
