//! A text that is drawn.
use crate::Looks;
use cell_grid::CellRow;
use std::marker::Model;

/// A text, and what is drawn with it.
#[derive(Drop)]
pub struct DrawnText<'a> {
    /// The cells before the first line.
    pub message: &'a CellRow,
    /// The cells before each other line.
    pub continuation: &'a CellRow,
    pub text: &'a [char],
    /// The place from which the text is selected.
    pub selected_from: usize,
    /// The place up to which it is selected.
    pub selected_to: usize,
    /// What stands behind the last line. Line feeds in it are spelled as other control characters are.
    pub suggestion: &'a [char],
    pub looks: Looks,
}

impl<'a> Model for DrawnText<'a> {
    ghost use Rattle.text_rows.specs.DrawnText.{TextFields};

    ghost Value = { TextFields };

    ghost view = { λ t.
        record {
          message = t.message.now;
          continuation = t.continuation.now;
          text = t.text.now;
          selected_from = t.selected_from;
          selected_to = t.selected_to;
          suggestion = t.suggestion.now;
          looks = t.looks;
        } };
}
