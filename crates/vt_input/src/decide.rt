//! The key at the front of a text.
ghost use Rattle.std.specs.Prelude.{◌≡◌, ◌<◌, true, length, slice_index};
ghost use Rattle.key_names.specs.declared.key.Key.TheVariants.{Char};
ghost use Rattle.vt_input.specs.Sequences.{is_begun, is_known, longer, longest_from, begin_with_control};
ghost use Rattle.vt_input.specs.Pressed.{is_open, decision, chosen_by};

use crate::front::{OPENING, is_prefix, is_proper_prefix};
use crate::near::narrowed;
use crate::row::SeqRow;
use crate::sequence::{ControlSequence, control_sequence_of};
use key_names::Key;

/// Returns the key at the front of a text outside a paste, and how many characters it has. None where the text waits
/// for more, as it never does in a flush.
pub fn decide(rows: &[SeqRow], flush: bool, text: &[char]) -> Option<(Key, usize)>
    requires some { 0 < length text.now }
    requires control { begin_with_control rows.now ≡ true }
    ensures { result ≡ decision rows.now flush text.now }
{
    let near = narrowed(rows, text);
    let sequence = control_sequence_of(text);
    if !flush && (is_proper_prefix(text, &OPENING) || is_begun(near, text) || is_open(sequence)) {
        return None;
    }
    Some(chosen(near, sequence, text))
}

/// Tells whether a control sequence lacks its final character.
fn is_open(sequence: ControlSequence) -> bool
    ensures { result ≡ is_open sequence }
{
    match sequence {
        ControlSequence::Unended => true,
        ControlSequence::Whole(_) => false,
        ControlSequence::Broken => false,
    }
}

/// Tells whether the text is a proper front of a row.
fn is_begun(rows: &[SeqRow], text: &[char]) -> bool
    ensures { result ≡ is_begun rows.now text.now }
{
    for row in rows {
        if is_proper_prefix(text, row.text.as_slice()) {
            return true;
        }
    }
    false
}

/// Tells whether that many characters of the text are a row.
fn is_known(rows: &[SeqRow], size: usize, text: &[char]) -> bool
    ensures { result ≡ is_known rows.now size text.now }
{
    for row in rows {
        if is_prefix(row.text.as_slice(), text) && row.text.len() == size {
            return true;
        }
    }
    false
}

/// Returns the key of a text that waits no longer: an unknown control sequence is one ignored key.
fn chosen(rows: &[SeqRow], sequence: ControlSequence, text: &[char]) -> (Key, usize)
    requires { 0 < length text.now }
    ensures { result ≡ chosen_by rows.now sequence text.now
        (longest_from rows.now (Char (slice_index text.now 0), 1) text.now) }
{
    match sequence {
        ControlSequence::Unended => longest(rows, text),
        ControlSequence::Whole(size) => if is_known(rows, size, text) {
            longest(rows, text)
        } else {
            (Key::Ignored, size)
        },
        ControlSequence::Broken => longest(rows, text),
    }
}

/// Returns the longest row that is a front of the text, or its first character.
fn longest(rows: &[SeqRow], text: &[char]) -> (Key, usize)
    requires { 0 < length text.now }
    ensures { result ≡ longest_from rows.now (Char (slice_index text.now 0), 1) text.now }
{
    let mut best = (Key::Char(text[0]), 1);
    for row in rows {
        best = longer(row, best, text);
    }
    best
}

/// Returns the row with its size where it is a front of the text and no shorter than the best so far, else that one.
fn longer(row: &SeqRow, best: (Key, usize), text: &[char]) -> (Key, usize)
    ensures { result ≡ longer row.now best text.now }
{
    if is_prefix(row.text.as_slice(), text) && best.1 <= row.text.len() {
        (row.key, row.text.len())
    } else {
        best
    }
}
