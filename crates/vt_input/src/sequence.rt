//! Control sequences (ECMA-48, 5.4) at the front of a text.
ghost use Rattle.std.specs.Prelude.{◌≡◌};
ghost use Rattle.vt_input.specs.Sequences.{is_prefix, introducer, late_after, control_sequence};

use characters::{is_final, is_intermediate, is_parameter};

/// What the front of a text is, seen as a control sequence of at most 64 characters.
#[derive(Clone, Copy, Debug, PartialEq, Eq)]
pub enum ControlSequence {
    /// The whole text is the front of one, and lacks its final character.
    Unended,
    /// That many characters are one.
    Whole(usize),
    /// The text does not begin with one.
    Broken,
}

/// The most characters of a control sequence.
const SEQUENCE_LIMIT: usize = 64;

/// Looks for a control sequence at the front of a text.
pub fn control_sequence_of(text: &[char]) -> ControlSequence
    ensures { result ≡ control_sequence text.now }
{
    if !is_introduced(text) {
        return ControlSequence::Broken;
    }
    let end = text.len().min(SEQUENCE_LIMIT);
    let mut late = false;
    for n in 2..end {
        let c = text[n];
        if is_final(c) {
            return ControlSequence::Whole(n + 1);
        }
        match late_after(c, late) {
            Some(after) => late = after,
            None => return ControlSequence::Broken,
        }
    }
    if text.len() < SEQUENCE_LIMIT {
        ControlSequence::Unended
    } else {
        ControlSequence::Broken
    }
}

/// Tells whether the text begins with ESC [.
fn is_introduced(text: &[char]) -> bool
    ensures { result ≡ is_prefix introducer text.now }
{
    text.len() >= 2 && text[0] == '\u{1B}' && text[1] == '['
}

/// Tells whether an intermediate character has come with this one; none where it cannot stand here.
fn late_after(c: char, late: bool) -> Option<bool>
    ensures { result ≡ late_after c late }
{
    if is_intermediate(c) {
        Some(true)
    } else if is_parameter(c) && !late {
        Some(false)
    } else {
        None
    }
}
