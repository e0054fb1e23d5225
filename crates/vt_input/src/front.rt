//! Fronts of texts.
ghost use Rattle.std.specs.Prelude.{◌≡◌};
ghost use Rattle.vt_input.specs.Sequences.{is_prefix, is_proper_prefix};

/// ESC [ 200 ~, which begins a paste (xterm, bracketed paste mode).
pub const OPENING: [char; 6] = ['\u{1B}', '[', '2', '0', '0', '~'];

/// Tells whether the row is a front of the text.
pub fn is_prefix(row: &[char], text: &[char]) -> bool
    ensures { result ≡ is_prefix row.now text.now }
{
    if text.len() < row.len() {
        return false;
    }
    for i in 0..row.len() {
        if row[i] != text[i] {
            return false;
        }
    }
    true
}

/// Tells whether the text is a front of the row, and shorter.
pub fn is_proper_prefix(text: &[char], row: &[char]) -> bool
    ensures { result ≡ is_proper_prefix text.now row.now }
{
    if row.len() <= text.len() {
        return false;
    }
    for i in 0..text.len() {
        if row[i] != text[i] {
            return false;
        }
    }
    true
}
