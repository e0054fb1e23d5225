//! Characters found in the row of a place.
ghost use Rattle.std.specs.Prelude.{◌≡◌, ◌-◌, ◌<◌, ◌≤◌, length, reverse, slice_get, IfSome, IsTrue, IsFalse};
ghost use Rattle.text_doc.specs.Places.{passing};
ghost use Rattle.text_doc.specs.Finds.{find_char, stands_at};

use crate::indexed_texts::IndexedText;
use crate::rows::{line_end, line_start};

#[tactic(auto, unfolding(crate::specs::Finds::find_char))]
pub fn find_char(text: &IndexedText, from: usize, c: char, forward: bool, nth: u32) -> Option<usize>
    requires { from ≤ length text.now }
    ensures place { result ≡ find_char text.now from c forward nth }
    ensures ahead { IsTrue forward → IfSome result (λ at. from < at) }
    ensures back { IsFalse forward → IfSome result (λ at. at < from) }
    ensures within { IfSome result (λ at. at < length text.now) }
{
    if nth == 0 {
        return None;
    }
    if forward {
        let end = line_end(text, from);
        nth_ahead(text, from + 1, end, c, nth)
    } else {
        nth_back(text, line_start(text, from), from, c, nth)
    }
}

fn nth_ahead(text: &IndexedText, from: usize, to: usize, c: char, nth: u32) -> Option<usize>
    requires range { to ≤ length text.now }
    requires some { 0 < nth }
    ensures place { result ≡ slice_get (passing (stands_at c text.now) from to) (nth - 1) }
    ensures from { IfSome result (λ at. from ≤ at) }
    ensures within { IfSome result (λ at. at < length text.now) }
{
    let mut seen = 0;
    for at in from..to {
        if text.char_at(at) == c {
            seen += 1;
            if seen == nth {
                return Some(at);
            }
        }
    }
    None
}

fn nth_back(text: &IndexedText, from: usize, to: usize, c: char, nth: u32) -> Option<usize>
    requires ordered { from ≤ to }
    requires range { to ≤ length text.now }
    requires some { 0 < nth }
    ensures place { result
        ≡ slice_get (reverse (passing (stands_at c text.now) from to)) (nth - 1) }
    ensures to { IfSome result (λ at. at < to) }
    ensures within { IfSome result (λ at. at < length text.now) }
{
    let mut seen = 0;
    for at in (from..to).rev() {
        if text.char_at(at) == c {
            seen += 1;
            if seen == nth {
                return Some(at);
            }
        }
    }
    None
}
