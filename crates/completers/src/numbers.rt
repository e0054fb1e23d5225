//! Numbers, read once.
ghost use Rattle.std.specs.Prelude.{◌≡◌, ◌≤◌, Some, None, length, drop, if◌then◌else◌};
ghost use Rattle.completers.specs.Numbers.{unsigned, is_number, number_fault};

use text_doc::Doc;

/// The most digits of a number.
pub const MAX_DIGITS: usize = 38;

/// Returns the place of the first character with which the text begins no number, or its length where it only begins one.
/// `None` where it is a number.
pub fn number_fault(doc: &Doc) -> Option<usize>
    ensures { result ≡ (if is_number doc.now.text then None else Some (number_fault doc.now.text)) }
{
    let start = sign_len(doc);
    for at in start..doc.len() {
        if at - start >= MAX_DIGITS || !doc.char_at(at).is_ascii_digit() {
            return Some(at);
        }
    }
    if start < doc.len() { None } else { Some(start) }
}

/// Returns the length of the sign: 1, or 0 where there is none.
fn sign_len(doc: &Doc) -> usize
    ensures digits { drop result doc.now.text ≡ unsigned doc.now.text }
    ensures within { result ≤ length doc.now.text }
{
    if !doc.is_empty() && doc.char_at(0) == '-' {
        1
    } else {
        0
    }
}
