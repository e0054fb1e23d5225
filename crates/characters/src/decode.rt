//! Characters from bytes.
ghost use Rattle.std.specs.Prelude.{◌≡◌, ◌<◌, ◌≤◌, ◌++◌, length, drop, slice_index, nat_lt, ◌==◌, ◌&&◌, true, false, IfSome, IfNone, OnSome, IfOk, OnOk};
ghost use Rattle.bstr.specs.Utf8.{lead_len, decoded, or_replacement};
ghost use Rattle.characters.specs.Characters.{characters, is_unfinished};

use bstr::decode_utf8;
use std::alloc::AllocError;

/// Adds the characters of the bytes to a text, with U+FFFD for each maximal part that is none, and answers how many bytes
/// they took. Behind these stands an unfinished character.
pub fn decode_into(bytes: &[u8], text: &mut Vec<char>) -> Result<usize, AllocError>
    ensures text { OnOk result (text.new.items ≡ text.old.items ++ (characters bytes.now).items) }
    ensures rest { IfOk result (λ n. drop n bytes.now ≡ (characters bytes.now).rest) }
    ensures within { IfOk result (λ n. n ≤ length bytes.now) }
{
    let mut at = 0;
    while let Some((c, size)) = first_char(&bytes[at..]) {
        text.push(c)?;
        at += size;
    }
    Ok(at)
}

/// Returns the character at the front, or U+FFFD for a maximal part that is none, and the bytes it takes: none where the
/// bytes are the front of one.
pub fn first_char(bytes: &[u8]) -> Option<(char, usize)>
    ensures waits { IfNone result (is_unfinished bytes.now ≡ true) }
    ensures whole { OnSome result (is_unfinished bytes.now ≡ false) }
    ensures char { IfSome result (λ found. found.0 ≡ or_replacement (decoded bytes.now).char) }
    ensures size { IfSome result (λ found. found.1 ≡ (decoded bytes.now).size) }
{
    let (found, size) = decode_utf8(bytes);
    match found {
        Some(c) => Some((c, size)),
        None => if is_front(bytes, size) {
            None
        } else {
            Some(('\u{FFFD}', size))
        },
    }
}

/// Tells whether bytes whose front of this size is no character are all of the front of one, or there are none.
fn is_front(bytes: &[u8], size: usize) -> bool
    ensures { result
        ≡ (size == length bytes.now && nat_lt (length bytes.now) (lead_len (slice_index bytes.now 0))) }
{
    size == bytes.len() && (bytes.is_empty() || bytes.len() < lead_length(bytes[0]))
}

/// Returns how many bytes a character that begins with this byte takes, or 0 where none does.
fn lead_length(byte: u8) -> usize
    ensures { result ≡ lead_len byte }
{
    match byte {
        0..0x80 => 1,
        0x80..0xC2 => 0,
        0xC2..0xE0 => 2,
        0xE0..0xF0 => 3,
        0xF0..0xF5 => 4,
        _ => 0,
    }
}
