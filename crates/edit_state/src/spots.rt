//! Places of working lines where a needle matches.
ghost use Rattle.std.specs.Prelude.{◌≡◌, ◌<◌, ◌≤◌, ◌+◌, ◌++◌, ◌↔◌, take, drop, length, slice_index, IsTrue, IfSome, ◌==◌, if◌then◌else◌};
ghost use Rattle.edit_buffer.specs.BufferState.{line_of};
ghost use Rattle.edit_state.specs.Searches.{stands_at, first_in, last_in, match_ahead, match_back, IsSpot};

use edit_buffer::Buffer;

/// A place of a working line.
#[derive(Clone, Copy, Debug, PartialEq, Eq)]
pub struct Spot {
    /// The number of the line, from 0.
    pub line: usize,
    pub at: usize,
}

/// Returns the least match of a needle from a spot on. Each line is looked at once.
pub fn match_ahead(buffer: &Buffer, needle: &[char], spot: Spot) -> Option<Spot>
    ensures found { result ≡ match_ahead needle.now buffer.now spot }
    ensures within { IfSome result (IsSpot buffer.now) }
    ensures ahead { IfSome result (λ found. spot.line ≤ found.line) }
    ensures behind { IfSome result (λ found. found.line ≡ spot.line → spot.at ≤ found.at) }
{
    let mut from = spot.at;
    for line in spot.line..buffer.lines() {
        let (front, back) = parts_of(buffer, line);
        if let Some(at) = first_in(front, back, needle, from) {
            return Some(Spot { line, at });
        }
        from = 0;
    }
    None
}

/// Returns the greatest match of a needle below a spot. Each line is looked at once.
pub fn match_back(buffer: &Buffer, needle: &[char], spot: Spot) -> Option<Spot>
    requires { spot.line < length buffer.now.lines }
    ensures found { result ≡ match_back needle.now buffer.now spot }
    ensures within { IfSome result (IsSpot buffer.now) }
    ensures back { IfSome result (λ found. found.line ≤ spot.line) }
    ensures before { IfSome result (λ found. found.line ≡ spot.line → found.at < spot.at) }
{
    let _lines = buffer.lines();
    for line in (0..spot.line + 1).rev() {
        let (front, back) = parts_of(buffer, line);
        let to = end_in(line, spot, front.len() + back.len() + 1);
        if let Some(at) = last_in(front, back, needle, to) {
            return Some(Spot { line, at });
        }
    }
    None
}

/// Returns the spot's place in its own line, and the end in another.
fn end_in(line: usize, spot: Spot, end: usize) -> usize
    ensures { result ≡ (if line == spot.line then spot.at else end) }
{
    if line == spot.line { spot.at } else { end }
}

/// Returns the number of characters of a working line.
pub(crate) fn line_len(buffer: &Buffer, line: usize) -> usize
    requires { line < length buffer.now.lines }
    ensures len { result ≡ length (line_of buffer.now line) }
    ensures short { result ≤ 32768 }
{
    let (front, back) = parts_of(buffer, line);
    front.len() + back.len()
}

fn parts_of(buffer: &Buffer, line: usize) -> (&[char], &[char])
    requires { line < length buffer.now.lines }
    ensures parts { result.0.now ++ result.1.now ≡ line_of buffer.now line }
    ensures short { length result.0.now + length result.1.now ≤ 32768 }
{
    let _index = buffer.index();
    buffer.line_parts(line)
}

/// Returns the least match from a place on in a text of two slices.
fn first_in(front: &[char], back: &[char], needle: &[char], from: usize) -> Option<usize>
    requires { length front.now + length back.now ≤ 32768 }
    ensures found { result ≡ first_in needle.now (front.now ++ back.now) from }
    ensures within { IfSome result (λ at. at ≤ length front.now + length back.now) }
    ensures behind { IfSome result (λ at. from ≤ at) }
{
    let end = front.len() + back.len() + 1;
    for at in from..end {
        if stands_at(front, back, needle, at) {
            return Some(at);
        }
    }
    None
}

/// Returns the greatest match below a place in a text of two slices.
fn last_in(front: &[char], back: &[char], needle: &[char], to: usize) -> Option<usize>
    requires { length front.now + length back.now ≤ 32768 }
    ensures found { result ≡ last_in needle.now (front.now ++ back.now) to }
    ensures within { IfSome result (λ at. at ≤ length front.now + length back.now) }
    ensures before { IfSome result (λ at. at < to) }
{
    let end = front.len() + back.len() + 1;
    for at in (0..to.min(end)).rev() {
        if stands_at(front, back, needle, at) {
            return Some(at);
        }
    }
    None
}

/// Tells whether the needle matches at a place of a text of two slices.
fn stands_at(front: &[char], back: &[char], needle: &[char], at: usize) -> bool
    requires { at ≤ length front.now + length back.now }
    ensures { result ≡ stands_at needle.now (front.now ++ back.now) at }
{
    has_at(front, back, needle, at)
}

fn has_at(front: &[char], back: &[char], needle: &[char], at: usize) -> bool
    requires { at ≤ length front.now + length back.now }
    ensures { IsTrue result ↔ (take (length needle.now) (drop at (front.now ++ back.now))
        ≡ needle.now) }
{
    if needle.len() > front.len() + back.len() - at {
        return false;
    }
    for (i, c) in needle.iter().enumerate() {
        if char_in(front, back, at + i) != *c {
            return false;
        }
    }
    true
}

fn char_in(front: &[char], back: &[char], at: usize) -> char
    requires { at < length front.now + length back.now }
    ensures { result ≡ slice_index (front.now ++ back.now) at }
{
    if at < front.len() {
        front[at]
    } else {
        back[at - front.len()]
    }
}
