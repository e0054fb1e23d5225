//! The match of a bracket, found by the depth of its own kind.
ghost use Rattle.std.specs.Prelude.{◌≡◌, ◌≢◌, ◌+◌, ◌^◌, ◌<◌, ◌≤◌, ◌==◌, length, slice_index, IfSome, if◌then◌else◌};
ghost use Rattle.text_doc.specs.Brackets.{closing_of, opening_of, match_ahead, match_back, matching_bracket};

use crate::indexed_texts::IndexedText;

#[tactic(auto, unfolding(crate::specs::Brackets::matching_bracket))]
pub fn matching_bracket(text: &IndexedText, cursor: usize) -> Option<usize>
    requires { cursor ≤ length text.now }
    ensures place { result ≡ matching_bracket text.now cursor }
    ensures within { IfSome result (λ at. at < length text.now) }
{
    if cursor == text.len() {
        return None;
    }
    let c = text.char_at(cursor);
    if let Some(closing) = closing_of(c) {
        return match_ahead(text, cursor, c, closing);
    }
    if let Some(opening) = opening_of(c) {
        return match_back(text, cursor, opening, c);
    }
    None
}

fn closing_of(c: char) -> Option<char>
    ensures { result ≡ closing_of c }
{
    match c {
        '(' => Some(')'),
        '[' => Some(']'),
        '{' => Some('}'),
        '<' => Some('>'),
        _ => None,
    }
}

fn opening_of(c: char) -> Option<char>
    ensures { result ≡ opening_of c }
{
    match c {
        ')' => Some('('),
        ']' => Some('['),
        '}' => Some('{'),
        '>' => Some('<'),
        _ => None,
    }
}

fn match_ahead(text: &IndexedText, cursor: usize, opening: char, closing: char) -> Option<usize>
    requires within { cursor < length text.now }
    requires at_cursor { slice_index text.now cursor ≡ opening }
    requires different { opening ≢ closing }
    ensures place { result ≡ match_ahead opening closing text.now cursor }
    ensures within { IfSome result (λ at. at < length text.now) }
{
    let end = text.len();
    let mut depth: usize = 1;
    for at in cursor + 1..end {
        depth = depth_after(depth, text.char_at(at), opening, closing);
        if depth == 0 {
            return Some(at);
        }
    }
    None
}

fn match_back(text: &IndexedText, cursor: usize, opening: char, closing: char) -> Option<usize>
    requires within { cursor < length text.now }
    requires short { length text.now ≤ 32768 }
    requires at_cursor { slice_index text.now cursor ≡ closing }
    requires different { opening ≢ closing }
    ensures place { result ≡ match_back opening closing text.now cursor }
    ensures within { IfSome result (λ at. at < length text.now) }
{
    let mut depth: usize = 1;
    for at in (0..cursor).rev() {
        depth = depth_after(depth, text.char_at(at), closing, opening);
        if depth == 0 {
            return Some(at);
        }
    }
    None
}

/// Returns how many brackets wait for their partner behind the character `c`, of `depth` before it.
fn depth_after(depth: usize, c: char, deeper: char, shallower: char) -> usize
    requires some { 0 < depth }
    requires fits { depth + 1 < 2 ^ 64 }
    requires different { deeper ≢ shallower }
    ensures { result + (if c == shallower then 1 else 0) ≡ depth + (if c == deeper then 1 else 0) }
{
    if c == deeper {
        depth + 1
    } else if c == shallower {
        depth - 1
    } else {
        depth
    }
}
