//! Where each motion goes.
ghost use Rattle.std.specs.Prelude.{◌≡◌, ◌≤◌, ◌<◌, ◌+◌, length, option_map, is_some, IfSome, if◌then◌else◌};
ghost use Rattle.std.specs.Option.{ForSome};
ghost use Rattle.text_doc.specs.Rows.{line_start};
ghost use Rattle.vi_keys.specs.Reaches.{reach, reach_of, word_lasts_ahead, find_of, turned_find, stop, found, row_number};

use crate::motions::{Kind, Motion, Reach};
use crate::runs::row_text;
use edit_state::{EditState, Find, place_ahead, place_back, word_starts_ahead, words_back};
use key_names::Key;
use text_doc::Doc;

/// Returns where a motion goes by a key, so many times. There is nothing where it has no place.
pub fn reach_of(
    motion: Motion,
    key: Key,
    state: &EditState,
    last: Option<Find>,
    count: u32,
) -> Option<Reach>
    ensures reach { result ≡ reach_of motion key state.now last count }
    ensures within { IfSome result (λ r. r.place ≤ length state.now.buffer.doc.text) }
{
    let doc = state.buffer.doc();
    match motion {
        Motion::Left => some(Kind::Exclusive, place_back(doc, count)),
        Motion::Right => some(Kind::Exclusive, place_ahead(doc, count)),
        Motion::Down => reach_in(Kind::Rows, doc.down(count, state.kept_column())),
        Motion::Up => reach_in(Kind::Rows, doc.up(count, state.kept_column())),
        Motion::RowStart => some(Kind::Exclusive, doc.line_start()),
        Motion::RowText => some(Kind::Exclusive, row_text(doc)),
        Motion::RowEnd => some(Kind::Exclusive, doc.line_end()),
        Motion::WordStart(big) => some(Kind::Exclusive, word_starts_ahead(doc, count, big)),
        Motion::WordBack(big) => some(Kind::Exclusive, words_back(doc, count, big)),
        Motion::WordLast(big) => some(Kind::Inclusive, word_lasts_ahead(doc, count, big)),
        Motion::FirstRow => some(Kind::Rows, first_row(state, count)),
        Motion::LastRow => some(Kind::Rows, last_row(state, count)),
        Motion::Character { forward, before } => found(doc, find_of(forward, before, key), count),
        Motion::LastFind => found(doc, last, count),
        Motion::LastFindTurned => found(doc, turned_in(last), count),
        Motion::Bracket => reach_in(Kind::Inclusive, doc.matching_bracket()),
    }
}

fn some(kind: Kind, place: usize) -> Option<Reach>
    ensures { result ≡ Some (reach kind place) }
{
    Some(Reach { place, kind })
}

fn reach_in(kind: Kind, place: Option<usize>) -> Option<Reach>
    ensures { result ≡ option_map (reach kind) place }
{
    match place {
        Some(place) => some(kind, place),
        None => None,
    }
}

/// Returns the last character of a word, so many words ahead: the text's last place where there are fewer.
#[tactic(auto, using(crate::proofs::Steps::steps))]
fn word_lasts_ahead(doc: &Doc, count: u32, big: bool) -> usize
    ensures place { result ≡ word_lasts_ahead big doc.now count }
    ensures within { result ≤ length doc.now.text }
{
    let end = doc.len();
    let mut at = doc.cursor();
    let mut left = count;
    while left > 0 {
        let word_end = doc.next_word_end_from(end.min(at + 1), big).unwrap_or(end);
        let next = word_end.saturating_sub(1);
        if next == at {
            return at;
        }
        at = next;
        left -= 1;
    }
    at
}

/// Returns where the row starts that the argument names, or the first row.
fn first_row(state: &EditState, count: u32) -> usize
    ensures place { result ≡ row_number state.now.buffer.doc (if is_some state.now.arg then count else 1) }
    ensures within { result ≤ length state.now.buffer.doc.text }
{
    let number = if state.arg.is_some() { count } else { 1 };
    row_number(state.buffer.doc(), number)
}

/// Returns where the row starts that the argument names, or the last row.
fn last_row(state: &EditState, count: u32) -> usize
    ensures place { result ≡ (if is_some state.now.arg then row_number state.now.buffer.doc count
        else line_start state.now.buffer.doc.text (length state.now.buffer.doc.text)) }
    ensures within { result ≤ length state.now.buffer.doc.text }
{
    let doc = state.buffer.doc();
    if state.arg.is_some() {
        row_number(doc, count)
    } else {
        doc.line_start_from(doc.len())
    }
}

fn row_number(doc: &Doc, count: u32) -> usize
    ensures place { result ≡ row_number doc.now count }
    ensures within { result ≤ length doc.now.text }
{
    doc.index_of(count.saturating_sub(1) as usize, 0)
}

/// Returns the find of a key that is a character.
pub fn find_of(forward: bool, before: bool, key: Key) -> Option<Find>
    ensures { result ≡ find_of forward before key }
{
    match key {
        Key::Char(wanted) => Some(Find {
            wanted,
            forward,
            before,
        }),
        _ => None,
    }
}

fn turned_in(last: Option<Find>) -> Option<Find>
    ensures { result ≡ option_map turned_find last }
{
    match last {
        Some(find) => Some(Find {
            wanted: find.wanted,
            forward: !find.forward,
            before: find.before,
        }),
        None => None,
    }
}

fn found(doc: &Doc, find: Option<Find>, count: u32) -> Option<Reach>
    ensures reach { result ≡ found doc.now find count }
    ensures within { IfSome result (λ r. r.place ≤ length doc.now.text) }
{
    let _len = doc.len();
    match find {
        None => None,
        Some(find) => match doc.find_char(find.wanted, find.forward, count) {
            None => None,
            Some(place) => Some(stop(find, place)),
        },
    }
}

/// Returns where a find stops that has found its character.
fn stop(find: Find, place: usize) -> Reach
    requires { place < 32768 }
    ensures reach { result ≡ stop find place }
    ensures near { result.place ≤ place + 1 }
{
    let kind = if find.forward {
        Kind::Inclusive
    } else {
        Kind::Exclusive
    };
    let place = if !find.before {
        place
    } else if find.forward {
        place.saturating_sub(1)
    } else {
        place + 1
    };
    Reach { place, kind }
}
