//! The rows of a table that are near a text: it may begin them, or they it.
ghost use Rattle.std.specs.Prelude.{◌≡◌, ◌<◌, true, length, slice_get};
ghost use Rattle.std.specs.Bool.{OnTrue};
ghost use Rattle.vt_input.specs.Sequences.{begins_plain, begin_with_control};
ghost use Rattle.vt_input.specs.Near.{IsUnlike, IsSameSearch};

use crate::row::SeqRow;
use key_names::KeyText;

/// The most characters that a row has.
const ROW_LIMIT: usize = 64;

/// Returns the rows without those at both ends that differ from the text, a character at a time: a search of these
/// finds what a search of all does. Where the text begins with a plain character there are none, and no row is looked
/// at.
///
/// In a table in order no row is left behind the place of the text. Before it a row that is a front of the text, as
/// that of ESC alone, holds back the rows between, although these differ.
pub fn narrowed<'a>(rows: &'a [SeqRow], text: &[char]) -> &'a [SeqRow]
    requires { begin_with_control rows.now ≡ true }
    ensures { IsSameSearch rows.now result.now text.now }
{
    if begins_plain(text) {
        return &rows[..0];
    }
    let mut near = rows;
    for at in 0..text.len().min(ROW_LIMIT) {
        if near.is_empty() {
            return near;
        }
        near = without_first(without_last(near, text, at), text, at);
    }
    near
}

/// Tells whether the text begins with a character that is no control character.
fn begins_plain(text: &[char]) -> bool
    ensures { result ≡ begins_plain text.now }
{
    match text {
        [] => false,
        [c, ..] => *c >= ' ' && *c != '\u{7F}',
    }
}

/// Returns the rows behind those at the front that differ from the text at a place.
fn without_first<'a>(rows: &'a [SeqRow], text: &[char], at: usize) -> &'a [SeqRow]
    requires { at < length text.now }
    ensures { IsSameSearch rows.now result.now text.now }
{
    let mut near = rows;
    while let Some((row, rest)) = near.split_first()
        && is_unlike(row, text, at)
    {
        near = rest;
    }
    near
}

/// Returns the rows before those at the end that differ from the text at a place.
fn without_last<'a>(rows: &'a [SeqRow], text: &[char], at: usize) -> &'a [SeqRow]
    requires { at < length text.now }
    ensures { IsSameSearch rows.now result.now text.now }
{
    let mut near = rows;
    while let Some((row, rest)) = near.split_last()
        && is_unlike(row, text, at)
    {
        near = rest;
    }
    near
}

/// Tells whether the row and the text differ at a place that both have.
fn is_unlike(row: &SeqRow, text: &[char], at: usize) -> bool
    requires { at < length text.now }
    ensures { OnTrue result (IsUnlike row.now text.now) }
{
    match char_at(&row.text, at) {
        Some(c) => c != text[at],
        None => false,
    }
}

/// Returns the character at a place, if there is one.
fn char_at(text: &KeyText, at: usize) -> Option<char>
    ensures { result ≡ slice_get text.now at }
{
    text.get(at).copied()
}
