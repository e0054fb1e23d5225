//! Commands that put other characters in place of some, and those that insert.
ghost use Rattle.std.specs.Prelude.{◌≡◌, ◌≤◌, ◌+◌, ◌*◌, ◌∷◌, [], length, map, IfOk, IsTrue, ◌↔◌};
ghost use Rattle.std.specs.List.{repeat, prefix_len};
ghost use Rattle.vi_keys.specs.Acts.{FitsAct};
ghost use Rattle.vi_keys.specs.Plans.{Counts};
ghost use Rattle.vi_keys.specs.Changing.{insertion, overwritten, overwritten_at, replaced, replacement, case_swapped, swapped, is_blank, blanks_behind, joined, opened, put, put_clip, put_chars, put_rows};

use crate::acts::Act;
use crate::plans::{Plan, answered, counted, plain};
use edit_buffer::Clip;
use edit_state::{Done, EditState, NoMemory, ViState, place_ahead};
use key_names::Key;
use std::alloc::Global;
use text_doc::{Doc, MAX_LENGTH, Text};

/// Returns the plan to insert characters at a place, so many times. It rings where they find no room.
fn insertion(
    alloc: Global,
    doc: &Doc,
    at: usize,
    times: u32,
    chars: &[char],
    cursor: usize,
    vi: ViState,
    before: ViState,
) -> Result<Plan, NoMemory>
    requires place { at ≤ length doc.now.text }
    requires cursor { cursor ≤ at + times * length chars.now }
    ensures plan { IfOk result (λ plan. plan ≡ insertion doc.now at times chars.now cursor vi before) }
    ensures fits { IfOk result (λ plan. FitsAct plan.act doc.now) }
    ensures counts { IfOk result (λ plan. Counts vi → Counts before → Counts plan.vi) }
{
    if !fits(chars, times, MAX_LENGTH - doc.len()) {
        return Ok(answered(before, Done::Bell));
    }
    let text = repeated(alloc, chars, times)?;
    Ok(plain(
        vi,
        Act::Exchange {
            from: at,
            to: at,
            text,
            at: cursor,
        },
    ))
}

/// Returns the characters so many times.
fn repeated(alloc: Global, chars: &[char], times: u32) -> Result<Text, NoMemory>
    ensures text { IfOk result (λ text. text ≡ repeat times chars.now) }
    ensures length { IfOk result (λ text. length text ≡ times * length chars.now) }
{
    Ok(Text::from_vec(chars.repeat(alloc, times as usize)?))
}

/// Tells whether the characters find room this many times.
fn fits(chars: &[char], times: u32, room: usize) -> bool
    ensures { IsTrue result ↔ (times * length chars.now ≤ room) }
{
    match chars.len().checked_mul(times as usize) {
        Some(total) => total <= room,
        None => false,
    }
}

/// Returns the plan of a typed character while characters are replaced: it takes the place of the one at the cursor, or
/// is inserted at the end of a row.
pub fn overwritten(alloc: Global, key: Key, doc: &Doc, vi: ViState) -> Result<Plan, NoMemory>
    ensures plan { IfOk result (λ plan. plan ≡ overwritten key doc.now vi) }
    ensures fits { IfOk result (λ plan. FitsAct plan.act doc.now) }
    ensures counts { IfOk result (λ plan. Counts vi → Counts plan.vi) }
{
    let cursor = doc.cursor();
    match key {
        Key::Char(c) if cursor == doc.line_end() => {
            insertion(alloc, doc, cursor, 1, &[c], cursor + 1, vi, vi)
        },
        Key::Char(c) => Ok(plain(
            vi,
            Act::Exchange {
                from: cursor,
                to: cursor + 1,
                text: Text::from_chars(alloc, &[c])?,
                at: cursor + 1,
            },
        )),
        _ => Ok(answered(vi, Done::Same)),
    }
}

/// Returns the plan to replace so many characters by that of the key. It rings where the row has fewer.
pub fn replaced(alloc: Global, key: Key, state: &EditState, vi: ViState) -> Result<Plan, NoMemory>
    ensures plan { IfOk result (λ plan. plan ≡ replaced key state.now vi) }
    ensures fits { IfOk result (λ plan. FitsAct plan.act state.now.buffer.doc) }
    ensures counts { IfOk result (λ plan. Counts vi → Counts plan.vi) }
{
    let doc = state.buffer.doc();
    let cursor = doc.cursor();
    let count = counted(state);
    match key {
        Key::Char(c) if cursor + count as usize <= doc.line_end() => {
            let text = repeated(alloc, &[c], count)?;
            Ok(replacement(cursor, count, text, vi))
        },
        _ => Ok(answered(vi, Done::Bell)),
    }
}

/// Returns the plan to put a text in place of so many characters, with the cursor on the last one.
fn replacement(cursor: usize, count: u32, text: Text, vi: ViState) -> Plan
    requires { cursor ≤ 32768 }
    ensures plan { result ≡ replacement cursor count text vi }
{
    let to = cursor + count as usize;
    plain(
        vi,
        Act::Exchange {
            from: cursor,
            to,
            text,
            at: to.saturating_sub(1),
        },
    )
}

/// Returns the plan to change the case of so many letters.
pub fn case_swapped(alloc: Global, state: &EditState, vi: ViState) -> Result<Plan, NoMemory>
    ensures plan { IfOk result (λ plan. plan ≡ case_swapped state.now vi) }
    ensures fits { IfOk result (λ plan. FitsAct plan.act state.now.buffer.doc) }
    ensures counts { IfOk result (λ plan. Counts vi → Counts plan.vi) }
{
    let doc = state.buffer.doc();
    let from = doc.cursor();
    let to = place_ahead(doc, counted(state));
    let text = with_swapped(alloc, doc.part(from, to)?.as_slice())?;
    Ok(plain(
        vi,
        Act::Exchange {
            from,
            to,
            text,
            at: to,
        },
    ))
}

/// Returns the characters with their letters in the other case.
fn with_swapped(alloc: Global, chars: &[char]) -> Result<Text, NoMemory>
    ensures { IfOk result (λ text. text ≡ map swapped chars.now) }
{
    let swapped: Vec<char> = chars.iter().map(|c| swapped(*c)).collect(alloc)?;
    Ok(Text::from_vec(swapped))
}

fn swapped(c: char) -> char
    ensures { result ≡ swapped c }
{
    if c.is_ascii_lowercase() {
        c.to_ascii_uppercase()
    } else {
        c.to_ascii_lowercase()
    }
}

/// Returns the plan to join the next row to the cursor's by one space.
pub fn joined(alloc: Global, doc: &Doc, vi: ViState) -> Result<Plan, NoMemory>
    ensures plan { IfOk result (λ plan. plan ≡ joined doc.now vi) }
    ensures fits { IfOk result (λ plan. FitsAct plan.act doc.now) }
    ensures counts { IfOk result (λ plan. Counts vi → Counts plan.vi) }
{
    let end = doc.line_end();
    if end == doc.len() {
        return Ok(answered(vi, Done::Same));
    }
    Ok(plain(
        vi,
        Act::Exchange {
            from: end,
            to: end + 1 + blanks_behind(doc, end + 1)?,
            text: Text::from_chars(alloc, &[' '])?,
            at: end,
        },
    ))
}

/// Returns how many spaces and tabs stand in a row from a place on.
fn blanks_behind(doc: &Doc, at: usize) -> Result<usize, NoMemory>
    requires { at ≤ length doc.now.text }
    ensures count { IfOk result (λ count. count ≡ blanks_behind doc.now at) }
    ensures within { IfOk result (λ count. at + count ≤ length doc.now.text) }
{
    let row = doc.part(at, doc.line_end_from(at))?;
    Ok(count_blanks(row.as_slice()))
}

fn count_blanks(chars: &[char]) -> usize
    ensures count { result ≡ prefix_len is_blank chars.now }
    ensures within { result ≤ length chars.now }
{
    chars.iter().take_while(|c| is_blank(**c)).count()
}

fn is_blank(c: char) -> bool
    ensures { result ≡ is_blank c }
{
    c == ' ' || c == '\t'
}

/// Returns the plan to open a row below the cursor's or above it, and to insert there.
pub fn opened(
    alloc: Global,
    below: bool,
    doc: &Doc,
    vi: ViState,
    before: ViState,
) -> Result<Plan, NoMemory>
    ensures plan { IfOk result (λ plan. plan ≡ opened below doc.now vi before) }
    ensures fits { IfOk result (λ plan. FitsAct plan.act doc.now) }
    ensures counts { IfOk result (λ plan. Counts vi → Counts before → Counts plan.vi) }
{
    let _len = doc.len();
    if below {
        let end = doc.line_end();
        insertion(alloc, doc, end, 1, &['\n'], end + 1, vi, before)
    } else {
        let start = doc.line_start();
        insertion(alloc, doc, start, 1, &['\n'], start, vi, before)
    }
}

/// Returns the plan to put the first clip of the ring behind the cursor or before it.
pub fn put(alloc: Global, behind: bool, state: &EditState, vi: ViState) -> Result<Plan, NoMemory>
    ensures plan { IfOk result (λ plan. plan ≡ put behind state.now vi) }
    ensures fits { IfOk result (λ plan. FitsAct plan.act state.now.buffer.doc) }
    ensures counts { IfOk result (λ plan. Counts vi → Counts plan.vi) }
{
    let doc = state.buffer.doc();
    match state.ring.first() {
        None => Ok(answered(vi, Done::Same)),
        Some(clip) => put_clip(alloc, behind, clip, doc, counted(state), vi),
    }
}

fn put_clip(
    alloc: Global,
    behind: bool,
    clip: &Clip,
    doc: &Doc,
    count: u32,
    vi: ViState,
) -> Result<Plan, NoMemory>
    ensures plan { IfOk result (λ plan. plan ≡ put_clip behind clip.now doc.now count vi) }
    ensures fits { IfOk result (λ plan. FitsAct plan.act doc.now) }
    ensures counts { IfOk result (λ plan. Counts vi → Counts plan.vi) }
{
    if clip.text.is_empty() {
        return Ok(answered(vi, Done::Same));
    }
    if clip.lines {
        put_rows(alloc, behind, &clip.text, doc, vi)
    } else {
        put_chars(alloc, behind, &clip.text, doc, count, vi)
    }
}

/// Returns the plan to put rows below the cursor's row or above it.
fn put_rows(
    alloc: Global,
    behind: bool,
    text: &Text,
    doc: &Doc,
    vi: ViState,
) -> Result<Plan, NoMemory>
    ensures plan { IfOk result (λ plan. plan ≡ put_rows behind text.now doc.now vi) }
    ensures fits { IfOk result (λ plan. FitsAct plan.act doc.now) }
    ensures counts { IfOk result (λ plan. Counts vi → Counts plan.vi) }
{
    let _len = doc.len();
    if behind {
        let mut rows = Text::from_chars(alloc, &['\n'])?;
        rows.extend_from_slice(text.as_slice())?;
        let end = doc.line_end();
        insertion(alloc, doc, end, 1, rows.as_slice(), end + 1, vi, vi)
    } else {
        let mut rows = text.copy()?;
        rows.push('\n')?;
        let start = doc.line_start();
        insertion(alloc, doc, start, 1, rows.as_slice(), start, vi, vi)
    }
}

/// Returns the plan to put characters behind the cursor or before it, so many times, with the cursor on the last one.
fn put_chars(
    alloc: Global,
    behind: bool,
    text: &Text,
    doc: &Doc,
    count: u32,
    vi: ViState,
) -> Result<Plan, NoMemory>
    ensures plan { IfOk result (λ plan. plan ≡ put_chars behind text.now doc.now count vi) }
    ensures fits { IfOk result (λ plan. FitsAct plan.act doc.now) }
    ensures counts { IfOk result (λ plan. Counts vi → Counts plan.vi) }
{
    let at = if behind {
        place_ahead(doc, 1)
    } else {
        doc.cursor()
    };
    if !fits(text.as_slice(), count, MAX_LENGTH - doc.len()) {
        return Ok(answered(vi, Done::Bell));
    }
    let last = (at + count as usize * text.len()).saturating_sub(1);
    insertion(alloc, doc, at, count, text.as_slice(), last, vi, vi)
}
