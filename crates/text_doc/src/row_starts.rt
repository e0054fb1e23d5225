//! The row starts of a text beside its gap.
ghost use Rattle.std.specs.Prelude.{◌≡◌, ◌+◌, ◌<◌, ◌≤◌, ◌++◌, [], length, take, drop, min, max, slice_index, IfOk};
ghost use Rattle.text_doc.specs.Gap.{joined};
ghost use Rattle.text_doc.specs.Rows.{row_of};
ghost use Rattle.text_doc.specs.RowStarts.{IsIndexed, IsParted, starts_from, row_starts};

use crate::gap_buffers::GapBuffer;
use crate::{NoMemory, Sequence};
use std::alloc::Global;

/// Returns the row starts of a text, whose gap is at its end.
pub fn starts_of(alloc: Global, chars: &[char]) -> Result<GapBuffer<usize>, NoMemory>
    requires short { length chars.now ≤ 32768 }
    ensures front { IfOk result (λ starts. starts.front ≡ row_starts chars.now) }
    ensures back { IfOk result (λ starts. starts.back ≡ []) }
{
    let mut starts = GapBuffer::new(Sequence::new(alloc));
    starts.make_room(line_feeds(chars), 0)?;
    push_starts(&mut starts, 0, chars);
    Ok(starts)
}

/// Returns the number of line feeds.
#[tactic(auto, using(crate::proofs::RowCounts::row_counts, crate::proofs::StartLists::length_row_starts))]
pub fn line_feeds(chars: &[char]) -> usize
    requires short { length chars.now ≤ 32768 }
    ensures count { result ≡ length (row_starts chars.now) }
    ensures within { result ≤ length chars.now }
{
    let mut count = 0;
    for c in chars {
        if *c == '\n' {
            count += 1;
        }
    }
    count
}

/// Puts the row starts of `chars`, which stand at the place `at`, before the gap, which has room for them.
pub fn push_starts(starts: &mut GapBuffer<usize>, at: usize, chars: &[char])
    requires short { at + length chars.now ≤ 32768 }
    requires room { length (starts_from at chars.now) ≤ starts.old.room }
    ensures front { starts.new.front ≡ starts.old.front ++ starts_from at chars.now }
    ensures back { starts.new.back ≡ starts.old.back }
{
    for (i, c) in chars.iter().enumerate() {
        if *c == '\n' {
            starts.push(&[at + i + 1]);
        }
    }
}

/// Puts characters, for which both gaps have room, at the place `at`, where the gaps go.
pub fn insert(text: &mut GapBuffer<char>, starts: &mut GapBuffer<usize>, at: usize, chars: &[char])
    requires indexed { IsIndexed text.old starts.old }
    requires place { at ≤ length (joined text.old) }
    requires short { length (joined text.old) + length chars.now ≤ 32768 }
    requires room { length chars.now ≤ text.old.room }
    requires starts_room { length (row_starts chars.now) ≤ starts.old.room }
    ensures indexed { IsIndexed text.new starts.new }
    ensures text { joined text.new
        ≡ take at (joined text.old) ++ chars.now ++ drop at (joined text.old) }
{
    move_gap(text, starts, at);
    push_starts(starts, at, chars);
    text.push(chars);
}

/// Deletes the characters from `from`, where the gaps go, up to and without `to`.
pub fn delete(text: &mut GapBuffer<char>, starts: &mut GapBuffer<usize>, from: usize, to: usize)
    requires indexed { IsIndexed text.old starts.old }
    requires ordered { from ≤ to }
    requires range { to ≤ length (joined text.old) }
    ensures indexed { IsIndexed text.new starts.new }
    ensures text { joined text.new ≡ take from (joined text.old) ++ drop to (joined text.old) }
{
    let rows = row_at(text, starts, to) - row_at(text, starts, from);
    move_gap(text, starts, from);
    text.remove(to - from);
    starts.remove(rows);
}

/// Moves the gap of the characters to the place `at`, and that of the row starts along.
pub fn move_gap(chars: &mut GapBuffer<char>, starts: &mut GapBuffer<usize>, at: usize)
    requires indexed { IsIndexed chars.old starts.old }
    requires place { at ≤ length (joined chars.old) }
    ensures indexed { IsIndexed chars.new starts.new }
    ensures front { chars.new.front ≡ take at (joined chars.old) }
    ensures back { chars.new.back ≡ drop at (joined chars.old) }
    ensures room { chars.new.room ≡ chars.old.room }
    ensures starts_room { starts.new.room ≡ starts.old.room }
{
    let row = row_at(chars, starts, at);
    pass_back(chars, starts, row);
    pass_ahead(chars, starts, row);
    chars.move_to(at);
}

/// Returns the row of this place: it searches for the first row start behind the place.
pub fn row_at(chars: &GapBuffer<char>, starts: &GapBuffer<usize>, place: usize) -> usize
    requires indexed { IsIndexed chars.now starts.now }
    requires place { place ≤ length (joined chars.now) }
    ensures row { result ≡ row_of (joined chars.now) place }
    ensures within { result ≤ length (row_starts (joined chars.now)) }
    ensures short { result ≤ 32768 }
{
    let mut low = 0;
    let mut high = starts.len();
    while low < high {
        let middle = low + (high - low) / 2;
        if start_at(chars, starts, middle) <= place {
            low = middle + 1;
        } else {
            high = middle;
        }
    }
    low
}

/// Returns the number of the last row.
pub fn last_row(chars: &GapBuffer<char>, starts: &GapBuffer<usize>) -> usize
    requires indexed { IsIndexed chars.now starts.now }
    ensures { result ≡ length (row_starts (joined chars.now)) }
{
    starts.len()
}

/// Returns the row start number `nth`, counted from 0.
pub fn start_at(chars: &GapBuffer<char>, starts: &GapBuffer<usize>, nth: usize) -> usize
    requires indexed { IsIndexed chars.now starts.now }
    requires some { nth < length (joined starts.now) }
    ensures start { result ≡ slice_index (row_starts (joined chars.now)) nth }
    ensures above { 0 < result }
    ensures within { result ≤ length (joined chars.now) }
{
    let (front, back) = starts.parts();
    if nth < front.len() {
        front[nth]
    } else {
        chars.len() - back[nth - front.len()]
    }
}

/// Moves the gap of the row starts back until no more than `row` stand before it.
fn pass_back(chars: &GapBuffer<char>, starts: &mut GapBuffer<usize>, row: usize)
    requires parted { IsParted (joined chars.now) starts.old }
    ensures parted { IsParted (joined chars.now) starts.new }
    ensures count { length starts.new.front ≡ min row (length starts.old.front) }
    ensures room { starts.new.room ≡ starts.old.room }
{
    let len = chars.len();
    while starts.gap() > row {
        let (front, _) = starts.parts();
        let start = front[front.len() - 1];
        starts.pass_back(len - start);
    }
}

/// Moves the gap of the row starts ahead until no fewer than `row` stand before it.
fn pass_ahead(chars: &GapBuffer<char>, starts: &mut GapBuffer<usize>, row: usize)
    requires parted { IsParted (joined chars.now) starts.old }
    requires row { row ≤ length (row_starts (joined chars.now)) }
    ensures parted { IsParted (joined chars.now) starts.new }
    ensures count { length starts.new.front ≡ max row (length starts.old.front) }
    ensures room { starts.new.room ≡ starts.old.room }
{
    let len = chars.len();
    while starts.gap() < row {
        let (_, back) = starts.parts();
        let distance = back[0];
        starts.pass_ahead(len - distance);
    }
}
