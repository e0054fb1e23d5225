//! Ranges that operators take, and what each operator makes of one.
ghost use Rattle.std.specs.Prelude.{◌≡◌, ◌≤◌, false, length, IfOk};
ghost use Rattle.text_doc.specs.Rows.{line_start, line_end};
ghost use Rattle.vi_keys.specs.Spans.{span_of, word_span, rows_reach, clip_of, rows_from};

use crate::motions::{Kind, Reach};
use crate::runs::{run_end, run_start};
use edit_buffer::Clip;
use edit_state::NoMemory;
use text_doc::{Class, Doc, class_of};

/// A range of a text.
#[derive(Clone, Copy, Debug, PartialEq, Eq)]
pub struct Span {
    pub from: usize,
    pub to: usize,
    /// Whether it is of whole rows, without the line feed of the last one.
    pub rows: bool,
}

/// Returns what stands between the cursor and where a motion goes.
pub fn span_of(doc: &Doc, reach: Reach) -> Span
    requires { reach.place ≤ length doc.now.text }
    ensures span { result ≡ span_of doc.now reach }
    ensures ordered { result.from ≤ result.to }
    ensures within { result.to ≤ length doc.now.text }
{
    let first = doc.cursor().min(reach.place);
    let last = doc.cursor().max(reach.place);
    match reach.kind {
        Kind::Exclusive => chars(first, last),
        Kind::Inclusive => chars(first, doc.len().min(last + 1)),
        Kind::Rows => Span {
            from: doc.line_start_from(first),
            to: doc.line_end_from(last),
            rows: true,
        },
    }
}

fn chars(from: usize, to: usize) -> Span
    ensures { result ≡ record { from = from; to = to; rows = false } }
{
    Span {
        from,
        to,
        rows: false,
    }
}

/// Returns the run of one class at the cursor in its row, with the white space behind it where that is wanted.
pub fn word_span(doc: &Doc, around: bool) -> Span
    ensures span { result ≡ word_span around doc.now }
    ensures ordered { result.from ≤ result.to }
    ensures within { result.to ≤ length doc.now.text }
{
    let cursor = doc.cursor();
    let end = doc.line_end();
    if cursor == end {
        return chars(cursor, cursor);
    }
    let class = class_of(doc.char_at(cursor), false);
    let from = run_start(doc, class, doc.line_start(), cursor);
    let to = run_end(doc, class, cursor, end);
    if around {
        chars(from, run_end(doc, Class::White, to, end))
    } else {
        chars(from, to)
    }
}

/// Returns so many rows from the cursor's row on, or fewer where there are fewer.
pub fn rows_reach(doc: &Doc, count: u32) -> Reach
    ensures reach { result ≡ rows_reach doc.now count }
    ensures within { result.place ≤ length doc.now.text }
{
    let further = doc.down(count.saturating_sub(1), 0);
    Reach {
        place: further.unwrap_or(doc.cursor()),
        kind: Kind::Rows,
    }
}

/// Returns a clip of a range.
pub fn clip_of(doc: &Doc, span: Span) -> Result<Clip, NoMemory>
    requires ordered { span.from ≤ span.to }
    requires range { span.to ≤ length doc.now.text }
    ensures { IfOk result (λ clip. clip ≡ clip_of doc.now span) }
{
    let text = doc.part(span.from, span.to)?;
    Ok(Clip {
        text,
        lines: span.rows,
    })
}

/// Returns where the deletion of rows begins: with the line feed before them where they are the last ones.
pub fn rows_from(doc: &Doc, span: Span) -> usize
    requires ordered { span.from ≤ span.to }
    requires range { span.to ≤ length doc.now.text }
    ensures place { result ≡ rows_from doc.now span }
    ensures within { result ≤ span.from }
{
    if span.to < doc.len() {
        span.from
    } else {
        span.from.saturating_sub(1)
    }
}
