//! What operators do: with a motion, as the same key comes again, with a selection and with a word.
ghost use Rattle.std.specs.Prelude.{◌≡◌, ◌≤◌, length, IfOk};
ghost use Rattle.std.specs.Option.{ForSome};
ghost use Rattle.vi_keys.specs.Acts.{FitsAct};
ghost use Rattle.vi_keys.specs.Plans.{left_by, ended, Counts};
ghost use Rattle.vi_keys.specs.Operating.{operated, deletion, taken, waits, rows_act, on_rows, again, selected, on_word, await_for};

use crate::acts::{Act, Marks};
use crate::motions::{Kind, Reach};
use crate::plans::{MAX_COUNT, Plan, answered, count_for, counted, plain};
use crate::spans::{Span, clip_of, rows_from, rows_reach, span_of, word_span};
use edit_state::{Done, EditState, NoMemory, Operator, ViMode, ViState};
use text_doc::Doc;

/// Returns what an operator does with a range.
pub fn operated(operator: Operator, doc: &Doc, span: Span) -> Result<Act, NoMemory>
    requires ordered { span.from ≤ span.to }
    requires range { span.to ≤ length doc.now.text }
    ensures act { IfOk result (λ act. act ≡ operated operator doc.now span) }
    ensures fits { IfOk result (λ act. FitsAct act doc.now) }
{
    let clip = clip_of(doc, span)?;
    match operator {
        Operator::Yank => Ok(Act::Put {
            at: span.from,
            clip,
        }),
        Operator::Delete if span.rows => {
            let from = rows_from(doc, span);
            Ok(Act::Remove {
                from,
                to: doc.len().min(span.to + 1),
                at: doc.line_start_from(from),
                clip,
            })
        },
        Operator::Delete | Operator::Change => Ok(Act::Remove {
            from: span.from,
            to: span.to,
            at: span.from,
            clip,
        }),
    }
}

/// Returns what is left after an operator: after a change characters are inserted.
pub fn left_by(operator: Operator, vi: ViState) -> ViState
    ensures left { result ≡ left_by operator vi }
    ensures idle { result.operator ≡ None }
{
    let mode = match operator {
        Operator::Change => ViMode::Insert,
        Operator::Delete | Operator::Yank => vi.mode,
    };
    ViState {
        mode,
        operator: None,
        ..vi
    }
}

/// Returns the same without an operator that waits.
pub fn ended(vi: ViState) -> ViState
    ensures { result ≡ ended vi }
{
    ViState {
        operator: None,
        ..vi
    }
}

/// Returns what an operator does with what a motion takes. It rings where the motion has no place.
pub fn taken(
    operator: Operator,
    doc: &Doc,
    reach: Option<Reach>,
    vi: ViState,
) -> Result<Plan, NoMemory>
    requires { ForSome reach (λ r. r.place ≤ length doc.now.text) }
    ensures plan { IfOk result (λ plan. plan ≡ taken operator doc.now reach vi) }
    ensures fits { IfOk result (λ plan. FitsAct plan.act doc.now) }
    ensures counts { IfOk result (λ plan. Counts vi → Counts plan.vi) }
{
    match reach {
        None => Ok(answered(vi, Done::Bell)),
        Some(reach) => {
            let act = operated(operator, doc, span_of(doc, reach))?;
            Ok(plain(left_by(operator, vi), act))
        },
    }
}

/// Returns what an operator does with so many rows. A copy leaves the cursor.
fn rows_act(operator: Operator, doc: &Doc, count: u32) -> Result<Act, NoMemory>
    ensures act { IfOk result (λ act. act ≡ rows_act operator doc.now count) }
    ensures fits { IfOk result (λ act. FitsAct act doc.now) }
{
    let span = span_of(doc, rows_reach(doc, count));
    match operator {
        Operator::Yank => Ok(Act::Put {
            at: doc.cursor(),
            clip: clip_of(doc, span)?,
        }),
        Operator::Delete | Operator::Change => operated(operator, doc, span),
    }
}

/// Returns what an operator does with so many rows from the cursor's on.
pub fn on_rows(operator: Operator, doc: &Doc, count: u32, vi: ViState) -> Result<Plan, NoMemory>
    ensures plan { IfOk result (λ plan. plan ≡ on_rows operator doc.now count vi) }
    ensures fits { IfOk result (λ plan. FitsAct plan.act doc.now) }
    ensures counts { IfOk result (λ plan. Counts vi → Counts plan.vi) }
{
    let act = rows_act(operator, doc, count)?;
    Ok(plain(left_by(operator, vi), act))
}

/// Returns what an operator's key does while an operator waits: whole rows where it is the same one, else a bell.
pub fn again(operator: Operator, state: &EditState, vi: ViState) -> Result<Plan, NoMemory>
    ensures plan { IfOk result (λ plan. plan ≡ again operator state.now vi) }
    ensures fits { IfOk result (λ plan. FitsAct plan.act state.now.buffer.doc) }
    ensures counts { IfOk result (λ plan. Counts vi → Counts plan.vi) }
{
    if waits(operator, vi.operator) {
        on_rows(operator, state.buffer.doc(), count_for(state, vi), vi)
    } else {
        Ok(answered(ended(vi), Done::Bell))
    }
}

fn waits(operator: Operator, waiting: Option<Operator>) -> bool
    ensures { result ≡ waits operator waiting }
{
    matches!(
        (operator, waiting),
        (Operator::Delete, Some(Operator::Delete))
            | (Operator::Change, Some(Operator::Change))
            | (Operator::Yank, Some(Operator::Yank))
    )
}

/// Returns what an operator does with the selection, which then ends.
pub fn selected(operator: Operator, state: &EditState, vi: ViState) -> Result<Plan, NoMemory>
    ensures plan { IfOk result (λ plan. plan ≡ selected operator state.now vi) }
    ensures fits { IfOk result (λ plan. FitsAct plan.act state.now.buffer.doc) }
    ensures counts { IfOk result (λ plan. Counts vi → Counts plan.vi) }
{
    let doc = state.buffer.doc();
    match doc.mark() {
        None => Ok(answered(vi, Done::Same)),
        Some(place) => {
            let kind = if vi.lines {
                Kind::Rows
            } else {
                Kind::Inclusive
            };
            let act = operated(operator, doc, span_of(doc, Reach { place, kind }))?;
            Ok(Plan {
                act,
                marks: Marks::Clear,
                vi: left_by(operator, vi),
                said: None,
            })
        },
    }
}

/// Returns what the waiting operator does with the word at the cursor.
pub fn on_word(around: bool, state: &EditState, vi: ViState) -> Result<Plan, NoMemory>
    ensures plan { IfOk result (λ plan. plan ≡ on_word around state.now vi) }
    ensures fits { IfOk result (λ plan. FitsAct plan.act state.now.buffer.doc) }
    ensures counts { IfOk result (λ plan. Counts vi → Counts plan.vi) }
{
    match vi.operator {
        None => Ok(answered(vi, Done::Same)),
        Some(operator) => {
            let doc = state.buffer.doc();
            let act = operated(operator, doc, word_span(doc, around))?;
            Ok(plain(left_by(operator, vi), act))
        },
    }
}

/// Returns what an operator's key does: the operator waits, with its count.
pub fn await_for(operator: Operator, state: &EditState, vi: ViState) -> Plan
    ensures plan { result ≡ await_for operator state.now vi }
    ensures counts { Counts result.vi }
{
    let waiting = ViState {
        operator: Some(operator),
        operator_count: MAX_COUNT.min(counted(state)),
        ..vi
    };
    answered(waiting, Done::Changed)
}
