//! What each command is to do.
ghost use Rattle.std.specs.Prelude.{◌≡◌, ◌≤◌, length, IfOk};
ghost use Rattle.vi_keys.specs.Acts.{FitsAct};
ghost use Rattle.vi_keys.specs.Plans.{in_mode, Counts};
ghost use Rattle.vi_keys.specs.Planning.{plan_for, plan_of, selecting, counting, leaving};

use crate::acts::{Act, Marks};
use crate::changing::{case_swapped, joined, opened, overwritten, put, replaced};
use crate::commands::ViCommand;
use crate::deeds::{Deed, deed_of};
use crate::moving::{gone, moving};
use crate::operating::{again, await_for, ended, on_rows, on_word, selected, taken};
use crate::plans::{Plan, answered, counted, plain};
use crate::reaches::reach_of;
use edit_state::{Done, EditState, NoMemory, ViMode, ViState, place_back};
use key_names::Key;
use std::alloc::Global;

/// Returns what a command is to do by a key.
pub fn plan_of(
    alloc: Global,
    command: ViCommand,
    key: Key,
    state: &EditState,
    vi: ViState,
) -> Result<Plan, NoMemory>
    ensures plan { IfOk result (λ plan. plan ≡ plan_of command key state.now vi) }
    ensures fits { IfOk result (λ plan. FitsAct plan.act state.now.buffer.doc) }
    ensures counts { IfOk result (λ plan. Counts vi → Counts plan.vi) }
{
    plan_for(alloc, deed_of(command), key, state, vi)
}

fn plan_for(
    alloc: Global,
    deed: Deed,
    key: Key,
    state: &EditState,
    vi: ViState,
) -> Result<Plan, NoMemory>
    ensures plan { IfOk result (λ plan. plan ≡ plan_for deed key state.now vi) }
    ensures fits { IfOk result (λ plan. FitsAct plan.act state.now.buffer.doc) }
    ensures counts { IfOk result (λ plan. Counts vi → Counts plan.vi) }
{
    let doc = state.buffer.doc();
    match deed {
        Deed::Move(motion) => moving(motion, key, state, vi),
        Deed::Await(operator) => Ok(await_for(operator, state, vi)),
        Deed::Again(operator) => again(operator, state, vi),
        Deed::OnSelection(operator) => selected(operator, state, vi),
        Deed::OnMotion(operator, motion) => {
            let reach = reach_of(motion, key, state, vi.last_find, counted(state));
            taken(operator, doc, reach, vi)
        },
        Deed::OnRows(operator) => on_rows(operator, doc, counted(state), vi),
        Deed::OnWord(around) => on_word(around, state, vi),
        Deed::InsertAt(motion) => {
            let reach = reach_of(motion, key, state, vi.last_find, 1);
            Ok(gone(reach, in_mode(ViMode::Insert, vi)))
        },
        Deed::Enter(mode) => Ok(plain(in_mode(mode, vi), Act::Stay)),
        Deed::EnterNavigation => {
            Ok(plain(in_mode(ViMode::Navigation, vi), Act::Go(place_back(doc, 1))))
        },
        Deed::OverwriteBack => Ok(plain(vi, Act::Go(place_back(doc, 1)))),
        Deed::Overwrite => overwritten(alloc, key, doc, vi),
        Deed::Replace => replaced(alloc, key, state, vi),
        Deed::SwapCase => case_swapped(alloc, state, vi),
        Deed::Join => joined(alloc, doc, vi),
        Deed::Put(behind) => put(alloc, behind, state, vi),
        Deed::Open(below) => opened(alloc, below, doc, in_mode(ViMode::Insert, vi), vi),
        Deed::Select(rows) => Ok(selecting(rows, vi)),
        Deed::Undo => Ok(plain(vi, Act::Undo)),
        Deed::Redo => Ok(plain(vi, Act::Redo)),
        Deed::Digit => Ok(counting(key, vi)),
        Deed::Leave => Ok(leaving(vi)),
        Deed::EndOperator => Ok(answered(ended(vi), Done::Bell)),
        Deed::Answer(done) => Ok(answered(vi, done)),
    }
}

fn in_mode(mode: ViMode, vi: ViState) -> ViState
    ensures { result ≡ in_mode mode vi }
{
    ViState { mode, ..vi }
}

/// Returns the plan to select from the cursor on.
fn selecting(rows: bool, vi: ViState) -> Plan
    ensures { result ≡ selecting rows vi }
{
    Plan {
        act: Act::Stay,
        marks: Marks::Set,
        vi: ViState { lines: rows, ..vi },
        said: None,
    }
}

/// Returns the plan to end the operator and the selection.
fn leaving(vi: ViState) -> Plan
    ensures { result ≡ leaving vi }
{
    Plan {
        act: Act::Stay,
        marks: Marks::Clear,
        vi: ended(vi),
        said: None,
    }
}

/// Returns the plan to add the digit of a key to the argument.
fn counting(key: Key, vi: ViState) -> Plan
    ensures plan { result ≡ counting key vi }
    ensures vi { result.vi ≡ vi }
{
    match key {
        Key::Char(c) if c.is_ascii_digit() => plain(vi, Act::Digit(c)),
        _ => answered(vi, Done::Same),
    }
}
