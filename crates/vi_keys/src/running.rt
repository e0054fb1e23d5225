//! Running a command: what it is to do, what every command leaves behind, and where the cursor rests.
ghost use Rattle.std.specs.Prelude.{◌≡◌, ◌↔◌, false, OnOk, OnErr, IfOk, IsTrue, IsFalse};
ghost use Rattle.vi_keys.specs.Acts.{FitsAct};
ghost use Rattle.vi_keys.specs.Answering.{bones, done_by, answer_of, digits_of};
ghost use Rattle.vi_keys.specs.Planning.{plan_of};
ghost use Rattle.vi_keys.specs.Running.{keeps_column, keeps_argument, left_behind, is_idle, stands_out, settled, ran, vi_after, carried_out, IsReady, rest_of, AnswersTo};

use crate::acts::{Told, carry_out, mark};
use crate::commands::ViCommand;
use crate::deeds::{Deed, deed_of};
use crate::motions::Motion;
use crate::planning::plan_of;
use crate::plans::{MAX_COUNT, Plan};
use edit_state::{Done, EditState, Find, NoMemory, ViMode, ViState};
use key_names::KeyPress;
use std::alloc::Global;

/// Tells whether a command may run: no search is held, and the count of a waiting operator is from 1 to 999,999.
pub fn is_ready(state: &EditState, vi: ViState) -> bool
    ensures { IsTrue result ↔ IsReady state.now vi }
{
    let counted = match vi.operator {
        Some(_) => 0 < vi.operator_count && vi.operator_count <= MAX_COUNT,
        None => true,
    };
    state.search.is_none() && counted
}

/// Runs a command by a key. At want of memory all is as before.
pub fn run_vi(
    alloc: Global,
    command: ViCommand,
    key: &KeyPress,
    state: &mut EditState,
    vi: &mut ViState,
) -> Result<Done, NoMemory>
    requires ready { IsReady state.old vi.old }
    ensures state { OnOk result (state.new ≡ ran command key.now.key state.old vi.old) }
    ensures vi { OnOk result (vi.new ≡ vi_after command key.now.key state.old vi.old) }
    ensures err { OnErr result (state.new ≡ state.old) }
    ensures err_vi { OnErr result (vi.new ≡ vi.old) }
    ensures done { IfOk result (λ done. AnswersTo (plan_of command key.now.key state.old vi.old)
        done state.old vi.old state.new vi.new) }
    ensures ready { IsReady state.new vi.new }
    ensures rests { OnOk result (IsTrue (is_idle vi.new) → IsFalse (stands_out state.new.buffer.doc)) }
{
    let plan = plan_of(alloc, command, key.key, state, *vi)?;
    let before = *vi;
    let after = plan.vi;
    let done = carry_out_plan(alloc, plan, command, state, before)?;
    *vi = after;
    Ok(done)
}

/// Carries out a plan, and leaves what its command leaves.
fn carry_out_plan(
    alloc: Global,
    plan: Plan,
    command: ViCommand,
    state: &mut EditState,
    vi: ViState,
) -> Result<Done, NoMemory>
    requires fits { FitsAct plan.act state.old.buffer.doc }
    ensures state { OnOk result (state.new ≡ carried_out plan command vi state.old) }
    ensures err { OnErr result (state.new ≡ state.old) }
    ensures done { IfOk result (λ done. AnswersTo plan done state.old vi state.new plan.vi) }
    ensures search { state.new.search ≡ state.old.search }
    ensures rests { OnOk result (IsTrue (is_idle plan.vi) → IsFalse (stands_out state.new.buffer.doc)) }
{
    let Plan {
        act,
        marks,
        vi: after,
        said,
    } = plan;
    let rest = rest_of(state, vi);
    let told = carry_out(state, alloc, act)?;
    mark(state, marks);
    leave_behind(state, command, vi);
    settle(state, after);
    let differs = differs(rest, rest_of(state, after));
    Ok(answer_of(said, done_by(told, differs)))
}

/// Leaves what every command leaves: its number, and no argument, column or document from before a paste, but for those
/// that count and those that move by rows.
fn leave_behind(state: &mut EditState, command: ViCommand, vi: ViState)
    ensures { state.new ≡ left_behind command vi state.old }
{
    let deed = deed_of(command);
    if !keeps_argument(deed) {
        state.arg = None;
    }
    if !keeps_column(deed, vi) {
        state.column = None;
    }
    state.previous = Some(command.number());
    state.before_paste = None;
}

fn keeps_argument(deed: Deed) -> bool
    ensures { result ≡ keeps_argument deed }
{
    match deed {
        Deed::Digit => true,
        _ => false,
    }
}

fn keeps_column(deed: Deed, vi: ViState) -> bool
    ensures { result ≡ keeps_column deed vi }
{
    match deed {
        Deed::Move(Motion::Down) => vi.operator.is_none(),
        Deed::Move(Motion::Up) => vi.operator.is_none(),
        _ => false,
    }
}

/// Takes the cursor back from the end of a row where it is not to rest there.
#[tactic(auto, using(crate::proofs::Resting::rests))]
fn settle(state: &mut EditState, vi: ViState)
    ensures state { state.new ≡ settled vi state.old }
    ensures bones { bones state.new ≡ bones state.old }
    ensures rests { IsTrue (is_idle vi) → IsFalse (stands_out state.new.buffer.doc) }
{
    let _cursor = state.buffer.doc().cursor();
    if is_idle(vi) && stands_out(state) {
        let at = state.buffer.doc().cursor() - 1;
        state.go_to(at);
    }
}

/// Tells whether keys are read in Navigation while no operator waits.
fn is_idle(vi: ViState) -> bool
    ensures { result ≡ is_idle vi }
{
    match vi.mode {
        ViMode::Navigation => vi.operator.is_none(),
        ViMode::Insert | ViMode::Replace => false,
    }
}

/// Tells whether the cursor is at the end of a row that has a character, and nothing is selected.
fn stands_out(state: &EditState) -> bool
    ensures { result ≡ stands_out state.now.buffer.doc }
{
    let doc = state.buffer.doc();
    let cursor = doc.cursor();
    doc.mark().is_none() && cursor == doc.line_end() && doc.line_start() < cursor
}

/// What a command may change beside its effect.
#[derive(Clone, Copy, Debug)]
struct Rest {
    cursor: usize,
    mark: Option<usize>,
    column: Option<usize>,
    /// How many digits the argument has.
    digits: Option<usize>,
    pasted: bool,
    vi: ViState,
}

fn rest_of(state: &EditState, vi: ViState) -> Rest
    ensures { result ≡ rest_of state.now vi }
{
    let doc = state.buffer.doc();
    let digits = match &state.arg {
        Some(arg) => Some(arg.digits.len()),
        None => None,
    };
    Rest {
        cursor: doc.cursor(),
        mark: doc.mark(),
        column: state.column,
        digits,
        pasted: state.before_paste.is_some(),
        vi,
    }
}

/// Tells whether anything differs.
fn differs(before: Rest, after: Rest) -> bool
    ensures { (result ≡ false) ↔ (after ≡ before) }
{
    after.cursor != before.cursor
        || after.mark != before.mark
        || after.column != before.column
        || after.digits != before.digits
        || after.pasted != before.pasted
        || vi_differs(before.vi, after.vi)
}

fn vi_differs(before: ViState, after: ViState) -> bool
    ensures { (result ≡ false) ↔ (after ≡ before) }
{
    after.mode != before.mode
        || after.operator != before.operator
        || after.operator_count != before.operator_count
        || finds_differ(before.last_find, after.last_find)
        || after.lines != before.lines
}

fn finds_differ(before: Option<Find>, after: Option<Find>) -> bool
    ensures { (result ≡ false) ↔ (after ≡ before) }
{
    match (before, after) {
        (None, None) => false,
        (Some(before), Some(after)) => {
            after.wanted != before.wanted
                || after.forward != before.forward
                || after.before != before.before
        },
        _ => true,
    }
}

fn done_by(told: Told, differs: bool) -> Done
    ensures { result ≡ done_by told differs }
{
    match told {
        Told::Rang => Done::Bell,
        Told::Edited => Done::Changed,
        Told::Kept if differs => Done::Changed,
        Told::Kept => Done::Same,
    }
}

fn answer_of(said: Option<Done>, done: Done) -> Done
    ensures { result ≡ answer_of said done }
{
    match said {
        Some(said) => said,
        None => done,
    }
}
