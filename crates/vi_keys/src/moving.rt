//! Motions in Navigation: by themselves they move the cursor, and a waiting operator takes what they pass.
ghost use Rattle.std.specs.Prelude.{◌≡◌, ◌≤◌, length, IfOk};
ghost use Rattle.std.specs.Option.{ForSome};
ghost use Rattle.vi_keys.specs.Acts.{FitsAct};
ghost use Rattle.vi_keys.specs.Plans.{Counts};
ghost use Rattle.vi_keys.specs.Moving.{gone, stepped, moved, with_find, moving};

use crate::acts::Act;
use crate::motions::{Motion, Reach};
use crate::operating::{ended, taken};
use crate::plans::{Plan, answered, count_for, plain};
use crate::reaches::{find_of, reach_of};
use edit_state::{Done, EditState, NoMemory, ViState};
use key_names::Key;

/// Returns what a motion does by a key.
pub fn moving(motion: Motion, key: Key, state: &EditState, vi: ViState) -> Result<Plan, NoMemory>
    ensures plan { IfOk result (λ plan. plan ≡ moving motion key state.now vi) }
    ensures fits { IfOk result (λ plan. FitsAct plan.act state.now.buffer.doc) }
    ensures counts { IfOk result (λ plan. Counts vi → Counts plan.vi) }
{
    let count = count_for(state, vi);
    let reach = reach_of(motion, key, state, vi.last_find, count);
    let left = with_find(motion, key, ended(vi));
    match vi.operator {
        Some(operator) => taken(operator, state.buffer.doc(), reach, left),
        None => Ok(moved(motion, state, reach, count, left)),
    }
}

/// Returns the same with the find that the motion makes as the last one.
fn with_find(motion: Motion, key: Key, vi: ViState) -> ViState
    ensures find { result ≡ with_find motion key vi }
    ensures operator { result.operator ≡ vi.operator }
{
    match motion {
        Motion::Character { forward, before } => match find_of(forward, before, key) {
            Some(find) => ViState {
                last_find: Some(find),
                ..vi
            },
            None => vi,
        },
        _ => vi,
    }
}

/// Returns what a motion does while no operator waits.
fn moved(motion: Motion, state: &EditState, reach: Option<Reach>, count: u32, vi: ViState) -> Plan
    requires { ForSome reach (λ r. r.place ≤ length state.now.buffer.doc.text) }
    ensures plan { result ≡ moved motion state.now.buffer.doc.mark reach count vi }
    ensures fits { FitsAct result.act state.now.buffer.doc }
    ensures vi { result.vi ≡ vi }
{
    let selects = state.buffer.doc().mark().is_some();
    match motion {
        Motion::Down if selects => stepped(Act::RowsDown(count), reach, vi),
        Motion::Down => plain(vi, Act::AutoDown(count)),
        Motion::Up if selects => stepped(Act::RowsUp(count), reach, vi),
        Motion::Up => plain(vi, Act::AutoUp(count)),
        _ => gone(reach, vi),
    }
}

/// Returns the plan to go where a motion goes. It rings where the motion has no place.
pub fn gone(reach: Option<Reach>, vi: ViState) -> Plan
    ensures plan { result ≡ gone reach vi }
    ensures vi { result.vi ≡ vi }
{
    match reach {
        Some(reach) => plain(vi, Act::Go(reach.place)),
        None => answered(vi, Done::Bell),
    }
}

/// Returns the plan to move by rows. It rings where there is no row.
fn stepped(act: Act, reach: Option<Reach>, vi: ViState) -> Plan
    ensures plan { result ≡ stepped act reach vi }
    ensures vi { result.vi ≡ vi }
{
    match reach {
        Some(_) => plain(vi, act),
        None => answered(vi, Done::Bell),
    }
}
