//! What a command is to do, worked out before anything changes.
ghost use Rattle.std.specs.Prelude.{◌≡◌, ◌<◌};
ghost use Rattle.vi_keys.specs.Plans.{plain, answered, count_for, counted};

use crate::acts::{Act, Marks};
use edit_state::{Done, EditState, ViState, amount_in};

/// The greatest count.
pub const MAX_COUNT: u32 = 999_999;

/// What a command is to do.
#[derive(Debug, Drop)]
pub struct Plan {
    pub act: Act,
    pub marks: Marks,
    pub vi: ViState,
    /// What the command answers, where that does not follow from what differs afterwards.
    pub said: Option<Done>,
}

/// Returns a plan for an effect alone.
pub fn plain(vi: ViState, act: Act) -> Plan
    ensures { result ≡ plain vi act }
{
    Plan {
        act,
        marks: Marks::Keep,
        vi,
        said: None,
    }
}

/// Returns a plan that leaves the edit state as it is.
pub fn answered(vi: ViState, done: Done) -> Plan
    ensures { result ≡ answered vi done }
{
    Plan {
        act: Act::Stay,
        marks: Marks::Keep,
        vi,
        said: Some(done),
    }
}

/// Returns how often something is done by the argument alone.
pub fn counted(state: &EditState) -> u32
    ensures count { result ≡ counted state.now }
    ensures some { 0 < result }
{
    amount_in(&state.arg).count()
}

/// Returns how often a motion is made: the count before an operator counts too.
pub fn count_for(state: &EditState, vi: ViState) -> u32
    ensures { result ≡ count_for state.now vi }
{
    let count = counted(state);
    match vi.operator {
        None => count,
        Some(_) => MAX_COUNT.min(count.saturating_mul(vi.operator_count)),
    }
}
