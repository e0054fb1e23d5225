//! The division of a split's room among its children.
ghost use Rattle.std.specs.Prelude.{◌≡◌, ◌<◌, ◌≤◌, ◌^◌, ◌↔◌, ℕ, All, slice_index, sum, length, IsNone, IfOk, IfSome};
ghost use Rattle.layout_dims.specs.Numbers.{IsDimension};
ghost use Rattle.layout_dims.specs.Division.{weights_of, minima_of, preferred_of, maxima_of, goal_of, caps_of, Stages, Division, IsBetween};
ghost use Rattle.layout_dims.specs.Turns.{AreWeights};
ghost use Rattle.layout_dims.specs.Growth.{CanGrow};

use crate::stage::{Place, run_stage};
use crate::{Dimension, NoMemory};
use sequences::Sequence;
use std::alloc::Global;

/// The sizes of the children of a split, in their order, in columns or rows.
pub type Sizes = Sequence<u32>;

/// Returns the least room that is enough for the children of a split: the sum of their minima.
fn least_room(parts: &[Dimension]) -> u32
    requires { length parts.now ≤ 1000 }
    ensures minima { result ≡ sum (minima_of parts.now) }
    ensures ordered { All IsDimension parts.now }
{
    let mut total = 0;
    for part in parts {
        let (min, _, _, _) = part.numbers();
        total += min;
    }
    total
}

/// Returns the weight of each part. The three functions below give the other numbers in the same way.
fn weights(alloc: Global, parts: &[Dimension]) -> Result<Vec<u32>, NoMemory>
    ensures { IfOk result (λ v. v.items ≡ weights_of parts.now) }
{
    parts.iter().map(|part| part.numbers().2).collect(alloc)
}

fn minima(alloc: Global, parts: &[Dimension]) -> Result<Vec<u32>, NoMemory>
    ensures { IfOk result (λ v. v.items ≡ minima_of parts.now) }
{
    parts.iter().map(|part| part.numbers().0).collect(alloc)
}

fn preferred(alloc: Global, parts: &[Dimension]) -> Result<Vec<u32>, NoMemory>
    ensures { IfOk result (λ v. v.items ≡ preferred_of parts.now) }
{
    parts.iter().map(|part| part.numbers().3).collect(alloc)
}

fn maxima(alloc: Global, parts: &[Dimension]) -> Result<Vec<u32>, NoMemory>
    ensures { IfOk result (λ v. v.items ≡ maxima_of parts.now) }
{
    parts.iter().map(|part| part.numbers().1).collect(alloc)
}

/// Runs the first stage and, unless the split is done, the second, on sizes that are the minima.
fn run_stages(
    weights: &[u32],
    preferred: &[u32],
    maxima: &[u32],
    room: u32,
    done: bool,
    sizes: &mut [u32],
)
    requires weights_in { AreWeights weights.now }
    requires can_grow { CanGrow weights.now sizes.old preferred.now (goal_of room preferred.now) }
    requires one_maximum { length maxima.now ≡ length weights.now }
    requires ordered { (i : ℕ) → i < length weights.now
        → slice_index preferred.now i ≤ slice_index maxima.now i }
    requires preferred_sum { sum preferred.now < 2 ^ 32 }
    requires maxima_sum { sum maxima.now < 2 ^ 32 }
    requires room_in { room ≤ 1000 }
    ensures { Stages weights.now sizes.old preferred.now maxima.now room done sizes.new }
{
    let mut place = Place {
        rounds: 0,
        child: 0,
    };
    let goal = room.min(preferred.iter().sum());
    run_stage(weights, preferred, goal, sizes, &mut place);
    if !done {
        let goal = room.min(maxima.iter().sum());
        run_stage(weights, maxima, goal, sizes, &mut place);
    }
}

/// Divides the room of a split among its children. There is no division where the room is too little for their minima.
///
/// Sizes start at the minima. Children get turns one after another, each more often the greater
/// its weight, and a turn adds one to a child below its cap. The caps are the preferred sizes
/// first. Unless the split is `done`, the turns then go on with the maxima as caps. The room is
/// in columns or rows, as are the sizes. It is at most 1,000, and so is the number of parts.
///
/// Turns are given one by one, and each round looks at every child. With equal weights there are
/// no more rounds than the room is large; a child of weight 1 beside capped ones of weight 1,000
/// has a turn in each thousandth round alone.
pub fn divide(
    alloc: Global,
    parts: &[Dimension],
    room: u32,
    done: bool,
) -> Result<Option<Sizes>, NoMemory>
    requires room_in { room ≤ 1000 }
    requires parts_in { length parts.now ≤ 1000 }
    ensures too_little { IfOk result (λ answer.
        IsNone answer ↔ (room < sum (minima_of parts.now))) }
    ensures division { IfOk result (λ answer. IfSome answer (Division parts.now room done)) }

    // What this means for the sizes, whichever turns gave them.
    ensures between { IfOk result (λ answer. IfSome answer
        (IsBetween (minima_of parts.now) (caps_of done parts.now))) }
    ensures filled { IfOk result (λ answer. IfSome answer
        (λ sizes. sum sizes ≡ goal_of room (caps_of done parts.now))) }
{
    if room < least_room(parts) {
        return Ok(None);
    }
    let weights = weights(alloc, parts)?;
    let preferred = preferred(alloc, parts)?;
    let maxima = maxima(alloc, parts)?;
    let mut sizes = minima(alloc, parts)?;
    let growing = sizes.as_mut_slice();
    run_stages(&weights, &preferred, &maxima, room, done, growing);
    Ok(Some(Sizes::from_vec(sizes)))
}
