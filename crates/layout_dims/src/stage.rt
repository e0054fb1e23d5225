//! A stage of a division: turns, until the sum of the sizes is reached.
ghost use Rattle.std.specs.Prelude.{◌≡◌, ℕ, ◌+◌, ◌<◌, ◌≤◌, sum, length, List, if◌then◌else◌};
ghost use Rattle.layout_dims.specs.Numbers.{greatest};
ghost use Rattle.layout_dims.specs.Turns.{takes_turn, turns_taken, AreWeights};
ghost use Rattle.layout_dims.specs.Division.{IsStage};
ghost use Rattle.layout_dims.specs.Growth.{Grows, IsNext, CanGrow};

/// A place in the order of turns: so many rounds are over, and in the round after them the children below `child` had
/// their turns.
#[derive(Clone, Copy, Drop)]
pub(crate) struct Place {
    pub(crate) rounds: u32,
    pub(crate) child: usize,
}

/// Returns the greatest of the numbers, or 0.
fn greatest_of(numbers: &[u32]) -> u32
    ensures { result ≡ greatest numbers.now }
{
    let mut most = 0;
    for number in numbers {
        most = (*number).max(most);
    }
    most
}

/// Tells whether a child has a turn in the round after these. Its k-th turn stands in round
/// floor((k - 1) * greatest / weight) + 1, so a turn stands in this round where a multiple of
/// `greatest` lies in [rounds * weight, rounds * weight + weight).
fn has_turn(rounds: u32, weight: u32, greatest_weight: u32) -> bool
    requires positive { 0 < weight }
    requires within { weight ≤ greatest_weight }
    requires small { greatest_weight ≤ 1000 }
    requires rounds_in { rounds < 2004000 }
    ensures { result ≡ takes_turn greatest_weight weight (rounds + 1) }
{
    let past = rounds * weight % greatest_weight;
    past == 0 || greatest_weight < past + weight
}

/// Gives the child at this place its turn, where it has one and is below its cap, and goes to the next place. Returns
/// whether the child grew.
fn visit(
    weights: &[u32],
    caps: &[u32],
    greatest_weight: u32,
    sizes: &mut [u32],
    place: &mut Place,
) -> bool
    requires weights_in { AreWeights weights.now }
    requires greatest_is { greatest_weight ≡ greatest weights.now }
    requires one_cap { length caps.now ≡ length weights.now }
    requires one_size { length sizes.old ≡ length weights.now }
    requires place_in { place.old.child ≤ length weights.now }
    requires rounds_in { place.old.rounds < 2004000 }
    ensures grows { (starts : List ℕ) (from goal : ℕ) → sum sizes.old < goal
        → Grows weights.now starts caps.now from
        (turns_taken weights.now place.old.rounds place.old.child) sizes.old goal
        → Grows weights.now starts caps.now from
        (turns_taken weights.now place.new.rounds place.new.child) sizes.new goal }
    ensures total { sum sizes.new ≡ sum sizes.old + (if result then 1 else 0) }
    ensures next { IsNext (length weights.now)
        place.old.rounds place.old.child place.new.rounds place.new.child }
{
    let child = place.child;
    if child == weights.len() {
        place.rounds += 1;
        place.child = 0;
        return false;
    }
    place.child = child + 1;
    if !has_turn(place.rounds, weights[child], greatest_weight) {
        return false;
    }
    if sizes[child] >= caps[child] {
        return false;
    }
    sizes[child] += 1;
    true
}

/// Gives turns in their order, from this place on, until the sum of the sizes is the goal.
pub(crate) fn run_stage(
    weights: &[u32],
    caps: &[u32],
    goal: u32,
    sizes: &mut [u32],
    place: &mut Place,
)
    requires weights_in { AreWeights weights.now }
    requires can_grow { CanGrow weights.now sizes.old caps.now goal }
    requires place_in { place.old.child ≤ length weights.now }
    requires rounds_in { place.old.rounds ≤ 1002000 }
    ensures stage { IsStage weights.now sizes.old caps.now
        (turns_taken weights.now place.old.rounds place.old.child) goal
        (turns_taken weights.now place.new.rounds place.new.child) sizes.new }
    ensures place_in { place.new.child ≤ length weights.now }
    ensures rounds_in { place.new.rounds ≤ place.old.rounds + 1002000 }
{
    let greatest_weight = greatest_of(weights);
    let mut total: u32 = sizes.iter().sum();
    while total < goal {
        if visit(weights, caps, greatest_weight, sizes, place) {
            total += 1;
        }
    }
}
