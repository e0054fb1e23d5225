//! What the order of turns and the division mean, as laws over their definitions. The functions do nothing.
ghost use Rattle.std.specs.Prelude.{◌≡◌, ◌==◌, ℕ, ◌+◌, ◌*◌, ◌<◌, ◌≤◌, Bool, List, All, sum, length, slice_index, count_by};
ghost use Rattle.layout_dims.specs.Numbers.{Numbers, IsDimension, greatest};
ghost use Rattle.layout_dims.specs.Turns.{round_of, turn_order, AreWeights};
ghost use Rattle.layout_dims.specs.Division.{IsStage, Division, minima_of};
ghost use Rattle.layout_dims.specs.Fairness.{AreEqual, IsFair};

/// A child's next turn stands in a later round, so no round has two of its turns.
pub fn one_turn_a_round()
    ensures { (m weight k : ℕ) → 0 < weight → weight ≤ m → 1 ≤ k
        → round_of m weight k < round_of m weight (k + 1) }
{}

/// In some rounds a child has as many turns as its weight's part of the greatest weight gives,
/// rounded up.
pub fn turns_follow_weights()
    ensures least { (weights : List ℕ) (i rounds : ℕ) → AreWeights weights → i < length weights
        → rounds * slice_index weights i
        ≤ count_by (λ child. child == i) (turn_order weights rounds) * greatest weights }
    ensures most { (weights : List ℕ) (i rounds : ℕ) → AreWeights weights → i < length weights
        → count_by (λ child. child == i) (turn_order weights rounds) * greatest weights
        < rounds * slice_index weights i + greatest weights }
{}

/// With equal weights a stage treats the children alike: of two that it leaves below their caps
/// neither has grown by two turns more than the other.
pub fn equal_weights_share_alike()
    ensures { (weights starts caps : List ℕ) (from goal T : ℕ) (sizes : List ℕ)
        → AreWeights weights → AreEqual weights → IsStage weights starts caps from goal T sizes
        → IsFair starts caps sizes }
{}

/// A room has one division among the parts: the definition leaves no choice.
pub fn a_room_has_one_division()
    ensures { (parts : List Numbers) (room : ℕ) (done : Bool) (one other : List ℕ)
        → Division parts room done one → Division parts room done other → one ≡ other }
{}

/// Where a room is divided, it is enough for the minima of the parts.
pub fn a_divided_room_is_enough()
    ensures { (parts : List Numbers) (room : ℕ) (done : Bool) (sizes : List ℕ)
        → All IsDimension parts
        → Division parts room done sizes → sum (minima_of parts) ≤ room }
{}
