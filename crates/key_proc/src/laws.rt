//! What follows from the rules by which a binding fires. These functions do nothing: their contracts are the laws.
ghost use Rattle.std.specs.Prelude.{◌≡◌, ◌≢◌, ◌≤◌, ◌++◌, ◌∷◌, [], ℕ, List, Bool, true, length, take};
ghost use Rattle.std.specs.List.{list_all};
ghost use Rattle.key_names.specs.declared.key.KeyPress.{KeyPress};
ghost use Rattle.key_proc.specs.declared.facts.Fact.{Fact};
ghost use Rattle.key_proc.specs.declared.bindings.Binding.{Binding};
ghost use Rattle.key_proc.specs.declared.rows.FactTest.{FactTest};
ghost use Rattle.key_proc.specs.Filters.{holds};
ghost use Rattle.key_proc.specs.Rows.{all_filter, test_holds};
ghost use Rattle.key_proc.specs.Firing.{keys_of, active, matching, eager_matching, fire_on, fires};
ghost use Rattle.key_proc.specs.Laws.{HasFewestAny, MayFire, NoneOnLonger, held_after};

use crate::held::Fired;

/// Among the bindings that match under one rule, the one with the fewest `Any` fires, whatever was added before it
/// and behind it, but for a later one with as few.
///
/// The rules are those of eager bindings, and of the longest front of the held keys that a binding matches.
pub fn fewest_any_fires()
    ensures eager { (table : List Binding) (facts : Fact → Bool) (first : KeyPress)
        (more : List KeyPress) (flush : Bool)
        (before : List Binding) (binding : Binding) (after : List Binding) →
        active table facts ≡ before ++ binding ∷ after →
        HasFewestAny (eager_matching (keys_of (first ∷ more))) before binding after →
        fires table facts (first ∷ more) flush
        ≡ fire_on first more (length (first ∷ more)) binding }
    ensures longest { (table : List Binding) (facts : Fact → Bool) (first : KeyPress)
        (more : List KeyPress) (flush : Bool)
        (before : List Binding) (binding : Binding) (after : List Binding) (n : ℕ) →
        active table facts ≡ before ++ binding ∷ after →
        MayFire (active table facts) (keys_of (first ∷ more)) flush →
        NoneOnLonger (active table facts) (keys_of (first ∷ more)) n →
        1 ≤ n → n ≤ length (first ∷ more) →
        HasFewestAny (matching (take n (keys_of (first ∷ more)))) before binding after →
        fires table facts (first ∷ more) flush ≡ fire_on first more n binding }
{}

/// Deciding with a flush never waits, and each decision takes a key at least. So deciding with a flush until `Nothing`
/// ends with no key held, whatever facts hold at each decision.
pub fn flush_ends()
    ensures never_waits { (table : List Binding) (facts : Fact → Bool) (held : List KeyPress) →
        fires table facts held true ≢ Fired.Wait }
    ensures nothing_held { (table : List Binding) (facts : Fact → Bool) (held : List KeyPress)
        (flush : Bool) →
        fires table facts held flush ≡ Fired.Nothing → held ≡ [] }
    ensures ends { (table : List Binding) (rounds : List (Fact → Bool)) (held : List KeyPress) →
        length held ≤ length rounds → held_after table rounds held ≡ [] }
{}

/// The filter of a row's tests holds exactly where all of them do.
pub fn rows_hold_by_tests()
    ensures { (facts : Fact → Bool) (tests : List FactTest)
        → holds facts (all_filter tests) ≡ list_all (test_holds facts) tests }
{}
