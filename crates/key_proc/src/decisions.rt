//! What is decided of the held keys.
ghost use Rattle.std.specs.Prelude.{◌≡◌, ◌≤◌, ◌<◌, List, length, IfSome};
ghost use Rattle.key_names.specs.declared.key.Key.{Key};
ghost use Rattle.key_proc.specs.declared.bindings.Binding.{Binding};
ghost use Rattle.key_proc.specs.Choices.{IsFound};
ghost use Rattle.key_proc.specs.Decisions.{decided, decided_on_longest, UsesSome};

use crate::choices::{Choice, Found};

/// What is done with the held keys, of which there is one at least.
#[derive(Clone, Copy, Debug)]
pub(crate) enum Decision {
    /// A binding fires on the first `used` keys.
    Fire { choice: Choice, used: usize },
    /// More keys are awaited.
    Wait,
    /// The first key is dropped.
    Drop,
}

/// Decides by what was found in a table for `count` keys.
pub(crate) fn decide(found: &Found, count: usize, flush: bool) -> Decision
    requires some { 1 ≤ count }
    requires few { count ≤ 3 }
    ensures decided { (bindings : List Binding) (keys : List Key) → IsFound bindings keys found.now
        → length keys ≡ count → result ≡ decided bindings keys flush }
    ensures used { UsesSome result count }
{
    if let Some(choice) = found.eager {
        return Decision::Fire {
            choice,
            used: count,
        };
    }
    if !flush && found.longer {
        return Decision::Wait;
    }
    match on_longest_front(found, count) {
        Some(decision) => decision,
        None => Decision::Drop,
    }
}

/// Fires on the longest front of at most `count` keys that a binding matches.
fn on_longest_front(found: &Found, count: usize) -> Option<Decision>
    requires { count ≤ 3 }
    ensures decided { (bindings : List Binding) (keys : List Key) → IsFound bindings keys found.now
        → result ≡ decided_on_longest keys bindings count }
    ensures used { IfSome result (λ decision. UsesSome decision count) }
{
    let mut used = count;
    while used > 0 {
        if let Some(choice) = found.on_front(used) {
            return Some(Decision::Fire { choice, used });
        }
        used -= 1;
    }
    None
}
