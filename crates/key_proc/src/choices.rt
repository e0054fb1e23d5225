//! The best bindings for the held keys, found in one walk over a table.
ghost use Rattle.std.specs.Prelude.{◌≡◌, ◌≤◌, ◌++◌, [], ◌∷◌, ◌&&◌, List, take};
ghost use Rattle.key_proc.specs.declared.bindings.Binding.{Binding};
ghost use Rattle.key_proc.specs.Sizes.{AllSized};
ghost use Rattle.key_proc.specs.Facts.{has};
ghost use Rattle.key_proc.specs.Filters.{holds};
ghost use Rattle.key_proc.specs.Matching.{agrees};
ghost use Rattle.key_proc.specs.Firing.{active, matching, eager_matching, longer};
ghost use Rattle.key_proc.specs.Choices.{choice_of, best_of, better, IsFound};

use crate::bindings::{Binding, Bindings, Save};
use crate::facts::Facts;
use crate::matching::{agrees, begins, count_any, matches};
use key_names::Key;

/// What is kept of a binding that may fire.
#[derive(Clone, Copy, Debug)]
pub(crate) struct Choice {
    /// How many of its keys stand for each key.
    any: usize,
    pub(crate) command: u32,
    pub(crate) save: Save,
}

/// The best of the active bindings under each rule.
#[derive(Debug, Drop)]
pub(crate) struct Found {
    /// Of the eager ones that match all held keys.
    pub(crate) eager: Option<Choice>,
    /// Whether one has more keys than are held, and its first keys match.
    pub(crate) longer: bool,
    /// Of those that match the first held key.
    one: Option<Choice>,
    /// Of those that match the first two, or all where there are fewer.
    two: Option<Choice>,
    /// Of those that match the first three, or all where there are fewer.
    three: Option<Choice>,
}

impl Found {
    /// Returns that nothing was found yet.
    fn nothing(keys: &[Key]) -> Found
        ensures { IsFound [] keys.now result }
    {
        Found {
            eager: None,
            longer: false,
            one: None,
            two: None,
            three: None,
        }
    }

    /// Takes one more binding into account.
    fn see(&mut self, binding: &Binding, keys: &[Key])
        ensures { (seen : List Binding) → IsFound seen keys.now self.old
            → IsFound (seen ++ binding.now ∷ []) keys.now self.new }
    {
        let choice = choice_of(binding);
        let eager = is_eager_match(binding, keys);
        let longer = is_longer(binding, keys);
        let one = is_match(binding, keys, 1);
        let two = is_match(binding, keys, 2);
        let three = is_match(binding, keys, 3);
        self.eager = better(eager, self.eager, choice);
        self.longer = self.longer || longer;
        self.one = better(one, self.one, choice);
        self.two = better(two, self.two, choice);
        self.three = better(three, self.three, choice);
    }

    /// Returns the best of the bindings that match the first `count` keys.
    pub(crate) fn on_front(&self, count: usize) -> Option<Choice>
        requires some { 1 ≤ count }
        requires few { count ≤ 3 }
        ensures { (bindings : List Binding) (keys : List Key) → IsFound bindings keys self.now
            → result ≡ best_of (matching (take count keys)) bindings }
    {
        match count {
            1 => self.one,
            2 => self.two,
            _ => self.three,
        }
    }
}

/// Returns the first `count` keys, or all where there are fewer.
fn front(keys: &[Key], count: usize) -> &[Key]
    ensures { result.now ≡ take count keys.now }
{
    if count < keys.len() {
        &keys[..count]
    } else {
        keys
    }
}

/// Tells what is kept of a binding.
fn choice_of(binding: &Binding) -> Choice
    ensures { result ≡ choice_of binding.now }
{
    Choice {
        any: count_any(binding.keys.as_slice()),
        command: binding.command,
        save: binding.save,
    }
}

/// Tells whether the binding matches the first `count` keys, or all where there are fewer.
fn is_match(binding: &Binding, keys: &[Key], count: usize) -> bool
    ensures { result ≡ matching (take count keys.now) binding.now }
{
    matches(binding.keys.as_slice(), front(keys, count))
}

/// Tells whether the binding is eager, and matches all these keys.
fn is_eager_match(binding: &Binding, keys: &[Key]) -> bool
    ensures { result ≡ eager_matching keys.now binding.now }
{
    binding.eager && matches(binding.keys.as_slice(), keys)
}

/// Tells whether the binding has more keys than these, which its first keys match.
fn is_longer(binding: &Binding, keys: &[Key]) -> bool
    ensures { result ≡ longer keys.now binding.now }
{
    begins(binding.keys.as_slice(), keys)
}

/// Returns the better of the best so far and a binding behind it, if that is one that counts.
fn better(counts: bool, best: Option<Choice>, choice: Choice) -> Option<Choice>
    ensures { result ≡ better counts best choice }
{
    match best {
        _ if !counts => best,
        Some(other) if other.any < choice.any => best,
        _ => Some(choice),
    }
}

/// Tells whether the binding may fire: its keys agree with these, and its filter holds, which is asked only then.
fn may_fire(binding: &Binding, facts: &Facts, keys: &[Key]) -> bool
    ensures { result
        ≡ (agrees binding.now.keys keys.now && holds (has facts.now) binding.now.filter) }
{
    agrees(binding.keys.as_slice(), keys) && binding.filter.holds(facts)
}

/// Finds what a table has for these keys, where these facts hold. No filter is asked of a binding whose keys do not
/// agree with these.
pub(crate) fn find<const N: usize>(table: &Bindings<N>, facts: &Facts, keys: &[Key]) -> Found
    ensures found { IsFound (active table.now (has facts.now)) keys.now result }
    ensures sized { AllSized table.now }
{
    let mut found = Found::nothing(keys);
    for binding in table.as_slice() {
        if may_fire(binding, facts, keys) {
            found.see(binding, keys);
        }
    }
    found
}
