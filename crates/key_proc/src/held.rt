//! The keys that are held, and what they do.
ghost use Rattle.std.specs.Prelude.{◌≡◌};
ghost use Rattle.key_proc.specs.HeldKeys.{key_or_any};

use crate::bindings::{Bindings, Save};
use crate::choices::{Choice, find};
use crate::decisions::{Decision, decide};
use crate::facts::Facts;
use key_names::{Key, KeyPress};
use std::marker::Model;

/// What held keys do.
#[derive(Debug, Drop)]
pub enum Fired {
    /// A binding fires.
    Fire {
        /// The number of its command.
        command: u32,
        save: Save,
        /// The last of its keys.
        last: KeyPress,
        /// The number of its keys.
        used: u32,
    },
    /// No binding begins with the first key, which is handed out.
    Dropped(KeyPress),
    /// More keys are awaited.
    Wait,
    /// No key is held.
    Nothing,
}

/// The keys that are held: pressed, and neither fired nor dropped yet. There are at most three.
#[derive(Debug, Drop)]
pub struct Held {
    first: Option<KeyPress>,
    second: Option<KeyPress>,
    third: Option<KeyPress>,
}

impl Model for Held {
    ghost use Rattle.std.specs.Prelude.{List, ◌++◌, option_to_list};
    ghost use Rattle.key_names.specs.declared.key.KeyPress.{KeyPress};

    ghost Value = { List KeyPress };

    ghost use Rattle.key_proc.specs.HeldKeys.{HasNoGap};

    ghost view = { λ h. option_to_list h.first ++ option_to_list h.second
        ++ option_to_list h.third };

    ghost invariant = { λ h. HasNoGap h.first h.second h.third };
}

impl Held {
    ghost use Rattle.std.specs.Prelude.{◌≡◌, ◌≢◌, ◌↔◌, ◌-◌, ◌<◌, ◌≤◌, [], ◌∷◌, ◌++◌, List, drop, length, take};
    ghost use Rattle.std.specs.Prelude.{slice_get, IsTrue};
    ghost use Rattle.key_names.specs.declared.key.KeyPress.{KeyPress};
    ghost use Rattle.key_proc.specs.Facts.{has};
    ghost use Rattle.key_proc.specs.Sizes.{AllSized};
    ghost use Rattle.key_proc.specs.Firing.{keys_of, active, fires, taken};
    ghost use Rattle.key_proc.specs.Decisions.{decided, UsesSome, answer_of};

    /// Returns no keys.
    pub fn new() -> Held
        ensures { result ≡ [] }
    {
        Held {
            first: None,
            second: None,
            third: None,
        }
    }

    /// Holds a key behind the others.
    pub fn push(&mut self, key: KeyPress)
        requires { length self.old < 3 }
        ensures { self.new ≡ self.old ++ key ∷ [] }
    {
        if self.first.is_none() {
            self.first = Some(key);
        } else if self.second.is_none() {
            self.second = Some(key);
        } else {
            self.third = Some(key);
        }
    }

    /// Returns the number of keys that are held.
    pub fn len(&self) -> usize
        ensures count { result ≡ length self.now }
        ensures few { result ≤ 3 }
    {
        match (&self.first, &self.second, &self.third) {
            (None, _, _) => 0,
            (_, None, _) => 1,
            (_, _, None) => 2,
            (_, _, _) => 3,
        }
    }

    /// Tells whether no key is held.
    pub fn is_empty(&self) -> bool
        ensures { IsTrue result ↔ (self.now ≡ []) }
    {
        self.first.is_none()
    }

    /// Decides what the held keys do: with a flush they wait for no more keys.
    ///
    /// A caller pushes a key and then decides until the answer is `Wait` or `Nothing`. The table is walked once.
    pub fn decide<const N: usize>(
        &mut self,
        table: &Bindings<N>,
        facts: &Facts,
        flush: bool,
    ) -> Fired
        ensures answer { result ≡ fires table.now (has facts.now) self.old flush }
        ensures rest { self.new ≡ drop (taken result) self.old }
        ensures fewer { result ≢ Fired.Wait → result ≢ Fired.Nothing
            → length self.new < length self.old }
        ensures few { result ≡ Fired.Wait → length self.new < 3 }
    {
        let fired = self.decide_all(table, facts, flush);
        fired
    }

    /// Answers and leaves what `decide` does.
    fn decide_all<const N: usize>(
        &mut self,
        table: &Bindings<N>,
        facts: &Facts,
        flush: bool,
    ) -> Fired
        ensures answer { result ≡ fires table.now (has facts.now) self.old flush }
        ensures rest { self.new ≡ drop (taken result) self.old }
        ensures sized { result ≡ Fired.Wait → AllSized table.now }
    {
        if self.len() == 0 {
            return Fired::Nothing;
        }
        match self.decision(table, facts, flush) {
            Decision::Fire { choice, used } => self.fire(choice, used),
            Decision::Wait => Fired::Wait,
            Decision::Drop => self.drop_first(),
        }
    }

    /// Decides on the keys that are held.
    fn decision<const N: usize>(&self, table: &Bindings<N>, facts: &Facts, flush: bool) -> Decision
        requires { 1 ≤ length self.now }
        ensures decided { result
            ≡ decided (active table.now (has facts.now)) (keys_of self.now) flush }
        ensures used { UsesSome result (length self.now) }
        ensures sized { AllSized table.now }
    {
        let count = self.len();
        let keys = self.keys();
        let found = find(table, facts, &keys[..count]);
        decide(&found, count, flush)
    }

    /// Takes the keys on which a binding fires.
    fn fire(&mut self, choice: Choice, used: usize) -> Fired
        requires some { 1 ≤ used }
        requires few { used ≤ length self.old }
        requires small { length self.old ≤ 3 }
        ensures answer { (first : KeyPress) (more : List KeyPress) → self.old ≡ first ∷ more
            → result ≡ answer_of first more (Decision.Fire choice used) }
        ensures rest { self.new ≡ drop (taken result) self.old }
    {
        match self.take(used) {
            Some(last) => Fired::Fire {
                command: choice.command,
                save: choice.save,
                last,
                used: used as u32,
            },
            None => Fired::Nothing,
        }
    }

    /// Takes the first key, on which nothing fires.
    fn drop_first(&mut self) -> Fired
        requires { 1 ≤ length self.old }
        ensures answer { (first : KeyPress) (more : List KeyPress) → self.old ≡ first ∷ more
            → result ≡ Fired.Dropped first }
        ensures rest { self.new ≡ drop (taken result) self.old }
    {
        match self.take(1) {
            Some(key) => Fired::Dropped(key),
            None => Fired::Nothing,
        }
    }

    /// Returns the keys in the places of the presses, and `Any` where there is none.
    fn keys(&self) -> [Key; 3]
        ensures { take (length self.now) result ≡ keys_of self.now }
    {
        [
            key_or_any(&self.first),
            key_or_any(&self.second),
            key_or_any(&self.third),
        ]
    }

    /// Takes the first `count` keys, and hands out the last of them.
    fn take(&mut self, count: usize) -> Option<KeyPress>
        requires some { 1 ≤ count }
        requires few { count ≤ length self.old }
        ensures last { result ≡ slice_get self.old (count - 1) }
        ensures rest { self.new ≡ drop count self.old }
    {
        let mut last = self.take_first();
        for _taken in 1..count {
            last = self.take_first();
        }
        last
    }

    /// Takes the first key out, if there is one.
    pub fn take_first(&mut self) -> Option<KeyPress>
        ensures first { result ≡ slice_get self.old 0 }
        ensures rest { self.new ≡ drop 1 self.old }
    {
        let first = self.first.take();
        self.first = self.second.take();
        self.second = self.third.take();
        first
    }
}

/// Returns the key of a press, and `Any` where there is none.
fn key_or_any(press: &Option<KeyPress>) -> Key
    ensures { result ≡ key_or_any press.now }
{
    match press {
        Some(press) => press.key,
        None => Key::Any,
    }
}
