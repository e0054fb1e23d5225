//! `Queue`, items that are taken from the front, by value. A clause sees it as the list of the items that are left.
ghost use Rattle.std.specs.Prelude.{◌≡◌, ◌<◌, ◌↔◌, [], ◌++◌, length, option_to_list, IsSome, IsTrue};

use crate::Sequence;
use std::marker::Model;

/// The items of a `Sequence`, to be taken from the front one after the other. It lies in the memory of the list, so no
/// call of it asks for any.
#[derive(Debug, Drop)]
pub struct Queue<T> {
    reversed: Vec<T>,
}

impl<T> Model for Queue<T> {
    ghost use Rattle.std.specs.Prelude.{List, reverse};

    ghost Value = { List T };

    ghost view = { λ q. reverse q.reversed.items };
}

impl<T: Drop> Queue<T> {
    /// Returns the items of `list`, none of them taken.
    pub fn from_list(list: Sequence<T>) -> Self
        ensures { result ≡ list }
    {
        let mut reversed = list.into_vec();
        reversed.reverse();
        Queue { reversed }
    }

    /// Takes the first of the items that are left.
    pub fn pop_front(&mut self) -> Option<T>
        ensures items { self.old ≡ option_to_list result ++ self.new }
        ensures some { IsSome result ↔ (0 < length self.old) }
    {
        self.reversed.pop()
    }

    /// Returns the number of items that are left.
    pub fn len(&self) -> usize
        ensures { result ≡ length self.now }
    {
        self.reversed.len()
    }

    /// Returns whether no item is left.
    pub fn is_empty(&self) -> bool
        ensures { IsTrue result ↔ (self.now ≡ []) }
    {
        self.reversed.is_empty()
    }

    /// Returns the list of the items that are left.
    pub fn into_list(self) -> Sequence<T>
        ensures { result ≡ self }
    {
        let Queue { mut reversed } = self;
        reversed.reverse();
        Sequence::from_vec(reversed)
    }
}
