//! A list with a gap where it is edited. A clause sees it as a `Gap`.
ghost use Rattle.std.specs.Prelude.{◌≡◌, ◌+◌, ◌-◌, ◌<◌, ◌≤◌, [], ◌∷◌, ◌++◌, length, take, drop, replicate, IfOk, OnOk, OnErr};
ghost use Rattle.text_doc.specs.Gap.{joined};

use crate::documents::MAX_LENGTH;
use crate::{NoMemory, Sequence};
use std::alloc::Global;
use std::marker::Model;

/// Items with a gap among them. To put items before the gap or to take some away behind it moves no other item; to move
/// the gap moves those between its old place and its new one.
#[derive(Debug, Drop)]
pub struct GapBuffer<T> {
    items: Vec<T>,
    start: usize,
    end: usize,
}

impl<T> Model for GapBuffer<T> {
    ghost use Rattle.std.specs.Prelude.{ℕ, ◌-◌, ◌≤◌, length, take, drop};
    ghost use Rattle.text_doc.specs.Gap.{Gap};

    ghost Value = { Gap T };

    ghost view = { λ g. record {
      front = take g.start g.items.items;
      back = drop g.end g.items.items;
      room = g.end - g.start;
    } };

    ghost invariant = { λ g. (g.start ≤ g.end) × (g.end ≤ length g.items.items) × (length g.items.items ≤ 32768) };
}

impl<T: Copy + Drop> GapBuffer<T> {
    /// Returns this list, in its memory, with a gap without room behind it.
    pub fn new(list: Sequence<T>) -> GapBuffer<T>
        requires { length list ≤ 32768 }
        ensures { result ≡ record { front = list; back = []; room = 0 } }
    {
        let items = list.into_vec();
        let end = items.len();
        GapBuffer {
            items,
            start: end,
            end,
        }
    }

    /// Returns an equal list with its gap at the same place.
    pub fn copy(&self) -> Result<GapBuffer<T>, NoMemory>
        ensures { IfOk result (λ copy. copy ≡ self.now) }
    {
        let items = Vec::from_slice(*self.items.allocator(), self.items.as_slice())?;
        Ok(GapBuffer {
            items,
            start: self.start,
            end: self.end,
        })
    }

    /// Takes this list in exchange for its own, which `list` then holds. Both keep their memory.
    pub fn exchange(&mut self, list: &mut Sequence<T>)
        requires { length list.old ≤ 32768 }
        ensures gap { self.new ≡ record { front = list.old; back = []; room = 0 } }
        ensures list { list.new ≡ joined self.old }
    {
        self.move_to(self.len());
        self.items.truncate(self.start);
        list.exchange(&mut self.items);
        self.start = self.items.len();
        self.end = self.start;
    }

    /// Returns the number of items.
    pub fn len(&self) -> usize
        ensures len { result ≡ length (joined self.now) }
        ensures short { length (joined self.now) ≤ 32768 }
    {
        self.start + (self.items.len() - self.end)
    }

    /// Returns the allocator.
    pub fn allocator(&self) -> Global {
        *self.items.allocator()
    }

    /// Returns the place of the gap.
    pub fn gap(&self) -> usize
        ensures { result ≡ length self.now.front }
    {
        self.start
    }

    /// Returns the items before the gap and those behind it.
    pub fn parts(&self) -> (&[T], &[T])
        ensures front { result.0.now ≡ self.now.front }
        ensures back { result.1.now ≡ self.now.back }
    {
        let items = self.items.as_slice();
        (&items[..self.start], &items[self.end..])
    }

    /// Moves the gap to the place `at`.
    pub fn move_to(&mut self, at: usize)
        requires { at ≤ length (joined self.old) }
        ensures front { self.new.front ≡ take at (joined self.old) }
        ensures back { self.new.back ≡ drop at (joined self.old) }
        ensures room { self.new.room ≡ self.old.room }
    {
        if at <= self.start {
            let count = self.start - at;
            shift_up(&mut self.items, at, self.start, self.end);
            self.start = at;
            self.end -= count;
        } else {
            let count = at - self.start;
            shift_down(&mut self.items, self.end, self.end + count, self.start);
            self.start = at;
            self.end += count;
        }
    }

    /// Moves the gap back over one item, and puts `item` in its place.
    pub fn pass_back(&mut self, item: T)
        requires { 0 < length self.old.front }
        ensures { self.new
            ≡ record {
              front = take (length self.old.front - 1) self.old.front;
              back = item ∷ self.old.back;
              room = self.old.room;
            } }
    {
        self.start -= 1;
        self.end -= 1;
        self.items[self.end] = item;
    }

    /// Moves the gap ahead over one item, and puts `item` in its place.
    pub fn pass_ahead(&mut self, item: T)
        requires { 0 < length self.old.back }
        ensures { self.new
            ≡ record {
              front = self.old.front ++ item ∷ [];
              back = drop 1 self.old.back;
              room = self.old.room;
            } }
    {
        self.items[self.start] = item;
        self.start += 1;
        self.end += 1;
    }

    /// Widens the gap until it has room for so many items. Where it has to grow it grows for more, so that items that
    /// come one by one are moved but a few times each. The new room holds `blank`.
    pub fn make_room(&mut self, count: usize, blank: T) -> Result<(), NoMemory>
        requires { length (joined self.old) + count ≤ 32768 }
        ensures ok { OnOk result (count ≤ self.new.room) }
        ensures front { self.new.front ≡ self.old.front }
        ensures back { self.new.back ≡ self.old.back }
    {
        if self.end - self.start >= count {
            return Ok(());
        }
        let wanted = MAX_LENGTH.min(2 * (self.len() + count));
        let more = wanted - self.items.len();
        widen(&mut self.items, self.end, more, blank)?;
        self.end += more;
        Ok(())
    }

    /// Puts items before the gap, which has room for them.
    pub fn push(&mut self, items: &[T])
        requires { length items.now ≤ self.old.room }
        ensures { self.new
            ≡ record {
              front = self.old.front ++ items.now;
              back = self.old.back;
              room = self.old.room - length items.now;
            } }
    {
        overwrite(&mut self.items, self.start, items);
        self.start += items.len();
    }

    /// Takes away so many items behind the gap.
    pub fn remove(&mut self, count: usize)
        requires { count ≤ length self.old.back }
        ensures { self.new
            ≡ record {
              front = self.old.front;
              back = drop count self.old.back;
              room = self.old.room + count;
            } }
    {
        self.end += count;
    }
}

/// Moves the items from `from` up to and without `to` up, so that they end at `end`.
fn shift_up<T: Copy>(all: &mut Vec<T>, from: usize, to: usize, end: usize)
    requires ordered { from ≤ to }
    requires above { to ≤ end }
    requires range { end ≤ length all.old.items }
    ensures front { take from all.new.items ≡ take from all.old.items }
    ensures back { drop (end - (to - from)) all.new.items
        ≡ drop from (take to all.old.items) ++ drop end all.old.items }
    ensures len { length all.new.items ≡ length all.old.items }
{
    let items = all.as_mut_slice();
    items.copy_within(from..to, end - (to - from));
}

/// Moves the items from `from` up to and without `to` down, so that they begin at `start`.
fn shift_down<T: Copy>(all: &mut Vec<T>, from: usize, to: usize, start: usize)
    requires below { start ≤ from }
    requires ordered { from ≤ to }
    requires range { to ≤ length all.old.items }
    ensures front { take (start + (to - from)) all.new.items
        ≡ take start all.old.items ++ take (to - from) (drop from all.old.items) }
    ensures back { drop to all.new.items ≡ drop to all.old.items }
    ensures len { length all.new.items ≡ length all.old.items }
{
    let items = all.as_mut_slice();
    items.copy_within(from..to, start);
}

/// Puts so many blanks at the place `at`.
fn widen<T: Copy + Drop>(
    all: &mut Vec<T>,
    at: usize,
    count: usize,
    blank: T,
) -> Result<(), NoMemory>
    requires range { at ≤ length all.old.items }
    requires short { length all.old.items + count ≤ 32768 }
    ensures ok { OnOk result (all.new.items
        ≡ take at all.old.items ++ replicate count blank ++ drop at all.old.items) }
    ensures err { OnErr result (all.new.items ≡ all.old.items) }
{
    all.resize(all.len() + count, blank)?;
    let items = all.as_mut_slice();
    let behind = &mut items[at..];
    behind.rotate_right(count);
    Ok(())
}

/// Writes items over those from the place `at` on.
fn overwrite<T: Copy>(all: &mut Vec<T>, at: usize, items: &[T])
    requires { at + length items.now ≤ length all.old.items }
    ensures { all.new.items
        ≡ take at all.old.items ++ items.now ++ drop (at + length items.now) all.old.items }
{
    let all = all.as_mut_slice();
    let here = &mut all[at..at + items.len()];
    here.copy_from_slice(items);
}
