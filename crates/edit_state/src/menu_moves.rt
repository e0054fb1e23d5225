//! Choices in the menu of completions.
ghost use Rattle.std.specs.Prelude.{◌≡◌, ◌≤◌, ◌<◌, ◌↔◌, false, true, length, option_and_then, IsTrue, IfOk, OnOk, OnErr};
ghost use Rattle.std.specs.Option.{ForSome};
ghost use Rattle.edit_buffer.specs.BufferState.{IsMenu};
ghost use Rattle.edit_buffer.specs.Menus.{choice, chosen_in};
ghost use Rattle.edit_state.specs.Answers.{Answers};
ghost use Rattle.edit_state.specs.MenuMoves.{choice_before, choice_behind, choice_beside, is_too_long, choice_after, is_stopped, can_step, choices, stops, IsChoice};

use crate::edits::done_of;
use crate::{Done, EditState, NoMemory};
use edit_buffer::{Buffer, Menu};
use std::alloc::AllocError;
use text_doc::{Doc, MAX_LENGTH};

// Where steps from choice to choice lead.
#[derive(Clone, Copy)]
struct Way {
    which: Option<usize>,
    // Whether a step was made.
    stepped: bool,
    // Whether a choice came up whose text would be too long.
    stopped: bool,
}

impl EditState {
    /// Chooses the item behind or before the present choice, so many times. It rings where a text would be too long,
    /// and keeps the choice before that. Without a menu all is as before.
    pub fn choose_beside(&mut self, forward: bool, steps: u32) -> Result<Done, NoMemory>
        ensures state { OnOk result (self.new ≡ choices forward self.old steps) }
        ensures err { OnErr result (self.new ≡ self.old) }
        ensures done { IfOk result (λ done. Answers
            (stops forward steps self.old.buffer.menu ≡ true) done self.old self.new) }
    {
        let way = match self.buffer.menu() {
            None => return Ok(Done::Same),
            Some(menu) => way_from(menu, forward, steps),
        };
        let changed = way.stepped && choose(&mut self.buffer, way.which)?;
        let kept = self.column.is_some();
        self.column = None;
        if way.stopped {
            return Ok(Done::Bell);
        }
        Ok(done_of(changed || kept))
    }
}

// Walks from choice to choice.
#[tactic(auto, using(crate::proofs::Choosing::first_steps))]
fn way_from(menu: &Menu, forward: bool, steps: u32) -> Way
    requires { IsMenu menu.now }
    ensures which { result.which ≡ choice_after forward menu.now steps menu.now.chosen }
    ensures stepped { result.stepped ≡ can_step forward menu.now steps menu.now.chosen }
    ensures stopped { result.stopped ≡ is_stopped forward menu.now steps menu.now.chosen }
    ensures within { ForSome result.which (λ i. i < length menu.now.items) }
    ensures fits { result.stepped ≡ true → is_too_long menu.now result.which ≡ false }
{
    let mut which = menu.chosen;
    let mut left = steps;
    while left > 0 {
        let next = choice_beside(forward, menu.items.len(), which);
        if is_too_long(menu, next) {
            return Way {
                which,
                stepped: left < steps,
                stopped: true,
            };
        }
        which = next;
        left -= 1;
    }
    Way {
        which,
        stepped: steps > 0,
        stopped: false,
    }
}

fn choice_beside(forward: bool, count: usize, which: Option<usize>) -> Option<usize>
    requires { ForSome which (λ i. i < count) }
    ensures choice { result ≡ choice_beside forward count which }
    ensures within { ForSome result (λ i. i < count) }
{
    match which {
        None if count == 0 => None,
        None if forward => Some(0),
        None => Some(count - 1),
        Some(i) if forward => {
            let next = i + 1;
            if next < count { Some(next) } else { None }
        }
        Some(i) => { if i == 0 { None } else { Some(i - 1) } }
    }
}

fn is_too_long(menu: &Menu, which: Option<usize>) -> bool
    requires menu { IsMenu menu.now }
    requires within { ForSome which (λ i. i < length menu.now.items) }
    ensures { result ≡ is_too_long menu.now which }
{
    match which {
        None => false,
        Some(i) => {
            let item = &menu.items.as_slice()[i];
            item.text.len() > MAX_LENGTH - (menu.original.len() - item.back)
        }
    }
}

// Chooses an item whose text is not too long, and tells whether the buffer differs from before.
fn choose(buffer: &mut Buffer, which: Option<usize>) -> Result<bool, NoMemory>
    requires menu { IsChoice buffer.old.menu which }
    ensures buffer { OnOk result (buffer.new ≡ chosen_in buffer.old.menu buffer.old which) }
    ensures err { OnErr result (buffer.new ≡ buffer.old) }
    ensures changed { IfOk result (λ changed. (changed ≡ false) ↔ (buffer.new ≡ buffer.old)) }
{
    if !is_chosen(buffer, which) {
        choose_within(buffer, which)?;
        return Ok(true);
    }
    let before = buffer.doc().copy()?;
    choose_within(buffer, which)?;
    Ok(!is_equal(buffer.doc(), &before))
}

fn is_chosen(buffer: &Buffer, which: Option<usize>) -> bool
    ensures { IsTrue result ↔ (option_and_then (λ menu. menu.chosen) buffer.now.menu ≡ which) }
{
    match buffer.menu() {
        Some(menu) => menu.chosen == which,
        None => which.is_none(),
    }
}

fn choose_within(buffer: &mut Buffer, which: Option<usize>) -> Result<(), NoMemory>
    requires menu { IsChoice buffer.old.menu which }
    ensures buffer { OnOk result (buffer.new ≡ chosen_in buffer.old.menu buffer.old which) }
    ensures err { OnErr result (buffer.new ≡ buffer.old) }
{
    match buffer.choose(which) {
        Ok(()) => Ok(()),
        Err(_) => Err(AllocError),
    }
}

fn is_equal(one: &Doc, other: &Doc) -> bool
    ensures { IsTrue result ↔ (one.now ≡ other.now) }
{
    one.is_same(other) && one.mark() == other.mark()
}
