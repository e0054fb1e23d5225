//! What a command does with the edit state.
ghost use Rattle.std.specs.Prelude.{◌≡◌, ◌+◌, ◌-◌, ◌≤◌, [], true, length, IfOk, OnOk, OnErr};
ghost use Rattle.edit_state.specs.StateEdits.{gone_to};
ghost use Rattle.edit_state.specs.RowMoves.{rows_down, rows_up};
ghost use Rattle.edit_state.specs.AutoMoves.{auto_down, auto_up};
ghost use Rattle.edit_buffer.specs.Undo.{differing, undone, redone};
ghost use Rattle.vi_keys.specs.Acts.{acted, removed, exchanged, put_at, marked, FitsAct};
ghost use Rattle.edit_state.specs.MenuMoves.{stops};
ghost use Rattle.edit_state.specs.Answers.{Answers};
ghost use Rattle.vi_keys.specs.Answering.{bones, Rings, Reported, Reports, ReportedUnless, auto_on, told_of, told_by, digits_of};

use edit_buffer::{Clip, Edit};
use edit_state::{Done, EditState, NoMemory, with_digit};
use std::alloc::{AllocError, Global};
use text_doc::Text;

/// An effect on the edit state.
#[derive(Debug, Drop)]
pub enum Act {
    /// Nothing.
    Stay,
    /// The cursor goes to a place.
    Go(usize),
    /// So many rows down, at the kept column.
    RowsDown(u32),
    RowsUp(u32),
    /// So many choices in the menu, rows or lines of the history on.
    AutoDown(u32),
    AutoUp(u32),
    /// A text takes the place of a range.
    Exchange {
        from: usize,
        to: usize,
        text: Text,
        at: usize,
    },
    /// A range goes, and a clip is put on the ring. An empty range changes nothing.
    Remove {
        from: usize,
        to: usize,
        at: usize,
        clip: Clip,
    },
    /// A clip is put on the ring.
    Put {
        at: usize,
        clip: Clip,
    },
    Undo,
    Redo,
    /// The argument has one more digit.
    Digit(char),
}

/// What is told of an effect.
#[derive(Clone, Copy, Debug, PartialEq, Eq)]
pub enum Told {
    /// It had nothing to do.
    Rang,
    /// More than the cursor and the mark differ.
    Edited,
    /// At most they do.
    Kept,
}

/// What becomes of the mark.
#[derive(Clone, Copy, Debug, PartialEq, Eq)]
pub enum Marks {
    Keep,
    /// It goes.
    Clear,
    /// It is set at the cursor.
    Set,
}

/// Does what a command is to do, and tells what differs. At want of memory the state is as before.
#[tactic(auto, using(crate::proofs::Digits::digit_kept))]
pub fn carry_out(state: &mut EditState, alloc: Global, effect: Act) -> Result<Told, NoMemory>
    requires { FitsAct effect state.old.buffer.doc }
    ensures state { OnOk result (state.new ≡ acted effect state.old) }
    ensures err { OnErr result (state.new ≡ state.old) }
    ensures told { IfOk result (λ told. Reports told effect state.old state.new) }
    ensures search { state.new.search ≡ state.old.search }
    ensures digits { digits_of state.new.arg ≡ digits_of state.old.arg → state.new.arg ≡ state.old.arg }
{
    match effect {
        Act::Stay => Ok(Told::Kept),
        Act::Go(at) => Ok(go(state, at)),
        Act::RowsDown(count) => Ok(go_rows_down(state, count)),
        Act::RowsUp(count) => Ok(go_rows_up(state, count)),
        Act::AutoDown(count) => go_on(state, true, count),
        Act::AutoUp(count) => go_on(state, false, count),
        Act::Exchange { from, to, text, at } => exchange(state, from, to, text, at),
        Act::Remove { from, to, at, clip } => Ok(remove(state, from, to, at, clip)),
        Act::Put { at, clip } => {
            state.ring.put(clip);
            go(state, at);
            Ok(Told::Edited)
        },
        Act::Undo => undo(state),
        Act::Redo => redo(state),
        Act::Digit(digit) => {
            state.arg = Some(with_digit(alloc, &state.arg, digit)?);
            Ok(Told::Kept)
        },
    }
}

/// Moves the cursor to a place.
#[tactic(auto, using(crate::proofs::Bones::moves))]
fn go(state: &mut EditState, at: usize) -> Told
    requires { at ≤ length state.old.buffer.doc.text }
    ensures state { state.new ≡ gone_to state.old at }
    ensures told { Reported result ⊥ state.old state.new }
    ensures search { state.new.search ≡ state.old.search }
    ensures arg { state.new.arg ≡ state.old.arg }
{
    let _doc = state.buffer.doc();
    state.go_to(at);
    Told::Kept
}

#[tactic(auto, using(crate::proofs::Autos::rows))]
fn go_rows_down(state: &mut EditState, count: u32) -> Told
    ensures state { state.new ≡ rows_down state.old count }
    ensures told { Reported result ⊥ state.old state.new }
    ensures search { state.new.search ≡ state.old.search }
    ensures arg { state.new.arg ≡ state.old.arg }
{
    let _doc = state.buffer.doc();
    state.rows_down(count);
    Told::Kept
}

#[tactic(auto, using(crate::proofs::Autos::rows))]
fn go_rows_up(state: &mut EditState, count: u32) -> Told
    ensures state { state.new ≡ rows_up state.old count }
    ensures told { Reported result ⊥ state.old state.new }
    ensures search { state.new.search ≡ state.old.search }
    ensures arg { state.new.arg ≡ state.old.arg }
{
    let _doc = state.buffer.doc();
    state.rows_up(count);
    Told::Kept
}

/// Chooses in the menu; without one goes by rows, or by lines of the history.
#[tactic(auto, using(crate::proofs::Autos::autos))]
fn go_on(state: &mut EditState, forward: bool, count: u32) -> Result<Told, NoMemory>
    ensures state { OnOk result (state.new ≡ auto_on forward state.old count) }
    ensures err { OnErr result (state.new ≡ state.old) }
    ensures told { IfOk result (λ told. ReportedUnless state.old.buffer.menu (stops forward count state.old.buffer.menu) told state.old state.new) }
    ensures search { state.new.search ≡ state.old.search }
    ensures arg { state.new.arg ≡ state.old.arg }
{
    if state.buffer.menu().is_some() {
        let done = auto_on(state, forward, count)?;
        return Ok(told_by(done != Done::Bell));
    }
    let index = state.buffer.index();
    auto_on(state, forward, count)?;
    Ok(told_of(state.buffer.index() != index))
}

fn auto_on(state: &mut EditState, forward: bool, count: u32) -> Result<Done, NoMemory>
    ensures state { OnOk result (state.new ≡ auto_on forward state.old count) }
    ensures err { OnErr result (state.new ≡ state.old) }
    ensures done { IfOk result (λ done. Answers (stops forward count state.old.buffer.menu ≡ true) done state.old state.new) }
{
    if forward {
        state.auto_down(count)
    } else {
        state.auto_up(count)
    }
}

/// Puts a text in place of a range, and goes to a place.
fn exchange(
    state: &mut EditState,
    from: usize,
    to: usize,
    text: Text,
    at: usize,
) -> Result<Told, NoMemory>
    requires ordered { from ≤ to }
    requires range { to ≤ length state.old.buffer.doc.text }
    requires fits { length state.old.buffer.doc.text - (to - from) + length text ≤ 32768 }
    requires place { at ≤ from + length text }
    ensures state { OnOk result (state.new ≡ exchanged state.old from to text at) }
    ensures err { OnErr result (state.new ≡ state.old) }
    ensures told { IfOk result (λ told. Reported told ⊥ state.old state.new) }
    ensures search { state.new.search ≡ state.old.search }
    ensures arg { state.new.arg ≡ state.old.arg }
{
    let _doc = state.buffer.doc();
    match state.buffer.apply(Edit::Replace { from, to, text }) {
        Ok(answer) => {
            state.go_to(at);
            Ok(told_of(answer.text))
        },
        Err(_) => Err(AllocError),
    }
}

fn told_of(edited: bool) -> Told
    ensures { result ≡ told_of edited }
{
    if edited { Told::Edited } else { Told::Kept }
}

/// Deletes a range, goes to a place before it, and puts a clip on the ring. An empty range changes nothing.
fn remove(state: &mut EditState, from: usize, to: usize, at: usize, clip: Clip) -> Told
    requires ordered { from ≤ to }
    requires range { to ≤ length state.old.buffer.doc.text }
    requires place { at ≤ from }
    ensures state { state.new ≡ removed state.old from to at clip }
    ensures told { Reported result ⊥ state.old state.new }
    ensures search { state.new.search ≡ state.old.search }
    ensures arg { state.new.arg ≡ state.old.arg }
{
    if from == to {
        return Told::Kept;
    }
    state.kill(from, to, clip);
    state.go_to(at);
    Told::Edited
}

/// Restores the text that was saved last and differs. It rings where there is none.
fn undo(state: &mut EditState) -> Result<Told, NoMemory>
    ensures state { OnOk result (state.new ≡ record state.old { buffer = undone state.old.buffer }) }
    ensures err { OnErr result (state.new ≡ state.old) }
    ensures told { IfOk result (λ told. Reported told (differing state.old.buffer.doc.text state.old.buffer.undo ≡ []) state.old state.new) }
    ensures search { state.new.search ≡ state.old.search }
    ensures arg { state.new.arg ≡ state.old.arg }
{
    let done = state.buffer.undo()?;
    Ok(told_by(done))
}

/// Restores the text that was undone last. It rings where there is none.
fn redo(state: &mut EditState) -> Result<Told, NoMemory>
    ensures state { OnOk result (state.new ≡ record state.old { buffer = redone state.old.buffer }) }
    ensures err { OnErr result (state.new ≡ state.old) }
    ensures told { IfOk result (λ told. Reported told (state.old.buffer.redo ≡ []) state.old state.new) }
    ensures search { state.new.search ≡ state.old.search }
    ensures arg { state.new.arg ≡ state.old.arg }
{
    let done = state.buffer.redo()?;
    Ok(told_by(done))
}

fn told_by(done: bool) -> Told
    ensures { result ≡ told_by done }
{
    if done { Told::Edited } else { Told::Rang }
}

/// Sets the mark or takes it away.
#[tactic(auto, using(crate::proofs::Bones::moves))]
pub fn mark(state: &mut EditState, marks: Marks)
    ensures state { state.new ≡ marked marks state.old }
    ensures bones { bones state.new ≡ bones state.old }
{
    let at = state.buffer.doc().cursor();
    match marks {
        Marks::Keep => {},
        Marks::Clear => {
            state.edit(Edit::Mark(None));
        },
        Marks::Set => {
            state.edit(Edit::Mark(Some(at)));
        },
    }
}
