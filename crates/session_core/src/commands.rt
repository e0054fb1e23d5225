//! What happens where a binding of held keys fires.
ghost use Rattle.std.specs.Prelude.{◌≡◌, ◌<◌, ◌≤◌, ◌++◌, [], None, length, IfOk, OnOk, OnErr};
ghost use Rattle.edit_cmds.specs.EmacsTable.{emacs_table};
ghost use Rattle.edit_state.specs.Searches.{HasOrigin};
ghost use Rattle.key_proc.specs.Facts.{has};
ghost use Rattle.session_core.specs.Outcomes.{IsShortOutcome};
ghost use Rattle.session_core.specs.Typing.{drained, edited_by, ended_by, ending_of, facts_of, saved_for, saves, is_repeat};
ghost use Rattle.edit_state.specs.CommandNumbers.{command_of};
ghost use Rattle.key_proc.specs.declared.facts.Fact.{Fact};

use crate::Outcome;
use edit_cmds::{EMACS, run};
use edit_state::{Command, Done, EditState};
use key_names::KeyPress;
use key_proc::{Bindings, Fact, Facts, Fired, Held, Save};
use sequences::Queue;
use std::alloc::Global;
use text_doc::NoMemory;
use vt_input::Keys;

/// Does what the held keys are bound to, until they wait for more, none is held, or the prompt has ended. With a flush
/// they wait for no more.
pub fn drain(
    alloc: Global,
    edit: &mut EditState,
    held: &mut Held,
    outcome: &mut Option<Outcome>,
    bindings: &Bindings<EMACS>,
    flush: bool,
) -> Result<(), NoMemory>
    requires table { bindings.now ≡ emacs_table }
    requires few { length held.old ≤ 3 }
    requires goes_on { outcome.old ≡ None }
    requires origin { HasOrigin edit.old }
    ensures drained { OnOk result (record { edit = edit.new; held = held.new; outcome = outcome.new }
        ≡ drained flush (record { edit = edit.old; held = held.old; outcome = outcome.old })) }
    ensures room { length held.new < 3 }
    ensures origin { HasOrigin edit.new }
    ensures short { IsShortOutcome outcome.new }
{
    while outcome.is_none() {
        let facts = facts_of(edit);
        match held.decide(bindings, &facts, flush) {
            Fired::Fire {
                command,
                save,
                last,
                used: _,
            } => *outcome = fire(alloc, edit, command, save, &last)?,
            Fired::Dropped(_) => {}
            Fired::Wait | Fired::Nothing => return Ok(()),
        }
    }
    Ok(())
}

/// Returns the facts that hold of what is edited, where keys are read as Emacs reads them.
fn facts_of(edit: &EditState) -> Facts
    ensures { (fact : Fact) → has result fact ≡ facts_of edit.now fact }
{
    edit.facts().with(Fact::Emacs)
}

#[tactic(auto, using(crate::proofs::CommandLemmas::saved_origin, crate::proofs::CommandLemmas::ending_is))]
/// Runs the command with this number, if there is one, behind what is saved for it. Returns how it ends the prompt, if
/// it does.
fn fire(
    alloc: Global,
    edit: &mut EditState,
    number: u32,
    save: Save,
    key: &KeyPress,
) -> Result<Option<Outcome>, NoMemory>
    requires { HasOrigin edit.old }
    ensures edited { OnOk result (edit.new
        ≡ edited_by (command_of number) save number key.now edit.old) }
    ensures ended { IfOk result (λ outcome. outcome
        ≡ ended_by (command_of number) save number key.now edit.old) }
    ensures origin { HasOrigin edit.new }
    ensures short { IfOk result IsShortOutcome }
{
    let Some(command) = Command::from_number(number) else {
        return Ok(None);
    };
    save_before(edit, save, number)?;
    let done = run(alloc, command, key, edit)?;
    let outcome = ending(edit, done)?;
    Ok(outcome)
}

/// Keeps text and cursor for undo, where they are saved before the command with this number.
fn save_before(edit: &mut EditState, save: Save, number: u32) -> Result<(), NoMemory>
    ensures saved { OnOk result (edit.new ≡ saved_for save number edit.old) }
    ensures err { OnErr result (edit.new ≡ edit.old) }
{
    if saves(save, edit.previous, number) {
        edit.buffer.save()?;
    }
    Ok(())
}

/// Tells whether text and cursor are kept for undo before the command with this number.
fn saves(save: Save, previous: Option<u32>, number: u32) -> bool
    ensures { result ≡ saves save previous number }
{
    match save {
        Save::Always => true,
        Save::Never => false,
        Save::UnlessRepeat => previous != Some(number),
    }
}

/// Returns how the prompt ends where a command answers so.
fn ending(edit: &EditState, done: Done) -> Result<Option<Outcome>, NoMemory>
    ensures outcome { IfOk result (λ outcome. outcome ≡ ending_of done edit.now.buffer.doc.text) }
    ensures short { IfOk result IsShortOutcome }
{
    match done {
        Done::Accept => {
            let text = edit.buffer.doc().text()?;
            Ok(Some(Outcome::Accepted(text)))
        }
        Done::Interrupt => Ok(Some(Outcome::Interrupted)),
        Done::EndOfFile => Ok(Some(Outcome::EndOfFile)),
        Done::Changed | Done::Same | Done::Bell | Done::StartComplete => Ok(None),
    }
}

#[tactic(auto, using(crate::proofs::KeyLemmas::first_taken, crate::proofs::KeyLemmas::none_taken))]
/// Takes the keys that are held, and returns them with these behind them.
pub fn keys_behind(alloc: Global, held: &mut Held, keys: Queue<KeyPress>) -> Result<Keys, NoMemory>
    ensures kept { IfOk result (λ kept. kept ≡ held.old ++ keys) }
    ensures taken { OnOk result (held.new ≡ []) }
    ensures fewer { length held.new ≤ length held.old }
{
    let mut kept = Keys::new(alloc);
    while let Some(key) = held.take_first() {
        kept.push(key)?;
    }
    let mut left = keys;
    while let Some(key) = left.pop_front() {
        kept.push(key)?;
    }
    Ok(kept)
}
