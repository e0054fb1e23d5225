//! Prompts over an outside: from the words of the command to the accepted lines.
ghost use Rattle.std.specs.Prelude.{◌≡◌, ◌⊎◌, IfOk, None, Some, IfErr, List, ℕ, map, string_bytes, flat_map};
ghost use Rattle.std.specs.Option.{ForSome};
ghost use Rattle.causes.specs.Faults.{HasFaultCause, Rose};
ghost use Rattle.command_words.specs.Asked.{asked_of};
ghost use Rattle.line_history.specs.History.{entries_of};
ghost use Rattle.ports.specs.declared.ttys.Mode.TheVariants.{Cooked};
ghost use Rattle.session_core.specs.State.{opened};
ghost use Rattle.prompt_run.specs.Course.{around};
ghost use Rattle.prompt_run.specs.Prompts.{IsBegun, Prompts, PutsLines, RanOver};
ghost use Rattle.prompt_run.specs.Runs.{MayGoOn, IsRunStatus, first_status, line_row};
ghost use Rattle.prompt_run.specs.Wishes.{Stands};

use crate::openings::Opening;
use crate::runners::{RunFault, Runner};
use crate::statuses::{
    INBOX_FAULT, KEEPER_FAULT, NO_MEMORY, SCREEN_FAULT, SINK_FAULT, Status, TTY_FAULT,
    UNKNOWN_WORDS,
};
use command_words::read_words;
use events::{Inbox, Jobs};
use line_history::{Keeper, KeeperFault, read_entries};
use ports::{Entered, Screen, Sink, Tty};
use session_core::{Config, Event};
use std::alloc::Global;
use std::sync::Wait;
use text_doc::{Bytes, Lines, NoMemory};

/// Runs prompts: reads the words of the command, of which the first is the program's name; loads the history; enters the terminal;
/// runs as many prompts as the words ask for; leaves the terminal; and puts the accepted lines on `out`, each followed by a line
/// feed, in one call where there is one at least.
///
/// A prompt takes events from the inbox until it ends. Behind each of them the screen takes one frame, and jobs are told which
/// requests are wanted. Behind an accepted line the entry that it adds to the history is appended to the keeper, and the next prompt
/// begins at once. Where a call of the outside fails no further prompt runs, but the terminal that was entered is left, and the
/// lines are put. The status is that of the first fault, else that of the last prompt.
pub fn prompt_words<R: Wait, T: Tty, I: Inbox, S: Screen, O: Sink, K: Keeper, J: Jobs>(
    rt: &R,
    alloc: Global,
    words: &[String],
    tty: &mut T,
    inbox: &mut I,
    screen: &mut S,
    out: &mut O,
    keeper: &mut K,
    jobs: &mut J,
) -> Status
    // The words alone tell whether they are those of the command, but for want of memory; where they are not, nothing is touched.
    ensures unknown { result ≡ UNKNOWN_WORDS → asked_of (map string_bytes words.now) ≡ None }
    ensures refused { asked_of (map string_bytes words.now) ≡ None
        → (result ≡ UNKNOWN_WORDS) ⊎ (result ≡ NO_MEMORY) }
    ensures untouched { asked_of (map string_bytes words.now) ≡ None
        → (tty.new ≡ tty.old) × (inbox.new ≡ inbox.old) × (screen.new ≡ screen.old)
        × (out.new ≡ out.old) × (keeper.new ≡ keeper.old) × (jobs.new ≡ jobs.old) }

    // What was done is the run over the events that the inbox gave, to its end or to the first fault in time. After each of its
    // events, every terminal of the size at its beginning which obeyed the frames that the screen took, and took each resize with
    // the run, shows the drawing of the run's state. The lines on `out` and the entries on the keeper are those of the run. Where a
    // turn was made, jobs were told last what is wanted behind the last one, where their own count of faults stands.
    ensures prompts { Prompts I.heard S.took S.missed (Stands (J.faults jobs.old) (J.faults jobs.new))
        (asked_of (map string_bytes words.now))
        (T.entries tty.old) (T.entries tty.new) inbox.old inbox.new
        (around screen.old (K.kept keeper.old) (J.wanted jobs.old))
        (around screen.new (K.kept keeper.new) (J.wanted jobs.new))
        (O.taken out.old) (O.taken out.new) result }

    // A fault comes only where the object that had it counted it.
    ensures inbox_fault { result ≡ INBOX_FAULT → Rose (I.faults inbox.old) (I.faults inbox.new) }
    ensures screen_fault { result ≡ SCREEN_FAULT
        → Rose (S.faults screen.old) (S.faults screen.new) }
    ensures sink_fault { result ≡ SINK_FAULT → Rose (O.faults out.old) (O.faults out.new) }
    ensures keeper_fault { result ≡ KEEPER_FAULT
        → Rose (K.faults keeper.old) (K.faults keeper.new) }
    ensures tty_fault { result ≡ TTY_FAULT → Rose (T.faults tty.old) (T.faults tty.new) }

    // A terminal that tells its mode and was cooked is cooked again, unless it could not be left.
    ensures cooked { T.mode tty.old ≡ Some Cooked
        → (T.mode tty.new ≡ Some Cooked) ⊎ Rose (T.faults tty.old) (T.faults tty.new) }
{
    let config = match read_words(alloc, words) {
        Ok(Some(asked)) => asked.config,
        Ok(None) => return UNKNOWN_WORDS,
        Err(_) => return NO_MEMORY,
    };
    let opening = match load(alloc, config, keeper) {
        Ok(opening) => opening,
        Err(KeeperFault::Failed) => return KEEPER_FAULT,
        Err(KeeperFault::NoMemory) => return NO_MEMORY,
    };
    let Ok(entered) = tty.enter() else {
        return TTY_FAULT;
    };
    let ran = run(rt, alloc, opening, entered, inbox, screen, keeper, jobs);
    let left = tty.leave();
    let put = put_lines(alloc, &ran.lines, out);
    first_fault(ran.end, left.is_err(), put)
}

/// What a run left: its accepted lines, and how it ended.
#[derive(Drop)]
struct Ran {
    lines: Lines,
    end: Result<Status, RunFault>,
}

/// Returns what a run begins with: its settings, and the history that the keeper has.
fn load<K: Keeper>(alloc: Global, config: Config, keeper: &mut K) -> Result<Opening, KeeperFault>
    ensures keeper { HasFaultCause KeeperFault.Failed (K.faults keeper.old) (K.faults keeper.new)
        result }
    ensures settings { IfOk result (λ opening. opening.settings ≡ config) }
    ensures history { IfOk result (λ opening. (bytes : List ℕ)
        × ForSome (K.kept keeper.old) (λ told. bytes ≡ told) × (opening.entries ≡ entries_of bytes)) }
    ensures same { K.kept keeper.new ≡ K.kept keeper.old }
{
    let bytes = keeper.load(alloc)?;
    let entries = read_entries(alloc, bytes.as_slice())?;
    Ok(Opening { config, entries })
}

/// Runs the prompts from the first to the last, or to the first fault.
fn run<R: Wait, I: Inbox, S: Screen, K: Keeper, J: Jobs>(
    rt: &R,
    alloc: Global,
    opening: Opening,
    entered: Entered,
    inbox: &mut I,
    screen: &mut S,
    keeper: &mut K,
    jobs: &mut J,
) -> Ran
    ensures inbox { HasFaultCause RunFault.Inbox (I.faults inbox.old) (I.faults inbox.new) result.end }
    ensures screen { HasFaultCause RunFault.Screen (S.faults screen.old) (S.faults screen.new) result.end }
    ensures keeper { HasFaultCause RunFault.Keeper (K.faults keeper.old) (K.faults keeper.new) result.end }
    ensures status { IfOk result.end IsRunStatus }
    ensures ran { RanOver I.heard S.took S.missed (Stands (J.faults jobs.old) (J.faults jobs.new))
        (opened opening.settings opening.entries entered.size entered.moment)
        inbox.old inbox.new
        (around screen.old (K.kept keeper.old) (J.wanted jobs.old))
        (around screen.new (K.kept keeper.new) (J.wanted jobs.new))
        result.lines result.end }
{
    match Runner::new(alloc, opening, entered.size, entered.moment) {
        Ok(mut runner) => {
            let end = run_to_end(rt, &mut runner, inbox, screen, keeper, jobs);
            Ran {
                lines: runner.answers,
                end,
            }
        }
        Err(_) => Ran {
            lines: Lines::new(alloc),
            end: Err(RunFault::NoMemory),
        },
    }
}

/// Begins the first prompt, and takes events of the inbox until no prompt goes on.
fn run_to_end<R: Wait, I: Inbox, S: Screen, K: Keeper, J: Jobs>(
    rt: &R,
    runner: &mut Runner,
    inbox: &mut I,
    screen: &mut S,
    keeper: &mut K,
    jobs: &mut J,
) -> Result<Status, RunFault>
    requires at { MayGoOn runner.old }
    requires begun { IsBegun runner.old }
    ensures inbox { HasFaultCause RunFault.Inbox (I.faults inbox.old) (I.faults inbox.new) result }
    ensures screen { HasFaultCause RunFault.Screen (S.faults screen.old) (S.faults screen.new) result }
    ensures keeper { HasFaultCause RunFault.Keeper (K.faults keeper.old) (K.faults keeper.new) result }
    ensures status { IfOk result IsRunStatus }
    ensures ran { RanOver I.heard S.took S.missed (Stands (J.faults jobs.old) (J.faults jobs.new))
        runner.old.session inbox.old inbox.new
        (around screen.old (K.kept keeper.old) (J.wanted jobs.old))
        (around screen.new (K.kept keeper.new) (J.wanted jobs.new))
        runner.new.answers result }
{
    runner.take(Event::Start, screen, keeper, jobs)?;
    for _ in rt.forever() {
        if runner.session.ended() {
            return Ok(runner.status());
        }
        let event = inbox.next()?;
        runner.take(event, screen, keeper, jobs)?;
    }
    Ok(runner.status())
}

/// Puts the lines, each followed by a line feed, in one call where there is one at least.
fn put_lines<O: Sink>(alloc: Global, lines: &Lines, out: &mut O) -> Result<(), Status>
    ensures put { HasFaultCause SINK_FAULT (O.faults out.old) (O.faults out.new) result }
    ensures only { IfErr result (λ status. (status ≡ SINK_FAULT) ⊎ (status ≡ NO_MEMORY)) }
    ensures puts { PutsLines (O.taken out.old) (O.taken out.new) lines.now result }
{
    if lines.is_empty() {
        return Ok(());
    }
    let Ok(bytes) = lines_bytes(alloc, lines) else {
        return Err(NO_MEMORY);
    };
    match out.put(bytes.as_slice()) {
        Ok(()) => Ok(()),
        Err(_) => Err(SINK_FAULT),
    }
}

/// Returns the lines in UTF-8, each followed by a line feed.
fn lines_bytes(alloc: Global, lines: &Lines) -> Result<Bytes, NoMemory>
    ensures { IfOk result (λ bytes. bytes ≡ flat_map line_row lines.now) }
{
    let mut bytes = Bytes::new(alloc);
    for line in lines.as_slice() {
        let line = line.to_utf8()?;
        bytes.extend_from_slice(line.as_slice())?;
        bytes.push(b'\n')?;
    }
    Ok(bytes)
}

/// Returns the status of the first fault, else that of the run.
fn first_fault(end: Result<Status, RunFault>, raw: bool, put: Result<(), Status>) -> Status
    ensures { result ≡ first_status end raw put }
{
    match end {
        Err(RunFault::Inbox) => INBOX_FAULT,
        Err(RunFault::Screen) => SCREEN_FAULT,
        Err(RunFault::Keeper) => KEEPER_FAULT,
        Err(RunFault::NoMemory) => NO_MEMORY,
        Ok(status) => {
            if raw {
                return TTY_FAULT;
            }
            match put {
                Ok(()) => status,
                Err(fault) => fault,
            }
        }
    }
}
