//! Prompts over an outside in memory, with each of its calls failing in turn.
ghost use Rattle.std.specs.Prelude.{None};

use super::*;
use cell_grid::Size;
use requests::{Kind, Request};
use std::alloc::Global;
use std::process::Abort;
use std::sync::Wait;
use std::test::Fail;
use text_doc::{Bytes, NoMemory};

/// The parts of the outside, each with a plan of the calls that are to fail.
#[derive(Clone, Copy, PartialEq, Eq)]
enum Part {
    Tty,
    Inbox,
    Screen,
    Out,
    Keeper,
    Jobs,
}

/// Calls that are to fail: of a part the one with this number, counted from 0.
type Faults = &'static [(Part, u64)];

/// A run: the calls that fail, and what it leaves.
struct Case {
    faults: Faults,
    status: Status,
    frames: usize,
    cooked: bool,
    events: usize,
    out: &'static str,
    kept: &'static str,
}

/// An outside in memory.
#[derive(Drop)]
struct OutsideInMemory {
    tty: MemoryTty,
    inbox: MemoryInbox,
    screen: MemoryScreen,
    out: MemorySink,
    keeper: MemoryKeeper,
}

/// Returns the plan of a part: of its calls those fail whose numbers are named.
fn plan(alloc: Global, part: Part, faults: Faults) -> Result<FailingCalls, Fail> {
    let mut numbers = Vec::new(alloc);
    for (of, number) in faults {
        if *of == part {
            numbers.push(*number)?;
        }
    }
    Ok(FailingCalls::new(numbers))
}

fn owned_words(alloc: Global, words: &[&str]) -> Result<Vec<String>, Fail> {
    let mut owned = Vec::new(alloc);
    for word in words {
        owned.push(String::from_str(alloc, word)?)?;
    }
    Ok(owned)
}

fn events_of(alloc: Global, pieces: &[&str]) -> Result<Vec<Event>, Fail> {
    let mut events = Vec::new(alloc);
    for piece in pieces {
        events.push(Event::Piece(Bytes::from_slice(alloc, piece.as_bytes())?))?;
    }
    Ok(events)
}

fn inbox_of(alloc: Global, pieces: &[&str], faults: Faults) -> Result<MemoryInbox, Fail> {
    let plan = plan(alloc, Part::Inbox, faults)?;
    Ok(MemoryInbox::new(events_of(alloc, pieces)?, plan))
}

fn keeper_of(alloc: Global, history: &str, faults: Faults) -> Result<MemoryKeeper, Fail> {
    let plan = plan(alloc, Part::Keeper, faults)?;
    Ok(MemoryKeeper::new(Bytes::from_slice(alloc, history.as_bytes())?, plan))
}

fn tty_of(alloc: Global, faults: Faults) -> Result<MemoryTty, Fail> {
    let size = Size::new(24, 80).ok_or("a size")?;
    let plan = plan(alloc, Part::Tty, faults)?;
    Ok(MemoryTty::new(Entered { size, moment: 5 }, plan))
}

/// Returns a terminal of 24 by 80 at moment 5, an inbox of these pieces, and a keeper of this history.
fn memory_outside(
    alloc: Global,
    pieces: &[&str],
    history: &str,
    faults: Faults,
) -> Result<OutsideInMemory, Fail> {
    Ok(OutsideInMemory {
        tty: tty_of(alloc, faults)?,
        inbox: inbox_of(alloc, pieces, faults)?,
        screen: MemoryScreen::new(alloc, plan(alloc, Part::Screen, faults)?),
        out: MemorySink::new(alloc, plan(alloc, Part::Out, faults)?),
        keeper: keeper_of(alloc, history, faults)?,
    })
}

/// Runs the prompts of these words over an outside, and tells jobs what is wanted.
fn run_with<R: Wait + AllocGlobal, J: Jobs>(
    rt: &R,
    words: &[&str],
    outside: &mut OutsideInMemory,
    jobs: &mut J,
) -> Result<Status, Fail> {
    let alloc = rt.alloc();
    let owned = owned_words(alloc, words)?;
    let status = prompt_words(
        rt,
        alloc,
        owned.as_slice(),
        &mut outside.tty,
        &mut outside.inbox,
        &mut outside.screen,
        &mut outside.out,
        &mut outside.keeper,
        jobs,
    );
    Ok(status)
}

/// Runs the prompts of these words over an outside whose jobs fail by the plan.
fn run<R: Wait + AllocGlobal>(
    rt: &R,
    words: &[&str],
    outside: &mut OutsideInMemory,
    faults: Faults,
) -> Result<Status, Fail> {
    let mut jobs = MemoryJobs::new(plan(rt.alloc(), Part::Jobs, faults)?);
    run_with(rt, words, outside, &mut jobs)
}

/// Jobs that count what they are told.
#[derive(Drop)]
struct CountingJobs {
    told: usize,
}

impl Jobs for CountingJobs {
    ghost wanted = { λ _. None };

    ghost faults = { λ _. 0 };

    fn want(&mut self, _kind: Kind, _request: Option<&Request>) -> Result<(), NoMemory> {
        self.told = self.told.saturating_add(1);
        Ok(())
    }
}

/// Compares what a run left with what it is to leave.
fn assert_left(
    rt: &impl Abort,
    status: Status,
    left: &OutsideInMemory,
    case: &Case,
    number: usize,
) {
    assert_eq!(rt; status, case.status, "of case {number}");
    assert_eq!(rt; left.screen.len(), case.frames, "of case {number}");
    assert_eq!(rt; left.inbox.given().len(), case.events, "of case {number}");
    assert!(rt;
        (left.tty.mode() == Mode::Cooked) == case.cooked,
        "of case {number}"
    );
    assert!(rt; left.out.bytes() == case.out.as_bytes(), "of case {number}");
    assert!(rt;
        left.keeper.bytes() == case.kept.as_bytes(),
        "of case {number}"
    );
}

const ENTRY: &str = "\n# 5\n+hello\n";

/// A run with these calls failing, and what it leaves: the status, how many frames were taken, whether the terminal is cooked, how
/// many events the inbox gave, and the bytes on `out` and on the keeper.
macro_rules! case {
    ([$($part:ident $number:tt),*] $status:ident $frames:tt $cooked:tt $events:tt $out:tt $kept:tt) => {
        Case {
            faults: &[$((Part::$part, $number)),*],
            status: $status,
            frames: $frames,
            cooked: $cooked,
            events: $events,
            out: $out,
            kept: $kept,
        }
    };
}

/// Runs of one prompt. `load` is the keeper's first call and `append` its second, `leave` the terminal's second; of two faults the
/// first one tells.
static ONE_PROMPT: [Case; 13] = [
    case!([] ACCEPTED 2 true 1 "hello\n" ENTRY),
    case!([Screen 1] SCREEN_FAULT 1 true 1 "" ""),
    case!([Screen 0] SCREEN_FAULT 0 true 0 "" ""),
    case!([Keeper 1] KEEPER_FAULT 2 true 1 "hello\n" ""),
    case!([Keeper 0] KEEPER_FAULT 0 true 0 "" ""),
    case!([Inbox 0] INBOX_FAULT 1 true 0 "" ""),
    case!([Out 0] SINK_FAULT 2 true 1 "" ENTRY),
    case!([Tty 0] TTY_FAULT 0 true 0 "" ""),
    case!([Tty 1] TTY_FAULT 2 false 1 "hello\n" ENTRY),
    case!([Jobs 0] NO_MEMORY 1 true 0 "" ""),
    case!([Tty 1, Out 0] TTY_FAULT 2 false 1 "" ENTRY),
    case!([Screen 1, Tty 1] SCREEN_FAULT 1 false 1 "" ""),
    case!([Keeper 1, Out 0] KEEPER_FAULT 2 true 1 "" ""),
];

#[test]
fn tells_each_failing_call(rt: HostRuntime) -> Result<(), Fail> {
    for (number, case) in ONE_PROMPT.iter().enumerate() {
        let mut left = memory_outside(rt.alloc(), &["hello\r"], "", case.faults)?;
        let status = run(&rt, &["prompt"], &mut left, case.faults)?;
        assert_left(&rt, status, &left, case, number);
    }
    Ok(())
}

const BOTH: &str = "\n+a\n\n# 5\n+b\n";

/// Runs of two prompts with a history. The newest entry is not added again, and an ended run asks for no event more.
static TWO_PROMPTS: [Case; 6] = [
    case!([] ACCEPTED 3 true 1 "a\nb\n" BOTH),
    case!([Screen 2] SCREEN_FAULT 2 true 1 "a\n" "\n+a\n"),
    case!([Keeper 1] KEEPER_FAULT 3 true 1 "a\nb\n" "\n+a\n"),
    case!([Out 0] SINK_FAULT 3 true 1 "" BOTH),
    case!([Inbox 0] INBOX_FAULT 1 true 0 "" "\n+a\n"),
    case!([Inbox 1] ACCEPTED 3 true 1 "a\nb\n" BOTH),
];

#[test]
fn runs_prompts_with_a_history(rt: HostRuntime) -> Result<(), Fail> {
    for (number, case) in TWO_PROMPTS.iter().enumerate() {
        let mut left = memory_outside(rt.alloc(), &["a\rb\r", "c\r"], "\n+a\n", case.faults)?;
        let status = run(&rt, &["prompt", "--repeat", "2"], &mut left, case.faults)?;
        assert_left(&rt, status, &left, case, number);
    }
    Ok(())
}

#[test]
fn touches_nothing_for_unknown_words(rt: HostRuntime) -> Result<(), Fail> {
    let mut left = memory_outside(rt.alloc(), &["a\r"], "x", &[])?;
    assert_eq!(rt;
        run(&rt, &["prompt", "--size", "0x5"], &mut left, &[])?,
        UNKNOWN_WORDS
    );
    assert_eq!(rt; left.screen.len(), 0);
    Ok(())
}

#[test]
fn an_inbox_that_ends_ends_the_run(rt: HostRuntime) -> Result<(), Fail> {
    let mut left = memory_outside(rt.alloc(), &["a"], "", &[])?;
    assert_eq!(rt; run(&rt, &["prompt"], &mut left, &[])?, END_OF_FILE);
    assert_eq!(rt; left.screen.len(), 3);
    Ok(())
}

/// Jobs are told of each kind behind the first turn, and no more while nothing changes.
#[test]
fn tells_jobs_what_changed(rt: HostRuntime) -> Result<(), Fail> {
    let mut left = memory_outside(rt.alloc(), &["a", "b\rc", "\r"], "", &[])?;
    let mut jobs = CountingJobs { told: 0 };
    let status = run_with(&rt, &["prompt", "--repeat", "2"], &mut left, &mut jobs)?;
    assert_eq!(rt; status, ACCEPTED);
    assert_eq!(rt; jobs.told, 3);
    Ok(())
}
