//! A run of the program: the real outside is made as the words say, and the prompts are run over it.

use crate::faults::{tell_bad_word, tell_file, tell_status, tell_tty, tell_words};
use crate::helps::{write_help, write_version};
use crate::words::{WordsFault, all_words};
use command_words::{Outside, outside_of};
use events::{Inbox, MemoryJobs};
use line_history::{Keeper, MemoryKeeper};
use ports::{FailingCalls, Tty};
use prompt_run::{
    ACCEPTED, KEEPER_FAULT, NO_MEMORY, SINK_FAULT, Status, TTY_FAULT, UNKNOWN_WORDS, prompt_words,
};
use real_edge::{FileKeeper, FixedTty, OutputScreen, OutputSink, PollInbox, SttyTty};
use std::io;
use std::sync::Wait;
use text_doc::{Bytes, Text};

/// Runs the command with the words that the system has for it, and returns the status to end with.
pub fn run<W: Wait>(wait: &W, rt: HostRuntime) -> Status {
    let words = match all_words(&rt) {
        Ok(words) => words,
        Err(WordsFault::NotText) => {
            tell_bad_word(&rt);
            return UNKNOWN_WORDS;
        }
        Err(WordsFault::NoMemory) => {
            tell_status(&rt, NO_MEMORY);
            return NO_MEMORY;
        }
    };
    match words.as_slice() {
        [_, word] if word.as_str() == "--help" => printed(&rt, write_help(&mut rt.stdout())),
        [_, word] if word.as_str() == "--version" => printed(&rt, write_version(&mut rt.stdout())),
        words => run_words(wait, rt, words),
    }
}

/// Returns the status of what was only printed.
fn printed<R: Eprint>(rt: &R, written: io::Result<()>) -> Status {
    if written.is_ok() {
        return ACCEPTED;
    }
    tell_status(rt, SINK_FAULT);
    SINK_FAULT
}

/// Runs the command with these words, and says what was wrong.
fn run_words<W: Wait>(wait: &W, rt: HostRuntime, words: &[String]) -> Status {
    let status = match outside_of(rt.alloc(), words) {
        Ok(outside) => run_outside(wait, rt, words, outside),
        Err(_) => NO_MEMORY,
    };
    if status == UNKNOWN_WORDS {
        tell_words(&rt, rt.alloc(), words);
    }
    tell_status(&rt, status);
    status
}

/// Runs the prompts over the terminal that the words ask for.
fn run_outside<W: Wait>(wait: &W, rt: HostRuntime, words: &[String], outside: Outside) -> Status {
    let Outside {
        accepted: _,
        size,
        history,
    } = outside;
    match size {
        Some(size) => {
            let mut tty = FixedTty::new(rt, size);
            let mut inbox = PollInbox::over_stream(rt, rt.alloc(), rt.stdin());
            let status = run_history(wait, rt, words, history, &mut tty, &mut inbox);
            if status == TTY_FAULT {
                tell_tty(&rt, None);
            }
            status
        }
        None => {
            let mut tty = SttyTty::new(rt, rt.alloc(), rt.stderr());
            let mut inbox = PollInbox::over_terminal(rt, rt.alloc(), rt.stdin());
            let status = run_history(wait, rt, words, history, &mut tty, &mut inbox);
            if status == TTY_FAULT {
                tell_tty(&rt, tty.fault());
            }
            status
        }
    }
}

/// Runs the prompts with the history that the words ask for.
fn run_history<W: Wait, T: Tty, I: Inbox>(
    wait: &W,
    rt: HostRuntime,
    words: &[String],
    history: Option<Text>,
    tty: &mut T,
    inbox: &mut I,
) -> Status {
    let Some(history) = history else {
        let mut keeper = MemoryKeeper::new(Bytes::new(rt.alloc()), no_failing(rt));
        return run_prompts(wait, rt, words, tty, inbox, &mut keeper);
    };
    let Ok(path) = history
        .as_slice()
        .iter()
        .copied()
        .collect::<String>(rt.alloc())
    else {
        return NO_MEMORY;
    };
    let mut keeper = FileKeeper::new(rt, path.as_str());
    let status = run_prompts(wait, rt, words, tty, inbox, &mut keeper);
    if status == KEEPER_FAULT {
        tell_file(&rt, path.as_str(), keeper.fault());
    }
    status
}

/// Runs the prompts over the standard streams.
fn run_prompts<W: Wait, T: Tty, I: Inbox, K: Keeper>(
    wait: &W,
    rt: HostRuntime,
    words: &[String],
    tty: &mut T,
    inbox: &mut I,
    keeper: &mut K,
) -> Status {
    let mut screen = OutputScreen::new(rt.stderr());
    let mut out = OutputSink::new(rt.stdout());
    let mut jobs = MemoryJobs::new(no_failing(rt));
    prompt_words(
        wait,
        rt.alloc(),
        words,
        tty,
        inbox,
        &mut screen,
        &mut out,
        keeper,
        &mut jobs,
    )
}

/// Returns a plan by which no call fails.
fn no_failing(rt: HostRuntime) -> FailingCalls {
    FailingCalls::new(Vec::new(rt.alloc()))
}
