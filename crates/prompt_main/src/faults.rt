//! What is said on standard error where a run failed: one line, and the usage where the words were wrong.

use crate::words::{first_bad_place, first_refused, reason_of, shown_word};
use prompt_run::{NO_MEMORY, SCREEN_FAULT, SINK_FAULT, SOURCE_FAULT, Status};
use real_edge::{FileCall, FileFault, TtyFault};
use std::alloc::Global;
use std::rt::Env;

/// How the command is called.
const USAGE: &str = "usage: prompt [--name value]...";

/// Says which word the command does not take, and what may stand there.
pub fn tell_words<R: Eprint>(rt: &R, alloc: Global, words: &[String]) {
    if let Ok(place) = first_refused(alloc, words) {
        let word = shown_word(words, place);
        let reason = reason_of(words, place);
        let _ = eprintln!(rt; "prompt: {word}: {reason}");
    }
    let _ = eprintln!(rt; "{USAGE}");
}

/// Says which word is not UTF-8.
pub fn tell_bad_word<R: Eprint + Env>(rt: &R) {
    let place = first_bad_place(rt);
    let _ = eprintln!(rt; "prompt: word {place}: not UTF-8");
    let _ = eprintln!(rt; "{USAGE}");
}

/// Says what the terminal refused.
pub fn tell_tty<R: Eprint>(rt: &R, fault: Option<TtyFault>) {
    let _ = match fault {
        Some(fault) => eprintln!(rt; "prompt: cannot use the terminal: {fault}"),
        None => eprintln!(rt; "prompt: cannot use the terminal: the clock cannot be read"),
    };
}

/// Says what the history file refused.
pub fn tell_file<R: Eprint>(rt: &R, path: &str, fault: Option<&FileFault>) {
    let Some(fault) = fault else {
        return;
    };
    let _ = match fault.call() {
        FileCall::Load => eprintln!(rt; "prompt: cannot read {path}: {fault}"),
        FileCall::Append => eprintln!(rt; "prompt: cannot append to {path}: {fault}"),
    };
}

/// Says what a standard stream refused, or that there was no memory. The line that was being edited is left first.
pub fn tell_status<R: Eprint>(rt: &R, status: Status) {
    let sentence = match status {
        SOURCE_FAULT => "\nprompt: cannot read from standard input",
        SCREEN_FAULT => "\nprompt: cannot draw on standard error",
        SINK_FAULT => "prompt: cannot write to standard output",
        NO_MEMORY => "\nprompt: out of memory",
        _ => return,
    };
    let _ = eprintln!(rt; "{sentence}");
}
