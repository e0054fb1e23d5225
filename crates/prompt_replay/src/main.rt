//! Replays a script over a model of a terminal, and prints what the terminal shows and what was accepted.
#![tactic(auto)]

use prompt_run::{NO_MEMORY, Status, UNKNOWN_WORDS, replay_words};
use real_edge::{InputSource, OutputSink};
use std::env;
use std::io::ErrorKind;
use std::process::ExitCode;
use std::rt::Env;

fn main(rt: HostRuntime) -> ExitCode {
    let status = match command_words(&rt) {
        Ok(words) => {
            let mut source = InputSource::new(rt.stdin());
            let mut out = OutputSink::new(rt.stdout());
            replay_words(rt.alloc(), words.as_slice(), &mut source, &mut out)
        }
        Err(status) => status,
    };
    ExitCode::from(status)
}

/// Returns the words behind the program's name. One that is not UTF-8 is unknown to the command.
fn command_words<R: Env + AllocGlobal>(rt: &R) -> Result<Vec<String>, Status> {
    let args = match env::args(rt) {
        Ok(args) => args,
        Err(fault) if fault.kind() == ErrorKind::InvalidData => return Err(UNKNOWN_WORDS),
        Err(_) => return Err(NO_MEMORY),
    };
    let mut words = Vec::new(rt.alloc());
    for word in args.skip(1) {
        if words.push(word).is_err() {
            return Err(NO_MEMORY);
        }
    }
    Ok(words)
}
