//! Asks for lines on the terminal, and prints those that were accepted.
#![tactic(auto)]

mod faults;
mod helps;
mod options;
mod runs;
#[cfg(test)]
mod tests;
mod words;

use prompt_run::Status;
use runs::run;
use std::process::ExitCode;

fn main(rt: HostRuntime) -> ExitCode {
    let status: Status = run(&rt, rt);
    ExitCode::from(status)
}
