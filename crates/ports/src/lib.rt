//! What a prompt needs of the outside: bytes in and out, a terminal to enter, a screen; and all of it in memory.
#![tactic(auto)]

mod faults;
mod screens;
mod sinks;
mod sources;
#[cfg(test)]
mod tests;
mod ttys;

pub use faults::{Failed, FailingCalls};
pub use screens::{MemoryScreen, Screen};
pub use sinks::{MemorySink, Sink};
pub use sources::{MemorySource, Source};
pub use ttys::{Entered, MemoryTty, Mode, Tty};
