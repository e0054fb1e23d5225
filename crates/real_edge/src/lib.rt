//! The real outside of a prompt: standard streams, the terminal, its size and the clock, a history file. Here the program
//! trusts the system, whose content is not told.
#![tactic(auto)]

mod clocks;
mod fixed_ttys;
mod guards;
mod inputs;
mod keepers;
mod outputs;
mod polls;
mod screens;
mod shells;
mod stty_ttys;

pub use fixed_ttys::FixedTty;
pub use inputs::InputSource;
pub use keepers::{FileCall, FileFault, FileKeeper};
pub use outputs::OutputSink;
pub use polls::PollInbox;
pub use screens::OutputScreen;
pub use shells::TtyFault;
pub use stty_ttys::SttyTty;

#[cfg(test)]
mod shell_tests;
#[cfg(test)]
mod tests;
