//! A prompt's session: its state, what an event does to it, and its drawing.
#![tactic(auto)]

mod commands;
mod histories;
pub mod laws;
mod outcomes;
mod scenes;
mod sessions;
#[cfg(test)]
mod tests;

pub use events::Event;
pub use outcomes::{Outcome, StepFault};
pub use prompt_settings::{Config, SetFault};
pub use sessions::Session;
