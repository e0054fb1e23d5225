//! What the lines of a script say, and how bytes are spelled in them.
#![tactic(auto)]

mod cutting;
pub mod laws;
mod names;
mod readers;
mod script_line;
mod spelling;
#[cfg(test)]
mod tests;

pub use cutting::cut_line;
pub use names::Name;
pub use readers::read_line;
pub use script_line::ScriptLine;
pub use spelling::{read_spelling, write_spelling};
