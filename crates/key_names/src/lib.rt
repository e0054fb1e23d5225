//! Keys, the text that was read for each, and their names.
#![tactic(auto)]

mod key;
mod key_text;
pub mod laws;
mod naming;
#[cfg(test)]
mod tests;

pub use key::{Key, KeyPress};
pub use key_text::{KeyText, text_of_codes};
pub use naming::{UnknownKey, read_name, write_name};
pub use sequences::NoMemory;
