//! Characters from bytes, and the classes of characters of which control sequences are built.
#![tactic(auto)]

mod control;
mod decode;
pub mod laws;
#[cfg(test)]
mod tests;

pub use control::{is_final, is_intermediate, is_parameter};
pub use decode::{decode_into, first_char};
pub use std::alloc::AllocError as NoMemory;
