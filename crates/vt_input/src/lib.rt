//! Keys from the bytes of a terminal, in whatever pieces they come.
#![tactic(auto)]

mod cutter;
mod decide;
mod front;
mod keys;
pub mod laws;
mod near;
mod parser;
mod paste;
mod pasted;
mod row;
mod sequence;
mod table;
#[cfg(test)]
mod tests;

pub use keys::Keys;
pub use parser::Parser;
pub use row::SeqRow;
pub use sequences::NoMemory;
pub use table::{SeqTable, standard_table};

// A contract can name what a parser holds only if the types of its fields are exported.
#[doc(hidden)]
pub use paste::OpenPaste;
#[doc(hidden)]
pub use pasted::PastedText;
#[doc(hidden)]
pub use sequence::ControlSequence;
