//! Styles: a sheet of rules that is read from a text, and the attributes of a class in it.
#![tactic(auto)]

mod ascii;
mod changes;
mod classes;
mod colours;
mod cuts;
mod faults;
mod known;
mod patches;
mod rules;
mod sheets;
#[cfg(test)]
mod tests;
mod words;

pub use faults::StyleFault;
pub use sequences::NoMemory;
pub use sheets::Sheet;
