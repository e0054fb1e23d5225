//! Key bindings: the facts under which each is active, the keys that are held, and which binding fires.
#![tactic(auto)]

mod bindings;
mod bound_keys;
mod choices;
mod decisions;
mod facts;
mod filters;
mod held;
pub mod laws;
mod matching;
mod rows;
#[cfg(test)]
mod tests;

pub use bindings::{Binding, Bindings, Save};
pub use bound_keys::BoundKeys;
pub use facts::{Fact, Facts};
pub use filters::Filter;
pub use held::{Fired, Held};
pub use rows::{BindingRow, FactFilter, FactTest, RowKeys, bindings_of};
pub use sequences::NoMemory;
pub use sqlite_items::Boxed;
