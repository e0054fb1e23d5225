//! What keys edit: the edit state, the commands by number, and the effects that all ways of reading keys share.
#![tactic(auto)]

mod arguments;
mod auto_moves;
mod char_moves;
mod commands;
mod edits;
mod facts;
mod history_moves;
pub mod laws;
mod menu_moves;
mod row_moves;
mod searches;
mod spots;
mod states;
#[cfg(test)]
mod tests;
mod vi_states;
mod word_moves;

pub use arguments::{Amount, Arg, MAX_DIGITS, amount_in, with_digit};
pub use char_moves::{place_ahead, place_back, place_by_chars};
pub use commands::Command;
pub use searches::go_to_spot;
pub use sequences::NoMemory;
pub use spots::{Spot, match_ahead, match_back};
pub use states::{Done, EditState, Search};
pub use vi_states::{Find, Operator, ViMode, ViState};
pub use word_moves::{word_ends_ahead, word_starts_ahead, words_back};
