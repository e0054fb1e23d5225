//! Runs of prompts: from events to frames on a screen and accepted lines.
#![tactic(auto)]

mod openings;
mod players;
mod prompts;
mod readers;
mod replays;
mod reports;
mod runners;
mod scripts;
mod statuses;
mod terminals;
mod turns;
mod unheard;
mod wishes;

pub use command_words::{Outside, outside_of};
pub use events::{Event, Inbox, InboxFault, Jobs, MemoryInbox, MemoryJobs};
pub use line_history::{Keeper, KeeperFault, MemoryKeeper};
pub use ports::{
    Entered, Failed, FailingCalls, MemoryScreen, MemorySink, MemorySource, MemoryTty, Mode, Screen,
    Sink, Source, Tty,
};
pub use prompts::prompt_words;
pub use replays::replay_words;
pub use reports::write_screen;
pub use statuses::{
    ACCEPTED, END_OF_FILE, INBOX_FAULT, INTERRUPTED, KEEPER_FAULT, NO_MEMORY, REFUSED_LINE,
    SCREEN_FAULT, SINK_FAULT, SOURCE_FAULT, Status, TTY_FAULT, UNKNOWN_WORDS,
};
pub use turns::{TurnFault, Turned, turn};

#[cfg(test)]
mod outside_tests;
#[cfg(test)]
mod tests;
