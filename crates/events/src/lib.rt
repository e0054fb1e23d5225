//! What comes to a session and where it comes from: events, inboxes that give them, and jobs that are told which
//! answers are wanted.
#![tactic(auto)]

mod events;
mod inboxes;
mod jobs;
#[cfg(test)]
mod lent_tests;
mod memory_inboxes;
mod memory_jobs;
#[cfg(test)]
mod tests;

pub use events::Event;
pub use inboxes::{Inbox, InboxFault};
pub use jobs::Jobs;
pub use memory_inboxes::MemoryInbox;
pub use memory_jobs::MemoryJobs;
