//! Answers that are made apart from the typing: desks where one thread puts a request and another takes it, workers that
//! answer what they take, and the mailbox by which threads send letters to the loop of a prompt.
#![tactic(auto)]

mod desk_locks;
mod desk_posts;
mod desks;
mod ends;
mod gates;
pub mod laws;
mod letters;
#[cfg(test)]
mod mail_tests;
mod memory_posts;
mod pauses;
mod posts;
mod promises;
mod senders;
#[cfg(test)]
mod tests;
mod views;
pub mod worker_laws;
#[cfg(test)]
mod worker_tests;
mod workers;

pub use desk_locks::Desk;
pub use desk_posts::DeskPost;
pub use desks::{DeskState, Posted};
pub use ends::{MAILBOX_SIZE, MailEnd, MailEnds, mailbox};
pub use gates::Gate;
pub use letters::{Letter, Mail};
pub use memory_posts::MemoryPost;
pub use posts::Post;
pub use promises::SameSender;
pub use senders::MailSender;
pub use std::alloc::AllocError as NoMemory;
pub use workers::{serve, work};
