//! What a thread that sends promises of its sender.
ghost use Rattle.std.specs.Prelude.{◌≡◌};

use crate::MailSender;
use std::snapshot::Snapshot;
use std::thread::Promise;

/// The promise of a thread that it gives back the sender that it was started with, whatever it sent. With it the end of a
/// mailbox meets the sender of a thread that was joined.
///
/// A program starts a thread by `thread::spawn_with`, with this promise and a closure that takes the sender in and ensures of
/// its result that it has the sender's mailbox and number. `work` and `MailSender::send` keep both.
#[derive(Drop)]
pub struct SameSender {
    pub sender: Snapshot<MailSender>,
}

impl SameSender {
    /// Returns the promise to give back this sender.
    pub fn of(sender: &MailSender) -> SameSender
        ensures { result.sender.value ≡ sender.now }
    {
        SameSender {
            sender: Snapshot::of(sender),
        }
    }
}

impl Promise<MailSender> for SameSender {
    ghost use Rattle.std.specs.Prelude.{◌≡◌};

    ghost kept_by = { λ p sender. (sender.room ≡ p.sender.value.room) × (sender.number ≡ p.sender.value.number) };
}
