//! What the mailbox's passes know, the rule over it, and what each step tells of it. These types are for proofs alone.
ghost use Rattle.std.specs.Prelude.{◌≡◌, [], None};
ghost use Rattle.job_desk.specs.declared.views.View.TheVariants.{End, Spent};
ghost use Rattle.job_desk.specs.Mailbox.{Delivers, cut, new_view, met, sent_one, took_one, Compares};

use crate::letters::{Letter, Mail};
use crossbeam_channel::protocol::{Join, Lesson, Outcome, Protocol, Split};
use std::collections::LinkedList;

/// What a pass knows. No value of it is made.
pub enum View {
    /// The end: how many senders were made, what was taken, and the sender met last, by its number and what it sent.
    End(u32, LinkedList<Mail>, Option<(u32, LinkedList<Letter>)>),
    /// A sender: its number and what it sent.
    Sender(u32, LinkedList<Letter>),
    /// A sender that was met.
    Spent,
}

/// The rule of the mailbox.
pub struct Rule;

impl Protocol<Mail, View> for Rule {
    ghost holds = { Delivers };

    ghost first = { End 0 [] None };
}

/// The end's pass is cut in two, for the end and for one more sender.
pub struct Cutting;

impl Split<View> for Cutting {
    ghost left = { cut };

    ghost right = { new_view };
}

/// The end takes in the pass of a sender.
pub struct Meeting;

impl Join<View> for Meeting {
    ghost both = { met };

    ghost spent = { Spent };
}

/// A sender sends one letter. It learns nothing of what the mailbox holds.
pub struct SendOne;

impl Outcome<Mail, View> for SendOne {
    ghost then = { λ before mail after. after ≡ sent_one before mail.letter };
}

impl Lesson<Mail, View> for SendOne {
    ghost fact = { λ view items. Unit {0} };
}

/// The end takes one mail. It learns nothing of what the mailbox holds.
pub struct TakeOne;

impl Outcome<Mail, View> for TakeOne {
    ghost then = { λ before mail after. after ≡ took_one before mail };
}

impl Lesson<Mail, View> for TakeOne {
    ghost fact = { λ view items. Unit {0} };
}

/// The end compares what it took with what the sender that it met last sent.
pub struct Compare;

impl Lesson<Mail, View> for Compare {
    ghost fact = { Compares };
}
