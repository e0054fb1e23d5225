//! A mailbox: its five senders and the end that takes what they send. A clause sees the end as its mailbox and all that was
//! taken.
ghost use Rattle.std.specs.Prelude.{◌≡◌, IfOk};
ghost use Rattle.crossbeam_channel.specs.Claims.{view, IsSeatAt};
ghost use Rattle.crossbeam_channel.specs.Ends.{receives_on};
ghost use Rattle.job_desk.specs.Letters.{letters_of, HasGone, IsStart, HasInputEnd, pieces_before_end};
ghost use Rattle.job_desk.specs.Mailbox.{IsEnd, took_one};
ghost use Rattle.job_desk.specs.Ends.{new_sender, new_end, takes_more};

use crate::NoMemory;
use crate::letters::Mail;
use crate::pauses::pause;
use crate::senders::MailSender;
use crate::views::{Rule, TakeOne, View};
use crossbeam_channel::{Pass, RuledReceiver, bounded_with};
use std::alloc::Global;
use std::marker::Model;
use std::sync::Wait;

/// The most letters that a mailbox holds.
pub const MAILBOX_SIZE: usize = 256;

/// The end of a mailbox, which takes what its senders send.
#[derive(Drop)]
pub struct MailEnd {
    receiver: RuledReceiver<Mail, View, Rule>,
    pass: Pass<Mail, View>,
}

impl Model for MailEnd {
    ghost use Rattle.std.specs.Coded.{codes};
    ghost use Rattle.crossbeam_channel.specs.Claims as claims;
    ghost use Rattle.crossbeam_channel.specs.Ends.{receives_on};
    ghost use Rattle.job_desk.specs.contracts.letters.Mail as mails;
    ghost use Rattle.job_desk.specs.Mailbox.{IsEnd, taken_of};
    ghost use Rattle.job_desk.specs.Ends.{EndFields, room_of};

    ghost Value = { EndFields };

    ghost coded = { Prim.hlevel (codes, mails.the_row.coded) };

    ghost view = { λ e. record { room = room_of e.pass; taken = taken_of (claims.view e.pass) } };

    ghost invariant = { λ e. claims.IsSeatAt (receives_on e.receiver) e.pass × IsEnd (claims.view e.pass) };
}

/// A mailbox: five senders, one for each thread that sends, and its end.
#[derive(Drop)]
pub struct MailEnds {
    /// The sender with the number 0, for the thread that reads.
    pub reader: MailSender,
    /// That with the number 1, for the clock.
    pub ticker: MailSender,
    /// That with the number 2, for the worker that makes completions.
    pub complete: MailSender,
    /// That with the number 3, for the worker that makes suggestions.
    pub suggest: MailSender,
    /// That with the number 4, for the worker that makes verdicts.
    pub check: MailSender,
    pub end: MailEnd,
}

/// Makes a mailbox of `MAILBOX_SIZE` letters, which is empty.
pub fn mailbox(alloc: Global) -> Result<MailEnds, NoMemory>
    ensures reader { IfOk result (λ ends. ends.reader ≡ new_sender ends.end.room 0) }
    ensures ticker { IfOk result (λ ends. ends.ticker ≡ new_sender ends.end.room 1) }
    ensures complete { IfOk result (λ ends. ends.complete ≡ new_sender ends.end.room 2) }
    ensures suggest { IfOk result (λ ends. ends.suggest ≡ new_sender ends.end.room 3) }
    ensures check { IfOk result (λ ends. ends.check ≡ new_sender ends.end.room 4) }
    ensures end { IfOk result (λ ends. ends.end ≡ new_end ends.end.room) }
{
    let (channel, receiver, mut pass) = bounded_with::<Mail, View, Rule, Global>(
        alloc,
        MAILBOX_SIZE,
    )?;
    let reader = MailSender::make(&channel, &mut pass, 0)?;
    let ticker = MailSender::make(&channel, &mut pass, 1)?;
    let complete = MailSender::make(&channel, &mut pass, 2)?;
    let suggest = MailSender::make(&channel, &mut pass, 3)?;
    let check = MailSender::make(&channel, &mut pass, 4)?;
    let end = MailEnd { receiver, pass };
    Ok(MailEnds {
        reader,
        ticker,
        complete,
        suggest,
        check,
        end,
    })
}

impl MailEnd {
    /// Takes the letter that was sent first of those in the mailbox. Waits while there is none.
    pub fn take<R: Wait>(&mut self, rt: &R) -> Mail
        ensures { self.new ≡ takes_more self.old result }
    {
        take_mail(rt, &self.receiver, &mut self.pass)
    }

    /// Takes in a sender of this mailbox, which can send no more. What was taken of it is the beginning of what it sent, in
    /// its order and each letter once. That is all of it where its `Gone` was taken. Where its `InputEnd` was taken, all
    /// pieces that it sent before were taken.
    pub fn meet(&mut self, sender: MailSender)
        requires { sender.room ≡ self.old.room }
        ensures same { self.new ≡ self.old }
        ensures start { IsStart (letters_of sender.number self.old.taken) sender.sent }
        ensures whole { HasGone (letters_of sender.number self.old.taken)
            → letters_of sender.number self.old.taken ≡ sender.sent }
        ensures input { HasInputEnd (letters_of sender.number self.old.taken)
            → pieces_before_end (letters_of sender.number self.old.taken)
            ≡ pieces_before_end sender.sent }
    {
        sender.end_at(&mut self.pass);
    }
}

/// Takes the next mail, by the end's pass. Asks again after a pause where there is none.
fn take_mail<R: Wait>(
    rt: &R,
    receiver: &RuledReceiver<Mail, View, Rule>,
    pass: &mut Pass<Mail, View>,
) -> Mail
    requires seat { IsSeatAt (receives_on receiver.now) pass.old }
    requires end { IsEnd (view pass.old) }
    ensures seat { IsSeatAt (receives_on receiver.now) pass.new }
    ensures taken { view pass.new ≡ took_one (view pass.old) result }
{
    for _ in rt.forever() {
        if let Ok(mail) = receiver.recv_as::<TakeOne, R>(rt, pass) {
            return mail;
        }
        pause(rt);
    }
    unreachable!()
}
