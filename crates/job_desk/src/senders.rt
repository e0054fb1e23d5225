//! The sending ends of a mailbox. A clause sees one as its mailbox, its number and all that it sent.
ghost use Rattle.std.specs.Prelude.{◌≡◌, ◌+◌, [], ◌∷◌, None, IfOk, OnOk};
ghost use Rattle.crossbeam_channel.specs.Claims.{view, IsSeatAt};
ghost use Rattle.crossbeam_channel.specs.Ends.{sends_on};
ghost use Rattle.job_desk.specs.declared.views.View.TheVariants.{End, Sender};
ghost use Rattle.job_desk.specs.Letters.{letters_of, HasGone, IsOpen, IsStart, HasInputEnd, pieces_before_end};
ghost use Rattle.job_desk.specs.Mailbox.{IsEnd, sent_of, taken_of, sent_one};
ghost use Rattle.job_desk.specs.Ends.{IsPassIn, room_of, new_sender, sends_more};

use crate::NoMemory;
use crate::letters::{Letter, Mail};
use crate::pauses::pause;
use crate::views::{Compare, Cutting, Meeting, Rule, SendOne, View};
use crossbeam_channel::{Pass, RuledSender};
use std::marker::Model;
use std::sync::Wait;

/// A sending end of a mailbox. No other sender of the mailbox has its number.
#[derive(Drop)]
pub struct MailSender {
    number: u32,
    sender: RuledSender<Mail, View, Rule>,
    pass: Pass<Mail, View>,
}

impl Model for MailSender {
    ghost use Rattle.std.specs.Prelude.{◌≡◌};
    ghost use Rattle.std.specs.Coded.{codes};
    ghost use Rattle.crossbeam_channel.specs.Claims as claims;
    ghost use Rattle.crossbeam_channel.specs.Ends.{sends_on};
    ghost use Rattle.job_desk.specs.contracts.letters.Mail as mails;
    ghost use Rattle.job_desk.specs.contracts.letters.Letter as letters;
    ghost use Rattle.job_desk.specs.declared.views.View.TheVariants.{Sender};
    ghost use Rattle.job_desk.specs.Letters.{EndsAtGone};
    ghost use Rattle.job_desk.specs.Mailbox.{sent_of};
    ghost use Rattle.job_desk.specs.Ends.{SenderFields, room_of};

    ghost Value = { SenderFields };

    ghost coded = { Prim.hlevel (codes, mails.the_row.coded, letters.the_row.coded) };

    ghost view = { λ s. record { room = room_of s.pass; number = s.number; sent = sent_of (claims.view s.pass) } };

    ghost invariant = { λ s. claims.IsSeatAt (sends_on s.sender) s.pass × (claims.view s.pass ≡ Sender s.number (sent_of (claims.view s.pass))) × EndsAtGone (sent_of (claims.view s.pass)) };
}

impl MailSender {
    /// Makes one more sender of a mailbox, with this number, which is that of the senders made before.
    pub(crate) fn make(
        channel: &RuledSender<Mail, View, Rule>,
        end: &mut Pass<Mail, View>,
        number: u32,
    ) -> Result<MailSender, NoMemory>
        requires seat { IsSeatAt (sends_on channel.now) end.old }
        requires known { view end.old ≡ End number [] None }
        ensures seat { IsSeatAt (sends_on channel.now) end.new }
        ensures known { OnOk result (view end.new ≡ End (number + 1) [] None) }
        ensures sender { IfOk result (λ sender. sender ≡ new_sender (room_of end.old) number) }
    {
        let sender = channel.try_clone()?;
        let pass = channel.another::<Cutting>(end);
        Ok(MailSender {
            number,
            sender,
            pass,
        })
    }

    /// Sends a letter. Waits while the mailbox is full, and asks again after a pause where the letter is handed back: it does
    /// not give up, so the end of the mailbox is to be kept until no more is sent.
    pub fn send<R: Wait>(&mut self, rt: &R, letter: Letter)
        requires { IsOpen self.old.sent }
        ensures { self.new ≡ sends_more self.old (letter ∷ []) }
    {
        let mail = Mail {
            sender: self.number,
            letter,
        };
        send_mail(rt, &self.sender, &mut self.pass, mail);
    }

    /// Hands this sender to the end of its mailbox, whose pass this is. What the end took of it is the beginning of what it
    /// sent, and all of that where its `Gone` was taken.
    pub(crate) fn end_at(self, end: &mut Pass<Mail, View>)
        requires seat { IsPassIn self.room end.old }
        requires end { IsEnd (view end.old) }
        ensures seat { IsPassIn self.room end.new }
        ensures end { IsEnd (view end.new) }
        ensures same { taken_of (view end.new) ≡ taken_of (view end.old) }
        ensures start { IsStart (letters_of self.number (taken_of (view end.old))) self.sent }
        ensures whole { HasGone (letters_of self.number (taken_of (view end.old)))
            → letters_of self.number (taken_of (view end.old)) ≡ self.sent }
        ensures input { HasInputEnd (letters_of self.number (taken_of (view end.old)))
            → pieces_before_end (letters_of self.number (taken_of (view end.old)))
            ≡ pieces_before_end self.sent }
    {
        let MailSender {
            number: _,
            sender,
            pass,
        } = self;
        sender.absorb::<Meeting>(end, pass);
        sender.learn_as::<Compare>(end);
    }
}

/// Sends a mail of the sender whose pass this is. Asks again after a pause where it is handed back.
fn send_mail<R: Wait>(
    rt: &R,
    sender: &RuledSender<Mail, View, Rule>,
    pass: &mut Pass<Mail, View>,
    mut mail: Mail,
)
    requires seat { IsSeatAt (sends_on sender.now) pass.old }
    requires known { view pass.old ≡ Sender mail.sender (sent_of (view pass.old)) }
    ensures seat { IsSeatAt (sends_on sender.now) pass.new }
    ensures sent { view pass.new ≡ sent_one (view pass.old) mail.letter }
{
    for _ in rt.forever() {
        match sender.send_as::<SendOne, R>(rt, pass, mail) {
            Ok(()) => return,
            Err(back) => mail = back.into_inner(),
        }
        pause(rt);
    }
    unreachable!()
}
