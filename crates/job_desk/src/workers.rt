//! A worker: it answers the requests of a post, batch by batch, until the post gives no more.
ghost use Rattle.std.specs.Prelude.{◌≡◌, ◌<◌, [], ◌∷◌, Some, IfOk, OnOk, OnErr, is_err};
ghost use Rattle.causes.specs.Faults.{Rose};
ghost use Rattle.job_desk.specs.Letters.{IsOpen};
ghost use Rattle.requests.specs.Batching.{batch_count, is_last};
ghost use Rattle.requests.specs.Answers.{after_batch};
ghost use Rattle.job_desk.specs.Ends.{sends_more};
ghost use Rattle.job_desk.specs.Posts.{after_live};
ghost use Rattle.job_desk.specs.Gates.{after_passing};
ghost use Rattle.job_desk.specs.Answering.{Answered, Served, answer_letter, at_work, last_letters};

use crate::{Gate, Letter, MailSender, NoMemory, Post};
use requests::{Answer, Request};
use std::alloc::Global;
use std::sync::Wait;

/// Answers the requests of a post until it gives no more. For each batch it asks whether the request is live, passes the
/// gate, makes the batch and sends it. The answer itself is worked out once, behind the gate of its first batch. Gives up a
/// request only where it is not live, and ends where memory fails.
pub fn serve<P: Post, G: Gate, R: Wait>(
    rt: &R,
    alloc: Global,
    post: &mut P,
    gate: &mut G,
    mail: &mut MailSender,
) -> Result<(), NoMemory>
    requires { IsOpen mail.old.sent }
    ensures served { Served (at_work (P.seen post.old) (G.passed gate.old) mail.old)
        (at_work (P.seen post.new) (G.passed gate.new) mail.new) (is_err result) [] }
    ensures shut { OnOk result (Rose (P.seen post.old).shut (P.seen post.new).shut) }
    ensures failed { OnErr result ((P.seen post.new).shut ≡ (P.seen post.old).shut) }
    ensures open { IsOpen mail.new.sent }
{
    for _ in rt.forever() {
        let Some(request) = post.next() else {
            return Ok(());
        };
        match answer(rt, alloc, request, post, gate, mail) {
            Ok(()) => {}
            Err(no_memory) => return Err(no_memory),
        }
    }
    unreachable!()
}

/// Serves a post, and then sends `NoMemory` where memory failed, and `Gone`.
pub fn work<P: Post, G: Gate, R: Wait>(
    rt: &R,
    alloc: Global,
    post: &mut P,
    gate: &mut G,
    mail: &mut MailSender,
) -> Result<(), NoMemory>
    requires { IsOpen mail.old.sent }
    ensures served { Served (at_work (P.seen post.old) (G.passed gate.old) mail.old)
        (at_work (P.seen post.new) (G.passed gate.new) mail.new) (is_err result)
        (last_letters (is_err result)) }
    ensures shut { OnOk result (Rose (P.seen post.old).shut (P.seen post.new).shut) }
    ensures failed { OnErr result ((P.seen post.new).shut ≡ (P.seen post.old).shut) }
{
    match serve(rt, alloc, post, gate, mail) {
        Ok(()) => {
            mail.send(rt, Letter::Gone);
            Ok(())
        }
        Err(error) => {
            mail.send(rt, Letter::NoMemory);
            mail.send(rt, Letter::Gone);
            Err(error)
        }
    }
}

/// Answers the open request of a post, batch by batch, while it is live. The answer is worked out once, behind the gate.
fn answer<P: Post, G: Gate, R: Wait>(
    rt: &R,
    alloc: Global,
    request: Request,
    post: &mut P,
    gate: &mut G,
    mail: &mut MailSender,
) -> Result<(), NoMemory>
    requires open_request { (P.seen post.old).open_id ≡ Some request.id }
    requires open { IsOpen mail.old.sent }
    ensures answered { Answered (at_work (P.seen post.old) (G.passed gate.old) mail.old)
        (at_work (P.seen post.new) (G.passed gate.new) mail.new) request (is_err result) }
    ensures open { IsOpen mail.new.sent }
{
    let id = request.id;
    if !may_make(post, gate, id, 0) {
        return Ok(());
    }
    let mut answer = match Answer::new(alloc, request) {
        Ok(answer) => answer,
        Err(error) => return Err(error),
    };
    for number in 0..u32::MAX {
        let last = match send_next(rt, &mut answer, mail) {
            Ok(last) => last,
            Err(error) => return Err(error),
        };
        if last {
            return Ok(());
        }
        if !may_make(post, gate, id, number + 1) {
            return Ok(());
        }
    }
    unreachable!()
}

/// Asks whether the open request is live, and where it is passes the gate with its batch of this number.
fn may_make<P: Post, G: Gate>(post: &mut P, gate: &mut G, id: u64, number: u32) -> bool
    requires { (P.seen post.old).open_id ≡ Some id }
    ensures post { P.seen post.new ≡ after_live result (P.seen post.old) id }
    ensures gate { G.passed gate.new ≡ after_passing result (G.passed gate.old) id number }
{
    if !post.live(id) {
        return false;
    }
    gate.before(id, number);
    true
}

/// Cuts the next batch from an answer and sends it. Returns whether it is the last one.
fn send_next<R: Wait>(rt: &R, answer: &mut Answer, mail: &mut MailSender) -> Result<bool, NoMemory>
    requires left { answer.old.given < batch_count answer.old.request }
    requires open { IsOpen mail.old.sent }
    ensures last { IfOk result (λ last. last ≡ is_last answer.old.request answer.old.given) }
    ensures sent { OnOk result (mail.new
        ≡ sends_more mail.old (answer_letter answer.old.request answer.old.given ∷ [])) }
    ensures answer { OnOk result (answer.new ≡ after_batch answer.old) }
    ensures unsent { OnErr result (mail.new ≡ mail.old) }
    ensures open { IsOpen mail.new.sent }
{
    let batch = match answer.next_batch() {
        Ok(Some(batch)) => batch,
        Ok(None) => unreachable!(),
        Err(error) => return Err(error),
    };
    let last = batch.last();
    mail.send(rt, Letter::Answer(batch));
    Ok(last)
}
