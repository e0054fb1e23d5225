//! Five threads that send through one mailbox: what is taken of each is what it sent, in whatever order the threads run.
ghost use Rattle.std.specs.Prelude.{◌≡◌, [], IfOk};

use crate::tests::request;
use crate::worker_tests::CountingGate;
use crate::{
    Desk, DeskPost, Letter, MAILBOX_SIZE, Mail, MailEnd, MailEnds, MailSender, NoMemory,
    SameSender, mailbox, work,
};
use requests::Kind;
use std::alloc::Global;
use std::sync::{Arc, Wait};
use std::test::Fail;
use std::thread;
use std::thread::{PromisedHandle, Threads};
use text_doc::Bytes;

/// More ticks than a mailbox holds letters.
const TICKS: u64 = 300;

/// Sends so many ticks, 0, 1, 2 and so on, and `Gone`.
fn send_ticks<R: Wait>(rt: &R, mut sender: MailSender, count: u64) -> MailSender
    requires { sender.sent ≡ [] }
    ensures { (result.room ≡ sender.room) × (result.number ≡ sender.number) }
{
    for moment in 0..count {
        sender.send(rt, Letter::Tick(moment));
    }
    sender.send(rt, Letter::Gone);
    sender
}

/// Sends these pieces, `InputEnd` and `Gone`.
fn send_input<R: Wait>(rt: &R, mut sender: MailSender, pieces: [Bytes; 3]) -> MailSender
    requires { sender.sent ≡ [] }
    ensures { (result.room ≡ sender.room) × (result.number ≡ sender.number) }
{
    let [first, second, third] = pieces;
    sender.send(rt, Letter::Piece(first));
    sender.send(rt, Letter::Piece(second));
    sender.send(rt, Letter::Piece(third));
    sender.send(rt, Letter::InputEnd);
    sender.send(rt, Letter::Gone);
    sender
}

fn start_ticks<R: Threads + Wait + Copy + Send + Sync + 'static>(
    rt: R,
    sender: MailSender,
) -> Result<PromisedHandle<MailSender, SameSender>, Fail>
    requires { sender.sent ≡ [] }
    ensures { IfOk result (λ handle. (handle.promise.sender.value.room ≡ sender.room)
        × (handle.promise.sender.value.number ≡ sender.number)) }
{
    let promise = SameSender::of(&sender);
    match thread::spawn_with(
        &rt,
        promise,
        move || -> MailSender
            requires { sender.sent ≡ [] }
            ensures { (result.room ≡ sender.room) × (result.number ≡ sender.number) }
        { send_ticks(&rt, sender, TICKS) },
    ) {
        Ok(handle) => Ok(handle),
        Err(_) => Err("no thread for the ticks".into()),
    }
}

fn start_input<R: Threads + Wait + Copy + Send + Sync + 'static>(
    rt: R,
    alloc: Global,
    sender: MailSender,
) -> Result<PromisedHandle<MailSender, SameSender>, Fail>
    requires { sender.sent ≡ [] }
    ensures { IfOk result (λ handle. (handle.promise.sender.value.room ≡ sender.room)
        × (handle.promise.sender.value.number ≡ sender.number)) }
{
    let first = Bytes::from_slice(alloc, b"a")?;
    let second = Bytes::from_slice(alloc, b"bc")?;
    let third = Bytes::from_slice(alloc, b"d")?;
    let pieces = [first, second, third];
    let promise = SameSender::of(&sender);
    match thread::spawn_with(
        &rt,
        promise,
        move || -> MailSender
            requires { sender.sent ≡ [] }
            ensures { (result.room ≡ sender.room) × (result.number ≡ sender.number) }
        { send_input(&rt, sender, pieces) },
    ) {
        Ok(handle) => Ok(handle),
        Err(_) => Err("no thread for the input".into()),
    }
}

/// Works at a desk until it is closed, and gives the sender back.
fn work_at<R: Wait>(rt: &R, alloc: Global, desk: &Desk, mut sender: MailSender) -> MailSender
    requires { sender.sent ≡ [] }
    ensures { (result.room ≡ sender.room) × (result.number ≡ sender.number) }
{
    let mut post = DeskPost::new(rt, desk);
    let mut gate = CountingGate { passed: 0 };
    let _ = work(rt, alloc, &mut post, &mut gate, &mut sender);
    sender
}

/// Starts a worker at this desk.
fn start_worker<R: Threads + Wait + Copy + Send + Sync + 'static>(
    rt: R,
    alloc: Global,
    desk: &Arc<Desk>,
    sender: MailSender,
) -> Result<PromisedHandle<MailSender, SameSender>, Fail>
    requires { sender.sent ≡ [] }
    ensures { IfOk result (λ handle. (handle.promise.sender.value.room ≡ sender.room)
        × (handle.promise.sender.value.number ≡ sender.number)) }
{
    let desk = Arc::try_clone(desk)?;
    let promise = SameSender::of(&sender);
    match thread::spawn_with(
        &rt,
        promise,
        move || -> MailSender
            requires { sender.sent ≡ [] }
            ensures { (result.room ≡ sender.room) × (result.number ≡ sender.number) }
        { work_at(&rt, alloc, &*desk, sender) },
    ) {
        Ok(handle) => Ok(handle),
        Err(_) => Err("no thread for a worker".into()),
    }
}

/// Takes mails until as many senders are gone. Closes the desk at an answer.
fn take_all<R: Wait>(
    rt: &R,
    alloc: Global,
    end: &mut MailEnd,
    desk: &Desk,
    senders: usize,
) -> Result<Vec<Mail>, NoMemory>
    ensures { end.new.room ≡ end.old.room }
{
    let mut mails = Vec::new(alloc);
    let mut gone = 0;
    for _ in rt.forever() {
        if gone >= senders {
            break;
        }
        let mail = end.take(rt);
        match &mail.letter {
            Letter::Gone => gone += 1,
            Letter::Answer(_) => desk.close(rt),
            _ => {}
        }
        mails.push(mail)?;
    }
    Ok(mails)
}

/// Returns a number for each letter that these threads send.
fn code(letter: &Letter) -> u64 {
    match letter {
        Letter::Tick(moment) => *moment,
        Letter::Piece(bytes) => match bytes.as_slice().first() {
            Some(byte) => 1000 + u64::from(*byte),
            None => 1000,
        },
        Letter::InputEnd => 2000,
        Letter::Gone => 3000,
        Letter::Answer(_) => 4000,
        _ => 5000,
    }
}

/// Returns the numbers of the letters of one sender, in the order in which they were taken.
fn codes(alloc: Global, mails: &[Mail], sender: u32) -> Result<Vec<u64>, NoMemory> {
    let mut codes = Vec::new(alloc);
    for mail in mails {
        if mail.sender == sender {
            codes.push(code(&mail.letter))?;
        }
    }
    Ok(codes)
}

#[test]
fn letters_of_five_threads_come_in_order(rt: HostRuntime) -> Result<(), Fail> {
    let alloc = rt.alloc();
    let MailEnds {
        reader,
        ticker,
        complete,
        suggest,
        check,
        mut end,
    } = mailbox(alloc)?;
    let desk = Arc::new(alloc, Desk::new())?;
    let first = start_worker(rt, alloc, &desk, complete)?;
    let second = start_worker(rt, alloc, &desk, suggest)?;
    let third = start_worker(rt, alloc, &desk, check)?;
    let ticks = start_ticks(rt, ticker)?;
    let input = start_input(rt, alloc, reader)?;
    let _ = desk.post(&rt, request(&rt, alloc, 1, Kind::Check, 0)?);
    let mails = take_all(&rt, alloc, &mut end, &*desk, 5)?;
    end.meet(input.join(&rt));
    end.meet(ticks.join(&rt));
    end.meet(first.join(&rt));
    end.meet(second.join(&rt));
    end.meet(third.join(&rt));
    let mut expected = Vec::new(alloc);
    for moment in 0..TICKS {
        expected.push(moment)?;
    }
    expected.push(3000)?;
    let input = codes(alloc, mails.as_slice(), 0)?;
    let pieces = [1097, 1098, 1100, 2000, 3000];
    assert_eq!(rt; input.as_slice(), pieces.as_slice());
    let ticks = codes(alloc, mails.as_slice(), 1)?;
    assert_eq!(rt; ticks.as_slice(), expected.as_slice());
    // one of the three workers answered the request, and each is gone
    assert_eq!(rt; mails.len(), input.len() + ticks.len() + 4);
    Ok(())
}

#[test]
fn a_mailbox_holds_256_letters(rt: HostRuntime) -> Result<(), Fail> {
    let alloc = rt.alloc();
    assert_eq!(rt; MAILBOX_SIZE, 256);
    let MailEnds {
        reader: _reader,
        ticker,
        complete: _complete,
        suggest: _suggest,
        check: _check,
        mut end,
    } = mailbox(alloc)?;
    let sender = send_ticks(&rt, ticker, 255);
    let mails = take_all(&rt, alloc, &mut end, &Desk::new(), 1)?;
    end.meet(sender);
    assert_eq!(rt; mails.len(), 256);
    Ok(())
}
