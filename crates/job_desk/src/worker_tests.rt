//! Workers over a post in memory, and over a desk at which a request is cancelled while they work.
ghost use Rattle.std.specs.Prelude.{IfOk, None};
ghost use Rattle.job_desk.specs.Letters.{IsOpen};

use crate::tests::request;
use crate::{
    Desk, DeskPost, Gate, Letter, MailEnd, MailEnds, MailSender, MemoryPost, NoMemory, Post,
    mailbox, serve, work,
};
use requests::{Batch, Items, Kind, Request};
use std::alloc::Global;
use std::process::Abort;
use std::sync::{Arc, Condvar, Mutex, Wait};
use std::test::Fail;
use std::thread;
use std::thread::{JoinHandle, Threads};

/// A batch as the number of its request, its own, how many completions it has, and whether it is the last one.
type Shown = (u64, u32, usize, bool);

fn shown(batch: &Batch) -> Shown {
    let count = match batch.items() {
        Items::Completions(items) => items.len(),
        _ => 1,
    };
    (batch.request().id, batch.number(), count, batch.last())
}

/// Makes the sender of the worker that makes completions, and the end of its mailbox.
fn sender_and_end(alloc: Global) -> Result<(MailSender, MailEnd), NoMemory>
    ensures { IfOk result (λ ends. IsOpen ends.0.sent) }
{
    let MailEnds {
        reader: _reader,
        ticker: _ticker,
        complete,
        suggest: _suggest,
        check: _check,
        end,
    } = mailbox(alloc)?;
    Ok((complete, end))
}

/// Takes letters, each of which is to be the next of these batches.
fn compare_batches(rt: &(impl Wait + Abort), end: &mut MailEnd, sender: u32, expected: &[Shown]) {
    for wanted in expected {
        let mail = end.take(rt);
        assert_eq!(rt; mail.sender, sender);
        match &mail.letter {
            Letter::Answer(batch) => assert_eq!(rt; shown(batch), *wanted),
            _ => panic!(rt; "another letter than a batch"),
        }
    }
}

/// Takes a letter, which is to be `Gone`.
fn compare_last(rt: &(impl Wait + Abort), end: &mut MailEnd) {
    let mail = end.take(rt);
    assert!(rt;
        matches!(mail.letter, Letter::Gone),
        "a letter behind the expected ones"
    );
}

/// A gate that counts how often it was passed, and tells no batch that did.
#[derive(Drop)]
pub(crate) struct CountingGate {
    pub(crate) passed: u32,
}

impl Gate for CountingGate {
    ghost passed = { λ _. None };

    fn before(&mut self, _id: u64, _number: u32) {
        self.passed = self.passed.saturating_add(1);
    }
}

/// Makes a post that gives requests for 70 words, for a verdict and for 70 words, and says of the last one that it is dead
/// once its first batch was sent.
fn planned(rt: &impl Abort, alloc: Global) -> Result<MemoryPost, Fail> {
    let mut requests = Vec::new(alloc);
    requests.push(request(rt, alloc, 4, Kind::Complete, 70)?)?;
    requests.push(request(rt, alloc, 6, Kind::Complete, 70)?)?;
    requests.push(request(rt, alloc, 9, Kind::Check, 0)?)?;
    let answers = vec![in alloc; true, true, true, false]?;
    Ok(MemoryPost::new(alloc, requests, answers)?)
}

#[test]
fn serves_a_post(rt: HostRuntime) -> Result<(), Fail> {
    let alloc = rt.alloc();
    let (mut mail, mut end) = sender_and_end(alloc)?;
    let mut post = planned(&rt, alloc)?;
    let mut gate = CountingGate { passed: 0 };
    serve(&rt, alloc, &mut post, &mut gate, &mut mail)?;
    mail.send(&rt, Letter::Gone);
    // 70 words are batches of 64 and of 6, and no third one; the second request is dead behind its first batch
    let expected = [
        (4, 0, 64, false),
        (4, 1, 6, true),
        (6, 0, 64, false),
        (9, 0, 1, true),
    ];
    compare_batches(&rt, &mut end, 2, expected.as_slice());
    compare_last(&rt, &mut end);
    assert_eq!(rt; gate.passed, 4);
    assert_eq!(rt; (post.given().len(), post.shut()), (3, 1));
    // once for each batch that was sent, and once for the dead request
    assert_eq!(rt; post.asked(), 5);
    assert_eq!(rt; post.refused(), [6].as_slice());
    // behind its plan a post gives no request, and says that the open one is live
    assert!(rt; post.next().is_none());
    assert_eq!(rt; post.shut(), 2);
    Ok(())
}

/// What a gate and a test tell each other.
#[derive(Drop)]
struct Hold {
    reached: bool,
    released: bool,
}

#[derive(Drop)]
struct Barrier {
    state: Mutex<Hold>,
    changed: Condvar,
}

/// A gate that holds a worker before the second batch of each request until it is released.
#[derive(Drop)]
struct HoldingGate<R: Wait + Drop> {
    rt: R,
    barrier: Arc<Barrier>,
}

impl<R: Wait + Drop> Gate for HoldingGate<R> {
    ghost passed = { λ _. None };

    fn before(&mut self, _id: u64, number: u32) {
        if number == 1 {
            wait_at(&self.rt, &self.barrier);
        }
    }
}

/// Tells that the gate was reached, and waits until it is released.
fn wait_at<R: Wait>(rt: &R, barrier: &Barrier) {
    let mut state = barrier.state.lock(rt);
    state.reached = true;
    barrier.changed.notify_all();
    let _state = barrier
        .changed
        .wait_while(rt, state, |state| !state.released);
}

fn wait_until_reached<R: Wait>(rt: &R, barrier: &Barrier) {
    let _state = barrier
        .changed
        .wait_while(rt, barrier.state.lock(rt), |state| !state.reached);
}

fn release<R: Wait>(rt: &R, barrier: &Barrier) {
    barrier.state.lock(rt).released = true;
    barrier.changed.notify_all();
}

/// Works at a desk until it is closed, and returns whether memory was found for all.
fn work_at<R: Wait + Copy + Drop>(
    rt: R,
    alloc: Global,
    desk: &Desk,
    barrier: Arc<Barrier>,
    mut mail: MailSender,
) -> bool
    requires { IsOpen mail.sent }
{
    let mut post = DeskPost::new(&rt, desk);
    let mut gate = HoldingGate { rt, barrier };
    work(&rt, alloc, &mut post, &mut gate, &mut mail).is_ok()
}

fn start_worker<R: Threads + Wait + Copy + Drop + Send + Sync + 'static>(
    rt: R,
    alloc: Global,
    desk: &Arc<Desk>,
    barrier: &Arc<Barrier>,
    mail: MailSender,
) -> Result<JoinHandle<bool>, Fail>
    requires { IsOpen mail.sent }
{
    let desk = Arc::try_clone(desk)?;
    let barrier = Arc::try_clone(barrier)?;
    match thread::spawn(
        &rt,
        move || -> bool
            requires { IsOpen mail.sent }
        { work_at(rt, alloc, &*desk, barrier, mail) },
    ) {
        Ok(handle) => Ok(handle),
        Err(_) => Err("no thread for the worker".into()),
    }
}

/// Makes a barrier that was neither reached nor released.
fn closed_barrier(alloc: Global) -> Result<Arc<Barrier>, NoMemory> {
    let state = Hold {
        reached: false,
        released: false,
    };
    let barrier = Barrier {
        state: Mutex::new(state),
        changed: Condvar::new(),
    };
    Ok(Arc::new(alloc, barrier)?)
}

/// Uses a desk at which a worker works, and compares what it sends. A first request is cancelled once it was found live for
/// its second batch, and before it is asked for the third; a second one is answered.
fn use_desk<R: Wait + Abort>(
    rt: &R,
    desk: &Desk,
    barrier: &Barrier,
    end: &mut MailEnd,
    first: Request,
    second: Request,
) {
    let _ = desk.post(rt, first);
    wait_until_reached(rt, barrier);
    assert!(rt; desk.cancel(rt).is_none());
    let _ = desk.post(rt, second);
    release(rt, barrier);
    let expected = [(1, 0, 64, false), (1, 1, 64, false), (2, 0, 1, true)];
    compare_batches(rt, end, 2, expected.as_slice());
    desk.close(rt);
    compare_last(rt, end);
}

#[test]
fn works_at_a_desk(rt: HostRuntime) -> Result<(), Fail> {
    let alloc = rt.alloc();
    let first = request(&rt, alloc, 1, Kind::Complete, 140)?;
    let second = request(&rt, alloc, 2, Kind::Check, 0)?;
    let (mail, mut end) = sender_and_end(alloc)?;
    let desk = Arc::new(alloc, Desk::new())?;
    let barrier = closed_barrier(alloc)?;
    let worker = start_worker(rt, alloc, &desk, &barrier, mail)?;
    use_desk(&rt, &desk, &barrier, &mut end, first, second);
    assert!(rt; worker.join(&rt));
    assert_eq!(rt; desk.totals(&rt), (2, 2, 0));
    Ok(())
}
