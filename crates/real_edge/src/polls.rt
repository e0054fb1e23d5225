//! Events by reading the standard input, without threads.
ghost use Rattle.std.specs.Prelude.{◌≡◌, ◌≤◌};
ghost use Rattle.causes.specs.Faults.{HasFaultCause, Rose};

use crate::clocks::present_moment;
use crate::inputs::read_uninterrupted;
use crate::shells::ask_size;
use cell_grid::Size;
use events::{Event, Inbox, InboxFault};
use std::alloc::Global;
use std::io::{IsTerminal, Read};
use std::process::Processes;
use std::rt::Clock;
use std::thread;
use std::time::{Duration, Instant};
use text_doc::Bytes;

/// The most bytes of one piece: what a terminal hands on at once.
const PIECE: usize = 4096;

/// The size is asked for at each of so many reads that gave nothing.
const READS_PER_SIZE: u8 = 5;

/// A read that gave nothing takes at least so many milliseconds, whatever the terminal's settings are.
const LEAST_WAIT: u64 = 20;

/// What a read of no byte says.
#[derive(Clone, Copy, Debug, PartialEq, Eq)]
enum EmptyRead {
    /// The input has ended.
    Ends,
    /// Nothing was typed yet, where a terminal is still there.
    Waits,
}

/// An inbox over a reader, as the standard input, with its count of faults. A call reads once, and makes a piece of the bytes.
/// Of a terminal that gives none it tells the present moment, and at each fifth such read the size where it changed.
#[derive(Drop)]
pub struct PollInbox<R: Processes + Clock + Drop, I: Read + IsTerminal + Drop> {
    rt: R,
    alloc: Global,
    input: I,
    empty_read: EmptyRead,
    reads: u8,
    size: Option<Size>,
    faults: u64,
}

impl<R: Processes + Clock + Drop, I: Read + IsTerminal + Drop> PollInbox<R, I> {
    /// Returns an inbox over a terminal that gives no byte where nothing was typed for a while. Where the reader is no terminal,
    /// or none any more, a read of no byte is a fault.
    pub fn over_terminal(rt: R, alloc: Global, input: I) -> PollInbox<R, I> {
        PollInbox::new(rt, alloc, input, EmptyRead::Waits)
    }

    /// Returns an inbox over a reader that ends with a read of no byte.
    pub fn over_stream(rt: R, alloc: Global, input: I) -> PollInbox<R, I> {
        PollInbox::new(rt, alloc, input, EmptyRead::Ends)
    }

    fn new(rt: R, alloc: Global, input: I, empty_read: EmptyRead) -> PollInbox<R, I> {
        PollInbox {
            rt,
            alloc,
            input,
            empty_read,
            reads: 0,
            size: None,
            faults: 0,
        }
    }

    /// Counts a fault.
    fn fail(&mut self) -> InboxFault
        ensures reason { result ≡ InboxFault.Failed }
        ensures later { self.old.faults ≤ self.new.faults }
        ensures rose { Rose self.old.faults self.new.faults }
    {
        self.faults = self.faults.saturating_add(1);
        InboxFault::Failed
    }

    /// Returns the size that the terminal has now, where it is another than the one told last.
    fn changed_size(&mut self) -> Option<Size>
        ensures same { self.new.faults ≡ self.old.faults }
    {
        let size = ask_size(&self.rt, self.alloc).ok()?;
        let told = self.size.replace(size);
        match told {
            Some(told) if told.rows() == size.rows() && told.cols() == size.cols() => None,
            _ => Some(size),
        }
    }

    /// Counts a read that gave nothing, and tells whether the size is to be asked for.
    fn counts_to_size(&mut self) -> bool
        ensures same { self.new.faults ≡ self.old.faults }
    {
        if self.reads >= READS_PER_SIZE - 1 {
            self.reads = 0;
            return true;
        }
        self.reads += 1;
        false
    }

    /// Returns what a terminal says that gave nothing.
    fn poll(&mut self) -> Result<Event, InboxFault>
        ensures cause { HasFaultCause InboxFault.Failed self.old.faults self.new.faults result }
    {
        let asks_size = self.counts_to_size();
        if asks_size {
            if let Some(size) = self.changed_size() {
                return Ok(Event::Resize(size));
            }
        }
        match present_moment(&self.rt) {
            Ok(moment) => Ok(Event::Tick(moment)),
            Err(_) => Err(self.fail()),
        }
    }
}

impl<R: Processes + Clock + Drop, I: Read + IsTerminal + Drop> Inbox for PollInbox<R, I> {
    // what the input holds is not told
    ghost heard = { λ _ _ _. Unit {0} };

    ghost faults = { λ i. i.faults };

    fn next(&mut self) -> Result<Event, InboxFault> {
        let began = Instant::now(&self.rt).ok();
        let mut buffer = [0u8; PIECE];
        let Ok(count) = read_uninterrupted(&mut self.input, &mut buffer) else {
            return Err(self.fail());
        };
        if count > 0 {
            let bytes = Bytes::from_slice(self.alloc, &buffer[..count])?;
            return Ok(Event::Piece(bytes));
        }
        if self.empty_read == EmptyRead::Ends {
            return Ok(Event::End);
        }
        if !self.input.is_terminal() {
            return Err(self.fail());
        }
        wait_rest(&self.rt, began);
        self.poll()
    }
}

/// Waits until the least time has passed since the read began, so that a terminal that never waits keeps no processor busy.
fn wait_rest<R: Clock>(rt: &R, began: Option<Instant>) {
    let least = Duration::from_millis(LEAST_WAIT);
    let passed = match began {
        Some(began) => began.elapsed(rt).unwrap_or(Duration::ZERO),
        None => Duration::ZERO,
    };
    thread::sleep(rt, least.saturating_sub(passed));
}
