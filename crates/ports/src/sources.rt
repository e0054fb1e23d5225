//! Where bytes come from.
ghost use Rattle.std.specs.Prelude.{◌≡◌, ◌+◌, ◌-◌, ◌≤◌, length, drop, take, min, Some};
ghost use Rattle.std.specs.Io.{ReadsAtMost};
ghost use Rattle.std.specs.Io.KnownBytes.{ReadConsumes};
ghost use Rattle.causes.specs.Faults.{HasCause};
ghost use Rattle.ports.specs.Supply.{Supply, CountsEmptyRead};

use crate::faults::{Failed, FailingCalls};
use std::marker::Model;

/// A source of bytes, as a file or the standard input.
pub trait Source {
    ghost supply: { Self → Supply };

    /// Reads some bytes to the front of the buffer, and answers how many. Into a buffer with room it gives 0 bytes only
    /// at the end of the source; a terminal that gives nothing yet is the one exception, and no end is claimed there.
    fn read(&mut self, into: &mut [u8]) -> Result<usize, Failed>
        ensures fits { ReadsAtMost result into.new }
        ensures bytes { ReadConsumes (supply self.old).left (supply self.new).left result into.new }
        ensures cause { HasCause (supply self.old).faults (supply self.new).faults result }
        ensures empty { CountsEmptyRead (supply self.old).empty_reads (supply self.new).empty_reads
            (length into.old) result };
}

/// A source that gives the bytes that it was made with, as many in one read as there is room for.
#[derive(Debug, Drop)]
pub struct MemorySource {
    bytes: Vec<u8>,
    at: usize,
    failing: FailingCalls,
    empty_reads: u64,
}

impl Model for MemorySource {
    ghost use Rattle.std.specs.Prelude.{◌≤◌, length, drop, Some};
    ghost use Rattle.ports.specs.Supply.{Supply};

    ghost Value = { Supply };

    ghost view = { λ s.
        record {
          left = Some (drop s.at s.bytes.items);
          faults = s.failing;
          empty_reads = s.empty_reads;
        } };

    ghost invariant = { λ s. s.at ≤ length s.bytes.items };
}

impl MemorySource {
    /// Returns a source of these bytes, of which the reads with these numbers fail. A read that fails takes no byte.
    pub fn new(bytes: Vec<u8>, failing: FailingCalls) -> MemorySource
        ensures all_left { result.left ≡ Some bytes.items }
        ensures faults { result.faults ≡ failing }
        ensures empty_reads { result.empty_reads ≡ 0 }
    {
        MemorySource {
            bytes,
            at: 0,
            failing,
            empty_reads: 0,
        }
    }

    /// Returns the number of reads that failed so far.
    pub fn faults(&self) -> u64
        ensures { result ≡ self.now.faults }
    {
        self.failing.faults()
    }
}

impl Source for MemorySource {
    ghost supply = { λ s. s };

    fn read(&mut self, into: &mut [u8]) -> Result<usize, Failed> {
        self.failing.admit()?;
        let given = copy_front(&self.bytes.as_slice()[self.at..], into);
        if given == 0 && !into.is_empty() {
            self.empty_reads = self.empty_reads.saturating_add(1);
        }
        self.at += given;
        Ok(given)
    }
}

/// Copies as many bytes from the front as there is room for, and answers how many.
fn copy_front(from: &[u8], into: &mut [u8]) -> usize
    ensures count { result ≡ min (length from.now) (length into.old) }
    ensures copied { take result into.new ≡ take result from.now }
{
    let count = from.len().min(into.len());
    let (front, _) = into.split_at_mut(count);
    let (copied, _) = from.split_at(count);
    front.copy_from_slice(copied);
    count
}
