//! A reader of the system as a source.
ghost use Rattle.std.specs.Prelude.{None};
ghost use Rattle.std.specs.Io.{ReadsAtMost};

use ports::{Failed, Source};
use std::io;
use std::io::{ErrorKind, Read};

/// A reader, as the standard input, with its count of faults.
#[derive(Drop)]
pub struct InputSource<R: Read + Drop> {
    reader: R,
    faults: u64,
    empty_reads: u64,
}

impl<R: Read + Drop> InputSource<R> {
    /// Returns a source over the reader, of which no read failed yet.
    pub fn new(reader: R) -> InputSource<R> {
        InputSource {
            reader,
            faults: 0,
            empty_reads: 0,
        }
    }
}

impl<R: Read + Drop> Source for InputSource<R> {
    ghost supply = { λ s. record { left = None; faults = s.faults; empty_reads = s.empty_reads } };

    fn read(&mut self, into: &mut [u8]) -> Result<usize, Failed> {
        match read_uninterrupted(&mut self.reader, into) {
            Ok(given) => {
                if given == 0 && !into.is_empty() {
                    self.empty_reads = self.empty_reads.saturating_add(1);
                }
                Ok(given)
            }
            Err(_) => {
                self.faults = self.faults.saturating_add(1);
                Err(Failed)
            }
        }
    }
}

/// Reads once, and again where a signal interrupted the read.
pub(crate) fn read_uninterrupted<R: Read>(reader: &mut R, into: &mut [u8]) -> io::Result<usize>
    ensures { ReadsAtMost result into.new }
{
    for _ in 0..u64::MAX {
        let result = reader.read(into);
        match &result {
            Err(fault) if fault.kind() == ErrorKind::Interrupted => {}
            _ => return result,
        }
    }
    reader.read(into)
}
