//! A writer of the system as a sink.
ghost use Rattle.std.specs.Prelude.{None, ◌≤◌};
ghost use Rattle.causes.specs.Faults.{Rose};

use ports::{Failed, Sink};
use std::io::Write;

/// A writer, as the standard output, with its count of faults. What is put is flushed at once.
#[derive(Drop)]
pub struct OutputSink<W: Write + Drop> {
    writer: W,
    faults: u64,
}

impl<W: Write + Drop> OutputSink<W> {
    /// Returns a sink over the writer, of which no put failed yet.
    pub fn new(writer: W) -> OutputSink<W> {
        OutputSink { writer, faults: 0 }
    }
}

impl<W: Write + Drop> Sink for OutputSink<W> {
    ghost taken = { λ _. None };

    ghost faults = { λ s. s.faults };

    fn put(&mut self, bytes: &[u8]) -> Result<(), Failed> {
        if self.writer.write_all(bytes).is_ok() && self.writer.flush().is_ok() {
            return Ok(());
        }
        self.faults = self.faults.saturating_add(1);
        Err(Failed)
    }
}
