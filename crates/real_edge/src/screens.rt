//! A writer of the system as a screen.
ghost use Rattle.std.specs.Prelude.{◌≤◌};
ghost use Rattle.causes.specs.Faults.{Rose};

use ports::{Failed, Screen};
use std::io::Write;

/// A writer that leads to a terminal, as the standard error, with its count of faults. A frame is written at once.
#[derive(Drop)]
pub struct OutputScreen<W: Write + Drop> {
    writer: W,
    faults: u64,
}

impl<W: Write + Drop> OutputScreen<W> {
    /// Returns a screen over the writer, of which no frame failed yet.
    pub fn new(writer: W) -> OutputScreen<W> {
        OutputScreen { writer, faults: 0 }
    }
}

impl<W: Write + Drop> Screen for OutputScreen<W> {
    // what the terminal shows is not told
    ghost took = { λ _ _ _. Unit {0} };

    ghost missed = { λ _ _ _. Unit {0} };

    ghost faults = { λ s. s.faults };

    fn frame(&mut self, bytes: &[u8]) -> Result<(), Failed> {
        if self.writer.write_all(bytes).is_ok() && self.writer.flush().is_ok() {
            return Ok(());
        }
        self.faults = self.faults.saturating_add(1);
        Err(Failed)
    }
}
