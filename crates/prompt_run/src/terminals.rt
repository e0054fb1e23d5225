//! The terminal of a replay, as a screen.
ghost use Rattle.prompt_run.specs.Terminals.{Obeys, Keeps, Takes};

use ports::{Failed, Screen};
use term_model::Terminal;
use text_doc::{Bytes, NoMemory};

/// A model of a terminal that obeys the frames it is given, and keeps their bytes where it has a place for them. Its faults are
/// want of memory.
#[derive(Drop)]
pub struct TerminalScreen {
    pub terminal: Terminal,
    pub frames: Option<Bytes>,
    faults: u64,
}

impl TerminalScreen {
    ghost use Rattle.std.specs.Prelude.{◌≡◌, OnOk};

    /// Returns the terminal as a screen, of which no frame failed yet.
    pub fn new(terminal: Terminal, frames: Option<Bytes>) -> TerminalScreen
        ensures terminal { result.terminal ≡ terminal }
        ensures frames { result.frames ≡ frames }
    {
        TerminalScreen {
            terminal,
            frames,
            faults: 0,
        }
    }

    /// Obeys the bytes and keeps them.
    fn take(&mut self, bytes: &[u8]) -> Result<(), NoMemory>
        ensures obeys { OnOk result (Obeys self.old.terminal bytes.now self.new.terminal) }
        ensures keeps { OnOk result (Keeps self.old.frames bytes.now self.new.frames) }
        ensures faults { self.new.faults ≡ self.old.faults }
    {
        if let Some(frames) = &mut self.frames {
            frames.extend_from_slice(bytes)?;
        }
        self.terminal.obey(bytes)?;
        Ok(())
    }
}

impl Screen for TerminalScreen {
    ghost took = { Takes };

    // nothing is claimed of a terminal that found no memory
    ghost missed = { λ _ _ _. Unit {0} };

    ghost faults = { λ s. s.faults };

    fn frame(&mut self, bytes: &[u8]) -> Result<(), Failed> {
        match self.take(bytes) {
            Ok(()) => Ok(()),
            Err(_) => {
                self.faults = self.faults.saturating_add(1);
                Err(Failed)
            }
        }
    }
}
