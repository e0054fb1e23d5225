//! Where frames are shown.
ghost use Rattle.std.specs.Prelude.{◌≡◌, ℕ, List, [], ◌∷◌, ◌++◌, ◌==◌, map, length, slice_get, OnOk, OnErr};
ghost use Rattle.std.specs.Option.{option_copied};
ghost use Rattle.causes.specs.Faults.{HasCause};
ghost use Rattle.ports.specs.Frames.{Frames, TakesFrame};

use crate::faults::{Failed, FailingCalls};
use std::alloc::{AllocError, Global};
use std::marker::Model;

/// A screen that takes frames: bytes that a terminal is to obey. One call takes one whole frame, an empty one too.
pub trait Screen {
    // What taking a frame does to the screen. A screen that keeps frames or is a model of a terminal tells; a real one
    // tells nothing.
    ghost took: { Self → List ℕ → Self → Type 0 };

    // What refusing a frame leaves of the screen.
    ghost missed: { Self → List ℕ → Self → Type 0 };

    ghost faults: { Self → ℕ };

    /// Takes the whole frame, or fails and shows none of it.
    fn frame(&mut self, bytes: &[u8]) -> Result<(), Failed>
        ensures took { OnOk result (took self.old bytes.now self.new) }
        ensures missed { OnErr result (missed self.old bytes.now self.new) }
        ensures cause { HasCause (faults self.old) (faults self.new) result };
}

/// A screen that keeps the frames that it takes. Want of memory is a fault as the planned ones are.
#[derive(Debug, Drop)]
pub struct MemoryScreen {
    frames: Vec<Vec<u8>>,
    failing: FailingCalls,
}

impl Model for MemoryScreen {
    ghost use Rattle.ports.specs.Frames.{Frames};
    ghost use Rattle.std.specs.Prelude.{map};

    ghost Value = { Frames };

    ghost view = { λ s. record {
      taken = map (λ frame. frame.items) s.frames.items;
      faults = s.failing;
    } };
}

impl MemoryScreen {
    /// Returns a screen that took nothing yet, of which the frames with these numbers fail.
    pub fn new(alloc: Global, failing: FailingCalls) -> MemoryScreen
        ensures nothing { result.taken ≡ [] }
        ensures faults { result.faults ≡ failing }
    {
        MemoryScreen {
            frames: Vec::new(alloc),
            failing,
        }
    }

    /// Returns the number of frames that it took.
    pub fn len(&self) -> usize
        ensures { result ≡ length self.now.taken }
    {
        self.frames.len()
    }

    /// Returns whether it took no frame yet.
    pub fn is_empty(&self) -> bool
        ensures { result ≡ (length self.now.taken == 0) }
    {
        self.frames.is_empty()
    }

    /// Returns the frame with this number, from 0 on. `None` where it took no such frame.
    pub fn get(&self, number: usize) -> Option<&[u8]>
        ensures { option_copied result ≡ slice_get self.now.taken number }
    {
        match self.frames.get(number) {
            Some(frame) => Some(frame.as_slice()),
            None => None,
        }
    }

    /// Returns the number of frames that were refused so far, those that found no memory among them.
    pub fn faults(&self) -> u64
        ensures { result ≡ self.now.faults }
    {
        self.failing.faults()
    }
}

impl Screen for MemoryScreen {
    ghost took = { TakesFrame };

    ghost missed = { λ old _ new. new.taken ≡ old.taken };

    ghost faults = { λ s. s.faults };

    fn frame(&mut self, bytes: &[u8]) -> Result<(), Failed> {
        self.failing.admit()?;
        match keep(&mut self.frames, bytes) {
            Ok(()) => Ok(()),
            Err(_) => Err(self.failing.fail()),
        }
    }
}

/// Puts a copy of the frame behind the others.
fn keep(frames: &mut Vec<Vec<u8>>, bytes: &[u8]) -> Result<(), AllocError>
    ensures kept { OnOk result (map (λ f. f.items) frames.new.items
        ≡ map (λ f. f.items) frames.old.items ++ bytes.now ∷ []) }
    ensures same { OnErr result (frames.new.items ≡ frames.old.items) }
{
    let frame = Vec::from_slice(*frames.allocator(), bytes)?;
    frames.push(frame)?;
    Ok(())
}
