//! Where bytes go.
ghost use Rattle.std.specs.Prelude.{◌≡◌, ℕ, List, [], Some, Option};
ghost use Rattle.causes.specs.Faults.{HasCause};
ghost use Rattle.ports.specs.Sink.{Puts};

use crate::faults::{Failed, FailingCalls};
use std::alloc::Global;
use std::marker::Model;

/// A sink of bytes, as a file or the standard output.
pub trait Sink {
    ghost taken: { Self → Option (List ℕ) };

    ghost faults: { Self → ℕ };

    /// Puts all the bytes behind those that it took before. Where it fails it may have taken some of them from the
    /// front.
    fn put(&mut self, bytes: &[u8]) -> Result<(), Failed>
        ensures bytes { Puts (taken self.old) (taken self.new) bytes.now result }
        ensures cause { HasCause (faults self.old) (faults self.new) result };
}

/// A sink that keeps the bytes that it takes. A put that fails takes none; want of memory is such a fault.
#[derive(Debug, Drop)]
pub struct MemorySink {
    bytes: Vec<u8>,
    failing: FailingCalls,
}

impl Model for MemorySink {
    ghost use Rattle.ports.specs.Sink.{Taken};

    ghost Value = { Taken };

    ghost view = { λ s. record { bytes = s.bytes.items; faults = s.failing } };
}

impl MemorySink {
    /// Returns a sink that took nothing yet, of which the puts with these numbers fail.
    pub fn new(alloc: Global, failing: FailingCalls) -> MemorySink
        ensures nothing { result.bytes ≡ [] }
        ensures faults { result.faults ≡ failing }
    {
        MemorySink {
            bytes: Vec::new(alloc),
            failing,
        }
    }

    /// Returns the bytes that it took, in order.
    pub fn bytes(&self) -> &[u8]
        ensures { result.now ≡ self.now.bytes }
    {
        self.bytes.as_slice()
    }

    /// Returns the number of puts that failed so far, those that found no memory among them.
    pub fn faults(&self) -> u64
        ensures { result ≡ self.now.faults }
    {
        self.failing.faults()
    }
}

impl Sink for MemorySink {
    ghost taken = { λ s. Some s.bytes };

    ghost faults = { λ s. s.faults };

    fn put(&mut self, bytes: &[u8]) -> Result<(), Failed> {
        self.failing.admit()?;
        match self.bytes.extend_from_slice(bytes) {
            Ok(()) => Ok(()),
            Err(_) => Err(self.failing.fail()),
        }
    }
}
