//! Where the bytes of a history file are kept.
ghost use Rattle.std.specs.Prelude.{◌≡◌, ◌++◌, ℕ, List, Some, Option, IfOk, OnOk, OnErr};
ghost use Rattle.std.specs.Option.{ForSome};
ghost use Rattle.std.specs.Result.{IsErrOf};
ghost use Rattle.ports.specs.Sink.{Puts};
ghost use Rattle.causes.specs.Faults.{HasFaultCause};

use ports::{Failed, FailingCalls};
use std::alloc::Global;
use std::marker::Model;
use text_doc::{Bytes, NoMemory};
use thiserror::Error;

/// Why a keeper refused a call.
#[derive(Clone, Copy, Debug, PartialEq, Eq, Error)]
pub enum KeeperFault {
    /// What keeps the bytes failed, as a file that may not be read. The keeper counts it.
    #[error("what keeps the history failed")]
    Failed,
    /// There was no memory. The keeper is as before.
    #[error("no memory for the history")]
    NoMemory,
}

impl From<Failed> for KeeperFault {
    ghost use Rattle.std.specs.Prelude.{◌≡◌};
    ghost use Rattle.line_history.specs.declared.keepers.KeeperFault.TheVariants.{Failed};

    ghost from_gives = { λ _ fault. fault ≡ Failed };

    fn from(_failed: Failed) -> KeeperFault {
        KeeperFault::Failed
    }
}

impl From<NoMemory> for KeeperFault {
    ghost use Rattle.std.specs.Prelude.{◌≡◌};
    ghost use Rattle.line_history.specs.declared.keepers.KeeperFault.TheVariants.{NoMemory};

    ghost from_gives = { λ _ fault. fault ≡ NoMemory };

    fn from(_error: NoMemory) -> KeeperFault {
        KeeperFault::NoMemory
    }
}

/// What keeps the bytes of a history file from one run to the next.
pub trait Keeper {
    ghost kept: { Self → Option (List ℕ) };

    ghost faults: { Self → ℕ };

    /// Returns the bytes that it keeps, in memory of `alloc`.
    fn load(&mut self, alloc: Global) -> Result<Bytes, KeeperFault>
        ensures bytes { IfOk result (λ bytes. ForSome (kept self.old) (λ told. bytes ≡ told)) }
        ensures same { kept self.new ≡ kept self.old }
        ensures cause { HasFaultCause KeeperFault.Failed
            (faults self.old) (faults self.new) result }
        ensures no_memory { IsErrOf result KeeperFault.NoMemory
            → faults self.new ≡ faults self.old };

    /// Puts all the bytes behind those that it keeps. Where it fails it may have put some of them, from the front.
    fn append(&mut self, bytes: &[u8]) -> Result<(), KeeperFault>
        ensures bytes { Puts (kept self.old) (kept self.new) bytes.now result }
        ensures cause { HasFaultCause KeeperFault.Failed
            (faults self.old) (faults self.new) result }
        ensures no_memory { IsErrOf result KeeperFault.NoMemory
            → (kept self.new ≡ kept self.old) × (faults self.new ≡ faults self.old) };
}

/// A keeper in memory. A call that fails changes no byte.
#[derive(Debug, Drop)]
pub struct MemoryKeeper {
    bytes: Bytes,
    failing: FailingCalls,
}

impl Model for MemoryKeeper {
    ghost use Rattle.line_history.specs.Keeping.{Kept};

    ghost Value = { Kept };

    ghost view = { λ k. record { bytes = k.bytes; faults = k.failing } };
}

impl MemoryKeeper {
    /// Makes a keeper of these bytes, of which the calls with these numbers fail.
    pub fn new(bytes: Bytes, failing: FailingCalls) -> MemoryKeeper
        ensures kept { result.bytes ≡ bytes }
        ensures faults { result.faults ≡ failing }
    {
        MemoryKeeper { bytes, failing }
    }

    /// Returns the bytes that it keeps.
    pub fn bytes(&self) -> &[u8]
        ensures { result.now ≡ self.now.bytes }
    {
        self.bytes.as_slice()
    }

    /// Returns the number of calls that failed so far.
    pub fn faults(&self) -> u64
        ensures { result ≡ self.now.faults }
    {
        self.failing.faults()
    }
}

impl Keeper for MemoryKeeper {
    ghost kept = { λ k. Some k.bytes };

    ghost faults = { λ k. k.faults };

    fn load(&mut self, alloc: Global) -> Result<Bytes, KeeperFault> {
        self.failing.admit()?;
        let bytes = Bytes::from_slice(alloc, self.bytes.as_slice())?;
        Ok(bytes)
    }

    fn append(&mut self, bytes: &[u8]) -> Result<(), KeeperFault>
        ensures ok { OnOk result (self.new.bytes ≡ self.old.bytes ++ bytes.now) }
        ensures err { OnErr result (self.new.bytes ≡ self.old.bytes) }
        ensures cause { HasFaultCause KeeperFault.Failed self.old.faults self.new.faults result }
        ensures no_memory { IsErrOf result KeeperFault.NoMemory
            → self.new.faults ≡ self.old.faults }
    {
        self.failing.admit()?;
        self.bytes.extend_from_slice(bytes)?;
        Ok(())
    }
}
