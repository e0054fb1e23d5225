//! What stands where nobody keeps a history, and nobody is told what is wanted.
ghost use Rattle.std.specs.Prelude.{None};

use events::Jobs;
use line_history::{Keeper, KeeperFault};
use requests::{Kind, Request};
use std::alloc::Global;
use text_doc::{Bytes, NoMemory};

/// A keeper that drops what it is given, and has nothing.
#[derive(Clone, Copy, Debug)]
pub struct Unkept;

impl Keeper for Unkept {
    ghost kept = { λ _. None };

    ghost faults = { λ _. 0 };

    fn load(&mut self, alloc: Global) -> Result<Bytes, KeeperFault> {
        Ok(Bytes::new(alloc))
    }

    fn append(&mut self, _bytes: &[u8]) -> Result<(), KeeperFault> {
        Ok(())
    }
}

/// Jobs that do nothing.
#[derive(Clone, Copy, Debug)]
pub struct Unheard;

impl Jobs for Unheard {
    ghost wanted = { λ _. None };

    ghost faults = { λ _. 0 };

    fn want(&mut self, _kind: Kind, _request: Option<&Request>) -> Result<(), NoMemory> {
        Ok(())
    }
}
