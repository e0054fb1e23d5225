//! Jobs in memory. A clause sees them as the request that is wanted of each kind.
ghost use Rattle.std.specs.Prelude.{◌≡◌, None, Some, IfOk};
ghost use Rattle.std.specs.Option.{option_copied};
ghost use Rattle.events.specs.Jobs.{none_wanted, wanted_of};

use crate::jobs::Jobs;
use ports::FailingCalls;
use requests::{Kind, Request};
use std::alloc::AllocError;
use std::marker::Model;
use text_doc::NoMemory;

/// Jobs that keep a copy of the request that is wanted of each kind, and do nothing else.
#[derive(Debug, Drop)]
pub struct MemoryJobs {
    complete: Option<Request>,
    suggest: Option<Request>,
    check: Option<Request>,
    failing: FailingCalls,
}

impl Model for MemoryJobs {
    ghost use Rattle.std.specs.Coded.{codes};
    ghost use Rattle.requests.specs.contracts.requests.Request as asked;
    ghost use Rattle.events.specs.Jobs.{Wishes};

    ghost Value = { Wishes };

    ghost coded = { Prim.hlevel (codes, asked.the_row.coded) };

    ghost view = { λ j. record {
      wanted = record { complete = j.complete; suggest = j.suggest; check = j.check };
      faults = j.failing;
    } };
}

impl MemoryJobs {
    /// Returns jobs of which none is wanted yet, and of which the calls with these numbers find no memory.
    pub fn new(failing: FailingCalls) -> MemoryJobs
        ensures { result ≡ record { wanted = none_wanted; faults = failing } }
    {
        MemoryJobs {
            complete: None,
            suggest: None,
            check: None,
            failing,
        }
    }

    /// Returns the request that is wanted of this kind, if one is.
    pub fn wanted(&self, kind: Kind) -> Option<&Request>
        ensures { option_copied result ≡ wanted_of kind self.now.wanted }
    {
        match kind {
            Kind::Complete => self.complete.as_ref(),
            Kind::Suggest => self.suggest.as_ref(),
            Kind::Check => self.check.as_ref(),
        }
    }

    /// Returns the number of calls that found no memory so far.
    pub fn faults(&self) -> u64
        ensures { result ≡ self.now.faults }
    {
        self.failing.faults()
    }
}

impl Jobs for MemoryJobs {
    ghost wanted = { λ j. Some j.wanted };

    ghost faults = { λ j. j.faults };

    fn want(&mut self, kind: Kind, request: Option<&Request>) -> Result<(), NoMemory> {
        if self.failing.admit().is_err() {
            return Err(AllocError);
        }
        let Ok(copy) = copy_of(request) else {
            let _ = self.failing.fail();
            return Err(AllocError);
        };
        match kind {
            Kind::Complete => self.complete = copy,
            Kind::Suggest => self.suggest = copy,
            Kind::Check => self.check = copy,
        }
        Ok(())
    }
}

/// Returns an equal request, where there is one.
fn copy_of(request: Option<&Request>) -> Result<Option<Request>, NoMemory>
    ensures { IfOk result (λ copy. copy ≡ option_copied request.entry) }
{
    match request {
        Some(request) => {
            let copy = request.copy()?;
            Ok(Some(copy))
        }
        None => Ok(None),
    }
}
