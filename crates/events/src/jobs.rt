//! Who is told which answers are wanted.
ghost use Rattle.std.specs.Prelude.{◌≡◌, ℕ, Option, option_map, is_ok, OnOk, OnErr, if◌then◌else◌};
ghost use Rattle.std.specs.Option.{option_copied};
ghost use Rattle.causes.specs.Faults.{counted};
ghost use Rattle.events.specs.Jobs.{Wanted, with_wanted};

use requests::{Kind, Request};
use text_doc::NoMemory;

/// Who is told which request of each kind is wanted.
pub trait Jobs {
    // The request that is wanted of each kind, where that is told.
    ghost wanted: { Self → Option Wanted };

    ghost faults: { Self → ℕ };

    /// Makes this request the one that is wanted of this kind, or none. The faults that are counted are the calls that
    /// found no memory.
    fn want(&mut self, kind: Kind, request: Option<&Request>) -> Result<(), NoMemory>
        ensures wanted { OnOk result
            (wanted self.new
            ≡ option_map (with_wanted kind (option_copied request.entry)) (wanted self.old)) }
        ensures same { OnErr result (wanted self.new ≡ wanted self.old) }
        ensures counted { faults self.new
            ≡ (if is_ok result then faults self.old else counted (faults self.old)) };
}
