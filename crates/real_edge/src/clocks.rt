//! The present moment, as the clock of the system tells it, and what a terminal is entered with.
ghost use Rattle.std.specs.Prelude.{◌≡◌};

use ports::Entered;
use std::io;
use std::rt::Clock;

/// Returns the present moment in milliseconds since 1970.
pub(crate) fn present_moment<R: Clock>(rt: &R) -> io::Result<u64> {
    let since = rt.since_1970()?;
    Ok(u64::try_from(since.as_millis()).unwrap_or(u64::MAX))
}

/// Returns an equal entry.
pub(crate) fn copy_of(entered: &Entered) -> Entered
    ensures { result ≡ entered.now }
{
    Entered {
        size: entered.size,
        moment: entered.moment,
    }
}
