//! Laws of a desk, each the contract of a function that does nothing.
ghost use Rattle.job_desk.specs.Laws.{StaysDesk, NeverLiveAgain};

/// After any calls the requests that were posted are those that were taken, those that were replaced, and the one in the
/// slot.
pub fn stays_desk()
    ensures { StaysDesk }
{}

/// A number that was live and is not any more is never live again.
pub fn never_live_again()
    ensures { NeverLiveAgain }
{}
