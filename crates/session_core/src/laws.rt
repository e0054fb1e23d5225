//! Laws of the state machine, each the contract of a function that does nothing.
ghost use Rattle.std.specs.Prelude.{◌≡◌};
ghost use Rattle.requests.specs.Batches.{BatchFields};
ghost use Rattle.events.specs.declared.events.Event.TheVariants.{Answer};
ghost use Rattle.session_core.specs.Draw.{settle};
ghost use Rattle.session_core.specs.Next.{next};
ghost use Rattle.session_core.specs.State.{State};

/// An answer leaves all but the scroll as it is: no setting asks for answers yet.
pub fn answers_change_nothing()
    ensures { (s : State) (batch : BatchFields) → next s (Answer batch) ≡ settle s }
{}
