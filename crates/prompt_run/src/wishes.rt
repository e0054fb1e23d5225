//! Which requests jobs were told to be wanted.
ghost use Rattle.std.specs.Prelude.{◌≡◌, None, Some, IfOk, OnErr, OnOk, option_copied};
ghost use Rattle.causes.specs.Faults.{counted};
ghost use Rattle.session_core.specs.Wishes.{wanted};
ghost use Rattle.prompt_run.specs.Wishes.{AreHeld, HoldWanted, IsHeld, KeepsOthers, number_of};

use events::Jobs;
use requests::{Kind, Request};
use session_core::Session;
use text_doc::NoMemory;

/// What jobs were told of one kind: nothing yet, or the number of the request that is wanted, if one is.
type Told = Option<Option<u64>>;

/// What jobs were told of each kind.
#[derive(Clone, Copy, Debug)]
pub struct ToldWishes {
    complete: Told,
    suggest: Told,
    check: Told,
}

impl ToldWishes {
    /// Returns that nothing was told yet.
    pub fn nothing() -> ToldWishes
        ensures nothing { (result.complete ≡ None) × (result.suggest ≡ None)
            × (result.check ≡ None) }
    {
        ToldWishes {
            complete: None,
            suggest: None,
            check: None,
        }
    }

    /// Tells jobs which requests the session wants: each kind the first time, and later each that is another.
    pub fn tell<J: Jobs>(&mut self, session: &Session, jobs: &mut J) -> Result<(), NoMemory>
        ensures held { OnOk result (AreHeld self.old (J.wanted jobs.old)
            → AreHeld self.new (J.wanted jobs.new)) }
        ensures holds { OnOk result (AreHeld self.old (J.wanted jobs.old)
            → HoldWanted (J.wanted jobs.new) (wanted session.now)) }
        ensures same { OnOk result (J.faults jobs.new ≡ J.faults jobs.old) }
        ensures counted { OnErr result (J.faults jobs.new ≡ counted (J.faults jobs.old)) }
    {
        let complete = session.wanted(Kind::Complete);
        self.complete = tell_kind(jobs, Kind::Complete, complete, self.complete)?;
        let suggest = session.wanted(Kind::Suggest);
        self.suggest = tell_kind(jobs, Kind::Suggest, suggest, self.suggest)?;
        let check = session.wanted(Kind::Check);
        self.check = tell_kind(jobs, Kind::Check, check, self.check)?;
        Ok(())
    }
}

/// Tells jobs that this request of a kind is wanted, or none, unless that is what they were told last. Returns what they were told.
fn tell_kind<J: Jobs>(
    jobs: &mut J,
    kind: Kind,
    request: Option<&Request>,
    told: Told,
) -> Result<Told, NoMemory>
    ensures told { IfOk result (λ now. now ≡ Some (number_of (option_copied request.entry))) }
    ensures held { OnOk result (IsHeld told (J.wanted jobs.old) kind
        → IsHeld (Some (number_of (option_copied request.entry))) (J.wanted jobs.new) kind) }
    ensures others { OnOk result (KeepsOthers kind (J.wanted jobs.old) (J.wanted jobs.new)) }
    ensures same { OnOk result (J.faults jobs.new ≡ J.faults jobs.old) }
    ensures counted { OnErr result (J.faults jobs.new ≡ counted (J.faults jobs.old)) }
{
    let wanted = Some(match request {
        Some(request) => Some(request.id),
        None => None,
    });
    if wanted != told {
        jobs.want(kind, request)?;
    }
    Ok(wanted)
}
