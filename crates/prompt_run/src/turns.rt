//! One turn: an event, the step that it makes, and the frame that shows the state after it.
ghost use Rattle.std.specs.Prelude.{◌≡◌, ◌≤◌, ◌↔◌, IsTrue, Err, IfOk, IfErr, OnOk, is_some};
ghost use Rattle.causes.specs.Faults.{Rose};
ghost use Rattle.diff_render.specs.Frames.{screen_after};
ghost use Rattle.session_core.specs.Draw.{draw};
ghost use Rattle.session_core.specs.Next.{next};
ghost use Rattle.session_core.specs.State.{has_ended};
ghost use Rattle.prompt_run.specs.Run.{same_size, shown_at};
ghost use Rattle.prompt_run.specs.Turn.{turned_of, GivesState, Leaves, MayTurn};

use cell_grid::Size;
use diff_render::{Shown, frame};
use ports::Screen;
use session_core::{Event, Outcome, Session, StepFault};
use std::alloc::Global;
use thiserror::Error;

/// What a turn left the prompt at.
#[derive(Clone, Copy, Debug, PartialEq, Eq)]
pub enum Turned {
    /// The prompt waits for the next event.
    Going,
    /// The text was accepted.
    Accepted,
    /// The input ended.
    EndOfFile,
    /// The prompt was interrupted.
    Interrupted,
}

/// Why a turn was not made. Behind each of them the session has ended; where it had not ended before, it has no outcome.
#[derive(Clone, Copy, Debug, PartialEq, Eq, Error)]
pub enum TurnFault {
    /// The session had ended before.
    #[error("the session has ended")]
    Ended,
    /// The screen refused the frame.
    #[error("the screen refused a frame")]
    ScreenFault,
    /// There was no memory. No part of a frame went out.
    #[error("out of memory")]
    NoMemory,
}

/// Does the step of the event, makes the frame from what is shown to the drawing of the new state, and gives it to the
/// screen in one call, an empty frame too. Where the event brings another size, the terminal has it when it obeys the frame.
pub fn turn<S: Screen>(
    alloc: Global,
    session: &mut Session,
    shown: &mut Shown,
    event: Event,
    screen: &mut S,
) -> Result<Turned, TurnFault>
    requires drawn { MayTurn session.old shown.old }
    ensures next { OnOk result (session.new ≡ next session.old event) }
    ensures answer { IfOk result (λ turned. turned ≡ turned_of session.new.outcome) }

    // A terminal that showed what was shown, takes a resize with the session, and obeys the frame shows the new state. The frame
    // never asks for the cursor's place.
    ensures shows { OnOk result (GivesState S.took screen.old screen.new session.old.size shown.old
        session.new) }
    ensures shown { OnOk result (shown.new
        ≡ screen_after (is_some session.new.outcome) (draw session.new) session.new.size) }

    ensures ended { (result ≡ Err TurnFault.Ended) ↔ IsTrue (has_ended session.old) }
    ensures leaves { IfErr result (λ fault. Leaves fault event session.old session.new) }
    ensures idle { result ≡ Err TurnFault.Ended → screen.new ≡ screen.old }
    ensures kept { result ≡ Err TurnFault.Ended → shown.new ≡ shown.old }

    // A screen that refuses the frame is called no second time.
    ensures screen { result ≡ Err TurnFault.ScreenFault
        → Rose (S.faults screen.old) (S.faults screen.new) }
    ensures missed { result ≡ Err TurnFault.ScreenFault
        → GivesState S.missed screen.old screen.new session.old.size shown.old
        (next session.old event) }
    ensures refused { result ≡ Err TurnFault.ScreenFault
        → shown.new
        ≡ screen_after (is_some (next session.old event).outcome) (draw (next session.old event))
        (next session.old event).size }

    // What could not be made is not given: the screen took nothing.
    ensures nothing { result ≡ Err TurnFault.NoMemory → screen.new ≡ screen.old }
    ensures told { result ≡ Err TurnFault.NoMemory → shown.new
        ≡ shown_at session.old.size session.new.size shown.old }
    ensures later { S.faults screen.old ≤ S.faults screen.new }
    ensures again { MayTurn session.new shown.new }
{
    let before = session.size();
    match session.step(event) {
        Ok(()) => {}
        Err(StepFault::Ended) => return Err(TurnFault::Ended),
        Err(StepFault::NoMemory) => {
            tell_size(shown, before, session.size());
            return Err(TurnFault::NoMemory);
        }
    }
    let size = session.size();
    tell_size(shown, before, size);
    let Ok(drawing) = session.drawing() else {
        session.fail();
        return Err(TurnFault::NoMemory);
    };
    let done = session.outcome().is_some();
    let Ok(bytes) = frame(alloc, shown, &drawing, size, done, false) else {
        session.fail();
        return Err(TurnFault::NoMemory);
    };
    if screen.frame(bytes.as_slice()).is_err() {
        session.fail();
        return Err(TurnFault::ScreenFault);
    }
    Ok(outcome_of(session))
}

/// Tells what is on the screen of a changed size.
fn tell_size(shown: &mut Shown, before: Size, now: Size)
    ensures { shown.new ≡ shown_at before now shown.old }
{
    if !is_same_size(before, now) {
        shown.forget_size();
    }
}

/// Tells whether two sizes are equal.
pub fn is_same_size(a: Size, b: Size) -> bool
    ensures { result ≡ same_size a b }
{
    a.rows() == b.rows() && a.cols() == b.cols()
}

/// Returns what the session's outcome leaves the prompt at.
fn outcome_of(session: &Session) -> Turned
    ensures { result ≡ turned_of session.now.outcome }
{
    match session.outcome() {
        None => Turned::Going,
        Some(Outcome::Accepted(_)) => Turned::Accepted,
        Some(Outcome::EndOfFile) => Turned::EndOfFile,
        Some(Outcome::Interrupted) => Turned::Interrupted,
    }
}
