//! A run of prompts over an outside: each event is shown, and what it accepts is kept.
ghost use Rattle.std.specs.Prelude.{◌≡◌, ◌++◌, false, IfOk, IfErr, OnOk, OnErr, is_some};
ghost use Rattle.std.specs.Io.KnownBytes.{Appends};
ghost use Rattle.std.specs.Result.{IsErrOf};
ghost use Rattle.causes.specs.Faults.{HasFaultCause};
ghost use Rattle.cell_grid.specs.Size.{IsScreen};
ghost use Rattle.diff_render.specs.Frames.{screen_after};
ghost use Rattle.session_core.specs.Draw.{draw};
ghost use Rattle.session_core.specs.Next.{is_accepted, next};
ghost use Rattle.session_core.specs.State.{has_ended, opened};
ghost use Rattle.prompt_run.specs.Course.{AppendsFront, GoesOn, LeavesScreen, Stops, around, present_state, reopened_state};
ghost use Rattle.prompt_run.specs.Play.{accepted, done, followed, lines_left, new_entry, with_event};
ghost use Rattle.prompt_run.specs.Prompts.{IsBegun};
ghost use Rattle.prompt_run.specs.Runs.{MayGoOn};
ghost use Rattle.prompt_run.specs.Script.{status_of};
ghost use Rattle.prompt_run.specs.Turn.{GivesState, MayTurn};
ghost use Rattle.prompt_run.specs.Wishes.{CountsOn, Stands};

use crate::openings::Opening;
use crate::statuses::{ACCEPTED, END_OF_FILE, INTERRUPTED, Status};
use crate::turns::{TurnFault, turn};
use crate::wishes::ToldWishes;
use cell_grid::Size;
use diff_render::Shown;
use events::{InboxFault, Jobs};
use line_history::{Keeper, KeeperFault, entry_text};
use ports::Screen;
use session_core::{Event, Outcome, Session};
use std::alloc::{AllocError, Global};
use text_doc::{Lines, NoMemory};
use thiserror::Error;

/// Why a run ended before its prompts did.
#[derive(Clone, Copy, Debug, PartialEq, Eq, Error)]
pub enum RunFault {
    /// The inbox gave no event.
    #[error("what gives the events failed")]
    Inbox,
    /// The screen refused a frame.
    #[error("the screen refused a frame")]
    Screen,
    /// The keeper refused an entry.
    #[error("what keeps the history failed")]
    Keeper,
    /// There was no memory.
    #[error("out of memory")]
    NoMemory,
}

impl From<NoMemory> for RunFault {
    ghost use Rattle.std.specs.Prelude.{◌≡◌};
    ghost use Rattle.prompt_run.specs.declared.runners.RunFault.TheVariants.{NoMemory};

    ghost from_gives = { λ _ fault. fault ≡ NoMemory };

    fn from(_error: NoMemory) -> RunFault {
        RunFault::NoMemory
    }
}

impl From<InboxFault> for RunFault {
    ghost use Rattle.std.specs.Prelude.{◌≡◌};
    ghost use Rattle.prompt_run.specs.Faults.{inbox_fault};

    ghost from_gives = { λ fault made. made ≡ inbox_fault fault };

    fn from(fault: InboxFault) -> RunFault {
        match fault {
            InboxFault::Failed => RunFault::Inbox,
            InboxFault::NoMemory => RunFault::NoMemory,
        }
    }
}

impl From<KeeperFault> for RunFault {
    ghost use Rattle.std.specs.Prelude.{◌≡◌};
    ghost use Rattle.prompt_run.specs.Faults.{keeper_fault};

    ghost from_gives = { λ fault made. made ≡ keeper_fault fault };

    fn from(fault: KeeperFault) -> RunFault {
        match fault {
            KeeperFault::Failed => RunFault::Keeper,
            KeeperFault::NoMemory => RunFault::NoMemory,
        }
    }
}

/// A run: its present prompt, what is on the screen, how many lines it accepts before it ends, and those that it accepted.
#[derive(Drop)]
pub struct Runner {
    pub alloc: Global,
    pub session: Session,
    pub shown: Shown,
    pub repeat: usize,
    pub answers: Lines,
    told: ToldWishes,
}

impl Runner {
    /// Returns a run that has not begun, for a screen of this size at this moment.
    pub fn new(alloc: Global, opening: Opening, size: Size, moment: u64) -> Result<Runner, NoMemory>
        ensures drawn { IfOk result MayGoOn }
        ensures opened { IfOk result (λ runner. runner.session
            ≡ opened opening.settings opening.entries size moment) }
        ensures begun { IfOk result IsBegun }
    {
        let Opening { config, entries } = opening;
        let repeat = config.repeat() as usize;
        let session = Session::new(alloc, config, entries, size, moment)?;
        Ok(Runner {
            alloc,
            session,
            shown: Shown::nothing(),
            repeat,
            answers: Lines::new(alloc),
            told: ToldWishes::nothing(),
        })
    }

    /// Does one event of a prompt that goes on. Behind an accepted line the next prompt begins at once, where there is to be one.
    pub fn take<S: Screen, K: Keeper, J: Jobs>(
        &mut self,
        event: Event,
        screen: &mut S,
        keeper: &mut K,
        jobs: &mut J,
    ) -> Result<(), RunFault>
        requires at { MayGoOn self.old }
        requires going { has_ended self.old.session ≡ false }
        ensures screen { HasFaultCause RunFault.Screen (S.faults screen.old) (S.faults screen.new)
            result }
        ensures keeper { HasFaultCause RunFault.Keeper (K.faults keeper.old) (K.faults keeper.new)
            result }
        ensures no_inbox { IsErrOf result RunFault.Inbox → ⊥ }
        ensures again { OnOk result (MayGoOn self.new) }
        ensures done { OnOk result (GoesOn S.took present_state (λ p. done p event)
            self.old (around screen.old (K.kept keeper.old) (J.wanted jobs.old))
            self.new (around screen.new (K.kept keeper.new) (J.wanted jobs.new))) }
        ensures stops { IfErr result (λ fault. Stops S.took S.missed present_state
            (λ p. done p event) self.old
            (around screen.old (K.kept keeper.old) (J.wanted jobs.old))
            fault (Stands (J.faults jobs.old) (J.faults jobs.new)) self.new
            (around screen.new (K.kept keeper.new) (J.wanted jobs.new))) }
        ensures jobs { CountsOn (J.faults jobs.old) (J.faults jobs.new) }
    {
        self.run_event(event, screen, keeper, jobs)?;
        self.follow(screen, keeper, jobs)?;
        Ok(())
    }

    /// Does one event: the screen shows the state after it, jobs are told what is wanted there before anything else can fail, and where
    /// it accepted a line that is kept, with the entry that it adds to the history.
    fn run_event<S: Screen, K: Keeper, J: Jobs>(
        &mut self,
        event: Event,
        screen: &mut S,
        keeper: &mut K,
        jobs: &mut J,
    ) -> Result<(), RunFault>
        requires at { MayGoOn self.old }
        ensures screen { HasFaultCause RunFault.Screen (S.faults screen.old) (S.faults screen.new)
            result }
        ensures keeper { HasFaultCause RunFault.Keeper (K.faults keeper.old) (K.faults keeper.new)
            result }
        ensures no_inbox { IsErrOf result RunFault.Inbox → ⊥ }
        ensures again { OnOk result (MayGoOn self.new) }
        ensures done { OnOk result (GoesOn S.took reopened_state (λ p. with_event p event)
            self.old (around screen.old (K.kept keeper.old) (J.wanted jobs.old))
            self.new (around screen.new (K.kept keeper.new) (J.wanted jobs.new))) }
        ensures stops { IfErr result (λ fault. Stops S.took S.missed reopened_state
            (λ p. with_event p event) self.old
            (around screen.old (K.kept keeper.old) (J.wanted jobs.old))
            fault (Stands (J.faults jobs.old) (J.faults jobs.new)) self.new
            (around screen.new (K.kept keeper.new) (J.wanted jobs.new))) }
        ensures jobs { CountsOn (J.faults jobs.old) (J.faults jobs.new) }
    {
        advance(
            self.alloc,
            &mut self.session,
            &mut self.shown,
            event,
            screen,
        )?;
        self.told.tell(&self.session, jobs)?;
        keep_answer(&mut self.answers, &self.session)?;
        keep_entry(self.alloc, &self.session, keeper)?;
        Ok(())
    }

    /// Begins the next prompt behind an accepted line, and again behind each that the kept keys accept, as long as there are to be
    /// more lines.
    fn follow<S: Screen, K: Keeper, J: Jobs>(
        &mut self,
        screen: &mut S,
        keeper: &mut K,
        jobs: &mut J,
    ) -> Result<(), RunFault>
        requires at { MayGoOn self.old }
        ensures screen { HasFaultCause RunFault.Screen (S.faults screen.old) (S.faults screen.new)
            result }
        ensures keeper { HasFaultCause RunFault.Keeper (K.faults keeper.old) (K.faults keeper.new)
            result }
        ensures no_inbox { IsErrOf result RunFault.Inbox → ⊥ }
        ensures again { OnOk result (MayGoOn self.new) }
        ensures done { OnOk result (GoesOn S.took present_state (λ p. followed (lines_left p) p)
            self.old (around screen.old (K.kept keeper.old) (J.wanted jobs.old))
            self.new (around screen.new (K.kept keeper.new) (J.wanted jobs.new))) }
        ensures stops { IfErr result (λ fault. Stops S.took S.missed present_state
            (λ p. followed (lines_left p) p) self.old
            (around screen.old (K.kept keeper.old) (J.wanted jobs.old))
            fault (Stands (J.faults jobs.old) (J.faults jobs.new)) self.new
            (around screen.new (K.kept keeper.new) (J.wanted jobs.new))) }
        ensures jobs { CountsOn (J.faults jobs.old) (J.faults jobs.new) }
    {
        let mut left = self.repeat.saturating_sub(self.answers.len());
        while left > 0 {
            if !self.has_accepted() {
                return Ok(());
            }
            self.session.again()?;
            self.run_event(Event::Start, screen, keeper, jobs)?;
            left -= 1;
        }
        Ok(())
    }

    /// Tells whether the present prompt accepted a text.
    fn has_accepted(&self) -> bool
        ensures { result ≡ is_accepted self.now.session.outcome }
    {
        matches!(self.session.outcome(), Some(Outcome::Accepted(_)))
    }

    /// Returns the status of the run, as it would be were this its end.
    pub fn status(&self) -> Status
        ensures { result ≡ status_of self.now.session.outcome }
    {
        match self.session.outcome() {
            Some(Outcome::Accepted(_)) => ACCEPTED,
            Some(Outcome::Interrupted) => INTERRUPTED,
            Some(Outcome::EndOfFile) | None => END_OF_FILE,
        }
    }
}

/// Does a turn.
fn advance<S: Screen>(
    alloc: Global,
    session: &mut Session,
    shown: &mut Shown,
    event: Event,
    screen: &mut S,
) -> Result<(), RunFault>
    requires at { MayTurn session.old shown.old }
    ensures screen { HasFaultCause RunFault.Screen (S.faults screen.old) (S.faults screen.new)
        result }
    ensures only { (IsErrOf result RunFault.Inbox → ⊥) × (IsErrOf result RunFault.Keeper → ⊥) }
    ensures again { MayTurn session.new shown.new }
    ensures going { OnOk result (has_ended session.old ≡ false) }
    ensures next { OnOk result (session.new ≡ next session.old event) }
    ensures size { OnOk result (IsScreen session.new.size.rows session.new.size.cols) }
    ensures gives { OnOk result (GivesState S.took screen.old screen.new session.old.size shown.old
        session.new) }
    ensures shown { OnOk result (shown.new
        ≡ screen_after (is_some session.new.outcome) (draw session.new) session.new.size) }
    ensures missed { IfErr result (λ fault. LeavesScreen S.missed fault screen.old screen.new) }
{
    match turn(alloc, session, shown, event, screen) {
        Ok(_) => {
            let size = session.size();
            prove!(size.rows() >= 1 && size.rows() <= Size::MAX_ROWS);
            prove!(size.cols() >= 1 && size.cols() <= Size::MAX_COLS);
            Ok(())
        }
        Err(TurnFault::ScreenFault) => Err(RunFault::Screen),
        Err(TurnFault::Ended) => Err(RunFault::NoMemory),
        Err(TurnFault::NoMemory) => Err(RunFault::NoMemory),
    }
}

/// Keeps the text that the session accepted, if it did.
fn keep_answer(answers: &mut Lines, session: &Session) -> Result<(), NoMemory>
    ensures kept { OnOk result (answers.new ≡ answers.old ++ accepted session.now.outcome) }
    ensures same { OnErr result (answers.new ≡ answers.old) }
{
    if let Some(Outcome::Accepted(text)) = session.outcome() {
        let text = text.copy()?;
        answers.push(text)?;
    }
    Ok(())
}

/// Appends the entry that the accepted text adds to the history, if it adds one.
fn keep_entry<K: Keeper>(alloc: Global, session: &Session, keeper: &mut K) -> Result<(), RunFault>
    ensures keeper { HasFaultCause RunFault.Keeper (K.faults keeper.old) (K.faults keeper.new)
        result }
    ensures only { (IsErrOf result RunFault.Inbox → ⊥) × (IsErrOf result RunFault.Screen → ⊥) }
    ensures kept { OnOk result (Appends (K.kept keeper.old) (K.kept keeper.new)
        (new_entry session.now)) }
    ensures part { OnErr result (AppendsFront (K.kept keeper.old) (K.kept keeper.new)
        (new_entry session.now)) }
{
    if let Some(entry) = session.entry() {
        let bytes = entry_text(alloc, entry, session.moment())?;
        keeper.append(bytes.as_slice())?;
    }
    Ok(())
}
