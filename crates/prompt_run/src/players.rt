//! Playing the events of a script over a model of a terminal.
ghost use Rattle.std.specs.Prelude.{◌≡◌, false, [], IfOk, None, Some, OnOk, if◌then◌else◌, is_some};
ghost use Rattle.session_core.specs.Next.{size_after};
ghost use Rattle.session_core.specs.State.{has_ended};
ghost use Rattle.prompt_run.specs.Course.{GoesOn, around, present_state};
ghost use Rattle.prompt_run.specs.Play.{Play, begun, done, reporting, terminal_size, waiting};
ghost use Rattle.prompt_run.specs.Playing.{Holds};
ghost use Rattle.prompt_run.specs.Run.{terminal_at};
ghost use Rattle.prompt_run.specs.Runs.{MayGoOn};
ghost use Rattle.prompt_run.specs.Script.{status_of};
ghost use Rattle.prompt_run.specs.Terminals.{Takes};
ghost use Rattle.term_model.specs.Term.{IsTerminal};

use crate::openings::Opening;
use crate::reports::write_screen;
use crate::runners::Runner;
use crate::statuses::Status;
use crate::terminals::TerminalScreen;
use crate::turns::is_same_size;
use crate::unheard::{Unheard, Unkept};
use cell_grid::Size;
use session_core::{Config, Event};
use std::alloc::{AllocError, Global};
use term_model::Terminal;
use text_doc::{Bytes, NoMemory};

/// A run in the middle of a script: the run itself, the terminal that shows it, and the reports so far.
#[derive(Drop)]
pub struct Player {
    pub runner: Runner,
    pub screen: TerminalScreen,
    pub reports: Vec<u8>,
}

impl Player {
    /// Returns a run of these settings and entries whose first prompt has begun on a blank terminal. With `frames` the bytes of its
    /// frames are kept.
    pub fn begin(alloc: Global, opening: Opening, frames: bool) -> Result<Player, NoMemory>
        ensures begun { IfOk result (λ player. Holds player (begun opening)) }
        ensures frames { IfOk result (λ player. is_some player.screen.frames ≡ frames) }
    {
        let mut player = waiting_player(alloc, opening, frames)?;
        player.take(Event::Start)?;
        Ok(player)
    }

    /// Does one event; behind the end of the run it does nothing. The terminal takes a resize with the session. Behind an accepted
    /// line the next prompt begins at once, where there is to be one.
    pub fn take(&mut self, event: Event) -> Result<(), NoMemory>
        requires playing { (p : Play) × Holds self.old p }
        ensures done { OnOk result ((p : Play) → Holds self.old p → Holds self.new (done p event)) }
        ensures frames { OnOk result (is_some self.new.screen.frames
            ≡ is_some self.old.screen.frames) }
    {
        if self.runner.session.ended() {
            return Ok(());
        }
        resize_with(
            &mut self.screen.terminal,
            self.runner.session.size(),
            &event,
        )?;
        run_event(&mut self.runner, event, &mut self.screen)?;
        Ok(())
    }

    /// Puts a report of the terminal's screen behind the reports so far.
    pub fn report(&mut self) -> Result<(), NoMemory>
        ensures reporting { OnOk result ((p : Play) → Holds self.old p
            → Holds self.new (reporting p)) }
        ensures frames { self.new.screen.frames ≡ self.old.screen.frames }
    {
        write_screen(&mut self.reports, &self.screen.terminal)?;
        Ok(())
    }

    /// Returns the status of the run, as it would be were this its end.
    pub fn status(&self) -> Status
        ensures status { result ≡ status_of self.now.runner.session.outcome }
    {
        self.runner.status()
    }
}

/// Returns a run that has not begun, on a blank terminal.
fn waiting_player(alloc: Global, opening: Opening, frames: bool) -> Result<Player, NoMemory>
    ensures waiting { IfOk result (λ player. Holds player (waiting opening)) }
    ensures frames { IfOk result (λ player. is_some player.screen.frames ≡ frames) }
{
    let size = size_of(&opening.config);
    let runner = Runner::new(alloc, opening, size, 0)?;
    let terminal = Terminal::start(alloc, size)?;
    let kept = first_frames(alloc, frames);
    Ok(Player {
        runner,
        screen: TerminalScreen::new(terminal, kept),
        reports: Vec::new(alloc),
    })
}

/// Returns the bytes of no frame yet, where those of frames are to be kept.
fn first_frames(alloc: Global, frames: bool) -> Option<Bytes>
    ensures { result ≡ (if frames then Some [] else None) }
{
    if frames {
        return Some(Bytes::new(alloc));
    }
    None
}

/// Returns the size of the terminal: the one that was set, or 24 rows of 80 columns.
fn size_of(config: &Config) -> Size
    ensures { result ≡ terminal_size config.now }
{
    match config.size() {
        Some(size) => size,
        None => match Size::new(24, 80) {
            Some(size) => size,
            None => unreachable!(),
        },
    }
}

/// Resizes the terminal where the event brings another size than this one.
fn resize_with(terminal: &mut Terminal, size: Size, event: &Event) -> Result<(), NoMemory>
    ensures resized { OnOk result (terminal.new
        ≡ terminal_at size (size_after event.now size) terminal.old) }
    ensures kept { OnOk result (IsTerminal terminal.new) }
{
    if let Event::Resize(new) = event {
        resize_to(terminal, size, *new)?;
    }
    prove!(terminal.top() <= terminal.lines());
    Ok(())
}

/// Resizes the terminal from one size to another, where they differ.
fn resize_to(terminal: &mut Terminal, before: Size, now: Size) -> Result<(), NoMemory>
    ensures resized { OnOk result (terminal.new ≡ terminal_at before now terminal.old) }
{
    if !is_same_size(before, now) {
        terminal.resize(now)?;
    }
    Ok(())
}

/// Does an event of a prompt that goes on, and the beginnings that follow it. Nobody keeps the history or hears what is wanted, and a
/// terminal in memory refuses a frame only for want of memory.
fn run_event(runner: &mut Runner, event: Event, screen: &mut TerminalScreen) -> Result<(), NoMemory>
    requires may { MayGoOn runner.old }
    requires going { has_ended runner.old.session ≡ false }
    ensures may { OnOk result (MayGoOn runner.new) }
    ensures done { OnOk result (GoesOn Takes present_state (λ p. done p event)
        runner.old (around screen.old None None) runner.new (around screen.new None None)) }
{
    match runner.take(event, screen, &mut Unkept, &mut Unheard) {
        Ok(()) => Ok(()),
        Err(_) => Err(AllocError),
    }
}
