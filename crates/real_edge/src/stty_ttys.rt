//! The terminal that controls the program, by `stty`.
ghost use Rattle.std.specs.Prelude.{◌≡◌, ◌≤◌, Some};
ghost use Rattle.causes.specs.Faults.{Rose};

use crate::clocks::{copy_of, present_moment};
use crate::guards::{Guard, make_raw};
use crate::shells::{TtyFault, ask, give_settings};
use ports::{Entered, Failed, Mode, Tty};
use std::alloc::Global;
use std::io::Write;
use std::process::Processes;
use std::rt::Clock;

/// Ends attributes, lets rows wrap, shows the cursor, and ends bracketed pastes.
const RESET: &[u8] = b"\x1b[0m\x1b[?7h\x1b[?25h\x1b[?2004l";

/// The terminal that controls the program, with its count of faults. It tells the mode that was asked of `stty` last; what the
/// terminal has by then, and what else is done to it, is not told.
#[derive(Drop)]
pub struct SttyTty<R: Processes + Clock + Drop, W: Write + Drop> {
    rt: R,
    alloc: Global,
    out: W,
    settings: Option<String>,
    guard: Option<Guard<R>>,
    mode: Mode,
    count: u64,
    last: Option<Entered>,
    fault: Option<TtyFault>,
    faults: u64,
}

impl<R: Processes + Clock + Drop, W: Write + Drop> SttyTty<R, W> {
    /// Returns the terminal before it is entered. The writer leads to it, as the standard error.
    pub fn new(rt: R, alloc: Global, out: W) -> SttyTty<R, W> {
        SttyTty {
            rt,
            alloc,
            out,
            settings: None,
            guard: None,
            mode: Mode::Cooked,
            count: 0,
            last: None,
            fault: None,
            faults: 0,
        }
    }

    /// Returns the last fault, if there was one.
    pub fn fault(&self) -> Option<TtyFault> {
        self.fault
    }

    /// Counts a fault, and keeps it.
    fn fail(&mut self, fault: TtyFault) -> Failed
        ensures later { self.old.faults ≤ self.new.faults }
        ensures rose { Rose self.old.faults self.new.faults }
        ensures mode { self.new.mode ≡ self.old.mode }
        ensures count { self.new.count ≡ self.old.count }
        ensures last { self.new.last ≡ self.old.last }
    {
        self.faults = self.faults.saturating_add(1);
        self.fault = Some(fault);
        Failed
    }
}

impl<R: Processes + Clock + Drop, W: Write + Drop> Tty for SttyTty<R, W> {
    ghost use Rattle.std.specs.Prelude.{Some};

    ghost mode = { λ t. Some t.mode };

    ghost entries = { λ t. record { count = t.count; last = t.last } };

    ghost faults = { λ t. t.faults };

    fn enter(&mut self) -> Result<Entered, Failed> {
        match try_enter(&self.rt, self.alloc) {
            Ok((entered, settings, guard)) => {
                self.settings = Some(settings);
                self.guard = guard;
                self.mode = Mode::Raw;
                self.count = self.count.saturating_add(1);
                self.last = Some(copy_of(&entered));
                Ok(entered)
            }
            Err(fault) => Err(self.fail(fault)),
        }
    }

    /// Ends what was drawn and gives the settings back, each also where the other fails. Where both went well the guard is
    /// told so; else it gives the settings back once more. Either way it has ended behind this.
    fn leave(&mut self) -> Result<(), Failed> {
        let ended = self.out.write_all(RESET).is_ok() && self.out.flush().is_ok();
        let given = try_leave(&self.rt, self.alloc, &self.settings).is_ok();
        if let Some(guard) = self.guard.take() {
            let _ = guard.end(ended && given);
        }
        if !ended || !given {
            return Err(self.fail(TtyFault::NotLeft));
        }
        self.mode = Mode::Cooked;
        Ok(())
    }
}

/// Asks the terminal what it has, and starts the guard, which makes it raw last: so where anything fails it stays cooked.
fn try_enter<R: Processes + Clock>(
    rt: &R,
    alloc: Global,
) -> Result<(Entered, String, Option<Guard<R>>), TtyFault> {
    let Ok(moment) = present_moment(rt) else {
        return Err(TtyFault::NoClock);
    };
    let answer = ask(rt, alloc)?;
    let settings = answer.settings;
    let name = answer.name.as_ref().map(|name| name.as_str());
    let guard = make_raw(rt, alloc, settings.as_str(), name)?;
    let entered = Entered {
        size: answer.size,
        moment,
    };
    Ok((entered, settings, guard))
}

/// Gives back the settings that were saved.
fn try_leave<R: Processes>(
    rt: &R,
    alloc: Global,
    settings: &Option<String>,
) -> Result<(), TtyFault> {
    match settings {
        Some(settings) => give_settings(rt, alloc, settings.as_str()),
        None => Ok(()),
    }
}
