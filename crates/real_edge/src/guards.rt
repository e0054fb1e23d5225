//! A process beside the program that gives the terminal its settings back where the program can't.

use crate::shells::{TtyFault, set_raw};
use std::alloc::Global;
use std::io::{Read, Write};
use std::process::{Child, Command, OpenProcess, Processes, Stdio};

/// The words of the guard's shell, of which the settings are the first argument and the terminal's name the second.
///
/// It keeps the terminal open, so that no other comes to have its name, and makes it raw itself, behind its trap, so that
/// nothing makes it raw after the settings were given back. The shell of a program that was killed takes the terminal back,
/// and the guard is then in the background: `TTOU` lets it through. What it reads ends where the program ends, in whatever
/// way. A shell that edits lines of its own gives the terminal settings of its own as soon as the program has ended: so the
/// guard asks a few times, and gives the old ones back where the terminal stays as the guard made it.
const WORDS: &str = concat!(
    "trap '' INT TERM HUP QUIT TSTP TTIN TTOU PIPE; exec 3<> \"$2\"; ",
    "stty raw -echo min 0 time 1 <&3 || exit 1; raw=$(stty -g <&3); echo ready; ",
    "read -r word; [ \"$word\" = left ] && exit 0; ",
    "printf '\\033[0m\\033[?7h\\033[?25h\\033[?2004l' >&2; ",
    "for time in 1 2 3 4; do [ \"$(stty -g <&3)\" = \"$raw\" ] || exit 0; done; ",
    "stty \"$1\" <&3",
);

/// The guard of a terminal that is raw. Dropped without `end`, it gives the settings back by itself.
#[derive(Drop)]
pub(crate) struct Guard<R: Processes> {
    child: Child<R::Started>,
}

impl<R: Processes> Guard<R> {
    /// Starts a guard, which makes the terminal raw. Where the terminal's own name is known the guard is in a session of its
    /// own, where no signal to the program's group reaches it. One that doesn't say that it is ready has ended.
    fn start(
        rt: &R,
        alloc: Global,
        settings: &str,
        name: Option<&str>,
    ) -> Result<Guard<R>, TtyFault> {
        let mut command = Command::new(alloc, if name.is_some() { "setsid" } else { "sh" })?;
        if name.is_some() {
            command.arg("sh")?;
        }
        command.arg("-c")?.arg(WORDS)?.arg("guard")?;
        command.arg(settings)?.arg(name.unwrap_or("/dev/tty"))?;
        command.stdin(Stdio::piped());
        command.stdout(Stdio::piped());
        let mut child = command.spawn(rt)?;
        if is_ready(&mut child) {
            return Ok(Guard { child });
        }
        let _ = child.wait();
        Err(TtyFault::NotRaw)
    }

    /// Waits for the guard's end. Told that the terminal was left it does nothing more, else it gives the settings back.
    pub(crate) fn end(mut self, is_left: bool) -> Result<(), TtyFault> {
        if is_left {
            if let Some(stdin) = &mut self.child.stdin {
                stdin.write_all(b"left\n")?;
            }
        }
        self.child.wait()?;
        Ok(())
    }
}

/// Tells whether a guard says that it made the terminal raw.
fn is_ready<P: OpenProcess>(child: &mut Child<P>) -> bool {
    let mut answer = [0u8; 6];
    match &mut child.stdout {
        Some(stdout) => stdout.read_exact(&mut answer).is_ok(),
        None => false,
    }
}

/// Makes the terminal raw by a guard: one that no signal to the program's group reaches where its name is known, else one
/// in that group. Where no guard can be started the terminal is made raw without one.
pub(crate) fn make_raw<R: Processes>(
    rt: &R,
    alloc: Global,
    settings: &str,
    name: Option<&str>,
) -> Result<Option<Guard<R>>, TtyFault> {
    if name.is_some() {
        if let Ok(guard) = Guard::start(rt, alloc, settings, name) {
            return Ok(Some(guard));
        }
    }
    if let Ok(guard) = Guard::start(rt, alloc, settings, None) {
        return Ok(Some(guard));
    }
    set_raw(rt, alloc)?;
    Ok(None)
}
