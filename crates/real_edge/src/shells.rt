//! What is asked of the terminal: words of `stty`, run by a shell.

use cell_grid::Size;
use std::alloc::{AllocError, Global};
use std::io;
use std::process::{Command, Processes, Stdio};
use thiserror::Error;

/// Why the terminal could not be entered or left.
#[derive(Clone, Copy, Debug, PartialEq, Eq, Error)]
pub enum TtyFault {
    /// The shell could not be started, or `stty` met no terminal.
    #[error("there is no terminal that stty can ask")]
    NoTerminal,
    /// The size is outside the limits of a screen.
    #[error("its size is not within 1x1 and 500x1000")]
    BadSize,
    /// The terminal was not made raw.
    #[error("stty cannot make it raw")]
    NotRaw,
    /// The settings were not given back, or not all that was drawn could be ended.
    #[error("its settings cannot be given back")]
    NotLeft,
    /// The clock gives no moment.
    #[error("the clock cannot be read")]
    NoClock,
    /// There was no memory.
    #[error("out of memory")]
    NoMemory,
}

impl From<AllocError> for TtyFault {
    fn from(_error: AllocError) -> TtyFault {
        TtyFault::NoMemory
    }
}

impl From<io::Error> for TtyFault {
    fn from(_fault: io::Error) -> TtyFault {
        TtyFault::NoTerminal
    }
}

/// What the terminal said before it was made raw.
#[derive(Drop)]
pub(crate) struct Answer {
    /// Its settings, as `stty` takes them again.
    pub settings: String,
    pub size: Size,
    /// Its name, where it is known and `setsid` can be run.
    pub name: Option<String>,
}

/// The size is given by these words of a shell.
const SIZE: &str = "stty size < /dev/tty";

/// Prints the settings, the size and the name, each on a line. To set what is set already stops a program in the background
/// until it is brought to the front. The name is that of the terminal which controls the shell, by its number in `/proc`; it is
/// told where a terminal of that name has the same settings and `setsid` can be run.
const QUESTION: &str = concat!(
    "settings=$(stty -g < /dev/tty) && stty \"$settings\" < /dev/tty && echo \"$settings\" || exit 1; ",
    "stty size < /dev/tty || exit 1; ",
    "command -v setsid > /dev/null && read -r line < /proc/$$/stat || exit 0; ",
    "set -- ${line##*) }; ",
    "[ $(($5 >> 8)) -eq 136 ] && name=/dev/pts/$(($5 & 255)) || exit 0; ",
    "[ \"$(stty -g < $name)\" = \"$settings\" ] && echo $name; exit 0",
);

/// The terminal is made raw by these words of a shell where no guard does it.
const RAW: &str = "stty raw -echo min 0 time 1 < /dev/tty";

/// Gives the settings back by these words of a shell, of which they are the first argument.
const SETTINGS: &str = "stty \"$1\" < /dev/tty";

/// Runs the words by a shell, and returns what they print where they end well.
fn run_shell<R: Processes>(
    rt: &R,
    alloc: Global,
    words: &str,
    argument: &str,
) -> Result<Vec<u8>, TtyFault> {
    let mut command = Command::new(alloc, "sh")?;
    command.arg("-c")?.arg(words)?.arg("sh")?.arg(argument)?;
    command.stderr(Stdio::null());
    let output = command.output(rt)?;
    if !output.status.success() {
        return Err(TtyFault::NoTerminal);
    }
    Ok(output.stdout)
}

/// Asks the terminal for its settings, its size and its name.
pub(crate) fn ask<R: Processes>(rt: &R, alloc: Global) -> Result<Answer, TtyFault> {
    let printed = run_shell(rt, alloc, QUESTION, "")?;
    let Ok(text) = str::from_utf8(printed.as_slice()) else {
        return Err(TtyFault::NoTerminal);
    };
    read_answer(alloc, text)
}

/// Reads the three lines of the answer, of which the last may be missing.
fn read_answer(alloc: Global, text: &str) -> Result<Answer, TtyFault> {
    let Some((settings, rest)) = text.split_once('\n') else {
        return Err(TtyFault::NoTerminal);
    };
    let Some((size, name)) = rest.split_once('\n') else {
        return Err(TtyFault::NoTerminal);
    };
    let Some(size) = read_size(size) else {
        return Err(TtyFault::BadSize);
    };
    let name = name.trim();
    let name = if name.is_empty() {
        None
    } else {
        Some(String::from_str(alloc, name)?)
    };
    Ok(Answer {
        settings: String::from_str(alloc, settings.trim())?,
        size,
        name,
    })
}

/// Asks the terminal for its size.
pub(crate) fn ask_size<R: Processes>(rt: &R, alloc: Global) -> Result<Size, TtyFault> {
    let printed = run_shell(rt, alloc, SIZE, "")?;
    let Ok(text) = str::from_utf8(printed.as_slice()) else {
        return Err(TtyFault::NoTerminal);
    };
    read_size(text.trim()).ok_or(TtyFault::BadSize)
}

/// Reads the rows and the columns. A terminal that knows neither has 24 and 80.
fn read_size(text: &str) -> Option<Size> {
    let (rows, cols) = text.split_once(' ')?;
    let rows = rows.parse::<u32>().ok()?;
    let cols = cols.parse::<u32>().ok()?;
    if rows == 0 && cols == 0 {
        return Size::new(24, 80);
    }
    Size::new(rows, cols)
}

/// Makes the terminal raw, so that each byte that is typed comes at once, and a read waits a tenth of a second for one.
pub(crate) fn set_raw<R: Processes>(rt: &R, alloc: Global) -> Result<(), TtyFault> {
    match run_shell(rt, alloc, RAW, "") {
        Ok(_) => Ok(()),
        Err(TtyFault::NoMemory) => Err(TtyFault::NoMemory),
        Err(_) => Err(TtyFault::NotRaw),
    }
}

/// Gives the terminal these settings.
pub(crate) fn give_settings<R: Processes>(
    rt: &R,
    alloc: Global,
    settings: &str,
) -> Result<(), TtyFault> {
    run_shell(rt, alloc, SETTINGS, settings)?;
    Ok(())
}
