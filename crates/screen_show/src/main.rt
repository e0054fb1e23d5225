//! Obeys bytes by the model of a terminal, and prints its screen: so that what was written to a real terminal can be compared.
#![tactic(auto)]

ghost use Rattle.std.specs.Prelude.{◌≤◌, IfSome};

use cell_grid::Size;
use prompt_run::write_screen;
use prompt_settings::read_size;
use std::alloc::Global;
use std::io::{Read, Write};
use std::process::ExitCode;
use std::rt::Env;
use std::{env, io};
use term_model::Terminal;
use text_doc::{NoMemory, Text};

const USAGE: &str = "usage: screen_show SIZE [COUNT SIZE]... < BYTES";

/// Prints the screen of a terminal of the first size that obeys the standard input. Behind so many bytes it takes the next size.
fn main(rt: HostRuntime) -> ExitCode {
    match show(&rt, &mut rt.stdin(), &mut rt.stdout()) {
        Ok(true) => ExitCode::SUCCESS,
        Ok(false) => {
            let _ = eprintln!(rt; "{USAGE}");
            ExitCode::from(2)
        }
        Err(fault) => {
            let _ = eprintln!(rt; "screen_show: {fault}");
            ExitCode::FAILURE
        }
    }
}

/// Prints the screen, and tells whether the words are those of the command.
fn show<R: Env + AllocGlobal, I: Read, O: Write>(
    rt: &R,
    input: &mut I,
    out: &mut O,
) -> io::Result<bool> {
    let mut words = Vec::new(rt.alloc());
    for word in env::args(rt)?.skip(1) {
        words.push(word)?;
    }
    let mut bytes = Vec::new(rt.alloc());
    input.read_to_end(&mut bytes)?;
    match report(rt.alloc(), words.as_slice(), bytes.as_slice())? {
        Some(printed) => {
            out.write_all(printed.as_slice())?;
            Ok(true)
        }
        None => Ok(false),
    }
}

/// Returns the report of the screen. `None` where the words are not those of the command.
fn report(alloc: Global, words: &[String], bytes: &[u8]) -> Result<Option<Vec<u8>>, NoMemory> {
    let Some((first, changes)) = words.split_first() else {
        return Ok(None);
    };
    let Some(size) = size_of(alloc, first.as_str())? else {
        return Ok(None);
    };
    let mut terminal = Terminal::start(alloc, size)?;
    let mut rest = bytes;
    for change in changes.chunks(2) {
        let [count, size] = change else {
            return Ok(None);
        };
        let Some(count) = count_of(count.as_str(), rest.len()) else {
            return Ok(None);
        };
        let Some(size) = size_of(alloc, size.as_str())? else {
            return Ok(None);
        };
        let (front, behind) = rest.split_at(count);
        terminal.obey(front)?;
        terminal.resize(size)?;
        rest = behind;
    }
    terminal.obey(rest)?;
    let mut printed = Vec::new(alloc);
    write_screen(&mut printed, &terminal)?;
    Ok(Some(printed))
}

/// Returns the number that is written, where it is at most the other.
fn count_of(word: &str, most: usize) -> Option<usize>
    ensures { IfSome result (λ count. count ≤ most) }
{
    let count = word.parse::<usize>().ok()?;
    if count > most {
        return None;
    }
    Some(count)
}

/// Returns the size that is written as rows, `x` and columns.
fn size_of(alloc: Global, word: &str) -> Result<Option<Size>, NoMemory> {
    let text = Text::read_str(alloc, word)?;
    Ok(read_size(text.as_slice(), 'x'))
}
