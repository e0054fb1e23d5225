//! What `--help` and `--version` print.

use crate::options::OPTIONS;
use std::io;
use std::io::Write;

/// The name and the version of the program.
const VERSION: &str = "prompt 0.1.0 (Gelmuqan)\n";

const USAGE: &str = "usage: prompt [--name value]...

Asks for lines on the terminal. Draws on standard error, and puts the accepted
lines on standard output, so that a shell can say  line=$(prompt).

options, each at most once:
";

const REST: &str = "  --help             print this, and end
  --version          print the version, and end

keys:
  return             accepts the line
  ctrl-c             interrupts
  ctrl-d             in an empty line: ends the input
  up, down           go through the history; ctrl-r searches in it
  ctrl-k, ctrl-w     kill to the end of the row, a word; ctrl-y yanks
  ctrl-_             undoes
  and the other keys of Emacs

status:
  0    all lines were accepted
  1    the input ended
  2    the words of the command are none that it knows
  3    standard input cannot be read
  4    standard error cannot be drawn on
  5    standard output cannot be written to
  6    the history file cannot be read or written
  7    the terminal cannot be made raw, or its settings cannot be given back
  8    out of memory
  130  interrupted
";

/// Writes all that a user has to know: options, keys and statuses.
pub fn write_help<W: Write>(out: &mut W) -> io::Result<()> {
    write!(out, "{USAGE}")?;
    for option in &OPTIONS {
        let name = option.name;
        let value = option.value;
        let purpose = option.purpose;
        let gap = 16usize.saturating_sub(name.len().saturating_add(value.len()));
        write!(out, "  --{name} {value}{:gap$}{purpose}\n", "")?;
    }
    write!(out, "{REST}")
}

/// Writes the name and the version of the program.
pub fn write_version<W: Write>(out: &mut W) -> io::Result<()> {
    write!(out, "{VERSION}")
}
