//! How a run ended, as a number that a program can exit with.

/// The status of a run: one of the numbers below.
pub type Status = u8;

/// All prompts were accepted.
pub const ACCEPTED: Status = 0;

/// A prompt met the end of its input.
pub const END_OF_FILE: Status = 1;

/// The words of the command are none that it knows. Nothing was read or written.
pub const UNKNOWN_WORDS: Status = 2;

/// The source of input failed.
pub const SOURCE_FAULT: Status = 3;

/// What gives the events failed.
pub const INBOX_FAULT: Status = 3;

/// The screen failed.
pub const SCREEN_FAULT: Status = 4;

/// The sink of output failed.
pub const SINK_FAULT: Status = 5;

/// What keeps the history failed.
pub const KEEPER_FAULT: Status = 6;

/// The terminal could not be entered or left.
pub const TTY_FAULT: Status = 7;

/// There was no memory.
pub const NO_MEMORY: Status = 8;

/// A line of the script is outside its grammar.
pub const REFUSED_LINE: Status = 9;

/// A prompt was interrupted.
pub const INTERRUPTED: Status = 130;
