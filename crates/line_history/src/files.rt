//! The entries of a history file.
ghost use Rattle.std.specs.Prelude.{◌≡◌, IfOk};
ghost use Rattle.line_history.specs.History.{entries_of};

use crate::progress::Reader;
use std::alloc::Global;
use text_doc::{Lines, NoMemory, cut_line};

/// Returns the entries of a history file, from the oldest on.
///
/// Any bytes are such a file. Lines that begin with `+` and follow each other are one entry, whatever stands between
/// entries. Bytes that are no UTF-8 read as U+FFFD, one for each maximal part. An entry of more than
/// `text_doc::MAX_LENGTH` characters is passed over. The bytes are gone through once.
pub fn read_entries(alloc: Global, bytes: &[u8]) -> Result<Lines, NoMemory>
    ensures { IfOk result (λ entries. entries ≡ entries_of bytes.now) }
{
    let mut reader = Reader::new(alloc);
    let mut left = bytes;
    while let Some((line, rest)) = cut_line(left) {
        reader.take_line(line)?;
        left = rest;
    }
    reader.take_line(left)?;
    reader.finish()
}
