//! The table of known sequences.
ghost use Rattle.std.specs.Prelude.{◌≡◌, true, map, IfOk};
ghost use Rattle.vt_input.specs.Sequences.{is_sorted};
ghost use Rattle.vt_input.specs.Known.{row_of};
ghost use Rattle.vt_input.specs.StandardRows.{standard_rows};

use crate::row::SeqRow;
use key_names::{Key, text_of_codes};
use std::alloc::{AllocError, Global};
use std::marker::Model;

/// N sequences of characters with their keys, in the order of their characters, none of them twice. Each begins with a
/// control character.
#[derive(Debug, Drop)]
pub struct SeqTable<const N: usize> {
    rows: Vec<SeqRow>,
}

impl<const N: usize> Model for SeqTable<N> {
    ghost use Rattle.std.specs.Prelude.{List};
    ghost use Rattle.vt_input.specs.declared.row.SeqRow.{SeqRow};
    ghost use Rattle.vt_input.specs.Sequences.{IsTable};

    ghost Value = { List SeqRow };

    ghost view = { λ table. table.rows.items };

    ghost invariant = { λ table. IsTable N table.rows.items };
}

impl<const N: usize> SeqTable<N> {
    ghost use Rattle.std.specs.Prelude.{◌≡◌};
    ghost use Rattle.vt_input.specs.Sequences.{IsTable};

    /// Returns the sequences.
    pub fn rows(&self) -> &[SeqRow]
        ensures value { result.now ≡ self.now }
        ensures table { IsTable N self.now }
    {
        self.rows.as_slice()
    }
}

/// A row of the standard table.
struct Known {
    text: &'static [u8],
    key: Key,
}

/// The sequences of xterm's keyboard.
const KNOWN: [Known; 75] = [
    Known {
        text: b"\x00",
        key: Key::Control('@'),
    },
    Known {
        text: b"\x01",
        key: Key::Control('a'),
    },
    Known {
        text: b"\x02",
        key: Key::Control('b'),
    },
    Known {
        text: b"\x03",
        key: Key::Control('c'),
    },
    Known {
        text: b"\x04",
        key: Key::Control('d'),
    },
    Known {
        text: b"\x05",
        key: Key::Control('e'),
    },
    Known {
        text: b"\x06",
        key: Key::Control('f'),
    },
    Known {
        text: b"\x07",
        key: Key::Control('g'),
    },
    Known {
        text: b"\x08",
        key: Key::Control('h'),
    },
    Known {
        text: b"\x09",
        key: Key::Control('i'),
    },
    Known {
        text: b"\x0A",
        key: Key::Control('j'),
    },
    Known {
        text: b"\x0B",
        key: Key::Control('k'),
    },
    Known {
        text: b"\x0C",
        key: Key::Control('l'),
    },
    Known {
        text: b"\x0D",
        key: Key::Control('m'),
    },
    Known {
        text: b"\x0E",
        key: Key::Control('n'),
    },
    Known {
        text: b"\x0F",
        key: Key::Control('o'),
    },
    Known {
        text: b"\x10",
        key: Key::Control('p'),
    },
    Known {
        text: b"\x11",
        key: Key::Control('q'),
    },
    Known {
        text: b"\x12",
        key: Key::Control('r'),
    },
    Known {
        text: b"\x13",
        key: Key::Control('s'),
    },
    Known {
        text: b"\x14",
        key: Key::Control('t'),
    },
    Known {
        text: b"\x15",
        key: Key::Control('u'),
    },
    Known {
        text: b"\x16",
        key: Key::Control('v'),
    },
    Known {
        text: b"\x17",
        key: Key::Control('w'),
    },
    Known {
        text: b"\x18",
        key: Key::Control('x'),
    },
    Known {
        text: b"\x19",
        key: Key::Control('y'),
    },
    Known {
        text: b"\x1A",
        key: Key::Control('z'),
    },
    Known {
        text: b"\x1B",
        key: Key::Escape,
    },
    Known {
        text: b"\x1BOA",
        key: Key::Up,
    },
    Known {
        text: b"\x1BOB",
        key: Key::Down,
    },
    Known {
        text: b"\x1BOC",
        key: Key::Right,
    },
    Known {
        text: b"\x1BOD",
        key: Key::Left,
    },
    Known {
        text: b"\x1BOF",
        key: Key::End,
    },
    Known {
        text: b"\x1BOH",
        key: Key::Home,
    },
    Known {
        text: b"\x1BOP",
        key: Key::Function(1),
    },
    Known {
        text: b"\x1BOQ",
        key: Key::Function(2),
    },
    Known {
        text: b"\x1BOR",
        key: Key::Function(3),
    },
    Known {
        text: b"\x1BOS",
        key: Key::Function(4),
    },
    Known {
        text: b"\x1B[15~",
        key: Key::Function(5),
    },
    Known {
        text: b"\x1B[17~",
        key: Key::Function(6),
    },
    Known {
        text: b"\x1B[18~",
        key: Key::Function(7),
    },
    Known {
        text: b"\x1B[19~",
        key: Key::Function(8),
    },
    Known {
        text: b"\x1B[1;2A",
        key: Key::ShiftUp,
    },
    Known {
        text: b"\x1B[1;2B",
        key: Key::ShiftDown,
    },
    Known {
        text: b"\x1B[1;2C",
        key: Key::ShiftRight,
    },
    Known {
        text: b"\x1B[1;2D",
        key: Key::ShiftLeft,
    },
    Known {
        text: b"\x1B[1;5A",
        key: Key::ControlUp,
    },
    Known {
        text: b"\x1B[1;5B",
        key: Key::ControlDown,
    },
    Known {
        text: b"\x1B[1;5C",
        key: Key::ControlRight,
    },
    Known {
        text: b"\x1B[1;5D",
        key: Key::ControlLeft,
    },
    Known {
        text: b"\x1B[1~",
        key: Key::Home,
    },
    Known {
        text: b"\x1B[200~",
        key: Key::Paste,
    },
    Known {
        text: b"\x1B[20~",
        key: Key::Function(9),
    },
    Known {
        text: b"\x1B[21~",
        key: Key::Function(10),
    },
    Known {
        text: b"\x1B[23~",
        key: Key::Function(11),
    },
    Known {
        text: b"\x1B[24~",
        key: Key::Function(12),
    },
    Known {
        text: b"\x1B[2~",
        key: Key::Insert,
    },
    Known {
        text: b"\x1B[3~",
        key: Key::Delete,
    },
    Known {
        text: b"\x1B[4~",
        key: Key::End,
    },
    Known {
        text: b"\x1B[5~",
        key: Key::PageUp,
    },
    Known {
        text: b"\x1B[6~",
        key: Key::PageDown,
    },
    Known {
        text: b"\x1B[7~",
        key: Key::Home,
    },
    Known {
        text: b"\x1B[8~",
        key: Key::End,
    },
    Known {
        text: b"\x1B[A",
        key: Key::Up,
    },
    Known {
        text: b"\x1B[B",
        key: Key::Down,
    },
    Known {
        text: b"\x1B[C",
        key: Key::Right,
    },
    Known {
        text: b"\x1B[D",
        key: Key::Left,
    },
    Known {
        text: b"\x1B[F",
        key: Key::End,
    },
    Known {
        text: b"\x1B[H",
        key: Key::Home,
    },
    Known {
        text: b"\x1B[Z",
        key: Key::BackTab,
    },
    Known {
        text: b"\x1C",
        key: Key::Control('\\'),
    },
    Known {
        text: b"\x1D",
        key: Key::Control(']'),
    },
    Known {
        text: b"\x1E",
        key: Key::Control('^'),
    },
    Known {
        text: b"\x1F",
        key: Key::Control('_'),
    },
    Known {
        text: b"\x7F",
        key: Key::Control('h'),
    },
];

/// Returns the table of xterm's sequences, of 75 rows.
pub fn standard_table(alloc: Global) -> Result<SeqTable<75>, AllocError>
    ensures rows { IfOk result (λ table. table ≡ standard_rows) }
    ensures sorted { IfOk result (λ table. is_sorted table ≡ true) }
{
    let rows = rows_of(alloc, &KNOWN)?;
    Ok(SeqTable { rows })
}

/// Returns the rows of these sequences.
fn rows_of(alloc: Global, known: &[Known]) -> Result<Vec<SeqRow>, AllocError>
    ensures { IfOk result (λ rows. rows.items ≡ map row_of known.now) }
{
    let mut rows = Vec::new(alloc);
    for entry in known {
        let text = text_of_codes(alloc, entry.text)?;
        rows.push(SeqRow {
            text,
            key: entry.key,
        })?;
    }
    Ok(rows)
}
