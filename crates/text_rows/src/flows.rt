//! Characters that flow onto rows, counted without their cells.
ghost use Rattle.std.specs.Prelude.{◌≡◌, ◌≤◌, length};
ghost use Rattle.text_rows.specs.Flows.{char_columns};

use cell_grid::Cell;
use unicode_width::UnicodeWidthChar;

/// Rows that began, and the room that is left in the last of them.
#[derive(Clone, Copy, Debug)]
pub struct Flow {
    pub rows: usize,
    pub room: u32,
}

impl Flow {
    ghost use Rattle.std.specs.Prelude.{◌≡◌, ◌+◌, ◌*◌, ◌<◌, ◌≤◌, ◌^◌, [], ◌∷◌, flat_map, length};
    ghost use Rattle.text_rows.specs.Flows.{begun, begun_by, char_columns, columns_in, room_after, room_behind};

    /// Returns the beginning of the first row.
    pub fn new(width: u32) -> Flow
        ensures { result ≡ record { rows = 0; room = width } }
    {
        Flow {
            rows: 0,
            room: width,
        }
    }

    /// Puts a character of so many columns on the row, or on a new one.
    pub fn put(&mut self, columns: u32, width: u32)
        requires few { self.old.rows < 2 ^ 63 }
        ensures rows { self.new.rows ≡ self.old.rows + begun width self.old.room (columns ∷ []) }
        ensures room { self.new.room ≡ room_behind width self.old.room (columns ∷ []) }
    {
        let taken = columns.min(width);
        if taken <= self.room {
            self.room -= taken;
        } else {
            self.rows += 1;
            self.room = width - taken;
        }
    }

    /// Puts characters of these columns.
    pub fn put_all(&mut self, columns: &[u32], width: u32)
        requires few { self.old.rows + length columns.now < 2 ^ 63 }
        ensures rows { self.new.rows ≡ self.old.rows + begun width self.old.room columns.now }
        ensures room { self.new.room ≡ room_behind width self.old.room columns.now }
        ensures few { self.new.rows ≤ self.old.rows + length columns.now }
    {
        for one in columns {
            self.put(*one, width);
        }
    }

    /// Puts characters that stand behind a text, where a line feed is spelled as other control characters are.
    pub fn put_spelled(&mut self, chars: &[char], width: u32)
        requires few { self.old.rows + 4 * length chars.now < 2 ^ 62 }
        ensures rows { self.new.rows ≡ self.old.rows + begun width self.old.room (flat_map char_columns chars.now) }
        ensures room { self.new.room ≡ room_behind width self.old.room (flat_map char_columns chars.now) }
        ensures few { self.new.rows ≤ self.old.rows + 4 * length chars.now }
    {
        for c in chars {
            self.put_all(char_columns(*c), width);
        }
    }

    /// Puts the characters of these cells.
    pub fn put_cells(&mut self, cells: &[Cell], width: u32)
        requires few { self.old.rows + length cells.now < 2 ^ 63 }
        ensures rows { self.new.rows ≡ self.old.rows + begun width self.old.room (columns_in cells.now) }
        ensures room { self.new.room ≡ room_behind width self.old.room (columns_in cells.now) }
    {
        for cell in cells {
            if let Cell::Lead { width: columns, .. } = cell {
                self.put(u32::from(*columns), width);
            }
        }
    }

    /// Puts a character of the text. A line feed puts the blank at the end of its line, and then what stands before the
    /// next line.
    pub fn put_char(&mut self, c: char, under: Flow, width: u32)
        requires few { self.old.rows + under.rows < 2 ^ 62 }
        ensures rows { self.new.rows ≡ self.old.rows + begun_by width under self.old.room c }
        ensures room { self.new.room ≡ room_after width under self.old.room c }
    {
        if c == '\n' {
            self.put(1, width);
            self.rows += under.rows + 1;
            self.room = under.room;
        } else {
            self.put_all(char_columns(c), width);
        }
    }
}

/// Returns the columns of the characters that one character is drawn with.
pub fn char_columns(c: char) -> &'static [u32]
    ensures columns { result.now ≡ char_columns c }
    ensures few { length result.now ≤ 4 }
{
    if c < ' ' || c == '\u{7f}' {
        return &[1, 1];
    }
    if c > '\u{7f}' && c < '\u{a0}' {
        return &[1, 1, 1, 1];
    }
    if c == '\u{a0}' {
        return &[1];
    }
    match c.width().unwrap_or(0) {
        0 => &[],
        2 => &[2],
        _ => &[1],
    }
}
