//! The cells that a line of text is drawn with.
ghost use Rattle.std.specs.Prelude.{◌≡◌, ◌<◌, ◌≤◌, ◌++◌, IfOk, IsTrue, OnOk, false, is_none, length, map, true, unwrap_or};
ghost use Rattle.unicode_width.specs.Width.{char_width};
ghost use Rattle.cell_grid.specs.Cell.{IsLead, narrow};
ghost use Rattle.cell_grid.specs.TextCells.{cells_of, hex_digit, is_control, lead_of, spelled, with_char, with_next};

use crate::{Attrs, Cell, CellRow, CellText, Fragment, NoMemory};
use std::alloc::Global;
use unicode_width::UnicodeWidthChar;

/// Returns the cells of one line that is drawn from these fragments, one behind the other. A control
/// character is spelled out, a no-break space is a space, and a character of no width joins the cell before it.
pub fn cells_of(alloc: Global, fragments: &[Fragment]) -> Result<CellRow, NoMemory>
    ensures { IfOk result (λ row. row ≡ cells_of fragments.now) }
{
    let mut row = CellRow::new(alloc);
    for fragment in fragments {
        row.push_chars(fragment.text.as_slice(), fragment.attrs, fragment.control)?;
    }
    Ok(row)
}

impl CellRow {
    ghost use Rattle.std.specs.Prelude.{◌≡◌, OnOk};
    ghost use Rattle.cell_grid.specs.TextCells.{with_chars};

    /// Adds the cells of these characters behind the others. A control character is spelled out
    /// with the attributes `control`, and a character of no width joins the last Lead. Without
    /// memory for all of them the row may have some.
    pub fn push_chars(
        &mut self,
        chars: &[char],
        attrs: Attrs,
        control: Attrs,
    ) -> Result<(), NoMemory>
        ensures { OnOk result (self.new ≡ with_chars attrs control self.old chars.now) }
    {
        for c in chars {
            push_next(self, *c, attrs, control)?;
        }
        Ok(())
    }
}

fn push_next(row: &mut CellRow, c: char, attrs: Attrs, control: Attrs) -> Result<(), NoMemory>
    ensures { OnOk result (row.new ≡ with_next attrs control row.old c) }
{
    if is_control(c) {
        push_spelled(row, c, control)?;
    } else {
        push_char(row, c, c.width().unwrap_or(0), attrs)?;
    }
    Ok(())
}

/// Tells whether a character is one of Unicode's control characters, which alone have no width.
fn is_control(c: char) -> bool
    ensures value { result ≡ is_control c }
    ensures no_width { result ≡ is_none (char_width false c) }
{
    c < ' ' || (c >= '\u{7f}' && c < '\u{a0}')
}

fn push_spelled(row: &mut CellRow, c: char, attrs: Attrs) -> Result<(), NoMemory>
    requires { IsTrue (is_control c) }
    ensures { OnOk result (row.new ≡ row.old ++ map (λ piece. narrow piece attrs) (spelled c)) }
{
    let code = c as u32;
    if code < 32 {
        row.push(Cell::narrow('^', attrs))?;
        row.push(Cell::narrow(char::from(64 + code as u8), attrs))?;
    } else if code == 127 {
        row.push(Cell::narrow('^', attrs))?;
        row.push(Cell::narrow('?', attrs))?;
    } else {
        row.push(Cell::narrow('<', attrs))?;
        row.push(Cell::narrow(hex_digit(code as u8 / 16), attrs))?;
        row.push(Cell::narrow(hex_digit(code as u8 % 16), attrs))?;
        row.push(Cell::narrow('>', attrs))?;
    }
    Ok(())
}

fn hex_digit(n: u8) -> char
    requires { n < 16 }
    ensures { result ≡ hex_digit n }
{
    if n < 10 {
        char::from(b'0' + n)
    } else {
        char::from(b'a' - 10 + n)
    }
}

fn push_char(row: &mut CellRow, c: char, width: usize, attrs: Attrs) -> Result<(), NoMemory>
    ensures { OnOk result (row.new ≡ with_char row.old c width attrs) }
{
    if c == '\u{a0}' {
        row.push(Cell::narrow(' ', attrs))?;
    } else if width == 0 {
        row.join_last(c);
    } else {
        row.push(lead_of(c, width, attrs))?;
    }
    Ok(())
}

fn lead_of(c: char, width: usize, attrs: Attrs) -> Cell
    requires { 1 ≤ width }
    ensures value { result ≡ lead_of c width attrs }
    ensures lead { IsLead result }
{
    if width > 2 {
        return Cell::narrow(char::REPLACEMENT_CHARACTER, attrs);
    }
    Cell::Lead {
        text: CellText::new(c),
        width: width as u8,
        attrs,
    }
}
