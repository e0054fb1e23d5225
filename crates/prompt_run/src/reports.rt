//! The printed text of a terminal's screen.
ghost use Rattle.std.specs.Prelude.{◌≡◌, ◌+◌, ◌≤◌, ◌<◌, ◌++◌, length, take, drop, flat_map, map, IfOk, OnOk};
ghost use Rattle.prompt_run.specs.Report.{text_of, without_last, trimmed, has_no_text, reported, report_row, heading, row_texts, report_of};

use cell_grid::{Cell, Size};
use std::alloc::Global;
use term_model::Terminal;
use text_doc::{Lines, NoMemory, Text};

/// Returns the characters of a row without the spaces at its end.
pub fn row_text(alloc: Global, cells: &[Cell]) -> Result<Text, NoMemory>
    ensures text { IfOk result (λ text. text ≡ trimmed (text_of cells.now)) }
{
    let mut chars = row_chars(alloc, cells)?;
    let end = text_end(chars.as_slice());
    chars.truncate(end);
    Ok(Text::from_vec(chars))
}

/// Returns the characters of a row from left to right.
fn row_chars(alloc: Global, cells: &[Cell]) -> Result<Vec<char>, NoMemory>
    ensures chars { IfOk result (λ chars. chars.items ≡ text_of cells.now) }
{
    let mut chars = Vec::new(alloc);
    for cell in cells {
        if let Cell::Lead { text, .. } = cell {
            chars.extend_from_slice(text.as_slice())?;
        }
    }
    Ok(chars)
}

/// Returns the place behind the last character that is no space.
fn text_end(chars: &[char]) -> usize
    ensures end { take result chars.now ≡ trimmed chars.now }
{
    let mut end = 0;
    for (at, c) in chars.iter().enumerate() {
        if *c == ' ' {
            continue;
        }
        end = at + 1;
    }
    end
}

/// Puts the report of a terminal's screen behind what was written.
pub fn write_screen(out: &mut Vec<u8>, terminal: &Terminal) -> Result<(), NoMemory>
    ensures report { OnOk result (out.new.items ≡ out.old.items ++ report_of terminal.now) }
{
    let texts = visible_texts(*out.allocator(), terminal)?;
    write_report(out, terminal.size(), terminal.cursor(), &texts)?;
    Ok(())
}

/// Returns the texts of the rows that are visible.
fn visible_texts(alloc: Global, terminal: &Terminal) -> Result<Lines, NoMemory>
    ensures texts { IfOk result (λ texts. texts
        ≡ row_texts (drop terminal.now.top terminal.now.lines)) }
{
    let mut texts = Lines::new(alloc);
    for at in terminal.top()..terminal.lines() {
        let text = row_text(alloc, terminal.line(at).as_slice())?;
        texts.push(text)?;
    }
    Ok(texts)
}

/// Puts the report of a screen behind what was written: its size, the cursor's row and column, and the texts of its rows
/// down to the later of the cursor's row and the last row with text.
pub fn write_report(
    out: &mut Vec<u8>,
    size: Size,
    cursor: (u32, u32),
    texts: &Lines,
) -> Result<(), NoMemory>
    ensures report { OnOk result (out.new.items
        ≡ out.old.items
        ++ (heading size.rows size.cols cursor.0 cursor.1
        ++ flat_map report_row (reported cursor.0 texts.now))) }
{
    write_heading(out, size, cursor)?;
    write_rows(out, shown_rows(texts.as_slice(), cursor.0))?;
    Ok(())
}

/// Puts the first line of a report behind what was written.
fn write_heading(out: &mut Vec<u8>, size: Size, cursor: (u32, u32)) -> Result<(), NoMemory>
    ensures heading { OnOk result (out.new.items ≡ out.old.items
        ++ heading size.rows size.cols cursor.0 cursor.1) }
{
    let alloc = *out.allocator();
    let (rows, cols) = (size.rows(), size.cols());
    let (row, col) = cursor;
    let heading = format!(in alloc; "screen {rows} {cols} {row} {col}\n")?;
    out.extend_from_slice(heading.as_bytes())?;
    Ok(())
}

/// Returns the rows down to the later of the cursor's row and the last row with text.
fn shown_rows(texts: &[Text], row: u32) -> &[Text]
    ensures shown { result.now ≡ reported row texts.now }
{
    let first = row as usize + 1;
    if first >= texts.len() {
        return texts;
    }
    let (_, below) = texts.split_at(first);
    let (shown, _) = texts.split_at(first + rows_end(below));
    shown
}

/// Returns the place behind the last text that is not empty.
fn rows_end(texts: &[Text]) -> usize
    ensures end { take result texts.now ≡ without_last has_no_text texts.now }
    ensures within { result ≤ length texts.now }
{
    let mut end = 0;
    for (at, text) in texts.iter().enumerate() {
        if text.is_empty() {
            continue;
        }
        end = at + 1;
    }
    end
}

/// Puts the rows of a report behind what was written.
fn write_rows(out: &mut Vec<u8>, texts: &[Text]) -> Result<(), NoMemory>
    ensures rows { OnOk result (out.new.items ≡ out.old.items ++ flat_map report_row texts.now) }
{
    for text in texts {
        write_row(out, text)?;
    }
    Ok(())
}

/// Puts a row of a report behind what was written.
fn write_row(out: &mut Vec<u8>, text: &Text) -> Result<(), NoMemory>
    ensures row { OnOk result (out.new.items ≡ out.old.items ++ report_row text.now) }
{
    let bytes = text.to_utf8()?;
    out.push(b'|')?;
    out.extend_from_slice(bytes.as_slice())?;
    out.push(b'\n')?;
    Ok(())
}
