//! Lines of a script as what they say.
ghost use Rattle.std.specs.Prelude.{◌≡◌, ◌<◌, ◌==◌, Ok, None, IfOk, length, position};
ghost use Rattle.std.specs.Option.{option_copied};
ghost use Rattle.prompt_settings.specs.Number.{number_of};
ghost use Rattle.prompt_settings.specs.Size.{size_of};
ghost use Rattle.script_lines.specs.ScriptLine.{chars_in, is_piece, parts_line, piece_line, resize_line, said_by};
ghost use Rattle.script_lines.specs.ScriptLine.{script_line, set_line, tick_line, utf8_in};
ghost use Rattle.script_lines.specs.Spelling.{unspelled};

use crate::spelling::read_spelling;
use crate::{Name, ScriptLine};
use prompt_settings::{read_number, read_size};
use std::alloc::Global;
use text_doc::{Bytes, NoMemory, Text};

/// The most bytes of a line, without its line feed.
const MAX_LINE: usize = 300_000;

/// The most bytes of a piece.
const MAX_PIECE: usize = 65_536;

/// The last moment that a line can say.
const MAX_MOMENT: u64 = 1_000_000_000_000_000;

/// Returns what a line says, given without its line feed. There is nothing where it is outside the grammar.
///
/// The grammar has the lines of `ScriptLine`, with one space between their parts and numbers in decimal without
/// leading zeros. A name ends at the next space. Values and pieces are spelled as by `write_spelling`; a value may be
/// empty, and is UTF-8. A line has at most 300,000 bytes; one that has more is refused without a look at it. It is
/// gone through once.
pub fn read_line(alloc: Global, line: &[u8]) -> Result<Option<ScriptLine>, NoMemory>
    ensures said { IfOk result (λ said. said ≡ script_line line.now) }
    ensures past_limit { 300000 < length line.now → result ≡ Ok None }
{
    if line.len() > MAX_LINE {
        return Ok(None);
    }
    let said = read_words(alloc, line)?;
    Ok(said)
}

/// Returns what a line says, however long it is.
fn read_words(alloc: Global, line: &[u8]) -> Result<Option<ScriptLine>, NoMemory>
    ensures { IfOk result (λ said. said ≡ said_by line.now) }
{
    if line == b"show".as_slice() {
        return Ok(Some(ScriptLine::Show));
    }
    if line == b"end".as_slice() {
        return Ok(Some(ScriptLine::End));
    }
    let said = read_parts(alloc, line)?;
    Ok(said)
}

/// Returns what a line says whose first word has parts behind it.
fn read_parts(alloc: Global, line: &[u8]) -> Result<Option<ScriptLine>, NoMemory>
    ensures { IfOk result (λ said. said ≡ parts_line line.now) }
{
    if line.starts_with(b"set ") {
        let said = read_set(alloc, &line[4..])?;
        return Ok(said);
    }
    if line.starts_with(b"piece ") {
        let said = read_piece(alloc, &line[6..])?;
        return Ok(said);
    }
    if line.starts_with(b"resize ") {
        let said = read_resize(alloc, &line[7..])?;
        return Ok(said);
    }
    if line.starts_with(b"tick ") {
        let said = read_tick(alloc, &line[5..])?;
        return Ok(said);
    }
    Ok(None)
}

/// Reads what stands behind `set `: a name, a space and the spelling of a value.
fn read_set(alloc: Global, text: &[u8]) -> Result<Option<ScriptLine>, NoMemory>
    ensures { IfOk result (λ said. said ≡ set_line text.now) }
{
    let Some(at) = first_space(text) else {
        return Ok(None);
    };
    let Some(name) = read_name(alloc, &text[..at])? else {
        return Ok(None);
    };
    let value = read_value(alloc, &text[at + 1..])?;
    Ok(value.map(|value| ScriptLine::Set { name, value }))
}

/// Returns the place of the first space.
fn first_space(text: &[u8]) -> Option<usize>
    ensures { result ≡ position (λ byte. byte == 32) text.now }
{
    text.iter().position(|byte| *byte == b' ')
}

/// Returns the name with these bytes, where they are UTF-8.
fn read_name(alloc: Global, bytes: &[u8]) -> Result<Option<Name>, NoMemory>
    ensures { IfOk result (λ name. name ≡ utf8_in bytes.now) }
{
    let Some(words) = utf8_words(bytes) else {
        return Ok(None);
    };
    let words = String::from_str(alloc, words)?;
    Ok(Some(Name::from_words(words)))
}

/// Returns the words that the bytes are in UTF-8.
fn utf8_words(bytes: &[u8]) -> Option<&str>
    ensures { option_copied result ≡ utf8_in bytes.now }
{
    match str::from_utf8(bytes) {
        Ok(words) => Some(words),
        Err(_) => None,
    }
}

/// Returns the text that is spelled so, where it is UTF-8.
fn read_value(alloc: Global, spelled: &[u8]) -> Result<Option<Text>, NoMemory>
    ensures { IfOk result (λ text. text ≡ chars_in (unspelled spelled.now)) }
{
    match read_spelling(alloc, spelled)? {
        Some(bytes) => read_text(alloc, bytes.as_slice()),
        None => Ok(None),
    }
}

/// Returns the text of these bytes, where they are UTF-8.
fn read_text(alloc: Global, bytes: &[u8]) -> Result<Option<Text>, NoMemory>
    ensures { IfOk result (λ text. text ≡ chars_in (Some bytes.now)) }
{
    let Some(words) = utf8_words(bytes) else {
        return Ok(None);
    };
    let text = Text::read_str(alloc, words)?;
    Ok(Some(text))
}

/// Reads what stands behind `piece `: the spelling of its bytes.
fn read_piece(alloc: Global, spelled: &[u8]) -> Result<Option<ScriptLine>, NoMemory>
    ensures { IfOk result (λ said. said ≡ piece_line (unspelled spelled.now)) }
{
    match read_spelling(alloc, spelled)? {
        Some(bytes) if is_piece(bytes.as_slice()) => Ok(Some(ScriptLine::Piece(Bytes::from_vec(
            bytes,
        )))),
        _ => Ok(None),
    }
}

/// Tells whether there is a byte, and there are not too many for one piece.
fn is_piece(bytes: &[u8]) -> bool
    ensures { result ≡ is_piece bytes.now }
{
    !bytes.is_empty() && bytes.len() <= MAX_PIECE
}

/// Reads what stands behind `resize `: rows, a space and columns.
fn read_resize(alloc: Global, text: &[u8]) -> Result<Option<ScriptLine>, NoMemory>
    ensures { IfOk result (λ said. said ≡ resize_line (size_of 32 text.now)) }
{
    let chars = chars_of(alloc, text)?;
    Ok(read_size(&chars, ' ').map(ScriptLine::Resize))
}

/// Reads what stands behind `tick `: a moment.
fn read_tick(alloc: Global, text: &[u8]) -> Result<Option<ScriptLine>, NoMemory>
    ensures { IfOk result (λ said. said ≡ tick_line (number_of 1000000000000000 text.now)) }
{
    let chars = chars_of(alloc, text)?;
    Ok(read_number(&chars, MAX_MOMENT).map(ScriptLine::Tick))
}

/// Returns the characters whose codes the bytes are.
fn chars_of(alloc: Global, bytes: &[u8]) -> Result<Vec<char>, NoMemory>
    ensures { IfOk result (λ chars. chars.items ≡ bytes.now) }
{
    bytes.iter().map(|byte| char::from(*byte)).collect(alloc)
}
