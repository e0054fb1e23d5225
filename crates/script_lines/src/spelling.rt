//! The spelling of bytes: printable ASCII stands for itself, `\` is `\\`, all else is `\x` and two digits of `0-9a-f`.
ghost use Rattle.std.specs.Prelude.{◌≡◌, ◌<◌, ◌++◌, IfOk, OnOk, IfSome, option_map};
ghost use Rattle.script_lines.specs.Spelling.{is_plain, digit_value, hex_byte, hex_digit, spelled, spelling, step_of};
ghost use Rattle.script_lines.specs.Spelling.{unspelled};

use std::alloc::Global;
use text_doc::NoMemory;

/// How the next character of a spelling is read.
#[derive(Clone, Copy, Debug)]
pub enum Reading {
    /// A new byte begins.
    Plain,
    /// Behind a `\`.
    Escape,
    /// Behind `\x`.
    High,
    /// Behind `\x` and this character.
    Low(u8),
}

/// What a character of a spelling leads to.
#[derive(Clone, Copy, Debug)]
enum Step {
    /// The byte is complete.
    Whole(u8),
    /// The byte goes on.
    Onward(Reading),
    /// No spelling has the character here.
    Refused,
}

/// Returns the bytes that a text spells, or `None` where it is no spelling: each byte has exactly one.
pub fn read_spelling(alloc: Global, text: &[u8]) -> Result<Option<Vec<u8>>, NoMemory>
    ensures bytes { IfOk result (λ bytes. option_map (λ b. b.items) bytes ≡ unspelled text.now) }
{
    let mut bytes = Vec::new(alloc);
    let mut reading = Reading::Plain;
    for c in text {
        match read_char(reading, *c) {
            Step::Whole(byte) => {
                bytes.push(byte)?;
                reading = Reading::Plain;
            }
            Step::Onward(next) => reading = next,
            Step::Refused => return Ok(None),
        }
    }
    match reading {
        Reading::Plain => Ok(Some(bytes)),
        _ => Ok(None),
    }
}

/// Reads one character.
fn read_char(reading: Reading, c: u8) -> Step
    ensures { result ≡ step_of reading c }
{
    match reading {
        Reading::Plain => match c {
            b'\\' => Step::Onward(Reading::Escape),
            byte if stands_for_itself(byte) => Step::Whole(byte),
            _ => Step::Refused,
        },
        Reading::Escape => match c {
            b'\\' => Step::Whole(b'\\'),
            b'x' => Step::Onward(Reading::High),
            _ => Step::Refused,
        },
        Reading::High => Step::Onward(Reading::Low(c)),
        Reading::Low(high) => match byte_of_digits(high, c) {
            Some(byte) => Step::Whole(byte),
            None => Step::Refused,
        },
    }
}

/// Tells whether the byte stands for itself.
fn stands_for_itself(byte: u8) -> bool
    ensures { result ≡ is_plain byte }
{
    matches!(byte, b' '..=b'~') && byte != b'\\'
}

/// Returns the value of a digit of `0-9a-f`.
fn value_of_digit(digit: u8) -> Option<u8>
    ensures value { result ≡ digit_value digit }
    ensures small { IfSome result (λ value. value < 16) }
{
    match digit {
        b'0'..=b'9' => Some(digit - b'0'),
        b'a'..=b'f' => Some(digit - b'a' + 10),
        _ => None,
    }
}

/// Returns the byte of two digits, where both are digits and it has no shorter spelling.
fn byte_of_digits(high: u8, low: u8) -> Option<u8>
    ensures { result ≡ hex_byte (digit_value high) (digit_value low) }
{
    let high = value_of_digit(high)?;
    let low = value_of_digit(low)?;
    let byte = high * 16 + low;
    if stands_for_itself(byte) || byte == b'\\' {
        return None;
    }
    Some(byte)
}

/// Puts the spelling of the bytes behind what was written.
pub fn write_spelling(out: &mut Vec<u8>, bytes: &[u8]) -> Result<(), NoMemory>
    ensures ok { OnOk result (out.new.items ≡ out.old.items ++ spelling bytes.now) }
{
    for byte in bytes {
        push_byte(out, *byte)?;
    }
    Ok(())
}

/// Puts the spelling of the byte behind what was written.
fn push_byte(out: &mut Vec<u8>, byte: u8) -> Result<(), NoMemory>
    ensures ok { OnOk result (out.new.items ≡ out.old.items ++ spelled byte) }
{
    if stands_for_itself(byte) {
        out.push(byte)?;
        return Ok(());
    }
    if byte == b'\\' {
        out.extend_from_slice(b"\\\\")?;
        return Ok(());
    }
    out.extend_from_slice(&[b'\\', b'x', digit_of(byte / 16), digit_of(byte % 16)])?;
    Ok(())
}

/// Returns the digit of a number below 16.
fn digit_of(value: u8) -> u8
    requires { value < 16 }
    ensures { result ≡ hex_digit value }
{
    if value < 10 {
        b'0' + value
    } else {
        b'a' + (value - 10)
    }
}
