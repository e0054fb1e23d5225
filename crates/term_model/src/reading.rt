//! Bytes read as controls and as characters to print.
ghost use Rattle.std.specs.Prelude.{◌≡◌, ◌<◌, ◌≤◌, ◌⊎◌, [], ◌∷◌, false, true, length, drop, take, slice_index, IfSome, OnSome, MatchOption};
ghost use Rattle.std.specs.Int.{is_in_range};
ghost use Rattle.std.specs.List.{list_all};
ghost use Rattle.characters.specs.Characters.{is_unfinished};
ghost use Rattle.term_model.specs.Obeying.{chars_of};
ghost use Rattle.term_model.specs.Parameters.{numbers};
ghost use Rattle.term_model.specs.Controls.{between, escape, parameters, controls_from, function_of, mode, only, private_number, rendition};
ghost use Rattle.term_model.specs.Meaning.{meant};

use crate::numbers::{first_number, is_numeric};
use characters::is_final;

/// A control function with what it is given, or a character to print.
#[derive(Clone, Copy, Debug)]
pub(crate) enum Control<'a> {
    CarriageReturn,
    LineFeed,
    CursorUp(u32),
    CursorRight(u32),
    CursorLeft(u32),
    EraseInLine,
    EraseInPage,
    /// Select graphic rendition, by these parameters.
    Rendition(&'a [u8]),
    AutoWrap(bool),
    CursorVisible(bool),
    BracketedPaste(bool),
    /// One without an effect.
    Ignored,
    Print(char),
}

/// Returns the parameters' number, where there is just one.
fn only_number(params: &[u8]) -> Option<u32>
    ensures { result ≡ only (numbers params.now) }
{
    if !is_numeric(params) {
        return None;
    }
    match first_number(params) {
        (number, None) => Some(number),
        (_, Some(_)) => None,
    }
}

/// Returns the number of a private mode.
fn private_mode(params: &[u8]) -> Option<u32>
    ensures { result ≡ private_number params.now }
{
    match params {
        [b'?', rest @ ..] => only_number(rest),
        _ => None,
    }
}

/// Returns the control that sets or resets the mode of this number.
fn mode<'a>(number: Option<u32>, on: bool) -> Control<'a>
    ensures { meant result ≡ mode on number }
{
    match number {
        Some(7) => Control::AutoWrap(on),
        Some(25) => Control::CursorVisible(on),
        Some(2004) => Control::BracketedPaste(on),
        _ => Control::Ignored,
    }
}

/// Returns the control that sets attributes by some parameters.
fn attributes(params: &[u8]) -> Control<'_>
    ensures { meant result ≡ rendition (numbers params.now) }
{
    if !is_numeric(params) {
        return Control::Ignored;
    }
    Control::Rendition(params)
}

/// Returns a control that moves the cursor by the parameters' number, and at least by 1.
fn stepped<'a>(params: &[u8], last: u8) -> Control<'a>
    requires { (last ≡ 65) ⊎ ((last ≡ 67) ⊎ (last ≡ 68)) }
    ensures { meant result ≡ function_of params.now last }
{
    match (only_number(params), last) {
        (None, _) => Control::Ignored,
        (Some(n), b'A') => Control::CursorUp(n.max(1)),
        (Some(n), b'C') => Control::CursorRight(n.max(1)),
        (Some(n), _) => Control::CursorLeft(n.max(1)),
    }
}

/// Returns the control of a control sequence with these parameters, no intermediate and this last byte.
fn function_of(params: &[u8], last: u8) -> Control<'_>
    ensures { meant result ≡ function_of params.now last }
{
    match last {
        b'A' | b'C' | b'D' => stepped(params, last),
        b'J' if params.is_empty() => Control::EraseInPage,
        b'K' if params.is_empty() => Control::EraseInLine,
        b'h' => mode(private_mode(params), true),
        b'l' => mode(private_mode(params), false),
        b'm' => attributes(params),
        _ => Control::Ignored,
    }
}

/// Returns the first character, with U+FFFD for what is none, and how many bytes it takes: none where the bytes end before
/// it does.
fn first_char(bytes: &[u8]) -> Option<(char, usize)>
    ensures reads { MatchOption result (chars_of bytes.now ≡ [])
        (λ first. chars_of bytes.now ≡ first.0 ∷ chars_of (drop first.1 bytes.now)) }
    ensures whole { OnSome result (is_unfinished bytes.now ≡ false) }
    ensures forward { IfSome result (λ first. 0 < first.1) }
    ensures within { IfSome result (λ first. first.1 ≤ length bytes.now) }
{
    characters::first_char(bytes)
}

/// Returns how many of the first bytes are in a range.
fn run_len(bytes: &[u8], low: u8, high: u8) -> usize
    ensures within { result ≤ length bytes.now }
    ensures inside { list_all (is_in_range low high) (take result bytes.now) ≡ true }
    ensures ended { result < length bytes.now → is_in_range low high (slice_index bytes.now result)
        ≡ false }
{
    for (i, b) in bytes.iter().enumerate() {
        if *b < low || high < *b {
            return i;
        }
    }
    bytes.len()
}

/// Returns the control of the control sequence behind CSI, and how many bytes it takes: none where the bytes end before it
/// does.
fn sequence(bytes: &[u8]) -> Option<(Control<'_>, usize)>
    ensures reads { MatchOption result (controls_from (parameters []) (chars_of bytes.now) ≡ [])
        (λ found. controls_from (parameters []) (chars_of bytes.now)
        ≡ meant found.0 ∷ controls_from between (chars_of (drop found.1 bytes.now))) }
    ensures within { IfSome result (λ found. found.1 ≤ length bytes.now) }
{
    let params_len = run_len(bytes, 0x30, 0x3F);
    let (params, rest) = bytes.split_at(params_len);
    let size = params_len + run_len(rest, 0x20, 0x2F);
    if size == bytes.len() {
        return None;
    }
    if !is_final(char::from(bytes[size])) {
        let (_, broken) = bytes.split_at(size);
        let _read_anew = first_char(broken)?;
        return Some((Control::Ignored, size));
    }
    if params_len < size {
        return Some((Control::Ignored, size + 1));
    }
    Some((function_of(params, bytes[size]), size + 1))
}

/// Returns the control of what stands behind ESC, and how many bytes it takes: none where the bytes end before it does.
fn escaped(bytes: &[u8]) -> Option<(Control<'_>, usize)>
    ensures reads { MatchOption result (controls_from escape (chars_of bytes.now) ≡ [])
        (λ found. controls_from escape (chars_of bytes.now)
        ≡ meant found.0 ∷ controls_from between (chars_of (drop found.1 bytes.now))) }
    ensures within { IfSome result (λ found. found.1 ≤ length bytes.now) }
{
    let (c, size) = first_char(bytes)?;
    if c != '[' {
        return Some((Control::Ignored, size));
    }
    let (_, rest) = bytes.split_at(size);
    let (control, behind) = sequence(rest)?;
    Some((control, size + behind))
}

/// Returns the control that the bytes begin with, and how many bytes it takes: none where they end before it does.
pub(crate) fn first_control(bytes: &[u8]) -> Option<(Control<'_>, usize)>
    ensures reads { MatchOption result (controls_from between (chars_of bytes.now) ≡ [])
        (λ found. controls_from between (chars_of bytes.now)
        ≡ meant found.0 ∷ controls_from between (chars_of (drop found.1 bytes.now))) }
    ensures forward { IfSome result (λ found. 0 < found.1) }
    ensures within { IfSome result (λ found. found.1 ≤ length bytes.now) }
{
    let (c, size) = first_char(bytes)?;
    let control = match c {
        '\u{1B}' => {
            let (_, rest) = bytes.split_at(size);
            let (control, behind) = escaped(rest)?;
            return Some((control, size + behind));
        }
        '\r' => Control::CarriageReturn,
        '\n' => Control::LineFeed,
        '\0'..='\u{1F}' | '\u{7F}'..='\u{9F}' => Control::Ignored,
        _ => Control::Print(c),
    };
    Some((control, size))
}
