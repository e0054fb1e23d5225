//! How control sequences are spelled.
ghost use Rattle.std.specs.Prelude.{◌≡◌, ◌++◌, ◌∷◌, ◌≤◌, [], IfOk, OnOk, true, encode_utf8, encode_utf8_all};
ghost use lib.Utf8.{scalar, scalars};
ghost use Rattle.std.specs.Fmt.{decimal};
ghost use Rattle.std.specs.String.{string_bytes};
ghost use Rattle.diff_render.specs.Spelling.{arrow, flagged, coloured, listed_by, spelled_pen, still_first};
ghost use Rattle.diff_render.specs.Spelling.{IsByteColour, IsBytePen};

use cell_grid::{Attrs, Colour};
use std::alloc::AllocError;
use std::fmt::Write;

/// Appends a number in decimal.
pub(crate) fn push_number(out: &mut String, n: u32) -> Result<(), AllocError>
    ensures { OnOk result (string_bytes out.new ≡ string_bytes out.old ++ decimal n) }
{
    write!(out, "{n}")
}

/// Appends a cursor control of so many places, where `letter` is its final character.
pub(crate) fn push_arrow(out: &mut String, n: u32, letter: char) -> Result<(), AllocError>
    requires { letter ≤ 127 }
    ensures { OnOk result (string_bytes out.new ≡ string_bytes out.old ++ arrow n letter) }
{
    out.push_str("\x1b[")?;
    if n > 1 {
        push_number(out, n)?;
    }
    out.push(letter)
}

/// Appends a number, behind a separator where it is not the first.
fn push_listed(out: &mut String, first: bool, n: u32) -> Result<(), AllocError>
    ensures { OnOk result (string_bytes out.new ≡ string_bytes out.old
        ++ listed_by first (n ∷ [])) }
{
    if !first {
        out.push(';')?;
    }
    push_number(out, n)
}

/// Appends a number, where it is wanted, and tells whether the next one is the first.
fn push_flag(out: &mut String, first: bool, n: u32, wanted: bool) -> Result<bool, AllocError>
    ensures spelled { OnOk result (string_bytes out.new ≡ string_bytes out.old
        ++ listed_by first (flagged n wanted)) }
    ensures still { IfOk result (λ still. still ≡ still_first first (flagged n wanted)) }
{
    if !wanted {
        return Ok(first);
    }
    push_listed(out, first, n)?;
    Ok(false)
}

/// Appends the numbers of a colour, and tells whether the next one is the first. `base` is 30 for a
/// character and 40 for its background.
fn push_colour(
    out: &mut String,
    first: bool,
    base: u32,
    colour: Option<Colour>,
) -> Result<bool, AllocError>
    requires { base ≤ 40 }
    ensures spelled { OnOk result (string_bytes out.new ≡ string_bytes out.old
        ++ listed_by first (coloured base colour)) }
    ensures still { IfOk result (λ still. still ≡ still_first first (coloured base colour)) }
    ensures bytes { OnOk result (IsByteColour colour) }
{
    match colour {
        None => Ok(first),
        Some(Colour::Ansi(n)) => {
            if n < 8 {
                push_listed(out, first, base + u32::from(n))?;
            } else {
                push_listed(out, first, base + 52 + u32::from(n))?;
            }
            Ok(false)
        }
        Some(Colour::Rgb(r, g, b)) => {
            push_listed(out, first, base + 8)?;
            push_listed(out, false, 2)?;
            push_listed(out, false, u32::from(r))?;
            push_listed(out, false, u32::from(g))?;
            push_listed(out, false, u32::from(b))?;
            Ok(false)
        }
    }
}

/// Appends the sequence that adds attributes to a pen, or that makes a pen of them alone.
pub(crate) fn push_pen(out: &mut String, adds: bool, pen: &Attrs) -> Result<(), AllocError>
    ensures spelled { OnOk result (string_bytes out.new ≡ string_bytes out.old
        ++ spelled_pen adds pen.now) }
    ensures bytes { OnOk result (IsBytePen pen.now) }
{
    out.push_str("\x1b[")?;
    let first = push_flag(out, adds, 1, pen.bold)?;
    let first = push_flag(out, first, 3, pen.italic)?;
    let first = push_flag(out, first, 4, pen.underline)?;
    let first = push_flag(out, first, 5, pen.blink)?;
    let first = push_flag(out, first, 7, pen.reverse)?;
    let first = push_flag(out, first, 8, pen.hidden)?;
    let first = push_flag(out, first, 9, pen.strike)?;
    let first = push_colour(out, first, 30, pen.fg)?;
    let _first = push_colour(out, first, 40, pen.bg)?;
    out.push('m')?;
    Ok(())
}

/// Appends a character.
pub(crate) fn push_char(out: &mut String, c: char) -> Result<(), AllocError>
    ensures bytes { OnOk result (string_bytes out.new ≡ string_bytes out.old ++ encode_utf8 c) }
    ensures scalar { OnOk result (scalar c ≡ true) }
{
    out.push(c)?;
    Ok(())
}

/// Appends characters.
pub(crate) fn push_text(out: &mut String, text: &[char]) -> Result<(), AllocError>
    ensures bytes { OnOk result (string_bytes out.new ≡ string_bytes out.old
        ++ encode_utf8_all text.now) }
    ensures scalars { OnOk result (scalars text.now ≡ true) }
{
    for c in text {
        push_char(out, *c)?;
    }
    Ok(())
}
