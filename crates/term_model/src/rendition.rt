//! The pen that the numbers of a control sequence give.
ghost use Rattle.std.specs.Prelude.{◌≡◌, ◌≤◌, ℕ, drop, Some, IfSome};
ghost use Rattle.std.specs.Option.{option_map};
ghost use Rattle.term_model.specs.Parameters.{numbers_from};
ghost use Rattle.term_model.specs.Meaning.{numbers_behind, colour_in};
ghost use Rattle.term_model.specs.Rendition.{styled, styled_once, styled_by, direct_colour, coloured, colour_behind};

use crate::numbers::first_number;
use cell_grid::{Attrs, Colour};

/// Returns the pen after one number by itself.
fn styled_once(pen: Attrs, number: u32) -> Attrs
    ensures { result ≡ styled_once pen number }
{
    match number {
        0 => Attrs::plain(),
        1 => Attrs { bold: true, ..pen },
        3 => Attrs {
            italic: true,
            ..pen
        },
        4 => Attrs {
            underline: true,
            ..pen
        },
        5 => Attrs { blink: true, ..pen },
        7 => Attrs {
            reverse: true,
            ..pen
        },
        8 => Attrs {
            hidden: true,
            ..pen
        },
        9 => Attrs {
            strike: true,
            ..pen
        },
        _ => coloured(pen, number),
    }
}

/// Returns the pen with the colour of a number, where it has one.
fn coloured(pen: Attrs, number: u32) -> Attrs
    ensures { result ≡ coloured pen number }
{
    match number {
        30..=37 => Attrs {
            fg: Some(Colour::Ansi((number - 30) as u8)),
            ..pen
        },
        40..=47 => Attrs {
            bg: Some(Colour::Ansi((number - 40) as u8)),
            ..pen
        },
        90..=97 => Attrs {
            fg: Some(Colour::Ansi((number - 82) as u8)),
            ..pen
        },
        100..=107 => Attrs {
            bg: Some(Colour::Ansi((number - 92) as u8)),
            ..pen
        },
        _ => pen,
    }
}

/// Returns the direct colour of which some numbers begin with `2;r;g;b`, and what stands behind it.
fn direct_colour(params: Option<&[u8]>) -> Option<(Colour, Option<&[u8]>)>
    ensures colour { colour_in result ≡ direct_colour (numbers_behind params.entry) }
    ensures rest { IfSome result (λ x. numbers_behind x.1 ≡ drop 4 (numbers_behind params.entry)) }
{
    let (kind, params) = first_number(params?);
    let (r, params) = first_number(params?);
    let (g, params) = first_number(params?);
    let (b, params) = first_number(params?);
    if kind != 2 || r > 255 || g > 255 || b > 255 {
        return None;
    }
    Some((Colour::Rgb(r as u8, g as u8, b as u8), params))
}

/// Returns the colour that a number takes from those behind it, and what stands behind that.
fn colour_behind(number: u32, params: Option<&[u8]>) -> Option<(Colour, Option<&[u8]>)>
    ensures colour { colour_in result ≡ colour_behind number (numbers_behind params.entry) }
    ensures rest { IfSome result (λ x. numbers_behind x.1 ≡ drop 4 (numbers_behind params.entry)) }
{
    if number != 38 && number != 48 {
        return None;
    }
    direct_colour(params)
}

/// Returns the pen with the colour that a number takes.
fn with_colour(pen: Attrs, number: u32, colour: Colour) -> Attrs
    ensures { result ≡ styled_by pen number (Some colour) }
{
    if number == 38 {
        Attrs {
            fg: Some(colour),
            ..pen
        }
    } else {
        Attrs {
            bg: Some(colour),
            ..pen
        }
    }
}

/// Returns the pen after all numbers of some parameters.
pub(crate) fn styled(pen: Attrs, params: &[u8]) -> Attrs
    ensures { result ≡ styled pen (numbers_from 0 params.now) }
{
    let mut pen = pen;
    let mut rest = Some(params);
    while let Some(text) = rest {
        let (number, behind) = first_number(text);
        match colour_behind(number, behind) {
            Some((colour, after)) => {
                pen = with_colour(pen, number, colour);
                rest = after;
            }
            None => {
                pen = styled_once(pen, number);
                rest = behind;
            }
        }
    }
    pen
}
