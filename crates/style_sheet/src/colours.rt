//! Colours, by their names.
ghost use Rattle.std.specs.Prelude.{◌≡◌, ◌≢◌, ◌<◌, ℕ, Option, IfSome, IfNone, slice_index_or, [], ◌∷◌};
ghost use Rattle.std.specs.Char.{digit_char};
ghost use Rattle.cell_grid.specs.declared.attrs.Colour.{Colour};
ghost use Rattle.cell_grid.specs.declared.attrs.Colour.TheVariants.{Rgb};
ghost use Rattle.style_sheet.specs.Spelling.{hue_names, ansi_names, hex_pair, colour_name, colour_word, IsColour};

use cell_grid::Colour;

/// Returns the colour with this name, or no colour by the name of the terminal's own.
pub(crate) fn find_colour_word(name: &[u8]) -> Option<Option<Colour>>
    ensures found { IfSome result (λ colour.
        IfSome colour IsColour × (colour_word colour ≡ name.now)) }
    ensures none { IfNone result ((colour : Option Colour) → IfSome colour IsColour
        → colour_word colour ≢ name.now) }
{
    if name == b"default".as_slice() {
        return Some(None);
    }
    let colour = find_colour(name)?;
    Some(Some(colour))
}

fn find_colour(name: &[u8]) -> Option<Colour>
    ensures found { IfSome result (λ colour. IsColour colour × (colour_name colour ≡ name.now)) }
    ensures none { IfNone result ((colour : Colour) → IsColour colour
        → colour_name colour ≢ name.now) }
{
    if let Some(colour) = find_rgb(name) {
        return Some(colour);
    }
    let number = find_ansi(name)?;
    Some(Colour::Ansi(number))
}

/// Returns the number of the colour with this name, of the sixteen.
fn find_ansi(name: &[u8]) -> Option<u8>
    ensures found { IfSome result (λ n. (n < 16) × (slice_index_or ansi_names n [] ≡ name.now)) }
    ensures none { IfNone result ((n : ℕ) → n < 16 → slice_index_or ansi_names n [] ≢ name.now) }
{
    match name {
        [b'b', b'r', b'i', b'g', b'h', b't', b'-', hue @ ..] => {
            let number = find_hue(hue)?;
            Some(number + 8)
        }
        _ => find_hue(name),
    }
}

fn find_hue(name: &[u8]) -> Option<u8>
    ensures found { IfSome result (λ n. (n < 8) × (slice_index_or hue_names n [] ≡ name.now)) }
    ensures none { IfNone result ((n : ℕ) → n < 8 → slice_index_or hue_names n [] ≢ name.now) }
{
    for number in 0..8u8 {
        if hue_name(number) == name {
            return Some(number);
        }
    }
    None
}

fn hue_name(number: u8) -> &'static [u8]
    requires { number < 8 }
    ensures { result.now ≡ slice_index_or hue_names number [] }
{
    match number {
        0 => b"black",
        1 => b"red",
        2 => b"green",
        3 => b"yellow",
        4 => b"blue",
        5 => b"magenta",
        6 => b"cyan",
        7 => b"white",
        _ => unreachable!(),
    }
}

/// Returns the colour of `#` and six digits.
fn find_rgb(name: &[u8]) -> Option<Colour>
    ensures found { IfSome result (λ colour. IsColour colour × (colour_name colour ≡ name.now)) }
    ensures none { IfNone result ((r g b : ℕ) → r < 256 → g < 256 → b < 256
        → colour_name (Rgb r g b) ≢ name.now) }
{
    let [b'#', r, s, g, h, b, c] = name else {
        return None;
    };
    let red = find_byte(*r, *s)?;
    let green = find_byte(*g, *h)?;
    let blue = find_byte(*b, *c)?;
    Some(Colour::Rgb(red, green, blue))
}

/// Returns the number of two digits.
fn find_byte(high: u8, low: u8) -> Option<u8>
    ensures found { IfSome result (λ n. hex_pair n ≡ high ∷ low ∷ []) }
    ensures none { IfNone result ((n : ℕ) → n < 256 → hex_pair n ≢ high ∷ low ∷ []) }
{
    let high = find_digit(high)?;
    let low = find_digit(low)?;
    Some(high * 16 + low)
}

/// Returns the value of a digit of `0-9a-f`.
fn find_digit(digit: u8) -> Option<u8>
    ensures found { IfSome result (λ n. (n < 16) × (digit_char n ≡ digit)) }
    ensures none { IfNone result ((n : ℕ) → n < 16 → digit_char n ≢ digit) }
{
    match digit {
        b'0'..=b'9' => Some(digit - b'0'),
        b'a'..=b'f' => Some(digit - b'a' + 10),
        _ => None,
    }
}
