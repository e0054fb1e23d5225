//! Sizes as they are written in settings and in scripts.
ghost use Rattle.std.specs.Prelude.{◌≡◌, ◌==◌, position};
ghost use Rattle.prompt_settings.specs.Size.{size_of};

use crate::numbers::read_number;
use cell_grid::Size;

/// Returns the size that is written as this text: its rows, the separator and its columns, in decimal without leading
/// zeros. There is none where a screen can't have so many rows or columns.
///
/// The separator is meant to be no digit: then each size is read from the text that it is written as.
pub fn read_size(text: &[char], separator: char) -> Option<Size>
    ensures { result ≡ size_of separator text.now }
{
    let at = place_of(text, separator)?;
    let rows = read_number(&text[..at], u64::from(Size::MAX_ROWS))?;
    let cols = read_number(&text[at + 1..], u64::from(Size::MAX_COLS))?;
    Size::new(rows as u32, cols as u32)
}

/// Returns the first place of the character.
fn place_of(text: &[char], wanted: char) -> Option<usize>
    ensures { result ≡ position (λ c. c == wanted) text.now }
{
    text.iter().position(|c| *c == wanted)
}
