//! The characters of a key.
ghost use Rattle.std.specs.Prelude.{◌≡◌, IfOk};

use sequences::{NoMemory, Text};
use std::alloc::Global;

/// The characters that were read for a key, or the name of a key.
pub type KeyText = Text;

/// Returns the text whose characters have these bytes as their codes, as the text of a control sequence.
pub fn text_of_codes(alloc: Global, bytes: &[u8]) -> Result<KeyText, NoMemory>
    ensures { IfOk result (λ text. text ≡ bytes.now) }
{
    let mut text = KeyText::new(alloc);
    for byte in bytes {
        text.push(*byte as char)?;
    }
    Ok(text)
}
