//! Texts in ASCII.
ghost use Rattle.std.specs.Prelude.{◌≡◌, false, IfOk, IfSome, IfNone};
ghost use Rattle.style_sheet.specs.Ascii.{is_ascii};

use sequences::NoMemory;
use std::alloc::Global;

/// Returns the characters of a text as bytes, where all of them are ASCII.
pub(crate) fn ascii_bytes(alloc: Global, text: &[char]) -> Result<Option<Vec<u8>>, NoMemory>
    ensures found { IfOk result (λ found. IfSome found (λ bytes. bytes.items ≡ text.now)) }
    ensures none { IfOk result (λ found. IfNone found (is_ascii text.now ≡ false)) }
{
    let mut bytes = Vec::with_capacity(alloc, text.len())?;
    for c in text {
        if !c.is_ascii() {
            return Ok(None);
        }
        bytes.push(*c as u8)?;
    }
    Ok(Some(bytes))
}
