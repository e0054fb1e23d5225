//! The words of a rule.
ghost use Rattle.std.specs.Prelude.{◌≡◌, ◌≢◌, IfSome, IfNone};
ghost use Rattle.style_sheet.specs.declared.changes.Flag.{Flag};
ghost use Rattle.style_sheet.specs.declared.changes.Change.{Change};
ghost use Rattle.style_sheet.specs.Spelling.{flag_name, change_word, IsChange};

use crate::changes::{Change, Flag};
use crate::colours::find_colour_word;

/// Every flag.
const FLAGS: [Flag; 7] = [
    Flag::Bold,
    Flag::Italic,
    Flag::Underline,
    Flag::Blink,
    Flag::Reverse,
    Flag::Hidden,
    Flag::Strike,
];

/// Returns the change that has this word.
pub(crate) fn find_change(word: &[u8]) -> Option<Change>
    ensures found { IfSome result (λ change. IsChange change × (change_word change ≡ word.now)) }
    ensures none { IfNone result ((change : Change) → IsChange change
        → change_word change ≢ word.now) }
{
    match word {
        [b'f', b'g', b':', name @ ..] => {
            let colour = find_colour_word(name)?;
            Some(Change::Foreground(colour))
        }
        [b'b', b'g', b':', name @ ..] => {
            let colour = find_colour_word(name)?;
            Some(Change::Background(colour))
        }
        [b'n', b'o', name @ ..] => {
            let flag = find_flag(name)?;
            Some(Change::Switch(flag, false))
        }
        _ => {
            let flag = find_flag(word)?;
            Some(Change::Switch(flag, true))
        }
    }
}

fn find_flag(name: &[u8]) -> Option<Flag>
    ensures found { IfSome result (λ flag. flag_name flag ≡ name.now) }
    ensures none { IfNone result ((flag : Flag) → flag_name flag ≢ name.now) }
{
    for flag in FLAGS {
        if flag_name(flag) == name {
            return Some(flag);
        }
    }
    None
}

fn flag_name(flag: Flag) -> &'static [u8]
    ensures { result.now ≡ flag_name flag }
{
    match flag {
        Flag::Bold => b"bold",
        Flag::Italic => b"italic",
        Flag::Underline => b"underline",
        Flag::Blink => b"blink",
        Flag::Reverse => b"reverse",
        Flag::Hidden => b"hidden",
        Flag::Strike => b"strike",
    }
}
