//! Why a text is no sheet.
use sequences::NoMemory;
use std::alloc::AllocFailed;
use thiserror::Error;

/// Why the rules of a text could not be read.
#[derive(Clone, Copy, Debug, PartialEq, Eq, Error)]
pub enum StyleFault {
    /// The rule with this number, counted from 0, is the first outside the grammar.
    #[error("rule {at} is no style rule")]
    BadStyle { at: usize },
    /// There was no memory for the rules.
    #[error("no memory for the style rules")]
    NoMemory,
}

impl From<NoMemory> for StyleFault {
    ghost use Rattle.std.specs.Prelude.{◌≡◌};
    ghost use Rattle.style_sheet.specs.declared.faults.StyleFault.TheVariants.{NoMemory};

    ghost from_gives = { λ _ fault. fault ≡ NoMemory };

    fn from(_error: NoMemory) -> StyleFault {
        StyleFault::NoMemory
    }
}

impl<T: Drop> From<AllocFailed<T>> for StyleFault {
    ghost use Rattle.std.specs.Prelude.{◌≡◌};
    ghost use Rattle.style_sheet.specs.declared.faults.StyleFault.TheVariants.{NoMemory};

    ghost from_gives = { λ _ fault. fault ≡ NoMemory };

    fn from(_error: AllocFailed<T>) -> StyleFault {
        StyleFault::NoMemory
    }
}
