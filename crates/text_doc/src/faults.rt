//! Why an insertion was refused.
use crate::NoMemory;
use thiserror::Error;

/// Why an insertion was refused.
#[derive(Clone, Copy, Debug, PartialEq, Eq, Error)]
pub enum InsertFault {
    /// The document would have more than `MAX_LENGTH` characters.
    #[error("more than 32768 characters")]
    TooLong,
    /// There was no memory for the longer text.
    #[error("no memory for the text")]
    NoMemory,
}

impl From<NoMemory> for InsertFault {
    ghost use Rattle.std.specs.Prelude.{◌≡◌};
    ghost use Rattle.text_doc.specs.declared.faults.InsertFault.TheVariants.{NoMemory};

    ghost from_gives = { λ _ fault. fault ≡ NoMemory };

    fn from(_error: crate::NoMemory) -> InsertFault {
        InsertFault::NoMemory
    }
}
