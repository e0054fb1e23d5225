//! Why an edit or a choice was refused.
use text_doc::{InsertFault, NoMemory};
use thiserror::Error;

/// Why an edit or a choice was refused.
#[derive(Clone, Copy, Debug, PartialEq, Eq, Error)]
pub enum EditFault {
    /// The document would have more than `text_doc::MAX_LENGTH` characters.
    #[error("more than 32768 characters")]
    TooLong,
    /// There was no memory for the new text.
    #[error("no memory for the text")]
    NoMemory,
}

impl From<NoMemory> for EditFault {
    ghost use Rattle.std.specs.Prelude.{◌≡◌};
    ghost use Rattle.edit_buffer.specs.declared.faults.EditFault.TheVariants.{NoMemory};

    ghost from_gives = { λ _ fault. fault ≡ NoMemory };

    fn from(_error: text_doc::NoMemory) -> EditFault {
        EditFault::NoMemory
    }
}

impl From<InsertFault> for EditFault {
    ghost use Rattle.std.specs.Prelude.{◌≡◌, ◌↔◌};
    ghost use Rattle.text_doc.specs.declared.faults.InsertFault.TheVariants as insert_fault;
    ghost use Rattle.edit_buffer.specs.declared.faults.EditFault.TheVariants as edit_fault;

    ghost from_gives = { λ insertion fault. (insertion ≡ insert_fault.TooLong) ↔ (fault ≡ edit_fault.TooLong) };

    fn from(insertion: InsertFault) -> EditFault {
        match insertion {
            InsertFault::TooLong => EditFault::TooLong,
            InsertFault::NoMemory => EditFault::NoMemory,
        }
    }
}
