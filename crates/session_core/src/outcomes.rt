//! How a prompt ends, and why a step is refused.

use text_doc::Text;
use thiserror::Error;

/// How a prompt ended.
#[derive(Debug, Drop)]
pub enum Outcome {
    /// The text was accepted.
    Accepted(Text),
    /// The input ended, or the user ended it.
    EndOfFile,
    /// The user interrupted the prompt.
    Interrupted,
}

/// Why a step was refused.
#[derive(Clone, Copy, Debug, PartialEq, Eq, Error)]
pub enum StepFault {
    /// The session had ended before; it stays as it was.
    #[error("the session has ended")]
    Ended,
    /// There was no memory; the session has ended without an outcome.
    #[error("out of memory")]
    NoMemory,
}
