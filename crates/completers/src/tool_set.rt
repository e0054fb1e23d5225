//! What answers are made with.
ghost use Rattle.std.specs.Prelude.{◌≡◌, IfOk};

use crate::{Completer, NoMemory, Validator};
use text_doc::Lines;

/// What the answers for a document are made with: its completer, if there is one, the history, of which the newest entry
/// is the last, and its validator.
#[derive(Debug, Drop)]
pub struct Tools {
    pub completer: Option<Completer>,
    pub history: Lines,
    pub validator: Validator,
}

impl Tools {
    /// Returns equal tools.
    pub fn copy(&self) -> Result<Tools, NoMemory>
        ensures { IfOk result (λ copy. copy ≡ self.now) }
    {
        let completer = match &self.completer {
            Some(completer) => Some(completer.copy()?),
            None => None,
        };
        let history = self.history.copy()?;
        let validator = self.validator.copy()?;
        Ok(Tools {
            completer,
            history,
            validator,
        })
    }
}
