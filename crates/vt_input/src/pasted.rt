//! The text of a bracketed paste, as it comes.
use key_names::KeyText;
use std::alloc::{AllocError, Global};

/// The most characters of a paste that are kept.
const PASTE_LIMIT: usize = 32_769;

/// The first characters of a paste, with line feeds for its line ends.
#[derive(Debug, Drop)]
pub struct PastedText {
    pub kept: KeyText,
    /// A carriage return came last; a line feed stands for it already.
    pub returned: bool,
}

impl PastedText {
    ghost use Rattle.std.specs.Prelude.{◌≡◌, [], false, OnOk};
    ghost use Rattle.vt_input.specs.Held.{add, kept_with};

    /// Returns no text.
    pub fn new(alloc: Global) -> PastedText
        ensures { result ≡ record { kept = []; returned = false } }
    {
        PastedText {
            kept: KeyText::new(alloc),
            returned: false,
        }
    }

    /// Adds a character as it came.
    pub fn add(&mut self, c: char) -> Result<(), AllocError>
        ensures { OnOk result (self.new ≡ add self.old c) }
    {
        let follows = self.returned && c == '\n';
        self.returned = c == '\r';
        if c == '\r' {
            self.keep('\n')
        } else if follows {
            Ok(())
        } else {
            self.keep(c)
        }
    }

    /// Keeps a character, but for those past the limit.
    fn keep(&mut self, c: char) -> Result<(), AllocError>
        ensures { OnOk result
            (self.new ≡ record { kept = kept_with self.old.kept c; returned = self.old.returned }) }
    {
        if self.kept.len() < PASTE_LIMIT {
            self.kept.push(c)?;
        }
        Ok(())
    }
}
