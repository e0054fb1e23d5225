//! An open bracketed paste (xterm), read a character at a time up to its end mark.
ghost use Rattle.std.specs.Prelude.{◌≡◌, OnOk};
ghost use Rattle.vt_input.specs.Held.{add_all};

use crate::pasted::PastedText;
use key_names::KeyText;
use std::alloc::{AllocError, Global};
use std::marker::Model;

/// ESC [ 201 ~, which ends a paste.
const ENDING: [char; 6] = ['\u{1B}', '[', '2', '0', '1', '~'];

/// A paste whose end mark has not come.
#[derive(Debug, Drop)]
pub struct OpenPaste {
    text: PastedText,
    // How many characters of the end mark came last.
    marked: usize,
}

impl Model for OpenPaste {
    ghost use Rattle.std.specs.Prelude.{◌<◌};
    ghost use Rattle.vt_input.specs.Held.{Paste};

    ghost Value = { Paste };

    ghost view = { λ p. record { text = p.text; marked = p.marked } };

    ghost invariant = { λ p. p.marked < 6 };
}

impl OpenPaste {
    ghost use Rattle.std.specs.Prelude.{◌≡◌, true, false, Some, is_none, IfOk, OnOk};
    ghost use Rattle.vt_input.specs.Held.{begun, add, add_all, missed, step};

    /// Returns a paste that has just begun.
    pub fn new(alloc: Global) -> OpenPaste
        ensures { result ≡ begun }
    {
        OpenPaste {
            text: PastedText::new(alloc),
            marked: 0,
        }
    }

    /// Reads a character, and tells whether it completes the end mark.
    pub fn step(&mut self, c: char) -> Result<bool, AllocError>
        ensures ended { IfOk result (λ ended. ended ≡ is_none (step self.old c)) }
        ensures open_still { IfOk result (λ ended. ended ≡ false
            → step self.old c ≡ Some self.new) }
        ensures text { IfOk result (λ ended. ended ≡ true → self.new.text ≡ self.old.text) }
    {
        if ENDING[self.marked] != c {
            self.miss(c)?;
            return Ok(false);
        }
        if self.marked == ENDING.len() - 1 {
            return Ok(true);
        }
        self.marked += 1;
        Ok(false)
    }

    /// Reads a character that does not go on with the end mark.
    fn miss(&mut self, c: char) -> Result<(), AllocError>
        ensures { OnOk result (self.new ≡ missed self.old c) }
    {
        let came = self.marked;
        self.marked = 0;
        add_slice(&mut self.text, &ENDING[..came])?;
        if '\u{1B}' == c {
            self.marked = 1;
            return Ok(());
        }
        self.text.add(c)?;
        Ok(())
    }

    /// Returns the pasted text.
    pub fn into_text(self) -> KeyText
        ensures { result ≡ self.text.kept }
    {
        let OpenPaste { text, marked: _ } = self;
        let PastedText { kept, returned: _ } = text;
        kept
    }
}

/// Adds characters as they came.
fn add_slice(text: &mut PastedText, chars: &[char]) -> Result<(), AllocError>
    ensures { OnOk result (text.new ≡ add_all chars.now text.old) }
{
    for c in chars {
        text.add(*c)?;
    }
    Ok(())
}
