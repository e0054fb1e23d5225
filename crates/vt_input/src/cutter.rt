//! Cutting a text into key presses, in a paste and outside.
ghost use Rattle.std.specs.Prelude.{◌≡◌};
ghost use Rattle.vt_input.specs.Pressed.{opens};

use crate::decide::decide;
use crate::front::{OPENING, is_prefix};
use crate::keys::Keys;
use crate::paste::OpenPaste;
use crate::row::SeqRow;
use key_names::{Key, KeyPress, KeyText};
use std::alloc::{AllocError, Global};

/// The key presses so far, and the open paste.
#[derive(Debug, Drop)]
pub struct Cutter {
    pub presses: Keys,
    pub paste: Option<OpenPaste>,
}

impl Cutter {
    ghost use Rattle.std.specs.Prelude.{◌≡◌, ℕ, ◌<◌, ◌≤◌, Bool, true, List, ◌∷◌, length, None, Some, IfOk, OnOk};
    ghost use Rattle.vt_input.specs.declared.row.SeqRow.{SeqRow};
    ghost use Rattle.vt_input.specs.Sequences.{begin_with_control};
    ghost use Rattle.vt_input.specs.Held.{fed_by, with_presses};
    ghost use Rattle.vt_input.specs.Taken.{given_with, StepsFront, cut_at};

    /// Cuts a text, and answers how many characters were taken: those behind wait.
    pub fn cut(
        &mut self,
        alloc: Global,
        rows: &[SeqRow],
        flush: bool,
        text: &[char],
    ) -> Result<usize, AllocError>
        requires { begin_with_control rows.now ≡ true }
        ensures within { IfOk result (λ n. n ≤ length text.now) }
        ensures cut { IfOk result (λ n.
            cut_at self.new text.now n ≡ given_with rows.now flush self.old text.now) }
    {
        let mut at = 0;
        while at < text.len() {
            match self.paste.take() {
                Some(paste) => {
                    self.step_paste(paste, text[at])?;
                    at += 1;
                },
                None => match self.step_text(alloc, rows, flush, &text[at..])? {
                    Some(taken) => at += taken,
                    None => return Ok(at),
                },
            }
        }
        Ok(at)
    }

    /// Reads a character of a paste.
    fn step_paste(&mut self, mut paste: OpenPaste, c: char) -> Result<(), AllocError>
        ensures { (rows : List SeqRow) (flush : Bool) (x : List ℕ) → OnOk result
            (given_with rows flush self.new x
            ≡ with_presses self.old.presses (fed_by rows flush (Some paste) (c ∷ x))) }
    {
        if paste.step(c)? {
            self.presses.push(KeyPress {
                key: Key::Paste,
                text: paste.into_text(),
            })?;
            self.paste = None;
        } else {
            self.paste = Some(paste);
        }
        Ok(())
    }

    /// Takes what stands at the front of a text outside a paste.
    fn step_text(
        &mut self,
        alloc: Global,
        rows: &[SeqRow],
        flush: bool,
        text: &[char],
    ) -> Result<Option<usize>, AllocError>
        requires some { 0 < length text.now }
        requires outside { self.old.paste ≡ None }
        requires control { begin_with_control rows.now ≡ true }
        ensures { IfOk result (λ taken.
            StepsFront rows.now flush self.old self.new text.now taken) }
    {
        if is_opening(flush, text) {
            self.paste = Some(OpenPaste::new(alloc));
            return Ok(Some(OPENING.len()));
        }
        match decide(rows, flush, text) {
            Some((key, size)) => {
                let text = KeyText::from_slice(alloc, &text[..size])?;
                self.presses.push(KeyPress { key, text })?;
                Ok(Some(size))
            },
            None => Ok(None),
        }
    }
}

/// Tells whether the text begins a paste, as none does in a flush.
fn is_opening(flush: bool, text: &[char]) -> bool
    ensures { result ≡ opens flush text.now }
{
    !flush && is_prefix(&OPENING, text)
}
