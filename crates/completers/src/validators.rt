//! Whether a text is valid.
ghost use Rattle.std.specs.Prelude.{◌≡◌, IfOk, chars};
ghost use Rattle.std.specs.List.{list_any};
ghost use Rattle.std.specs.Str.{bytes_eq};
ghost use Rattle.completers.specs.Verdicts.{fault_in, verdict_at, verdict_of};

use crate::brackets::bracket_fault;
use crate::numbers::number_fault;
use crate::typed::is_blank;
use std::alloc::Global;
use text_doc::{Doc, Lines, NoMemory, Text};

/// Which texts are valid.
#[derive(Debug, Drop)]
pub enum Validator {
    /// All are.
    Any,
    /// Those with some character that is not white space.
    NonEmpty,
    /// An optional `-`, and from 1 to 38 digits.
    Number,
    /// Those that are one of these words.
    OneOf(Lines),
    /// Those whose brackets `()`, `[]` and `{}` are balanced.
    Balanced,
}

impl Validator {
    /// Returns an equal validator.
    pub fn copy(&self) -> Result<Validator, NoMemory>
        ensures { IfOk result (λ copy. copy ≡ self.now) }
    {
        match self {
            Validator::Any => Ok(Validator::Any),
            Validator::NonEmpty => Ok(Validator::NonEmpty),
            Validator::Number => Ok(Validator::Number),
            Validator::OneOf(words) => {
                let words = words.copy()?;
                Ok(Validator::OneOf(words))
            }
            Validator::Balanced => Ok(Validator::Balanced),
        }
    }

    /// Returns whether the text of the document is valid, and if not where its fault is and what it is. The text is read
    /// where it stands.
    pub fn check(&self, alloc: Global, doc: &Doc) -> Result<Verdict, NoMemory>
        ensures { IfOk result (λ verdict. verdict ≡ verdict_of self.now doc.now.text) }
    {
        match self {
            Validator::Any => Ok(Verdict::Valid),
            Validator::NonEmpty => {
                let verdict = verdict_at(alloc, blank_fault(doc), "empty input")?;
                Ok(verdict)
            }
            Validator::Number => {
                let verdict = verdict_at(alloc, number_fault(doc), "not a number")?;
                Ok(verdict)
            }
            Validator::OneOf(words) => {
                let fault = list_fault(words.as_slice(), doc);
                let verdict = verdict_at(alloc, fault, "not one of the words")?;
                Ok(verdict)
            }
            Validator::Balanced => {
                let fault = bracket_fault(alloc, doc)?;
                let verdict = verdict_at(alloc, fault, "bracket not balanced")?;
                Ok(verdict)
            }
        }
    }
}

/// Returns the verdict on a text with a fault at this place, or without one.
fn verdict_at(alloc: Global, fault: Option<usize>, message: &str) -> Result<Verdict, NoMemory>
    ensures { IfOk result (λ verdict. verdict ≡ verdict_at fault (chars message.now)) }
{
    let Some(at) = fault else {
        return Ok(Verdict::Valid);
    };
    let message = Text::read_str(alloc, message)?;
    Ok(Verdict::Invalid { at, message })
}

/// Returns the fault of a text that is all white space.
fn blank_fault(doc: &Doc) -> Option<usize>
    ensures { result ≡ fault_in Validator.NonEmpty doc.now.text }
{
    let (front, back) = doc.parts();
    if is_blank(front) && is_blank(back) {
        Some(0)
    } else {
        None
    }
}

/// Returns the fault of a text that is none of the words.
fn list_fault(words: &[Text], doc: &Doc) -> Option<usize>
    ensures { result ≡ fault_in (Validator.OneOf words.now) doc.now.text }
{
    if is_listed(words, doc) { None } else { Some(0) }
}

/// Returns whether the text is one of the words.
fn is_listed(words: &[Text], doc: &Doc) -> bool
    ensures { result ≡ list_any (λ word. bytes_eq word doc.now.text) words.now }
{
    words.iter().any(|word| doc.has_text(word.as_slice()))
}

/// What a validator says of a text.
#[derive(Debug, Drop)]
pub enum Verdict {
    /// The text is valid.
    Valid,
    /// It is not, by the fault at the place `at`.
    Invalid { at: usize, message: Text },
}

impl Verdict {
    /// Returns an equal verdict.
    pub fn copy(&self) -> Result<Verdict, NoMemory>
        ensures { IfOk result (λ copy. copy ≡ self.now) }
    {
        match self {
            Verdict::Valid => Ok(Verdict::Valid),
            Verdict::Invalid { at, message } => {
                let message = message.copy()?;
                Ok(Verdict::Invalid { at: *at, message })
            }
        }
    }
}
