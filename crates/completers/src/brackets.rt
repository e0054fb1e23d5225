//! Brackets that pair, read once.
ghost use Rattle.std.specs.Prelude.{◌≡◌, Some, reverse, IfOk, if◌then◌else◌};
ghost use Rattle.completers.specs.Pairs.{is_opening, is_closing, are_pair, after_character, bracket_fault};

use std::alloc::Global;
use text_doc::{Doc, NoMemory};

/// An opening bracket without a partner so far, and its place.
#[derive(Clone, Copy)]
pub struct Opened {
    pub place: usize,
    pub bracket: char,
}

/// Returns the place of the first closing bracket that matches none, or else of the last opening one without a partner.
pub fn bracket_fault(alloc: Global, doc: &Doc) -> Result<Option<usize>, NoMemory>
    ensures { IfOk result (λ fault. fault ≡ bracket_fault doc.now.text) }
{
    let mut opened = Vec::new(alloc);
    for place in 0..doc.len() {
        if !take_character(&mut opened, place, doc.char_at(place))? {
            return Ok(Some(place));
        }
    }
    match opened.pop() {
        Some(last) => Ok(Some(last.place)),
        None => Ok(None),
    }
}

/// Reads one more character. The answer is false at a closing bracket that doesn't match the last one that stands open.
fn take_character(opened: &mut Vec<Opened>, place: usize, c: char) -> Result<bool, NoMemory>
    ensures { IfOk result (λ goes. after_character (Some (reverse opened.old.items)) (place, c)
        ≡ (if goes then Some (reverse opened.new.items) else None)) }
{
    if is_opening(c) {
        opened.push(Opened { place, bracket: c })?;
        return Ok(true);
    }
    if !is_closing(c) {
        return Ok(true);
    }
    match opened.pop() {
        Some(last) => Ok(are_pair(last.bracket, c)),
        None => Ok(false),
    }
}

fn is_opening(c: char) -> bool
    ensures { result ≡ is_opening c }
{
    matches!(c, '(' | '[' | '{')
}

fn is_closing(c: char) -> bool
    ensures { result ≡ is_closing c }
{
    matches!(c, ')' | ']' | '}')
}

fn are_pair(opening: char, closing: char) -> bool
    ensures { result ≡ are_pair opening closing }
{
    match opening {
        '(' => closing == ')',
        '[' => closing == ']',
        _ => opening == '{' && closing == '}',
    }
}
