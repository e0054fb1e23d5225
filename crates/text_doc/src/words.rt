//! Words, walked from a place on.
ghost use Rattle.std.specs.Prelude.{◌≡◌, ◌<◌, ◌≤◌, length, IfSome};
ghost use Rattle.text_doc.specs.Words.{class_of, same_class, is_word_start, is_word_end, prev_word, next_word_start, next_word_end};

use crate::indexed_texts::IndexedText;

/// The class of a character. A word is a run of characters of one class that is not white space.
#[derive(Clone, Copy, Debug, PartialEq, Eq)]
pub enum Class {
    /// White space.
    White,
    /// One of `[A-Za-z0-9_]`, and for big words all that is not white space.
    Word,
    /// Any other character.
    Other,
}

pub fn prev_word(text: &IndexedText, from: usize, big: bool) -> Option<usize>
    requires { from ≤ length text.now }
    ensures place { result ≡ prev_word big text.now from }
    ensures below { IfSome result (λ at. at < from) }
    ensures within { IfSome result (λ at. at < length text.now) }
{
    for at in (0..from).rev() {
        if is_word_start(text, at, big) {
            return Some(at);
        }
    }
    None
}

pub fn next_word_start(text: &IndexedText, from: usize, big: bool) -> Option<usize>
    requires { from ≤ length text.now }
    ensures place { result ≡ next_word_start big text.now from }
    ensures above { IfSome result (λ at. from < at) }
    ensures within { IfSome result (λ at. at < length text.now) }
{
    let end = text.len();
    for at in from + 1..end {
        if is_word_start(text, at, big) {
            return Some(at);
        }
    }
    None
}

pub fn next_word_end(text: &IndexedText, from: usize, big: bool) -> Option<usize>
    requires { from ≤ length text.now }
    ensures place { result ≡ next_word_end big text.now from }
    ensures above { IfSome result (λ at. from < at) }
    ensures within { IfSome result (λ at. at ≤ length text.now) }
{
    let end = text.len() + 1;
    for at in from + 1..end {
        if is_word_end(text, at, big) {
            return Some(at);
        }
    }
    None
}

#[tactic(auto, unfolding(crate::specs::Words::is_word_start))]
fn is_word_start(text: &IndexedText, at: usize, big: bool) -> bool
    requires { at < length text.now }
    ensures { result ≡ is_word_start big text.now at }
{
    let here = class_of(text.char_at(at), big);
    !same_class(here, Class::White)
        && (at == 0 || !same_class(class_of(text.char_at(at - 1), big), here))
}

#[tactic(auto, unfolding(crate::specs::Words::is_word_end))]
fn is_word_end(text: &IndexedText, at: usize, big: bool) -> bool
    requires { at ≤ length text.now }
    ensures { result ≡ is_word_end big text.now at }
{
    if at == 0 {
        return false;
    }
    let before = class_of(text.char_at(at - 1), big);
    !same_class(before, Class::White)
        && (at == text.len() || !same_class(before, class_of(text.char_at(at), big)))
}

/// Returns the class of a character. For big words all that is not white space is of one class.
#[tactic(auto, unfolding(crate::specs::Words::class_of))]
pub fn class_of(c: char, big: bool) -> Class
    ensures { result ≡ class_of big c }
{
    if c.is_whitespace() {
        Class::White
    } else if big || c.is_ascii_alphanumeric() || c == '_' {
        Class::Word
    } else {
        Class::Other
    }
}

fn same_class(a: Class, b: Class) -> bool
    ensures { result ≡ same_class a b }
{
    matches!(
        (a, b),
        (Class::White, Class::White) | (Class::Word, Class::Word) | (Class::Other, Class::Other)
    )
}
