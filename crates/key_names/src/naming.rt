//! The names of keys, read and written.
ghost use Rattle.std.specs.Prelude.{◌≡◌, ◌≢◌, ◌↔◌, [], ◌∷◌, ℕ, ◌==◌, ◌&&◌, not, IsSome, IfSome, IfNone, IfOk, IsErr};
ghost use Rattle.std.specs.Prelude.{IsTrue};
ghost use Rattle.std.specs.Option.{option_copied};
ghost use Rattle.std.specs.Str.{chars};
ghost use Rattle.key_names.specs.declared.key.Key.{Key};
ghost use Rattle.key_names.specs.KeyName.{name_of, word_of, control_name, function_name, is_control_letter, is_plain};

use crate::key::Key;
use crate::key_text::{KeyText, text_of_codes};
use sequences::NoMemory;
use std::alloc::Global;
use thiserror::Error;

/// No key has the name that was to be read.
#[derive(Clone, Copy, Debug, PartialEq, Eq, Error)]
#[error("no key has this name")]
pub struct UnknownKey;

/// The keys that are named by a word.
const WORD_KEYS: [Key; 36] = [
    Key::Char(' '),
    Key::Escape,
    Key::Up,
    Key::Down,
    Key::Left,
    Key::Right,
    Key::Home,
    Key::End,
    Key::Insert,
    Key::Delete,
    Key::PageUp,
    Key::PageDown,
    Key::BackTab,
    Key::Function(1),
    Key::Function(2),
    Key::Function(3),
    Key::Function(4),
    Key::Function(5),
    Key::Function(6),
    Key::Function(7),
    Key::Function(8),
    Key::Function(9),
    Key::Function(10),
    Key::Function(11),
    Key::Function(12),
    Key::ShiftUp,
    Key::ShiftDown,
    Key::ShiftLeft,
    Key::ShiftRight,
    Key::ControlUp,
    Key::ControlDown,
    Key::ControlLeft,
    Key::ControlRight,
    Key::Paste,
    Key::Ignored,
    Key::Any,
];

/// Reads the name of a key, as `c-x`, `s-tab` or `f5`. A character is its own name, but a space is `space`.
pub fn read_name(name: &str) -> Result<Key, UnknownKey>
    ensures named { IfOk result (λ key. name_of key ≡ Some (chars name.now)) }
    ensures known { (key : Key) → name_of key ≡ Some (chars name.now) → result ≡ Ok key }
    ensures unknown { IsErr result ↔ ((key : Key) → name_of key ≢ Some (chars name.now)) }
{
    match find_key(name) {
        Some(key) => Ok(key),
        None => Err(UnknownKey),
    }
}

/// Writes the name of a key that has one.
pub fn write_name(alloc: Global, key: Key) -> Result<KeyText, NoMemory>
    requires { IsSome (name_of key) }
    ensures { IfOk result (λ text. name_of key ≡ Some text) }
{
    match key {
        Key::Control(letter) => control_text(alloc, letter),
        Key::Char(c) if c != ' ' => KeyText::from_slice(alloc, &[c]),
        _ => match word_of(key) {
            Some(word) => text_of_codes(alloc, word),
            None => unreachable!(),
        },
    }
}

/// Returns the name of the control key that is typed with this.
fn control_text(alloc: Global, letter: char) -> Result<KeyText, NoMemory>
    ensures { IfOk result (λ text. text ≡ 99 ∷ 45 ∷ letter ∷ []) }
{
    let mut text = text_of_codes(alloc, b"c-")?;
    text.push(letter)?;
    Ok(text)
}

/// Returns the key of a name, if there is one.
fn find_key(name: &str) -> Option<Key>
    ensures found { IfSome result (λ key. name_of key ≡ Some (chars name.now)) }
    ensures none { IfNone result ((key : Key) → name_of key ≢ Some (chars name.now)) }
{
    if let Some(c) = lone_char(name) {
        return if is_name(c) { Some(Key::Char(c)) } else { None };
    }
    let bytes = name.as_bytes();
    match control_letter(bytes) {
        Some(letter) => Some(Key::Control(letter as char)),
        None => find_word(bytes),
    }
}

/// Returns what a control key is typed with, by its name.
fn control_letter(name: &[u8]) -> Option<u8>
    ensures found { IfSome result (λ letter. control_name letter ≡ Some name.now) }
    ensures none { IfNone result ((letter : ℕ) → control_name letter ≢ Some name.now) }
{
    match name {
        [b'c', b'-', letter] => if is_control_letter(*letter) {
            Some(*letter)
        } else {
            None
        },
        _ => None,
    }
}

/// Returns the one character of a text.
fn lone_char(text: &str) -> Option<char>
    ensures found { IfSome result (λ c. chars text.now ≡ c ∷ []) }
    ensures none { IfNone result ((c : ℕ) → chars text.now ≢ c ∷ []) }
{
    let mut chars = text.chars();
    let first = chars.next()?;
    match chars.next() {
        Some(_) => None,
        None => Some(first),
    }
}

/// Tells whether the character names itself.
fn is_name(c: char) -> bool
    ensures { result ≡ (is_plain c && not (c == 32)) }
{
    ' ' < c && c != '\u{7F}'
}

/// Tells whether the character of this byte may be typed with the control key.
fn is_control_letter(byte: u8) -> bool
    ensures { result ≡ is_control_letter byte }
{
    matches!(byte, b'@' | b'a'..=b'z' | b'\\'..=b'_')
}

/// Finds the key whose word is the name.
fn find_word(name: &[u8]) -> Option<Key>
    ensures found { IfSome result (λ key. word_of key ≡ Some name.now) }
    ensures none { IfNone result ((key : Key) → word_of key ≢ Some name.now) }
{
    for key in WORD_KEYS {
        if is_word(key, name) {
            return Some(key);
        }
    }
    None
}

/// Tells whether the key is named by this word.
fn is_word(key: Key, name: &[u8]) -> bool
    ensures { IsTrue result ↔ (word_of key ≡ Some name.now) }
{
    match word_of(key) {
        Some(word) => word == name,
        None => false,
    }
}

/// Returns the word that names a key.
fn word_of(key: Key) -> Option<&'static [u8]>
    ensures { option_copied result ≡ word_of key }
{
    match key {
        Key::Char(c) => if c == ' ' { Some(b"space") } else { None },
        Key::Control(_) => None,
        Key::Escape => Some(b"escape"),
        Key::Up => Some(b"up"),
        Key::Down => Some(b"down"),
        Key::Left => Some(b"left"),
        Key::Right => Some(b"right"),
        Key::Home => Some(b"home"),
        Key::End => Some(b"end"),
        Key::Insert => Some(b"insert"),
        Key::Delete => Some(b"delete"),
        Key::PageUp => Some(b"pageup"),
        Key::PageDown => Some(b"pagedown"),
        Key::BackTab => Some(b"s-tab"),
        Key::Function(number) => function_word(number),
        Key::ShiftUp => Some(b"s-up"),
        Key::ShiftDown => Some(b"s-down"),
        Key::ShiftLeft => Some(b"s-left"),
        Key::ShiftRight => Some(b"s-right"),
        Key::ControlUp => Some(b"c-up"),
        Key::ControlDown => Some(b"c-down"),
        Key::ControlLeft => Some(b"c-left"),
        Key::ControlRight => Some(b"c-right"),
        Key::Paste => Some(b"paste"),
        Key::Ignored => Some(b"ignored"),
        Key::Any => Some(b"any"),
    }
}

/// Returns the word that names a function key.
fn function_word(number: u8) -> Option<&'static [u8]>
    ensures { option_copied result ≡ function_name number }
{
    match number {
        1 => Some(b"f1"),
        2 => Some(b"f2"),
        3 => Some(b"f3"),
        4 => Some(b"f4"),
        5 => Some(b"f5"),
        6 => Some(b"f6"),
        7 => Some(b"f7"),
        8 => Some(b"f8"),
        9 => Some(b"f9"),
        10 => Some(b"f10"),
        11 => Some(b"f11"),
        12 => Some(b"f12"),
        _ => None,
    }
}
