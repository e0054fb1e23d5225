//! Texts, bytes, and lists of texts.
ghost use Rattle.std.specs.Prelude.{◌≡◌, ◌<◌, ◌↔◌, IfOk, IsTrue, chars, encode_utf8_all, length, slice_index};

use crate::{NoMemory, Sequence};
use std::alloc::Global;

/// A list of characters.
pub type Text = Sequence<char>;

/// A list of bytes.
pub type Bytes = Sequence<u8>;

/// A list of texts.
pub type Lines = Sequence<Text>;

impl Sequence<char> {
    /// Returns a text of these characters.
    pub fn from_chars(alloc: Global, chars: &[char]) -> Result<Text, NoMemory>
        ensures { IfOk result (λ text. text ≡ chars.now) }
    {
        let text = Sequence::from_slice(alloc, chars)?;
        Ok(text)
    }

    /// Returns the text of the characters of `words`.
    pub fn read_str(alloc: Global, words: &str) -> Result<Text, NoMemory>
        ensures { IfOk result (λ text. text ≡ chars words.now) }
    {
        let characters = words.chars().collect::<Vec<char>>(alloc)?;
        Ok(Sequence::from_vec(characters))
    }

    /// Returns the character at the place `at`.
    pub fn char_at(&self, at: usize) -> char
        requires { at < length self.now }
        ensures { result ≡ slice_index self.now at }
    {
        self.as_slice()[at]
    }

    /// Returns whether the text is these characters.
    pub fn equals(&self, chars: &[char]) -> bool
        ensures { IsTrue result ↔ (self.now ≡ chars.now) }
    {
        self.as_slice() == chars
    }

    /// Returns the UTF-8 encoding of the text.
    pub fn to_utf8(&self) -> Result<Bytes, NoMemory>
        ensures { IfOk result (λ bytes. bytes ≡ encode_utf8_all self.now) }
    {
        let chars = self.as_slice();
        let mut words = String::new(self.allocator());
        for c in chars {
            words.push(*c)?;
        }
        Ok(Sequence::from_vec(words.into_bytes()))
    }
}
