//! Keys, and a key with the text that was read for it.
use crate::key_text::KeyText;
use sequences::{Item, NoMemory};
use std::alloc::Global;

/// A key of a terminal, or what stands for one.
#[derive(Clone, Copy, Debug, PartialEq, Eq)]
pub enum Key {
    /// A character that is no control character, a space included.
    Char(char),
    /// A letter or sign that was typed with the control key: tab is `Control('i')`, enter `Control('m')`.
    Control(char),
    Escape,
    Up,
    Down,
    Left,
    Right,
    Home,
    End,
    Insert,
    Delete,
    PageUp,
    PageDown,
    /// Tab with the shift key.
    BackTab,
    /// A function key, numbered from 1 to 12.
    Function(u8),
    ShiftUp,
    ShiftDown,
    ShiftLeft,
    ShiftRight,
    ControlUp,
    ControlDown,
    ControlLeft,
    ControlRight,
    /// A whole bracketed paste.
    Paste,
    /// A control sequence that is no known key.
    Ignored,
    /// In a binding, any key; no press has it.
    Any,
}

/// A key, with the characters that were read for it.
#[derive(Debug, Drop)]
pub struct KeyPress {
    pub key: Key,
    /// What came for the key: a plain character itself, the whole sequence of a key that the terminal sends as one, and
    /// that of `Ignored`. A paste holds the pasted text without its marks, with line feeds for its line ends, and at
    /// most its first 32,769 characters.
    pub text: KeyText,
}

impl KeyPress {
    ghost use Rattle.std.specs.Prelude.{◌≡◌, IfOk};

    /// Returns the same key with a text of its own.
    pub fn copy(&self) -> Result<KeyPress, NoMemory>
        ensures { IfOk result (λ press. press ≡ self.now) }
    {
        let text = self.text.copy()?;
        Ok(KeyPress {
            key: self.key,
            text,
        })
    }
}

impl Item for KeyPress {
    fn copied(&self) -> Result<Self, NoMemory> {
        self.copy()
    }
}

impl Item for Key {
    fn copied(&self) -> Result<Self, NoMemory> {
        Ok(*self)
    }

    fn copied_all(alloc: Global, items: &[Self]) -> Result<Vec<Self>, NoMemory> {
        let copies = Vec::from_slice(alloc, items)?;
        Ok(copies)
    }
}
