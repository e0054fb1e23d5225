//! The values that settings may have.
ghost use Rattle.std.specs.Prelude.{◌≡◌, not};
ghost use Rattle.std.specs.List.{list_all};
ghost use Rattle.cell_grid.specs.TextCells.{is_control};
ghost use Rattle.prompt_settings.specs.Size.{size_of};
ghost use Rattle.prompt_settings.specs.Value.{is_bar, is_entry, is_on, is_short_line, is_text, is_value, line_count};

use crate::names::Setting;
use crate::numbers::read_number;
use crate::sizes::read_size;
use cell_grid::Size;
use text_doc::Text;

/// The most characters of a message.
const MAX_MESSAGE: usize = 200;

/// The most lines that a run accepts.
const MAX_REPEAT: u64 = 100;

/// The most characters of an entry of a history, and of a first text.
const MAX_TEXT: usize = 32_768;

/// Tells whether the setting may have this value.
pub(crate) fn is_value(setting: Setting, value: &Text) -> bool
    ensures { result ≡ is_value setting value.now }
{
    match setting {
        Setting::Message => is_short_line(value.as_slice()),
        Setting::Toolbar | Setting::RightPrompt => is_bar(value.as_slice()),
        Setting::Default => is_text(value.as_slice()),
        Setting::Multiline | Setting::NoWrap | Setting::Password => is_on(value.as_slice()),
        Setting::Size => size_value(value).is_some(),
        Setting::Repeat => repeat_value(value).is_some(),
        Setting::Entry => is_entry(value.as_slice()),
    }
}

/// Returns the size of a terminal that is written so in a setting.
pub(crate) fn size_value(value: &Text) -> Option<Size>
    ensures { result ≡ size_of 120 value.now }
{
    read_size(value.as_slice(), 'x')
}

/// Returns the number of lines that is written so in a setting.
pub(crate) fn repeat_value(value: &Text) -> Option<u32>
    ensures { result ≡ line_count value.now }
{
    let lines = read_number(value.as_slice(), MAX_REPEAT)?;
    if lines >= 1 { Some(lines as u32) } else { None }
}

/// Tells whether there are enough and few enough characters for an entry of a history.
fn is_entry(text: &[char]) -> bool
    ensures { result ≡ is_entry text.now }
{
    !text.is_empty() && is_text(text)
}

/// Tells whether there are few enough characters for the text of a document.
fn is_text(text: &[char]) -> bool
    ensures { result ≡ is_text text.now }
{
    text.len() <= MAX_TEXT
}

/// Tells whether there is a character, and a line may be drawn of them.
fn is_bar(text: &[char]) -> bool
    ensures { result ≡ is_bar text.now }
{
    !text.is_empty() && is_short_line(text)
}

/// Tells whether this is the value that switches something on.
fn is_on(text: &[char]) -> bool
    ensures { result ≡ is_on text.now }
{
    text == ['o', 'n'].as_slice()
}

/// Tells whether there are few enough characters, none of them a control character.
fn is_short_line(text: &[char]) -> bool
    ensures { result ≡ is_short_line text.now }
{
    text.len() <= MAX_MESSAGE && has_no_control(text)
}

/// Tells whether no character is a control character.
fn has_no_control(text: &[char]) -> bool
    ensures { result ≡ list_all (λ c. not (is_control c)) text.now }
{
    text.iter().all(|c| !is_control(*c))
}

/// Tells whether the character is one of Unicode's control characters.
fn is_control(c: char) -> bool
    ensures { result ≡ is_control c }
{
    c < ' ' || (c >= '\u{7f}' && c < '\u{a0}')
}
