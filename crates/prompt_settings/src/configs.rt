//! The settings, and how they are set by name.
ghost use Rattle.std.specs.Prelude.{◌≡◌, ◌↔◌, ◌≤◌, [], length, not, unwrap_or, Err, IfOk, IsTrue, OnErr, OnOk, Some, None};
ghost use Rattle.prompt_settings.specs.Name.{was_set};
ghost use Rattle.prompt_settings.specs.Refusal.{refusal_of, with_setting};
ghost use Rattle.prompt_settings.specs.Settings.{default_of, message_of, no_settings, repeat_of, right_prompt_of, toolbar_of};
ghost use Rattle.prompt_settings.specs.Value.{is_value, with_value};

use crate::names::{Setting, setting_named};
use crate::values::{is_value, repeat_value, size_value};
use cell_grid::Size;
use std::alloc::Global;
use std::marker::Model;
use text_doc::{NoMemory, Text};
use thiserror::Error;

/// Why a value was not set.
#[derive(Clone, Copy, Debug, PartialEq, Eq, Error)]
pub enum SetFault {
    /// No setting has this name.
    #[error("no setting has this name")]
    UnknownName,
    /// The setting has a value already.
    #[error("the setting was set before")]
    Repeated,
    /// The setting may not have this value.
    #[error("the setting may not have this value")]
    BadValue,
    /// There was no memory for the value.
    #[error("no memory for the setting")]
    NoMemory,
}

impl From<NoMemory> for SetFault {
    ghost use Rattle.std.specs.Prelude.{◌≡◌};
    ghost use Rattle.prompt_settings.specs.declared.configs.SetFault.TheVariants.{NoMemory};

    ghost from_gives = { λ _ fault. fault ≡ NoMemory };

    fn from(_error: NoMemory) -> SetFault {
        SetFault::NoMemory
    }
}

/// The settings of a prompt.
#[derive(Debug, Drop)]
pub struct Config {
    message: Option<Text>,
    toolbar: Option<Text>,
    right_prompt: Option<Text>,
    default: Option<Text>,
    multiline: bool,
    no_wrap: bool,
    password: bool,
    size: Option<Size>,
    repeat: Option<u32>,
}

impl Model for Config {
    ghost use Rattle.prompt_settings.specs.Settings.{Settings};

    ghost Value = { Settings };

    ghost view = { λ config. record {
      message = config.message;
      toolbar = config.toolbar;
      right_prompt = config.right_prompt;
      default = config.default;
      multiline = config.multiline;
      no_wrap = config.no_wrap;
      password = config.password;
      size = config.size;
      repeat = config.repeat;
    } };

    ghost use Rattle.prompt_settings.specs.Value.{IsSettings};

    ghost invariant = { λ config. IsSettings (record {
      message = config.message;
      toolbar = config.toolbar;
      right_prompt = config.right_prompt;
      default = config.default;
      multiline = config.multiline;
      no_wrap = config.no_wrap;
      password = config.password;
      size = config.size;
      repeat = config.repeat;
    }) };
}

impl Config {
    /// Returns the settings where none was set.
    pub fn new(_alloc: Global) -> Result<Config, NoMemory>
        ensures { IfOk result (λ config. config ≡ no_settings) }
    {
        Ok(Config {
            message: None,
            toolbar: None,
            right_prompt: None,
            default: None,
            multiline: false,
            no_wrap: false,
            password: false,
            size: None,
            repeat: None,
        })
    }

    /// Sets the value of a name.
    ///
    /// `message` is the text before the first line that is typed: at most 200 characters, none of them a control
    /// character. So are `toolbar`, the text of a bar below all else, and `rprompt`, the text at the right end of the first
    /// row, but neither is empty. `default` is the text that each prompt begins with, of at most 32,768 characters. `multiline`,
    /// `no-wrap` and `password` are switched on by `on`: the text may have several lines, its lines are cut at the edges of the
    /// screen, and a star is drawn for each character. `size` is the size of the terminal, as `24x80`: 1 to 500 rows and 1 to 1,000 columns. `repeat` is how many
    /// lines a run accepts before it ends, from 1 to 100. `entry` is an entry of the history, of 1 to 32,768 characters: its
    /// value is only tried here, any number of times, and who sets it hands the entries to the session.
    ///
    /// # Errors
    ///
    /// The first of `UnknownName`, `Repeated` and `BadValue` that is there. After each error the settings are as
    /// before.
    pub fn set(&mut self, name: &str, value: &Text) -> Result<(), SetFault>
        ensures unknown_name { (result ≡ Err SetFault.UnknownName)
            ↔ (refusal_of self.old name.now value.now ≡ Some SetFault.UnknownName) }
        ensures repeated { (result ≡ Err SetFault.Repeated)
            ↔ (refusal_of self.old name.now value.now ≡ Some SetFault.Repeated) }
        ensures bad_value { (result ≡ Err SetFault.BadValue)
            ↔ (refusal_of self.old name.now value.now ≡ Some SetFault.BadValue) }
        ensures accepted { OnOk result (refusal_of self.old name.now value.now ≡ None) }
        ensures ok { OnOk result (self.new ≡ with_setting self.old name.now value.now) }
        ensures err { OnErr result (self.new ≡ self.old) }
    {
        let Some(setting) = setting_named(name) else {
            return Err(SetFault::UnknownName);
        };
        if self.was_set(setting) {
            return Err(SetFault::Repeated);
        }
        if !is_value(setting, value) {
            return Err(SetFault::BadValue);
        }
        self.put(setting, value)?;
        Ok(())
    }

    /// Sets a value, whatever was set before.
    fn put(&mut self, setting: Setting, value: &Text) -> Result<(), NoMemory>
        requires { IsTrue (is_value setting value.now) }
        ensures ok { OnOk result (self.new ≡ with_value setting value.now self.old) }
        ensures err { OnErr result (self.new ≡ self.old) }
    {
        match setting {
            Setting::Message => self.message = Some(value.copy()?),
            Setting::Toolbar => self.toolbar = Some(value.copy()?),
            Setting::RightPrompt => self.right_prompt = Some(value.copy()?),
            Setting::Default => self.default = Some(value.copy()?),
            Setting::Multiline => self.multiline = true,
            Setting::NoWrap => self.no_wrap = true,
            Setting::Password => self.password = true,
            Setting::Size => self.size = size_value(value),
            Setting::Repeat => self.repeat = repeat_value(value),
            Setting::Entry => {}
        }
        Ok(())
    }

    /// Tells whether the setting has a value.
    fn was_set(&self, setting: Setting) -> bool
        ensures { result ≡ was_set setting self.now }
    {
        match setting {
            Setting::Message => self.message.is_some(),
            Setting::Toolbar => self.toolbar.is_some(),
            Setting::RightPrompt => self.right_prompt.is_some(),
            Setting::Default => self.default.is_some(),
            Setting::Multiline => self.multiline,
            Setting::NoWrap => self.no_wrap,
            Setting::Password => self.password,
            Setting::Size => self.size.is_some(),
            Setting::Repeat => self.repeat.is_some(),
            Setting::Entry => false,
        }
    }

    /// Returns the text before the first line that is typed: the message that was set, or `> `.
    pub fn message(&self) -> &[char]
        ensures message { result.now ≡ message_of self.now }
        ensures short { length result.now ≤ 200 }
    {
        match &self.message {
            Some(message) => message.as_slice(),
            None => &['>', ' '],
        }
    }

    /// Returns the text of the bar below all else; none where it is empty.
    pub fn toolbar(&self) -> &[char]
        ensures text { result.now ≡ toolbar_of self.now }
        ensures short { length result.now ≤ 200 }
    {
        text_of(&self.toolbar)
    }

    /// Returns the text at the right end of the first row; none where it is empty.
    pub fn right_prompt(&self) -> &[char]
        ensures text { result.now ≡ right_prompt_of self.now }
        ensures short { length result.now ≤ 200 }
    {
        text_of(&self.right_prompt)
    }

    /// Returns the text that each prompt begins with.
    pub fn default(&self) -> &[char]
        ensures text { result.now ≡ default_of self.now }
        ensures short { length result.now ≤ 32768 }
    {
        text_of(&self.default)
    }

    /// Tells whether the text may have several lines.
    pub fn multiline(&self) -> bool
        ensures { result ≡ self.now.multiline }
    {
        self.multiline
    }

    /// Tells whether lines wrap. Those that don't are cut at the edges of the screen.
    pub fn wraps(&self) -> bool
        ensures { result ≡ not self.now.no_wrap }
    {
        !self.no_wrap
    }

    /// Tells whether a star is drawn for each character.
    pub fn password(&self) -> bool
        ensures { result ≡ self.now.password }
    {
        self.password
    }

    /// Returns how many lines a run accepts before it ends: the number that was set, or 1.
    pub fn repeat(&self) -> u32
        ensures lines { result ≡ repeat_of self.now }
        ensures some { 1 ≤ result }
        ensures few { result ≤ 100 }
    {
        self.repeat.unwrap_or(1)
    }

    /// Returns the size of the terminal that was set.
    pub fn size(&self) -> Option<Size>
        ensures { result ≡ self.now.size }
    {
        self.size
    }
}

/// Returns a text that may have been set.
fn text_of(text: &Option<Text>) -> &[char]
    ensures { result.now ≡ unwrap_or text.now [] }
{
    match text {
        Some(text) => text.as_slice(),
        None => &[],
    }
}
