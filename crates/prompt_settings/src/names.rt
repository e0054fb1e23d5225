//! The names of settings.
ghost use Rattle.std.specs.Prelude.{◌≡◌};
ghost use Rattle.prompt_settings.specs.Name.{setting_named};

/// What can be set.
#[derive(Clone, Copy, Debug, PartialEq, Eq)]
pub enum Setting {
    /// The text before the first line that is typed.
    Message,
    /// The text of the bar below all else.
    Toolbar,
    /// The text at the right end of the first row.
    RightPrompt,
    /// The text that each prompt begins with.
    Default,
    /// The text may have several lines.
    Multiline,
    /// Lines are cut at the edges of the screen.
    NoWrap,
    /// A star is drawn for each character.
    Password,
    /// The size of the terminal.
    Size,
    /// How many lines a run accepts before it ends.
    Repeat,
    /// An entry of the history, which scripts alone set.
    Entry,
}

/// Returns the setting that has this name.
pub(crate) fn setting_named(name: &str) -> Option<Setting>
    ensures { result ≡ setting_named name.now }
{
    match name {
        "message" => Some(Setting::Message),
        "toolbar" => Some(Setting::Toolbar),
        "rprompt" => Some(Setting::RightPrompt),
        "default" => Some(Setting::Default),
        "multiline" => Some(Setting::Multiline),
        "no-wrap" => Some(Setting::NoWrap),
        "password" => Some(Setting::Password),
        "size" => Some(Setting::Size),
        "repeat" => Some(Setting::Repeat),
        "entry" => Some(Setting::Entry),
        _ => None,
    }
}
