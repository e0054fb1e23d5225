//! The classes in use.
ghost use Rattle.std.specs.Prelude.{◌≡◌, ◌≢◌, ◌<◌, ◌↔◌, IfSome, IfNone, IsTrue};
ghost use Rattle.style_sheet.specs.declared.classes.Class.{Class};
ghost use Rattle.style_sheet.specs.declared.classes.TheConstants.{CLASS_COUNT};
ghost use Rattle.style_sheet.specs.ClassName.{class_name, default_of, place};

use crate::changes::{Change, Flag};
use cell_grid::Colour;

/// What a part of a prompt is drawn as.
#[derive(Clone, Copy, Debug)]
pub(crate) enum Class {
    Prompt,
    Continuation,
    RightPrompt,
    ArgToolbar,
    SearchToolbar,
    ControlCharacter,
    Selected,
    BottomToolbar,
    AutoSuggestion,
    ValidationToolbar,
    CompletionMenu,
    /// A completion in the menu.
    Completion,
    /// The completion that stands in the text.
    CurrentCompletion,
}

/// How many classes there are.
pub(crate) const CLASS_COUNT: usize = 13;

/// Every class.
const CLASSES: [Class; CLASS_COUNT] = [
    Class::Prompt,
    Class::Continuation,
    Class::RightPrompt,
    Class::ArgToolbar,
    Class::SearchToolbar,
    Class::ControlCharacter,
    Class::Selected,
    Class::BottomToolbar,
    Class::AutoSuggestion,
    Class::ValidationToolbar,
    Class::CompletionMenu,
    Class::Completion,
    Class::CurrentCompletion,
];

/// Returns the class with this name.
pub(crate) fn find_class(name: &[u8]) -> Option<Class>
    ensures found { IfSome result (λ class. class_name class ≡ name.now) }
    ensures none { IfNone result ((class : Class) → class_name class ≢ name.now) }
{
    for class in CLASSES {
        if is_named(class, name) {
            return Some(class);
        }
    }
    None
}

fn is_named(class: Class, name: &[u8]) -> bool
    ensures { IsTrue result ↔ (class_name class ≡ name.now) }
{
    class_name(class) == name
}

fn class_name(class: Class) -> &'static [u8]
    ensures { result.now ≡ class_name class }
{
    match class {
        Class::Prompt => b"prompt",
        Class::Continuation => b"continuation",
        Class::RightPrompt => b"right-prompt",
        Class::ArgToolbar => b"arg-toolbar",
        Class::SearchToolbar => b"search-toolbar",
        Class::ControlCharacter => b"control-character",
        Class::Selected => b"selected",
        Class::BottomToolbar => b"bottom-toolbar",
        Class::AutoSuggestion => b"auto-suggestion",
        Class::ValidationToolbar => b"validation-toolbar",
        Class::CompletionMenu => b"completion-menu",
        Class::Completion => b"completion-menu.completion",
        Class::CurrentCompletion => b"completion-menu.completion.current",
    }
}

impl Class {
    /// Returns the place of the class among all of them.
    pub(crate) fn place(self) -> usize
        ensures is { result ≡ place self }
        ensures below { result < CLASS_COUNT }
    {
        self as usize
    }

    /// Returns what the class changes where no rule is for it.
    pub(crate) fn default_changes(self) -> &'static [Change]
        ensures { result.now ≡ default_of self }
    {
        match self {
            Class::ControlCharacter => &[Change::Foreground(Some(Colour::Ansi(4)))],
            Class::Selected | Class::BottomToolbar | Class::CurrentCompletion => &[Change::Switch(
                Flag::Reverse,
                true,
            )],
            Class::AutoSuggestion => &[Change::Foreground(Some(Colour::Ansi(8)))],
            Class::CompletionMenu => &[
                Change::Foreground(Some(Colour::Ansi(0))),
                Change::Background(Some(Colour::Ansi(7))),
            ],
            Class::ValidationToolbar => &[
                Change::Foreground(Some(Colour::Ansi(7))),
                Change::Background(Some(Colour::Ansi(1))),
            ],
            _ => &[],
        }
    }
}
