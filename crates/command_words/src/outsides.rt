//! What the outside of a prompt is to be made of, by the words of the command.
ghost use Rattle.std.specs.Prelude.{◌≡◌, IfOk, map, string_bytes};
ghost use Rattle.command_words.specs.Asked.{asked_of};
ghost use Rattle.command_words.specs.Outside.{outside_by};

use crate::readers::{Asked, read_words};
use cell_grid::Size;
use std::alloc::Global;
use std::marker::Model;
use text_doc::{NoMemory, Text};

/// What a program has to know of the words of the command before it runs a prompt.
#[derive(Debug, Drop)]
pub struct Outside {
    /// Whether they are words of the command.
    pub accepted: bool,
    /// The size that they set, if they do.
    pub size: Option<Size>,
    /// Where they say that the history is kept, if they do.
    pub history: Option<Text>,
}

impl Model for Outside {
    ghost use Rattle.command_words.specs.Outside.{OutsideFields};

    ghost Value = { OutsideFields };

    ghost view = { λ outside. record {
      accepted = outside.accepted;
      size = outside.size;
      history = outside.history;
    } };
}

/// Returns what the words say of the outside, of which the first is the program's name. Words that are not accepted set nothing.
pub fn outside_of(alloc: Global, words: &[String]) -> Result<Outside, NoMemory>
    ensures { IfOk result (λ outside.
        outside ≡ outside_by (asked_of (map string_bytes words.now))) }
{
    match read_words(alloc, words)? {
        Some(Asked { config, history }) => Ok(Outside {
            accepted: true,
            size: config.size(),
            history,
        }),
        None => Ok(Outside {
            accepted: false,
            size: None,
            history: None,
        }),
    }
}
