//! The state that keys edit, and what a command answers.
ghost use Rattle.std.specs.Prelude.{◌≡◌};

use crate::Arg;
use edit_buffer::{Buffer, Ring};
use text_doc::{Doc, Text};

/// What a command did, and what it asks of the one who runs it.
#[derive(Clone, Copy, Debug, PartialEq, Eq)]
pub enum Done {
    /// A part of the state differs from before, beside the previous command.
    Changed,
    /// All is as before.
    Same,
    /// The command had nothing to do, or could not do it.
    Bell,
    /// The completions of the document are wanted.
    StartComplete,
    /// The text is to be accepted.
    Accept,
    /// The prompt is to end without a text.
    Interrupt,
    /// The input is to end.
    EndOfFile,
}

/// An incremental search.
#[derive(Debug, Drop)]
pub struct Search {
    /// What is searched for.
    pub needle: Text,
    pub forward: bool,
    /// The number of the working line where the search started.
    pub line: usize,
    /// The place of the cursor where the search started.
    pub at: usize,
}

/// All that commands edit.
#[derive(Drop)]
pub struct EditState {
    pub buffer: Buffer,
    pub ring: Ring,
    /// The argument for the next command.
    pub arg: Option<Arg>,
    /// The number of the command that ran last.
    pub previous: Option<u32>,
    pub search: Option<Search>,
    /// What is suggested to stand behind the text.
    pub suggestion: Option<Text>,
    /// The column that moves by rows keep.
    pub column: Option<usize>,
    /// The document from before the last paste from the ring.
    pub before_paste: Option<Doc>,
    /// Whether the text may have several lines.
    pub multiline: bool,
}

impl EditState {
    ghost use Rattle.edit_state.specs.States.{opened};

    /// Returns a state of this buffer and ring that holds nothing else.
    pub fn new(buffer: Buffer, ring: Ring, multiline: bool) -> EditState
        ensures { result ≡ opened buffer ring multiline }
    {
        EditState {
            buffer,
            ring,
            arg: None,
            previous: None,
            search: None,
            suggestion: None,
            column: None,
            before_paste: None,
            multiline,
        }
    }
}
