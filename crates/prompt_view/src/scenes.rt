//! A scene: all that is drawn of a prompt.
use cell_grid::{Attrs, Size};
use std::marker::Model;
use text_doc::{Completion, Doc};
use win_view::Scroll;

/// What is selected between the mark and the cursor.
#[derive(Clone, Copy, Debug, PartialEq, Eq)]
pub enum Selection {
    /// The characters from the lesser of them up to the greater.
    Exclusive,
    /// These and the character at the greater of them.
    Inclusive,
    /// The rows of the text that hold them, and those between.
    Rows,
}

/// Which way a search goes.
#[derive(Clone, Copy, Debug, PartialEq, Eq)]
pub enum Direction {
    Forward,
    Backward,
}

/// The attributes of the classes that a prompt is drawn with.
#[derive(Clone, Copy, Debug)]
pub struct SceneLooks {
    pub prompt: Attrs,
    pub continuation: Attrs,
    pub control: Attrs,
    pub selected: Attrs,
    pub suggestion: Attrs,
    pub right_prompt: Attrs,
    /// Of the items of a menu, other than the chosen one.
    pub menu: Attrs,
    /// Of the chosen item.
    pub chosen: Attrs,
    pub verdict: Attrs,
    pub argument: Attrs,
    pub search: Attrs,
    pub toolbar: Attrs,
}

/// All that is drawn of a prompt. A text that is empty is not there.
#[derive(Drop)]
pub struct Scene<'a> {
    pub message: &'a [char],
    pub doc: &'a Doc,
    /// Whether the lines behind the first begin with as many spaces as the message has columns.
    pub multiline: bool,
    /// Whether a star is drawn for each character.
    pub password: bool,
    /// Whether lines wrap. Lines that don't are cut at the edges of the screen.
    pub wrap: bool,
    pub selection: Selection,
    /// What is suggested behind the text. It is drawn where the cursor is at the text's end.
    pub suggestion: &'a [char],
    /// The items of the menu; none where there is no menu.
    pub items: &'a [Completion],
    /// The number of the chosen item.
    pub chosen: Option<usize>,
    /// The cursor of the document that the items complete.
    pub origin: usize,
    /// Whether a completer works while one types, so that rows are kept for a menu.
    pub completes: bool,
    pub right_prompt: &'a [char],
    /// The message of a verdict.
    pub verdict: &'a [char],
    /// The sign and the digits of an argument.
    pub argument: &'a [char],
    /// Which way a search goes, where there is one.
    pub search: Option<Direction>,
    /// The text that is searched for, of which at most the first 32,768 characters are drawn.
    pub needle: &'a [char],
    pub toolbar: &'a [char],
    /// Whether the prompt has an outcome. Then neither bars nor floats, selection or suggestion are drawn.
    pub finished: bool,
    pub size: Size,
    pub scroll: Scroll,
    /// How many rows there are from the drawing's first one to the screen's last one, where this is known.
    pub room: Option<u32>,
    pub looks: SceneLooks,
}

impl<'a> Model for Scene<'a> {
    ghost use Rattle.prompt_view.specs.Scene.{SceneFields};

    ghost Value = { SceneFields };

    ghost view = { λ s.
        record {
          message = s.message.now;
          document = s.doc.now;
          multiline = s.multiline;
          password = s.password;
          wrap = s.wrap;
          selection = s.selection;
          suggestion = s.suggestion.now;
          items = s.items.now;
          chosen = s.chosen;
          origin = s.origin;
          completes = s.completes;
          right_prompt = s.right_prompt.now;
          verdict = s.verdict.now;
          argument = s.argument.now;
          search = s.search;
          needle = s.needle.now;
          toolbar = s.toolbar.now;
          finished = s.finished;
          size = s.size;
          scroll = s.scroll;
          room = s.room;
          looks = s.looks;
        } };
}
