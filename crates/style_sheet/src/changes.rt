//! What a word of a rule changes.
ghost use Rattle.std.specs.Prelude.{◌≡◌, fold};
ghost use Rattle.style_sheet.specs.Cascade.{changed, switched};

use cell_grid::{Attrs, Colour};

/// An attribute that is on or off.
#[derive(Clone, Copy, Debug)]
pub(crate) enum Flag {
    Bold,
    Italic,
    Underline,
    Blink,
    Reverse,
    Hidden,
    Strike,
}

/// What one word of a rule changes. No colour is the terminal's own.
#[derive(Clone, Copy, Debug)]
pub(crate) enum Change {
    Switch(Flag, bool),
    Foreground(Option<Colour>),
    Background(Option<Colour>),
}

impl Change {
    /// Returns the attributes after the change.
    pub(crate) fn applied_to(self, attrs: Attrs) -> Attrs
        ensures { result ≡ changed attrs self }
    {
        match self {
            Change::Switch(flag, on) => switched(attrs, flag, on),
            Change::Foreground(fg) => Attrs { fg, ..attrs },
            Change::Background(bg) => Attrs { bg, ..attrs },
        }
    }
}

/// Returns the attributes after changes, from the first on.
pub(crate) fn apply_all(attrs: Attrs, changes: &[Change]) -> Attrs
    ensures { result ≡ fold changed attrs changes.now }
{
    let mut attrs = attrs;
    for change in changes {
        attrs = change.applied_to(attrs);
    }
    attrs
}

fn switched(attrs: Attrs, flag: Flag, on: bool) -> Attrs
    ensures { result ≡ switched attrs flag on }
{
    match flag {
        Flag::Bold => Attrs { bold: on, ..attrs },
        Flag::Italic => Attrs {
            italic: on,
            ..attrs
        },
        Flag::Underline => Attrs {
            underline: on,
            ..attrs
        },
        Flag::Blink => Attrs { blink: on, ..attrs },
        Flag::Reverse => Attrs {
            reverse: on,
            ..attrs
        },
        Flag::Hidden => Attrs {
            hidden: on,
            ..attrs
        },
        Flag::Strike => Attrs {
            strike: on,
            ..attrs
        },
    }
}
