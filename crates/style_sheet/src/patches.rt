//! What changes together do, whatever the attributes were before.
ghost use Rattle.std.specs.Prelude.{◌≡◌, fold};
ghost use Rattle.style_sheet.specs.Patches.{no_changes, patched, set_flag, with_change};

use crate::changes::{Change, Flag};
use cell_grid::{Attrs, Colour};

/// What each attribute is set to, if it is.
#[derive(Clone, Copy, Debug)]
pub(crate) struct Patch {
    fg: Option<Option<Colour>>,
    bg: Option<Option<Colour>>,
    bold: Option<bool>,
    italic: Option<bool>,
    underline: Option<bool>,
    blink: Option<bool>,
    reverse: Option<bool>,
    hidden: Option<bool>,
    strike: Option<bool>,
}

impl Patch {
    /// Returns the patch that sets nothing.
    pub(crate) fn empty() -> Patch
        ensures { result ≡ no_changes }
    {
        Patch {
            fg: None,
            bg: None,
            bold: None,
            italic: None,
            underline: None,
            blink: None,
            reverse: None,
            hidden: None,
            strike: None,
        }
    }

    /// Returns the attributes after the patch.
    pub(crate) fn applied_to(self, attrs: Attrs) -> Attrs
        ensures { result ≡ patched attrs self }
    {
        Attrs {
            fg: self.fg.unwrap_or(attrs.fg),
            bg: self.bg.unwrap_or(attrs.bg),
            bold: self.bold.unwrap_or(attrs.bold),
            italic: self.italic.unwrap_or(attrs.italic),
            underline: self.underline.unwrap_or(attrs.underline),
            blink: self.blink.unwrap_or(attrs.blink),
            reverse: self.reverse.unwrap_or(attrs.reverse),
            hidden: self.hidden.unwrap_or(attrs.hidden),
            strike: self.strike.unwrap_or(attrs.strike),
        }
    }

    /// Returns the patch that does the same and then the changes, from the first on.
    pub(crate) fn with_all(self, changes: &[Change]) -> Patch
        ensures { result ≡ fold with_change self changes.now }
    {
        let mut patch = self;
        for change in changes {
            patch = patch.with(*change);
        }
        patch
    }

    /// Returns the patch that does the same and then the change.
    fn with(self, change: Change) -> Patch
        ensures { result ≡ with_change self change }
    {
        match change {
            Change::Switch(flag, on) => self.with_flag(flag, on),
            Change::Foreground(fg) => Patch {
                fg: Some(fg),
                ..self
            },
            Change::Background(bg) => Patch {
                bg: Some(bg),
                ..self
            },
        }
    }

    fn with_flag(self, flag: Flag, on: bool) -> Patch
        ensures { result ≡ set_flag self flag on }
    {
        let on = Some(on);
        match flag {
            Flag::Bold => Patch { bold: on, ..self },
            Flag::Italic => Patch { italic: on, ..self },
            Flag::Underline => Patch {
                underline: on,
                ..self
            },
            Flag::Blink => Patch { blink: on, ..self },
            Flag::Reverse => Patch {
                reverse: on,
                ..self
            },
            Flag::Hidden => Patch { hidden: on, ..self },
            Flag::Strike => Patch { strike: on, ..self },
        }
    }
}
