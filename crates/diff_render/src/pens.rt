//! What a pen gains beside the attributes that it has.
ghost use Rattle.std.specs.Prelude.{◌≡◌};
ghost use Rattle.cell_grid.specs.Drawable.{IsColour, IsPen};
ghost use Rattle.diff_render.specs.Spelling.{joined};

use cell_grid::{Attrs, Colour};

/// Returns a colour that is not the old one, or none.
fn other_colour(old: Option<Colour>, new: Option<Colour>) -> Option<Colour>
    requires { IsColour new }
    ensures { IsColour result }
{
    if new == old { None } else { new }
}

/// Returns the attributes that a pen lacks of another one.
pub(crate) fn lacking(pen: &Attrs, other: &Attrs) -> Attrs
    requires { IsPen other.now }
    ensures { IsPen result }
{
    Attrs {
        fg: other_colour(pen.fg, other.fg),
        bg: other_colour(pen.bg, other.bg),
        bold: other.bold && !pen.bold,
        italic: other.italic && !pen.italic,
        underline: other.underline && !pen.underline,
        blink: other.blink && !pen.blink,
        reverse: other.reverse && !pen.reverse,
        hidden: other.hidden && !pen.hidden,
        strike: other.strike && !pen.strike,
    }
}

/// Returns a pen with more attributes beside its own.
pub(crate) fn joined(pen: &Attrs, more: &Attrs) -> Attrs
    ensures { result ≡ joined pen.now more.now }
{
    Attrs {
        fg: more.fg.or(pen.fg),
        bg: more.bg.or(pen.bg),
        bold: more.bold || pen.bold,
        italic: more.italic || pen.italic,
        underline: more.underline || pen.underline,
        blink: more.blink || pen.blink,
        reverse: more.reverse || pen.reverse,
        hidden: more.hidden || pen.hidden,
        strike: more.strike || pen.strike,
    }
}
