//! Colours and the attributes of a cell.
/// A colour of a character or of its background.
#[derive(Clone, Copy, Debug)]
pub enum Colour {
    /// One of the terminal's own colours: 0 to 7 are the normal ones, 8 to 15 the bright ones.
    Ansi(u8),
    /// Red, green and blue.
    Rgb(u8, u8, u8),
}

impl PartialEq for Colour {
    ghost use Rattle.cell_grid.specs.Attrs.{same_colour};
    ghost use Rattle.cell_grid.specs.Same.{same_colour-is_partial_equivalence};

    ghost eq = { same_colour };

    ghost laws = { same_colour-is_partial_equivalence };

    fn eq(&self, other: &Colour) -> bool {
        match (self, other) {
            (Colour::Ansi(n), Colour::Ansi(m)) => *n == *m,
            (Colour::Rgb(r, g, b), Colour::Rgb(s, h, c)) => *r == *s && *g == *h && *b == *c,
            _ => false,
        }
    }
}

impl Eq for Colour {
    ghost use Rattle.cell_grid.specs.Same.{same_colour-is_equivalence};

    ghost laws = { same_colour-is_equivalence };
}

/// How a cell's character is drawn. No colour is the terminal's default.
#[derive(Clone, Copy, PartialEq, Eq, Debug)]
pub struct Attrs {
    pub fg: Option<Colour>,
    pub bg: Option<Colour>,
    pub bold: bool,
    pub italic: bool,
    pub underline: bool,
    pub blink: bool,
    pub reverse: bool,
    pub hidden: bool,
    pub strike: bool,
}

impl Attrs {
    ghost use Rattle.std.specs.Prelude.{◌≡◌};
    ghost use Rattle.cell_grid.specs.Attrs.{plain};

    /// Returns no colours and no other attribute.
    pub fn plain() -> Attrs
        ensures { result ≡ plain }
    {
        Attrs {
            fg: None,
            bg: None,
            bold: false,
            italic: false,
            underline: false,
            blink: false,
            reverse: false,
            hidden: false,
            strike: false,
        }
    }
}
