//! Where the windows of a layout stand.
ghost use Rattle.std.specs.Prelude.{◌≡◌, ◌<◌, length, slice_get, slice_set, IfSome};

use crate::Pane;
use cell_grid::{NoMemory, Size};
use sequences::{Item, Sequence};
use std::marker::Model;
use win_view::Scroll;

/// A window at its place. It shows its pane from this scroll on, at first the pane's own.
#[derive(Drop)]
pub struct Placed<'a> {
    pub pane: &'a Pane,
    pub scroll: Scroll,
    pub row: u32,
    pub col: u32,
    pub size: Size,
}

impl<'a> Model for Placed<'a> {
    ghost use Rattle.box_layout.specs.Placed.{PlacedFields};

    ghost Value = { PlacedFields };

    ghost view = { λ p.
        record { pane = p.pane.now; scroll = p.scroll; row = p.row; col = p.col; size = p.size } };
}

impl<'a> Placed<'a> {
    /// Returns the same window at the same place, shown from this scroll on.
    pub fn at_scroll(&self, scroll: Scroll) -> Placed<'a>
        ensures { result ≡ record self.now { scroll = scroll } }
    {
        Placed {
            pane: self.pane,
            scroll,
            row: self.row,
            col: self.col,
            size: self.size,
        }
    }
}

impl<'a> Item for Placed<'a> {
    fn copied(&self) -> Result<Placed<'a>, NoMemory> {
        Ok(self.at_scroll(self.scroll))
    }
}

/// Windows at their places, in the order in which they are painted.
pub type PlacedList<'a> = Sequence<Placed<'a>>;

/// Lets the window at a place of the list, counted from 0, be shown from this scroll on.
pub fn set_scroll(placed: &mut PlacedList, place: usize, scroll: Scroll)
    requires { place < length placed.old }
    ensures { IfSome (slice_get placed.old place)
        (λ p. placed.new ≡ slice_set placed.old place (record p { scroll = scroll })) }
{
    if let Some(one) = placed.get(place) {
        let moved = one.at_scroll(scroll);
        placed.set(place, moved);
    }
}
