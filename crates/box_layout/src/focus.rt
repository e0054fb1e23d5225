//! The cursor of windows at their places.
ghost use Rattle.std.specs.Prelude.{◌≡◌, ◌≤◌};
ghost use Rattle.box_layout.specs.Painting.{cursor, cursor_of};
ghost use Rattle.box_layout.specs.Placed.{AllOnScreen};

use crate::{Pane, Placed};
use win_view::seen_cursor;

/// Returns the row and the column of the cursor of the last window with the focus.
pub fn cursor_of_all(placed: &[Placed]) -> Option<(u32, u32)>
    requires { AllOnScreen placed.now }
    ensures { result ≡ cursor placed.now }
{
    let mut place = None;
    for one in placed {
        let pane: &Pane = one.pane;
        if pane.focus {
            place = Some(cursor_of(one));
        }
    }
    place
}

/// Returns the row and the column of a window's cursor.
fn cursor_of(placed: &Placed) -> (u32, u32)
    requires row { placed.now.row ≤ 1000 }
    requires col { placed.now.col ≤ 1000 }
    ensures { result ≡ cursor_of placed.now }
{
    let pane: &Pane = placed.pane;
    let (row, col) = seen_cursor(&pane.content, placed.size, placed.scroll);
    (placed.row + row, placed.col + col)
}
