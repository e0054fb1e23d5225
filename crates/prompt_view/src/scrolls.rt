//! The scroll of a scene.
ghost use Rattle.std.specs.Prelude.{◌≡◌, IfOk};
ghost use Rattle.prompt_view.specs.Rooms.{settled_scroll};
ghost use Rattle.prompt_view.specs.Scene.{IsScene};

use crate::Scene;
use crate::bars::bar_panes;
use crate::lines::content_with;
use crate::rooms::rooms_of;
use cell_grid::NoMemory;
use std::alloc::Global;
use win_view::{Scroll, settle};

/// Returns the scroll at which the buffer's window shows the cursor, as near to the scene's as can be. Where the bars
/// leave no row for the window it stays. The cells of all lines are built.
pub fn settled_scroll(alloc: Global, scene: &Scene) -> Result<Scroll, NoMemory>
    requires { IsScene scene.now }
    ensures scroll { IfOk result (λ scroll. scroll ≡ settled_scroll scene.now) }
    ensures again { IfOk result (λ scroll. settled_scroll (record scene.now { scroll = scroll })
        ≡ scroll) }
{
    let content = content_with(alloc, scene, scene.doc.cursor())?;
    let panes = bar_panes(alloc, scene)?;
    match rooms_of(scene, &content, panes.len()) {
        Some(rooms) => {
            let scroll = settle(alloc, &content, rooms.window, scene.scroll)?;
            Ok(scroll)
        }
        None => Ok(scene.scroll),
    }
}
