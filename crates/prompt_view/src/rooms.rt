//! How many rows the drawing and the buffer's window have.
ghost use Rattle.std.specs.Prelude.{◌≡◌, ◌+◌, ◌≤◌, IfSome, MatchOption, false, length, true};
ghost use Rattle.prompt_view.specs.Bars.{bars};
ghost use Rattle.prompt_view.specs.Drawing.{drawn_size};
ghost use Rattle.prompt_view.specs.Lines.{content_of};
ghost use Rattle.prompt_view.specs.Rooms.{asked_rows, has_division, height_of, keeps_rows, room_of, window_of};
ghost use Rattle.win_view.specs.Contents.{IsContent};

use crate::Scene;
use cell_grid::Size;
use win_view::{Content, height};

/// The rows that are kept for the buffer's window where a menu may come.
const MENU_ROWS: u32 = 8;

/// The rows that the buffer's window asks for, its size, and the size of the drawing.
#[derive(Clone, Copy, Debug)]
pub struct Rooms {
    pub asked: u32,
    pub window: Size,
    pub drawn: Size,
}

/// Returns the sizes of the drawing and of the buffer's window above so many bars; none where the bars leave no row.
pub fn rooms_of(scene: &Scene, content: &Content, count: usize) -> Option<Rooms>
    requires is { IsContent content.now }
    requires content { content.now ≡ content_of scene.now }
    requires bars { count ≡ length (bars scene.now) }
    requires few { count ≤ 4 }
    ensures rooms { MatchOption result (has_division scene.now ≡ false)
        (λ rooms. has_division scene.now ≡ true) }
    ensures asked { IfSome result (λ rooms. rooms.asked ≡ asked_rows scene.now) }
    ensures some { IfSome result (λ rooms. 1 ≤ rooms.asked) }
    ensures window { IfSome result (λ rooms. rooms.window ≡ window_of scene.now) }
    ensures drawn { IfSome result (λ rooms. rooms.drawn ≡ drawn_size scene.now) }
    ensures fits { IfSome result (λ rooms. rooms.window.rows + count ≡ rooms.drawn.rows) }
{
    let bars = count as u32;
    let cols = scene.size.cols();
    let asked = asked_rows(scene, content);
    let all = asked
        .saturating_add(bars)
        .max(room_of(scene))
        .min(scene.size.rows());
    if all < 1 + bars {
        return None;
    }
    match (Size::new(all - bars, cols), Size::new(all, cols)) {
        (Some(window), Some(drawn)) => Some(Rooms {
            asked,
            window,
            drawn,
        }),
        _ => unreachable!(),
    }
}

/// Returns the rows that the buffer's window asks for.
fn asked_rows(scene: &Scene, content: &Content) -> u32
    requires is { IsContent content.now }
    requires content { content.now ≡ content_of scene.now }
    ensures asked { result ≡ asked_rows scene.now }
    ensures some { 1 ≤ result }
{
    let rows = height(content, scene.size.cols());
    if keeps_rows(scene) {
        rows.max(MENU_ROWS)
    } else {
        rows
    }
}

/// Tells whether rows are kept for a menu.
fn keeps_rows(scene: &Scene) -> bool
    ensures { result ≡ keeps_rows scene.now }
{
    !scene.finished && (scene.completes || !scene.items.is_empty())
}

/// Returns the rows down to the end of the screen, where they are known.
fn room_of(scene: &Scene) -> u32
    ensures { result ≡ room_of scene.now }
{
    if scene.finished {
        return 0;
    }
    scene.room.unwrap_or(0)
}
