//! What floats over the buffer's window: the right prompt, and the menu of completions.
ghost use Rattle.std.specs.Prelude.{◌≡◌, ◌<◌, ◌++◌, IfOk, IfSome, MatchOption, OnOk, false, true};
ghost use Rattle.prompt_view.specs.Floats.{floats, is_place_shown, menu_floats, menu_place, near_col, near_row};
ghost use Rattle.prompt_view.specs.Floats.{right_prompt_floats};
ghost use Rattle.prompt_view.specs.Lines.{content_with};
ghost use Rattle.prompt_view.specs.Rooms.{has_items, window_of};
ghost use Rattle.prompt_view.specs.Scene.{IsScene};
ghost use Rattle.win_view.specs.Contents.{IsContent};

use crate::Scene;
use crate::lines::content_with;
use crate::menus::{columns_of, menu_pane, menu_rows};
use crate::panes::{text_pane, unscrolled};
use box_layout::{Float, FloatPlace, Floats};
use cell_grid::{NoMemory, Size};
use std::alloc::Global;
use win_view::{Content, seen_cursor};

/// Returns what floats over the buffer's window, which has this size.
pub fn floats(alloc: Global, scene: &Scene, window: Size) -> Result<Floats, NoMemory>
    requires scene { IsScene scene.now }
    requires window { window ≡ window_of scene.now }
    ensures { IfOk result (λ all. all ≡ floats scene.now) }
{
    let mut floats = Floats::new(alloc);
    if scene.finished {
        return Ok(floats);
    }
    push_right_prompt(alloc, scene, &mut floats)?;
    push_menu(alloc, scene, window, &mut floats)?;
    Ok(floats)
}

/// Adds the right prompt, if there is one.
fn push_right_prompt(alloc: Global, scene: &Scene, floats: &mut Floats) -> Result<(), NoMemory>
    requires { IsScene scene.now }
    ensures { OnOk result (floats.new
        ≡ floats.old ++ right_prompt_floats scene.now scene.now.right_prompt) }
{
    let text = scene.right_prompt;
    if text.is_empty() {
        return Ok(());
    }
    let looks = scene.looks;
    let cols = columns_of(alloc, text)?;
    let pane = text_pane(alloc, looks.right_prompt, looks.control, text, cols as u32)?;
    floats.push(Float {
        pane,
        place: FloatPlace::TopRight,
    })?;
    Ok(())
}

/// Adds the menu, if there is one and its place is shown.
fn push_menu(
    alloc: Global,
    scene: &Scene,
    window: Size,
    floats: &mut Floats,
) -> Result<(), NoMemory>
    requires scene { IsScene scene.now }
    requires window { window ≡ window_of scene.now }
    ensures { OnOk result (floats.new ≡ floats.old ++ menu_floats scene.now) }
{
    if scene.items.is_empty() {
        return Ok(());
    }
    let place = scene.doc.cursor().min(scene.origin);
    let content = content_with(alloc, scene, place)?;
    match shown_place(scene, &content, window) {
        Some((row, col)) => {
            push_menu_near(alloc, scene, window, row, col, floats)?;
            Ok(())
        }
        None => Ok(()),
    }
}

/// Returns the row and the column of the menu's place in the buffer's window, if it is shown. The content has its
/// cursor there.
fn shown_place(scene: &Scene, content: &Content, window: Size) -> Option<(u32, u32)>
    requires is { IsContent content.now }
    requires content { content.now ≡ content_with scene.now (menu_place scene.now) }
    requires window { window ≡ window_of scene.now }
    ensures shown { MatchOption result (is_place_shown scene.now ≡ false)
        (λ _. is_place_shown scene.now ≡ true) }
    ensures row { IfSome result (λ place. place.0 ≡ near_row scene.now) }
    ensures col { IfSome result (λ place. place.1 ≡ near_col scene.now) }
    ensures within { IfSome result (λ place. place.0 < window.rows) }
{
    let old = scene.scroll;
    let (top, left) = seen_cursor(content, scene.size, unscrolled());
    let (row, col) = seen_cursor(content, scene.size, old);
    let down = old.down <= top && row < window.rows();
    let across = (scene.wrap || old.across <= left) && col < scene.size.cols();
    if down && across {
        Some((row, col))
    } else {
        None
    }
}

/// Adds the menu near its place in the buffer's window, if it has a row there.
fn push_menu_near(
    alloc: Global,
    scene: &Scene,
    window: Size,
    row: u32,
    col: u32,
    floats: &mut Floats,
) -> Result<(), NoMemory>
    requires scene { IsScene scene.now }
    requires items { has_items scene.now.items ≡ true }
    requires window { window ≡ window_of scene.now }
    requires shown { is_place_shown scene.now ≡ true }
    requires row { row ≡ near_row scene.now }
    requires col { col ≡ near_col scene.now }
    requires within { row < window.rows }
    ensures { OnOk result (floats.new ≡ floats.old ++ menu_floats scene.now) }
{
    let rows = menu_rows(scene, row, window);
    if rows == 0 {
        return Ok(());
    }
    let pane = menu_pane(alloc, scene, rows)?;
    floats.push(Float {
        pane,
        place: FloatPlace::Near { row, col },
    })?;
    Ok(())
}
