//! The bars below the buffer's window.
ghost use Rattle.std.specs.Prelude.{◌≡◌, ◌≤◌, ◌++◌, ◌+◌, IfOk, OnOk, length, map};
ghost use Rattle.prompt_view.specs.Bars.{bar, bar_pane, bar_panes, going_bars, labelled};
ghost use Rattle.prompt_view.specs.Bars.{search_label, search_text};
ghost use Rattle.prompt_view.specs.Scene.{IsScene};

use crate::panes::text_pane;
use crate::{Direction, Scene};
use box_layout::Pane;
use cell_grid::{Attrs, NoMemory};
use std::alloc::Global;
use text_doc::Text;

/// The most characters of the searched text that are drawn.
const MAX_NEEDLE: usize = 32_768;

/// What stands before an argument.
const REPEAT: [char; 8] = ['R', 'e', 'p', 'e', 'a', 't', ':', ' '];

/// What stands before the text that is searched for.
const FORWARD: [char; 10] = ['I', '-', 's', 'e', 'a', 'r', 'c', 'h', ':', ' '];

/// The same, where the search goes backward.
const BACKWARD: [char; 19] = [
    'I', '-', 's', 'e', 'a', 'r', 'c', 'h', ' ', 'b', 'a', 'c', 'k', 'w', 'a', 'r', 'd', ':', ' ',
];

/// Returns the windows of the bars.
pub fn bar_panes(alloc: Global, scene: &Scene) -> Result<Vec<Pane>, NoMemory>
    requires { IsScene scene.now }
    ensures panes { IfOk result (λ panes. panes.items ≡ bar_panes scene.now) }
    ensures few { IfOk result (λ panes. length panes.items ≤ 4) }
{
    if scene.finished {
        return Ok(Vec::new(alloc));
    }
    let panes = going_panes(alloc, scene)?;
    Ok(panes)
}

/// Returns the windows of the bars of a prompt that goes on.
fn going_panes(alloc: Global, scene: &Scene) -> Result<Vec<Pane>, NoMemory>
    requires { IsScene scene.now }
    ensures panes { IfOk result (λ panes. panes.items
        ≡ map (bar_pane scene.now) (going_bars scene.now)) }
    ensures few { IfOk result (λ panes. length panes.items ≤ 4) }
{
    let mut panes = Vec::new(alloc);
    let looks = scene.looks;
    let argument = labelled(alloc, &REPEAT, scene.argument)?;
    let search = search_text(alloc, scene.search, scene.needle)?;
    push_bar(alloc, scene, looks.verdict, scene.verdict, &mut panes)?;
    push_bar(
        alloc,
        scene,
        looks.argument,
        argument.as_slice(),
        &mut panes,
    )?;
    push_bar(alloc, scene, looks.search, search.as_slice(), &mut panes)?;
    push_bar(alloc, scene, looks.toolbar, scene.toolbar, &mut panes)?;
    Ok(panes)
}

/// Adds the window of a bar, unless its text is empty.
fn push_bar(
    alloc: Global,
    scene: &Scene,
    attrs: Attrs,
    text: &[char],
    panes: &mut Vec<Pane>,
) -> Result<(), NoMemory>
    requires { length text.now ≤ 40000 }
    ensures pushed { OnOk result (panes.new.items
        ≡ panes.old.items
        ++ map (bar_pane scene.now) (bar attrs text.now)) }
    ensures few { OnOk result (length panes.new.items ≤ length panes.old.items + 1) }
{
    if text.is_empty() {
        return Ok(());
    }
    let pane = text_pane(alloc, attrs, scene.looks.control, text, scene.size.cols())?;
    panes.push(pane)?;
    Ok(())
}

/// Returns one text behind another, where the second is not empty.
fn labelled(alloc: Global, label: &[char], text: &[char]) -> Result<Text, NoMemory>
    requires text { length text.now ≤ 32768 }
    requires short { length label.now ≤ 100 }
    ensures value { IfOk result (λ all. all ≡ labelled label.now text.now) }
    ensures few { IfOk result (λ all. length all ≤ 40000) }
{
    if text.is_empty() {
        return Ok(Text::new(alloc));
    }
    let all = joined(alloc, label, text)?;
    Ok(all)
}

/// Returns the text of the search row.
fn search_text(alloc: Global, search: Option<Direction>, needle: &[char]) -> Result<Text, NoMemory>
    ensures value { IfOk result (λ text. text ≡ search_text search needle.now) }
    ensures few { IfOk result (λ text. length text ≤ 40000) }
{
    let (shown, _) = needle.split_at(MAX_NEEDLE.min(needle.len()));
    match search {
        None => Ok(Text::new(alloc)),
        Some(direction) => {
            let text = joined(alloc, search_label(direction), shown)?;
            Ok(text)
        }
    }
}

/// Returns what stands before the text that is searched for.
fn search_label(direction: Direction) -> &'static [char]
    ensures label { result.now ≡ search_label direction }
    ensures few { length result.now ≤ 100 }
{
    match direction {
        Direction::Forward => &FORWARD,
        Direction::Backward => &BACKWARD,
    }
}

/// Returns one text behind another.
fn joined(alloc: Global, front: &[char], back: &[char]) -> Result<Text, NoMemory>
    ensures { IfOk result (λ all. all ≡ front.now ++ back.now) }
{
    let mut all = Text::from_chars(alloc, front)?;
    all.extend_from_slice(back)?;
    Ok(all)
}
