//! The lines of a scene.
ghost use Rattle.std.specs.Prelude.{◌≡◌, ◌≤◌, IfOk, length, map, true};
ghost use Rattle.prompt_view.specs.Lines.{continuation_cells, content_with, drawn_char, message_cells, range_between};
ghost use Rattle.prompt_view.specs.Lines.{selected_range, shown_suggestion};
ghost use Rattle.prompt_view.specs.Scene.{IsScene};
ghost use Rattle.text_doc.specs.Document.{IsDocument};
ghost use Rattle.win_view.specs.Contents.{IsContent};

use crate::{Scene, Selection};
use cell_grid::{CellRow, NoMemory};
use std::alloc::Global;
use text_doc::{Doc, Text};
use text_rows::{DrawnText, Looks, content};
use win_view::Content;

/// Returns what the buffer's window shows, with its cursor at a place of the text.
pub fn content_with(alloc: Global, scene: &Scene, place: usize) -> Result<Content, NoMemory>
    requires scene { IsScene scene.now }
    requires place { place ≤ length scene.now.document.text }
    ensures content { IfOk result (λ content. content ≡ content_with scene.now place) }
    ensures is { IfOk result IsContent }
{
    let message = message_cells(alloc, scene)?;
    let continuation = continuation_cells(alloc, scene, message.len())?;
    let text = drawn_chars(alloc, scene.doc, scene.password)?;
    let (selected_from, selected_to) = selected_range(scene);
    let drawn = DrawnText {
        message: &message,
        continuation: &continuation,
        text: text.as_slice(),
        selected_from,
        selected_to,
        suggestion: shown_suggestion(scene),
        looks: Looks {
            control: scene.looks.control,
            selected: scene.looks.selected,
            suggestion: scene.looks.suggestion,
        },
    };
    let content = content(alloc, &drawn, place, scene.wrap)?;
    Ok(content)
}

/// Returns the cells before the first line.
fn message_cells(alloc: Global, scene: &Scene) -> Result<CellRow, NoMemory>
    requires { IsScene scene.now }
    ensures cells { IfOk result (λ cells. cells ≡ message_cells scene.now) }
    ensures few { IfOk result (λ cells. length cells ≤ 1000) }
{
    let mut cells = CellRow::new(alloc);
    cells.push_chars(scene.message, scene.looks.prompt, scene.looks.control)?;
    Ok(cells)
}

/// Returns the cells before each other line, where the message has so many columns.
fn continuation_cells(alloc: Global, scene: &Scene, cols: usize) -> Result<CellRow, NoMemory>
    requires cols { cols ≡ length (message_cells scene.now) }
    requires few { cols ≤ 1000 }
    ensures cells { IfOk result (λ cells. cells ≡ continuation_cells scene.now) }
    ensures few { IfOk result (λ cells. length cells ≤ 1000) }
{
    if !scene.multiline {
        return Ok(CellRow::new(alloc));
    }
    let cells = CellRow::filled(alloc, ' ', scene.looks.continuation, cols)?;
    Ok(cells)
}

/// Returns the characters of a text as they are drawn.
fn drawn_chars(alloc: Global, doc: &Doc, password: bool) -> Result<Text, NoMemory>
    ensures chars { IfOk result (λ chars. chars ≡ map (drawn_char password) doc.now.text) }
    ensures few { IfOk result (λ chars. length chars ≤ 32768) }
    ensures same { IfOk result (λ chars. length chars ≡ length doc.now.text) }
{
    let _short = doc.len();
    let text = doc.text()?;
    if !password {
        return Ok(text);
    }
    let stars = starred(alloc, text.as_slice())?;
    Ok(stars)
}

/// Returns a star for each character but a line feed.
fn starred(alloc: Global, text: &[char]) -> Result<Text, NoMemory>
    ensures { IfOk result (λ chars. chars ≡ map (drawn_char true) text.now) }
{
    let mut chars = Text::new(alloc);
    for c in text {
        chars.push(if *c == '\n' { '\n' } else { '*' })?;
    }
    Ok(chars)
}

/// Returns from which place and up to which place the text is selected.
fn selected_range(scene: &Scene) -> (usize, usize)
    ensures range { result ≡ selected_range scene.now }
    ensures ordered { result.0 ≤ result.1 }
{
    if scene.finished {
        return (0, 0);
    }
    match scene.doc.mark() {
        Some(mark) => {
            let cursor = scene.doc.cursor();
            range_between(
                scene.selection,
                scene.doc,
                mark.min(cursor),
                mark.max(cursor),
            )
        }
        None => (0, 0),
    }
}

/// Returns the range of a selection between two places of a text.
fn range_between(selection: Selection, doc: &Doc, from: usize, to: usize) -> (usize, usize)
    requires ordered { from ≤ to }
    requires within { to ≤ length doc.now.text }
    ensures range { result ≡ range_between selection doc.now.text from to }
    ensures ordered { result.0 ≤ result.1 }
{
    let _short = doc.len();
    match selection {
        Selection::Exclusive => (from, to),
        Selection::Inclusive => (from, to + 1),
        Selection::Rows => (doc.line_start_from(from), doc.line_end_from(to)),
    }
}

/// Returns the suggestion that is drawn.
fn shown_suggestion<'a>(scene: &Scene<'a>) -> &'a [char]
    requires { IsScene scene.now }
    ensures value { result.now ≡ shown_suggestion scene.now }
    ensures few { length result.now ≤ 32768 }
{
    if !scene.finished && scene.doc.cursor() == scene.doc.len() {
        scene.suggestion
    } else {
        &[]
    }
}
