//! Drawings of scenes, worked out by hand.
use crate::drawing_cases::{
    BARS, Case, HIDDEN_MENUS, MENUS, RIGHT_PROMPTS, SELECTIONS, SMALL_SCREENS, TEXTS,
    WIDE_CHARACTERS,
};
use crate::tests::is_scene;
use crate::{Scene, SceneLooks, drawing};
use cell_grid::{Attrs, CellRow, Colour, Drawing, Size};
use std::process::Abort;
use std::test::Fail;
use text_doc::{Completion, Doc, Text};
use win_view::Scroll;

fn coloured(colour: u8) -> Attrs {
    Attrs {
        fg: Some(Colour::Ansi(colour)),
        ..Attrs::plain()
    }
}

fn looks() -> SceneLooks {
    SceneLooks {
        prompt: look_of('p'),
        continuation: look_of('c'),
        control: look_of('^'),
        selected: look_of('s'),
        suggestion: look_of('g'),
        right_prompt: look_of('r'),
        menu: look_of('m'),
        chosen: look_of('!'),
        verdict: look_of('v'),
        argument: look_of('a'),
        search: look_of('i'),
        toolbar: look_of('t'),
    }
}

fn look_of(letter: char) -> Attrs {
    match letter {
        'p' => coloured(1),
        'c' => coloured(2),
        '^' => coloured(3),
        's' => coloured(4),
        'g' => coloured(5),
        'r' => coloured(6),
        'm' => coloured(7),
        '!' => coloured(8),
        'v' => coloured(9),
        'a' => coloured(10),
        'i' => coloured(11),
        't' => coloured(12),
        _ => Attrs::plain(),
    }
}

/// Returns the cells of a row by its characters and the letters of its columns.
fn row_of(
    rt: &(impl Abort + AllocGlobal),
    words: &'static str,
    letters: &'static str,
) -> Result<CellRow, Fail> {
    let text = Text::read_str(rt.alloc(), words)?;
    let letters = Text::read_str(rt.alloc(), letters)?;
    let mut row = CellRow::new(rt.alloc());
    for c in text.as_slice() {
        let letter = letters.get(row.len()).ok_or("a letter")?;
        row.push_chars(&[*c], look_of(*letter), Attrs::plain())?;
    }
    Ok(row)
}

fn items_of(
    rt: &(impl Abort + AllocGlobal),
    words: &'static [&'static str],
) -> Result<Vec<Completion>, Fail> {
    let mut items = Vec::new(rt.alloc());
    for word in words {
        items.push(Completion {
            text: Text::read_str(rt.alloc(), word)?,
            back: 0,
        })?;
    }
    Ok(items)
}

fn document_of(rt: &(impl Abort + AllocGlobal), case: &Case) -> Result<Doc, Fail> {
    let text = Text::read_str(rt.alloc(), case.text)?;
    let length = text.len();
    let mark = case.mark.unwrap_or(0);
    assert!(rt; case.cursor <= length && mark <= length && length <= 32768);
    let mut doc = Doc::new(rt.alloc(), text, case.cursor)?;
    if case.mark.is_some() {
        doc.set_mark(Some(mark));
    }
    Ok(doc)
}

/// Returns the drawing of the scene of a case.
fn drawn(rt: &(impl Abort + AllocGlobal), case: &Case) -> Result<Drawing, Fail> {
    let message = Text::read_str(rt.alloc(), case.message)?;
    let suggestion = Text::read_str(rt.alloc(), case.suggestion)?;
    let right_prompt = Text::read_str(rt.alloc(), case.right_prompt)?;
    let verdict = Text::read_str(rt.alloc(), case.verdict)?;
    let argument = Text::read_str(rt.alloc(), case.argument)?;
    let needle = Text::read_str(rt.alloc(), case.needle)?;
    let toolbar = Text::read_str(rt.alloc(), case.toolbar)?;
    let items = items_of(rt, case.items)?;
    let doc = document_of(rt, case)?;
    let scene = Scene {
        message: message.as_slice(),
        doc: &doc,
        multiline: case.multiline,
        password: case.password,
        wrap: case.wrap,
        selection: case.selection,
        suggestion: suggestion.as_slice(),
        items: items.as_slice(),
        chosen: case.chosen,
        origin: case.origin,
        completes: case.completes,
        right_prompt: right_prompt.as_slice(),
        verdict: verdict.as_slice(),
        argument: argument.as_slice(),
        search: case.search,
        needle: needle.as_slice(),
        toolbar: toolbar.as_slice(),
        finished: case.finished,
        size: Size::new(case.size.0, case.size.1).ok_or("a size")?,
        scroll: Scroll {
            down: case.scroll.0,
            across: case.scroll.1,
        },
        room: case.room,
        looks: looks(),
    };
    assert!(rt; is_scene(&scene));
    let drawing = drawing(rt.alloc(), &scene)?;
    Ok(drawing)
}

fn assert_drawn(rt: &(impl Abort + AllocGlobal), case: &Case) -> Result<(), Fail> {
    let what = case.what;
    let drawing = drawn(rt, case)?;
    assert_eq!(rt; drawing.grid.rows() as usize, case.rows.len(), "{what}");
    let mut row = 0;
    for (words, letters) in case.rows {
        let wanted = row_of(rt, words, letters)?;
        assert!(rt; row < drawing.grid.rows());
        assert!(rt;
            drawing.grid.row(row) == wanted.as_slice(),
            "{what}: row {row}"
        );
        row += 1;
    }
    assert_eq!(rt; (drawing.row, drawing.col), case.wanted_cursor, "{what}");
    Ok(())
}

fn assert_all_drawn(rt: &(impl Abort + AllocGlobal), cases: &[Case]) -> Result<(), Fail> {
    for case in cases {
        assert_drawn(rt, case)?;
    }
    Ok(())
}

#[test]
fn draws_texts(rt: HostRuntime) -> Result<(), Fail> {
    assert_all_drawn(&rt, &TEXTS)
}

#[test]
fn draws_wide_characters(rt: HostRuntime) -> Result<(), Fail> {
    assert_all_drawn(&rt, &WIDE_CHARACTERS)
}

#[test]
fn draws_selections(rt: HostRuntime) -> Result<(), Fail> {
    assert_all_drawn(&rt, &SELECTIONS)
}

#[test]
fn draws_bars(rt: HostRuntime) -> Result<(), Fail> {
    assert_all_drawn(&rt, &BARS)
}

#[test]
fn draws_small_screens(rt: HostRuntime) -> Result<(), Fail> {
    assert_all_drawn(&rt, &SMALL_SCREENS)
}

#[test]
fn draws_menus(rt: HostRuntime) -> Result<(), Fail> {
    assert_all_drawn(&rt, &MENUS)
}

#[test]
fn draws_hidden_menus(rt: HostRuntime) -> Result<(), Fail> {
    assert_all_drawn(&rt, &HIDDEN_MENUS)
}

#[test]
fn draws_right_prompts(rt: HostRuntime) -> Result<(), Fail> {
    assert_all_drawn(&rt, &RIGHT_PROMPTS)
}
