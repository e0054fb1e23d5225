//! Scrolls of scenes, worked out by hand.
ghost use Rattle.std.specs.Prelude.{IsTrue};
ghost use Rattle.prompt_view.specs.Scene.{IsScene};

use crate::{Scene, SceneLooks, Selection, settled_scroll};
use cell_grid::{Attrs, Size};
use std::process::Abort;
use std::test::Fail;
use text_doc::{Doc, Text};
use win_view::Scroll;

pub(crate) fn is_scene(scene: &Scene) -> bool
    ensures { IsTrue result → IsScene scene.now }
{
    let chosen = match scene.chosen {
        Some(chosen) => chosen < scene.items.len(),
        None => true,
    };
    chosen
        && scene.message.len() <= 200
        && scene.suggestion.len() <= 32768
        && scene.right_prompt.len() <= 200
        && scene.verdict.len() <= 32768
        && scene.argument.len() <= 32768
        && scene.toolbar.len() <= 32768
        && scene.items.len() <= 10000
}

fn looks() -> SceneLooks {
    let plain = Attrs::plain();
    SceneLooks {
        prompt: plain,
        continuation: plain,
        control: plain,
        selected: plain,
        suggestion: plain,
        right_prompt: plain,
        menu: plain,
        chosen: plain,
        verdict: plain,
        argument: plain,
        search: plain,
        toolbar: plain,
    }
}

// The rows and columns of the screen, the text, its cursor, the toolbar, whether lines wrap, the scroll before, and the
// settled one.
type Case = (
    (u32, u32),
    &'static str,
    usize,
    &'static str,
    bool,
    (u32, u32),
    (u32, u32),
);

// The message is `> `, so the first text stands on the rows `> ab`, `cdef` and `gh `.
const CASES: [Case; 6] = [
    ((2, 4), "abcdefgh", 8, "", true, (0, 7), (1, 7)),
    ((2, 4), "abcdefgh", 0, "", true, (1, 7), (0, 7)),
    ((2, 4), "abcdefgh", 8, "T", true, (0, 0), (2, 0)),
    ((1, 4), "abcdefgh", 8, "T", true, (5, 6), (5, 6)),
    ((2, 6), "abcdefgh", 8, "", false, (0, 0), (0, 5)),
    ((2, 6), "abcdefgh", 0, "", false, (0, 5), (0, 2)),
];

fn assert_settled(rt: &(impl Abort + AllocGlobal), case: &Case) -> Result<(), Fail> {
    let (screen, words, cursor, bar, wrap, old, wanted) = *case;
    let message = Text::read_str(rt.alloc(), "> ")?;
    let text = Text::read_str(rt.alloc(), words)?;
    let toolbar = Text::read_str(rt.alloc(), bar)?;
    assert!(rt; cursor <= text.len() && text.len() <= 32768);
    let doc = Doc::new(rt.alloc(), text, cursor)?;
    let scene = Scene {
        message: message.as_slice(),
        doc: &doc,
        multiline: true,
        password: false,
        wrap,
        selection: Selection::Exclusive,
        suggestion: &[],
        items: &[],
        chosen: None,
        origin: 0,
        completes: false,
        right_prompt: &[],
        verdict: &[],
        argument: &[],
        search: None,
        needle: &[],
        toolbar: toolbar.as_slice(),
        finished: false,
        size: Size::new(screen.0, screen.1).ok_or("a size")?,
        scroll: Scroll {
            down: old.0,
            across: old.1,
        },
        room: None,
        looks: looks(),
    };
    assert!(rt; is_scene(&scene));
    let scroll = settled_scroll(rt.alloc(), &scene)?;
    assert_eq!(rt; (scroll.down, scroll.across), wanted, "{words:?} {cursor}");
    Ok(())
}

#[test]
fn settles_scenes(rt: HostRuntime) -> Result<(), Fail> {
    for case in &CASES {
        assert_settled(&rt, case)?;
    }
    Ok(())
}
