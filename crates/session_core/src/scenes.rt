//! What is drawn of what is edited.
ghost use Rattle.std.specs.Prelude.{◌≡◌, ◌≤◌, IfOk, length, ℕ};
ghost use Rattle.prompt_view.specs.Rooms as rooms;
ghost use Rattle.prompt_view.specs.Scene.{IsScene};
ghost use Rattle.cell_grid.specs.Drawable.{AllRowsDrawable};
ghost use Rattle.prompt_view.specs.Drawing.{drawing_of, HasCursorInside, IsOnScreen};
ghost use Rattle.session_core.specs.Draw.{argument_text, direction_of, in_colour, in_colours, needle_of, reversed, scene_by, usual_looks};

use cell_grid::{Attrs, Colour, Drawing, Size};
use edit_state::{Arg, EditState, MAX_DIGITS, Search};
use prompt_settings::Config;
use prompt_view::{Direction, Scene, SceneLooks, Selection};
use std::alloc::Global;
use text_doc::{NoMemory, Text};
use win_view::Scroll;

/// Returns the scroll at which the window shows the cursor, as near to the present one as can be.
pub fn settled_scroll(
    alloc: Global,
    config: &Config,
    edit: &EditState,
    finished: bool,
    size: Size,
    scroll: Scroll,
) -> Result<Scroll, NoMemory>
    ensures settled { IfOk result (λ settled. settled
        ≡ rooms.settled_scroll (scene_by config.now edit.now finished size scroll)) }
    ensures again { IfOk result (λ settled.
        rooms.settled_scroll (scene_by config.now edit.now finished size settled) ≡ settled) }
{
    let argument = argument_text(alloc, &edit.arg)?;
    let scene = scene(config, edit, argument.as_slice(), finished, size, scroll);
    let settled = prompt_view::settled_scroll(alloc, &scene)?;
    Ok(settled)
}

#[tactic(auto, using(crate::proofs::SceneLemmas::usual_pens))]
/// Returns the full drawing, with the scroll that the window has.
pub fn drawing(
    alloc: Global,
    config: &Config,
    edit: &EditState,
    finished: bool,
    size: Size,
    scroll: Scroll,
) -> Result<Drawing, NoMemory>
    ensures drawn { IfOk result (λ drawing. drawing
        ≡ drawing_of (scene_by config.now edit.now finished size scroll)) }
    ensures screen { IfOk result (IsOnScreen size) }
    ensures cursor { IfOk result (λ drawing.
        rooms.settled_scroll (scene_by config.now edit.now finished size scroll) ≡ scroll
        → HasCursorInside drawing) }
    ensures drawable { IfOk result (λ drawing. AllRowsDrawable drawing.grid) }
{
    let argument = argument_text(alloc, &edit.arg)?;
    let scene = scene(config, edit, argument.as_slice(), finished, size, scroll);
    let drawing = prompt_view::drawing(alloc, &scene)?;
    Ok(drawing)
}

/// Returns what is drawn, given the text of the argument.
fn scene<'a>(
    config: &'a Config,
    edit: &'a EditState,
    argument: &'a [char],
    finished: bool,
    size: Size,
    scroll: Scroll,
) -> Scene<'a>
    requires text { argument.now ≡ argument_text edit.now.arg }
    requires short { length argument.now ≤ 32768 }
    ensures scene { result ≡ scene_by config.now edit.now finished size scroll }
    ensures is { IsScene result }
{
    Scene {
        message: config.message(),
        doc: edit.buffer.doc(),
        multiline: edit.multiline,
        password: config.password(),
        wrap: config.wraps(),
        selection: Selection::Exclusive,
        suggestion: &[],
        items: &[],
        chosen: None,
        origin: 0,
        completes: false,
        right_prompt: config.right_prompt(),
        verdict: &[],
        argument,
        search: direction_of(&edit.search),
        needle: needle_of(&edit.search),
        toolbar: config.toolbar(),
        finished,
        size,
        scroll,
        room: None,
        looks: usual_looks(),
    }
}

/// Returns the attributes that each class has where no rule says otherwise.
fn usual_looks() -> SceneLooks
    ensures { result ≡ usual_looks }
{
    let plain = Attrs::plain();
    SceneLooks {
        prompt: plain,
        continuation: plain,
        control: in_colour(4),
        selected: reversed(plain),
        suggestion: in_colour(8),
        right_prompt: plain,
        menu: in_colours(0, 7),
        chosen: reversed(in_colours(0, 7)),
        verdict: in_colours(7, 1),
        argument: plain,
        search: plain,
        toolbar: reversed(plain),
    }
}

fn in_colour(number: u8) -> Attrs
    ensures { result ≡ in_colour number }
{
    Attrs {
        fg: Some(Colour::Ansi(number)),
        ..Attrs::plain()
    }
}

fn in_colours(number: u8, back: u8) -> Attrs
    ensures { result ≡ in_colours number back }
{
    Attrs {
        bg: Some(Colour::Ansi(back)),
        ..in_colour(number)
    }
}

fn reversed(attrs: Attrs) -> Attrs
    ensures { result ≡ reversed attrs }
{
    Attrs {
        reverse: true,
        ..attrs
    }
}

/// Returns an argument as it is drawn.
fn argument_text(alloc: Global, arg: &Option<Arg>) -> Result<Text, NoMemory>
    ensures text { IfOk result (λ text. text ≡ argument_text arg.now) }
    ensures short { IfOk result (λ text. length text ≤ 32768) }
{
    let Some(arg) = arg else {
        return Ok(Text::new(alloc));
    };
    let digits = arg.digits.as_slice();
    let (shown, _) = digits.split_at(MAX_DIGITS.min(digits.len()));
    let mut text = Text::new(alloc);
    if arg.negative {
        text.push('-')?;
    }
    text.extend_from_slice(shown)?;
    Ok(text)
}

/// Returns the way of a search.
fn direction_of(search: &Option<Search>) -> Option<Direction>
    ensures { result ≡ direction_of search.now }
{
    match search {
        Some(search) if search.forward => Some(Direction::Forward),
        Some(_) => Some(Direction::Backward),
        None => None,
    }
}

/// Returns the text that is searched for.
fn needle_of(search: &Option<Search>) -> &[char]
    ensures { result.now ≡ needle_of search.now }
{
    match search {
        Some(search) => search.needle.as_slice(),
        None => &[],
    }
}
