//! The drawing of a scene.
ghost use Rattle.std.specs.Prelude.{◌≡◌, ◌+◌, ◌≤◌, ◌++◌, [], ◌∷◌, IfOk, OnOk, length};
ghost use Rattle.box_layout.specs.Areas.{whole};
ghost use Rattle.cell_grid.specs.Drawable.{AllRowsDrawable};
ghost use Rattle.box_layout.specs.Painting.{painted};
ghost use Rattle.box_layout.specs.Placed.{AllInside, placed_at};
ghost use Rattle.prompt_view.specs.Bars.{bar_panes, stacked_from};
ghost use Rattle.prompt_view.specs.Drawing.{box_of, buffer_pane, drawing_of, drawn_size, from_one, placed_box};
ghost use Rattle.prompt_view.specs.Drawing.{ArePens, HasCursorInside, IsOnScreen, placed_of, small_pane};
ghost use Rattle.prompt_view.specs.Lines.{content_of};
ghost use Rattle.prompt_view.specs.Rooms.{asked_rows, settled_scroll, window_of};
ghost use Rattle.prompt_view.specs.Scene.{IsScene};
ghost use Rattle.win_view.specs.Contents.{IsContent};

use crate::Scene;
use crate::bars::bar_panes;
use crate::floats::floats;
use crate::lines::content_with;
use crate::panes::{text_content, unscrolled};
use crate::rooms::{Rooms, rooms_of};
use box_layout::{Node, Pane, Placed, PlacedList, paint, place};
use cell_grid::{Attrs, Drawing, NoMemory, Size};
use layout_dims::Dimension;
use std::alloc::Global;
use win_view::Content;

/// The most rows or columns that a window asks for.
const MOST: u32 = 1_000_000;

/// What stands on the screen where no window fits.
const TOO_SMALL: [char; 19] = [
    'W', 'i', 'n', 'd', 'o', 'w', ' ', 't', 'o', 'o', ' ', 's', 'm', 'a', 'l', 'l', '.', '.', '.',
];

/// Returns the full drawing of a scene, with the scroll that it has. The cells of all lines are built.
pub fn drawing(alloc: Global, scene: &Scene) -> Result<Drawing, NoMemory>
    requires { IsScene scene.now }
    ensures drawing { IfOk result (λ drawing. drawing ≡ drawing_of scene.now) }
    ensures screen { IfOk result (IsOnScreen scene.now.size) }
    ensures cells { IfOk result (λ drawing. ArePens scene.now.looks
        → AllRowsDrawable drawing.grid) }
    ensures cursor { IfOk result (λ drawing. settled_scroll scene.now ≡ scene.now.scroll
        → HasCursorInside drawing) }
{
    prove!(scene.size.rows() > 0);
    prove!(scene.size.cols() > 0);
    let content = content_with(alloc, scene, scene.doc.cursor())?;
    let drawing = drawing_with(alloc, scene, content)?;
    Ok(drawing)
}

/// Returns the drawing of a scene whose buffer's window shows this content.
fn drawing_with(alloc: Global, scene: &Scene, content: Content) -> Result<Drawing, NoMemory>
    requires scene { IsScene scene.now }
    requires is { IsContent content }
    requires content { content ≡ content_of scene.now }
    ensures { IfOk result (λ drawing. drawing ≡ drawing_of scene.now) }
{
    let bars = bar_panes(alloc, scene)?;
    match rooms_of(scene, &content, bars.len()) {
        Some(rooms) => {
            let drawing = full_drawing(alloc, scene, content, bars.as_slice(), &rooms)?;
            Ok(drawing)
        }
        None => {
            let drawing = small_drawing(alloc, scene.size)?;
            Ok(drawing)
        }
    }
}

/// Returns the drawing of a scene whose windows have these sizes.
fn full_drawing(
    alloc: Global,
    scene: &Scene,
    content: Content,
    bars: &[Pane],
    rooms: &Rooms,
) -> Result<Drawing, NoMemory>
    requires scene { IsScene scene.now }
    requires is { IsContent content }
    requires content { content ≡ content_of scene.now }
    requires bars { bars.now ≡ bar_panes scene.now }
    requires asked { rooms.now.asked ≡ asked_rows scene.now }
    requires some { 1 ≤ rooms.now.asked }
    requires window { rooms.now.window ≡ window_of scene.now }
    requires drawn { rooms.now.drawn ≡ drawn_size scene.now }
    requires fits { rooms.now.window.rows + length bars.now ≡ rooms.now.drawn.rows }
    ensures { IfOk result (λ drawing. drawing
        ≡ painted (placed_of scene.now) (drawn_size scene.now)) }
{
    prove!(rooms.drawn.rows() <= 500);
    let node = box_of(alloc, scene, content, rooms)?;
    let mut placed = placed_box(alloc, scene, &node, rooms.window)?;
    push_bars(bars, rooms.window, &mut placed)?;
    let drawing = paint(alloc, &placed, rooms.drawn)?;
    Ok(drawing)
}

/// Returns the buffer's window with what floats over it.
fn box_of(alloc: Global, scene: &Scene, content: Content, rooms: &Rooms) -> Result<Node, NoMemory>
    requires scene { IsScene scene.now }
    requires is { IsContent content }
    requires content { content ≡ content_of scene.now }
    requires asked { rooms.now.asked ≡ asked_rows scene.now }
    requires some { 1 ≤ rooms.now.asked }
    requires window { rooms.now.window ≡ window_of scene.now }
    ensures { IfOk result (λ node. node ≡ box_of scene.now) }
{
    let floats = floats(alloc, scene, rooms.window)?;
    let pane = buffer_pane(scene, content, rooms.asked);
    let node = Node::float_box(alloc, Node::Window(pane), floats)?;
    Ok(node)
}

/// Returns the buffer's window.
fn buffer_pane(scene: &Scene, content: Content, asked: u32) -> Pane
    requires is { IsContent content }
    requires content { content ≡ content_of scene.now }
    requires asked { asked ≡ asked_rows scene.now }
    requires some { 1 ≤ asked }
    ensures { result ≡ buffer_pane scene.now }
{
    Pane {
        content,
        scroll: scene.scroll,
        width: from_one(1),
        height: from_one(asked),
        attrs: Attrs::plain(),
        focus: true,
    }
}

/// Returns the buffer's window and what floats over it at their places.
fn placed_box<'a>(
    alloc: Global,
    scene: &Scene,
    node: &'a Node,
    size: Size,
) -> Result<PlacedList<'a>, NoMemory>
    requires node { node.now ≡ box_of scene.now }
    requires size { size ≡ window_of scene.now }
    ensures placed { IfOk result (λ placed. placed ≡ placed_box scene.now) }
    ensures inside { IfOk result (AllInside (whole size)) }
{
    match place(alloc, node, size, false)? {
        Some(placed) => Ok(placed),
        None => unreachable!(),
    }
}

/// Adds the windows of the bars below the buffer's window, which has this size.
fn push_bars<'a>(
    bars: &'a [Pane],
    window: Size,
    placed: &mut PlacedList<'a>,
) -> Result<(), NoMemory>
    requires few { window.rows + length bars.now ≤ 1000 }
    ensures { OnOk result (placed.new
        ≡ placed.old ++ stacked_from window.cols window.rows bars.now) }
{
    let size = bar_size(window);
    let mut row = window.rows();
    for pane in bars {
        placed.push(Placed {
            pane,
            scroll: pane.scroll,
            row,
            col: 0,
            size,
        })?;
        row += 1;
    }
    Ok(())
}

/// Returns the size of a bar below a window of this size.
fn bar_size(window: Size) -> Size
    ensures { result ≡ record { rows = 1; cols = window.cols } }
{
    match Size::new(1, window.cols()) {
        Some(size) => size,
        None => unreachable!(),
    }
}

/// Returns the drawing of a screen where no window fits.
fn small_drawing(alloc: Global, size: Size) -> Result<Drawing, NoMemory>
    ensures { IfOk result (λ drawing. drawing
        ≡ painted (placed_at small_pane (whole size) ∷ []) size) }
{
    let pane = small_pane(alloc)?;
    let mut placed = PlacedList::new(alloc);
    placed.push(Placed {
        pane: &pane,
        scroll: pane.scroll,
        row: 0,
        col: 0,
        size,
    })?;
    let drawing = paint(alloc, &placed, size)?;
    Ok(drawing)
}

/// Returns the window that stands on the screen where no window fits.
fn small_pane(alloc: Global) -> Result<Pane, NoMemory>
    ensures { IfOk result (λ pane. pane ≡ small_pane) }
{
    let plain = Attrs::plain();
    let content = text_content(alloc, plain, plain, &TOO_SMALL, false)?;
    Ok(Pane {
        content,
        scroll: unscrolled(),
        width: from_one(1),
        height: from_one(1),
        attrs: plain,
        focus: false,
    })
}

/// Returns a dimension from one row or column on, of which so many are preferred.
fn from_one(preferred: u32) -> Dimension
    requires { 1 ≤ preferred }
    ensures { result ≡ from_one preferred }
{
    match Dimension::new(1, MOST, 1, preferred) {
        Ok(dimension) => dimension,
        Err(_) => unreachable!(),
    }
}
