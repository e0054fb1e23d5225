//! A layout: a tree of splits, windows and floats.
ghost use Rattle.std.specs.Prelude.{◌≡◌, ◌≤◌, ◌↔◌, length, IsTrue, IfOk};
ghost use Rattle.box_layout.specs.Children.{EachChild, HasFewChildren};

use cell_grid::{Attrs, NoMemory};
use layout_dims::Dimension;
use sqlite_items::{Boxed, Items};
use std::alloc::Global;
use std::marker::Model;
use win_view::{Content, Scroll};

/// What a window shows, and how much room it asks for. The cursor of its content stands on one of its cells.
#[derive(Drop)]
pub struct Pane {
    pub content: Content,
    pub scroll: Scroll,
    /// How many columns it asks for.
    pub width: Dimension,
    /// How many rows it asks for.
    pub height: Dimension,
    /// The attributes of the places behind the content.
    pub attrs: Attrs,
    /// Whether its cursor is the cursor of the drawing. Of several such panes the last one is.
    pub focus: bool,
}

impl Model for Pane {
    ghost use Rattle.box_layout.specs.Panes.{PaneFields};
    ghost use Rattle.win_view.specs.Contents.{IsContent};

    ghost Value = { PaneFields };

    ghost view = { λ p.
        record {
          content = p.content;
          scroll = p.scroll;
          width = p.width;
          height = p.height;
          attrs = p.attrs;
          focus = p.focus;
        } };

    ghost invariant = { λ p. IsContent p.content };
}

/// Where a float stands in its box.
#[derive(Clone, Copy, Debug, Drop)]
pub enum FloatPlace {
    /// At the right end of the first row, one row high, over blanks alone.
    TopRight,
    /// Below or above a row of the box, from a column on where there is room for it.
    Near { row: u32, col: u32 },
}

/// A window that stands over what is in a box.
#[derive(Drop)]
pub struct Float {
    pub pane: Pane,
    pub place: FloatPlace,
}

/// The children of a split, in their order.
pub type Nodes = Items<Node>;

/// The floats of a box, the later ones over the earlier.
pub type Floats = Items<Float>;

/// A layout, or a part of one.
#[derive(Drop)]
pub enum Node {
    /// Children one below another.
    HSplit(Nodes),
    /// Children side by side.
    VSplit(Nodes),
    Window(Pane),
    /// A part that is there only where the condition holds.
    When(bool, Boxed<Node>),
    /// A part with floats over it, the later ones over the earlier.
    FloatBox(Boxed<Node>, Floats),
}

impl Node {
    /// Tells whether each split has at most 1,000 children, so that its room can be divided.
    #[cycle(counting)]
    pub fn has_few_children(&self) -> bool
        ensures { IsTrue result ↔ HasFewChildren self.now }
    {
        match self {
            Node::HSplit(children) => have_few_children(children.as_slice()),
            Node::VSplit(children) => have_few_children(children.as_slice()),
            Node::Window(_) => true,
            Node::When(_, inner) => inner.get().has_few_children(),
            Node::FloatBox(inner, _) => inner.get().has_few_children(),
        }
    }

    /// Returns a part that is there only where the condition holds.
    pub fn when(alloc: Global, shown: bool, inner: Node) -> Result<Node, NoMemory>
        ensures { IfOk result (λ node. node ≡ Node.When shown inner) }
    {
        Ok(Node::When(shown, Boxed::new(alloc, inner)?))
    }

    /// Returns a part with floats over it, the later ones over the earlier.
    pub fn float_box(alloc: Global, inner: Node, floats: Floats) -> Result<Node, NoMemory>
        ensures { IfOk result (λ node. node ≡ Node.FloatBox inner floats) }
    {
        Ok(Node::FloatBox(Boxed::new(alloc, inner)?, floats))
    }
}

/// Tells whether there are at most 1,000 children, and so in each split inside them.
#[cycle(counting)]
fn have_few_children(children: &[Node]) -> bool
    ensures { IsTrue result
        ↔ ((length children.now ≤ 1000) × EachChild Node HasFewChildren children.now) }
{
    for child in children {
        if !child.has_few_children() {
            return false;
        }
    }
    children.len() <= 1000
}
