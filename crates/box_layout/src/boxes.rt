//! Where the windows of a layout stand.
ghost use Rattle.std.specs.Prelude.{◌≡◌, ◌+◌, ◌≤◌, flat_map, filter, zip, length, sum, IfOk, IfSome};
ghost use Rattle.box_layout.specs.Adding.{Adds, PartGives};
ghost use Rattle.box_layout.specs.Areas.{whole, room_of, IsDrawable};
ghost use Rattle.box_layout.specs.Asked.{asked};
ghost use Rattle.box_layout.specs.Boxes.{Boxes, InTurn, SplitGives};
ghost use Rattle.box_layout.specs.Children.{EachChild, HasFewChildren};
ghost use Rattle.box_layout.specs.Listing.{inside, listing, tops, IsListing};
ghost use Rattle.box_layout.specs.Placed.{AllInside};
ghost use Rattle.box_layout.specs.declared.nodes.Node.{Node};

use crate::areas::Area;
use crate::asked::Asked;
use crate::floats::place_floats;
use crate::listings::{ListedNode, first_of, listing_of, parts_of};
use crate::{Node, Pane, Placed, PlacedList};
use cell_grid::{NoMemory, Size};
use layout_dims::divide;
use std::alloc::Global;

/// Tells where the windows of a layout stand in a drawing of this size, in the order in which they are painted; none
/// where a split has too little room for what its children need at least.
///
/// A window takes its whole area. A split divides its area among the children that are there, by what they ask for;
/// `done` says that none grows beyond what it asks for by preference. A child of size 0 gives nothing, whatever is in
/// it. A box gives what is in it and then its floats.
///
/// The layout is walked once. This walk lists its nodes with what they ask for, and the areas are found by going over
/// the list; a part that is not there is never looked at.
pub fn place<'a>(
    alloc: Global,
    node: &'a Node,
    size: Size,
    done: bool,
) -> Result<Option<PlacedList<'a>>, NoMemory>
    requires { HasFewChildren node.now }
    ensures boxes { IfOk result (λ answer. Boxes done node.now (whole size) answer) }
    ensures inside { IfOk result (λ answer. IfSome answer (AllInside (whole size))) }
{
    let listed = listing_of(alloc, node)?;
    let (own, inner) = first_of(listed.as_slice());
    let area = Area::whole(size);
    let placing = Placing { alloc, done };
    let mut placed = PlacedList::new(alloc);
    if !placing.place_in(own, inner, &area, &mut placed)? {
        return Ok(None);
    }
    Ok(Some(placed))
}

// What stays the same while a layout is placed.
#[derive(Drop)]
pub(crate) struct Placing {
    pub(crate) alloc: Global,
    pub(crate) done: bool,
}

impl Placing {
    /// Adds the panes of a node, which stands in the list before these. False says that a division
    /// inside has too little room.
    #[cycle(placing)]
    pub(crate) fn place_in<'a>(
        &self,
        own: &ListedNode<'a>,
        inner: &[ListedNode<'a>],
        area: &Area,
        placed: &mut PlacedList<'a>,
    ) -> Result<bool, NoMemory>
        requires few { HasFewChildren own.now.node }
        requires inner { inner.now ≡ flat_map listing (inside own.now.node) }
        requires drawable { IsDrawable area.now }
        ensures { IfOk result (λ fits.
            Adds (Boxes self.now.done own.now.node area.now) area.now placed.old placed.new fits) }
    {
        let node: &'a Node = own.node;
        match node {
            Node::HSplit(_) => {
                let fits = self.place_split(inner, false, area, placed)?;
                Ok(fits)
            },
            Node::VSplit(_) => {
                let fits = self.place_split(inner, true, area, placed)?;
                Ok(fits)
            },
            Node::Window(pane) => {
                let pane: &Pane = pane;
                placed.push(Placed {
                    pane,
                    scroll: pane.scroll,
                    row: area.row,
                    col: area.col,
                    size: area.size,
                })?;
                Ok(true)
            },
            Node::When(shown, _) => {
                if !*shown {
                    return Ok(true);
                }
                let (part, inside) = first_of(inner);
                let fits = self.place_in(part, inside, area, placed)?;
                Ok(fits)
            },
            Node::FloatBox(_, floats) => {
                let first = placed.len();
                let (part, inside) = first_of(inner);
                if !self.place_in(part, inside, area, placed)? {
                    return Ok(false);
                }
                place_floats(self.alloc, floats.as_slice(), area, first, placed)?;
                Ok(true)
            },
        }
    }

    /// Adds the panes of the children of a split, which stand side by side, or else one below
    /// another.
    #[cycle(placing)]
    fn place_split<'a>(
        &self,
        children: &[ListedNode<'a>],
        across: bool,
        area: &Area,
        placed: &mut PlacedList<'a>,
    ) -> Result<bool, NoMemory>
        requires listing { IsListing children.now }
        requires few { length (tops children.now) ≤ 1000 }
        requires few_inside { EachChild Node HasFewChildren (tops children.now) }
        requires drawable { IsDrawable area.now }
        ensures { IfOk result (λ fits.
            Adds (SplitGives Node (λ x. x) (Boxes self.now.done) self.now.done across
            (tops children.now) area.now)
            area.now placed.old placed.new fits) }
    {
        let parts = parts_of(self.alloc, children, across)?;
        let room = area.room(across);
        match divide(self.alloc, &parts, room, self.done)? {
            Some(sizes) => {
                let fits = self.place_parts(children, sizes.as_slice(), across, area, placed)?;
                Ok(fits)
            },
            None => Ok(false),
        }
    }

    /// Adds the panes of the children of a split that stand in it, which have these sizes.
    #[cycle(placing)]
    fn place_parts<'a>(
        &self,
        children: &[ListedNode<'a>],
        sizes: &[u32],
        across: bool,
        area: &Area,
        placed: &mut PlacedList<'a>,
    ) -> Result<bool, NoMemory>
        requires listing { IsListing children.now }
        requires few_inside { EachChild Node HasFewChildren (tops children.now) }
        requires drawable { IsDrawable area.now }
        requires one_each { length sizes.now
            ≡ length (filter (λ x. (asked x).present) (tops children.now)) }
        requires room { sum sizes.now ≤ room_of across area.now }
        ensures { IfOk result (λ fits.
            Adds (InTurn Node (Boxes self.now.done) across area.now
            (zip (filter (λ x. (asked x).present) (tops children.now)) sizes.now) 0)
            area.now placed.old placed.new fits) }
    {
        let mut at = 0;
        let mut next = 0;
        let mut before = 0;
        while at < children.len() {
            let (child, inner) = first_of(&children[at..]);
            let own: &Asked = &child.asked;
            if own.present {
                let size = sizes[next];
                if !self.place_part(child, inner, across, area, before, size, placed)? {
                    return Ok(false);
                }
                next += 1;
                before += size;
            }
            at += inner.len() + 1;
        }
        Ok(true)
    }

    /// Adds the panes of a child, which stands in the list before these, in its part of an area.
    #[cycle(placing)]
    fn place_part<'a>(
        &self,
        child: &ListedNode<'a>,
        inner: &[ListedNode<'a>],
        across: bool,
        area: &Area,
        before: u32,
        size: u32,
        placed: &mut PlacedList<'a>,
    ) -> Result<bool, NoMemory>
        requires few { HasFewChildren child.now.node }
        requires inner { inner.now ≡ flat_map listing (inside child.now.node) }
        requires drawable { IsDrawable area.now }
        requires room { before + size ≤ room_of across area.now }
        ensures { IfOk result (λ fits.
            Adds (PartGives self.now.done across area.now child.now.node before size)
            area.now placed.old placed.new fits) }
    {
        match area.part(across, before, size) {
            Some(part) => {
                let fits = self.place_in(child, inner, &part, placed)?;
                Ok(fits)
            },
            None => Ok(true),
        }
    }
}
