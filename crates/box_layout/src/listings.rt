//! The nodes of a layout in a list, which one walk of the layout makes.
ghost use Rattle.std.specs.Prelude.{◌≡◌, ◌++◌, ◌+◌, ◌≤◌, true, false, map, flat_map, filter, length, IfOk, OnOk};
ghost use Rattle.box_layout.specs.Asked.{asked, wanted};
ghost use Rattle.box_layout.specs.Listing.{inside, listing, tops, IsFirst, IsListing};

use crate::asked::Asked;
use crate::{Node, Pane};
use cell_grid::NoMemory;
use layout_dims::{Dimension, largest, sum};
use std::alloc::Global;
use std::marker::Model;

// A node in the list of a layout's nodes, in which the nodes inside it stand behind it.
#[derive(Drop)]
pub(crate) struct ListedNode<'a> {
    pub(crate) node: &'a Node,
    pub(crate) asked: Asked,
    // How many of the nodes behind it are inside it.
    pub(crate) inner: usize,
}

impl<'a> Model for ListedNode<'a> {
    ghost use Rattle.std.specs.Coded.{codes};
    ghost use Rattle.box_layout.specs.contracts.nodes.Node as nodes;
    ghost use Rattle.box_layout.specs.Listing.{Listed};

    ghost Value = { Listed };

    ghost view = { λ l. record { node = l.node.now; asked = l.asked; inner = l.inner } };

    ghost coded = { Prim.hlevel (codes, nodes.the_row.coded) };
}

/// Returns the first node of a list and the nodes inside it.
pub(crate) fn first_of<'m, 'a>(
    listed: &'m [ListedNode<'a>],
) -> (&'m ListedNode<'a>, &'m [ListedNode<'a>])
    requires listing { IsListing listed.now }
    requires some { 1 ≤ length listed.now }
    ensures { IsFirst listed.now result.0.now result.1.now }
{
    let first = &listed[0];
    let (inner, _behind) = listed[1..].split_at(first.inner);
    (first, inner)
}

/// Tells what the nodes of a list ask for that stand in the split around them.
pub(crate) fn parts_of(
    alloc: Global,
    listed: &[ListedNode],
    across: bool,
) -> Result<Vec<Dimension>, NoMemory>
    requires { IsListing listed.now }
    ensures { IfOk result (λ parts. parts.items
        ≡ map (wanted across) (filter (λ child. (asked child).present) (tops listed.now))) }
{
    let mut parts = Vec::new(alloc);
    let mut at = 0;
    while at < listed.len() {
        let (first, inner) = first_of(&listed[at..]);
        let own: &Asked = &first.asked;
        if own.present {
            parts.push(own.along(across))?;
        }
        at += inner.len() + 1;
    }
    Ok(parts)
}

/// Adds a node and the nodes inside it.
#[cycle(listing)]
fn list_node<'a>(
    alloc: Global,
    node: &'a Node,
    listed: &mut Vec<ListedNode<'a>>,
) -> Result<(), NoMemory>
    ensures { OnOk result (listed.new.items ≡ listed.old.items ++ listing node.now) }
{
    let at = listed.len();
    listed.push(ListedNode {
        node,
        asked: Asked::absent(),
        inner: 0,
    })?;
    let asked = list_inner(alloc, node, listed)?;
    let inner = listed.len() - at - 1;
    listed[at] = ListedNode { node, asked, inner };
    Ok(())
}

/// Adds the nodes inside a node, and tells what it asks for.
#[cycle(listing)]
fn list_inner<'a>(
    alloc: Global,
    node: &'a Node,
    listed: &mut Vec<ListedNode<'a>>,
) -> Result<Asked, NoMemory>
    ensures listed { OnOk result (listed.new.items
        ≡ listed.old.items ++ flat_map listing (inside node.now)) }
    ensures asked { IfOk result (λ own. own ≡ asked node.now) }
{
    let first = listed.len();
    match node {
        Node::HSplit(children) => {
            list_all(alloc, children.as_slice(), listed)?;
            let inner = &listed[first..];
            let rows = parts_of(alloc, inner, false)?;
            let cols = parts_of(alloc, inner, true)?;
            Ok(Asked::here(sum(&rows), largest(&cols)))
        },
        Node::VSplit(children) => {
            list_all(alloc, children.as_slice(), listed)?;
            let inner = &listed[first..];
            let rows = parts_of(alloc, inner, false)?;
            let cols = parts_of(alloc, inner, true)?;
            Ok(Asked::here(largest(&rows), sum(&cols)))
        },
        Node::Window(pane) => {
            let pane: &Pane = pane;
            Ok(Asked::here(pane.height, pane.width))
        },
        Node::When(shown, part) => {
            if !*shown {
                return Ok(Asked::absent());
            }
            list_node(alloc, part.get(), listed)?;
            let part: &Asked = &listed[first].asked;
            Ok(Asked::here(part.rows, part.cols))
        },
        Node::FloatBox(part, _) => {
            list_node(alloc, part.get(), listed)?;
            let part: &Asked = &listed[first].asked;
            Ok(Asked::here(part.rows, part.cols))
        },
    }
}

/// Adds the children of a split and the nodes inside them.
#[cycle(listing)]
fn list_all<'a>(
    alloc: Global,
    children: &'a [Node],
    listed: &mut Vec<ListedNode<'a>>,
) -> Result<(), NoMemory>
    ensures { OnOk result (listed.new.items ≡ listed.old.items ++ flat_map listing children.now) }
{
    for child in children {
        list_node(alloc, child, listed)?;
    }
    Ok(())
}

/// Returns the nodes of a layout, in one walk.
pub(crate) fn listing_of<'a>(alloc: Global, node: &'a Node) -> Result<Vec<ListedNode<'a>>, NoMemory>
    ensures { IfOk result (λ listed. listed.items ≡ listing node.now) }
{
    let mut listed = Vec::new(alloc);
    list_node(alloc, node, &mut listed)?;
    Ok(listed)
}

/// Returns the columns, or rows, that a node asks for.
///
/// A window asks for what it says. A split asks for the sum of what its children ask for along it and for the largest
/// across it; children that are not there count for nothing.
pub fn preferred(alloc: Global, node: &Node, across: bool) -> Result<Dimension, NoMemory>
    ensures { IfOk result (λ d. d ≡ wanted across node.now) }
{
    let listed = listing_of(alloc, node)?;
    let (first, _inner) = first_of(listed.as_slice());
    let own: &Asked = &first.asked;
    Ok(own.along(across))
}
