//! Where windows and floats stand.
use crate::paint_tests::is_content;
use crate::place_cases::{NEAR, RIGHT, SPLITS};
use crate::place_shapes::{Case, Numbers, Shape, Spot, Window};
use crate::{Float, FloatPlace, Floats, Node, Nodes, Pane, place};
use cell_grid::{Attrs, CellRows, Fragment, Size, cells_of};
use layout_dims::Dimension;
use sequences::Text;
use std::alloc::Global;
use std::process::Abort;
use std::test::Fail;
use win_view::{Content, Scroll};

fn dimension(numbers: Numbers) -> Result<Dimension, Fail> {
    let (min, max, weight, preferred) = numbers;
    if max > 1_000_000 || weight > 1000 {
        return Err(Fail::from("too large a dimension"));
    }
    let made = Dimension::new(min, max, weight, preferred)
        .ok()
        .ok_or("a dimension")?;
    Ok(made)
}

fn pane_of(alloc: Global, window: &Window) -> Result<Pane, Fail> {
    let attrs = Attrs::plain();
    let fragments = [
        Fragment {
            attrs,
            control: attrs,
            text: Text::read_str(alloc, window.words)?,
        },
        Fragment {
            attrs,
            control: attrs,
            text: Text::read_str(alloc, " ")?,
        },
    ];
    let mut lines = CellRows::new(alloc);
    lines.push(cells_of(alloc, &fragments)?)?;
    let content = Content {
        lines,
        line: 0,
        cell: window.cell,
        wrap: true,
    };
    if !is_content(&content) {
        return Err(Fail::from("no content"));
    }
    Ok(Pane {
        content,
        scroll: Scroll { down: 0, across: 0 },
        width: dimension(window.width)?,
        height: dimension(window.height)?,
        attrs,
        focus: window.focus,
    })
}

#[cycle(making)]
fn nodes_of(alloc: Global, shapes: &[Shape]) -> Result<Nodes, Fail> {
    let mut nodes = Nodes::new(alloc);
    for shape in shapes {
        nodes.push(node_of(alloc, shape)?)?;
    }
    Ok(nodes)
}

fn floats_of(alloc: Global, floats: &[(Window, Spot)]) -> Result<Floats, Fail> {
    let mut made = Floats::new(alloc);
    for (window, spot) in floats {
        let place = match spot {
            Spot::Right => FloatPlace::TopRight,
            Spot::Near(row, col) => FloatPlace::Near {
                row: *row,
                col: *col,
            },
        };
        made.push(Float {
            pane: pane_of(alloc, window)?,
            place,
        })?;
    }
    Ok(made)
}

#[cycle(making)]
pub(crate) fn node_of(alloc: Global, shape: &Shape) -> Result<Node, Fail> {
    match shape {
        Shape::Rows(shapes) => Ok(Node::HSplit(nodes_of(alloc, shapes)?)),
        Shape::Columns(shapes) => Ok(Node::VSplit(nodes_of(alloc, shapes)?)),
        Shape::Plain(window) => Ok(Node::Window(pane_of(alloc, window)?)),
        Shape::There(shown, inner) => {
            let inner = node_of(alloc, inner)?;
            Ok(Node::when(alloc, *shown, inner)?)
        },
        Shape::Over(inner, floats) => {
            let inner = node_of(alloc, inner)?;
            let floats = floats_of(alloc, floats)?;
            Ok(Node::float_box(alloc, inner, floats)?)
        },
    }
}

fn assert_placed(rt: &(impl Abort + AllocGlobal), case: &Case) -> Result<(), Fail> {
    let node = node_of(rt.alloc(), &case.shape)?;
    assert!(rt; node.has_few_children());
    let size = Size::new(case.size.0, case.size.1).ok_or("a size")?;
    let placed = place(rt.alloc(), &node, size, case.done)?;
    match (placed, case.wanted) {
        (Some(placed), Some(wanted)) => {
            assert_eq!(rt; placed.len(), wanted.len(), "{}", case.what);
            for (one, area) in placed.as_slice().iter().zip(wanted) {
                let found = (one.row, one.col, one.size.rows(), one.size.cols());
                assert_eq!(rt; found, *area, "{}", case.what);
            }
        },
        (None, None) => {},
        (placed, _) => assert!(rt; placed.is_none(), "{}", case.what),
    }
    Ok(())
}

#[test]
fn splits_divide_their_room(rt: HostRuntime) -> Result<(), Fail> {
    for case in &SPLITS {
        assert_placed(&rt, case)?;
    }
    Ok(())
}

#[test]
fn floats_stand_near_a_place(rt: HostRuntime) -> Result<(), Fail> {
    for case in &NEAR {
        assert_placed(&rt, case)?;
    }
    Ok(())
}

#[test]
fn floats_stand_at_the_right(rt: HostRuntime) -> Result<(), Fail> {
    for case in &RIGHT {
        assert_placed(&rt, case)?;
    }
    Ok(())
}
