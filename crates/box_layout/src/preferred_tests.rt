//! What layouts ask for, and what can be done with a list of placed windows.
use crate::place_shapes::Shape::{Columns, Over, Plain, Rows, There};
use crate::place_shapes::Spot::Near;
use crate::place_shapes::{FIVE, NONE, Numbers, ONE, REST, Shape, THREE, TWO, Window};
use crate::place_tests::node_of;
use crate::{place, preferred, set_scroll};
use cell_grid::Size;
use std::test::Fail;
use win_view::Scroll;

const WINDOW: Window = Window {
    width: REST,
    height: REST,
    words: "",
    cell: 0,
    focus: false,
};

const ROW: Shape = Plain(Window {
    height: ONE,
    ..WINDOW
});

const TWO_ROWS: Shape = Plain(Window {
    height: TWO,
    ..WINDOW
});

const TWO_BY_THREE: Shape = Plain(Window {
    height: TWO,
    width: THREE,
    ..WINDOW
});

const ONE_BY_FIVE: Shape = Plain(Window {
    height: ONE,
    width: FIVE,
    ..WINDOW
});

// A layout with the rows and the columns that it asks for.
const ASKED: [(Shape, Numbers, Numbers); 8] = [
    (ONE_BY_FIVE, ONE, FIVE),
    (Rows(&[TWO_BY_THREE, ONE_BY_FIVE]), THREE, FIVE),
    (Columns(&[TWO_BY_THREE, TWO_BY_THREE]), TWO, (6, 6, 1, 6)),
    (
        Rows(&[ROW, There(false, &TWO_ROWS), There(true, &TWO_ROWS)]),
        THREE,
        REST,
    ),
    (There(false, &ROW), NONE, NONE),
    (Columns(&[]), NONE, NONE),
    (Over(&TWO_BY_THREE, &[(WINDOW, Near(0, 0))]), TWO, THREE),
    (
        Rows(&[Plain(WINDOW), Plain(WINDOW)]),
        (0, 1_000_000, 1, 2),
        REST,
    ),
];

#[test]
fn layouts_ask_for_rows_and_columns(rt: HostRuntime) -> Result<(), Fail> {
    for (shape, rows, cols) in &ASKED {
        let node = node_of(rt.alloc(), shape)?;
        let down = preferred(rt.alloc(), &node, false)?;
        assert_eq!(rt; down.numbers(), *rows);
        let across = preferred(rt.alloc(), &node, true)?;
        assert_eq!(rt; across.numbers(), *cols);
    }
    Ok(())
}

#[test]
fn a_scroll_is_set_in_a_copy(rt: HostRuntime) -> Result<(), Fail> {
    let node = node_of(rt.alloc(), &ROW)?;
    assert!(rt; node.has_few_children());
    let size = Size::new(2, 3).ok_or("a size")?;
    let placed = place(rt.alloc(), &node, size, false)?.ok_or("a place")?;
    let mut copy = placed.copy()?;
    assert!(rt; copy.len() == 1);
    set_scroll(&mut copy, 0, Scroll { down: 4, across: 5 });
    let scrolls = [(&placed, (0, 0)), (&copy, (4, 5))];
    for (list, scroll) in scrolls {
        let one = list.get(0).ok_or("a window")?;
        assert_eq!(rt; (one.scroll.down, one.scroll.across), scroll);
        assert_eq!(rt; (one.row, one.size.rows()), (0, 2));
    }
    Ok(())
}
