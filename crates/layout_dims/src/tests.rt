//! Dimensions, their totals and divisions, worked by hand, and divisions by the plain program.
use crate::plain::{Child, plain_division};
use crate::{Dimension, DimensionFault, Sizes, divide, largest, sum};
use std::alloc::Global;
use std::process::Abort;
use std::test::Fail;

fn dimension(rt: &impl Abort, child: Child) -> Dimension {
    let (min, max, weight, preferred) = child;
    assert!(rt; max <= 1_000_000);
    assert!(rt; weight <= 1000);
    Dimension::new(min, max, weight, preferred).expect(rt, "numbers of a dimension")
}

fn dimensions(rt: &impl Abort, alloc: Global, children: &[Child]) -> Result<Vec<Dimension>, Fail> {
    let mut parts = Vec::new(alloc);
    for child in children {
        parts.push(dimension(rt, *child))?;
    }
    Ok(parts)
}

/// Returns the sizes that the division gives, or none where it refuses.
fn divided(
    rt: &impl Abort,
    alloc: Global,
    children: &[Child],
    room: u32,
    done: bool,
) -> Result<Option<Sizes>, Fail> {
    let parts = dimensions(rt, alloc, children)?;
    let parts = parts.as_slice();
    assert!(rt; room <= 1000);
    assert!(rt; parts.len() <= 1000);
    Ok(divide(alloc, parts, room, done)?)
}

#[derive(Clone, Copy)]
struct Case<'a> {
    what: &'a str,
    children: &'a [Child],
    room: u32,
    done: bool,
    sizes: &'a [u32],
}

#[test]
fn makes_dimensions(rt: HostRuntime) {
    assert_eq!(rt;
        Dimension::new(3, 2, 0, 2).err(),
        Some(DimensionFault::MaxBelowMin)
    );
    assert_eq!(rt;
        Dimension::new(2, 3, 0, 2).err(),
        Some(DimensionFault::ZeroWeight)
    );
    for (asked, preferred) in [(1, 2), (2, 2), (5, 5), (8, 8), (9, 8)] {
        let made = dimension(&rt, (2, 8, 4, asked));
        assert_eq!(rt; made.numbers(), (2, 8, 4, preferred));
    }
}

#[test]
fn tells_faults(rt: HostRuntime) -> Result<(), Fail> {
    let sentences = [
        (
            DimensionFault::MaxBelowMin,
            "the maximum is below the minimum",
        ),
        (DimensionFault::ZeroWeight, "the weight is 0"),
    ];
    for (fault, sentence) in sentences {
        let told = format!(in rt.alloc(); "{fault}")?;
        assert_eq!(rt; told.as_str(), sentence);
    }
    Ok(())
}

#[test]
fn adds_up_parts(rt: HostRuntime) -> Result<(), Fail> {
    let few = dimensions(&rt, rt.alloc(), &[(1, 5, 2, 3), (2, 7, 9, 2)])?;
    assert_eq!(rt; sum(few.as_slice()).numbers(), (3, 12, 1, 5));
    assert_eq!(rt; largest(few.as_slice()).numbers(), (2, 7, 1, 3));

    let huge = (600_000, 1_000_000, 3, 700_000);
    let many = dimensions(&rt, rt.alloc(), &[huge, huge])?;
    assert_eq!(rt;
        sum(many.as_slice()).numbers(),
        (1_000_000, 1_000_000, 1, 1_000_000)
    );
    assert_eq!(rt;
        largest(many.as_slice()).numbers(),
        (600_000, 1_000_000, 1, 700_000)
    );

    assert_eq!(rt; sum(&[]).numbers(), (0, 0, 1, 0));
    assert_eq!(rt; largest(&[]).numbers(), (0, 0, 1, 0));
    Ok(())
}

#[test]
fn division(rt: HostRuntime) -> Result<(), Fail> {
    let rows = [(0, 30, 1, 1), (0, 30, 2, 2), (0, 30, 3, 9)];
    let alike = [(0, 10, 1, 10), (0, 10, 1, 10), (0, 10, 1, 10)];
    let one = [(2, 9, 7, 5)];
    let cases = [
        Case {
            what: "turns by rounds",
            children: &rows,
            room: 20,
            done: false,
            sizes: &[3, 5, 12],
        },
        Case {
            what: "turns by rounds, done",
            children: &rows,
            room: 20,
            done: true,
            sizes: &[1, 2, 9],
        },
        Case {
            what: "no children",
            children: &[],
            room: 10,
            done: false,
            sizes: &[],
        },
        Case {
            what: "one child, little room",
            children: &one,
            room: 4,
            done: false,
            sizes: &[4],
        },
        Case {
            what: "one child",
            children: &one,
            room: 7,
            done: false,
            sizes: &[7],
        },
        Case {
            what: "one child, done",
            children: &one,
            room: 7,
            done: true,
            sizes: &[5],
        },
        Case {
            what: "one child, much room",
            children: &one,
            room: 1000,
            done: false,
            sizes: &[9],
        },
        Case {
            what: "equal weights",
            children: &alike,
            room: 7,
            done: true,
            sizes: &[3, 2, 2],
        },
        Case {
            what: "minima fill the room",
            children: &[(2, 9, 1, 5), (3, 9, 1, 5)],
            room: 5,
            done: false,
            sizes: &[2, 3],
        },
        Case {
            what: "caps in both stages",
            children: &[(0, 2, 1, 1), (0, 3, 1, 1)],
            room: 10,
            done: false,
            sizes: &[2, 3],
        },
        Case {
            what: "caps in the first stage",
            children: &[(0, 2, 1, 1), (0, 3, 1, 1)],
            room: 10,
            done: true,
            sizes: &[1, 1],
        },
        Case {
            what: "the second stage goes on",
            children: &[(0, 5, 1, 1), (0, 5, 1, 0)],
            room: 2,
            done: false,
            sizes: &[1, 1],
        },
        Case {
            what: "rounds end unevenly",
            children: &[(0, 99, 2, 0), (0, 99, 3, 0)],
            room: 5,
            done: false,
            sizes: &[2, 3],
        },
        Case {
            what: "a light child waits",
            children: &[(0, 1, 1000, 1), (0, 3, 1, 3)],
            room: 4,
            done: true,
            sizes: &[1, 3],
        },
    ];
    for case in &cases {
        let answer = divided(&rt, rt.alloc(), case.children, case.room, case.done)?;
        let sizes = answer.expect(&rt, "sizes");
        assert_eq!(rt; sizes.as_slice(), case.sizes, "{}", case.what);
        let plain = plain_division(rt.alloc(), case.children, case.room, case.done)?;
        let plain = plain.expect(&rt, "plain sizes");
        assert_eq!(rt; plain.as_slice(), case.sizes, "plainly, {}", case.what);
    }
    let refused = divided(
        &rt,
        rt.alloc(),
        &[(2, 9, 1, 2), (2, 9, 1, 2), (2, 9, 1, 2)],
        5,
        false,
    )?;
    assert!(rt; refused.is_none());
    Ok(())
}

#[test]
fn divides_among_a_thousand(rt: HostRuntime) -> Result<(), Fail> {
    let child = dimension(&rt, (0, 1_000_000, 1000, 0));
    let parts = [child; 1000];
    let sizes = divide(rt.alloc(), &parts, 1000, false)?.expect(&rt, "sizes");
    assert_eq!(rt; sizes.len(), 1000);
    for size in sizes.as_slice() {
        assert_eq!(rt; *size, 1);
    }
    Ok(())
}
