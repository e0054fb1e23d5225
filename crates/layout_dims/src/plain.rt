//! The division as its definition has it, slow and plain, for tests: each number of turns is tried, from the least on.
use std::alloc::{AllocError, Global};

/// A child: its minimum, maximum, weight and preferred size.
pub type Child = (u32, u32, u32, u32);

/// More turns than any stage of a test takes.
const MOST_TURNS: u32 = 10_000;

/// Returns how many of the first turns are each child's. The k-th turn of a child stands in round `(k - 1) * greatest
/// / weight + 1`, and turns stand in order of their rounds, those of one round in order of the children.
fn turns_among(alloc: Global, children: &[Child], first: u32) -> Result<Vec<u32>, AllocError> {
    let mut greatest = 1;
    let mut taken = Vec::new(alloc);
    for (_, _, weight, _) in children {
        greatest = greatest.max(*weight);
        taken.push(0u32)?;
    }
    let mut left = first;
    for round in 1..MOST_TURNS {
        if left == 0 {
            break;
        }
        for (turns, (_, _, weight, _)) in taken.iter_mut().zip(children) {
            let before = turns.wrapping_mul(greatest) / (*weight).max(1);
            if left > 0 && before.wrapping_add(1) == round {
                *turns = turns.wrapping_add(1);
                left -= 1;
            }
        }
    }
    Ok(taken)
}

/// Returns the sizes of a stage behind some turns: each child grows from its start by its turns, up to its cap.
fn sizes_behind(
    alloc: Global,
    starts: &[u32],
    caps: &[u32],
    before: &[u32],
    now: &[u32],
) -> Result<Vec<u32>, AllocError> {
    let mut sizes = Vec::new(alloc);
    for (((start, cap), first), turns) in starts.iter().zip(caps).zip(before).zip(now) {
        let grown = start.wrapping_add(turns.saturating_sub(*first));
        sizes.push(grown.min(*cap))?;
    }
    Ok(sizes)
}

/// Returns the sum of some sizes.
fn total(sizes: &[u32]) -> u32 {
    let mut sum = 0u32;
    for size in sizes {
        sum = sum.saturating_add(*size);
    }
    sum
}

/// Finds the least number of turns, from these on, whose sizes have the lesser of the room and the sum of the caps.
fn stage(
    alloc: Global,
    children: &[Child],
    starts: &[u32],
    caps: &[u32],
    from: u32,
    room: u32,
) -> Result<(Vec<u32>, u32), AllocError> {
    let wanted = room.min(total(caps));
    let before = turns_among(alloc, children, from)?;
    for turns in from..MOST_TURNS {
        let now = turns_among(alloc, children, turns)?;
        let sizes = sizes_behind(alloc, starts, caps, before.as_slice(), now.as_slice())?;
        if total(sizes.as_slice()) == wanted {
            return Ok((sizes, turns));
        }
    }
    Ok((Vec::new(alloc), from))
}

/// Returns the division of the room, or none where the minima exceed it.
pub fn plain_division(
    alloc: Global,
    children: &[Child],
    room: u32,
    done: bool,
) -> Result<Option<Vec<u32>>, AllocError> {
    let mut minima = Vec::new(alloc);
    let mut preferred = Vec::new(alloc);
    let mut maxima = Vec::new(alloc);
    for (min, max, _, wanted) in children {
        minima.push(*min)?;
        preferred.push((*wanted).max(*min).min(*max))?;
        maxima.push(*max)?;
    }
    if total(minima.as_slice()) > room {
        return Ok(None);
    }
    let (sizes, turns) = stage(
        alloc,
        children,
        minima.as_slice(),
        preferred.as_slice(),
        0,
        room,
    )?;
    if done {
        return Ok(Some(sizes));
    }
    let (sizes, _) = stage(
        alloc,
        children,
        sizes.as_slice(),
        maxima.as_slice(),
        turns,
        room,
    )?;
    Ok(Some(sizes))
}
