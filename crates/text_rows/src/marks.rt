//! Marks of rows that begin at the characters of a text.
ghost use Rattle.std.specs.Prelude.{◌≡◌, ℕ, ◌<◌, ◌≤◌, ◌++◌, All, IfOk, OnOk, length, replicate, slice_index_or};
ghost use Rattle.text_rows.specs.Flows.{StandBefore, begun_by, moved, room_after};
ghost use Rattle.text_rows.specs.declared.marks.Mark.{Mark};

use crate::flows::Flow;
use cell_grid::NoMemory;
use std::alloc::Global;

/// A row that begins at a character of the text.
#[derive(Clone, Copy, Debug, PartialEq, Eq)]
pub struct Mark {
    /// The place of the character.
    pub place: usize,
    /// The room that was left before it, in the row where it begins.
    pub room: u32,
}

/// The marks of a text, and the room that is left behind it.
#[derive(Drop)]
pub struct Marks {
    pub marks: Vec<Mark>,
    pub room: u32,
}

/// Adds the marks of a character, and tells the room behind it.
pub fn push_char(
    marks: &mut Vec<Mark>,
    place: usize,
    room: u32,
    c: char,
    under: Flow,
    width: u32,
) -> Result<u32, NoMemory>
    requires few { under.rows ≤ 1000000 }
    ensures marks { OnOk result (marks.new.items
        ≡ marks.old.items ++ replicate (begun_by width under room c) (record { place = place; room = room })) }
    ensures room { IfOk result (λ left. left ≡ room_after width under room c) }
{
    let mut flow = Flow { rows: 0, room };
    flow.put_char(c, under, width);
    push_copies(marks, Mark { place, room }, flow.rows)?;
    Ok(flow.room)
}

/// Adds a mark so many times.
fn push_copies(marks: &mut Vec<Mark>, mark: Mark, count: usize) -> Result<(), NoMemory>
    ensures { OnOk result (marks.new.items ≡ marks.old.items ++ replicate count mark) }
{
    for _turn in 0..count {
        marks.push(mark)?;
    }
    Ok(())
}

/// Returns how many marks stand before a place. Those before `from` do.
pub fn count_before(marks: &[Mark], from: usize, place: usize) -> usize
    requires within { from ≤ length marks.now }
    requires before { (i : ℕ) (other : Mark) → i < from → (slice_index_or marks.now i other).place < place }
    ensures count { StandBefore marks.now place result }
    ensures above { from ≤ result }
{
    let mut count = from;
    while count < marks.len() && marks[count].place < place {
        count += 1;
    }
    count
}

/// Adds marks that are moved by as much as from one place to another.
pub fn push_moved(
    to_marks: &mut Vec<Mark>,
    marks: &[Mark],
    from: usize,
    to: usize,
) -> Result<(), NoMemory>
    requires few { All (λ mark. mark.place ≤ 32768) marks.now }
    requires to { to ≤ 32768 }
    ensures { OnOk result (to_marks.new.items ≡ to_marks.old.items ++ moved from to marks.now) }
{
    for mark in marks {
        to_marks.push(Mark {
            place: mark.place.saturating_sub(from) + to,
            room: mark.room,
        })?;
    }
    Ok(())
}
