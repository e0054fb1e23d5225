//! The marks of a changed text, of which those before the change and those behind it are kept.
ghost use Rattle.std.specs.Prelude.{◌≡◌, ◌-◌, ◌≤◌, IfOk, IsTrue, drop, length, take};
ghost use Rattle.text_rows.specs.Layings.{IsMarkAt, StartsAt};
ghost use Rattle.text_rows.specs.Flows.{AreMarks, marks_from, room_at};

use crate::changes::{common_back, common_front};
use crate::flows::Flow;
use crate::marks::{Mark, Marks, count_before, push_char, push_moved};
use cell_grid::NoMemory;
use std::alloc::Global;

/// How a text is laid: the columns of a row, the room before its first character, and what stands before each other
/// line.
#[derive(Clone, Copy, Debug)]
pub struct Ground {
    pub width: u32,
    pub room: u32,
    pub under: Flow,
}

/// Where the laying begins: a place, the room there, and how many marks stand before it.
#[derive(Clone, Copy, Debug)]
struct Start {
    place: usize,
    room: u32,
    count: usize,
}

/// Returns the marks of a text, none of which are known.
pub fn laid(alloc: Global, ground: Ground, text: &[char]) -> Result<Marks, NoMemory>
    requires few { ground.under.rows ≤ 1000000 }
    requires short { length text.now ≤ 32768 }
    ensures { IfOk result (λ m. AreMarks ground.width ground.under ground.room text.now m.marks.items m.room) }
{
    let mut marks = Vec::new(alloc);
    let start = Start {
        place: 0,
        room: ground.room,
        count: 0,
    };
    let room = lay_on(ground, &[], &[], ground.room, text, 0, start, &mut marks)?;
    Ok(Marks { marks, room })
}

/// Returns the marks of a text that was another one, whose marks are known. Rows are laid from the first change on until
/// they meet those of the other text.
pub fn laid_anew(
    alloc: Global,
    ground: Ground,
    old: &[char],
    known: &[Mark],
    last: u32,
    text: &[char],
) -> Result<Marks, NoMemory>
    requires few { ground.under.rows ≤ 1000000 }
    requires short_old { length old.now ≤ 32768 }
    requires short { length text.now ≤ 32768 }
    requires known { AreMarks ground.width ground.under ground.room old.now known.now last }
    ensures { IfOk result (λ m. AreMarks ground.width ground.under ground.room text.now m.marks.items m.room) }
{
    let front = common_front(old, text);
    let back = common_back(old, text);
    let start = start_before(ground, old, known, front);
    let mut marks = Vec::from_slice(alloc, &known[..start.count])?;
    let room = lay_on(ground, old, known, last, text, back, start, &mut marks)?;
    Ok(Marks { marks, room })
}

/// Returns the last place before another one where a row of the text begins, or the start of the text.
fn start_before(ground: Ground, old: &[char], marks: &[Mark], front: usize) -> Start
    requires front { front ≤ length old.now }
    requires marks { marks.now ≡ marks_from ground.width ground.under ground.room 0 old.now }
    ensures before { result.place ≤ front }
    ensures starts { StartsAt ground old.now marks.now result.place result.room result.count }
{
    let count = count_before(marks, 0, front);
    if count > 0 {
        let first = count_before(marks, 0, marks[count - 1].place);
        let mark = marks[first];
        return Start {
            place: mark.place,
            room: mark.room,
            count: first,
        };
    }
    Start {
        place: 0,
        room: ground.room,
        count: 0,
    }
}

/// Adds the marks of a text from a place on, and returns the room behind it. So many characters at its end are those of
/// the old text.
fn lay_on(
    ground: Ground,
    old: &[char],
    known: &[Mark],
    last: u32,
    text: &[char],
    back: usize,
    start: Start,
    marks: &mut Vec<Mark>,
) -> Result<u32, NoMemory>
    requires few { ground.under.rows ≤ 1000000 }
    requires short_old { length old.now ≤ 32768 }
    requires short { length text.now ≤ 32768 }
    requires known { AreMarks ground.width ground.under ground.room old.now known.now last }
    requires place { start.place ≤ length text.now }
    requires within_old { back ≤ length old.now }
    requires within { back ≤ length text.now }
    requires same { drop (length old.now - back) old.now ≡ drop (length text.now - back) text.now }
    requires marks { marks.old.items ≡ marks_from ground.width ground.under ground.room 0 (take start.place text.now) }
    requires room { start.room ≡ room_at ground.width ground.under ground.room (take start.place text.now) }
    ensures { IfOk result (λ room. AreMarks ground.width ground.under ground.room text.now marks.new.items room) }
{
    let mut room = start.room;
    let mut at = start.place;
    let mut met = 0;
    while at < text.len() {
        let left = text.len() - at;
        if left <= back {
            let here = old.len() - left;
            met = count_before(known, met, here);
            if is_mark_at(known, met, here, room) {
                push_moved(marks, &known[met..], here, at)?;
                return Ok(last);
            }
        }
        room = push_char(marks, at, room, text[at], ground.under, ground.width)?;
        at += 1;
    }
    Ok(room)
}

/// Tells whether a mark has this place and this room.
fn is_mark_at(marks: &[Mark], at: usize, place: usize, room: u32) -> bool
    ensures { IsTrue result → IsMarkAt marks.now at place room }
{
    if at >= marks.len() {
        return false;
    }
    let mark = marks[at];
    mark.place == place && mark.room == room
}
