//! Rows that are kept beside those of all cells, over random edits and changes of width.
ghost use Rattle.std.specs.Prelude.{◌<◌, ◌≤◌};

use super::*;
use crate::tests::{cells_of, is_drawn};
use cell_grid::{Attrs, CellRow, NoMemory};
use std::alloc::Global;
use std::process::Abort;
use std::test::Fail;
use text_doc::Text;
use win_view::height;

/// How many edits each test makes.
const EDITS: usize = 60;

/// The characters that edits insert: narrow and wide ones, line feeds, one that joins the character before it, and some
/// that are spelled.
const INSERTED: [char; 8] = ['a', '\n', '中', '\u{301}', '\t', '\u{85}', '\u{a0}', 'b'];

/// The widths that are changed to.
const WIDTHS: [u32; 6] = [1, 2, 3, 40, 80, 997];

/// Pseudo-random numbers, by Knuth's linear congruential generator.
#[derive(Drop)]
struct Random(u64);

impl Random {
    fn below(&mut self, n: u32) -> u32
        requires { 0 < n }
        ensures { result < n }
    {
        self.0 = self
            .0
            .wrapping_mul(6_364_136_223_846_793_005)
            .wrapping_add(1_442_695_040_888_963_407);
        ((self.0 >> 33) % u64::from(n)) as u32
    }

    /// Returns a text with up to three characters deleted at a place, and up to three others inserted there.
    fn edited(&mut self, alloc: Global, text: &[char]) -> Result<Text, NoMemory> {
        let place = self.below(32_768) as usize;
        let (front, rest) = text.split_at(place.min(text.len()));
        let cut = self.below(4) as usize;
        let (_, back) = rest.split_at(cut.min(rest.len()));
        let mut edited = Text::from_chars(alloc, front)?;
        let count = self.below(4);
        for _i in 0..count {
            edited.push(INSERTED[self.below(8) as usize])?;
        }
        edited.extend_from_slice(back)?;
        Ok(edited)
    }
}

/// Returns so many of a character, in lines of so many.
fn lines_of(alloc: Global, c: char, count: usize, line: usize) -> Result<Text, NoMemory>
    requires { 1 ≤ line }
{
    let mut text = Text::new(alloc);
    for at in 0..count {
        text.push(if at % line == line - 1 { '\n' } else { c })?;
    }
    Ok(text)
}

/// Returns how many rows a text has, by the cells of all its lines.
fn plain_count(
    rt: &(impl Abort + AllocGlobal),
    message: &CellRow,
    continuation: &CellRow,
    text: &[char],
    suggestion: &[char],
    width: u32,
) -> Result<usize, Fail>
    requires { 1 ≤ width }
{
    let drawn = DrawnText {
        message,
        continuation,
        text,
        selected_from: 0,
        selected_to: 0,
        suggestion,
        looks: Looks {
            control: Attrs::plain(),
            selected: Attrs::plain(),
            suggestion: Attrs::plain(),
        },
    };
    assert!(rt; is_drawn(&drawn));
    let shown = content(rt.alloc(), &drawn, 0, true)?;
    Ok(height(&shown, width) as usize)
}

/// Keeps the rows of a text over edits and changes of width, and compares their number with the plain one.
fn assert_kept(rt: &(impl Abort + AllocGlobal), text: &Text) -> Result<(), Fail> {
    let message = cells_of(rt.alloc(), "中> ")?;
    let continuation = cells_of(rt.alloc(), "... ")?;
    let suggestion = Text::read_str(rt.alloc(), "中 and so on")?;
    let mut random = Random(1);
    assert!(rt; text.len() <= 32768 && suggestion.len() <= 32768);
    assert!(rt; message.len() <= 1000 && continuation.len() <= 1000);
    let (front, under) = (message.copy()?, continuation.copy()?);
    let mut kept = TextRows::new(rt.alloc(), front, under, text.as_slice(), 80)?;
    for _edit in 0..EDITS {
        if random.below(20) == 0 {
            let width = WIDTHS[random.below(6) as usize];
            assert!(rt; width > 0);
            kept.resize(width)?;
        }
        let edited = random.edited(rt.alloc(), kept.text())?;
        assert!(rt; edited.len() <= 32768);
        kept.update(edited.as_slice())?;
        let behind = suggestion.as_slice();
        let width = kept.width();
        let wanted = plain_count(
            rt,
            &message,
            &continuation,
            edited.as_slice(),
            behind,
            width,
        )?;
        assert_eq!(rt; kept.count(behind), wanted);
    }
    Ok(())
}

#[test]
fn keeps_one_long_line(rt: HostRuntime) -> Result<(), Fail> {
    let text = lines_of(rt.alloc(), 'x', 30_000, 40_000)?;
    assert_kept(&rt, &text)
}

#[test]
fn keeps_many_lines(rt: HostRuntime) -> Result<(), Fail> {
    let text = lines_of(rt.alloc(), 'x', 30_000, 43)?;
    assert_kept(&rt, &text)
}

#[test]
fn keeps_a_line_of_wide_characters(rt: HostRuntime) -> Result<(), Fail> {
    let text = lines_of(rt.alloc(), '世', 30_000, 40_000)?;
    assert_kept(&rt, &text)
}
