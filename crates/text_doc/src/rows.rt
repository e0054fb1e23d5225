//! Rows and columns, by the row starts of the text.
ghost use Rattle.std.specs.Prelude.{◌≡◌, ◌<◌, ◌≤◌, length, IfSome};
ghost use Rattle.text_doc.specs.Rows.{line_start, line_end, row_of, row_start, index_of, up, down};

use crate::indexed_texts::IndexedText;

pub fn line_start(text: &IndexedText, place: usize) -> usize
    requires { place ≤ length text.now }
    ensures start { result ≡ line_start text.now place }
    ensures within { result ≤ place }
{
    row_start(text, text.row_of(place))
}

pub fn line_end(text: &IndexedText, place: usize) -> usize
    requires { place ≤ length text.now }
    ensures end { result ≡ line_end text.now place }
    ensures behind { place ≤ result }
    ensures within { result ≤ length text.now }
    ensures short { length text.now ≤ 32768 }
{
    let row = text.row_of(place);
    if row < text.last_row() {
        text.start_of(row + 1) - 1
    } else {
        text.len()
    }
}

pub fn index_of(text: &IndexedText, row: usize, col: usize) -> usize
    ensures place { result ≡ index_of text.now row col }
    ensures within { result ≤ length text.now }
{
    let start = row_start(text, row);
    let end = line_end(text, start);
    if col < end - start { start + col } else { end }
}

#[tactic(auto, unfolding(crate::specs::Rows::up))]
pub fn up(text: &IndexedText, from: usize, count: u32, col: usize) -> Option<usize>
    requires { from ≤ length text.now }
    ensures place { result ≡ up text.now from count col }
    ensures within { IfSome result (λ at. at ≤ length text.now) }
{
    let row = text.row_of(from);
    if row == 0 || count == 0 {
        return None;
    }
    Some(index_of(text, row.saturating_sub(count as usize), col))
}

#[tactic(auto, unfolding(crate::specs::Rows::down))]
pub fn down(text: &IndexedText, from: usize, count: u32, col: usize) -> Option<usize>
    requires { from ≤ length text.now }
    ensures place { result ≡ down text.now from count col }
    ensures within { IfSome result (λ at. at ≤ length text.now) }
{
    let row = text.row_of(from);
    if row == text.row_of(text.len()) || count == 0 {
        return None;
    }
    Some(index_of(text, row + count as usize, col))
}

/// Returns where the row with this number starts, or the last row where there is none with it.
fn row_start(text: &IndexedText, row: usize) -> usize
    ensures start { result ≡ row_start text.now row }
    ensures within { result ≤ length text.now }
{
    let number = row.min(text.last_row());
    if number == 0 {
        0
    } else {
        text.start_of(number)
    }
}
