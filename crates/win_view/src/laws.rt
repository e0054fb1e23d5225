//! What wrapping, scrolling and a view mean, as laws over their definitions. The functions do nothing.
ghost use Rattle.std.specs.Prelude.{◌≡◌, ℕ, ◌+◌, ◌<◌, ◌≤◌, All, List, flat_map, length};
ghost use Rattle.cell_grid.specs.declared.cell.Cell.{Cell};
ghost use Rattle.cell_grid.specs.Grid.{AllRows};
ghost use Rattle.cell_grid.specs.Row.{IsWhole};
ghost use Rattle.cell_grid.specs.Size.{Extent};
ghost use Rattle.win_view.specs.declared.contents.Content.{Content};
ghost use Rattle.win_view.specs.declared.scrolls.Scroll.{Scroll};
ghost use Rattle.win_view.specs.Contents.{IsContent};
ghost use Rattle.win_view.specs.Greedy.{IsGreedy};
ghost use Rattle.win_view.specs.Rows.{holdable, rows_of};
ghost use Rattle.win_view.specs.Scroll.{scrolled};
ghost use Rattle.win_view.specs.Settling.{settled};
ghost use Rattle.win_view.specs.Views.{viewed, window_rows};

/// The rows of a line are its cells in their order, and each of them is as long as can be: a row parts no wide
/// character, is not longer than the width, and has no room for the character behind it.
pub fn rows_are_greedy()
    ensures joined { (width : ℕ) (cells : List Cell)
        → flat_map (λ row. row) (rows_of width cells) ≡ holdable width cells }
    ensures greedy { (width : ℕ) (cells : List Cell) → 1 ≤ width → IsWhole cells
        → IsGreedy width (rows_of width cells) }
{}

/// At the new scroll the cursor is in the window.
pub fn scroll_shows_the_cursor()
    ensures not_above { (old offset cursor window content : ℕ) → cursor < content → 1 ≤ window
        → scrolled old offset cursor window content ≤ cursor }
    ensures not_below { (old offset cursor window content : ℕ) → cursor < content → 1 ≤ window
        → cursor < scrolled old offset cursor window content + window }
{}

/// A scroll that is settled stays.
pub fn settling_twice_is_settling_once()
    ensures scrolled { (old offset cursor window content : ℕ) → cursor < content → 1 ≤ window
        → scrolled (scrolled old offset cursor window content) offset cursor window content
        ≡ scrolled old offset cursor window content }
    ensures settled { (content : Content) (size : Extent) (old : Scroll) → IsContent content
        → 1 ≤ size.rows → 1 ≤ size.cols
        → settled content size (settled content size old) ≡ settled content size old }
{}

/// The window shows as many rows as it has, and each is whole and as wide as the window.
pub fn a_view_fills_the_window()
    ensures rows { (content : Content) (size : Extent) (scroll : Scroll)
        → length (window_rows content size scroll) ≡ size.rows }
    ensures cols { (content : Content) (size : Extent) (scroll : Scroll) → 1 ≤ size.cols
        → All IsWhole content.lines
        → AllRows size.cols (window_rows content size scroll) }
{}

/// At a settled scroll the view's cursor is in the window.
pub fn a_settled_view_shows_the_cursor()
    ensures row { (content : Content) (size : Extent) (old : Scroll) → IsContent content
        → 1 ≤ size.rows
        → (viewed content size (settled content size old)).row < size.rows }
    ensures col { (content : Content) (size : Extent) (old : Scroll) → IsContent content
        → 1 ≤ size.cols
        → All IsWhole content.lines
        → (viewed content size (settled content size old)).col < size.cols }
{}
