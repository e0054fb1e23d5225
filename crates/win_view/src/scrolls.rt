//! How far a window is scrolled.
ghost use Rattle.std.specs.Prelude.{◌≡◌, ◌<◌, ◌≤◌};
ghost use Rattle.win_view.specs.Scroll.{scrolled};

/// How many rows of the content stand above the window, and how many columns before it.
#[derive(Clone, Copy, Debug, PartialEq, Eq)]
pub struct Scroll {
    pub down: u32,
    pub across: u32,
}

/// Returns the scroll at which a window of this many rows (or columns) shows the cursor, as near to the old one as can
/// be. The content has `content` of them. So many as `offset` stay before and behind the cursor, as far as there are so
/// many and half of the window has room for them.
pub fn scroll_to(old: u32, offset: u32, cursor: u32, window: u32, content: u32) -> u32
    requires cursor { cursor < content }
    requires window { 1 ≤ window }
    ensures { result ≡ scrolled old offset cursor window content }
{
    let half = (window - 1) / 2;
    let before = offset.min(half).min(cursor);
    let behind = offset.min(half).min(content - 1 - cursor);
    let least = (cursor + 1 + behind).saturating_sub(window);
    let greatest = cursor - before;
    let wanted = old.min(content.saturating_sub(window));
    wanted.min(greatest).max(least)
}
