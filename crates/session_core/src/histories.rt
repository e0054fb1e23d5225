//! What an accepted text adds to the history, and the working lines of the prompt behind it.
ghost use Rattle.std.specs.Prelude.{◌≡◌, ◌≤◌, ◌-◌, ◌++◌, length, slice_get, option_copied, option_to_list, IfOk};
ghost use Rattle.std.specs.List.{All};
ghost use Rattle.edit_buffer.specs.Moves.{newest};
ghost use Rattle.edit_state.specs.States.{opened};
ghost use Rattle.session_core.specs.History.{entry_by, is_entry};

use edit_buffer::{Buffer, keep_newest};
use edit_state::EditState;
use std::alloc::Global;
use text_doc::{Item, NoMemory, Text};

/// Returns the text as the entry that it adds to the history: there is none where it is empty or the newest entry.
pub fn new_entry<'a>(history: &[Text], text: &'a Text) -> Option<&'a Text>
    ensures { option_copied result ≡ entry_by history.now text.now }
{
    if text.is_empty() || is_newest(history, text) {
        return None;
    }
    Some(text)
}

/// Tells whether the text is the newest entry.
fn is_newest(history: &[Text], text: &Text) -> bool
    ensures { result ≡ is_entry (slice_get history.now (length history.now - 1)) text.now }
{
    match history.last() {
        Some(entry) => entry.as_slice() == text.as_slice(),
        None => false,
    }
}

/// Returns copies of the entries of a history with one more behind them, if there is one. The newest 1,000 are kept.
pub fn history_with(
    alloc: Global,
    history: &[Text],
    entry: Option<Text>,
) -> Result<Vec<Text>, NoMemory>
    ensures { IfOk result (λ entries. entries.items
        ≡ newest (history.now ++ option_to_list entry)) }
{
    let mut entries = Text::copied_all(alloc, history)?;
    if let Some(entry) = entry {
        entries.push(entry)?;
    }
    keep_newest(&mut entries);
    Ok(entries)
}

/// Begins a new prompt in this buffer. The ring stays, and nothing else does.
pub fn begin_line(edit: &mut EditState, buffer: Buffer, multiline: bool)
    ensures { edit.new ≡ opened buffer edit.old.ring multiline }
{
    edit.buffer = buffer;
    edit.arg = None;
    edit.previous = None;
    edit.search = None;
    edit.suggestion = None;
    edit.column = None;
    edit.before_paste = None;
    edit.multiline = multiline;
}
