//! Laws of vi's commands, each the contract of a function that does nothing.
ghost use Rattle.vi_keys.specs.Laws.{NumbersReadBack, YankLeavesText, CutIsDelete, NoPlaceEnds, PutRestoresDeleted};

/// The command with the number of a command is that command, and a number without a command is no command's.
pub fn numbers_read_back()
    ensures { NumbersReadBack }
{}

/// A copy by a motion changes no text.
pub fn yank_leaves_text()
    ensures { YankLeavesText }
{}

/// `x` leaves the text, the cursor and the ring that `d` and then `l` leave.
pub fn cut_is_delete()
    ensures { CutIsDelete }
{}

/// A motion that has no place ends the operator that waits, and leaves text, cursor and ring as they are.
pub fn no_place_ends()
    ensures { NoPlaceEnds }
{}

/// What `d` deletes by a motion of characters, `P` puts back where it was, unless the cursor had to go back from the end
/// of its row.
pub fn put_restores_deleted()
    ensures { PutRestoresDeleted }
{}
