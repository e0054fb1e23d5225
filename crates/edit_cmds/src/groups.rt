//! The row of each command, group by group.
ghost use Rattle.std.specs.Prelude.{◌≡◌, true, false, None, IfOk, OnOk, OnErr};
ghost use Rattle.key_names.specs.declared.key.KeyPress.{KeyPress};
ghost use Rattle.edit_state.specs.MenuMoves.{choices, stops};
ghost use Rattle.edit_state.specs.Searches.{HasOrigin};
ghost use Rattle.edit_cmds.specs.declared.groups.Group.TheVariants.{Moving, Inserting, Cutting, Rewriting, Choosing, Searching, Answering};
ghost use Rattle.edit_cmds.specs.Groups.{group_of};
ghost use Rattle.edit_cmds.specs.Running.{touches_search, fits, row, Rings, named, asks_without, AnswersAs};

use crate::rewriting::Case;
use crate::{
    counting, deleting, inserting, killing, moving, pasting, restoring, rewriting, searching,
};
use edit_state::{Command, Done, EditState, NoMemory, amount_in};
use key_names::KeyPress;
use std::alloc::Global;

/// What a command works on.
#[derive(Clone, Copy, Debug, PartialEq, Eq)]
pub enum Group {
    /// The cursor and the mark.
    Moving,
    /// Text that is put in at the cursor.
    Inserting,
    /// Text that is taken out.
    Cutting,
    /// Text that is replaced, by undo too.
    Rewriting,
    /// The menu, the rows and the lines of the history.
    Choosing,
    /// The incremental search.
    Searching,
    /// The argument, or the answer alone.
    Answering,
}

/// Does the row of a command.
pub(crate) fn do_row(
    alloc: Global,
    command: Command,
    key: &KeyPress,
    state: &mut EditState,
) -> Result<Done, NoMemory>
    requires origin { HasOrigin state.old }
    requires fits { fits command state.old ≡ true }
    ensures state { OnOk result (state.new ≡ row command key.now state.old) }
    ensures err { OnErr result (state.new ≡ state.old) }
    ensures origin { OnOk result (touches_search command ≡ true → HasOrigin state.new) }
    ensures done { IfOk result (λ done. AnswersAs (named command state.old)
        (Rings command key.now state.old) done state.old state.new) }
{
    match group_of(command) {
        Group::Moving => Ok(do_move(command, state)),
        Group::Inserting => do_insertion(alloc, command, key, state),
        Group::Cutting => do_cut(alloc, command, state),
        Group::Rewriting => do_rewriting(alloc, command, state),
        Group::Choosing => do_choice(command, state),
        Group::Searching => do_search(alloc, command, key, state),
        Group::Answering => do_answer(alloc, command, key, state),
    }
}

fn group_of(command: Command) -> Group
    ensures { result ≡ group_of command }
{
    match command {
        Command::BeginningOfLine | Command::EndOfLine => Group::Moving,
        Command::BackwardChar | Command::ForwardChar => Group::Moving,
        Command::BackwardWord | Command::ForwardWord => Group::Moving,
        Command::SelectLeft | Command::SelectRight => Group::Moving,
        Command::SelectUp | Command::SelectDown => Group::Moving,
        Command::SetMark => Group::Moving,
        Command::SelfInsert | Command::QuotedInsert => Group::Inserting,
        Command::InsertPaste | Command::Newline => Group::Inserting,
        Command::InsertSuggestion | Command::Yank => Group::Inserting,
        Command::YankPop => Group::Inserting,
        Command::BackwardDeleteChar | Command::DeleteChar => Group::Cutting,
        Command::KillLine | Command::UnixLineDiscard => Group::Cutting,
        Command::KillWord | Command::BackwardKillWord => Group::Cutting,
        Command::UnixWordRubout | Command::CutSelection => Group::Cutting,
        Command::CopySelection | Command::DeleteHorizontalSpace => Group::Cutting,
        Command::TransposeChars | Command::UppercaseWord => Group::Rewriting,
        Command::DowncaseWord | Command::CapitalizeWord => Group::Rewriting,
        Command::Undo | Command::Redo => Group::Rewriting,
        Command::AutoUp | Command::AutoDown => Group::Choosing,
        Command::PreviousHistory | Command::NextHistory => Group::Choosing,
        Command::BeginningOfHistory | Command::EndOfHistory => Group::Choosing,
        Command::MenuComplete | Command::MenuCompleteBackward => Group::Choosing,
        Command::Cancel => Group::Choosing,
        Command::SearchBackward | Command::SearchForward => Group::Searching,
        Command::ExtendNeedle | Command::ShortenNeedle => Group::Searching,
        Command::SearchAgainBackward | Command::SearchAgainForward => Group::Searching,
        Command::AcceptSearch | Command::AbortSearch => Group::Searching,
        _ => Group::Answering,
    }
}

/// Does the row of a command that moves the cursor or sets the mark.
fn do_move(command: Command, state: &mut EditState) -> Done
    requires { group_of command ≡ Moving }
    ensures state { (key : KeyPress) → state.new ≡ row command key state.old }
    ensures done { (key : KeyPress) → AnswersAs (named command state.old)
        (Rings command key state.old) result state.old state.new }
    ensures aside { touches_search command ≡ false }
{
    match command {
        Command::BeginningOfLine => moving::beginning_of_line(state),
        Command::EndOfLine => moving::end_of_line(state),
        Command::BackwardChar => moving::backward_char(state),
        Command::ForwardChar => moving::forward_char(state),
        Command::BackwardWord => moving::backward_word(state),
        Command::ForwardWord => moving::forward_word(state),
        Command::SelectLeft => moving::select_left(state),
        Command::SelectRight => moving::select_right(state),
        Command::SelectUp => moving::select_up(state),
        Command::SelectDown => moving::select_down(state),
        Command::SetMark => moving::set_mark(state),
        _ => Done::Same,
    }
}

/// Does the row of a command that inserts.
fn do_insertion(
    alloc: Global,
    command: Command,
    key: &KeyPress,
    state: &mut EditState,
) -> Result<Done, NoMemory>
    requires { group_of command ≡ Inserting }
    ensures state { OnOk result (state.new ≡ row command key.now state.old) }
    ensures err { OnErr result (state.new ≡ state.old) }
    ensures done { IfOk result (λ done. AnswersAs (named command state.old)
        (Rings command key.now state.old) done state.old state.new) }
    ensures aside { touches_search command ≡ false }
{
    match command {
        Command::SelfInsert => inserting::self_insert(state, alloc, key),
        Command::QuotedInsert => inserting::insert_text(state, alloc, key),
        Command::InsertPaste => inserting::insert_text(state, alloc, key),
        Command::Newline => inserting::newline(state, alloc),
        Command::InsertSuggestion => inserting::insert_suggestion(state, alloc),
        Command::Yank => pasting::yank(state, alloc),
        Command::YankPop => pasting::yank_pop(state),
        _ => Ok(Done::Same),
    }
}

/// Does the row of a command that deletes or cuts.
fn do_cut(alloc: Global, command: Command, state: &mut EditState) -> Result<Done, NoMemory>
    requires { group_of command ≡ Cutting }
    ensures state { (key : KeyPress) → OnOk result (state.new ≡ row command key state.old) }
    ensures err { OnErr result (state.new ≡ state.old) }
    ensures done { (key : KeyPress) → IfOk result (λ done. AnswersAs (named command state.old)
        (Rings command key state.old) done state.old state.new) }
    ensures aside { touches_search command ≡ false }
{
    match command {
        Command::BackwardDeleteChar => Ok(deleting::backward_delete_char(state)),
        Command::DeleteChar => Ok(deleting::delete_char(state)),
        Command::KillLine => killing::kill_line(state),
        Command::UnixLineDiscard => killing::unix_line_discard(state),
        Command::KillWord => killing::kill_word(state, alloc),
        Command::BackwardKillWord => killing::backward_kill_word(state, alloc),
        Command::UnixWordRubout => killing::unix_word_rubout(state, alloc),
        Command::CutSelection => killing::cut_selection(state),
        Command::CopySelection => killing::copy_selection(state),
        Command::DeleteHorizontalSpace => Ok(rewriting::delete_horizontal_space(state)),
        _ => Ok(Done::Same),
    }
}

/// Does the row of a command that puts other text in place of some, or restores a text.
fn do_rewriting(alloc: Global, command: Command, state: &mut EditState) -> Result<Done, NoMemory>
    requires { group_of command ≡ Rewriting }
    ensures state { (key : KeyPress) → OnOk result (state.new ≡ row command key state.old) }
    ensures err { OnErr result (state.new ≡ state.old) }
    ensures done { (key : KeyPress) → IfOk result (λ done. AnswersAs (named command state.old)
        (Rings command key state.old) done state.old state.new) }
    ensures aside { touches_search command ≡ false }
{
    match command {
        Command::TransposeChars => rewriting::transpose_chars(state, alloc),
        Command::UppercaseWord => rewriting::case_words(state, alloc, Case::Upper),
        Command::DowncaseWord => rewriting::case_words(state, alloc, Case::Lower),
        Command::CapitalizeWord => rewriting::case_words(state, alloc, Case::Capital),
        Command::Undo => restoring::undo(state),
        Command::Redo => restoring::redo(state),
        _ => Ok(Done::Same),
    }
}

/// Does the row of a command that chooses in the menu, or goes by rows or by lines of the history.
fn do_choice(command: Command, state: &mut EditState) -> Result<Done, NoMemory>
    requires { group_of command ≡ Choosing }
    ensures state { (key : KeyPress) → OnOk result (state.new ≡ row command key state.old) }
    ensures err { OnErr result (state.new ≡ state.old) }
    ensures done { (key : KeyPress) → IfOk result (λ done. AnswersAs (named command state.old)
        (Rings command key state.old) done state.old state.new) }
    ensures aside { touches_search command ≡ false }
{
    let count = amount_in(&state.arg).count();
    match command {
        Command::AutoUp => state.auto_up(count),
        Command::AutoDown => state.auto_down(count),
        Command::PreviousHistory => state.lines_back(count),
        Command::NextHistory => state.lines_forward(count),
        Command::BeginningOfHistory => state.first_line(),
        Command::EndOfHistory => state.last_line(),
        Command::MenuComplete => choose_next(state),
        Command::MenuCompleteBackward => state.choose_beside(false, 1),
        Command::Cancel => Ok(restoring::cancel(state)),
        _ => Ok(Done::Same),
    }
}

/// Chooses the next item of the menu. Without a menu completions are asked for.
fn choose_next(state: &mut EditState) -> Result<Done, NoMemory>
    ensures state { OnOk result (state.new ≡ choices true state.old 1) }
    ensures err { OnErr result (state.new ≡ state.old) }
    ensures done { IfOk result (λ done. AnswersAs (asks_without state.old.buffer.menu)
        (stops true 1 state.old.buffer.menu ≡ true) done state.old state.new) }
{
    match state.buffer.menu() {
        Some(_) => state.choose_beside(true, 1),
        None => Ok(Done::StartComplete),
    }
}

/// Does the row of a command that starts a search or is one of it.
fn do_search(
    alloc: Global,
    command: Command,
    key: &KeyPress,
    state: &mut EditState,
) -> Result<Done, NoMemory>
    requires group { group_of command ≡ Searching }
    requires origin { HasOrigin state.old }
    requires fits { fits command state.old ≡ true }
    ensures state { OnOk result (state.new ≡ row command key.now state.old) }
    ensures err { OnErr result (state.new ≡ state.old) }
    ensures origin { OnOk result (HasOrigin state.new) }
    ensures done { IfOk result (λ done. AnswersAs (named command state.old)
        (Rings command key.now state.old) done state.old state.new) }
{
    match command {
        Command::SearchBackward => Ok(state.start_search(alloc, false)),
        Command::SearchForward => Ok(state.start_search(alloc, true)),
        Command::ExtendNeedle => searching::extend_needle(state, key),
        Command::ShortenNeedle => searching::shorten_needle(state),
        Command::SearchAgainBackward => searching::search_again(state, false),
        Command::SearchAgainForward => searching::search_again(state, true),
        Command::AcceptSearch => Ok(state.accept_search()),
        Command::AbortSearch => state.abort_search(),
        _ => Ok(Done::Same),
    }
}

/// Does the row of a command that builds the argument, or only answers.
fn do_answer(
    alloc: Global,
    command: Command,
    key: &KeyPress,
    state: &mut EditState,
) -> Result<Done, NoMemory>
    requires { group_of command ≡ Answering }
    ensures state { OnOk result (state.new ≡ row command key.now state.old) }
    ensures err { OnErr result (state.new ≡ state.old) }
    ensures done { IfOk result (λ done. AnswersAs (named command state.old)
        (Rings command key.now state.old) done state.old state.new) }
    ensures aside { touches_search command ≡ false }
{
    match command {
        Command::Ignore => Ok(Done::Same),
        Command::EndOfFile => Ok(Done::EndOfFile),
        Command::AcceptLine => Ok(Done::Accept),
        Command::Interrupt => Ok(Done::Interrupt),
        Command::DigitArgument => counting::digit_argument(state, alloc, key),
        Command::NegativeArgument => Ok(counting::negative_argument(state, alloc)),
        _ => Ok(Done::Same),
    }
}
