//! Commands of an incremental search.
ghost use Rattle.std.specs.Prelude.{◌≡◌, ◌≢◌, [], None, Some, IfOk, OnOk, OnErr};
ghost use Rattle.std.specs.Option.{ForSome};
ghost use Rattle.edit_state.specs.Answers.{Answers};
ghost use Rattle.edit_state.specs.Searches.{HasOrigin, IsSpot, gone_to_spot};
ghost use Rattle.edit_cmds.specs.Searching.{with_char, extended_from, IsLostWith, extend_needle, IsExtensionLost, without_last, shorten_needle, IsLostWithout, next_target, search_again, HasNoNext};

use edit_buffer::Buffer;
use edit_state::{Done, EditState, NoMemory, Search, Spot, go_to_spot, match_ahead, match_back};
use key_names::{Key, KeyPress};

/// Adds a typed character to what is searched for, and looks from where the search started.
pub fn extend_needle(state: &mut EditState, key: &KeyPress) -> Result<Done, NoMemory>
    requires { HasOrigin state.old }
    ensures state { OnOk result (state.new ≡ extend_needle key.now.key state.old) }
    ensures origin { OnOk result (HasOrigin state.new) }
    ensures err { OnErr result (state.new ≡ state.old) }
    ensures done { IfOk result (λ done.
        Answers (IsExtensionLost key.now.key state.old)
        done state.old state.new) }
{
    match key.key {
        Key::Char(c) => add_char(state, c),
        _ => Ok(Done::Same),
    }
}

fn add_char(state: &mut EditState, c: char) -> Result<Done, NoMemory>
    requires { HasOrigin state.old }
    ensures state { OnOk result (state.new ≡ extended_from state.old.search c state.old) }
    ensures origin { OnOk result (HasOrigin state.new) }
    ensures err { OnErr result (state.new ≡ state.old) }
    ensures done { IfOk result (λ done.
        Answers (IsLostWith state.old.search c state.old)
        done state.old state.new) }
{
    let search = match &state.search {
        None => return Ok(Done::Same),
        Some(search) => with_char(search, c)?,
    };
    state.look(search)
}

fn with_char(search: &Search, c: char) -> Result<Search, NoMemory>
    ensures search { IfOk result (λ longer. longer ≡ with_char search.now c) }
    ensures other { IfOk result (λ longer. longer ≢ search.now) }
{
    let mut needle = search.needle.copy()?;
    needle.push(c)?;
    Ok(Search {
        needle,
        forward: search.forward,
        line: search.line,
        at: search.at,
    })
}

/// Takes the last character from what is searched for, and looks from where the search started.
pub fn shorten_needle(state: &mut EditState) -> Result<Done, NoMemory>
    requires { HasOrigin state.old }
    ensures state { OnOk result (state.new ≡ shorten_needle state.old) }
    ensures origin { OnOk result (HasOrigin state.new) }
    ensures err { OnErr result (state.new ≡ state.old) }
    ensures done { IfOk result (λ done.
        Answers (IsLostWithout state.old.search state.old)
        done state.old state.new) }
{
    let search = match &state.search {
        None => return Ok(Done::Same),
        Some(search) => {
            if search.needle.is_empty() {
                return Ok(Done::Same);
            }
            without_last(search)?
        }
    };
    state.look(search)
}

fn without_last(search: &Search) -> Result<Search, NoMemory>
    requires { search.now.needle ≢ [] }
    ensures search { IfOk result (λ shorter. shorter ≡ without_last search.now) }
    ensures other { IfOk result (λ shorter. shorter ≢ search.now) }
{
    let mut needle = search.needle.copy()?;
    needle.truncate(search.needle.len() - 1);
    Ok(Search {
        needle,
        forward: search.forward,
        line: search.line,
        at: search.at,
    })
}

/// Searches in this direction from now on, and goes to the next match. It rings where there is none.
pub fn search_again(state: &mut EditState, forward: bool) -> Result<Done, NoMemory>
    requires { HasOrigin state.old }
    ensures state { OnOk result (state.new ≡ search_again forward state.old) }
    ensures origin { OnOk result (HasOrigin state.new) }
    ensures err { OnErr result (state.new ≡ state.old) }
    ensures done { IfOk result (λ done.
        Answers (HasNoNext state.old.search forward state.old)
        done state.old state.new) }
{
    let search = match &mut state.search {
        None => return Ok(Done::Same),
        Some(search) => search,
    };
    let target = next_target(search, &state.buffer, forward);
    go_to_spot(&mut state.buffer, target)?;
    search.forward = forward;
    match target {
        Some(_) => Ok(Done::Changed),
        None => Ok(Done::Bell),
    }
}

/// Returns the least match above the present place, or the greatest below it.
fn next_target(search: &Search, buffer: &Buffer, forward: bool) -> Option<Spot>
    ensures target { result ≡ next_target forward search.now buffer.now }
    ensures within { ForSome result (IsSpot buffer.now) }
    ensures elsewhere { ForSome result (λ spot. gone_to_spot buffer.now (Some spot) ≢ buffer.now) }
{
    let needle = search.needle.as_slice();
    let line = buffer.index();
    let at = buffer.doc().cursor();
    if needle.is_empty() {
        None
    } else if forward {
        match_ahead(buffer, needle, Spot { line, at: at + 1 })
    } else {
        match_back(buffer, needle, Spot { line, at })
    }
}
