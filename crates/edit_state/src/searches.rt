//! Incremental searches: their start, their end, and their look from the origin.
ghost use Rattle.std.specs.Prelude.{◌≡◌, ◌≢◌, ◌≤◌, ◌<◌, None, Some, IsNone, IfOk, OnOk, OnErr, length};
ghost use Rattle.std.specs.Option.{ForSome};
ghost use Rattle.edit_buffer.specs.BufferState.{line_of};
ghost use Rattle.edit_state.specs.Answers.{Answers};
ghost use Rattle.edit_state.specs.Searches.{IsSpot, HasOrigin, origin, look_target, gone_to_spot, search_started, looked, aborted};

use crate::edits::done_of;
use crate::spots::{line_len, match_ahead, match_back};
use crate::{Done, EditState, NoMemory, Search, Spot};
use edit_buffer::Buffer;
use std::alloc::Global;
use text_doc::Text;

impl EditState {
    /// Starts a search at the cursor.
    pub fn start_search(&mut self, alloc: Global, forward: bool) -> Done
        requires { IsNone self.old.search }
        ensures state { self.new ≡ search_started self.old forward }
        ensures origin { HasOrigin self.new }
        ensures done { Answers ⊥ result self.old self.new }
    {
        self.search = Some(Search {
            needle: Text::new(alloc),
            forward,
            line: self.buffer.index(),
            at: self.buffer.doc().cursor(),
        });
        Done::Changed
    }

    /// Ends the search where it stands.
    #[tactic(auto, using(crate::proofs::Telling::told))]
    pub fn accept_search(&mut self) -> Done
        ensures state { self.new ≡ record self.old { search = None } }
        ensures done { Answers ⊥ result self.old self.new }
    {
        let searched = self.search.is_some();
        self.search = None;
        done_of(searched)
    }

    /// Ends the search at its origin.
    pub fn abort_search(&mut self) -> Result<Done, NoMemory>
        requires { HasOrigin self.old }
        ensures state { OnOk result (self.new ≡ aborted self.old) }
        ensures err { OnErr result (self.new ≡ self.old) }
        ensures done { IfOk result (λ done. Answers ⊥ done self.old self.new) }
    {
        match &self.search {
            None => Ok(Done::Same),
            Some(search) => {
                self.buffer.goto(search.line, search.at)?;
                self.search = None;
                Ok(Done::Changed)
            }
        }
    }

    /// Takes another search in the place of the present one and looks from its origin. It rings where there is no match.
    pub fn look(&mut self, search: Search) -> Result<Done, NoMemory>
        requires origin { IsSpot self.old.buffer (origin search) }
        requires other { self.old.search ≢ Some search }
        ensures state { OnOk result (self.new ≡ looked self.old search) }
        ensures origin { OnOk result (HasOrigin self.new) }
        ensures err { OnErr result (self.new ≡ self.old) }
        ensures done { IfOk result (λ done. Answers
            (look_target search self.old.buffer ≡ None) done self.old self.new) }
    {
        let target = look_target(&search, &self.buffer);
        go_to_spot(&mut self.buffer, target)?;
        self.search = Some(search);
        match target {
            Some(_) => Ok(Done::Changed),
            None => Ok(Done::Bell),
        }
    }
}

/// Returns where a look goes.
fn look_target(search: &Search, buffer: &Buffer) -> Option<Spot>
    requires { IsSpot buffer.now (origin search.now) }
    ensures target { result ≡ look_target search.now buffer.now }
    ensures within { ForSome result (IsSpot buffer.now) }
{
    let needle = search.needle.as_slice();
    let line = search.line;
    let at = search.at;
    let _len = line_len(buffer, line);
    if search.needle.is_empty() {
        Some(Spot { line, at })
    } else if search.forward {
        match_ahead(buffer, needle, Spot { line, at })
    } else {
        match_back(buffer, needle, Spot { line, at: at + 1 })
    }
}

/// Goes to a place of a working line, if there is one.
pub fn go_to_spot(buffer: &mut Buffer, spot: Option<Spot>) -> Result<(), NoMemory>
    requires { ForSome spot (IsSpot buffer.old) }
    ensures ok { OnOk result (buffer.new ≡ gone_to_spot buffer.old spot) }
    ensures err { OnErr result (buffer.new ≡ buffer.old) }
{
    match spot {
        Some(spot) => buffer.goto(spot.line, spot.at),
        None => Ok(()),
    }
}
