//! Replaying a script from a source.
ghost use Rattle.std.specs.Prelude.{◌≡◌, ◌≤◌, ◌↔◌, None, map, string_bytes};
ghost use Rattle.causes.specs.Faults.{Rose};
ghost use Rattle.prompt_run.specs.Replay.{Replays, asks_frames};

use crate::readers::{ReadFault, read_script};
use crate::scripts::play;
use crate::statuses::{NO_MEMORY, SINK_FAULT, SOURCE_FAULT, Status, UNKNOWN_WORDS};
use ports::{Sink, Source};
use std::alloc::Global;

/// Reads a script from the source, plays it over a model of a terminal, and puts what it prints on the sink, all of it in one
/// call. The words are those behind the program's name: none, or `--frames`.
///
/// What a script prints, and its status, are a function of its bytes: the reports that it asks for, the report of the last screen
/// of its run, the accepted lines and the status, or the number of the first line that is outside the grammar. With `--frames` the
/// bytes of the frames stand in place of all that, one frame for each event. It always returns: it takes all bytes of the source,
/// or those up to the first behind the most bytes of a script.
pub fn replay_words<R: Source, O: Sink>(
    alloc: Global,
    words: &[String],
    source: &mut R,
    out: &mut O,
) -> Status
    ensures words { (result ≡ UNKNOWN_WORDS) ↔ (asks_frames (map string_bytes words.now) ≡ None) }
    ensures output { Replays (asks_frames (map string_bytes words.now)) (R.supply source.old).left
        (R.supply source.new).left
        (O.taken out.old) (O.taken out.new) result }

    // Nothing is put where nothing was played to its end.
    ensures unread { result ≡ UNKNOWN_WORDS → source.new ≡ source.old }
    ensures unknown { result ≡ UNKNOWN_WORDS → out.new ≡ out.old }
    ensures unplayed { result ≡ SOURCE_FAULT → out.new ≡ out.old }
    ensures no_memory { result ≡ NO_MEMORY → out.new ≡ out.old }

    // A fault comes only where the object that had it counted it.
    ensures source_fault { result ≡ SOURCE_FAULT
        → Rose (R.supply source.old).faults (R.supply source.new).faults }
    ensures sink_fault { result ≡ SINK_FAULT → Rose (O.faults out.old) (O.faults out.new) }
    ensures source_later { (R.supply source.old).faults ≤ (R.supply source.new).faults }
    ensures sink_later { O.faults out.old ≤ O.faults out.new }
{
    let Some(frames) = read_words(words) else {
        return UNKNOWN_WORDS;
    };
    let script = match read_script(alloc, source) {
        Ok(script) => script,
        Err(ReadFault::Failed) => return SOURCE_FAULT,
        Err(ReadFault::NoMemory) => return NO_MEMORY,
    };
    match play(alloc, script.as_slice(), frames) {
        Ok((printed, status)) => match out.put(printed.as_slice()) {
            Ok(()) => status,
            Err(_) => SINK_FAULT,
        },
        Err(_) => NO_MEMORY,
    }
}

/// Tells whether the words ask for frames, where they are words of the command.
fn read_words(words: &[String]) -> Option<bool>
    ensures { result ≡ asks_frames (map string_bytes words.now) }
{
    match words {
        [] => Some(false),
        [word] if word.as_str() == "--frames" => Some(true),
        _ => None,
    }
}
