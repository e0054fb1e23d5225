//! Runs over an outside in memory, with faults where none is expected to do harm.

use super::*;
use crate::readers::ReadFault;
use cell_grid::Size;
use diff_render::Shown;
use session_core::{Config, Event, Session};
use std::alloc::Global;
use std::test::Fail;
use term_model::Terminal;
use text_doc::{Bytes, Lines};

/// The status of a replay over memory, with or without frames, of which the reads and puts with these numbers fail, and what it
/// put.
fn replayed(
    alloc: Global,
    words: &[&str],
    script: &str,
    reads: &[u64],
    puts: &[u64],
) -> Result<(Status, Vec<u8>), Fail> {
    let mut owned = Vec::new(alloc);
    for word in words {
        owned.push(String::from_str(alloc, word)?)?;
    }
    let reads = FailingCalls::new(Vec::from_slice(alloc, reads)?);
    let puts = FailingCalls::new(Vec::from_slice(alloc, puts)?);
    let mut source = MemorySource::new(Vec::from_slice(alloc, script.as_bytes())?, reads);
    let mut out = MemorySink::new(alloc, puts);
    let status = replay_words(alloc, owned.as_slice(), &mut source, &mut out);
    Ok((status, Vec::from_slice(alloc, out.bytes())?))
}

#[test]
fn prints_what_a_script_gives(rt: HostRuntime) -> Result<(), Fail> {
    let hello = "screen 24 80 1 0\n|> hello\n|\nanswer hello\nstatus 0\n";
    let cases = [
        ("piece hello\\x0d\n", hello, ACCEPTED),
        ("piece hel\npiece lo\\x0d", hello, ACCEPTED),
        ("piece helm\\x7flo\\x0d", hello, ACCEPTED),
        ("", "screen 24 80 1 0\n|>\n|\nstatus 1\n", END_OF_FILE),
        (
            "piece \\x0d\n",
            "screen 24 80 1 0\n|>\n|\nanswer \nstatus 0\n",
            ACCEPTED,
        ),
        ("piece a\nfly 3\n", "refused 2\nstatus 9\n", REFUSED_LINE),
        ("piece \\x41\n", "refused 1\nstatus 9\n", REFUSED_LINE),
        ("tick 01\n", "refused 1\nstatus 9\n", REFUSED_LINE),
        ("set size 0x5\n", "refused 1\nstatus 9\n", REFUSED_LINE),
        (
            "set size 3x6\nset size 3x6\n",
            "refused 2\nstatus 9\n",
            REFUSED_LINE,
        ),
        ("set colour red\n", "refused 1\nstatus 9\n", REFUSED_LINE),
        (
            "show\nset message a\n",
            "screen 24 80 0 2\n|>\nrefused 2\nstatus 9\n",
            REFUSED_LINE,
        ),
        (
            "piece C:\\\\\\x0d\n",
            "screen 24 80 1 0\n|> C:\\\n|\nanswer C:\\\\\nstatus 0\n",
            ACCEPTED,
        ),
    ];
    for (script, printed, status) in cases {
        let (found, out) = replayed(rt.alloc(), &[], script, &[], &[])?;
        assert_eq!(rt; out.as_slice(), printed.as_bytes(), "of {script:?}");
        assert_eq!(rt; found, status, "of {script:?}");
    }
    Ok(())
}

/// Keys in several pieces, an argument, a paste, and the keys that end a prompt.
#[test]
fn runs_keys(rt: HostRuntime) -> Result<(), Fail> {
    let cases = [
        (
            "set entry old\npiece \\x1b\npiece [\npiece A\nshow\npiece \\x1b[B\n",
            "screen 24 80 0 5\n|> old\nscreen 24 80 1 0\n|>\n|\nstatus 1\n",
            END_OF_FILE,
        ),
        (
            "piece \\x1b\ntick 500\npiece 9x\nshow\n",
            "screen 24 80 0 11\n|> xxxxxxxxx\nscreen 24 80 1 0\n|> xxxxxxxxx\n|\nstatus 1\n",
            END_OF_FILE,
        ),
        (
            "piece \\x1b\ntick 500\ntick 1500\npiece 9x\nshow\n",
            "screen 24 80 0 4\n|> 9x\nscreen 24 80 1 0\n|> 9x\n|\nstatus 1\n",
            END_OF_FILE,
        ),
        (
            "piece \\x1b[200~zz\ntick 5000\nshow\n",
            "screen 24 80 0 2\n|>\nscreen 24 80 1 0\n|>\n|\nstatus 1\n",
            END_OF_FILE,
        ),
        (
            "piece ab\\x01\\x04\\x0d\n",
            "screen 24 80 1 0\n|> b\n|\nanswer b\nstatus 0\n",
            ACCEPTED,
        ),
        (
            "piece ab\\x03\n",
            "screen 24 80 1 0\n|> ab\n|\nstatus 130\n",
            INTERRUPTED,
        ),
        (
            "piece \\x04\n",
            "screen 24 80 1 0\n|>\n|\nstatus 1\n",
            END_OF_FILE,
        ),
    ];
    for (script, printed, status) in cases {
        let (found, out) = replayed(rt.alloc(), &[], script, &[], &[])?;
        assert_eq!(rt; out.as_slice(), printed.as_bytes(), "of {script:?}");
        assert_eq!(rt; found, status, "of {script:?}");
    }
    Ok(())
}

/// Several prompts, of which each begins behind the line that the one before accepted.
#[test]
fn runs_several_prompts(rt: HostRuntime) -> Result<(), Fail> {
    let two = "screen 24 80 2 0\n|> a\n|> b\n|\nanswer a\nanswer b\nstatus 0\n";
    let cases = [
        ("set repeat 2\npiece a\\x0db\\x0d\n", two, ACCEPTED),
        (
            "set repeat 2\npiece a\\x0d\npiece b\\x0dc\nresize 1 1",
            two,
            ACCEPTED,
        ),
        (
            "set repeat 3\nset entry x\nset entry x\npiece a\\x0db\nshow\npiece \\x0d\n",
            "screen 24 80 1 3\n|> a\n|> b\nscreen 24 80 3 0\n|> a\n|> b\n|>\n|\nanswer a\nanswer b\nstatus 1\n",
            END_OF_FILE,
        ),
        // the second prompt begins on the last row, which scrolls
        (
            "set size 2x5\nset repeat 2\npiece a\\x0dbcdef\n",
            "screen 2 5 1 0\n|ef\n|\nanswer a\nstatus 1\n",
            END_OF_FILE,
        ),
        ("set repeat 0\n", "refused 1\nstatus 9\n", REFUSED_LINE),
        ("set repeat 101\n", "refused 1\nstatus 9\n", REFUSED_LINE),
        (
            "set repeat 2\nset repeat 2\n",
            "refused 2\nstatus 9\n",
            REFUSED_LINE,
        ),
        ("set entry \n", "refused 1\nstatus 9\n", REFUSED_LINE),
    ];
    for (script, printed, status) in cases {
        let (found, out) = replayed(rt.alloc(), &[], script, &[], &[])?;
        assert_eq!(rt; out.as_slice(), printed.as_bytes(), "of {script:?}");
        assert_eq!(rt; found, status, "of {script:?}");
    }
    Ok(())
}

/// Rows that wrap, a window that scrolls, and a terminal that changes its size.
#[test]
fn wraps_scrolls_and_resizes(rt: HostRuntime) -> Result<(), Fail> {
    let cases = [
        // a full row is followed by the row of the cursor
        (
            "set size 3x4\nset message \npiece abcd\nshow\npiece e\nshow\n",
            "screen 3 4 1 0\n|abcd\n|\nscreen 3 4 1 1\n|abcd\n|e\nscreen 3 4 2 0\n|abcd\n|e\n|\nstatus 1\n",
        ),
        (
            "set size 3x6\npiece abcdefgh\nshow\nresize 3 12\nshow\nresize 1 6\nshow\n",
            "screen 3 6 1 4\n|> abcd\n|efgh\nscreen 3 12 0 10\n|> abcdefgh\nscreen 1 6 0 4\n|efgh\nscreen 1 6 0 0\n|\nstatus 1\n",
        ),
        // the window follows the cursor down, and back up as the text becomes shorter
        (
            "set size 2x4\npiece abcdefgh\nshow\npiece \\x7f\\x7f\\x7f\nshow\nend\nresize 3 3\n",
            "screen 2 4 1 2\n|cdef\n|gh\nscreen 2 4 1 3\n|> ab\n|cde\nscreen 2 4 1 0\n|cde\n|\nstatus 1\n",
        ),
    ];
    for (script, printed) in cases {
        let (found, out) = replayed(rt.alloc(), &[], script, &[], &[])?;
        assert_eq!(rt; out.as_slice(), printed.as_bytes(), "of {script:?}");
        assert_eq!(rt; found, END_OF_FILE, "of {script:?}");
    }
    Ok(())
}

/// A full text takes no further letter, and is accepted as it is.
#[test]
fn stays_at_a_full_text(rt: HostRuntime) -> Result<(), Fail> {
    let mut script = String::from_str(rt.alloc(), "set size 2x1000\npiece \\x1b[200~")?;
    let mut end = String::from_str(rt.alloc(), "\nanswer ")?;
    for _ in 0..32_768 {
        script.push('a')?;
        end.push('a')?;
    }
    script.push_str("\\x1b[201~bc\\x0d\n")?;
    end.push_str("\nstatus 0\n")?;
    let (found, out) = replayed(rt.alloc(), &[], script.as_str(), &[], &[])?;
    assert_eq!(rt; found, ACCEPTED);
    assert!(rt; out.as_slice().ends_with(end.as_bytes()));
    Ok(())
}

/// A terminal that obeys all frames shows the end of the run, and the frames stand alone.
#[test]
fn puts_frames_in_place_of_reports(rt: HostRuntime) -> Result<(), Fail> {
    let script = "piece hello\nshow\n";
    let (status, out) = replayed(rt.alloc(), &["--frames"], script, &[], &[])?;
    assert_eq!(rt; status, END_OF_FILE);
    let size = Size::new(24, 80).ok_or("a size")?;
    let mut terminal = Terminal::start(rt.alloc(), size)?;
    terminal.obey(out.as_slice())?;
    assert_eq!(rt; terminal.cursor(), (1, 0));
    assert!(rt; terminal.wraps());
    let (status, out) = replayed(rt.alloc(), &["--frames", "--frames"], script, &[], &[])?;
    assert_eq!(rt; status, UNKNOWN_WORDS);
    assert_eq!(rt; out.len(), 0);
    Ok(())
}

#[test]
fn tells_faults_apart(rt: HostRuntime) -> Result<(), Fail> {
    for number in [0, 1] {
        let (status, out) = replayed(rt.alloc(), &[], "piece a\\x0d\n", &[number], &[])?;
        assert_eq!(rt; status, SOURCE_FAULT, "at read {number}");
        assert_eq!(rt; out.len(), 0);
    }
    let (status, out) = replayed(rt.alloc(), &[], "piece a\\x0d\n", &[], &[0])?;
    assert_eq!(rt; status, SINK_FAULT);
    assert_eq!(rt; out.len(), 0);
    Ok(())
}

#[test]
fn ends_at_a_refused_frame(rt: HostRuntime) -> Result<(), Fail> {
    let alloc = rt.alloc();
    let size = Size::new(24, 80).ok_or("a size")?;
    let config = Config::new(alloc)?;
    let mut session = Session::new(alloc, config, Lines::new(alloc), size, 0)?;
    let mut shown = Shown::nothing();
    let second = Vec::from_slice(alloc, &[1])?;
    let mut screen = MemoryScreen::new(alloc, FailingCalls::new(second));
    let Ok(started) = turn(alloc, &mut session, &mut shown, Event::Start, &mut screen) else {
        panic!(rt; "no first turn");
    };
    assert_eq!(rt; started, Turned::Going);
    let piece = Event::Piece(Bytes::from_slice(alloc, b"a")?);
    let Err(TurnFault::ScreenFault) = turn(alloc, &mut session, &mut shown, piece, &mut screen)
    else {
        panic!(rt; "the frame was taken");
    };
    let ended = turn(alloc, &mut session, &mut shown, Event::End, &mut screen);
    assert_eq!(rt; ended.err(), Some(TurnFault::Ended));
    assert_eq!(rt; screen.len(), 1);
    Ok(())
}

#[test]
fn tells_faults_of_turns(rt: HostRuntime) -> Result<(), Fail> {
    let sentences = [
        (TurnFault::Ended, "the session has ended"),
        (TurnFault::ScreenFault, "the screen refused a frame"),
        (TurnFault::NoMemory, "out of memory"),
    ];
    for (fault, sentence) in sentences {
        let told = format!(in rt.alloc(); "{fault}")?;
        assert_eq!(rt; told.as_str(), sentence);
    }
    Ok(())
}

#[test]
fn tells_faults_of_reads(rt: HostRuntime) -> Result<(), Fail> {
    let sentences = [
        (ReadFault::Failed, "a read failed"),
        (ReadFault::NoMemory, "no memory for what was read"),
    ];
    for (fault, sentence) in sentences {
        let told = format!(in rt.alloc(); "{fault}")?;
        assert_eq!(rt; told.as_str(), sentence);
    }
    Ok(())
}
