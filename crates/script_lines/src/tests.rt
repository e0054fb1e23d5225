//! Lines of each form, lines outside the grammar, and spellings.
use crate::{ScriptLine, cut_line, read_line, read_spelling, write_spelling};
use std::alloc::Global;
use std::process::Abort;
use std::test::Fail;
use text_doc::{Bytes, NoMemory};

/// Returns what a line says, as its kind and its parts.
fn told(alloc: Global, said: ScriptLine) -> Result<String, NoMemory> {
    match said {
        ScriptLine::Set { name, value } => {
            let chars = value.as_slice();
            format!(in alloc; "set {} {chars:?}", name.as_str())
        }
        ScriptLine::Piece(bytes) => {
            let bytes = bytes.as_slice();
            format!(in alloc; "piece {bytes:?}")
        }
        ScriptLine::Resize(size) => format!(in alloc; "resize {} {}", size.rows(), size.cols()),
        ScriptLine::Tick(moment) => format!(in alloc; "tick {moment}"),
        ScriptLine::Show => String::from_str(alloc, "show"),
        ScriptLine::End => String::from_str(alloc, "end"),
    }
}

/// Expects that each of the lines says what stands beside it, or nothing where that is `none`.
fn expect_lines(rt: &impl Abort, alloc: Global, cases: &[(&[u8], &str)]) -> Result<(), Fail> {
    for (line, expected) in cases {
        match read_line(alloc, line)? {
            Some(said) => {
                let told = told(alloc, said)?;
                assert_eq!(rt; told.as_str(), *expected, "{line:?}");
            }
            None => assert_eq!(rt; "none", *expected, "{line:?}"),
        }
    }
    Ok(())
}

#[test]
fn reads_settings(rt: HostRuntime) -> Result<(), Fail> {
    expect_lines(
        &rt,
        rt.alloc(),
        &[
            (b"set", "none"),
            (b"set ", "none"),
            (b"set message", "none"),
            (b"set message ", "set message []"),
            (b"set message > ", "set message ['>', ' ']"),
            (b"set message  a", "set message [' ', 'a']"),
            (
                b"set  message a",
                "set  ['m', 'e', 's', 's', 'a', 'g', 'e', ' ', 'a']",
            ),
            (b"set message \\\\", "set message ['\\\\']"),
            (b"set message \\xc3\\xa4", "set message ['\u{e4}']"),
            (b"set message \xc3\xa4", "none"),
            (b"set message \\xff", "none"),
            (b"set message \\xc3", "none"),
            (b"set message \\x0d", "set message ['\\r']"),
            (b"set \xc3\xa4 1", "set \u{e4} ['1']"),
            (b"set \xff 1", "none"),
            (b"set message\\x20 1", "set message\\x20 ['1']"),
            (b"set size 0x0", "set size ['0', 'x', '0']"),
        ],
    )
}

#[test]
fn reads_pieces(rt: HostRuntime) -> Result<(), Fail> {
    expect_lines(
        &rt,
        rt.alloc(),
        &[
            (b"piece a", "piece [97]"),
            (b"piece  ", "piece [32]"),
            (b"piece ", "none"),
            (b"piece", "none"),
            (
                b"piece a b\\\\\\x0d\\xff\\x00\\x7f",
                "piece [97, 32, 98, 92, 13, 255, 0, 127]",
            ),
            (b"piece \\x41", "none"),
            (b"piece \\x5c", "none"),
            (b"piece \\X0d", "none"),
            (b"piece \\x0D", "none"),
            (b"piece \\x0", "none"),
            (b"piece \\x", "none"),
            (b"piece \\", "none"),
            (b"piece \\n", "none"),
            (b"piece \r", "none"),
            (b"piece \x7f", "none"),
        ],
    )
}

#[test]
fn reads_sizes(rt: HostRuntime) -> Result<(), Fail> {
    expect_lines(
        &rt,
        rt.alloc(),
        &[
            (b"resize 24 80", "resize 24 80"),
            (b"resize 500 1000", "resize 500 1000"),
            (b"resize 1 1", "resize 1 1"),
            (b"resize 0 5", "none"),
            (b"resize 501 1", "none"),
            (b"resize 1 1001", "none"),
            (b"resize 024 80", "none"),
            (b"resize 24  80", "none"),
            (b"resize 24x80", "none"),
            (b"resize 24 80 ", "none"),
        ],
    )
}

#[test]
fn reads_words(rt: HostRuntime) -> Result<(), Fail> {
    expect_lines(
        &rt,
        rt.alloc(),
        &[
            (b"show", "show"),
            (b"show ", "none"),
            (b" show", "none"),
            (b"Show", "none"),
            (b"shows", "none"),
            (b"end", "end"),
            (b"end ", "none"),
            (b"end\r", "none"),
            (b"", "none"),
        ],
    )
}

#[test]
fn keeps_limits(rt: HostRuntime) -> Result<(), Fail> {
    // So many letters, and a line of them.
    let cases = [(65_536, true), (65_537, false)];
    for (count, is_read) in &cases {
        let mut line = Bytes::from_slice(rt.alloc(), b"piece ")?;
        for _ in 0..*count {
            line.push(b'a')?;
        }
        let said = read_line(rt.alloc(), line.as_slice())?;
        assert_eq!(rt; said.is_some(), *is_read, "a piece of {count}");
    }
    // Behind `set message ` so many letters have room.
    let cases = [(299_988, true), (299_989, false)];
    for (count, is_read) in &cases {
        let mut line = Bytes::from_slice(rt.alloc(), b"set message ")?;
        for _ in 0..*count {
            line.push(b'a')?;
        }
        let said = read_line(rt.alloc(), line.as_slice())?;
        assert_eq!(rt; said.is_some(), *is_read, "a value of {count}");
    }
    Ok(())
}

#[test]
fn spells_each_byte_in_one_way(rt: HostRuntime) -> Result<(), Fail> {
    for byte in 0..=255u8 {
        let mut spelled = Vec::new(rt.alloc());
        write_spelling(&mut spelled, &[byte])?;
        let length = match byte {
            b'\\' => 2,
            b' '..=b'~' => 1,
            _ => 4,
        };
        assert_eq!(rt; spelled.len(), length, "{byte}");
        let bytes = read_spelling(rt.alloc(), &spelled)?.expect(&rt, "a spelling");
        assert_eq!(rt; bytes.as_slice(), [byte].as_slice());
    }
    Ok(())
}

#[test]
fn cuts_lines(rt: HostRuntime) {
    let cases: [(&[u8], &[u8], &[u8]); 4] = [
        (b"show\nend\n", b"show", b"end\n"),
        (b"show\n", b"show", b""),
        (b"show", b"show", b""),
        (b"\n\n", b"", b"\n"),
    ];
    for (text, line, behind) in &cases {
        assert!(rt; !text.is_empty());
        let cut = cut_line(text);
        assert_eq!(rt; cut.0, *line);
        assert_eq!(rt; cut.1, *behind);
    }
}
