//! Files worked out by hand, the limit, a keeper whose calls fail, and each call that allocates once with ample memory.
use crate::{Keeper, KeeperFault, MemoryKeeper, entry_text, read_entries};
use ports::FailingCalls;
use std::alloc::Global;
use std::test::Fail;
use text_doc::{Bytes, Lines, MAX_LENGTH, NoMemory, Text};

/// Writes the entries, each with a `|` behind it.
fn joined(alloc: Global, entries: &Lines) -> Result<Text, NoMemory> {
    let mut all = Text::new(alloc);
    for entry in entries.as_slice() {
        all.extend_from_slice(entry.as_slice())?;
        all.push('|')?;
    }
    Ok(all)
}

#[test]
fn files(rt: HostRuntime) -> Result<(), Fail> {
    let rows = [
        (b"".as_slice(), ""),
        (b"\n# 7\n+a\n+b\n".as_slice(), "a\nb|"),
        (
            b"\n# 1\n+one\n\n# 2\n+two\n+rows\n".as_slice(),
            "one|two\nrows|",
        ),
        // what stands between entries
        (b"+a\n# note\n+b\n\n+c\n +d\n".as_slice(), "a|b|c|"),
        (b"++a\n+\n+\n".as_slice(), "+a\n\n|"),
        (b"#+a\n\xff+b\n".as_slice(), ""),
        // cut off in an entry
        (b"\n# 7\n+a\n+b".as_slice(), "a\nb|"),
        (b"\n# 7\n+".as_slice(), "|"),
        (b"\n# 7\n+\xc3".as_slice(), "\u{fffd}|"),
        (b"+cut\n# 7\n+a\n".as_slice(), "cut|a|"),
        // a carriage return is a character
        (b"# x\r\n+a\r\n+b\r\n".as_slice(), "a\r\nb\r|"),
        // one U+FFFD for each maximal part that is no character
        (b"+a\xffb\n+\xe2\x82\n".as_slice(), "a\u{fffd}b\n\u{fffd}|"),
        (
            b"+\xe2\x82A\xf0\x80\xc3\xa9\n".as_slice(),
            "\u{fffd}A\u{fffd}\u{fffd}é|",
        ),
    ];
    for (file, wanted) in rows {
        let entries = read_entries(rt.alloc(), file)?;
        let found = joined(rt.alloc(), &entries)?;
        let wanted = Text::read_str(rt.alloc(), wanted)?;
        assert!(rt; found.equals(wanted.as_slice()), "the entries of {file:?}");
    }
    Ok(())
}

#[test]
fn history_entry(rt: HostRuntime) -> Result<(), Fail> {
    let rows = [
        ("a\nb", 7, b"\n# 7\n+a\n+b\n".as_slice()),
        ("", 0, b"\n# 0\n+\n".as_slice()),
        (
            "\n+é",
            u64::MAX,
            b"\n# 18446744073709551615\n+\n++\xc3\xa9\n".as_slice(),
        ),
    ];
    for (words, moment, wanted) in rows {
        let entry = Text::read_str(rt.alloc(), words)?;
        let bytes = entry_text(rt.alloc(), &entry, moment)?;
        assert_eq!(rt; bytes.as_slice(), wanted, "the bytes of {words:?}");
        let entries = read_entries(rt.alloc(), bytes.as_slice())?;
        assert_eq!(rt; entries.len(), 1, "the entries of {words:?}");
        let first = entries.get(0).ok_or("an entry")?;
        assert!(rt; first.equals(entry.as_slice()), "{words:?} is read back");
    }
    Ok(())
}

#[test]
fn longest_entry(rt: HostRuntime) -> Result<(), Fail> {
    // characters of the entry in the middle; the entries of the file
    for (length, count) in [(MAX_LENGTH, 3), (MAX_LENGTH + 1, 2), (MAX_LENGTH + 9, 2)] {
        let mut file = Bytes::from_slice(rt.alloc(), b"+first\n#\n")?;
        let mut long = Text::read_str(rt.alloc(), "x\n")?;
        for _ in 2..length {
            long.push('é')?;
        }
        assert_eq!(rt; long.len(), length);
        let bytes = entry_text(rt.alloc(), &long, 1)?;
        file.extend_from_slice(bytes.as_slice())?;
        file.extend_from_slice(b"\n+last")?;
        let entries = read_entries(rt.alloc(), file.as_slice())?;
        assert_eq!(rt; entries.len(), count, "beside {length} characters");
    }
    Ok(())
}

#[test]
fn keeper(rt: HostRuntime) -> Result<(), Fail> {
    let bytes = Bytes::from_slice(rt.alloc(), b"+a")?;
    let failing = FailingCalls::new(vec![in rt.alloc(); 1, 3]?);
    let mut keeper = MemoryKeeper::new(bytes, failing);
    assert_eq!(rt; keeper.append(b"\n"), Ok(()));
    assert_eq!(rt; keeper.append(b"+b"), Err(KeeperFault::Failed));
    assert_eq!(rt; keeper.bytes(), b"+a\n".as_slice());
    assert_eq!(rt; keeper.faults(), 1);
    let loaded = keeper.load(rt.alloc())?;
    assert_eq!(rt; loaded.as_slice(), b"+a\n".as_slice());
    assert!(rt; matches!(keeper.load(rt.alloc()), Err(KeeperFault::Failed)));
    assert_eq!(rt; keeper.faults(), 2);
    Ok(())
}

#[test]
fn tells_faults(rt: HostRuntime) -> Result<(), Fail> {
    let sentences = [
        (KeeperFault::Failed, "what keeps the history failed"),
        (KeeperFault::NoMemory, "no memory for the history"),
    ];
    for (fault, sentence) in sentences {
        let told = format!(in rt.alloc(); "{fault}")?;
        assert_eq!(rt; told.as_str(), sentence);
    }
    Ok(())
}
