//! The adapters over readers, writers and files in memory, each with a call that fails.

ghost use Rattle.std.specs.Prelude.{◌≤◌, IfOk};

use super::*;
use events::{Event, Inbox};
use line_history::{Keeper, KeeperFault};
use ports::{Screen, Sink, Source};
use std::io;
use std::io::{ErrorKind, IsTerminal, Read, Write};
use std::test::Fail;

/// A stream that a signal interrupts once, then gives or takes some bytes, and then fails.
#[derive(Drop)]
struct Broken {
    calls: u32,
}

impl Broken {
    /// Returns how many bytes the next call gives or takes.
    fn next(&mut self, length: usize) -> io::Result<usize>
        ensures { IfOk result (λ count. count ≤ length) }
    {
        self.calls = self.calls.saturating_add(1);
        match self.calls {
            1 => Err(io::Error::from(ErrorKind::Interrupted)),
            2 => Ok(length.min(2)),
            _ => Err(io::Error::from(ErrorKind::BrokenPipe)),
        }
    }
}

impl Read for Broken {
    fn read(&mut self, buf: &mut [u8]) -> io::Result<usize> {
        self.next(buf.len())
    }
}

impl Write for Broken {
    fn write(&mut self, buf: &[u8]) -> io::Result<usize> {
        self.next(buf.len())
    }

    fn flush(&mut self) -> io::Result<()> {
        Ok(())
    }
}

impl IsTerminal for Broken {
    fn is_terminal(&self) -> bool {
        true
    }
}

#[test]
fn reads_what_the_reader_gives(rt: HostRuntime) -> Result<(), Fail> {
    let mut source = InputSource::new(b"abc".as_slice());
    let mut buffer = [0u8; 2];
    assert_eq!(rt; source.read(&mut buffer)?, 2);
    assert_eq!(rt; buffer, [b'a', b'b']);
    assert_eq!(rt; source.read(&mut buffer)?, 1);
    assert_eq!(rt; buffer[0], b'c');
    assert_eq!(rt; source.read(&mut buffer)?, 0);
    let mut broken = InputSource::new(Broken { calls: 0 });
    assert_eq!(rt; broken.read(&mut buffer)?, 2);
    assert!(rt; broken.read(&mut buffer).is_err());
    Ok(())
}

#[test]
fn writes_what_is_put_and_shown(rt: HostRuntime) -> Result<(), Fail> {
    let mut bytes = Vec::new(rt.alloc());
    let mut sink = OutputSink::new(&mut bytes);
    sink.put(b"ab")?;
    sink.put(b"c")?;
    drop(sink);
    assert_eq!(rt; bytes.as_slice(), b"abc".as_slice());
    let mut screen = OutputScreen::new(&mut bytes);
    screen.frame(b"de")?;
    screen.frame(b"")?;
    drop(screen);
    assert_eq!(rt; bytes.as_slice(), b"abcde".as_slice());
    let mut broken = OutputScreen::new(Broken { calls: 0 });
    broken.frame(b"de")?;
    assert!(rt; broken.frame(b"f").is_err());
    let mut broken = OutputSink::new(Broken { calls: 1 });
    assert!(rt; broken.put(b"abc").is_err());
    Ok(())
}

#[test]
fn gives_what_was_read_as_a_piece(rt: HostRuntime) -> Result<(), Fail> {
    let mut inbox = PollInbox::over_terminal(rt, rt.alloc(), Broken { calls: 0 });
    match inbox.next()? {
        Event::Piece(bytes) => assert_eq!(rt; bytes.as_slice(), b"\0\0".as_slice()),
        _ => assert!(rt; false),
    }
    assert!(rt; inbox.next().is_err());
    Ok(())
}

#[test]
fn keeps_a_history_in_a_file(rt: HostRuntime) -> Result<(), Fail> {
    let path = "kept-history";
    let _ = std::fs::remove_file(&rt, path);
    let mut keeper = FileKeeper::new(rt, path);
    assert!(rt; keeper.load(rt.alloc())?.is_empty());
    keeper.append(b"\n# 1\n+a\n")?;
    keeper.append(b"\n# 2\n+b\n")?;
    assert_eq!(rt;
        keeper.load(rt.alloc())?.as_slice(),
        b"\n# 1\n+a\n\n# 2\n+b\n".as_slice()
    );
    std::fs::remove_file(&rt, path)?;
    let mut none = FileKeeper::new(rt, "no-such-folder/history");
    assert!(rt; none.load(rt.alloc())?.is_empty());
    assert!(rt; none.fault().is_none());
    assert!(rt; matches!(none.append(b"a"), Err(KeeperFault::Failed)));
    assert!(rt;
        none.fault()
            .is_some_and(|fault| fault.call() == FileCall::Append)
    );
    let mut folder = FileKeeper::new(rt, ".");
    assert!(rt; matches!(folder.load(rt.alloc()), Err(KeeperFault::Failed)));
    assert!(rt;
        folder
            .fault()
            .is_some_and(|fault| fault.call() == FileCall::Load)
    );
    Ok(())
}
