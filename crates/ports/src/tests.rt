//! Each part of the outside in memory, with each of its calls failing in turn.
use super::*;
use cell_grid::Size;
use std::alloc::Global;
use std::test::Fail;

/// Lets the call with this number alone fail.
fn failing_at(alloc: Global, number: u64) -> Result<FailingCalls, Fail> {
    Ok(FailingCalls::new(Vec::from_slice(alloc, &[number])?))
}

#[test]
fn source(rt: HostRuntime) -> Result<(), Fail> {
    // with room for two bytes a read, the three bytes take two reads, and the third finds the end
    for failing in 0..4 {
        let bytes = Vec::from_slice(rt.alloc(), b"abc")?;
        let mut source = MemorySource::new(bytes, failing_at(rt.alloc(), failing)?);
        let mut taken = Vec::new(rt.alloc());
        for call in 0..4 {
            let mut buffer = [b'.'; 2];
            let faults = source.faults();
            match source.read(&mut buffer) {
                Ok(given) => {
                    taken.extend_from_slice(&buffer[..given])?;
                    assert!(rt; call != failing, "call {call}");
                    assert_eq!(rt; source.faults(), faults, "call {call}");
                }
                Err(Failed) => {
                    assert_eq!(rt; call, failing, "call {call}");
                    assert_eq!(rt; source.faults(), 1, "call {call}");
                }
            }
        }
        assert_eq!(rt;
            taken.as_slice(),
            b"abc".as_slice(),
            "where call {failing} fails"
        );
    }
    Ok(())
}

#[test]
fn sink(rt: HostRuntime) -> Result<(), Fail> {
    let wanted = ["cdef", "abef", "abcd", "abcdef"];
    for (failing, wanted) in wanted.into_iter().enumerate() {
        let mut sink = MemorySink::new(rt.alloc(), failing_at(rt.alloc(), failing as u64)?);
        for (call, bytes) in [b"ab", b"cd", b"ef"].into_iter().enumerate() {
            let put = sink.put(bytes);
            assert_eq!(rt; put.is_err(), call == failing, "call {call}");
        }
        assert_eq!(rt;
            sink.bytes(),
            wanted.as_bytes(),
            "where call {failing} fails"
        );
        assert_eq!(rt; sink.faults() == 1, failing < 3);
    }
    Ok(())
}

#[test]
fn screen(rt: HostRuntime) -> Result<(), Fail> {
    let wanted: [[&[u8]; 2]; 3] = [[b"", b"c"], [b"ab", b"c"], [b"ab", b""]];
    for (failing, wanted) in wanted.into_iter().enumerate() {
        let mut screen = MemoryScreen::new(rt.alloc(), failing_at(rt.alloc(), failing as u64)?);
        assert!(rt; screen.is_empty());
        let frames: [&[u8]; 3] = [b"ab", b"", b"c"];
        for (call, bytes) in frames.into_iter().enumerate() {
            let taken = screen.frame(bytes);
            assert_eq!(rt; taken.is_err(), call == failing, "call {call}");
        }
        assert_eq!(rt; screen.len(), 2);
        assert_eq!(rt; screen.faults(), 1);
        for (number, frame) in wanted.into_iter().enumerate() {
            let shown = screen.get(number).ok_or("a frame")?;
            assert_eq!(rt; shown, frame, "frame {number} where call {failing} fails");
        }
        assert!(rt; screen.get(2).is_none());
    }
    Ok(())
}

#[test]
fn tty(rt: HostRuntime) -> Result<(), Fail> {
    let gives = Entered {
        size: Size::new(3, 40).ok_or("a size")?,
        moment: 7,
    };
    // entered, entered, left and left: the modes behind each call, and the number of entries
    let wanted = [
        ("crcc", 1),
        ("rrcc", 1),
        ("rrrc", 2),
        ("rrcc", 2),
        ("rrcc", 2),
    ];
    for (failing, (modes, entries)) in wanted.into_iter().enumerate() {
        let mut tty = MemoryTty::new(gives, failing_at(rt.alloc(), failing as u64)?);
        assert_eq!(rt; tty.mode(), Mode::Cooked);
        for (call, mode) in modes.bytes().enumerate() {
            let failed = if call < 2 {
                match tty.enter() {
                    Ok(entered) => {
                        assert_eq!(rt; (entered.size.rows(), entered.size.cols()), (3, 40));
                        assert_eq!(rt; entered.moment, 7);
                        false
                    }
                    Err(Failed) => true,
                }
            } else {
                tty.leave().is_err()
            };
            assert_eq!(rt; failed, call == failing, "call {call}");
            assert_eq!(rt;
                tty.mode() == Mode::Raw,
                mode == b'r',
                "behind call {call} where {failing} fails"
            );
        }
        assert_eq!(rt; tty.entries(), entries, "where call {failing} fails");
        assert_eq!(rt; tty.faults() == 1, failing < 4);
    }
    Ok(())
}

#[test]
fn tells_a_failure(rt: HostRuntime) -> Result<(), Fail> {
    let told = format!(in rt.alloc(); "{Failed}")?;
    assert_eq!(rt; told.as_str(), "a call of the outside failed");
    Ok(())
}
