//! Several prompts with one history, and the sentences of faults.
use crate::{Config, Event, Outcome, Session, StepFault};
use cell_grid::Size;
use std::test::Fail;
use text_doc::{Bytes, Lines};

#[test]
fn tells_faults(rt: HostRuntime) -> Result<(), Fail> {
    let sentences = [
        (StepFault::Ended, "the session has ended"),
        (StepFault::NoMemory, "out of memory"),
    ];
    for (fault, sentence) in sentences {
        let told = format!(in rt.alloc(); "{fault}")?;
        assert_eq!(rt; told.as_str(), sentence);
    }
    Ok(())
}

/// Accepts some texts one after the other, and tells how long the entry is that each adds.
#[test]
fn adds_entries(rt: HostRuntime) -> Result<(), Fail> {
    let size = Size::new(24, 80).expect(&rt, "a size");
    let config = Config::new(rt.alloc())?;
    let mut session = Session::new(rt.alloc(), config, Lines::new(rt.alloc()), size, 7)?;
    let cases = [
        ("ab\r", Some(2)),
        ("ab\r", None),
        ("\r", None),
        ("abc\r", Some(3)),
        ("abc\r", None),
        ("ab\r", Some(2)),
    ];
    for (keys, added) in cases {
        let bytes = Bytes::from_slice(rt.alloc(), keys.as_bytes())?;
        assert!(rt;
            session.step(Event::Piece(bytes)).is_ok() && session.ended(),
            "{keys:?}"
        );
        assert_eq!(rt; session.entry().map(|entry| entry.len()), added, "{keys:?}");
        assert!(rt; matches!(session.outcome(), Some(Outcome::Accepted(_))));
        session.again()?;
        assert!(rt;
            !session.ended() && session.doc().is_empty() && session.moment() == 7,
            "{keys:?}"
        );
    }
    Ok(())
}
