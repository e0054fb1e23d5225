//! A desk worked out by hand.
use crate::{DeskState, Posted};
use completers::{Completer, Tools, Validator};
use requests::{Kind, Request};
use std::alloc::Global;
use std::process::Abort;
use std::sync::Arc;
use std::test::Fail;
use text_doc::{Doc, Lines, MAX_LENGTH, NoMemory, Text};

fn doc(rt: &impl Abort, alloc: Global, words: &str) -> Result<Doc, Fail> {
    let text = Text::read_str(alloc, words)?;
    assert!(rt; text.len() <= MAX_LENGTH);
    let cursor = text.len();
    let doc = Doc::new(alloc, text, cursor)?;
    Ok(doc)
}

/// Makes the words `a`, `ab`, `abb` and so on.
fn words(alloc: Global, count: usize) -> Result<Lines, NoMemory> {
    let mut words = Lines::new(alloc);
    let mut word = Text::read_str(alloc, "a")?;
    for _ in 0..count {
        words.push(word.copy()?)?;
        word.push('b')?;
    }
    Ok(words)
}

/// Makes a completer of `count` words, no history, and a validator that wants a number.
fn tools(alloc: Global, count: usize) -> Result<Arc<Tools>, Fail> {
    let completer = Completer::words(alloc, words(alloc, count)?, false)?;
    let tools = Tools {
        completer: Some(completer),
        history: Lines::new(alloc),
        validator: Validator::Number,
    };
    Ok(Arc::new(alloc, tools)?)
}

/// Makes a request for what these tools make of the text `a`.
pub(crate) fn request(
    rt: &impl Abort,
    alloc: Global,
    id: u64,
    kind: Kind,
    count: usize,
) -> Result<Request, Fail> {
    Ok(Request {
        id,
        kind,
        doc: doc(rt, alloc, "a")?,
        tools: tools(alloc, count)?,
    })
}

/// Returns the number of the request that this one replaced.
fn replaced(posted: &Posted) -> Option<u64> {
    match posted {
        Posted::Replaced(old) => Some(old.id),
        _ => None,
    }
}

/// Returns the number of a request that was refused.
fn refused(posted: &Posted) -> Option<u64> {
    match posted {
        Posted::Refused(request) => Some(request.id),
        _ => None,
    }
}

/// Returns the number of a request.
fn number(request: &Option<Request>) -> Option<u64> {
    match request {
        Some(request) => Some(request.id),
        None => None,
    }
}

#[test]
fn desk_by_hand(rt: HostRuntime) -> Result<(), Fail> {
    let alloc = rt.alloc();
    let mut desk = DeskState::new();
    assert!(rt; desk.is_idle());
    assert_eq!(rt; number(&desk.take()), None);
    // each post: its number, what it replaced, whether it was refused, and the totals behind it
    let posts = [
        (3, None, None, (1, 0, 0)),
        (5, Some(3), None, (2, 0, 1)),
        (5, None, Some(5), (2, 0, 1)),
        (4, None, Some(4), (2, 0, 1)),
    ];
    for (id, old, same, totals) in posts {
        let posted = desk.post(request(&rt, alloc, id, Kind::Check, 0)?);
        assert_eq!(rt; replaced(&posted), old, "post of {id}");
        assert_eq!(rt; refused(&posted), same, "post of {id}");
        assert_eq!(rt; desk.totals(), totals, "post of {id}");
        assert!(rt; !desk.is_idle(), "post of {id}");
    }
    assert_eq!(rt;
        (desk.live(3), desk.live(4), desk.live(5)),
        (false, false, true)
    );
    // a taken request stays live
    assert_eq!(rt; number(&desk.take()), Some(5));
    assert_eq!(rt; (desk.live(5), desk.totals()), (true, (2, 1, 1)));
    // a cancel hands back what is in the slot
    let posted = desk.post(request(&rt, alloc, 6, Kind::Check, 0)?);
    assert_eq!(rt; replaced(&posted), None);
    assert_eq!(rt; number(&desk.cancel()), Some(6));
    assert_eq!(rt; number(&desk.cancel()), None);
    assert_eq!(rt; (desk.live(6), desk.totals()), (false, (3, 1, 2)));
    Ok(())
}

#[test]
fn closed_desk(rt: HostRuntime) -> Result<(), Fail> {
    let mut desk = DeskState::new();
    let _ = desk.post(request(&rt, rt.alloc(), 9, Kind::Check, 0)?);
    desk.close();
    assert_eq!(rt; (desk.closed(), desk.live(9)), (true, false));
    // what was in the slot can still be taken, and nobody waits at a desk that is closed
    assert_eq!(rt; number(&desk.take()), Some(9));
    assert!(rt; !desk.is_idle());
    assert_eq!(rt; desk.totals(), (1, 1, 0));
    Ok(())
}
