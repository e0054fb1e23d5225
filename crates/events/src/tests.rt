//! An inbox and jobs in memory, with each of their calls failing in turn.
use super::*;
use cell_grid::Size;
use completers::{Tools, Validator};
use ports::FailingCalls;
use requests::{Batch, Kind, Request};
use std::alloc::Global;
use std::sync::Arc;
use std::test::Fail;
use text_doc::{Bytes, Doc, Lines, Text};

/// Makes the call with this number alone fail.
fn failing_at(alloc: Global, number: u64) -> Result<FailingCalls, Fail> {
    Ok(FailingCalls::new(Vec::from_slice(alloc, &[number])?))
}

/// Makes a request to check an empty text, with this number.
fn request(alloc: Global, id: u64) -> Result<Request, Fail> {
    let tools = Tools {
        completer: None,
        history: Lines::new(alloc),
        validator: Validator::Number,
    };
    Ok(Request {
        id,
        kind: Kind::Check,
        doc: Doc::new(alloc, Text::new(alloc), 0)?,
        tools: Arc::new(alloc, tools)?,
    })
}

/// Makes one event of each kind.
fn events(alloc: Global) -> Result<Vec<Event>, Fail> {
    let request = request(alloc, 9)?;
    let batch = Batch::make(alloc, &request, 0)?.ok_or("a batch")?;
    let mut events = Vec::new(alloc);
    events.push(Event::Start)?;
    events.push(Event::Piece(Bytes::from_slice(alloc, b"ab")?))?;
    events.push(Event::Tick(5))?;
    events.push(Event::Resize(Size::new(3, 40).ok_or("a size")?))?;
    events.push(Event::Answer(batch))?;
    events.push(Event::End)?;
    Ok(events)
}

/// Tells what kind of event it is, by the first letter of its name, and a number of what it brings.
fn shape(event: &Event) -> (u8, u64) {
    match event {
        Event::Start => (b's', 0),
        Event::Piece(bytes) => (b'p', bytes.len() as u64),
        Event::Tick(moment) => (b't', *moment),
        Event::Resize(size) => (b'r', u64::from(size.cols())),
        Event::Answer(batch) => (b'a', batch.request().id),
        Event::End => (b'e', 0),
    }
}

#[test]
fn inbox(rt: HostRuntime) -> Result<(), Fail> {
    let shapes = [
        (b's', 0),
        (b'p', 2),
        (b't', 5),
        (b'r', 40),
        (b'a', 9),
        (b'e', 0),
        (b'e', 0),
        (b'e', 0),
    ];
    for failing in 0..9 {
        let mut inbox = MemoryInbox::new(events(rt.alloc())?, failing_at(rt.alloc(), failing)?);
        for (place, wanted) in shapes.into_iter().enumerate() {
            if place as u64 == failing {
                assert!(rt;
                    matches!(inbox.next(), Err(InboxFault::Failed)),
                    "at {place}"
                );
            }
            let event = inbox.next()?;
            assert_eq!(rt;
                shape(&event),
                wanted,
                "at {place} where call {failing} fails"
            );
        }
        assert_eq!(rt; inbox.given().len(), 6);
        assert_eq!(rt; inbox.ends(), 2);
        assert_eq!(rt; inbox.faults() == 1, failing < 8);
    }
    Ok(())
}

#[test]
fn jobs(rt: HostRuntime) -> Result<(), Fail> {
    // the requests that are wanted behind the four calls of which this one finds no memory, 0 for none
    let wanted = [(0, 2, 3), (0, 0, 3), (1, 2, 3), (0, 2, 0), (0, 2, 3)];
    let kinds = [Kind::Complete, Kind::Suggest, Kind::Complete, Kind::Check];
    for (failing, wanted) in wanted.into_iter().enumerate() {
        let mut jobs = MemoryJobs::new(failing_at(rt.alloc(), failing as u64)?);
        for (call, (kind, id)) in kinds.into_iter().zip([1, 2, 0, 3]).enumerate() {
            let request = request(rt.alloc(), id)?;
            let told = jobs.want(kind, Some(&request).filter(|_| id > 0));
            assert_eq!(rt; told.is_err(), call == failing, "call {call}");
        }
        let ids = (
            id_of(jobs.wanted(Kind::Complete)),
            id_of(jobs.wanted(Kind::Suggest)),
            id_of(jobs.wanted(Kind::Check)),
        );
        assert_eq!(rt; ids, wanted, "where call {failing} fails");
        assert_eq!(rt; jobs.faults() == 1, failing < 4);
    }
    Ok(())
}

fn id_of(request: Option<&Request>) -> u64 {
    request.map_or(0, |request| request.id)
}

#[test]
fn tells_faults(rt: HostRuntime) -> Result<(), Fail> {
    let sentences = [
        (InboxFault::Failed, "what gives the events failed"),
        (InboxFault::NoMemory, "no memory for an event"),
    ];
    for (fault, sentence) in sentences {
        let told = format!(in rt.alloc(); "{fault}")?;
        assert_eq!(rt; told.as_str(), sentence);
    }
    Ok(())
}
