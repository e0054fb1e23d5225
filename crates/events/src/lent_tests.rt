//! An inbox that only borrows where its events come from: who lent that has it again, with what was taken from it.
ghost use Rattle.std.specs.Prelude.{◌≡◌, List, Result};
ghost use Rattle.causes.specs.Chain.{Chain};
ghost use Rattle.events.specs.Inboxes.{Gives};
ghost use Rattle.events.specs.declared.events.Event.{Event};
ghost use Rattle.events.specs.declared.inboxes.InboxFault.{InboxFault};

use super::*;
use ports::FailingCalls;
use std::test::Fail;
use text_doc::Bytes;

/// An inbox that has borrowed another one.
#[derive(Drop)]
struct LentInbox<'a> {
    inbox: &'a mut MemoryInbox,
}

impl<'a> LentInbox<'a> {
    fn new(inbox: &'a mut MemoryInbox) -> LentInbox<'a>
        ensures same_reference { result.inbox.ghost_name ≡ inbox.entry.ghost_name }
        ensures same { result.inbox.now ≡ inbox.old }
    {
        LentInbox { inbox }
    }
}

impl<'a> Inbox for LentInbox<'a> {
    ghost heard = { λ old answer new. (new.inbox.ghost_name ≡ old.inbox.ghost_name)
        × Gives old.inbox.now answer new.inbox.now };

    ghost faults = { λ i. i.inbox.now.faults };

    fn next(&mut self) -> Result<Event, InboxFault> {
        self.inbox.next()
    }
}

/// Takes as many events, or fewer where a call is refused. It knows of the inbox only that it is one.
fn take<I: Inbox>(inbox: &mut I, count: u32)
    ensures { (answers : List (Result Event InboxFault))
        × Chain I.heard inbox.old answers inbox.new }
{
    for _ in 0..count {
        if inbox.next().is_err() {
            return;
        }
    }
}

/// Takes as many events of a borrowed inbox, which is still borrowed.
fn take_lent(inbox: &mut LentInbox<'_>, count: u32)
    ensures same_reference { inbox.new.inbox.ghost_name ≡ inbox.old.inbox.ghost_name }
    ensures taken { (answers : List (Result Event InboxFault))
        × Chain Gives inbox.old.inbox.now answers inbox.new.inbox.now }
{
    take(inbox, count);
}

#[test]
fn lender_has_its_inbox_again(rt: HostRuntime) -> Result<(), Fail> {
    let mut events = Vec::new(rt.alloc());
    events.push(Event::Start)?;
    events.push(Event::Piece(Bytes::from_slice(rt.alloc(), b"a")?))?;
    events.push(Event::End)?;
    let mut inbox = MemoryInbox::new(events, FailingCalls::new(Vec::new(rt.alloc())));
    let mut lent = LentInbox::new(&mut inbox);
    take_lent(&mut lent, 2);
    assert_eq!(rt; inbox.given().len(), 2);
    assert!(rt; matches!(inbox.next()?, Event::End));
    assert_eq!(rt; inbox.ends(), 0);
    Ok(())
}
