//! Tokens of callers and of drivers above, and messages.
use crate::words::{Frame, core_at, post, token_of};
use efi_base::{ChildId, End, Owner, Proto, Refuse, Ticket, TokenId};
use efi_book::{Book, Outbox};
use std::test::Fail;

/// 65 posts, then a cancel of all: 1 to 64 end in order.
#[test]
fn cancel_of_all(rt: HostRuntime) -> Result<(), Fail> {
    let mut core = core_at(rt.alloc(), 1, 1)?;
    let h = core.create()?;
    assert_eq!(rt; post(&mut core, h, 1), Err(Refuse::NotStarted));
    core.configure(h, Some(7))?;
    for n in 1..65u64 {
        assert_eq!(rt; post(&mut core, h, n), Ok(n));
    }
    assert_eq!(rt; post(&mut core, h, 65), Err(Refuse::NotReady));
    core.cancel(h, None)?;
    for n in 1..65u64 {
        assert_eq!(rt; token_of(core.take_done()), Some(n));
    }
    assert_eq!(rt; token_of(core.take_done()), None);
    Ok(())
}

/// A token that has ended isn't cancelled again, nor completed; others of the child stay.
#[test]
fn done_stays_done(rt: HostRuntime) -> Result<(), Fail> {
    let mut core = core_at(rt.alloc(), 1, 1)?;
    let h = core.create()?;
    let other = core.create()?;
    core.configure(h, Some(7))?;
    for n in 1..4u64 {
        assert_eq!(rt; post(&mut core, h, n), Ok(n));
    }
    core.complete(Ticket(2), End::Success);
    assert_eq!(rt; core.cancel(h, Some(Ticket(2))), Err(Refuse::NotFound));
    assert_eq!(rt; core.cancel(other, Some(Ticket(1))), Err(Refuse::NotFound));
    assert_eq!(rt; core.cancel_token(h, Some(TokenId(3))), Ok(()));
    core.complete(Ticket(3), End::Success);
    core.configure(h, None)?;
    for (token, end) in [(2, End::Success), (3, End::Aborted), (1, End::Aborted)] {
        match core.take_done() {
            Some(d) => assert_eq!(rt; (d.token.0, d.end), (token, end)),
            None => assert!(rt; false),
        }
    }
    assert_eq!(rt; token_of(core.take_done()), None);
    Ok(())
}

/// The last ticket.
#[test]
fn tickets_end(rt: HostRuntime) -> Result<(), Fail> {
    let mut core = core_at(rt.alloc(), 1, u64::MAX - 1)?;
    let h = core.create()?;
    core.configure(h, Some(7))?;
    assert_eq!(rt; post(&mut core, h, 1), Ok(u64::MAX - 1));
    assert_eq!(rt; post(&mut core, h, 2), Err(Refuse::Exhausted));
    core.destroy(h)?;
    assert_eq!(rt; token_of(core.take_done()), Some(1));
    assert_eq!(rt; token_of(core.take_done()), None);
    Ok(())
}

/// A token of a driver above goes by the other exit; more room than there is is refused, and nothing changes.
#[test]
fn exits(rt: HostRuntime) -> Result<(), Fail> {
    let mut book = Book::new(rt.alloc());
    let upper = Owner::Upper(Proto::Ip4, Ticket(5));
    let sent = book.accept(ChildId(3), upper, Frame(1))?;
    assert!(rt; book.reserve(u32::MAX).is_err());
    assert_eq!(rt;
        (book.oldest(ChildId(3)), book.pending().len()),
        (Some(sent), 1)
    );
    book.reserve(1)?;
    book.accept_spare(ChildId(3), Owner::User(TokenId(1)), Frame(2))?;
    assert_eq!(rt; book.oldest(ChildId(3)), Some(sent));
    assert_eq!(rt; book.oldest_kind(ChildId(3), 2), Some(Ticket(2)));
    book.put_work(Ticket(2), Frame(4));
    if let Some(work) = book.work_mut(Ticket(2)) {
        *work = Frame(work.0 + 1);
    }
    assert!(rt; book.work_mut(Ticket(3)).is_none());
    assert_eq!(rt; book.work(Ticket(2)), Some(&Frame(5)));
    book.abort_owner(upper);
    assert!(rt; book.take_done().is_none());
    match book.take_up() {
        Some(d) => assert_eq!(rt;
            (d.proto, d.waits, d.end),
            (Proto::Ip4, Ticket(5), End::Aborted)
        ),
        None => assert!(rt; false),
    }
    book.complete_with(Ticket(2), End::Success, Frame(6));
    match book.take_done() {
        Some(d) => assert_eq!(rt; (d.work, d.end), (Frame(6), End::Success)),
        None => assert!(rt; false),
    }
    Ok(())
}

#[test]
fn messages(rt: HostRuntime) -> Result<(), Fail> {
    let mut outbox = Outbox::new(rt.alloc());
    outbox.ask(1)?;
    outbox.take_room()?;
    outbox.put(2);
    outbox.reserve(1)?;
    outbox.give_room();
    assert_eq!(rt; outbox.take_down(), Some(1));
    assert_eq!(rt; outbox.take_down(), Some(2));
    assert_eq!(rt; outbox.take_down(), None);
    Ok(())
}
