//! The book of one driver: which tokens are pending, and which have ended. Where a token ends, its owner decides by
//! which of two exits it leaves: to callers, or to the driver above. The children aren't here.
ghost use Rattle.std.specs.Prelude.{◌≡◌, ℕ, ◌+◌, ◌-◌, ◌<◌, ◌≤◌, ◌^◌, [], ◌∷◌, max, length, option_copied, slice_get, IsSome, IfSome, IfNone, IfOk, IfErr, OnOk, OnErr, vec_len, vec_capacity};
ghost use Rattle.std.specs.VecDeque.{deque_len, deque_capacity};
ghost use Rattle.efi_base.specs.Refusals.{AnswersBy, HandsBackExactly, RefusesExactly};
ghost use Rattle.std.specs.Borrow.{sem};
ghost use Rattle.std.specs.Option.{option_copied_mut};
ghost use Rattle.efi_book.specs.Lends.{lends_work};

use crate::ends::{
    Done, Kinded, Pending, Raised, Whose, abort_of, index_of, index_of_childs, index_of_kind,
    index_of_oldest, index_of_token, is_full, leave,
};
use efi_base::{ChildId, End, NoMemory, Owner, Refuse, Refused, Ticket, TokenId};
use std::alloc::Global;
use std::collections::VecDeque;
use std::marker::Model;
use std::mem;

/// The tokens of one driver: those that are pending, in the order of their acceptance, and those that have ended, in
/// the order of their ends, by two exits. A token that is accepted has its place at the exits, so ends take no memory.
#[derive(Drop)]
pub struct Book<T> {
    pending: Vec<Pending<T>>,
    done: VecDeque<Done<T>>,
    ups: VecDeque<Raised<T>>,
    next: u64,
    spare: usize,
}

impl<T> Model for Book<T> {
    ghost use Rattle.std.specs.Prelude.{ℕ, ◌+◌, ◌≤◌, vec_len, vec_capacity};
    ghost use Rattle.std.specs.VecDeque.{deque_len, deque_capacity};
    ghost use Rattle.efi_book.specs.Books.{Tokens};

    ghost Value = { Tokens T };

    ghost view = { λ b. record { pending = b.pending.items; done = b.done.items; ups = b.ups.items; next = b.next; spare = b.spare } };

    ghost invariant = { λ b.
        (vec_len b.pending + b.spare ≤ vec_capacity b.pending)
        × (vec_len b.pending + b.spare + deque_len b.done ≤ deque_capacity b.done)
        × (vec_len b.pending + b.spare + deque_len b.ups ≤ deque_capacity b.ups) };
}

impl<T: Drop> Book<T> {
    ghost use Rattle.efi_base.specs.declared.tokens.Owner.{Owner as OwnerValue};
    ghost use Rattle.efi_book.specs.Owners.{gained};
    ghost use Rattle.efi_book.specs.Books.{times, Keeps, given, given_up, no_tokens, no_tokens_from, accept_refusal, with_pending, with_spare, completed, completed_with, child_aborted, owner_aborted, cancel_refusal, cancelled, token_refusal, token_cancelled, oldest_of, work_of, work_put, without_done, without_up};

    /// A book without tokens. Tickets rise by one from 1.
    pub fn new(alloc: Global) -> Book<T>
        ensures { result ≡ no_tokens }
    {
        Book::starting_at(alloc, Ticket(1))
    }

    /// A book without tokens whose first ticket is this one, as after so many others.
    pub fn starting_at(alloc: Global, first: Ticket) -> Book<T>
        ensures { result ≡ no_tokens_from first.0 }
    {
        Book {
            pending: Vec::new(alloc),
            done: VecDeque::new(alloc),
            ups: VecDeque::new(alloc),
            next: first.0,
            spare: 0,
        }
    }

    /// Why `accept` would refuse, but for want of memory: a driver that takes memory of its own for a token asks before.
    pub fn refusal(&self, child: ChildId, owner: Owner) -> Option<Refuse>
        ensures { result ≡ accept_refusal self.now child owner }
    {
        if let Owner::User(_) = owner
            && is_full(&self.pending, child)
        {
            return Some(Refuse::NotReady);
        }
        if self.next == u64::MAX {
            return Some(Refuse::Exhausted);
        }
        None
    }

    /// Takes a token in, and keeps room for its end.
    #[tactic(auto, using(crate::specs::Conserves::times_accepted))]
    pub fn accept(&mut self, child: ChildId, owner: Owner, work: T) -> Result<Ticket, Refused<T>>
        ensures answer { AnswersBy (accept_refusal self.old child owner) result }
        ensures ok { IfOk result (λ t. (t.0 ≡ self.old.next) × (self.new ≡ with_pending self.old child owner work)) }
        ensures err { IfErr result (λ r. (r.work ≡ work) × (self.new ≡ self.old)) }
        ensures keeps { (o : OwnerValue) → times o self.new ≡ times o self.old + gained o owner result }
    {
        if let Some(why) = self.refusal(child, owner) {
            return Err(Refused { why, work });
        }
        let more = self.spare + 1;
        let Ok(()) = grow(&mut self.pending, &mut self.done, &mut self.ups, more) else {
            return Err(Refused {
                why: Refuse::OutOfResources,
                work,
            });
        };
        let ticket = Ticket(self.next);
        self.pending.push_reserved(Pending {
            ticket,
            child,
            owner,
            work,
        });
        self.next += 1;
        Ok(ticket)
    }

    /// Makes room for `n` further tokens of `accept_spare` in all.
    pub fn reserve(&mut self, n: u32) -> Result<(), NoMemory>
        ensures ok { OnOk result (self.new ≡ with_spare self.old (max self.old.spare n)) }
        ensures err { OnErr result (self.new ≡ self.old) }
        ensures keeps { Keeps self.old self.new }
    {
        let n = n as usize;
        if n <= self.spare {
            return Ok(());
        }
        grow(&mut self.pending, &mut self.done, &mut self.ups, n)?;
        self.spare = n;
        Ok(())
    }

    /// As `accept`, from the room that `reserve` took. It takes no memory.
    #[tactic(auto, using(crate::specs::Conserves::times_accepted))]
    pub fn accept_spare(
        &mut self,
        child: ChildId,
        owner: Owner,
        work: T,
    ) -> Result<Ticket, Refused<T>>
        requires { 0 < self.old.spare }
        ensures answer { HandsBackExactly (accept_refusal self.old child owner) result }
        ensures ok { IfOk result (λ t. (t.0 ≡ self.old.next) × (self.new ≡ with_spare (with_pending self.old child owner work) (self.old.spare - 1))) }
        ensures err { IfErr result (λ r. (r.work ≡ work) × (self.new ≡ self.old)) }
        ensures keeps { (o : OwnerValue) → times o self.new ≡ times o self.old + gained o owner result }
    {
        if let Some(why) = self.refusal(child, owner) {
            return Err(Refused { why, work });
        }
        let ticket = Ticket(self.next);
        self.spare -= 1;
        self.pending.push_reserved(Pending {
            ticket,
            child,
            owner,
            work,
        });
        self.next += 1;
        Ok(ticket)
    }

    /// The pending token ends; where it isn't pending, nothing changes. It takes no memory.
    #[tactic(auto, using(crate::specs::Conserves::times_ended))]
    pub fn complete(&mut self, ticket: Ticket, end: End)
        ensures after { self.new ≡ completed self.old ticket end }
        ensures keeps { Keeps self.old self.new }
    {
        let Some(i) = index_of(&self.pending, ticket) else {
            return;
        };
        let p = self.pending.remove(i);
        leave(&mut self.done, &mut self.ups, p, end);
    }

    /// As `complete`, with another work.
    #[tactic(auto, using(crate::specs::Conserves::times_ended))]
    pub fn complete_with(&mut self, ticket: Ticket, end: End, work: T)
        ensures after { self.new ≡ completed_with self.old ticket end work }
        ensures keeps { Keeps self.old self.new }
    {
        let Some(i) = index_of(&self.pending, ticket) else {
            return;
        };
        let mut p = self.pending.remove(i);
        p.work = work;
        leave(&mut self.done, &mut self.ups, p, end);
    }

    /// Every pending token of the child ends as aborted, by rising ticket. It takes no memory.
    #[tactic(auto, using(crate::specs::Conserves::times_aborted))]
    pub fn abort_child(&mut self, child: ChildId)
        ensures after { self.new ≡ child_aborted self.old child }
        ensures keeps { Keeps self.old self.new }
    {
        abort_of(
            &mut self.pending,
            &mut self.done,
            &mut self.ups,
            Whose::Child(child),
        );
    }

    /// Every pending token of the owner ends as aborted, by rising ticket. It takes no memory.
    #[tactic(auto, using(crate::specs::Conserves::times_aborted))]
    pub fn abort_owner(&mut self, owner: Owner)
        ensures after { self.new ≡ owner_aborted self.old owner }
        ensures keeps { Keeps self.old self.new }
    {
        abort_of(
            &mut self.pending,
            &mut self.done,
            &mut self.ups,
            Whose::Owner(owner),
        );
    }

    /// The child's pending token ends as aborted. It takes no memory.
    #[tactic(auto, using(crate::specs::Conserves::times_ended))]
    pub fn cancel(&mut self, child: ChildId, ticket: Ticket) -> Result<(), Refuse>
        ensures answer { RefusesExactly (cancel_refusal self.old child ticket) result }
        ensures after { self.new ≡ cancelled self.old child ticket }
        ensures err { OnErr result (self.new ≡ self.old) }
        ensures keeps { Keeps self.old self.new }
    {
        let Some(i) = index_of_childs(&self.pending, child, ticket) else {
            return Err(Refuse::NotFound);
        };
        let p = self.pending.remove(i);
        leave(&mut self.done, &mut self.ups, p, End::Aborted);
        Ok(())
    }

    /// A caller's pending token on the child ends as aborted. It takes no memory.
    #[tactic(auto, using(crate::specs::Conserves::times_ended))]
    pub fn cancel_token(&mut self, child: ChildId, token: TokenId) -> Result<(), Refuse>
        ensures answer { RefusesExactly (token_refusal self.old child token) result }
        ensures after { self.new ≡ token_cancelled self.old child token }
        ensures err { OnErr result (self.new ≡ self.old) }
        ensures keeps { Keeps self.old self.new }
    {
        let Some(i) = index_of_token(&self.pending, child, token) else {
            return Err(Refuse::NotFound);
        };
        let p = self.pending.remove(i);
        leave(&mut self.done, &mut self.ups, p, End::Aborted);
        Ok(())
    }

    /// The oldest pending token of the child.
    pub fn oldest(&self, child: ChildId) -> Option<Ticket>
        ensures { result ≡ oldest_of self.now child }
    {
        let i = index_of_oldest(&self.pending, child)?;
        Some(self.pending[i].ticket)
    }

    /// The work of a pending token.
    pub fn work(&self, ticket: Ticket) -> Option<&T>
        ensures { option_copied result ≡ work_of self.now ticket }
    {
        let i = index_of(&self.pending, ticket)?;
        Some(&self.pending[i].work)
    }

    /// All pending tokens, oldest first.
    pub fn pending(&self) -> &[Pending<T>]
        ensures { result.now ≡ self.now.pending }
    {
        &self.pending
    }

    /// Gives the pending token another work, and the old one back.
    #[tactic(auto, using(crate::specs::Conserves::times_put))]
    pub fn put_work(&mut self, ticket: Ticket, work: T) -> Option<T>
        ensures after { self.new ≡ work_put self.old ticket work }
        ensures old { result ≡ work_of self.old ticket }
        ensures keeps { Keeps self.old self.new }
    {
        let i = index_of(&self.pending, ticket)?;
        let p = &mut self.pending[i];
        Some(mem::replace(&mut p.work, work))
    }

    /// The work of a pending token, for writing: when the borrow is over, the book is as after `put_work` of what was
    /// written last. So no token is lost or doubled, whatever is written.
    pub fn work_mut(&mut self, ticket: Ticket) -> Option<&mut T>
        ensures* writes_back { sem 𝓛 (lends_work T.row self.entry ticket result) }
        ensures value { option_copied_mut result ≡ work_of self.old ticket }
    {
        match index_of(&self.pending, ticket) {
            Some(i) => Some(&mut self.pending[i].work),
            None => None,
        }
    }

    /// The caller's token that ended first. It takes no memory.
    #[tactic(auto, using(crate::specs::Conserves::times_taken))]
    pub fn take_done(&mut self) -> Option<Done<T>>
        ensures first { result ≡ slice_get self.old.done 0 }
        ensures some { IfSome result (λ _. self.new ≡ without_done self.old) }
        ensures none { IfNone result (self.new ≡ self.old) }
        ensures keeps { (o : OwnerValue) → times o self.new + given o result ≡ times o self.old }
    {
        self.done.pop_front()
    }

    /// The token of a driver above that ended first. It takes no memory.
    #[tactic(auto, using(crate::specs::Conserves::times_taken_up))]
    pub fn take_up(&mut self) -> Option<Raised<T>>
        ensures first { result ≡ slice_get self.old.ups 0 }
        ensures some { IfSome result (λ _. self.new ≡ without_up self.old) }
        ensures none { IfNone result (self.new ≡ self.old) }
        ensures keeps { (o : OwnerValue) → times o self.new + given_up o result ≡ times o self.old }
    {
        self.ups.pop_front()
    }
}

impl<T: Kinded> Book<T> {
    ghost use Rattle.efi_book.specs.Books.{oldest_kind_of};

    /// The oldest pending token of the child whose work is of the kind.
    pub fn oldest_kind(&self, child: ChildId, kind: u32) -> Option<Ticket>
        ensures { result ≡ oldest_kind_of T.kind_of self.now child kind }
    {
        let i = index_of_kind(&self.pending, child, kind)?;
        Some(self.pending[i].ticket)
    }
}

// Room for so many more pending tokens, and for the ends of all.
fn grow<T>(
    pending: &mut Vec<Pending<T>>,
    done: &mut VecDeque<Done<T>>,
    ups: &mut VecDeque<Raised<T>>,
    more: usize,
) -> Result<(), NoMemory>
    requires { more < 2 ^ 62 }
    ensures pending { pending.new.items ≡ pending.old.items }
    ensures done { done.new.items ≡ done.old.items }
    ensures ups { ups.new.items ≡ ups.old.items }
    ensures pending_len { vec_len pending.new ≡ vec_len pending.old }
    ensures done_len { deque_len done.new ≡ deque_len done.old }
    ensures ups_len { deque_len ups.new ≡ deque_len ups.old }
    ensures pending_grows { vec_capacity pending.old ≤ vec_capacity pending.new }
    ensures done_grows { deque_capacity done.old ≤ deque_capacity done.new }
    ensures ups_grows { deque_capacity ups.old ≤ deque_capacity ups.new }
    ensures pending_room { OnOk result (vec_len pending.new + more ≤ vec_capacity pending.new) }
    ensures done_room { OnOk result (vec_len pending.new + more + deque_len done.new ≤ deque_capacity done.new) }
    ensures ups_room { OnOk result (vec_len pending.new + more + deque_len ups.new ≤ deque_capacity ups.new) }
{
    let ends = pending.len() + more;
    pending.reserve(more)?;
    done.reserve(ends)?;
    ups.reserve(ends)?;
    Ok(())
}
