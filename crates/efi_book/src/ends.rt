//! Tokens that are pending, those that have ended, and the step from one to the other. The book that holds them
//! isn't here.
ghost use Rattle.std.specs.Prelude.{◌≡◌, ℕ, ◌+◌, ◌<◌, ◌≤◌, ◌++◌, length, count_by, nat_le, filter, IfSome, vec_len, vec_capacity};
ghost use Rattle.std.specs.VecDeque.{deque_len, deque_capacity};
ghost use Rattle.std.specs.List.{position};
ghost use Rattle.efi_book.specs.Owners.{is_users, same_owner, proto_number};
ghost use Rattle.efi_book.specs.Pendings.{is_of, is_at, is_childs, is_token, is_kind, picks, picks_not, to_users, to_uppers, users_of, uppers_of};

use efi_base::{ChildId, End, Owner, Proto, Ticket, TokenId};
use std::collections::VecDeque;

/// How many tokens of callers may be pending on one child.
pub const TOKENS: usize = 64;

/// A token that has not ended.
#[derive(Drop)]
pub struct Pending<T> {
    pub ticket: Ticket,
    pub child: ChildId,
    pub owner: Owner,
    pub work: T,
}

/// A caller's token that has ended.
#[derive(Drop)]
pub struct Done<T> {
    pub ticket: Ticket,
    pub child: ChildId,
    pub token: TokenId,
    pub end: End,
    pub work: T,
}

/// A token of the driver above that has ended: that driver, and its ticket that waits.
#[derive(Drop)]
pub struct Raised<T> {
    pub ticket: Ticket,
    pub child: ChildId,
    pub proto: Proto,
    pub waits: Ticket,
    pub end: End,
    pub work: T,
}

/// Work that comes in kinds, as transmit and receive.
pub trait Kinded {
    ghost kind_of: { Self → ℕ };

    fn kind(&self) -> u32
        ensures { result ≡ kind_of self.now };
}

// Which pending tokens an abort ends.
#[derive(Clone, Copy)]
pub enum Whose {
    Child(ChildId),
    Owner(Owner),
}

fn number_of(proto: Proto) -> u8
    ensures { result ≡ proto_number proto }
{
    match proto {
        Proto::Mnp => 1,
        Proto::Arp => 2,
        Proto::Ip4 => 3,
        Proto::Udp4 => 4,
        Proto::Tcp4 => 5,
        Proto::Dhcp4 => 6,
        Proto::Dns4 => 7,
        Proto::Mtftp4 => 8,
        Proto::Http => 9,
        Proto::Boot => 10,
    }
}

fn is_same_owner(a: &Owner, b: &Owner) -> bool
    ensures { result ≡ same_owner a.now b.now }
{
    match a {
        Owner::User(t) => match b {
            Owner::User(u) => *t == *u,
            Owner::Upper(_, _) => false,
        },
        Owner::Upper(p, t) => match b {
            Owner::User(_) => false,
            Owner::Upper(q, u) => number_of(*p) == number_of(*q) && *t == *u,
        },
    }
}

fn is_users_own(owner: &Owner, token: TokenId) -> bool
    ensures { result ≡ is_users owner.now token }
{
    match owner {
        Owner::User(t) => *t == token,
        Owner::Upper(_, _) => false,
    }
}

fn is_picked<T>(whose: &Whose, p: &Pending<T>) -> bool
    ensures { result ≡ picks whose.now p.now }
{
    match whose {
        Whose::Child(c) => p.child == *c,
        Whose::Owner(o) => is_same_owner(&p.owner, o),
    }
}

// Where the token stands.
pub fn index_of<T>(pending: &[Pending<T>], ticket: Ticket) -> Option<usize>
    ensures place { result ≡ position (is_at ticket) pending.now }
    ensures within { IfSome result (λ k. k < length pending.now) }
{
    pending.iter().position(|p| p.ticket == ticket)
}

// Where the child's token with this ticket stands.
pub fn index_of_childs<T>(pending: &[Pending<T>], child: ChildId, ticket: Ticket) -> Option<usize>
    ensures place { result ≡ position (is_childs child ticket) pending.now }
    ensures within { IfSome result (λ k. k < length pending.now) }
{
    pending
        .iter()
        .position(|p| p.child == child && p.ticket == ticket)
}

// Where the child's token of a caller stands.
pub fn index_of_token<T>(pending: &[Pending<T>], child: ChildId, token: TokenId) -> Option<usize>
    ensures place { result ≡ position (is_token child token) pending.now }
    ensures within { IfSome result (λ k. k < length pending.now) }
{
    pending
        .iter()
        .position(|p| p.child == child && is_users_own(&p.owner, token))
}

// Where the child's oldest token stands.
pub fn index_of_oldest<T>(pending: &[Pending<T>], child: ChildId) -> Option<usize>
    ensures place { result ≡ position (is_of child) pending.now }
    ensures within { IfSome result (λ k. k < length pending.now) }
{
    pending.iter().position(|p| p.child == child)
}

// Where the child's oldest token of a kind stands.
pub fn index_of_kind<T: Kinded>(pending: &[Pending<T>], child: ChildId, kind: u32) -> Option<usize>
    ensures place { result ≡ position (is_kind T.kind_of child kind) pending.now }
    ensures within { IfSome result (λ k. k < length pending.now) }
{
    pending
        .iter()
        .position(|p| p.child == child && p.work.kind() == kind)
}

// How many tokens of the child are pending.
fn count_of<T>(pending: &[Pending<T>], child: ChildId) -> usize
    ensures { result ≡ count_by (is_of child) pending.now }
{
    pending.iter().filter(|p| p.child == child).count()
}

// Whether as many tokens of the child are pending as may be. They aren't counted where all children together have fewer.
pub fn is_full<T>(pending: &[Pending<T>], child: ChildId) -> bool
    ensures { result ≡ nat_le 64 (count_by (is_of child) pending.now) }
{
    pending.len() >= TOKENS && count_of(pending, child) >= TOKENS
}

// A token that ends goes to its exit: the callers', or that of the driver above.
pub fn leave<T: Drop>(
    done: &mut VecDeque<Done<T>>,
    ups: &mut VecDeque<Raised<T>>,
    p: Pending<T>,
    end: End,
)
    requires done { deque_len done.old < deque_capacity done.old }
    requires ups { deque_len ups.old < deque_capacity ups.old }
    ensures done { done.new.items ≡ done.old.items ++ to_users p end }
    ensures ups { ups.new.items ≡ ups.old.items ++ to_uppers p end }
    ensures done_len { deque_len done.new ≤ deque_len done.old + 1 }
    ensures ups_len { deque_len ups.new ≤ deque_len ups.old + 1 }
    ensures done_room { deque_capacity done.new ≡ deque_capacity done.old }
    ensures ups_room { deque_capacity ups.new ≡ deque_capacity ups.old }
{
    let Pending {
        ticket,
        child,
        owner,
        work,
    } = p;
    match owner {
        Owner::User(token) => {
            done.push_back_reserved(Done {
                ticket,
                child,
                token,
                end,
                work,
            });
        }
        Owner::Upper(proto, waits) => {
            ups.push_back_reserved(Raised {
                ticket,
                child,
                proto,
                waits,
                end,
                work,
            });
        }
    }
}

// Every token that is picked ends as aborted, in the order in which they stand.
pub fn abort_of<T: Drop>(
    pending: &mut Vec<Pending<T>>,
    done: &mut VecDeque<Done<T>>,
    ups: &mut VecDeque<Raised<T>>,
    whose: Whose,
)
    requires done { vec_len pending.old + deque_len done.old ≤ deque_capacity done.old }
    requires ups { vec_len pending.old + deque_len ups.old ≤ deque_capacity ups.old }
    ensures pending { pending.new.items ≡ filter (picks_not whose) pending.old.items }
    ensures done { done.new.items ≡ done.old.items ++ users_of (filter (picks whose) pending.old.items) }
    ensures ups { ups.new.items ≡ ups.old.items ++ uppers_of (filter (picks whose) pending.old.items) }
    ensures pending_len { vec_len pending.new ≤ vec_len pending.old }
    ensures pending_room { vec_capacity pending.new ≡ vec_capacity pending.old }
    ensures done_len { vec_len pending.new + deque_len done.new ≤ vec_len pending.old + deque_len done.old }
    ensures ups_len { vec_len pending.new + deque_len ups.new ≤ vec_len pending.old + deque_len ups.old }
    ensures done_room { deque_capacity done.new ≡ deque_capacity done.old }
    ensures ups_room { deque_capacity ups.new ≡ deque_capacity ups.old }
{
    let mut i = 0;
    while i < pending.len() {
        if is_picked(&whose, &pending[i]) {
            let p = pending.remove(i);
            leave(done, ups, p, End::Aborted);
        } else {
            i += 1;
        }
    }
}
