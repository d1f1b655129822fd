//! Tokens that end with time, and with the default address. When it is time isn't here.
ghost use Rattle.std.specs.Prelude.{◌≡◌, ◌<◌, length, IfSome};
ghost use Rattle.std.specs.List.{list_any, position};
ghost use Rattle.efi_base.specs.declared.tokens.End.TheVariants.{NoMapping, ReceiveTimeout};
ghost use Rattle.efi_book.specs.Books.{Keeps, ticket_of};
ghost use Rattle.efi_book.specs.Firsts.{first_by};
ghost use Rattle.efi_book.specs.Rounds.{all_ended};
ghost use Rattle.drv_udp4.specs.Ticks.{is_due, is_until, later_than, least, next_of_all};
ghost use Rattle.drv_udp4.specs.Udps.{is_homeless, is_homeless_child, uses_home};

use crate::ports::UdpChildren;
use crate::work::{Ask, UdpCfg};
use efi_base::{End, Tick, Ticket};
use efi_book::{Book, Child, Pending};

/// Whether the token ends at a moment.
fn is_due(m: Tick, p: &Pending<Ask>) -> bool
    ensures { result ≡ is_due m.0 p.now }
{
    match p.work.until {
        Some(t) => t.0 == m.0,
        None => false,
    }
}

/// Where the oldest token stands that ends at a moment.
fn place_due(pending: &[Pending<Ask>], m: Tick) -> Option<usize>
    ensures place { result ≡ position (is_due m.0) pending.now }
    ensures within { IfSome result (λ k. k < length pending.now) }
{
    pending.iter().position(|p| is_due(m, p))
}

fn first_due(pending: &[Pending<Ask>], m: Tick) -> Option<Ticket>
    ensures { result ≡ ticket_of (first_by (is_due m.0) pending.now) }
{
    let i = place_due(pending, m)?;
    Some(pending[i].ticket)
}

/// The tokens that end at a moment do, the oldest first. It takes no memory.
pub(crate) fn end_due(tokens: &mut Book<Ask>, m: Tick)
    ensures after { tokens.new ≡ all_ended (is_due m.0) ReceiveTimeout tokens.old }
    ensures keeps { Keeps tokens.old tokens.new }
{
    let mut left = tokens.pending().len();
    while left > 0 {
        let Some(t) = first_due(tokens.pending(), m) else {
            return;
        };
        tokens.complete(t, End::ReceiveTimeout);
        left -= 1;
    }
}

/// Whether the child uses the default address, and has this serial.
fn is_homeless(serial: u64, child: &Child<Option<UdpCfg>>) -> bool
    ensures { result ≡ is_homeless_child serial child.now }
{
    if child.serial != serial {
        return false;
    }
    match &child.value {
        Some(c) => c.at.is_none(),
        None => false,
    }
}

fn callers_homeless(children: &UdpChildren, serial: u64) -> bool
    ensures { result ≡ list_any (is_homeless_child serial) children.now.live }
{
    for i in 0..children.len() {
        if is_homeless(serial, children.at(i)) {
            return true;
        }
    }
    false
}

fn own_homeless(children: &UdpChildren, serial: u64) -> bool
    ensures { result ≡ list_any (is_homeless_child serial) children.now.own }
{
    for i in 0..children.own_len() {
        if is_homeless(serial, children.own_at(i)) {
            return true;
        }
    }
    false
}

/// Whether the token is of a child that uses the default address.
#[tactic(auto, using(crate::proofs::Steps::any_joined))]
fn uses_home(children: &UdpChildren, p: &Pending<Ask>) -> bool
    ensures { result ≡ uses_home children.now p.now }
{
    callers_homeless(children, p.child.0) || own_homeless(children, p.child.0)
}

/// Where the oldest token stands of a child that uses the default address.
fn place_homeless(children: &UdpChildren, pending: &[Pending<Ask>]) -> Option<usize>
    ensures place { result ≡ position (uses_home children.now) pending.now }
    ensures within { IfSome result (λ k. k < length pending.now) }
{
    pending.iter().position(|p| uses_home(children, p))
}

fn first_homeless(children: &UdpChildren, pending: &[Pending<Ask>]) -> Option<Ticket>
    ensures { result ≡ ticket_of (first_by (uses_home children.now) pending.now) }
{
    let i = place_homeless(children, pending)?;
    Some(pending[i].ticket)
}

/// The tokens of children that use the default address end, the oldest first. It takes no memory.
pub(crate) fn end_homeless(children: &UdpChildren, tokens: &mut Book<Ask>)
    ensures after { tokens.new ≡ all_ended (uses_home children.now) NoMapping tokens.old }
    ensures keeps { Keeps tokens.old tokens.new }
{
    let mut left = tokens.pending().len();
    while left > 0 {
        let Some(t) = first_homeless(children, tokens.pending()) else {
            return;
        };
        tokens.complete(t, End::NoMapping);
        left -= 1;
    }
}

/// The lesser of two moments.
fn least_of(a: Option<u64>, b: Option<u64>) -> Option<u64>
    ensures { result ≡ least a b }
{
    match a {
        Some(x) => match b {
            Some(y) => Some(x.min(y)),
            None => Some(x),
        },
        None => b,
    }
}

/// A moment, where it comes after another.
fn later(moment: Tick, until: Option<Tick>) -> Option<u64>
    ensures { result ≡ later_than moment.0 until }
{
    match until {
        Some(t) => {
            if moment.0 < t.0 {
                return Some(t.0);
            }
            None
        }
        None => None,
    }
}

/// The first moment after this one at which one of these tokens ends.
pub(crate) fn next_after(moment: Tick, pending: &[Pending<Ask>]) -> Option<u64>
    ensures { result ≡ next_of_all moment.0 pending.now }
{
    let mut best = None;
    for p in pending {
        best = least_of(best, later(moment, p.work.until));
    }
    best
}
