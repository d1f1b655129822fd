//! Which children hear a datagram, and what it does to their tokens. Which octets are a datagram isn't here.
ghost use Rattle.std.specs.Prelude.{◌≡◌, [], ◌∷◌, true, OnOk, OnErr, filter, IfOk};
ghost use Rattle.std.specs.List.{list_any};
ghost use Rattle.efi_book.specs.Books.{Keeps};
ghost use Rattle.drv_udp4.specs.Hearing.{all_given, any_hears, arrival_seen, given, got as got_of, hearers, hears, is_for, passes};

use crate::networks::{address_of, is_peer, is_to};
use crate::ports::UdpChildren;
use crate::work::{Ask, RECEIVE, UdpCfg, UdpWork};
use efi_base::{Addr, Bytes, ChildId, Datagram, End, Ip4, NoMemory};
use efi_book::{Book, Child};
use std::alloc::Global;
use wire_l4::Udp;

/// A datagram that came, where the default address is this.
#[derive(Clone, Copy)]
pub(crate) struct Arrival<'a> {
    pub home: Option<Addr>,
    pub src: Ip4,
    pub dest: Ip4,
    pub udp: Udp<'a>,
}

fn hears(a: &Arrival<'_>, cfg: &UdpCfg) -> bool
    ensures { result ≡ hears (arrival_seen a.now) cfg.now }
{
    (is_to(address_of(a.home, cfg), cfg.broadcast, a.dest) && cfg.port == a.udp.dport)
        && is_peer(cfg.peer, a.src, a.udp.sport)
}

/// Whether a child with this configuration hears the datagram.
fn passes(a: &Arrival<'_>, cfg: &Option<UdpCfg>) -> bool
    ensures { result ≡ passes (arrival_seen a.now) cfg.now }
{
    match cfg {
        Some(cfg) => hears(a, cfg),
        None => false,
    }
}

/// What a receive token that got the datagram comes back with.
fn got(alloc: Global, a: &Arrival<'_>) -> Result<Ask, NoMemory>
    ensures { IfOk result (λ ask. ask ≡ got_of (arrival_seen a.now)) }
{
    let payload = Bytes::copy_of(alloc, a.udp.payload)?;
    Ok(Ask {
        work: UdpWork::Receive(Some(Datagram {
            src: a.src,
            sport: a.udp.sport,
            dest: a.dest,
            payload,
        })),
        until: None,
    })
}

/// The child's oldest receive token ends with the datagram. Memory is taken only where there is one.
fn give(
    tokens: &mut Book<Ask>,
    alloc: Global,
    a: &Arrival<'_>,
    child: &Child<Option<UdpCfg>>,
) -> Result<(), NoMemory>
    ensures ok { OnOk result (tokens.new ≡ given (arrival_seen a.now) child.now tokens.old) }
    ensures keeps { Keeps tokens.old tokens.new }
{
    let Some(ticket) = tokens.oldest_kind(ChildId(child.serial), RECEIVE) else {
        return Ok(());
    };
    let ask = got(alloc, a)?;
    tokens.complete_with(ticket, End::Success, ask);
    Ok(())
}

/// The child gets the datagram where it hears it.
fn offer(
    tokens: &mut Book<Ask>,
    alloc: Global,
    a: &Arrival<'_>,
    child: &Child<Option<UdpCfg>>,
) -> Result<(), NoMemory>
    ensures ok { OnOk result (tokens.new ≡ all_given (arrival_seen a.now) (filter (is_for (arrival_seen a.now)) (child.now ∷ [])) tokens.old) }
    ensures free { OnErr result (is_for (arrival_seen a.now) child.now ≡ true) }
    ensures keeps { Keeps tokens.old tokens.new }
{
    if !passes(a, &child.value) {
        return Ok(());
    }
    give(tokens, alloc, a, child)
}

/// Each of the callers' children that hears the datagram gets it.
fn give_callers(
    children: &UdpChildren,
    tokens: &mut Book<Ask>,
    alloc: Global,
    a: &Arrival<'_>,
) -> Result<(), NoMemory>
    ensures ok { OnOk result (tokens.new ≡ all_given (arrival_seen a.now) (filter (is_for (arrival_seen a.now)) children.now.live) tokens.old) }
    ensures free { OnErr result (list_any (is_for (arrival_seen a.now)) children.now.live ≡ true) }
    ensures keeps { Keeps tokens.old tokens.new }
{
    for i in 0..children.len() {
        offer(tokens, alloc, a, children.at(i))?;
    }
    Ok(())
}

/// Each of the stack's own children that hears the datagram gets it.
fn give_own(
    children: &UdpChildren,
    tokens: &mut Book<Ask>,
    alloc: Global,
    a: &Arrival<'_>,
) -> Result<(), NoMemory>
    ensures ok { OnOk result (tokens.new ≡ all_given (arrival_seen a.now) (filter (is_for (arrival_seen a.now)) children.now.own) tokens.old) }
    ensures free { OnErr result (list_any (is_for (arrival_seen a.now)) children.now.own ≡ true) }
    ensures keeps { Keeps tokens.old tokens.new }
{
    for i in 0..children.own_len() {
        offer(tokens, alloc, a, children.own_at(i))?;
    }
    Ok(())
}

/// Each child that hears the datagram gets it.
pub(crate) fn give_all(
    children: &UdpChildren,
    tokens: &mut Book<Ask>,
    alloc: Global,
    a: &Arrival<'_>,
) -> Result<(), NoMemory>
    ensures ok { OnOk result (tokens.new ≡ all_given (arrival_seen a.now) (hearers (arrival_seen a.now) children.now) tokens.old) }
    ensures free { OnErr result (any_hears (arrival_seen a.now) children.now ≡ true) }
    ensures keeps { Keeps tokens.old tokens.new }
{
    give_callers(children, tokens, alloc, a)?;
    give_own(children, tokens, alloc, a)
}

/// Whether a caller's child hears the datagram.
fn callers_hear(children: &UdpChildren, a: &Arrival<'_>) -> bool
    ensures { result ≡ list_any (is_for (arrival_seen a.now)) children.now.live }
{
    for i in 0..children.len() {
        if passes(a, &children.at(i).value) {
            return true;
        }
    }
    false
}

/// Whether one of the stack's own children hears the datagram.
fn own_hear(children: &UdpChildren, a: &Arrival<'_>) -> bool
    ensures { result ≡ list_any (is_for (arrival_seen a.now)) children.now.own }
{
    for i in 0..children.own_len() {
        if passes(a, &children.own_at(i).value) {
            return true;
        }
    }
    false
}

/// Whether some child hears the datagram.
#[tactic(auto, using(crate::proofs::Steps::any_joined))]
pub(crate) fn any_hears(children: &UdpChildren, a: &Arrival<'_>) -> bool
    ensures { result ≡ any_hears (arrival_seen a.now) children.now }
{
    callers_hear(children, a) || own_hear(children, a)
}
