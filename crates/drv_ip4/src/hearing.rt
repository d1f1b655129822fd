//! Which children hear a datagram, and what it does to their tokens. How a datagram is made whole isn't here.
ghost use Rattle.std.specs.Prelude.{◌≡◌, [], ◌∷◌, OnOk, IfOk, filter};
ghost use Rattle.efi_book.specs.Books.{Keeps};
ghost use Rattle.drv_ip4.specs.Hearing.{all_given, given, hearers, is_for, is_to, passes};

use crate::net::{address_used, is_everyones};
use crate::work::{Ip4K, IpCfg, IpWork, RECEIVE};
use efi_base::{Addr, Bytes, ChildId, End, Ip4, IpPacket, NoMemory};
use efi_book::{Book, Child, Children};
use std::alloc::Global;

/// Whether the destination is the child's address or a broadcast in its network.
fn is_to(own: Option<Addr>, dest: Ip4) -> bool
    ensures { result ≡ is_to own dest.0 }
{
    match own {
        Some(own) => dest.0 == own.ip.0 || is_everyones(own, dest),
        None => false,
    }
}

/// Whether a child with this configuration hears the datagram.
fn passes(home: Option<Addr>, d: &IpPacket, cfg: &Option<IpCfg>) -> bool
    ensures { result ≡ passes home d.now cfg.now }
{
    match cfg {
        Some(cfg) => {
            (cfg.any || cfg.proto == d.proto) && is_to(address_used(home, *cfg), d.dest)
        }
        None => false,
    }
}

/// The datagram once more.
fn copy_of(alloc: Global, d: &IpPacket) -> Result<IpPacket, NoMemory>
    ensures { IfOk result (λ copy. copy ≡ d.now) }
{
    let payload = Bytes::copy_of(alloc, d.payload.as_slice())?;
    Ok(IpPacket {
        src: d.src,
        dest: d.dest,
        proto: d.proto,
        payload,
    })
}

/// The child's oldest receive token ends with the datagram. Memory is taken only where there is one.
fn give(
    tokens: &mut Book<IpWork>,
    alloc: Global,
    d: &IpPacket,
    child: &Child<Option<IpCfg>>,
) -> Result<(), NoMemory>
    ensures ok { OnOk result (tokens.new ≡ given d.now child.now tokens.old) }
    ensures keeps { Keeps tokens.old tokens.new }
{
    let Some(ticket) = tokens.oldest_kind(ChildId(child.serial), RECEIVE) else {
        return Ok(());
    };
    let copy = copy_of(alloc, d)?;
    tokens.complete_with(ticket, End::Success, IpWork::Receive(Some(copy)));
    Ok(())
}

/// The child gets the datagram where it hears it.
fn offer(
    tokens: &mut Book<IpWork>,
    alloc: Global,
    home: Option<Addr>,
    d: &IpPacket,
    child: &Child<Option<IpCfg>>,
) -> Result<(), NoMemory>
    ensures ok { OnOk result (tokens.new ≡ all_given d.now (filter (is_for home d.now) (child.now ∷ [])) tokens.old) }
    ensures keeps { Keeps tokens.old tokens.new }
{
    if !passes(home, d, &child.value) {
        return Ok(());
    }
    give(tokens, alloc, d, child)
}

/// Each of the callers' children that hears the datagram gets it.
fn give_callers(
    children: &Children<Ip4K, Option<IpCfg>>,
    tokens: &mut Book<IpWork>,
    alloc: Global,
    home: Option<Addr>,
    d: &IpPacket,
) -> Result<(), NoMemory>
    ensures ok { OnOk result (tokens.new ≡ all_given d.now (filter (is_for home d.now) children.now.live) tokens.old) }
    ensures keeps { Keeps tokens.old tokens.new }
{
    for i in 0..children.len() {
        offer(tokens, alloc, home, d, children.at(i))?;
    }
    Ok(())
}

/// Each of the stack's own children that hears the datagram gets it.
fn give_own(
    children: &Children<Ip4K, Option<IpCfg>>,
    tokens: &mut Book<IpWork>,
    alloc: Global,
    home: Option<Addr>,
    d: &IpPacket,
) -> Result<(), NoMemory>
    ensures ok { OnOk result (tokens.new ≡ all_given d.now (filter (is_for home d.now) children.now.own) tokens.old) }
    ensures keeps { Keeps tokens.old tokens.new }
{
    for i in 0..children.own_len() {
        offer(tokens, alloc, home, d, children.own_at(i))?;
    }
    Ok(())
}

/// Each child that hears the datagram gets it, where this is the default address.
pub(crate) fn give_all(
    children: &Children<Ip4K, Option<IpCfg>>,
    tokens: &mut Book<IpWork>,
    alloc: Global,
    home: Option<Addr>,
    d: &IpPacket,
) -> Result<(), NoMemory>
    ensures ok { OnOk result (tokens.new ≡ all_given d.now (hearers home d.now children.now) tokens.old) }
    ensures keeps { Keeps tokens.old tokens.new }
{
    give_callers(children, tokens, alloc, home, d)?;
    give_own(children, tokens, alloc, home, d)
}
