//! Which children hear a frame, and what it does to their tokens. What a frame carries isn't looked at here.
ghost use Rattle.std.specs.Prelude.{◌≡◌, [], ◌∷◌, true, OnOk, OnErr, filter};
ghost use Rattle.std.specs.List.{list_any};
ghost use Rattle.wire_link.specs.Seen.{frame_seen};
ghost use Rattle.efi_book.specs.Books.{Keeps};
ghost use Rattle.drv_mnp.specs.Hearing.{all_given, any_hears, given, hearers, is_for, passes, takes};

use crate::work::{Mnp, MnpCfg, MnpWork, RECEIVE};
use efi_base::{Bytes, ChildId, End, Mac, NoMemory};
use efi_book::{Book, Child, Children};
use efi_link::{is_everyone, is_multicast, is_same};
use std::alloc::Global;
use wire_link::Ether;

/// A frame that came to the station of this address.
#[derive(Clone, Copy)]
pub(crate) struct Arrival<'a> {
    pub mac: Mac,
    pub ether: Ether<'a>,
    /// All of its octets.
    pub octets: &'a [u8],
}

fn takes(mac: Mac, cfg: &MnpCfg, dest: Mac) -> bool
    ensures { result ≡ takes mac.0 cfg.now dest.0 }
{
    (cfg.unicast && is_same(mac, dest))
        || (cfg.multicast && is_multicast(dest))
        || (cfg.broadcast && is_everyone(dest))
        || cfg.promiscuous
}

/// Whether a child with this configuration hears the frame.
fn passes(a: &Arrival<'_>, cfg: &Option<MnpCfg>) -> bool
    ensures { result ≡ passes a.now.mac.0 (frame_seen a.now.ether) cfg.now }
{
    match cfg {
        Some(cfg) => {
            (cfg.proto == 0 || cfg.proto == a.ether.proto) && takes(a.mac, cfg, a.ether.dest)
        }
        None => false,
    }
}

/// The child's oldest receive token ends with the frame. Memory is taken only where there is one.
fn give(
    tokens: &mut Book<MnpWork>,
    alloc: Global,
    octets: &[u8],
    child: &Child<Option<MnpCfg>>,
) -> Result<(), NoMemory>
    ensures ok { OnOk result (tokens.new ≡ given octets.now child.now tokens.old) }
    ensures keeps { Keeps tokens.old tokens.new }
{
    let Some(ticket) = tokens.oldest_kind(ChildId(child.serial), RECEIVE) else {
        return Ok(());
    };
    let frame = Bytes::copy_of(alloc, octets)?;
    tokens.complete_with(ticket, End::Success, MnpWork::Receive(Some(frame)));
    Ok(())
}

/// The child gets the frame where it hears it.
fn offer(
    tokens: &mut Book<MnpWork>,
    alloc: Global,
    a: &Arrival<'_>,
    child: &Child<Option<MnpCfg>>,
) -> Result<(), NoMemory>
    ensures ok { OnOk result (tokens.new ≡ all_given a.now.octets.now (filter (is_for a.now.mac.0 (frame_seen a.now.ether)) (child.now ∷ [])) tokens.old) }
    ensures free { OnErr result (is_for a.now.mac.0 (frame_seen a.now.ether) child.now ≡ true) }
    ensures keeps { Keeps tokens.old tokens.new }
{
    if !passes(a, &child.value) {
        return Ok(());
    }
    give(tokens, alloc, a.octets, child)
}

/// Each of the callers' children that hears the frame gets it.
fn give_callers(
    children: &Children<Mnp, Option<MnpCfg>>,
    tokens: &mut Book<MnpWork>,
    alloc: Global,
    a: &Arrival<'_>,
) -> Result<(), NoMemory>
    ensures ok { OnOk result (tokens.new ≡ all_given a.now.octets.now (filter (is_for a.now.mac.0 (frame_seen a.now.ether)) children.now.live) tokens.old) }
    ensures free { OnErr result (list_any (is_for a.now.mac.0 (frame_seen a.now.ether)) children.now.live ≡ true) }
    ensures keeps { Keeps tokens.old tokens.new }
{
    for i in 0..children.len() {
        offer(tokens, alloc, a, children.at(i))?;
    }
    Ok(())
}

/// Each of the stack's own children that hears the frame gets it.
fn give_own(
    children: &Children<Mnp, Option<MnpCfg>>,
    tokens: &mut Book<MnpWork>,
    alloc: Global,
    a: &Arrival<'_>,
) -> Result<(), NoMemory>
    ensures ok { OnOk result (tokens.new ≡ all_given a.now.octets.now (filter (is_for a.now.mac.0 (frame_seen a.now.ether)) children.now.own) tokens.old) }
    ensures free { OnErr result (list_any (is_for a.now.mac.0 (frame_seen a.now.ether)) children.now.own ≡ true) }
    ensures keeps { Keeps tokens.old tokens.new }
{
    for i in 0..children.own_len() {
        offer(tokens, alloc, a, children.own_at(i))?;
    }
    Ok(())
}

/// Each child that hears the frame gets it.
pub(crate) fn give_all(
    children: &Children<Mnp, Option<MnpCfg>>,
    tokens: &mut Book<MnpWork>,
    alloc: Global,
    a: &Arrival<'_>,
) -> Result<(), NoMemory>
    ensures ok { OnOk result (tokens.new ≡ all_given a.now.octets.now (hearers a.now.mac.0 (frame_seen a.now.ether) children.now) tokens.old) }
    ensures free { OnErr result (any_hears a.now.mac.0 (frame_seen a.now.ether) children.now ≡ true) }
    ensures keeps { Keeps tokens.old tokens.new }
{
    give_callers(children, tokens, alloc, a)?;
    give_own(children, tokens, alloc, a)
}
