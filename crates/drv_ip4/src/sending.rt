//! What is handed down, and why a datagram isn't. Tokens and children aren't here.
ghost use Rattle.std.specs.Prelude.{◌≡◌, ◌+◌, None, Some, IfOk, IfErr, OnOk, OnErr, is_some};
ghost use Rattle.efi_base.specs.declared.tokens.Owner.{Owner as OwnerValue};
ghost use Rattle.efi_base.specs.declared.refuse.Refuse.TheVariants.{OutOfResources};
ghost use Rattle.efi_book.specs.Books.{times};
ghost use Rattle.efi_book.specs.Cores.{post_refusal as core_post_refusal, posted};
ghost use Rattle.efi_book.specs.Drives.{drive};
ghost use Rattle.efi_book.specs.Owners.{gained};
ghost use Rattle.drv_ip4.specs.declared.work.IpWork.TheVariants.{Transmit};
ghost use Rattle.drv_ip4.specs.Works.{tx_fault};
ghost use Rattle.drv_ip4.specs.Sendings.{answer_counted, answered_down, counted, down, draft_of, hop_from, sending_of, ticket_at, tx_refusal, waiting, work_refusal};

use crate::net::{Net, address_used, is_everyones};
use crate::work::{Hop, Ip4K, IpCfg, IpTx, IpWork, Sending};
use efi_base::{
    Addr, Bytes, Field, Ip4, NoMemory, Owner, Proto, Refuse, Refused, Ticket, is_broadcast,
    is_unicast,
};
use efi_book::{Core, Handle};
use std::alloc::Global;

/// What the driver is made of.
pub(crate) type IpCore = Core<Ip4K, IpCfg, IpWork, Sending>;

/// The octets of the longest payload: 65,535 less the 20 of the header.
pub(crate) const MOST_PAYLOAD: usize = 65_515;

/// The octets of the longest payload that goes in one packet: 1,500 less the 20 of the header.
const MOST_WHOLE: usize = 1_480;

/// How many routers a datagram of the station itself may pass, plus one.
pub(crate) const TTL: u8 = 64;

/// A datagram before it is known to whom it goes.
#[derive(Drop)]
pub(crate) struct Letter {
    pub waits: Option<(Proto, Ticket)>,
    pub src: Ip4,
    pub dest: Ip4,
    pub proto: u8,
    pub ttl: u8,
    pub df: bool,
    pub payload: Bytes,
}

/// The datagram to this hop, under this identification.
fn sending_of(l: Letter, hop: Hop, id: u16) -> Sending
    ensures { result ≡ sending_of l hop id }
{
    Sending {
        waits: l.waits,
        hop,
        src: l.src,
        dest: l.dest,
        proto: l.proto,
        ttl: l.ttl,
        df: l.df,
        id,
        payload: l.payload,
    }
}

/// Puts a datagram behind the others, or drops it where there is no hop.
pub(crate) fn put_down(
    core: &mut IpCore,
    net: &mut Net,
    hop: Option<Hop>,
    l: Letter,
) -> Result<bool, NoMemory>
    ensures ok { IfOk result (λ b. (b ≡ is_some hop) × (drive core.new ≡ down (drive core.old) hop l net.old.next) × (net.new ≡ counted net.old hop)) }
    ensures err { OnErr result ((drive core.new ≡ drive core.old) × (net.new ≡ net.old)) }
    ensures keeps { (drive core.new).tokens ≡ (drive core.old).tokens }
{
    let Some(hop) = hop else {
        return Ok(false);
    };
    match core.outbox.ask(sending_of(l, hop, net.id())) {
        Ok(()) => {
            net.count();
            Ok(true)
        }
        Err(e) => Err(e),
    }
}

/// To whom a datagram from this address goes.
pub(crate) fn hop_from(net: &Net, own: Addr, dest: Ip4) -> Option<Hop>
    ensures { result ≡ hop_from net.now own dest.0 }
{
    net.hop(is_everyones(own, dest), dest)
}

/// What is wrong with a datagram to send, whatever the addresses and routes.
fn tx_fault(tx: &IpTx) -> Option<Refuse>
    ensures { result ≡ tx_fault tx.now }
{
    if tx.payload.len() > MOST_PAYLOAD {
        return Some(Refuse::BadConfig(Field::Length));
    }
    if tx.df && tx.payload.len() > MOST_WHOLE {
        return Some(Refuse::BadConfig(Field::Length));
    }
    if is_unicast(tx.dest) || is_broadcast(tx.dest) {
        return None;
    }
    Some(Refuse::BadConfig(Field::Address))
}

/// Why a datagram isn't sent from this address.
pub(crate) fn tx_refusal(net: &Net, own: Addr, tx: &IpTx) -> Option<Refuse>
    ensures { result ≡ tx_refusal net.now own tx.now }
{
    if let Some(why) = tx_fault(tx) {
        return Some(why);
    }
    match hop_from(net, own, tx.dest) {
        Some(_) => None,
        None => Some(Refuse::NoRoute),
    }
}

/// Why a child with this configuration can't have this work.
pub(crate) fn work_refusal(net: &Net, cfg: Option<IpCfg>, work: &IpWork) -> Option<Refuse>
    ensures { result ≡ work_refusal net.now cfg work.now }
{
    let Some(cfg) = cfg else {
        return Some(Refuse::NotStarted);
    };
    let Some(own) = address_used(net.home(), cfg) else {
        return Some(Refuse::NoMapping);
    };
    match work {
        IpWork::Transmit(tx) => tx_refusal(net, own, tx),
        IpWork::Receive(_) => None,
    }
}

/// A datagram that a child asks for, from this address, with its payload once more. No token waits for it yet.
fn draft_of(own: Addr, tx: &IpTx, payload: Bytes) -> Letter
    ensures { result ≡ draft_of own tx.now payload }
{
    Letter {
        waits: None,
        src: own.ip,
        dest: tx.dest,
        proto: tx.proto,
        ttl: tx.ttl,
        df: tx.df,
        payload,
    }
}

/// The datagram for which the token of this ticket waits.
fn waiting(l: Letter, ticket: Ticket) -> Letter
    ensures { result ≡ waiting l ticket }
{
    Letter {
        waits: Some((Proto::Ip4, ticket)),
        src: l.src,
        dest: l.dest,
        proto: l.proto,
        ttl: l.ttl,
        df: l.df,
        payload: l.payload,
    }
}

/// Takes a token in that nothing refuses, and puts its datagram to this hop behind the others.
fn accept_with(
    core: &mut IpCore,
    h: Handle<Ip4K>,
    owner: Owner,
    work: IpWork,
    l: Letter,
    hop: Hop,
    id: u16,
) -> Result<Ticket, Refused<IpWork>>
    requires { core_post_refusal (drive core.old) h.key h.serial owner ≡ None }
    ensures answer { IfErr result (λ r. r.why ≡ OutOfResources) }
    ensures ok { IfOk result (λ t. (t.0 ≡ (drive core.old).tokens.next) × (drive core.new ≡ down (posted (drive core.old) h.serial owner work) (Some hop) (waiting l (ticket_at (drive core.old).tokens.next)) id)) }
    ensures err { IfErr result (λ r. (r.work ≡ work) × (drive core.new ≡ drive core.old)) }
    ensures keeps { (o : OwnerValue) → times o (drive core.new).tokens ≡ times o (drive core.old).tokens + gained o owner result }
{
    if core.outbox.take_room().is_err() {
        return Err(Refused {
            why: Refuse::OutOfResources,
            work,
        });
    }
    match core.accept(h, owner, work) {
        Ok(ticket) => {
            core.outbox.put(sending_of(waiting(l, ticket), hop, id));
            Ok(ticket)
        }
        Err(refused) => {
            core.outbox.give_room();
            Err(refused)
        }
    }
}

/// Takes a transmit in that nothing refuses, and hands its datagram down.
pub(crate) fn transmit(
    core: &mut IpCore,
    net: &mut Net,
    alloc: Global,
    h: Handle<Ip4K>,
    owner: Owner,
    own: Addr,
    tx: IpTx,
) -> Result<Ticket, Refused<IpWork>>
    requires book { core_post_refusal (drive core.old) h.key h.serial owner ≡ None }
    requires route { tx_refusal net.old own tx ≡ None }
    ensures answer { IfErr result (λ r. r.why ≡ OutOfResources) }
    ensures ok { IfOk result (λ t. t.0 ≡ (drive core.old).tokens.next) }
    ensures down { OnOk result (drive core.new ≡ down (posted (drive core.old) h.serial owner (Transmit tx)) (hop_from net.old own tx.dest.0) (waiting (draft_of own tx tx.payload) (ticket_at (drive core.old).tokens.next)) net.old.next) }
    ensures counted { OnOk result (net.new ≡ counted net.old (hop_from net.old own tx.dest.0)) }
    ensures err { IfErr result (λ r. (r.work ≡ Transmit tx) × (drive core.new ≡ drive core.old) × (net.new ≡ net.old)) }
    ensures keeps { (o : OwnerValue) → times o (drive core.new).tokens ≡ times o (drive core.old).tokens + gained o owner result }
{
    let hop = hop_to(net, own, &tx);
    let Ok(payload) = Bytes::copy_of(alloc, tx.payload.as_slice()) else {
        return Err(Refused {
            why: Refuse::OutOfResources,
            work: IpWork::Transmit(tx),
        });
    };
    let l = draft_of(own, &tx, payload);
    let id = net.id();
    match accept_with(core, h, owner, IpWork::Transmit(tx), l, hop, id) {
        Ok(ticket) => {
            net.count();
            Ok(ticket)
        }
        Err(refused) => Err(refused),
    }
}

/// To whom a datagram goes that nothing refuses.
fn hop_to(net: &Net, own: Addr, tx: &IpTx) -> Hop
    requires { tx_refusal net.now own tx.now ≡ None }
    ensures { hop_from net.now own tx.now.dest.0 ≡ Some result }
{
    hop_from(net, own, tx.dest).unwrap()
}

/// Puts an answer behind the others where there is one; it is dropped where no route matches.
pub(crate) fn put_answer(
    core: &mut IpCore,
    net: &mut Net,
    l: Option<Letter>,
) -> Result<(), NoMemory>
    ensures drive { OnOk result (drive core.new ≡ answered_down (drive core.old) net.old l) }
    ensures net { OnOk result (net.new ≡ answer_counted net.old l) }
    ensures err { OnErr result ((drive core.new ≡ drive core.old) × (net.new ≡ net.old)) }
    ensures keeps { (drive core.new).tokens ≡ (drive core.old).tokens }
{
    let Some(l) = l else {
        return Ok(());
    };
    let hop = net.hop(is_broadcast(l.dest), l.dest);
    match put_down(core, net, hop, l) {
        Ok(_) => Ok(()),
        Err(e) => Err(e),
    }
}
