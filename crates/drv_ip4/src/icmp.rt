//! Answers by ICMP (RFC 792): echo replies, and what an answer quotes. Which children hear isn't here.
ghost use Rattle.std.specs.Prelude.{◌≡◌, ◌%◌, ◌≤◌, None, IfOk, length, replicate, take};
ghost use Rattle.std.specs.Option.{option_map};
ghost use Rattle.wire_ip4.specs.Message.{message_of, message_text};
ghost use Rattle.wire_ip4.specs.Seen.{message_seen, packet_seen};
ghost use Rattle.ip_core.specs.Bytes.{bytes_kept};
ghost use Rattle.ip_core.specs.Pools.{after_packet, datagram_at};
ghost use Rattle.ip_core.specs.Seen.{whole_seen};
ghost use Rattle.drv_ip4.specs.Icmps.{answer_to, heard_of, quote_text, quoted_packet, reply_by, unreachable_text, unreachable_to};
ghost use Rattle.drv_ip4.specs.Sendings.{mail};
ghost use Rattle.wire_ip4.specs.Packet.{packet_text};

use crate::net::Net;
use crate::sending::{Letter, MOST_PAYLOAD, TTL};
use efi_base::{Bytes, Ip4, IpPacket, NoMemory, Tick};
use ip_core::{Reasm, Whole};
use std::alloc::Global;
use wire_ip4::{Icmp, Ip, read_icmp, write_icmp, write_ip};

/// The number of ICMP among the protocols above IPv4.
const ICMP: u8 = 1;

/// The types of an echo request and of its reply.
const REQUEST: u8 = 8;

const REPLY: u8 = 0;

/// The type of a message that a datagram reached nothing, and the code for its port.
const UNREACHABLE: u8 = 3;

const PORT: u8 = 3;

/// The octets of a header without options.
const HEADER: usize = 20;

/// The octets in front of a message's payload.
const FRONT: usize = 8;

/// How many octets of a payload are quoted.
const QUOTED: usize = 8;

/// What an ICMP message quotes of a datagram.
#[derive(Drop)]
pub(crate) struct Quote {
    pub src: Ip4,
    pub dest: Ip4,
    pub proto: u8,
    pub id: u16,
    /// The octets of the whole payload.
    pub size: usize,
    /// The first eight of them, or all.
    pub front: Bytes,
}

/// A datagram that was heard, whole.
#[derive(Drop)]
pub(crate) struct Heard {
    pub packet: IpPacket,
    pub quote: Quote,
}

/// The first octets that a message quotes.
fn front_of(alloc: Global, payload: &[u8]) -> Result<Bytes, NoMemory>
    ensures { IfOk result (λ front. front ≡ take 8 payload.now) }
{
    Bytes::copy_of(alloc, &payload[..QUOTED.min(payload.len())])
}

/// What is kept of a datagram.
fn kept(alloc: Global, w: &Whole<'_>) -> Result<Heard, NoMemory>
    ensures { IfOk result (λ h. h ≡ heard_of (whole_seen w.now)) }
{
    let front = front_of(alloc, w.payload)?;
    let payload = Bytes::copy_of(alloc, w.payload)?;
    Ok(Heard {
        packet: IpPacket {
            src: w.src,
            dest: w.dest,
            proto: w.proto,
            payload,
        },
        quote: Quote {
            src: w.src,
            dest: w.dest,
            proto: w.proto,
            id: w.id,
            size: w.payload.len(),
            front,
        },
    })
}

/// Takes a packet in, and keeps the datagram that exists at it.
pub(crate) fn take_in(
    reasm: &mut Reasm,
    alloc: Global,
    now: Tick,
    p: &Ip<'_>,
) -> Result<Option<Heard>, NoMemory>
    ensures pools { reasm.new ≡ after_packet bytes_kept reasm.old now.0 (packet_seen p.now) }
    ensures ok { IfOk result (λ h. h ≡ option_map heard_of (datagram_at bytes_kept reasm.old now.0 (packet_seen p.now))) }
{
    match reasm.put(now, p) {
        Some(w) => match kept(alloc, &w) {
            Ok(h) => Ok(Some(h)),
            Err(e) => Err(e),
        },
        None => Ok(None),
    }
}

fn zeros(alloc: Global, size: usize) -> Result<Vec<u8>, NoMemory>
    ensures { IfOk result (λ octets. octets.items ≡ replicate size 0) }
{
    match vec![in alloc; 0; size] {
        Ok(octets) => Ok(octets),
        Err(_) => Err(NoMemory),
    }
}

/// The octets of a message.
fn text_of(alloc: Global, m: &Icmp<'_>) -> Result<Bytes, NoMemory>
    ensures { IfOk result (λ text. text ≡ message_text (message_seen m.now)) }
{
    let mut room = zeros(alloc, FRONT + m.payload.len())?;
    // The room is as long as the message.
    write_icmp(m, &mut room).unwrap();
    Ok(Bytes::from_vec(room))
}

/// The reply to what a datagram carries, where that is an echo request.
fn reply_by(alloc: Global, d: &IpPacket) -> Result<Option<Letter>, NoMemory>
    ensures { IfOk result (λ l. l ≡ reply_by d.now (message_of d.now.payload)) }
{
    let Ok(m) = read_icmp(d.payload.as_slice()) else {
        return Ok(None);
    };
    if m.kind != REQUEST || m.code != 0 {
        return Ok(None);
    }
    let reply = Icmp {
        kind: REPLY,
        code: 0,
        rest: m.rest,
        payload: m.payload,
    };
    let payload = text_of(alloc, &reply)?;
    Ok(Some(Letter {
        waits: None,
        src: d.dest,
        dest: d.src,
        proto: ICMP,
        ttl: TTL,
        df: false,
        payload,
    }))
}

/// The answer to a datagram: an echo request to a station address has one.
pub(crate) fn answer_to(net: &Net, alloc: Global, d: &IpPacket) -> Result<Option<Letter>, NoMemory>
    ensures { IfOk result (λ l. l ≡ answer_to net.now d.now) }
{
    if d.proto != ICMP || !net.is_station(d.dest) {
        return Ok(None);
    }
    reply_by(alloc, d)
}

/// The octets of a packet.
fn packet_text_of(alloc: Global, p: &Ip<'_>) -> Result<Vec<u8>, NoMemory>
    requires place { p.now.place % 8 ≡ 0 }
    requires payload { length p.now.payload.now ≤ 65515 }
    ensures { IfOk result (λ text. text.items ≡ packet_text (packet_seen p.now)) }
{
    let mut room = zeros(alloc, HEADER + p.payload.len())?;
    // The room is as long as the packet.
    write_ip(p, &mut room).unwrap();
    Ok(room)
}

/// The first so many of them.
fn cut(octets: Vec<u8>, n: usize) -> Vec<u8>
    ensures { result.items ≡ take n octets.items }
{
    let mut octets = octets;
    octets.truncate(n);
    octets
}

/// A packet with the datagram's header, and zeros for its payload.
fn blank_packet(alloc: Global, q: &Quote) -> Result<Vec<u8>, NoMemory>
    ensures { IfOk result (λ text. text.items ≡ packet_text (quoted_packet q.now)) }
{
    let blank = zeros(alloc, q.size.min(MOST_PAYLOAD))?;
    let p = Ip {
        src: q.src,
        dest: q.dest,
        proto: q.proto,
        id: q.id,
        df: false,
        mf: false,
        place: 0,
        ttl: TTL,
        payload: &blank,
    };
    packet_text_of(alloc, &p)
}

/// The header of the datagram, written anew, and no payload.
fn header_of(alloc: Global, q: &Quote) -> Result<Vec<u8>, NoMemory>
    ensures { IfOk result (λ text. text.items ≡ take 20 (packet_text (quoted_packet q.now))) }
{
    match blank_packet(alloc, q) {
        Ok(packet) => Ok(cut(packet, HEADER)),
        Err(e) => Err(e),
    }
}

/// The header and the first eight octets of the payload.
fn quote_text(alloc: Global, q: &Quote) -> Result<Vec<u8>, NoMemory>
    ensures { IfOk result (λ text. text.items ≡ quote_text q.now) }
{
    let mut text = header_of(alloc, q)?;
    match text.extend_from_slice(q.front.as_slice()) {
        Ok(()) => Ok(text),
        Err(_) => Err(NoMemory),
    }
}

/// The message that the port of a datagram takes none.
fn unreachable_by(alloc: Global, q: &Quote) -> Result<Letter, NoMemory>
    ensures { IfOk result (λ l. l ≡ mail q.now.dest None q.now.src 1 (unreachable_text q.now)) }
{
    let text = quote_text(alloc, q)?;
    let m = Icmp {
        kind: UNREACHABLE,
        code: PORT,
        rest: 0,
        payload: &text,
    };
    let payload = text_of(alloc, &m)?;
    Ok(Letter {
        waits: None,
        src: q.dest,
        dest: q.src,
        proto: ICMP,
        ttl: TTL,
        df: false,
        payload,
    })
}

/// The message that the port of the datagram takes none, where that went to a station address.
pub(crate) fn unreachable_to(
    net: &Net,
    alloc: Global,
    q: &Option<Quote>,
) -> Result<Option<Letter>, NoMemory>
    ensures { IfOk result (λ l. l ≡ unreachable_to net.now q.now) }
{
    let Some(q) = q else {
        return Ok(None);
    };
    if !net.is_station(q.dest) {
        return Ok(None);
    }
    match unreachable_by(alloc, q) {
        Ok(l) => Ok(Some(l)),
        Err(e) => Err(e),
    }
}
