//! What the message that a port took no datagram does (RFC 792, type 3, code 3). Which packets carry it isn't here.
ghost use Rattle.std.specs.Prelude.{◌≡◌, ◌+◌, ◌<◌, ◌≤◌, [], ◌∷◌, filter, length, IsTrue};
ghost use Rattle.efi_book.specs.Books.{Keeps};
ghost use Rattle.wire_ip4.specs.Packet.{header_length};
ghost use Rattle.drv_udp4.specs.Unreached.{all_refused, has_quote, is_sender, is_senders, quote_in, quote_of, quoted, refused, sent_by};

use crate::networks::{address_of, is_at_address, is_peer};
use crate::ports::UdpChildren;
use crate::work::{Ask, RECEIVE, UdpCfg};
use efi_base::{Addr, ChildId, End, Ip4, u16_at, u32_at};
use efi_book::{Book, Child};
use wire_ip4::read_icmp;

/// Addresses and ports of a datagram that was sent.
#[derive(Clone, Copy)]
pub(crate) struct Quote {
    pub src: Ip4,
    pub sport: u16,
    pub dest: Ip4,
    pub dport: u16,
}

/// The octets of the least header and eight behind it.
const LEAST: usize = 28;

/// The length of the header in octets, by its field.
fn header_len(bytes: &[u8]) -> usize
    requires { 28 ≤ length bytes.now }
    ensures is { result ≡ header_length bytes.now }
    ensures most { result < 61 }
{
    (bytes[0] % 16) as usize * 4
}

/// Whether a datagram is quoted: its header, whose checksum and length count for nothing, and eight octets behind it.
fn has_quote(bytes: &[u8]) -> bool
    ensures { result ≡ has_quote bytes.now }
{
    if bytes.len() < LEAST {
        return false;
    }
    if bytes[0] / 16 != 4 {
        return false;
    }
    let header = header_len(bytes);
    20 <= header && (header + 8 <= bytes.len() && bytes[9] == 17)
}

fn quote_in(bytes: &[u8]) -> Quote
    requires { IsTrue (has_quote bytes.now) }
    ensures { result ≡ quote_in bytes.now }
{
    let header = header_len(bytes);
    Quote {
        src: Ip4(u32_at(bytes, 12)),
        sport: u16_at(bytes, header),
        dest: Ip4(u32_at(bytes, 16)),
        dport: u16_at(bytes, header + 2),
    }
}

fn quote_of(bytes: &[u8]) -> Option<Quote>
    ensures { result ≡ quote_of bytes.now }
{
    if has_quote(bytes) {
        return Some(quote_in(bytes));
    }
    None
}

/// The datagram that the message in these octets quotes.
pub(crate) fn quoted(bytes: &[u8]) -> Option<Quote>
    ensures { result ≡ quoted bytes.now }
{
    let Ok(m) = read_icmp(bytes) else {
        return None;
    };
    if m.kind == 3 && m.code == 3 {
        return quote_of(m.payload);
    }
    None
}

fn is_sender(home: Option<Addr>, q: Quote, cfg: &UdpCfg) -> bool
    ensures { result ≡ is_sender home q cfg.now }
{
    (is_at_address(address_of(home, cfg), q.src) && cfg.port == q.sport)
        && is_peer(cfg.peer, q.dest, q.dport)
}

/// Whether a child with this configuration sent the datagram.
fn is_sent_by(home: Option<Addr>, q: Quote, cfg: &Option<UdpCfg>) -> bool
    ensures { result ≡ sent_by home q cfg.now }
{
    match cfg {
        Some(cfg) => is_sender(home, q, cfg),
        None => false,
    }
}

/// The child's oldest receive token ends so.
fn refuse(tokens: &mut Book<Ask>, child: &Child<Option<UdpCfg>>)
    ensures after { tokens.new ≡ refused child.now tokens.old }
    ensures keeps { Keeps tokens.old tokens.new }
{
    let Some(ticket) = tokens.oldest_kind(ChildId(child.serial), RECEIVE) else {
        return;
    };
    tokens.complete(ticket, End::PortUnreachable);
}

/// The child is told where it sent the datagram.
fn tell(tokens: &mut Book<Ask>, home: Option<Addr>, q: Quote, child: &Child<Option<UdpCfg>>)
    ensures after { tokens.new ≡ all_refused (filter (is_senders home q) (child.now ∷ [])) tokens.old }
    ensures keeps { Keeps tokens.old tokens.new }
{
    if !is_sent_by(home, q, &child.value) {
        return;
    }
    refuse(tokens, child);
}

/// Each of the callers' children that sent the datagram is told. It takes no memory.
pub(crate) fn tell_all(children: &UdpChildren, tokens: &mut Book<Ask>, home: Option<Addr>, q: Quote)
    ensures after { tokens.new ≡ all_refused (filter (is_senders home q) children.now.live) tokens.old }
    ensures keeps { Keeps tokens.old tokens.new }
{
    for i in 0..children.len() {
        tell(tokens, home, q, children.at(i));
    }
}
