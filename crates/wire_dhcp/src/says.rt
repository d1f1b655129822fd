//! What a server's message says to a station (RFC 2131, section 3.1): an offer, an ACK or a NAK. What the station makes of it
//! is a driver's affair.
ghost use Rattle.std.specs.Prelude.{◌≡◌, ◌==◌, ◌&&◌, bytes_eq, option_map};
ghost use Rattle.wire_dhcp.specs.Leases.{four_of, terms_of};
ghost use Rattle.wire_dhcp.specs.Message.{octet_of, option_of};
ghost use Rattle.wire_dhcp.specs.Replies.{begins_as_http, offer_of, reply_by, reply_of, server_of};

use crate::message::{Dhcp, DhcpFixed, MESSAGE_TYPE, one_octet};
use byteorder::{BigEndian, ByteOrder};
use efi_base::{Ip4, Mac, is_unicast};

/// What is offered: an address and the server that offers it. `http` says that it is an offer of HTTP Boot.
#[derive(Clone, Copy, PartialEq, Eq, Debug)]
pub struct Offer {
    pub ip: Ip4,
    pub server: Ip4,
    pub http: bool,
}

/// What a message says, with the number of its transaction in front: an offer, what an ACK gives, or the server whose NAK
/// it is.
#[derive(Clone, Copy, PartialEq, Eq, Debug)]
pub enum Reply {
    Offer(u32, Offer),
    Ack(u32, Offer),
    Nak(u32, Ip4),
}

/// An address, its server, and for how many seconds it may be used.
#[derive(Clone, Copy)]
pub(crate) struct Terms {
    pub(crate) ip: Ip4,
    pub(crate) server: Ip4,
    pub(crate) secs: u32,
}

/// The codes of the options that are read here.
const SECONDS: u8 = 51;

const SERVER: u8 = 54;

const CLASS: u8 = 60;

/// The op of a message from a server.
const FROM_SERVER: u8 = 2;

/// The types of messages from servers.
const OFFER: u8 = 2;

const ACK: u8 = 5;

const NAK: u8 = 6;

/// What option 60 of an HTTP offer begins with.
pub(crate) const HTTP_CLIENT: [u8; 10] = *b"HTTPClient";

/// What the message says to the station of this Ethernet address, None where it is no offer, ACK or NAK for it.
#[tactic(auto, unfolding(crate::specs::Replies::reply_of))]
pub fn read_reply(message: &Dhcp<'_>, mac: Mac) -> Option<Reply>
    ensures { result ≡ reply_of mac message.now }
{
    let fixed = message.fixed();
    if !is_for(&fixed, mac) {
        return None;
    }
    reply_by(message, message_type(message), fixed.xid)
}

/// Whether a server sent it for the station of this Ethernet address.
fn is_for(fixed: &DhcpFixed, mac: Mac) -> bool
    ensures { result ≡ (fixed.now.op == 2 && bytes_eq fixed.now.mac.0 mac.0) }
{
    fixed.op == FROM_SERVER && fixed.mac.0 == mac.0
}

/// What a message of this type says.
fn reply_by(message: &Dhcp<'_>, kind: u8, xid: u32) -> Option<Reply>
    ensures { result ≡ reply_by kind xid (offer_of message.now) (server_of message.now) }
{
    if kind == OFFER {
        return offer_at(message, xid);
    }
    if kind == ACK {
        return ack_at(message, xid);
    }
    if kind == NAK {
        return nak_at(message, xid);
    }
    None
}

fn offer_at(message: &Dhcp<'_>, xid: u32) -> Option<Reply>
    ensures { result ≡ option_map (λ offer. Reply.Offer xid offer) (offer_of message.now) }
{
    match read_offer(message) {
        Some(offer) => Some(Reply::Offer(xid, offer)),
        None => None,
    }
}

fn ack_at(message: &Dhcp<'_>, xid: u32) -> Option<Reply>
    ensures { result ≡ option_map (λ offer. Reply.Ack xid offer) (offer_of message.now) }
{
    match read_offer(message) {
        Some(offer) => Some(Reply::Ack(xid, offer)),
        None => None,
    }
}

fn nak_at(message: &Dhcp<'_>, xid: u32) -> Option<Reply>
    ensures { result ≡ option_map (λ server. Reply.Nak xid server) (server_of message.now) }
{
    match read_four(message, SERVER) {
        Some(server) => Some(Reply::Nak(xid, Ip4(server))),
        None => None,
    }
}

/// What is offered, or given.
fn read_offer(message: &Dhcp<'_>) -> Option<Offer>
    ensures { result ≡ offer_of message.now }
{
    match read_terms(message) {
        Some(terms) => Some(Offer {
            ip: terms.ip,
            server: terms.server,
            http: is_http(message),
        }),
        None => None,
    }
}

/// What an offer and an ACK must say.
#[tactic(auto, unfolding(crate::specs::Leases::terms_of))]
pub(crate) fn read_terms(message: &Dhcp<'_>) -> Option<Terms>
    ensures { result ≡ terms_of message.now }
{
    let ip = message.fixed().yiaddr;
    let Some(server) = read_four(message, SERVER) else {
        return None;
    };
    let Some(secs) = read_four(message, SECONDS) else {
        return None;
    };
    if !is_unicast(ip) || !is_unicast(Ip4(server)) || secs == 0 {
        return None;
    }
    Some(Terms {
        ip,
        server: Ip4(server),
        secs,
    })
}

/// The number of an option of four octets.
pub(crate) fn read_four(message: &Dhcp<'_>, code: u8) -> Option<u32>
    ensures { result ≡ four_of (option_of code message.now) }
{
    let mut room = [0; 4];
    let Some(size) = message.option(code, &mut room) else {
        return None;
    };
    if size != 4 {
        return None;
    }
    Some(BigEndian::read_u32(&room))
}

/// The type of the message, and 0 where its option isn't one octet.
fn message_type(message: &Dhcp<'_>) -> u8
    ensures { result ≡ octet_of (option_of 53 message.now) }
{
    let mut room = [0; 1];
    let size = message.option(MESSAGE_TYPE, &mut room);
    one_octet(size, room[0])
}

fn is_http(message: &Dhcp<'_>) -> bool
    ensures { result ≡ begins_as_http (option_of 60 message.now) }
{
    let mut room = [0; 10];
    let Some(size) = message.option(CLASS, &mut room) else {
        return false;
    };
    if size < 10 {
        return false;
    }
    room == HTTP_CLIENT
}
