//! The messages by which a server offers and gives a lease (RFC 2131, section 4.3.1). When they are sent is a server's affair.
ghost use Rattle.std.specs.Prelude.{◌≡◌, ◌≤◌, ◌<◌, ◌+◌, ◌++◌, [], length};
ghost use Rattle.byteorder.specs.Endian.{big_bytes};
ghost use Rattle.efi_base.specs.Writes.{Writes};
ghost use Rattle.wire_dhcp.specs.Granted.{ack_text, addresses_text, answer_fields, boot_options, grant_text, offer_text, router_text, said};
ghost use Rattle.wire_dhcp.specs.Walk.{items_seen};

use crate::message::DhcpFixed;
use crate::options::DhcpOption;
use crate::says::HTTP_CLIENT;
use crate::sending::four_octets;
use crate::writing::write_dhcp;
use arrayvec::ArrayVec;
use efi_base::{Ip4, Name, NoRoom};

/// What a server grants, and what it tells besides.
#[derive(Clone, Copy)]
pub struct Grant<'a> {
    pub ip: Ip4,
    pub server: Ip4,
    /// For how many seconds.
    pub secs: u32,
    pub mask: u32,
    pub router: Option<Ip4>,
    /// At most three.
    pub dns: &'a [Ip4],
    /// At most 255 octets, and none where no image is told.
    pub uri: &'a [u8],
}

/// The most options of an answer, and the most octets of addresses.
const MOST_OPTIONS: usize = 8;

const MOST_ADDRESSES: usize = 12;

type Options<'a> = ArrayVec<DhcpOption<'a>, MOST_OPTIONS>;

type Addresses = ArrayVec<u8, MOST_ADDRESSES>;

/// Writes the OFFER that answers this DISCOVER.
pub fn write_offer(asked: &DhcpFixed, grant: &Grant<'_>, room: &mut [u8]) -> Result<usize, NoRoom>
    requires dns { length grant.now.dns.now ≤ 3 }
    requires uri { length grant.now.uri.now ≤ 255 }
    ensures { Writes (offer_text asked.now grant.now) room.old result room.new }
{
    put_grant(2, asked, grant, room)
}

/// Writes the ACK that answers this REQUEST.
pub fn write_ack(asked: &DhcpFixed, grant: &Grant<'_>, room: &mut [u8]) -> Result<usize, NoRoom>
    requires dns { length grant.now.dns.now ≤ 3 }
    requires uri { length grant.now.uri.now ≤ 255 }
    ensures { Writes (ack_text asked.now grant.now) room.old result room.new }
{
    put_grant(5, asked, grant, room)
}

fn put_grant(
    kind: u8,
    asked: &DhcpFixed,
    grant: &Grant<'_>,
    room: &mut [u8],
) -> Result<usize, NoRoom>
    requires dns { length grant.now.dns.now ≤ 3 }
    requires uri { length grant.now.uri.now ≤ 255 }
    ensures { Writes (grant_text kind asked.now grant.now) room.old result room.new }
{
    let kind = [kind];
    let server = four_octets(grant.server);
    let secs = four_octets(Ip4(grant.secs));
    let mask = four_octets(Ip4(grant.mask));
    let router = router_text(grant.router);
    let dns = addresses_text(grant.dns);
    let mut options = ArrayVec::new();
    put_main(&kind, &server, &secs, &mask, &mut options);
    put_more(router.as_slice(), dns.as_slice(), grant.uri, &mut options);
    write_dhcp(&answer_fields(asked, grant.ip), options.as_slice(), room)
}

/// The fields of an answer.
fn answer_fields(asked: &DhcpFixed, ip: Ip4) -> DhcpFixed
    ensures { result ≡ answer_fields asked.now ip }
{
    DhcpFixed {
        op: 2,
        xid: asked.xid,
        flags: asked.flags,
        ciaddr: Ip4(0),
        yiaddr: ip,
        siaddr: Ip4(0),
        mac: asked.mac,
        file: Name::from_slice(&[]),
    }
}

fn router_text(router: Option<Ip4>) -> Addresses
    ensures { result.items ≡ router_text router }
{
    let mut octets = ArrayVec::new();
    if let Some(ip) = router {
        put_address(ip, &mut octets);
    }
    octets
}

fn addresses_text(ips: &[Ip4]) -> Addresses
    requires { length ips.now ≤ 3 }
    ensures { result.items ≡ addresses_text ips.now }
{
    let mut octets = ArrayVec::new();
    for ip in ips {
        put_address(*ip, &mut octets);
    }
    octets
}

/// Puts an address behind the others.
fn put_address(ip: Ip4, octets: &mut Addresses)
    requires { length octets.old.items ≤ 8 }
    ensures octets { octets.new.items ≡ octets.old.items ++ big_bytes 4 ip.0 }
    ensures size { length octets.new.items ≡ length octets.old.items + 4 }
{
    match octets.try_extend_from_slice(&four_octets(ip)) {
        Ok(()) => (),
        Err(_) => (),
    }
}

/// Puts the type, the server, the seconds and the mask.
fn put_main<'a>(
    kind: &'a [u8],
    server: &'a [u8],
    secs: &'a [u8],
    mask: &'a [u8],
    options: &mut Options<'a>,
)
    requires { options.old.items ≡ [] }
    ensures options { items_seen options.new.items ≡ said 53 kind.now ++ (said 54 server.now ++ (said 51 secs.now ++ said 1 mask.now)) }
    ensures size { length options.new.items ≤ 4 }
{
    put_said(53, kind, options);
    put_said(54, server, options);
    put_said(51, secs, options);
    put_said(1, mask, options);
}

/// Puts what is told besides.
fn put_more<'a>(router: &'a [u8], dns: &'a [u8], uri: &'a [u8], options: &mut Options<'a>)
    requires { length options.old.items ≤ 4 }
    ensures { items_seen options.new.items ≡ items_seen options.old.items ++ (said 3 router.now ++ (said 6 dns.now ++ boot_options uri.now)) }
{
    put_said(3, router, options);
    put_said(6, dns, options);
    if uri.is_empty() {
        return;
    }
    put_said(60, &HTTP_CLIENT, options);
    put_said(67, uri, options);
}

/// Puts an option behind the others, where its value isn't empty.
fn put_said<'a>(code: u8, value: &'a [u8], options: &mut Options<'a>)
    requires { length options.old.items < 8 }
    ensures options { items_seen options.new.items ≡ items_seen options.old.items ++ said code value.now }
    ensures size { length options.new.items ≤ length options.old.items + 1 }
{
    if value.is_empty() {
        return;
    }
    options.push(DhcpOption { code, value });
}
