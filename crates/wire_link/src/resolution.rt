//! Address resolution for IPv4 over Ethernet (RFC 826). What is done with a packet isn't here.
ghost use Rattle.std.specs.Prelude.{◌≡◌, ◌++◌, take, drop, Some, IfOk};
ghost use Rattle.efi_base.specs.Reads.{ReadsAs};
ghost use Rattle.efi_base.specs.Writes.{Writes};
ghost use Rattle.wire_link.specs.Arp.{IsArpPacket, IsOperation, has_arp, arp_of, arp_text};
ghost use Rattle.wire_link.specs.Seen.{arp_seen};

use crate::fields::{mac_at, put_mac};
use byteorder::{BigEndian, ByteOrder};
use efi_base::{Bad, Ip4, Mac, NoRoom, put_parts, u16_at, u32_at};

/// A packet. `op` is the operation, which the reader and the writer want to be `REQUEST` or `REPLY`. `sha` and `spa`
/// are the addresses of the sender, `tha` and `tpa` those of the target.
#[derive(Clone, Copy, PartialEq, Eq, Debug)]
pub struct Arp {
    pub op: u16,
    pub sha: Mac,
    pub spa: Ip4,
    pub tha: Mac,
    pub tpa: Ip4,
}

/// The operations.
pub const REQUEST: u16 = 1;

pub const REPLY: u16 = 2;

/// The octets of a packet.
const ARP_PACKET: usize = 28;

/// Hardware that is Ethernet, and a protocol that is IPv4.
const ETHERNET: u16 = 1;

const IPV4: u16 = 0x0800;

/// Reads a packet. Octets behind it are padding.
pub fn read_arp(bytes: &[u8]) -> Result<Arp, Bad>
    ensures read { ReadsAs arp_seen result (arp_of bytes.now) }
    // The first octets spell what was read.
    ensures spelled { IfOk result (λ a. bytes.now ≡ arp_text (arp_seen a) ++ drop 28 bytes.now) }
{
    if !holds_arp(bytes) {
        return Err(Bad);
    }
    Ok(Arp {
        op: u16_at(bytes, 6),
        sha: mac_at(bytes, 8),
        spa: Ip4(u32_at(bytes, 14)),
        tha: mac_at(bytes, 18),
        tpa: Ip4(u32_at(bytes, 24)),
    })
}

/// Whether a packet stands in front.
fn holds_arp(bytes: &[u8]) -> bool
    ensures { result ≡ has_arp bytes.now }
{
    if bytes.len() < ARP_PACKET {
        return false;
    }
    if u16_at(bytes, 0) != ETHERNET || u16_at(bytes, 2) != IPV4 {
        return false;
    }
    if bytes[4] != 6 || bytes[5] != 4 {
        return false;
    }
    let op = u16_at(bytes, 6);
    op == REQUEST || op == REPLY
}

/// Writes a packet. `NoRoom` says that the room has fewer than 28 octets.
pub fn write_arp(v: &Arp, room: &mut [u8]) -> Result<usize, NoRoom>
    requires { IsOperation v.now.op }
    ensures written { Writes (arp_text (arp_seen v.now)) room.old result room.new }
    // What was written is read again.
    ensures again { IfOk result (λ n. arp_of (take n room.new) ≡ Some (arp_seen v.now)) }
{
    put_parts(&text_of(*v), &[], room)
}

/// The octets of a packet.
fn text_of(v: Arp) -> [u8; ARP_PACKET]
    requires { IsOperation v.op }
    ensures text { result ≡ arp_text (arp_seen v) }
    ensures spelled { IsArpPacket (arp_seen v) }
{
    let mut octets = [0; ARP_PACKET];
    BigEndian::write_u16(&mut octets, ETHERNET);
    BigEndian::write_u16(&mut octets[2..], IPV4);
    octets[4] = 6;
    octets[5] = 4;
    BigEndian::write_u16(&mut octets[6..], v.op);
    put_mac(&mut octets[8..], v.sha);
    BigEndian::write_u32(&mut octets[14..], v.spa.0);
    put_mac(&mut octets[18..], v.tha);
    BigEndian::write_u32(&mut octets[24..], v.tpa.0);
    octets
}
