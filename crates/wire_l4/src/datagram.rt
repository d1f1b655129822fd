//! UDP datagrams (RFC 768). Octets past the length are padding. Nothing here knows of ports in use.
ghost use Rattle.std.specs.Prelude.{◌≡◌, ◌||◌, ◌≤◌, Some, length, take, IsTrue, IfOk};
ghost use Rattle.efi_base.specs.Checksum.{AreOctets};
ghost use Rattle.efi_base.specs.Reads.{ReadsAs};
ghost use Rattle.efi_base.specs.Writes.{Writes};
ghost use Rattle.wire_l4.specs.Datagram.{IsDatagram, datagram_of, datagram_text, datagram_in, datagram_length, has_datagram, has_no_sum, has_right_udp_sum, udp_header, sent_sum};
ghost use Rattle.wire_l4.specs.Seen.{datagram_seen};

use crate::pseudo::{message_checksum, parts_checksum};
use byteorder::{BigEndian, ByteOrder};
use efi_base::{Bad, Ip4, NoRoom, put_parts, u16_at};

/// A datagram whose payload lies in the octets that were read. Ports are in host order.
#[derive(Clone, Copy, PartialEq, Eq, Debug)]
pub struct Udp<'a> {
    pub sport: u16,
    pub dport: u16,
    pub payload: &'a [u8],
}

/// The octets of a header.
const HEADER: usize = 8;

/// The protocol of UDP in the pseudo header.
const UDP: u8 = 17;

/// Reads a datagram between these addresses that has no checksum or a right one.
#[tactic(auto, unfolding(crate::specs::Datagram::datagram_of))]
pub fn read_udp(src: Ip4, dest: Ip4, bytes: &[u8]) -> Result<Udp<'_>, Bad>
    ensures { ReadsAs datagram_seen result (datagram_of src.0 dest.0 bytes.now) }
{
    if !holds_datagram(bytes) {
        return Err(Bad);
    }
    if !has_good_checksum(src, dest, bytes) {
        return Err(Bad);
    }
    Ok(datagram_at(bytes))
}

/// Whether a datagram stands in front, whatever its checksum.
fn holds_datagram(bytes: &[u8]) -> bool
    ensures { result ≡ has_datagram bytes.now }
{
    if bytes.len() < HEADER {
        return false;
    }
    let len = datagram_len(bytes) as usize;
    HEADER <= len && len <= bytes.len()
}

fn datagram_len(bytes: &[u8]) -> u16
    requires { 8 ≤ length bytes.now }
    ensures { result ≡ datagram_length bytes.now }
{
    u16_at(bytes, 4)
}

/// Whether the datagram has no checksum, or sums to all ones with its pseudo header.
fn has_good_checksum(src: Ip4, dest: Ip4, bytes: &[u8]) -> bool
    requires { IsTrue (has_datagram bytes.now) }
    ensures { result ≡ (has_no_sum bytes.now || has_right_udp_sum src.0 dest.0 bytes.now) }
{
    if u16_at(bytes, 6) == 0 {
        return true;
    }
    message_checksum(src, dest, UDP, &bytes[..datagram_len(bytes) as usize]) == 0
}

fn datagram_at(bytes: &[u8]) -> Udp<'_>
    requires { IsTrue (has_datagram bytes.now) }
    ensures { datagram_seen result ≡ datagram_in bytes.now }
{
    Udp {
        sport: u16_at(bytes, 0),
        dport: u16_at(bytes, 2),
        payload: &bytes[HEADER..datagram_len(bytes) as usize],
    }
}

/// Writes a datagram between these addresses with its checksum, and answers how many octets it has.
#[tactic(auto, unfolding(crate::specs::Datagram::datagram_text))]
pub fn write_udp(src: Ip4, dest: Ip4, v: &Udp<'_>, room: &mut [u8]) -> Result<usize, NoRoom>
    requires { length v.now.payload.now ≤ 65507 }
    ensures writes { Writes (datagram_text src.0 dest.0 (datagram_seen v.now)) room.old result room.new }
    ensures again { IfOk result (λ n. datagram_of src.0 dest.0 (take n room.new) ≡ Some (datagram_seen v.now)) }
{
    let sum = parts_checksum(src, dest, UDP, &header_of(v, 0), v.payload);
    put_parts(&header_of(v, sum_to_send(sum)), v.payload, room)
}

/// The checksum as it is sent: 0 would say that there is none.
fn sum_to_send(sum: u16) -> u16
    ensures { result ≡ sent_sum sum }
{
    if sum == 0 { u16::MAX } else { sum }
}

/// The header of a datagram with this checksum.
fn header_of(v: &Udp<'_>, sum: u16) -> [u8; HEADER]
    requires { length v.now.payload.now ≤ 65507 }
    ensures text { result ≡ udp_header (datagram_seen v.now) sum }
    ensures fits { AreOctets v.now.payload.now → IsDatagram (datagram_seen v.now) }
{
    let len = (HEADER + v.payload.len()) as u16;
    let mut octets = [0; HEADER];
    BigEndian::write_u16(&mut octets, v.sport);
    BigEndian::write_u16(&mut octets[2..], v.dport);
    BigEndian::write_u16(&mut octets[4..], len);
    BigEndian::write_u16(&mut octets[6..], sum);
    octets
}
