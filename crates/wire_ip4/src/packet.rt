//! IPv4 packets (RFC 791, section 3.1). Options are skipped, and octets past the total length are padding. Nothing
//! here joins fragments.
ghost use Rattle.std.specs.Prelude.{◌≡◌, ◌*◌, ◌/◌, ◌%◌, ◌==◌, ◌≤◌, length, take, IsTrue, Some, IfOk};
ghost use Rattle.efi_base.specs.Reads.{ReadsAs};
ghost use Rattle.efi_base.specs.Writes.{Writes};
ghost use Rattle.wire_ip4.specs.Packet.{IsPacket, packet_of, unverified_packet_of, header_length, total_length, has_packet, packet_in, fragment_number, header_text, packet_text};
ghost use Rattle.wire_ip4.specs.Seen.{packet_seen};

use byteorder::{BigEndian, ByteOrder};
use efi_base::{Bad, Ip4, NoRoom, checksum, put_parts, u16_at, u32_at};

/// A packet whose payload lies in the octets that were read. Numbers are in host order; `df` says that it may not be
/// cut into fragments, `mf` that more of them follow, and `place` where its payload lies in the datagram, in octets.
#[derive(Clone, Copy, PartialEq, Eq, Debug)]
pub struct Ip<'a> {
    pub src: Ip4,
    pub dest: Ip4,
    pub proto: u8,
    pub id: u16,
    pub df: bool,
    pub mf: bool,
    pub place: u16,
    pub ttl: u8,
    pub payload: &'a [u8],
}

/// The octets of a header without options, which is the least there is.
const HEADER: usize = 20;

/// The places of the bits don't-fragment and more-fragments in the word of flags and place.
const DF: u32 = 14;

const MF: u32 = 13;

/// The bits of that word that have the place, in eights of octets.
const PLACE: u16 = 0x1FFF;

/// Version 4 and a header of five words.
const NO_OPTIONS: u8 = 0x45;

/// Reads a packet whose header has a right checksum.
#[tactic(auto, unfolding(crate::specs::Packet::packet_of))]
pub fn read_ip(bytes: &[u8]) -> Result<Ip<'_>, Bad>
    ensures { ReadsAs packet_seen result (packet_of bytes.now) }
{
    if !holds_packet(bytes) || checksum(&bytes[..header_len(bytes)], &[]) != 0 {
        return Err(Bad);
    }
    Ok(packet_at(bytes))
}

/// Reads a packet and passes over the checksum of its header: one that was captured at its sender has none where
/// the network card fills it in.
#[tactic(auto, unfolding(crate::specs::Packet::unverified_packet_of))]
pub fn read_ip_unverified(bytes: &[u8]) -> Result<Ip<'_>, Bad>
    ensures { ReadsAs packet_seen result (unverified_packet_of bytes.now) }
{
    if !holds_packet(bytes) {
        return Err(Bad);
    }
    Ok(packet_at(bytes))
}

/// Whether a packet stands in front.
fn holds_packet(bytes: &[u8]) -> bool
    ensures { result ≡ has_packet bytes.now }
{
    if bytes.len() < HEADER || bytes[0] >> 4 != 4 {
        return false;
    }
    let header = header_len(bytes);
    let total = total_len(bytes);
    HEADER <= header && header <= total && total <= bytes.len()
}

fn header_len(bytes: &[u8]) -> usize
    requires { 20 ≤ length bytes.now }
    ensures { result ≡ header_length bytes.now }
{
    (bytes[0] & 15) as usize * 4
}

fn total_len(bytes: &[u8]) -> usize
    requires { 20 ≤ length bytes.now }
    ensures { result ≡ total_length bytes.now }
{
    u16_at(bytes, 2) as usize
}

/// The packet that stands in front.
fn packet_at(bytes: &[u8]) -> Ip<'_>
    requires { IsTrue (has_packet bytes.now) }
    ensures { packet_seen result ≡ packet_in bytes.now }
{
    let word = u16_at(bytes, 6);
    Ip {
        src: Ip4(u32_at(bytes, 12)),
        dest: Ip4(u32_at(bytes, 16)),
        proto: bytes[9],
        id: u16_at(bytes, 4),
        df: may_not_fragment(word),
        mf: has_more(word),
        place: fragment_place(word),
        ttl: bytes[8],
        payload: &bytes[header_len(bytes)..total_len(bytes)],
    }
}

/// Whether the word of flags and place says don't-fragment.
#[tactic(auto, using(crate::proofs::Masks::low_bit))]
fn may_not_fragment(word: u16) -> bool
    ensures { result ≡ (word / 16384 % 2 == 1) }
{
    (word >> DF) & 1 == 1
}

/// Whether the word of flags and place says more-fragments.
#[tactic(auto, using(crate::proofs::Masks::low_bit))]
fn has_more(word: u16) -> bool
    ensures { result ≡ (word / 8192 % 2 == 1) }
{
    (word >> MF) & 1 == 1
}

/// The place in octets.
#[tactic(auto, using(crate::proofs::Masks::low_place))]
fn fragment_place(word: u16) -> u16
    ensures { result ≡ word % 8192 * 8 }
{
    (word & PLACE) * 8
}

/// Writes a packet without options, of service 0. `place` is a multiple of 8, and there are at most 65,515 octets of
/// payload. `NoRoom` says that the room has fewer octets than header and payload.
pub fn write_ip(v: &Ip<'_>, room: &mut [u8]) -> Result<usize, NoRoom>
    requires place { v.now.place % 8 ≡ 0 }
    requires payload { length v.now.payload.now ≤ 65515 }
    ensures written { Writes (packet_text (packet_seen v.now)) room.old result room.new }
    // What was written is read again.
    ensures again { IfOk result (λ n. packet_of (take n room.new) ≡ Some (packet_seen v.now)) }
{
    let sum = checksum(&header_of(*v, 0), &[]);
    put_parts(&header_of(*v, sum), v.payload, room)
}

/// A header without options that has this checksum.
fn header_of(v: Ip<'_>, sum: u16) -> [u8; HEADER]
    requires place { v.place % 8 ≡ 0 }
    requires payload { length v.payload.now ≤ 65515 }
    ensures text { result ≡ header_text (packet_seen v.entry) sum }
    ensures spelled { IsPacket (packet_seen v.entry) }
{
    let mut octets = [0; HEADER];
    octets[0] = NO_OPTIONS;
    BigEndian::write_u16(&mut octets[2..], (HEADER + v.payload.len()) as u16);
    BigEndian::write_u16(&mut octets[4..], v.id);
    BigEndian::write_u16(&mut octets[6..], word_of(v.df, v.mf, v.place));
    octets[8] = v.ttl;
    octets[9] = v.proto;
    BigEndian::write_u16(&mut octets[10..], sum);
    BigEndian::write_u32(&mut octets[12..], v.src.0);
    BigEndian::write_u32(&mut octets[16..], v.dest.0);
    octets
}

/// The word of flags and place. The place is in octets.
fn word_of(df: bool, mf: bool, place: u16) -> u16
    ensures { result ≡ fragment_number df mf place }
{
    let mut word = place / 8;
    if df {
        word += 1 << DF;
    }
    if mf {
        word += 1 << MF;
    }
    word
}
