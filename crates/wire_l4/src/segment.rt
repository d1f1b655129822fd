//! TCP segments (RFC 9293, section 3.1). Nothing here knows of connections.
ghost use Rattle.std.specs.Prelude.{◌≡◌, ◌%◌, ◌^◌, ◌<◌, ◌≤◌, Some, length, take, IsTrue, IfOk};
ghost use Rattle.efi_base.specs.Checksum.{AreOctets};
ghost use Rattle.efi_base.specs.Reads.{ReadsAs};
ghost use Rattle.efi_base.specs.Writes.{Writes};
ghost use Rattle.wire_l4.specs.Parts.{has_header, segment_with};
ghost use Rattle.wire_l4.specs.Segment.{segment_of, unverified_segment_of, has_right_sum, data_offset};
ghost use Rattle.wire_l4.specs.Seen.{segment_seen};
ghost use Rattle.wire_l4.specs.Spelling.{IsSegment, segment_text, tcp_header, tcp_front};
ghost use Rattle.wire_l4.specs.Walk.{known_seen};

use crate::options::{Options, put_options, read_options};
use crate::pseudo::{message_checksum, parts_checksum};
use byteorder::{BigEndian, ByteOrder};
use efi_base::{Bad, Ip4, NoRoom, put_parts, u16_at, u32_at};

/// A segment whose payload lies in the octets that were read. Numbers are in host order. `mss` is the largest payload
/// that the sender takes, in octets, and `shift` the number of bits by which its window is shifted: each is the
/// first option of its kind.
#[derive(Clone, Copy, PartialEq, Eq, Debug)]
pub struct Tcp<'a> {
    pub sport: u16,
    pub dport: u16,
    pub seq: u32,
    pub ack: u32,
    pub flags: u8,
    pub window: u16,
    pub mss: Option<u16>,
    pub shift: Option<u8>,
    pub payload: &'a [u8],
}

/// The flags of a segment.
pub const FIN: u8 = 1;

pub const SYN: u8 = 2;

pub const RST: u8 = 4;

pub const PSH: u8 = 8;

pub const ACK: u8 = 16;

/// The octets of a header without options, which is the least there is.
const HEADER: usize = 20;

/// The protocol of TCP in the pseudo header.
const TCP: u8 = 6;

/// Reads a segment between these addresses whose checksum is right.
pub fn read_tcp(src: Ip4, dest: Ip4, bytes: &[u8]) -> Result<Tcp<'_>, Bad>
    ensures { ReadsAs segment_seen result (segment_of src.0 dest.0 bytes.now) }
{
    if !holds_header(bytes) {
        return Err(Bad);
    }
    if !has_right_checksum(src, dest, bytes) {
        return Err(Bad);
    }
    read_tcp_unverified(bytes)
}

/// Reads a segment and passes over its checksum: one that was captured at its sender has none where the network card
/// fills it in.
pub fn read_tcp_unverified(bytes: &[u8]) -> Result<Tcp<'_>, Bad>
    ensures { ReadsAs segment_seen result (unverified_segment_of bytes.now) }
{
    if !holds_header(bytes) {
        return Err(Bad);
    }
    let options = match read_options(&bytes[HEADER..header_len(bytes)]) {
        Ok(options) => options,
        Err(bad) => return Err(bad),
    };
    Ok(segment_at(bytes, options))
}

/// Whether the octets of a header stand in front, whatever its options are.
fn holds_header(bytes: &[u8]) -> bool
    ensures { result ≡ has_header bytes.now }
{
    if bytes.len() < HEADER || bytes.len() > u16::MAX as usize {
        return false;
    }
    let header = header_len(bytes);
    HEADER <= header && header <= bytes.len()
}

/// Whether the segment sums to all ones with its pseudo header.
fn has_right_checksum(src: Ip4, dest: Ip4, bytes: &[u8]) -> bool
    requires { length bytes.now < 2 ^ 16 }
    ensures { result ≡ has_right_sum src.0 dest.0 bytes.now }
{
    message_checksum(src, dest, TCP, bytes) == 0
}

fn header_len(bytes: &[u8]) -> usize
    requires { 20 ≤ length bytes.now }
    ensures { result ≡ data_offset bytes.now }
{
    (bytes[12] >> 4) as usize * 4
}

/// The segment whose header has these options.
#[tactic(auto, unfolding(crate::specs::Parts::segment_with))]
fn segment_at(bytes: &[u8], options: Options) -> Tcp<'_>
    requires { IsTrue (has_header bytes.now) }
    ensures { segment_seen result ≡ segment_with bytes.now (known_seen options) }
{
    Tcp {
        sport: u16_at(bytes, 0),
        dport: u16_at(bytes, 2),
        seq: u32_at(bytes, 4),
        ack: u32_at(bytes, 8),
        flags: bytes[13],
        window: u16_at(bytes, 14),
        mss: options.mss,
        shift: options.shift,
        payload: &bytes[header_len(bytes)..],
    }
}

/// The octets of the options that are written, at most.
const OPTIONS: usize = 8;

/// A header with its options, in the first of these octets.
#[derive(Clone, Copy)]
struct Header {
    octets: [u8; HEADER + OPTIONS],
    len: usize,
}

/// Writes a segment between these addresses with its checksum, and answers how many octets it has.
#[tactic(auto, unfolding(crate::specs::Spelling::segment_text))]
pub fn write_tcp(src: Ip4, dest: Ip4, v: &Tcp<'_>, room: &mut [u8]) -> Result<usize, NoRoom>
    requires { length v.now.payload.now ≤ 65487 }
    ensures writes { Writes (segment_text src.0 dest.0 (segment_seen v.now)) room.old result room.new }
    ensures again { IfOk result (λ n. segment_of src.0 dest.0 (take n room.new) ≡ Some (segment_seen v.now)) }
{
    let blank = header_of(v, 0);
    let sum = parts_checksum(src, dest, TCP, &blank.octets[..blank.len], v.payload);
    let header = header_of(v, sum);
    put_parts(&header.octets[..header.len], v.payload, room)
}

/// The header of a segment with this checksum.
#[tactic(auto, unfolding(crate::specs::Spelling::tcp_header))]
fn header_of(v: &Tcp<'_>, sum: u16) -> Header
    ensures text { take result.len result.octets ≡ tcp_header (segment_seen v.now) sum }
    ensures bound { result.len ≤ 28 }
    ensures even { result.len % 2 ≡ 0 }
    ensures fits { AreOctets v.now.payload.now → length v.now.payload.now ≤ 65487 → IsSegment (segment_seen v.now) }
{
    let mut options = [0; OPTIONS];
    let len = HEADER + put_options(v.mss, v.shift, &mut options);
    let mut octets = [0; HEADER + OPTIONS];
    octets[..HEADER].copy_from_slice(&front_of(v, len, sum));
    octets[HEADER..].copy_from_slice(&options);
    Header { octets, len }
}

/// What stands in front of the options in a header of so many octets.
fn front_of(v: &Tcp<'_>, len: usize, sum: u16) -> [u8; HEADER]
    requires { len ≤ 28 }
    ensures text { result ≡ tcp_front (segment_seen v.now) len sum }
    ensures fits { (v.now.sport < 2 ^ 16) × (v.now.dport < 2 ^ 16) × (v.now.seq < 2 ^ 32) × (v.now.ack < 2 ^ 32)
        × (v.now.flags < 2 ^ 8) × (v.now.window < 2 ^ 16) }
{
    let mut octets = [0; HEADER];
    BigEndian::write_u16(&mut octets, v.sport);
    BigEndian::write_u16(&mut octets[2..], v.dport);
    BigEndian::write_u32(&mut octets[4..], v.seq);
    BigEndian::write_u32(&mut octets[8..], v.ack);
    octets[12] = (len / 4 * 16) as u8;
    octets[13] = v.flags;
    BigEndian::write_u16(&mut octets[14..], v.window);
    BigEndian::write_u16(&mut octets[16..], sum);
    octets
}
