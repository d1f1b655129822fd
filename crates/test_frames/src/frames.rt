//! Frames: TCP segments in IPv4 packets in Ethernet frames, written octet by octet (RFC 9293, section 3.1; RFC 791, section
//! 3.1; RFC 894).
use crate::sums::checksum;
use std::alloc::{AllocError, Global};

/// One end of the connection.
#[derive(Clone, Copy)]
pub struct Station {
    pub mac: [u8; 6],
    pub addr: [u8; 4],
    pub port: u16,
}

/// A segment.
#[derive(Clone, Copy)]
pub struct Segment<'a> {
    pub from: Station,
    pub to: Station,
    pub seq: u32,
    pub ack: u32,
    /// The octet that tells how long the header is, 0x50 where it has no options.
    pub offset: u8,
    pub flags: u8,
    pub options: &'a [u8],
    pub payload: &'a [u8],
}

/// What stands in the fields of checksums.
#[derive(Clone, Copy)]
pub enum Sums {
    Right,
    /// Zeros.
    Blank,
    /// A right one in the packet's header, and a wrong one in the segment.
    Damaged,
}

/// The parts, one after the other.
pub fn joined(alloc: Global, parts: &[&[u8]]) -> Result<Vec<u8>, AllocError> {
    let mut octets = Vec::new(alloc);
    for part in parts {
        octets.extend_from_slice(part)?;
    }
    Ok(octets)
}

/// A segment with its checksum, a wrong one or none.
pub fn segment_octets(alloc: Global, sums: Sums, s: &Segment<'_>) -> Result<Vec<u8>, AllocError> {
    let mut octets = joined(alloc, &[&tcp_header(s), s.options, s.payload])?;
    let sum = checksum(&pseudo_header(s, octets.len()), &octets);
    let told = match sums {
        Sums::Right => sum,
        Sums::Blank => 0,
        Sums::Damaged => sum ^ 1,
    };
    put_number(&mut octets, 16, told);
    Ok(octets)
}

fn pseudo_header(s: &Segment<'_>, len: usize) -> [u8; 12] {
    let [a, b, c, d] = s.from.addr;
    let [e, f, g, h] = s.to.addr;
    let [high, low] = ((len % 65_536) as u16).to_be_bytes();
    [a, b, c, d, e, f, g, h, 0, 6, high, low]
}

/// The header in front of the options, without a checksum.
fn tcp_header(s: &Segment<'_>) -> [u8; 20] {
    let [i, j] = s.from.port.to_be_bytes();
    let [k, l] = s.to.port.to_be_bytes();
    let [a, b, c, d] = s.seq.to_be_bytes();
    let [e, f, g, h] = s.ack.to_be_bytes();
    [
        i, j, k, l, a, b, c, d, e, f, g, h, s.offset, s.flags, 0xFF, 0xFF, 0, 0, 0, 0,
    ]
}

/// Puts a number of two octets at a place, where it is there.
fn put_number(octets: &mut [u8], place: usize, number: u16) {
    let [high, low] = number.to_be_bytes();
    put_octet(octets, place, high);
    put_octet(octets, place.saturating_add(1), low);
}

/// Puts an octet at a place, where it is there.
pub fn put_octet(octets: &mut [u8], place: usize, octet: u8) {
    if let Some(slot) = octets.get_mut(place) {
        *slot = octet;
    }
}

/// A packet between the ends of a segment, with its number and without a checksum. `part` is the word with the flags and the
/// place.
pub fn packet_octets(
    alloc: Global,
    s: &Segment<'_>,
    number: u16,
    part: u16,
    payload: &[u8],
) -> Result<Vec<u8>, AllocError> {
    joined(
        alloc,
        &[&ip_header(s, number, part, payload.len()), payload],
    )
}

/// Puts the checksum that is right for as many words as the packet tells that its header has.
pub fn put_header_sum(packet: &mut [u8]) {
    let sum = checksum(&[], told_header(packet));
    put_number(packet, 10, sum);
}

/// As many octets as the packet tells that its header has, or all.
fn told_header(packet: &[u8]) -> &[u8] {
    let words = match packet.first() {
        Some(first) => first % 16,
        None => 0,
    };
    match packet.get(..usize::from(words) * 4) {
        Some(header) => header,
        None => packet,
    }
}

fn ip_header(s: &Segment<'_>, number: u16, part: u16, len: usize) -> [u8; 20] {
    let [a, b, c, d] = s.from.addr;
    let [e, f, g, h] = s.to.addr;
    let [long, short] = ((len % 65_516 + 20) as u16).to_be_bytes();
    let [i, j] = number.to_be_bytes();
    let [top, place] = part.to_be_bytes();
    [
        0x45, 0, long, short, i, j, top, place, 64, 6, 0, 0, a, b, c, d, e, f, g, h,
    ]
}

/// The frame of a packet between the ends of a segment.
pub fn frame_octets(alloc: Global, s: &Segment<'_>, packet: &[u8]) -> Result<Vec<u8>, AllocError> {
    joined(alloc, &[&ether_header(s), packet])
}

fn ether_header(s: &Segment<'_>) -> [u8; 14] {
    let [a, b, c, d, e, f] = s.to.mac;
    let [g, h, i, j, k, l] = s.from.mac;
    [a, b, c, d, e, f, g, h, i, j, k, l, 8, 0]
}
