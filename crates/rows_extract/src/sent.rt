//! What the steps put into a capture: what a station and its peer send on one connection, a frame in each record.
use crate::fault::RowFault;
use crate::steps::{ACK, FIN, Manner, RST, SYN, Step};
use crate::text::{numbers_of, octets_of, pair_of, repeated};
use std::alloc::Global;
use test_frames::{
    Segment, Station, Sums, Writer, frame_octets, packet_octets, put_head, put_header_sum,
    put_octet, put_record, segment_octets,
};

/// The peer's stream, and the numbers with which the station and the peer begin.
#[derive(Clone, Copy)]
pub(crate) struct Plan<'a> {
    pub stream: &'a [u8],
    pub iss: u32,
    pub irs: u32,
}

const STATION: Station = Station {
    mac: [2, 0, 0, 0, 0, 1],
    addr: [10, 0, 0, 2],
    port: 49_153,
};

const PEER: Station = Station {
    mac: [2, 0, 0, 0, 0, 2],
    addr: [10, 0, 0, 1],
    port: 80,
};

/// The number of a packet in fragments, and of each other one, where the step tells none.
const NUMBER: u16 = 7;

/// How many octets of a segment each of its fragments has, and how many eights these are.
const FRAGMENT: usize = 16;

const FRAGMENT_EIGHTS: u16 = 2;

/// The flag of fragments behind which more come.
const MORE: u16 = 0x2000;

/// Puts the records of a step.
pub(crate) fn put_step(
    writer: &mut Writer,
    plan: &Plan<'_>,
    step: Step<'_>,
) -> Result<(), RowFault> {
    let alloc = writer.alloc;
    let payload = payload_of(alloc, plan, step)?;
    let options = options_of(alloc, step)?;
    let s = Segment {
        payload: &payload,
        options: &options,
        ..segment_of(plan, step)
    };
    let octets = segment_octets(alloc, sums_of(step), &s)?;
    put_segment(writer, step, &s, &octets)
}

fn put_segment(
    writer: &mut Writer,
    step: Step<'_>,
    s: &Segment<'_>,
    octets: &[u8],
) -> Result<(), RowFault> {
    match step {
        Step::Stray => put_stray(writer),
        Step::Record(len) => Ok(put_head(writer, len)?),
        Step::Wait(time) => {
            writer.time = writer.time.wrapping_add(time);
            Ok(())
        }
        Step::Ask => put_blank(writer, s, octets),
        Step::AskInFragments | Step::Part(Manner::InFragments, _, _) => put_fragments(
            writer, s, octets,
        ),
        Step::Packet(zeros, text) => put_altered(writer, s, octets, zeros, text),
        Step::Fragment(more, number, from, to) => {
            let octets = part(octets, from, to)?;
            put_fragment(writer, s, number, part_word(more, from), octets)
        }
        Step::Flood(more, first, count, places) => put_flood(
            writer,
            s,
            more,
            (first, count),
            places,
        ),
        _ => put_fragment(writer, s, NUMBER, 0, octets),
    }
}

fn put_stray(writer: &mut Writer) -> Result<(), RowFault> {
    put_record(writer, &[2, 0, 0, 0, 0, 2, 2, 0, 0, 0, 0, 1, 8])?;
    Ok(())
}

/// The octets from the one place to the other.
fn part(octets: &[u8], from: u32, to: u32) -> Result<&[u8], RowFault> {
    match octets.get(from as usize..to as usize) {
        Some(part) => Ok(part),
        None => Err(RowFault::Text("a part that isn't there")),
    }
}

/// The octets of a segment's payload.
fn payload_of(alloc: Global, plan: &Plan<'_>, step: Step<'_>) -> Result<Vec<u8>, RowFault> {
    match step {
        Step::Text(_, _, text) => octets_of(alloc, text),
        Step::Many(_, count, text) => {
            let octets = octets_of(alloc, text)?;
            repeated(alloc, &octets, count)
        }
        Step::Part(Manner::Other, from, to) => repeated(alloc, b"x", to.saturating_sub(from)),
        _ => {
            let octets = stream_part(plan, step)?;
            repeated(alloc, octets, 1)
        }
    }
}

/// The octets of the stream, or other ones, that a step sends as they are.
fn stream_part<'a>(plan: &Plan<'a>, step: Step<'_>) -> Result<&'a [u8], RowFault> {
    match step {
        Step::Send => Ok(b"GET / HTTP/1.1\r\n\r\n"),
        Step::Part(_, from, to) => part(plan.stream, from, to),
        Step::Header(_, _) | Step::Packet(_, _) | Step::Fragment(_, _, _, _) => Ok(plan.stream),
        _ => Ok(&[]),
    }
}

fn options_of(alloc: Global, step: Step<'_>) -> Result<Vec<u8>, RowFault> {
    match step {
        Step::Header(_, text) => numbers_of(alloc, text),
        _ => Ok(Vec::new(alloc)),
    }
}

fn sums_of(step: Step<'_>) -> Sums {
    match step {
        Step::Ask => Sums::Blank,
        Step::Part(Manner::Damaged, _, _) => Sums::Damaged,
        _ => Sums::Right,
    }
}

/// The segment of a step, without its octets.
fn segment_of(plan: &Plan<'_>, step: Step<'_>) -> Segment<'static> {
    match step {
        Step::Ask | Step::AskInFragments | Step::AskAnother | Step::Send => from_station(
            plan, step,
        ),
        _ => from_peer(plan, step),
    }
}

fn from_station(plan: &Plan<'_>, step: Step<'_>) -> Segment<'static> {
    let asks = Segment {
        from: STATION,
        to: PEER,
        seq: plan.iss,
        ack: 0,
        offset: 0x50,
        flags: SYN,
        options: &[],
        payload: &[],
    };
    match step {
        Step::AskAnother => Segment {
            from: Station {
                port: STATION.port + 1,
                ..STATION
            },
            to: Station { port: 8080, ..PEER },
            seq: plan.iss.wrapping_add(1_000),
            ..asks
        },
        Step::Send => Segment {
            seq: plan.iss.wrapping_add(1),
            ack: plan.irs.wrapping_add(1),
            flags: ACK,
            ..asks
        },
        _ => asks,
    }
}

fn from_peer(plan: &Plan<'_>, step: Step<'_>) -> Segment<'static> {
    let (flags, place) = flags_and_place(step);
    Segment {
        from: Station {
            port: port_of(step),
            ..PEER
        },
        to: STATION,
        seq: plan.irs.wrapping_add(place),
        ack: plan.iss.wrapping_add(1).wrapping_add(further(step)),
        offset: offset_of(step),
        flags,
        options: &[],
        payload: &[],
    }
}

/// The flags of a step of the peer, and how far its number is from that with which the peer begins.
fn flags_and_place(step: Step<'_>) -> (u8, u32) {
    match step {
        Step::Accept(_) | Step::Part(Manner::Accepting, _, _) => (SYN | ACK, 0),
        Step::AcceptAt(later) => (SYN | ACK, later),
        Step::Reset(place) => (RST | ACK, place.wrapping_add(1)),
        Step::Part(Manner::Last, from, _) => (FIN | ACK, from.wrapping_add(1)),
        Step::Part(_, from, _) => (ACK, from.wrapping_add(1)),
        Step::Text(flags, place, _) => (flags, place.wrapping_add(1)),
        Step::Many(place, _, _) => (ACK, place.wrapping_add(1)),
        _ => (ACK, 1),
    }
}

/// How many numbers more than those that the station used are acknowledged.
fn further(step: Step<'_>) -> u32 {
    match step {
        Step::Accept(more) => more,
        _ => 0,
    }
}

fn port_of(step: Step<'_>) -> u16 {
    match step {
        Step::Part(Manner::FromElsewhere, _, _) => 81,
        _ => PEER.port,
    }
}

fn offset_of(step: Step<'_>) -> u8 {
    match step {
        Step::Header(offset, _) => offset,
        _ => 0x50,
    }
}

/// Puts a packet in a record.
fn put_packet(writer: &mut Writer, s: &Segment<'_>, packet: &[u8]) -> Result<(), RowFault> {
    let frame = frame_octets(writer.alloc, s, packet)?;
    put_record(writer, &frame)?;
    Ok(())
}

/// Puts a segment in a packet without a checksum.
fn put_blank(writer: &mut Writer, s: &Segment<'_>, octets: &[u8]) -> Result<(), RowFault> {
    let packet = packet_octets(writer.alloc, s, NUMBER, 0, octets)?;
    put_packet(writer, s, &packet)
}

/// Puts these octets in a packet with a number and this word with the flags and the place.
fn put_fragment(
    writer: &mut Writer,
    s: &Segment<'_>,
    number: u16,
    word: u16,
    octets: &[u8],
) -> Result<(), RowFault> {
    let mut packet = packet_octets(writer.alloc, s, number, word, octets)?;
    put_header_sum(&mut packet);
    put_packet(writer, s, &packet)
}

/// Puts the octets of a segment in fragments.
fn put_fragments(writer: &mut Writer, s: &Segment<'_>, octets: &[u8]) -> Result<(), RowFault> {
    let mut place = 0u16;
    let mut left = octets.len();
    for piece in octets.chunks(FRAGMENT) {
        left = left.saturating_sub(piece.len());
        let word = if left > 0 { MORE | place } else { place };
        put_fragment(writer, s, NUMBER, word, piece)?;
        place = place.wrapping_add(FRAGMENT_EIGHTS);
    }
    Ok(())
}

/// The word with the flags and the place.
fn part_word(more: bool, from: u32) -> u16 {
    let place = (from / 8 % 0x2000) as u16;
    if more { MORE | place } else { place }
}

/// Puts so many fragments with these numbers from the first on, a record each, of nothing but `x`.
fn put_flood(
    writer: &mut Writer,
    s: &Segment<'_>,
    more: bool,
    numbers: (u16, u16),
    places: &str,
) -> Result<(), RowFault> {
    let Some((from, to)) = pair_of(places) else {
        return Err(RowFault::Text("a flood without its places"));
    };
    let (first, count) = numbers;
    let octets = repeated(writer.alloc, b"x", to.saturating_sub(from))?;
    for index in 0..count {
        put_fragment(
            writer,
            s,
            first.wrapping_add(index),
            part_word(more, from),
            &octets,
        )?;
    }
    Ok(())
}

/// Puts a segment in a packet whose header is altered, with so many zeros behind it. The checksum is right for the altered header,
/// where it isn't among what is altered.
fn put_altered(
    writer: &mut Writer,
    s: &Segment<'_>,
    octets: &[u8],
    zeros: u32,
    text: &str,
) -> Result<(), RowFault> {
    let alloc = writer.alloc;
    let changes = numbers_of(alloc, text)?;
    if changes.len() % 2 != 0 {
        return Err(RowFault::Text("a place without its octet"));
    }
    let mut packet = packet_octets(alloc, s, NUMBER, 0, octets)?;
    alter(&mut packet, &changes);
    put_header_sum(&mut packet);
    alter(&mut packet, &changes);
    let behind = repeated(alloc, &[0], zeros)?;
    packet.extend_from_slice(&behind)?;
    put_packet(writer, s, &packet)
}

/// Puts octets at places, by pairs of a place and an octet.
fn alter(packet: &mut [u8], changes: &[u8]) {
    for change in changes.chunks_exact(2) {
        if let [place, octet] = change {
            put_octet(packet, usize::from(*place), *octet);
        }
    }
}
