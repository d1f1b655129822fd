//! The segment with which a capture's connection begins: the first that asks for one. It shows the station that is
//! watched, and its peer.
ghost use Rattle.std.specs.Prelude.{◌≡◌, option_map};
ghost use Rattle.ip_core.specs.Bytes.{bytes_kept};
ghost use Rattle.ip_core.specs.Datagrams.{after_event, event_datagram};
ghost use Rattle.ip_core.specs.Frames.{event_of};
ghost use Rattle.ip_core.specs.Seen.{whole_seen};
ghost use Rattle.tap_core.specs.Frames.{any_packet};
ghost use Rattle.tap_core.specs.Openings.{opening_at, opening_in};
ghost use Rattle.tap_core.specs.Seen.{syn_seen};

use crate::packets::read_any;
use efi_base::{Ip4, Mac, Record};
use ip_core::{Reasm, Whole};
use wire_l4::{ACK, SYN, read_tcp_unverified};
use wire_link::read_ether;

/// The protocol of datagrams that hold TCP segments.
pub const TCP: u8 = 6;

/// What a segment that asks for a connection shows: its sender's Ethernet address, both ends of the connection, and the
/// sender's first number.
#[derive(Clone, Copy, PartialEq, Eq, Debug)]
pub struct Syn {
    pub station: Mac,
    pub src: Ip4,
    pub sport: u16,
    pub dest: Ip4,
    pub dport: u16,
    pub seq: u32,
}

/// Takes in the packet of a record, and answers what the datagram asks for that exists at it.
pub fn asked_at(reasm: &mut Reasm, record: &Record) -> Option<Syn>
    ensures asked { option_map syn_seen result ≡ opening_at «record».now (event_datagram bytes_kept reasm.old (event_of any_packet «record».now)) }
    ensures pools { reasm.new ≡ after_event bytes_kept reasm.old (event_of any_packet «record».now) }
{
    let Some(packet) = read_any(record.frame.as_slice()) else {
        reasm.tick(record.tick);
        return None;
    };
    match reasm.put(record.tick, &packet) {
        Some(whole) => asked_in(record.frame.as_slice(), &whole),
        None => None,
    }
}

/// What a datagram of a frame asks for.
#[tactic(auto, unfolding(crate::specs::Openings::opening_in))]
fn asked_in(frame: &[u8], whole: &Whole<'_>) -> Option<Syn>
    ensures { option_map syn_seen result ≡ opening_in frame.now (whole_seen whole.now) }
{
    if whole.proto != TCP {
        return None;
    }
    let Ok(ether) = read_ether(frame) else {
        return None;
    };
    let Ok(segment) = read_tcp_unverified(whole.payload) else {
        return None;
    };
    if segment.flags & (SYN | ACK) != SYN {
        return None;
    }
    Some(Syn {
        station: ether.src,
        src: whole.src,
        sport: segment.sport,
        dest: whole.dest,
        dport: segment.dport,
        seq: segment.seq,
    })
}
