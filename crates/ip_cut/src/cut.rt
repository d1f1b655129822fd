//! A datagram to send, and each of the packets that it is sent as. Their octets aren't here.
ghost use Rattle.std.specs.Prelude.{◌≡◌, ◌+◌, ◌%◌, ◌≤◌, length, take, drop, slice_get, Some};
ghost use Rattle.wire_ip4.specs.Seen.{packet_seen};
ghost use Rattle.ip_cut.specs.Cutting.{cuts_of, packets_of};
ghost use Rattle.ip_cut.specs.Sent.{sending_seen};

use efi_base::Ip4;
use wire_ip4::Ip;

/// How many octets of payload a packet has at most on a link that carries 1,500: 20 are the header. It is a multiple of 8, as
/// each fragment but the last needs.
pub const MOST_PART: usize = 1_480;

/// A datagram to send, of at most 65,515 octets of payload. Numbers are in host order; `df` is the bit that says that it may
/// not be cut.
#[derive(Clone, Copy, PartialEq, Eq, Debug)]
pub struct Outgoing<'a> {
    pub src: Ip4,
    pub dest: Ip4,
    pub proto: u8,
    pub ttl: u8,
    pub df: bool,
    pub id: u16,
    pub payload: &'a [u8],
}

/// As how many packets a datagram is sent that has so many octets of payload: one, or its fragments.
pub fn fragment_count(len: usize) -> usize
    ensures { result ≡ cuts_of len + 1 }
{
    len.saturating_sub(1) / MOST_PART + 1
}

/// The packet of this number, from 0 on, that a datagram is sent as (RFC 791, section 3.2).
pub fn fragment_of<'a>(d: &Outgoing<'a>, i: usize) -> Ip<'a>
    requires payload { length d.now.payload.now ≤ 65515 }
    requires number { i ≤ cuts_of (length d.now.payload.now) }
    ensures packet { slice_get (packets_of (sending_seen d.now)) i ≡ Some (packet_seen result) }
    // It has a spelling, of at most 1,500 octets.
    ensures place { result.place % 8 ≡ 0 }
    ensures part { length result.payload.now ≤ 1480 }
{
    let place = i * MOST_PART;
    Ip {
        src: d.src,
        dest: d.dest,
        proto: d.proto,
        id: d.id,
        df: d.df,
        mf: i + 1 < fragment_count(d.payload.len()),
        place: place as u16,
        ttl: d.ttl,
        payload: part_at(d.payload, place, MOST_PART),
    }
}

/// The octets from a place on, so many at most.
fn part_at(bytes: &[u8], place: usize, most: usize) -> &[u8]
    requires { place ≤ length bytes.now }
    ensures part { result.now ≡ take most (drop place bytes.now) }
    ensures most { length result.now ≤ most }
{
    front(&bytes[place..], most)
}

/// The first octets, so many at most.
fn front(bytes: &[u8], most: usize) -> &[u8]
    ensures front { result.now ≡ take most bytes.now }
    ensures most { length result.now ≤ most }
{
    if bytes.len() <= most {
        return bytes;
    }
    &bytes[..most]
}
