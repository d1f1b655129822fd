//! Ethernet frames with a type field (RFC 894). What a payload means is the type's affair; the octets past its
//! end, if it was padded, are still in it.
ghost use Rattle.std.specs.Prelude.{◌≡◌, ◌-◌, ◌^◌, ◌<◌, ◌≤◌, ◌++◌, max, length, take, drop, replicate, Some, IfOk};
ghost use Rattle.byteorder.specs.Endian.{big_bytes};
ghost use Rattle.efi_base.specs.Reads.{ReadsAs};
ghost use Rattle.efi_base.specs.Writes.{Writes};
ghost use Rattle.wire_link.specs.Ether.{frame_of, frame_text, padded};
ghost use Rattle.wire_link.specs.Seen.{frame_seen};

use crate::fields::{mac_at, put_mac};
use byteorder::{BigEndian, ByteOrder};
use efi_base::{Bad, Mac, NoRoom, put_parts, u16_at};

/// A frame whose payload lies in the octets that were read. `proto` is the type in host order.
#[derive(Clone, Copy, PartialEq, Eq, Debug)]
pub struct Ether<'a> {
    pub dest: Mac,
    pub src: Mac,
    pub proto: u16,
    pub payload: &'a [u8],
}

/// The octets in front of the payload.
const HEADER: usize = 14;

/// The octets of the shortest frame, without its check sequence.
const LEAST: usize = 60;

/// Reads a frame. Fewer than 14 octets are none.
pub fn read_ether(bytes: &[u8]) -> Result<Ether<'_>, Bad>
    ensures read { ReadsAs frame_seen result (frame_of bytes.now) }
    // The octets spell what was read.
    ensures spelled { IfOk result (λ e. bytes.now ≡ frame_text (frame_seen e)) }
{
    if bytes.len() < HEADER {
        return Err(Bad);
    }
    Ok(Ether {
        dest: mac_at(bytes, 0),
        src: mac_at(bytes, 6),
        proto: u16_at(bytes, 12),
        payload: &bytes[HEADER..],
    })
}

/// Writes a frame, filled up with zeros to 60 octets. `NoRoom` says that the room is shorter.
pub fn write_ether(v: &Ether<'_>, room: &mut [u8]) -> Result<usize, NoRoom>
    ensures written { Writes (frame_text (padded (frame_seen v.now))) room.old result room.new }
    // What was written is read again, with its padding.
    ensures again { IfOk result (λ n. frame_of (take n room.new) ≡ Some (padded (frame_seen v.now))) }
{
    let header = header_of(v.dest, v.src, v.proto);
    if room.len() < LEAST {
        return Err(NoRoom);
    }
    match put_parts(&header, v.payload, room) {
        Ok(len) => Ok(pad(room, len)),
        Err(no_room) => Err(no_room),
    }
}

/// The octets in front of the payload.
fn header_of(dest: Mac, src: Mac, proto: u16) -> [u8; HEADER]
    ensures text { result ≡ dest.0 ++ (src.0 ++ big_bytes 2 proto) }
    ensures dest { length dest.0 ≡ 6 }
    ensures src { length src.0 ≡ 6 }
    ensures proto { proto < 2 ^ 16 }
{
    let mut octets = [0; HEADER];
    put_mac(&mut octets, dest);
    put_mac(&mut octets[6..], src);
    BigEndian::write_u16(&mut octets[12..], proto);
    octets
}

/// Fills a frame of so many octets up to the shortest, and answers how many it then has.
fn pad(room: &mut [u8], len: usize) -> usize
    requires least { 60 ≤ length room.old }
    requires within { len ≤ length room.old }
    ensures len { result ≡ max 60 len }
    ensures filled { room.new ≡ take len room.old ++ (replicate (60 - len) 0 ++ drop (max 60 len) room.old) }
{
    if len < LEAST {
        room[len..LEAST].fill(0);
        return LEAST;
    }
    len
}
