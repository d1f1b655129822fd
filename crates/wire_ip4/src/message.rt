//! ICMP messages (RFC 792). What a type means isn't here.
ghost use Rattle.std.specs.Prelude.{◌≡◌, ◌%◌, ◌^◌, ◌<◌, ◌++◌, length, take, Some, IfOk};
ghost use Rattle.efi_base.specs.Checksum.{AreOctets, checksum_of};
ghost use Rattle.efi_base.specs.Reads.{ReadsAs};
ghost use Rattle.efi_base.specs.Writes.{Writes};
ghost use Rattle.wire_ip4.specs.Message.{front_text, message_of, message_text};
ghost use Rattle.wire_ip4.specs.Seen.{message_seen};

use byteorder::{BigEndian, ByteOrder};
use efi_base::{Bad, NoRoom, checksum, put_parts, u32_at};

/// A message whose payload lies in the octets that were read. `kind` is what the RFC calls the type. `rest` is the four
/// octets behind the checksum, whose meaning type and code tell, as a number in host order.
#[derive(Clone, Copy, PartialEq, Eq, Debug)]
pub struct Icmp<'a> {
    pub kind: u8,
    pub code: u8,
    pub rest: u32,
    pub payload: &'a [u8],
}

/// The octets in front of the payload.
const FRONT: usize = 8;

/// Reads a message with a right checksum, which fills the octets.
pub fn read_icmp(bytes: &[u8]) -> Result<Icmp<'_>, Bad>
    ensures { ReadsAs message_seen result (message_of bytes.now) }
{
    if bytes.len() < FRONT {
        return Err(Bad);
    }
    if checksum(&[], bytes) != 0 {
        return Err(Bad);
    }
    Ok(Icmp {
        kind: bytes[0],
        code: bytes[1],
        rest: u32_at(bytes, 4),
        payload: &bytes[FRONT..],
    })
}

/// Writes a message. `NoRoom` says that the room is shorter than eight octets and the payload.
pub fn write_icmp(v: &Icmp<'_>, room: &mut [u8]) -> Result<usize, NoRoom>
    ensures written { Writes (message_text (message_seen v.now)) room.old result room.new }
    // What was written is read again.
    ensures again { IfOk result (λ n. message_of (take n room.new) ≡ Some (message_seen v.now)) }
{
    let sum = sum_of(&front_of(*v, 0), v.payload);
    put_parts(&front_of(*v, sum), v.payload, room)
}

/// The first eight octets of a message that has this checksum.
fn front_of(v: Icmp<'_>, sum: u16) -> [u8; FRONT]
    ensures text { result ≡ front_text (message_seen v.entry) sum }
    ensures kind { v.entry.kind < 2 ^ 8 }
    ensures code { v.entry.code < 2 ^ 8 }
    ensures rest { v.entry.rest < 2 ^ 32 }
{
    let mut octets = [0; FRONT];
    octets[0] = v.kind;
    octets[1] = v.code;
    BigEndian::write_u16(&mut octets[2..], sum);
    BigEndian::write_u32(&mut octets[4..], v.rest);
    octets
}

/// The checksum of a message in two parts.
fn sum_of(front: &[u8], payload: &[u8]) -> u16
    requires { length front.now % 2 ≡ 0 }
    ensures sum { result ≡ checksum_of (front.now ++ payload.now) }
    ensures payload { AreOctets payload.now }
{
    checksum(front, payload)
}
