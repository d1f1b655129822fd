//! The octets that a checksum covers in front of a TCP segment or a UDP datagram (RFC 9293, section 3.1; RFC 768), and
//! that checksum.
ghost use Rattle.std.specs.Prelude.{◌≡◌, ◌+◌, ◌%◌, ◌^◌, ◌<◌, ◌≤◌, ◌++◌, length};
ghost use Rattle.efi_base.specs.Checksum.{AreOctets};
ghost use Rattle.wire_l4.specs.Pseudo.{pseudo_header, message_sum};

use byteorder::{BigEndian, ByteOrder};
use efi_base::{Ip4, checksum};

/// The octets of the pseudo header.
const PSEUDO: usize = 12;

/// The octets of the longest header that is written.
const LONGEST: usize = 28;

/// The checksum of a message of this protocol with its pseudo header. It is 0 where the message's own checksum is
/// right.
pub(crate) fn message_checksum(src: Ip4, dest: Ip4, proto: u8, message: &[u8]) -> u16
    requires { length message.now < 2 ^ 16 }
    ensures { result ≡ message_sum src.0 dest.0 proto message.now }
{
    checksum(
        &pseudo_header_of(src, dest, proto, message.len() as u16),
        message,
    )
}

/// The same of a message that isn't in one piece.
pub(crate) fn parts_checksum(src: Ip4, dest: Ip4, proto: u8, header: &[u8], payload: &[u8]) -> u16
    requires even { length header.now % 2 ≡ 0 }
    requires longest { length header.now ≤ 28 }
    requires bound { length header.now + length payload.now < 2 ^ 16 }
    ensures sum { result ≡ message_sum src.0 dest.0 proto (header.now ++ payload.now) }
    ensures octets { AreOctets payload.now }
{
    let len = (header.len() + payload.len()) as u16;
    let end = PSEUDO + header.len();
    let mut front = [0; PSEUDO + LONGEST];
    front[..PSEUDO].copy_from_slice(&pseudo_header_of(src, dest, proto, len));
    front[PSEUDO..end].copy_from_slice(header);
    checksum(&front[..end], payload)
}

/// The pseudo header of a message of this protocol and so many octets.
fn pseudo_header_of(src: Ip4, dest: Ip4, proto: u8, len: u16) -> [u8; PSEUDO]
    ensures { result ≡ pseudo_header src.0 dest.0 proto len }
{
    let mut octets = [0; PSEUDO];
    BigEndian::write_u32(&mut octets, src.0);
    BigEndian::write_u32(&mut octets[4..], dest.0);
    octets[9] = proto;
    BigEndian::write_u16(&mut octets[10..], len);
    octets
}
