//! What IP4 and UDP4 hand up. Their forms on the wire aren't here.
use crate::octets::Bytes;
use crate::plain::Ip4;

/// A datagram of IPv4, made whole (RFC 791).
#[derive(Debug, Drop)]
pub struct IpPacket {
    pub src: Ip4,
    pub dest: Ip4,
    /// The protocol above, by its number.
    pub proto: u8,
    pub payload: Bytes,
}

/// A datagram of UDP (RFC 768), with its sender.
#[derive(Debug, Drop)]
pub struct Datagram {
    pub src: Ip4,
    pub sport: u16,
    pub dest: Ip4,
    pub payload: Bytes,
}
