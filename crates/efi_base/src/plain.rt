//! Plain data: addresses, moments, and a frame with its moment.
use crate::octets::Bytes;

/// An Ethernet address, in the order in which its octets are sent.
#[derive(Clone, Copy, PartialEq, Eq, Debug)]
pub struct Mac(pub [u8; 6]);

/// An IPv4 address as a number: 10.0.0.1 is 0x0A000001.
#[derive(Clone, Copy, PartialEq, Eq, Debug, Default)]
pub struct Ip4(pub u32);

/// An address with the mask of its network, ones in front.
#[derive(Clone, Copy, PartialEq, Eq, Debug)]
pub struct Addr {
    pub ip: Ip4,
    pub mask: u32,
}

/// The peer of a connection: its address and port.
#[derive(Clone, Copy, PartialEq, Eq, Debug)]
pub struct Peer {
    pub addr: Ip4,
    pub port: u16,
}

/// A moment, in ticks of one millisecond.
#[derive(Clone, Copy, PartialEq, Eq, Debug)]
pub struct Tick(pub u64);

/// A frame, and the moment at which it was sent or heard.
#[derive(Debug, Drop)]
pub struct Record {
    pub tick: Tick,
    pub frame: Bytes,
}
