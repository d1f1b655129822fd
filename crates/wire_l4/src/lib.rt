//! UDP datagrams and TCP segments.
#![tactic(auto)]

// UDP datagrams
mod datagram;
// what holds of the formats
mod laws;
// the options of a TCP header
mod options;
// the octets that a checksum covers besides the message
mod pseudo;
// TCP segments
mod segment;

pub use datagram::{Udp, read_udp, write_udp};
pub use laws::{
    flags_are_at_their_places, written_datagram_is_read_again, written_segment_is_read_again,
};
pub use segment::{ACK, FIN, PSH, RST, SYN, Tcp, read_tcp, read_tcp_unverified, write_tcp};
