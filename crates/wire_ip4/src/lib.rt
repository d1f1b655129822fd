//! IPv4 packets, and the ICMP messages in them.
#![tactic(auto)]

// ICMP messages
mod message;
// IPv4 packets
mod packet;

pub use message::{Icmp, read_icmp, write_icmp};
pub use packet::{Ip, read_ip, read_ip_unverified, write_ip};
