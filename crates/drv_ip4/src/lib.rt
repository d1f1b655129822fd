//! IP4 of UEFI: children that send and hear datagrams (RFC 791), the default address, routes, and answers by ICMP. How a
//! next hop's Ethernet address is found, how a datagram is cut into packets, and frames aren't here.
#![tactic(auto)]

// the end of tokens that rest on a default address
mod defaults;
// the driver and its calls
mod driver;
// which children hear a datagram
mod hearing;
// answers by ICMP
mod icmp;
// what holds of what a packet does
mod laws;
// addresses and routes
mod net;
// what is handed down
mod sending;
// configurations, works and messages
mod work;

pub use driver::DrvIp4;
pub use laws::a_packet_ends_receives_of_its_hearers_alone;
pub use work::{Hop, Ip4K, IpCfg, IpTx, IpWork, Sending};
