//! UDP4 of UEFI (RFC 768): children that send and hear datagrams at their ports. How a datagram finds its way, and from
//! where packets come, isn't here.
#![tactic(auto)]

// the driver and its calls
mod driver;
// which children hear a datagram
mod hearing;
// what a message that a port took nothing does
mod icmp;
// what holds of what a datagram does
mod laws;
// which addresses a datagram is for
mod networks;
// which port a child gets
mod ports;
// why calls are refused
mod refusing;
// datagrams that are sent
mod sending;
// tokens that end with time, and with the default address
mod waiting;
// configurations, works and messages
mod work;

pub use driver::DrvUdp4;
pub use laws::a_datagram_ends_receives_of_its_hearers_alone;
pub use work::{Udp4, UdpCfg, UdpOut, UdpTx, UdpWork};
