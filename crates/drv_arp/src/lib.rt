//! The ARP driver (RFC 826): children that ask for Ethernet addresses, with the tokens of their requests, over one cache of
//! neighbours. How a packet is framed, and from where frames come, isn't here.
#![tactic(auto)]

// how a token is accepted
mod accepts;
// what a child asks: configurations, works, and when a request goes again
mod asks;
// the driver
mod driver;
// what holds of the moments of a request
mod laws;
// who has an address
mod ours;
// the station's addresses
mod stations;
// requests that are due, and requests that are answered
mod told;

pub use asks::{ArpCfg, ArpK, ArpWork, Ask};
pub use driver::DrvArp;
pub use laws::a_request_goes_each_gap;
pub use stations::Station;
