//! Ethernet frames, and address resolution for IPv4 over them.
#![tactic(auto)]

// addresses at their places
mod fields;
// Ethernet frames with a type field
mod frame;
// what holds of the formats
mod laws;
// address resolution
mod resolution;

pub use frame::{Ether, read_ether, write_ether};
pub use laws::operations_have_their_numbers;
pub use resolution::{Arp, REPLY, REQUEST, read_arp, write_arp};
