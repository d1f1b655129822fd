//! Links: what sends Ethernet frames and receives them, and which addresses are which. What a station does with its frames
//! isn't here.
#![tactic(auto)]

// which Ethernet addresses are which
mod address;
// what sends and receives frames
mod link;
// links in memory
mod memory;
// what a link in memory keeps
mod tape;

pub use address::{is_everyone, is_multicast, is_same};
pub use link::{LEAST_ROOM, Link};
pub use memory::{MemLink, SureLink};
pub use tape::Try;
