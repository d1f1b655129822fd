//! What the driver of IPv4 stands on: routes, and datagrams from fragments.
#![tactic(auto)]

// what holds for every list of packets
mod laws;
// datagrams from fragments
mod reasm;
// routes and next hops
mod routes;
// the memory of one pool
mod slot;
// a datagram that is lent
mod whole;

pub use laws::{bytes_stand_for_fragments, datagrams_by_records, gives_datagrams};
pub use reasm::{POOLS, Reasm};
pub use routes::{ROUTES, Route, Routes};
pub use slot::{LIFETIME, MOST_OCTETS};
pub use whole::Whole;

#[cfg(test)]
mod tests;
