//! The receiver of a TCP connection's stream: what a peer's segments make, however they are lost, repeated or
//! reordered.
#![tactic(auto)]

// what holds for every peer and every network
mod laws;
// places and ends of segments
mod placing;
// the receiver
mod receiver;

pub use laws::{accepted_is_front, places_are_true, receiver_tells, steps_give_front};
pub use receiver::Recv;

#[cfg(test)]
mod tests;
