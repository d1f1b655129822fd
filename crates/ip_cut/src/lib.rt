//! What a datagram is sent as: one packet, or fragments (RFC 791, section 3.2). How they are joined again isn't here.
#![tactic(auto)]

// the packets of a datagram
mod cut;
// what its receiver has of them
mod laws;

pub use cut::{MOST_PART, Outgoing, fragment_count, fragment_of};
pub use laws::{packets_are_counted, sent_datagram_is_heard, short_datagram_is_one_packet};
