//! What waits for a next hop's Ethernet address (RFC 826; RFC 1122, section 2.3.2.2): rounds of requests, and messages in the
//! order of their coming. The addresses that are known, packets and routes aren't here.
#![tactic(auto)]

// what waits as a whole
mod hops;
// what holds over any list of acts, and of ticks
mod laws;
// rounds of requests, and what is due for one
mod round;
// messages that wait, and whose they are
mod wait;

pub use hops::Hops;
pub use laws::{
    each_message_leaves_once, only_next_moments_count, requests_go_by_the_second,
    rounds_and_messages_are_sound,
};
pub use round::{Ask, Round};
pub use wait::{Handed, MOST_WAITS, Wait};
