//! What a capture shows of its first connection when it is read passively, as a tap on the station's link sees it.
#![tactic(auto)]

// the segment that accepts the connection
mod answer;
// the stream of the connection, and the load of it
mod download;
// the fragments in front of that segment
mod early;
// what a record adds to a download
mod follow;
// what the station hears from its peer
mod heard;
// what holds of the definitions
mod laws;
// the station, and what it hears record by record
mod listening;
// the segment that asks for the connection
mod opening;
// the packets that frames hold
mod packets;
// what was seen
mod passive;
// how far a tap is
mod stages;
// how many records each station sent in front of it
mod tally;
// the tap that hears record by record
mod tapping;
// what a report tells
mod telling;

pub use laws::{
    honest_body, honest_front, honest_success, shows_one_thing, shows_something, succeeds_exactly,
    success_has_body,
};
pub use passive::Seen;
pub use tapping::Tap;
pub use telling::Shown;
