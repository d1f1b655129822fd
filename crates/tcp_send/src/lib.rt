//! The sender of a TCP connection's stream: which octets go in which segment at which tick, by the window of the peer, at
//! most eight segments in flight, and one timer that doubles. SYNs, acknowledgments of what is heard and the
//! connection's states aren't here.
#![tactic(auto)]

// when something goes again
mod backoff;
// segments in flight
mod flight;
// what holds for every list of calls
mod laws;
// places and sequence numbers
mod numbers;
// the peer's window
mod peer_window;
// the sender
mod sender;
// octets that are kept
mod text;

pub use backoff::{Backoff, SEGMENT_ROWS, SYN_ROWS};
pub use flight::Segment;
pub use laws::{
    acknowledgments_name_places, calls_give_true_cuts, rows_double, segments_go_again_at_rows,
    ticks_are_quiet,
};
pub use peer_window::SendWindow;
pub use sender::Send;
pub use text::Cut;
