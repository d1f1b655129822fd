//! A TCP connection (RFC 9293): how it opens, lives and ends, and which segments go in which event. The octets that are
//! heard are kept by `tcp_recv`, and those that are sent go by `tcp_send`. Ports, addresses and checksums aren't here.
#![tactic(auto)]

// flags and numbers of heard segments
mod acceptance;
// the connection
mod conn;
// what a cut does to a receiver
mod hearing;
// what holds for every connection
mod laws;
// segments that go out
mod out;
// when a SYN goes again, and when TIME-WAIT ends
mod rows;
// what two sides agree on
mod side;
// the states
mod state;

pub use conn::Conn;
pub use laws::ended_connections_are_silent;
pub use out::SegOut;
pub use state::{ConnEnd, ConnState};
