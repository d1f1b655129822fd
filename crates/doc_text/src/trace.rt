//! What a trace of a script tells, a line for each. How it is written isn't here.
use efi_base::{Bytes, End, Ip4, Mac, Peer, Refuse};

/// What came of a token that ended well, by its work.
#[derive(Debug, Drop)]
pub enum TraceUnit {
    /// Nothing is told.
    Nothing,
    /// Octets that were received.
    Octets(Bytes),
    /// The payload of a datagram, behind its source address.
    FromAddress(Ip4, Bytes),
    /// The payload of a UDP datagram, behind its source address and port.
    FromPort(Peer, Bytes),
    /// An Ethernet address.
    Mac(Mac),
    /// An IPv4 address.
    Address(Ip4),
    /// A name.
    Name(Bytes),
    /// The child of the connection that this token accepted.
    Accepted(u64),
    /// A number.
    Number(u64),
    /// The status of a response, and octets of its body.
    Response(u16, Bytes),
}

/// How a token ended.
#[derive(Debug, Drop)]
pub enum TraceEnd {
    Success(TraceUnit),
    /// Another end than success.
    Failed(End),
}

/// A line of a trace.
#[derive(Debug, Drop)]
pub enum TraceLine {
    /// The first line.
    First,
    /// A call was done.
    Done,
    /// The Ethernet address that was asked for is known.
    Found(Mac),
    /// A child was made: its handle, counted from 1.
    Handle(u64),
    /// A token was accepted: its number, counted from 1.
    Token(u64),
    /// A call was refused.
    Refused(Refuse),
    /// The clock stands at this tick.
    Tick(u64),
    /// A frame was heard.
    Heard,
    /// A token ended.
    Fired(u64, TraceEnd),
    /// A frame was sent.
    Sent(Bytes),
    /// The last line.
    Last,
}
