//! How a load of an image ends. Which case ends it when isn't here.
use crate::response::{CodingField, Part};

/// What of a URI isn't supported.
#[derive(Clone, Copy, PartialEq, Eq, Debug)]
pub enum What {
    /// Its scheme, which isn't `http`.
    Scheme,
    /// Its host, which is no unicast IPv4 address and no name that can be asked for.
    Host,
}

/// How a load ends. Octets count those of the accepted stream or of the body.
#[derive(Clone, Copy, PartialEq, Eq, Debug)]
pub enum LoadEnd {
    /// The stream holds a whole response of status 200, whose body of so many octets fits the buffer.
    Success(u64),
    /// No offer was picked, among so many that were heard.
    NoOffer(u32),
    /// The DHCP server didn't answer the request.
    NoAck,
    /// It refused three requests.
    Nak,
    /// The lease has no URI that can be read.
    BadUri,
    /// Its URI is none for this station.
    Unsupported(What),
    /// The URI has a name, and the lease no DNS server.
    NoDns,
    /// The DNS server answered with this code (RFC 1035, section 4.1.1).
    NameError(u8),
    /// The DNS server knows no address of the name.
    NoAddress,
    /// No DNS server answered.
    DnsTimeout,
    /// No route leads to a server.
    NoRoute,
    /// The next hop's Ethernet address wasn't told, or the lease ended.
    NoMapping,
    /// The peer refused the connection.
    Refused,
    /// The peer didn't answer the attempt to connect.
    ConnectTimeout,
    /// The peer didn't acknowledge what was sent.
    SendTimeout,
    /// The stream is no response, whatever follows.
    BadResponse(Part),
    /// The head is one more redirect than a load follows.
    TooManyRedirects,
    /// The status of the response isn't 200.
    HttpStatus(u16),
    /// The response has a coding that isn't undone here.
    Coding(CodingField),
    /// The body has so many octets, stated or come so far, more than the buffer.
    BufferTooSmall(u64),
    /// The stream ended at this length, and the response isn't whole.
    Truncated(u64),
    /// The peer reset the connection.
    Reset,
    /// The peer sent nothing new for too long.
    Idle,
    /// The last tick was reached, or the capture ended.
    OutOfTime,
    /// The caller wanted no more.
    Aborted,
    /// There was no memory for the work.
    OutOfResources,
    /// The peer accepted no connection.
    NoConnection,
}
