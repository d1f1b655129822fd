//! Tokens: the work that a caller hands in and gets back with its end. Which of them are pending isn't here.
use crate::load_end::LoadEnd;
use crate::response::Part;

/// The serial of a child, new for each child of a run.
#[derive(Clone, Copy, PartialEq, Eq, Debug)]
pub struct ChildId(pub u64);

/// The name of a token within its driver. Tickets rise by one from 1.
#[derive(Clone, Copy, PartialEq, Eq, Debug)]
pub struct Ticket(pub u64);

/// The number of a token that a caller of the stack handed in, counted from 1 in the order of acceptance.
#[derive(Clone, Copy, PartialEq, Eq, Debug)]
pub struct TokenId(pub u64);

/// The drivers that have children.
#[derive(Clone, Copy, PartialEq, Eq, Debug)]
pub enum Proto {
    Mnp,
    Arp,
    Ip4,
    Udp4,
    Tcp4,
    Dhcp4,
    Dns4,
    Mtftp4,
    Http,
    Boot,
}

/// For whom a token is done.
#[derive(Clone, Copy, PartialEq, Eq, Debug)]
pub enum Owner {
    /// A caller of the stack.
    User(TokenId),
    /// A driver above, for its token of this ticket.
    Upper(Proto, Ticket),
}

/// What a token ends with.
#[derive(Clone, Copy, PartialEq, Eq, Debug)]
pub enum End {
    /// What was asked for is done.
    Success,
    /// It was cancelled, or its child was reset or destroyed.
    Aborted,
    /// The link failed to send the frame.
    DeviceError,
    /// The next hop's Ethernet address wasn't told, or the default address that the child uses ended.
    NoMapping,
    /// Nothing came within the child's time for receiving.
    ReceiveTimeout,
    /// The peer's port took no datagram (RFC 792, code 3).
    PortUnreachable,
    /// The stream is no response, whatever follows.
    BadResponse(Part),
    /// The peer's FIN was reached.
    ConnectionFin,
    /// The peer reset the connection.
    ConnectionReset,
    /// The peer refused the connection.
    ConnectionRefused,
    /// The peer didn't answer the attempt to connect.
    ConnectTimeout,
    /// The peer didn't acknowledge what was sent.
    SendTimeout,
    /// No offer was picked, among so many that were heard.
    NoOffer(u32),
    /// The DHCP server didn't answer the request.
    NoAck,
    /// It refused.
    Nak,
    /// The DNS server answered with this code (RFC 1035, section 4.1.1).
    NameError(u8),
    /// The DNS server knows no address of the name, or no name of the address.
    NoAddress,
    /// No DNS server answered.
    DnsTimeout,
    /// The TFTP server answered with this error (RFC 1350, appendix).
    TftpError(u16),
    /// The TFTP server didn't answer.
    TftpTimeout,
    /// The file has more blocks than numbers are there for them.
    TooManyBlocks,
    /// What came has so many octets, more than the room.
    BufferTooSmall(u64),
    /// No route leads to a server.
    NoRoute,
    /// A load ended so.
    Load(LoadEnd),
    /// There was no memory for the work.
    OutOfResources,
}
