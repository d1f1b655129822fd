//! What children are configured with, what they ask for, and what goes to the layer below. Who does it isn't here.
ghost use Rattle.std.specs.Prelude.{◌≡◌, ◌≤◌, ◌^◌, option_copied};
ghost use Rattle.drv_udp4.specs.Udps.{done_of, raised_of};
ghost use Rattle.drv_udp4.specs.Works.{after, ask_of, is_transmit};

use efi_base::{Addr, Bytes, Datagram, Ip4, Peer, Proto, Tick, Ticket};
use efi_book::{Done, Kinded, Raised};

/// The kind of handles of this protocol.
#[derive(Clone, Copy, PartialEq, Eq, Debug)]
pub struct Udp4;

/// From where a child sends, and which datagrams it hears.
#[derive(Clone, Copy, PartialEq, Eq, Debug)]
pub struct UdpCfg {
    /// The child's address; `None` is the default one.
    pub at: Option<Addr>,
    /// The child's port, in host order; 0 asks for one that no child has.
    pub port: u16,
    /// Other children that say so may have the same address and port.
    pub share: bool,
    /// The only address and port from which it hears.
    pub peer: Option<Peer>,
    /// It hears broadcasts too.
    pub broadcast: bool,
    /// For how many ticks a receive token waits, 0 without end.
    pub timeout: u32,
}

/// A datagram that is to be sent, from the child's address and port.
#[derive(Drop)]
pub struct UdpTx {
    pub dest: Ip4,
    /// The port to which it goes, in host order.
    pub port: u16,
    /// At most 65,507 octets.
    pub payload: Bytes,
}

/// What a token of a child is for.
#[derive(Drop)]
pub enum UdpWork {
    /// Ends once the datagram went to its next hop.
    Transmit(UdpTx),
    /// Ends with the next datagram that the child hears; what it is handed in with counts for nothing.
    Receive(Option<Datagram>),
}

/// A datagram for the layer below, as the payload of a packet of protocol 17.
#[derive(Drop)]
pub struct UdpOut {
    /// The token that waits for its sending.
    pub waits: Option<(Proto, Ticket)>,
    /// From this address; `None` is the default one.
    pub from: Option<Addr>,
    pub dest: Ip4,
    /// The octets of header and data (RFC 768).
    pub text: Bytes,
}

/// A work, and the moment at which it ends where nothing comes.
#[derive(Drop)]
pub struct Ask {
    pub work: UdpWork,
    pub until: Option<Tick>,
}

/// The kinds of works.
pub(crate) const TRANSMIT: u32 = 1;

pub(crate) const RECEIVE: u32 = 2;

impl Kinded for Ask {
    ghost use Rattle.drv_udp4.specs.Works.{kind_of_ask};

    ghost kind_of = { kind_of_ask };

    fn kind(&self) -> u32 {
        match &self.work {
            UdpWork::Transmit(_) => TRANSMIT,
            UdpWork::Receive(_) => RECEIVE,
        }
    }
}

/// So many ticks after a moment, where 0 is never.
fn after(now: Tick, timeout: u32) -> Option<Tick>
    requires { now.0 ≤ 2 ^ 62 }
    ensures { result ≡ after now timeout }
{
    if timeout == 0 {
        return None;
    }
    Some(Tick(now.0 + timeout as u64))
}

/// What is asked at a moment by a child with this time for receiving.
pub(crate) fn ask_at(now: Tick, timeout: u32, work: UdpWork) -> Ask
    requires { now.0 ≤ 2 ^ 62 }
    ensures { result ≡ ask_of now timeout work }
{
    match work {
        UdpWork::Transmit(tx) => Ask {
            work: UdpWork::Transmit(tx),
            until: None,
        },
        UdpWork::Receive(got) => Ask {
            work: UdpWork::Receive(got),
            until: after(now, timeout),
        },
    }
}

/// Whether there is an asking, and it is for a datagram to send.
pub(crate) fn is_transmit(ask: Option<&Ask>) -> bool
    ensures { result ≡ is_transmit (option_copied ask.entry) }
{
    match ask {
        Some(ask) => match &ask.work {
            UdpWork::Transmit(_) => true,
            UdpWork::Receive(_) => false,
        },
        None => false,
    }
}

/// A caller's ended token with its work alone.
pub(crate) fn plain_done(d: Done<Ask>) -> Done<UdpWork>
    ensures { result ≡ done_of d }
{
    Done {
        ticket: d.ticket,
        child: d.child,
        token: d.token,
        end: d.end,
        work: d.work.work,
    }
}

/// An ended token of a driver above with its work alone.
pub(crate) fn plain_raised(d: Raised<Ask>) -> Raised<UdpWork>
    ensures { result ≡ raised_of d }
{
    Raised {
        ticket: d.ticket,
        child: d.child,
        proto: d.proto,
        waits: d.waits,
        end: d.end,
        work: d.work.work,
    }
}
