//! What children are configured with, what they ask for, and what is handed down. Who does it isn't here.
ghost use Rattle.std.specs.Prelude.{◌≡◌, option_copied};
ghost use Rattle.drv_ip4.specs.Works.{kind_of, is_transmit, cfg_fault};

use efi_base::{Addr, Bytes, Field, Ip4, IpPacket, Proto, Refuse, Ticket, is_mask, is_unicast};
use efi_book::Kinded;

/// The kind of handles of this protocol.
#[derive(Clone, Copy, PartialEq, Eq, Debug)]
pub struct Ip4K;

/// The address of a child, and which datagrams it hears.
#[derive(Clone, Copy, PartialEq, Eq, Debug)]
pub struct IpCfg {
    /// The child's address, `None` for the default one.
    pub at: Option<Addr>,
    /// The number of the protocol above.
    pub proto: u8,
    /// Datagrams of whatever protocol.
    pub any: bool,
}

/// A datagram that is to be sent, from the child's address.
#[derive(Drop)]
pub struct IpTx {
    pub dest: Ip4,
    /// The number of the protocol above.
    pub proto: u8,
    /// How many routers it may pass, plus one.
    pub ttl: u8,
    /// It may not be cut into fragments.
    pub df: bool,
    /// At most 65,515 octets, and with `df` at most 1,480.
    pub payload: Bytes,
}

/// What a token of a child is for.
#[derive(Drop)]
pub enum IpWork {
    /// Ends once the datagram went.
    Transmit(IpTx),
    /// Ends with the next datagram that the child hears; what it is handed in with counts for nothing.
    Receive(Option<IpPacket>),
}

/// To whom a datagram is handed.
#[derive(Clone, Copy, PartialEq, Eq, Debug)]
pub enum Hop {
    /// All stations of the network.
    Everyone,
    /// The station of this address.
    To(Ip4),
}

/// A datagram for the layer below, whole.
#[derive(Drop)]
pub struct Sending {
    /// The driver and the ticket that wait for its sending.
    pub waits: Option<(Proto, Ticket)>,
    pub hop: Hop,
    pub src: Ip4,
    pub dest: Ip4,
    pub proto: u8,
    pub ttl: u8,
    pub df: bool,
    /// Its identification (RFC 791).
    pub id: u16,
    pub payload: Bytes,
}

/// The kinds of works.
pub(crate) const TRANSMIT: u32 = 1;

pub(crate) const RECEIVE: u32 = 2;

impl Kinded for IpWork {
    ghost use Rattle.drv_ip4.specs.Works.{kind_of as kind_of_work};

    ghost kind_of = { kind_of_work };

    fn kind(&self) -> u32 {
        match self {
            IpWork::Transmit(_) => TRANSMIT,
            IpWork::Receive(_) => RECEIVE,
        }
    }
}

/// What is wrong with a configuration. Only a child of the stack's own may have the address 0.0.0.0.
pub(crate) fn cfg_fault(cfg: IpCfg, is_own: bool) -> Option<Refuse>
    ensures { result ≡ cfg_fault cfg is_own }
{
    let Some(at) = cfg.at else {
        return None;
    };
    if !is_unicast(at.ip) && !(is_own && at.ip.0 == 0) {
        return Some(Refuse::BadConfig(Field::Address));
    }
    if !is_mask(at.mask) {
        return Some(Refuse::BadConfig(Field::Mask));
    }
    None
}

/// Whether there is a work, and it is a datagram to send.
pub(crate) fn is_transmit(work: Option<&IpWork>) -> bool
    ensures { result ≡ is_transmit (option_copied work.entry) }
{
    match work {
        Some(IpWork::Transmit(_)) => true,
        Some(IpWork::Receive(_)) => false,
        None => false,
    }
}
