//! What children are configured with, what they ask for, and what goes to the device. Who does it isn't here.
ghost use Rattle.std.specs.Prelude.{◌≡◌, option_copied};
ghost use Rattle.drv_mnp.specs.Works.{kind_of, is_long, is_transmit};

use crate::framing::MOST_PAYLOAD;
use efi_base::{Bytes, Mac};
use efi_book::Kinded;

/// The kind of handles of this protocol.
#[derive(Clone, Copy, PartialEq, Eq, Debug)]
pub struct Mnp;

/// Which frames a child hears: those of its type, to a destination of a kind that it takes.
#[derive(Clone, Copy, PartialEq, Eq, Debug)]
pub struct MnpCfg {
    /// The type of its frames in host order, 0 for all.
    pub proto: u16,
    /// Frames to the station.
    pub unicast: bool,
    /// Frames to groups other than all.
    pub multicast: bool,
    /// Frames to all.
    pub broadcast: bool,
    /// Frames to whomever.
    pub promiscuous: bool,
}

/// A frame that is to be sent, from this station.
#[derive(Drop)]
pub struct MnpTx {
    pub dest: Mac,
    /// The type of the frame, in host order.
    pub proto: u16,
    /// At most 1,500 octets.
    pub payload: Bytes,
}

/// What a token of a child is for.
#[derive(Drop)]
pub enum MnpWork {
    /// Ends once the link was asked to send the frame.
    Transmit(MnpTx),
    /// Ends with the next frame that the child hears, header and padding included; what it is handed in with counts for
    /// nothing.
    Receive(Option<Bytes>),
}

/// The mark of a frame for which no token waits.
pub const NOBODY: u64 = 0;

/// A frame for the device. Its mark is the ticket of the token that waits for its sending, or `NOBODY`.
#[derive(Drop)]
pub struct Framed {
    pub frame: Bytes,
    pub mark: u64,
}

/// The kinds of works.
pub(crate) const TRANSMIT: u32 = 1;

pub(crate) const RECEIVE: u32 = 2;

impl Kinded for MnpWork {
    ghost use Rattle.drv_mnp.specs.Works.{kind_of as kind_of_work};

    ghost kind_of = { kind_of_work };

    fn kind(&self) -> u32 {
        match self {
            MnpWork::Transmit(_) => TRANSMIT,
            MnpWork::Receive(_) => RECEIVE,
        }
    }
}

/// Whether it is a frame to send with more octets than a frame carries.
pub(crate) fn is_long(work: &MnpWork) -> bool
    ensures { result ≡ is_long work.now }
{
    match work {
        MnpWork::Transmit(tx) => tx.payload.len() > MOST_PAYLOAD,
        MnpWork::Receive(_) => false,
    }
}

/// Whether there is a work, and it is a frame to send.
pub(crate) fn is_transmit(work: Option<&MnpWork>) -> bool
    ensures { result ≡ is_transmit (option_copied work.entry) }
{
    match work {
        Some(MnpWork::Transmit(_)) => true,
        Some(MnpWork::Receive(_)) => false,
        None => false,
    }
}
