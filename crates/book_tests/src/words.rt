//! A driver for tests: its protocol, its works, and its core.
use efi_base::{NoMemory, Owner, Refuse, Ticket, TokenId};
use efi_book::{Core, Done, Handle, Kinded};
use std::alloc::Global;

/// The protocol of these tests.
#[derive(Clone, Copy, PartialEq, Eq, Debug)]
pub struct Nic;

/// A frame of a kind.
#[derive(Clone, Copy, PartialEq, Eq, Debug)]
pub struct Frame(pub u32);

impl Kinded for Frame {
    ghost kind_of = { λ f. f.0 };

    fn kind(&self) -> u32 {
        self.0
    }
}

/// A core whose configurations are numbers, and whose messages are octets.
pub type Nics = Core<Nic, u16, Frame, u8>;

/// A core with room for one own child, whose next serial and ticket are these.
pub fn core_at(alloc: Global, serial: u64, ticket: u64) -> Result<Nics, NoMemory> {
    Core::starting_at(alloc, Nic, 1, serial, Ticket(ticket))
}

/// Posts a frame of a caller, and says its ticket or why not.
pub fn post(core: &mut Nics, h: Handle<Nic>, token: u64) -> Result<u64, Refuse> {
    match core.accept(h, Owner::User(TokenId(token)), Frame(9)) {
        Ok(ticket) => Ok(ticket.0),
        Err(refused) => Err(refused.why),
    }
}

/// The serial of one more child, or why there is none.
pub fn serial_of(made: Result<Handle<Nic>, Refuse>) -> Result<u64, Refuse> {
    match made {
        Ok(h) => Ok(h.serial),
        Err(why) => Err(why),
    }
}

/// The number of a caller's token that ended.
pub fn token_of(done: Option<Done<Frame>>) -> Option<u64> {
    match done {
        Some(d) => Some(d.token.0),
        None => None,
    }
}
