//! What a driver is told of the station.
ghost use Rattle.std.specs.Prelude.{◌≡◌, ◌<◌, ◌++◌, ◌∷◌, [], length, IfOk, IfErr, OnOk, OnErr};

use crate::fault::NoRoom;
use crate::plain::{Addr, Ip4, Mac};
use arrayvec::ArrayVec;
use std::marker::Model;

/// The most DNS servers of a lease or a configuration.
pub const MOST_SERVERS: usize = 3;

/// At most three DNS servers, in the order in which they are asked.
#[derive(Debug, Drop)]
pub struct Servers {
    servers: ArrayVec<Ip4, MOST_SERVERS>,
}

impl Model for Servers {
    ghost use Rattle.std.specs.Prelude.{List};
    ghost use Rattle.efi_base.specs.declared.plain.Ip4.{Ip4};

    ghost Value = { List Ip4 };

    ghost view = { λ s. s.servers.items };
}

impl Servers {
    pub fn new() -> Servers
        ensures { result ≡ [] }
    {
        Servers {
            servers: ArrayVec::new(),
        }
    }

    /// Puts one more behind the others, or says that there are three.
    pub fn push(&mut self, server: Ip4) -> Result<(), NoRoom>
        ensures put { OnOk result ((length self.old < 3) × (self.new ≡ self.old ++ (server ∷ []))) }
        ensures refused { OnErr result ((length self.old ≡ 3) × (self.new ≡ self.old)) }
    {
        match self.servers.try_push(server) {
            Ok(()) => Ok(()),
            Err(_) => Err(NoRoom),
        }
    }

    pub fn as_slice(&self) -> &[Ip4]
        ensures { result.now ≡ self.now }
    {
        self.servers.as_slice()
    }
}

/// What a driver is told of the station.
#[derive(Debug, Drop)]
pub struct Known {
    pub mac: Mac,
    /// From this the station's numbers are made: ports, first sequence numbers, transactions.
    pub seed: u32,
    /// The default address, where there is one.
    pub home: Option<Addr>,
    /// The DNS servers of the lease.
    pub dns: Servers,
}
