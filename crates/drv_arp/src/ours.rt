//! Who has an address: the station, or which child. What such a child is told isn't here.
ghost use Rattle.std.specs.Prelude.{◌≡◌, ◌≤◌, length};
ghost use Rattle.efi_book.specs.declared.children.Child.{Child as Row};
ghost use Rattle.drv_arp.specs.Hears.{claim, first_claim, older, oldest_claim, station_claim};

use crate::asks::{ArpCfg, ArpK};
use crate::stations::{Station, station_at};
use efi_base::Ip4;
use efi_book::{Child, Children};

/// One that has an address, a child or the station: its serial, and for how many ticks it lets an entry count.
#[derive(Clone, Copy)]
pub(crate) struct Claim {
    pub serial: u64,
    pub entry: u32,
}

/// The child as one that has the address, where it is configured with it.
fn claim_of(child: &Child<Option<ArpCfg>>, ip: Ip4) -> Option<Claim>
    ensures { result ≡ claim ip.0 child.now }
{
    match child.value {
        Some(c) => {
            if c.ip.0 == ip.0 {
                return Some(Claim {
                    serial: child.serial,
                    entry: c.entry,
                });
            }
            None
        }
        None => None,
    }
}

/// The oldest child of callers that has the address.
fn callers_claim(children: &Children<ArpK, Option<ArpCfg>>, ip: Ip4) -> Option<Claim>
    ensures { result ≡ first_claim ip.0 children.now.live }
{
    for i in 0..children.len() {
        if let Some(found) = claim_of(children.at(i), ip) {
            return Some(found);
        }
    }
    None
}

/// The oldest of the stack's own children that has the address.
fn own_claim(children: &Children<ArpK, Option<ArpCfg>>, ip: Ip4) -> Option<Claim>
    ensures { result ≡ first_claim ip.0 children.now.own }
{
    for i in 0..children.own_len() {
        if let Some(found) = claim_of(children.own_at(i), ip) {
            return Some(found);
        }
    }
    None
}

/// The station, where the address is one of its own: its entries don't end.
fn station_claim(stations: &[Station], ip: Ip4) -> Option<Claim>
    ensures { result ≡ station_claim stations.now ip.0 }
{
    match station_at(stations, ip) {
        Some(s) => Some(Claim {
            serial: s.since,
            entry: 0,
        }),
        None => None,
    }
}

/// The older of two.
fn older_of(a: Option<Claim>, b: Option<Claim>) -> Option<Claim>
    ensures { result ≡ older a b }
{
    match a {
        Some(x) => match b {
            Some(y) => {
                if y.serial < x.serial {
                    return Some(y);
                }
                Some(x)
            }
            None => Some(x),
        },
        None => b,
    }
}

/// The oldest that has the address.
pub(crate) fn claim_on(
    stations: &[Station],
    children: &Children<ArpK, Option<ArpCfg>>,
    ip: Ip4,
) -> Option<Claim>
    ensures { result ≡ oldest_claim stations.now children.now ip.0 }
{
    let child = older_of(callers_claim(children, ip), own_claim(children, ip));
    older_of(station_claim(stations, ip), child)
}
