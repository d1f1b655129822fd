//! The station's addresses, and since when they are. What a packet for one of them does isn't here.
ghost use Rattle.std.specs.Prelude.{◌≡◌, ◌≤◌, length, map};
ghost use Rattle.drv_arp.specs.Stations.{learned, since_of, station_at};

use arrayvec::ArrayVec;
use efi_base::Ip4;

/// How many addresses the station may have: the default address, and one for each child of a caller.
pub(crate) const STATIONS: usize = 257;

/// An address of the station. `since` is the serial of the child that would have been made next when it became one: children
/// with a lower serial are older than it.
#[derive(Clone, Copy, PartialEq, Eq, Debug, Default)]
pub struct Station {
    pub ip: Ip4,
    pub since: u64,
}

/// The station's address that is this one.
pub(crate) fn station_at(stations: &[Station], ip: Ip4) -> Option<Station>
    ensures { result ≡ station_at stations.now ip.0 }
{
    for s in stations {
        if s.ip.0 == ip.0 {
            return Some(*s);
        }
    }
    None
}

/// Since when an address is the station's, where the next child would have the serial `next`.
fn since_of(was: Option<Station>, next: u64) -> u64
    ensures { result ≡ since_of was next }
{
    match was {
        Some(s) => s.since,
        None => next,
    }
}

/// These addresses as the station's, of which some were before.
pub(crate) fn learned(stations: &[Station], next: u64, a: &[Ip4]) -> ArrayVec<Station, STATIONS>
    requires { length a.now ≤ 257 }
    ensures { result.items ≡ map (learned stations.now next) a.now }
{
    let mut all = ArrayVec::new();
    for ip in a {
        all.push(Station {
            ip: *ip,
            since: since_of(station_at(stations, *ip), next),
        });
    }
    all
}
