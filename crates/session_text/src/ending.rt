//! What the line `end` asks of a document.
ghost use Rattle.std.specs.Prelude.{◌≡◌};
ghost use Rattle.session_text.specs.Ending.{are_stations, end_fits, is_mac_of, is_own_ip, is_station, is_taken, mask_of, stations_fit, stays_within};

use crate::draft::{Draft, buffer_of, here, lease_of, server_ip, server_mac, station_mac};
use crate::site::has_ip;
use efi_base::{Ip4, Mac, is_mask, is_unicast};

/// The first addresses of the second and the third class (RFC 791, section 3.2): 128.0.0.0 and 192.0.0.0.
const CLASS_B: u32 = 0x8000_0000;

const CLASS_C: u32 = 0xC000_0000;

/// The most octets of all buffers.
const MOST_BUFFERS: u64 = 1_073_741_824;

/// The mask that a station takes: that of the address's class, where this one isn't ones and then zeros.
fn mask_of(ip: u32, mask: u32) -> u32
    ensures { result ≡ mask_of ip mask }
{
    if is_mask(mask) {
        return mask;
    }
    if ip < CLASS_B {
        return 0xFF00_0000;
    }
    if ip < CLASS_C {
        return 0xFFFF_0000;
    }
    0xFFFF_FF00
}

/// Whether the address so many behind this one is of its network, and isn't the network's broadcast.
fn stays_within(ip: u32, mask: u32, later: u8) -> bool
    ensures { result ≡ stays_within ip mask later }
{
    let size = (1u64 << 32) - u64::from(mask);
    let first = u64::from(ip);
    let moved = first + u64::from(later);
    moved / size == first / size && moved % size != size - 1
}

/// Whether the address so many behind this one is that of one station in its network.
fn is_own_ip(ip: u32, mask: u32, later: u8) -> bool
    ensures { result ≡ is_own_ip ip mask later }
{
    let Some(moved) = ip.checked_add(u32::from(later)) else {
        return false;
    };
    is_unicast(Ip4(moved)) && stays_within(ip, mask_of(ip, mask), later)
}

/// Whether the server or a site stands at the address so many behind this one.
fn is_taken(draft: &Draft, ip: u32, later: u8) -> bool
    ensures { result ≡ is_taken draft.now ip later }
{
    let moved = u64::from(ip) + u64::from(later);
    if u64::from(server_ip(draft).0) == moved {
        return true;
    }
    if u64::from(here(draft).addr.0) == moved {
        return true;
    }
    has_ip(draft.sites.as_slice(), moved)
}

/// Whether the Ethernet address so many behind the first is there, and isn't the server's.
fn is_station_mac(first: Mac, server: Mac, later: u8) -> bool
    ensures { result ≡ is_mac_of first server later }
{
    let last = u32::from(first.0[5]) + u32::from(later);
    if last > 255 {
        return false;
    }
    first.0[..5] != server.0[..5] || last != u32::from(server.0[5])
}

/// Whether the station so many behind the first has addresses of its own.
#[tactic(auto, unfolding(crate::specs::Ending::is_station))]
fn is_station(draft: &Draft, later: u8) -> bool
    ensures { result ≡ is_station draft.now later }
{
    let lease = lease_of(draft);
    if !is_station_mac(station_mac(draft), server_mac(draft), later) {
        return false;
    }
    is_own_ip(lease.ip.0, lease.mask.0, later) && !is_taken(draft, lease.ip.0, later)
}

fn are_stations(draft: &Draft, count: u8) -> bool
    ensures { result ≡ are_stations draft.now count }
{
    let mut left = count;
    while left > 0 {
        left -= 1;
        if !is_station(draft, left) {
            return false;
        }
    }
    true
}

/// Whether so many stations as were said have addresses of their own, and buffers that fit.
fn stations_fit(draft: &Draft, stations: Option<u8>) -> bool
    ensures { result ≡ stations_fit draft.now stations }
{
    let Some(count) = stations else {
        return true;
    };
    if u64::from(count) * u64::from(buffer_of(draft)) > MOST_BUFFERS {
        return false;
    }
    are_stations(draft, count)
}

/// Whether the line `end` is good behind what was said.
#[tactic(auto, unfolding(crate::specs::Ending::end_fits))]
pub fn end_fits(draft: &Draft) -> bool
    ensures { result ≡ end_fits draft.now }
{
    if station_mac(draft).0 == server_mac(draft).0 {
        return false;
    }
    stations_fit(draft, draft.second.stations)
}
