//! Which addresses a datagram is for (RFC 1122, section 3.2.1.3). Ports aren't here.
ghost use Rattle.std.specs.Prelude.{◌≡◌};
ghost use Rattle.drv_udp4.specs.Hearing.{is_peer};
ghost use Rattle.drv_udp4.specs.Networks.{address_named, address_of, all_ones, is_at_address, is_destination, is_everywhere, is_to};

use crate::work::UdpCfg;
use efi_base::{Addr, Ip4, Peer, is_broadcast, is_unicast};
use efi_book::Child;

/// The all-ones address of the network of an address.
fn all_ones(a: Addr) -> u32
    ensures { result ≡ all_ones a }
{
    a.ip.0 | (u32::MAX - a.mask)
}

/// Whether it is a broadcast to a child of this address.
pub(crate) fn is_everywhere(a: Addr, dest: Ip4) -> bool
    ensures { result ≡ is_everywhere a dest.0 }
{
    is_broadcast(dest) || dest.0 == all_ones(a)
}

/// Whether one can send to it: it is unicast, or the limited broadcast.
pub(crate) fn is_destination(dest: Ip4) -> bool
    ensures { result ≡ is_destination dest.0 }
{
    is_unicast(dest) || is_broadcast(dest)
}

/// The child's address: its own one, or else the default one.
pub(crate) fn address_of(home: Option<Addr>, cfg: &UdpCfg) -> Option<Addr>
    ensures { result ≡ address_of home cfg.now }
{
    match cfg.at {
        Some(a) => Some(a),
        None => home,
    }
}

/// The address that a child names for itself.
pub(crate) fn address_named(child: &Child<Option<UdpCfg>>) -> Option<Addr>
    ensures { result ≡ address_named child.now }
{
    match &child.value {
        Some(c) => c.at,
        None => None,
    }
}

/// Whether a child of this address takes what goes to this destination.
pub(crate) fn is_to(a: Option<Addr>, broadcast: bool, dest: Ip4) -> bool
    ensures { result ≡ is_to a broadcast dest.0 }
{
    match a {
        Some(a) => a.ip.0 == dest.0 || (broadcast && is_everywhere(a, dest)),
        None => broadcast && is_broadcast(dest),
    }
}

/// Whether a child has this address.
pub(crate) fn is_at_address(a: Option<Addr>, ip: Ip4) -> bool
    ensures { result ≡ is_at_address a ip.0 }
{
    match a {
        Some(a) => a.ip.0 == ip.0,
        None => false,
    }
}

/// Whether it is the peer, where one is set.
pub(crate) fn is_peer(peer: Option<Peer>, ip: Ip4, port: u16) -> bool
    ensures { result ≡ is_peer peer ip.0 port }
{
    match peer {
        Some(p) => p.addr.0 == ip.0 && p.port == port,
        None => true,
    }
}
