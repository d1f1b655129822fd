//! Why calls are refused for what they hand in. The state of children and tokens isn't here.
ghost use Rattle.std.specs.Prelude.{◌≡◌, is_none};
ghost use Rattle.ip_core.specs.Routing.{best_of};
ghost use Rattle.drv_udp4.specs.Refusing.{cfg_refusal, is_bad_address, is_bad_mask, is_bad_peer, is_bad_port, tx_refusal, work_refusal};

use crate::networks::{is_destination, is_everywhere};
use crate::ports::{UdpChildren, any_bars};
use crate::sending::MOST_PAYLOAD;
use crate::work::{UdpCfg, UdpTx, UdpWork};
use efi_base::{Addr, Field, Ip4, Peer, Refuse, is_mask, is_unicast};
use ip_core::Routes;

fn is_bad_address(own: bool, at: Option<Addr>) -> bool
    ensures { result ≡ is_bad_address own at }
{
    match at {
        Some(a) => !(is_unicast(a.ip) || (own && a.ip.0 == 0)),
        None => false,
    }
}

fn is_bad_mask(at: Option<Addr>) -> bool
    ensures { result ≡ is_bad_mask at }
{
    match at {
        Some(a) => !is_mask(a.mask),
        None => false,
    }
}

fn is_bad_peer(peer: Option<Peer>) -> bool
    ensures { result ≡ is_bad_peer peer }
{
    match peer {
        Some(p) => !is_unicast(p.addr),
        None => false,
    }
}

fn is_bad_port(peer: Option<Peer>) -> bool
    ensures { result ≡ is_bad_port peer }
{
    match peer {
        Some(p) => p.port == 0,
        None => false,
    }
}

/// Why a child of callers, or of the stack's own, doesn't get this configuration, but for want of ports.
pub(crate) fn cfg_refusal(
    children: &UdpChildren,
    home: Option<Addr>,
    own: bool,
    c: &UdpCfg,
) -> Option<Refuse>
    ensures { result ≡ cfg_refusal home children.now own c.now }
{
    if c.port != 0 && any_bars(children, home, c) {
        return Some(Refuse::AccessDenied);
    }
    if is_bad_address(own, c.at) || is_bad_peer(c.peer) {
        return Some(Refuse::BadConfig(Field::Address));
    }
    if is_bad_mask(c.at) {
        return Some(Refuse::BadConfig(Field::Mask));
    }
    if is_bad_port(c.peer) {
        return Some(Refuse::BadConfig(Field::Port));
    }
    None
}

/// Whether no route matches the address.
fn is_apart(routes: &Routes, dest: Ip4) -> bool
    ensures { result ≡ is_none (best_of dest.0 routes.now) }
{
    match routes.route(dest) {
        Some(_) => false,
        None => true,
    }
}

/// Why a child of this address doesn't send the datagram.
fn tx_refusal(routes: &Routes, a: Addr, tx: &UdpTx) -> Option<Refuse>
    ensures { result ≡ tx_refusal routes.now a tx.now }
{
    if tx.payload.len() > MOST_PAYLOAD {
        return Some(Refuse::BadConfig(Field::Length));
    }
    if !is_destination(tx.dest) {
        return Some(Refuse::BadConfig(Field::Address));
    }
    if !is_everywhere(a, tx.dest) && is_apart(routes, tx.dest) {
        return Some(Refuse::NoRoute);
    }
    None
}

/// Why a child of this address doesn't do the work.
pub(crate) fn work_refusal(routes: &Routes, a: Addr, work: &UdpWork) -> Option<Refuse>
    ensures { result ≡ work_refusal routes.now a work.now }
{
    match work {
        UdpWork::Transmit(tx) => tx_refusal(routes, a, tx),
        UdpWork::Receive(_) => None,
    }
}
