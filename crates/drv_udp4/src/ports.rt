//! Which port a child gets: one that it names and no other bars, or one that no child has. What a port hears isn't here.
ghost use Rattle.std.specs.Prelude.{◌≡◌, ◌||◌, ◌+◌, ◌<◌, IfSome};
ghost use Rattle.std.specs.List.{list_any};
ghost use Rattle.drv_udp4.specs.Hearing.{everyone};
ghost use Rattle.drv_udp4.specs.Ports.{barred_by, bars, has_as, has_port, is_barred_by, next_free, port_at, same_address, with_port};

use crate::networks::address_of;
use crate::work::{Udp4, UdpCfg};
use efi_base::Addr;
use efi_book::{Child, Children};

/// How many ports there are to choose from.
pub(crate) const PORTS: u32 = 16_384;

/// The least of them.
const FIRST: u16 = 49_152;

/// The configured children, by their slots.
pub(crate) type UdpChildren = Children<Udp4, Option<UdpCfg>>;

/// Whether both have the same address, or neither has one.
fn is_same(a: Option<Addr>, b: Option<Addr>) -> bool
    ensures { result ≡ same_address a b }
{
    match a {
        Some(a) => match b {
            Some(b) => a.ip.0 == b.ip.0,
            None => false,
        },
        None => match b {
            Some(_) => false,
            None => true,
        },
    }
}

/// Whether one configuration keeps another from its port.
fn bars(home: Option<Addr>, c: &UdpCfg, d: &UdpCfg) -> bool
    ensures { result ≡ bars home c.now d.now }
{
    d.port == c.port && is_same(address_of(home, c), address_of(home, d)) && !(c.share && d.share)
}

fn is_barred(home: Option<Addr>, c: &UdpCfg, child: &Child<Option<UdpCfg>>) -> bool
    ensures { result ≡ is_barred_by home c.now child.now }
{
    match &child.value {
        Some(d) => bars(home, c, d),
        None => false,
    }
}

/// Whether a caller's child bars the port.
fn callers_bar(children: &UdpChildren, home: Option<Addr>, c: &UdpCfg) -> bool
    ensures { result ≡ list_any (is_barred_by home c.now) children.now.live }
{
    for i in 0..children.len() {
        if is_barred(home, c, children.at(i)) {
            return true;
        }
    }
    false
}

/// Whether one of the stack's own children bars the port.
fn own_bars(children: &UdpChildren, home: Option<Addr>, c: &UdpCfg) -> bool
    ensures { result ≡ list_any (is_barred_by home c.now) children.now.own }
{
    for i in 0..children.own_len() {
        if is_barred(home, c, children.own_at(i)) {
            return true;
        }
    }
    false
}

/// Whether a child bars the port.
#[tactic(auto, using(crate::proofs::Steps::any_joined))]
pub(crate) fn any_bars(children: &UdpChildren, home: Option<Addr>, c: &UdpCfg) -> bool
    ensures { result ≡ list_any (is_barred_by home c.now) (everyone children.now) }
{
    callers_bar(children, home, c) || own_bars(children, home, c)
}

fn is_at_port(port: u16, child: &Child<Option<UdpCfg>>) -> bool
    ensures { result ≡ has_port port child.now }
{
    match &child.value {
        Some(c) => c.port == port,
        None => false,
    }
}

/// Whether a caller's child has the port.
fn callers_have(children: &UdpChildren, port: u16) -> bool
    ensures { result ≡ list_any (has_port port) children.now.live }
{
    for i in 0..children.len() {
        if is_at_port(port, children.at(i)) {
            return true;
        }
    }
    false
}

/// Whether one of the stack's own children has the port.
fn own_have(children: &UdpChildren, port: u16) -> bool
    ensures { result ≡ list_any (has_port port) children.now.own }
{
    for i in 0..children.own_len() {
        if is_at_port(port, children.own_at(i)) {
            return true;
        }
    }
    false
}

/// Whether a child has the port.
#[tactic(auto, using(crate::proofs::Steps::any_joined))]
fn any_has(children: &UdpChildren, port: u16) -> bool
    ensures { result ≡ list_any (has_port port) (everyone children.now) }
{
    callers_have(children, port) || own_have(children, port)
}

/// The port of this number, from a seed on and round.
pub(crate) fn port_at(seed: u32, k: u32) -> u16
    ensures { result ≡ port_at seed k }
{
    FIRST + ((seed as u64 + k as u64) % PORTS as u64) as u16
}

/// The first of so many numbers, from this one on, whose port no child has.
#[tactic(auto, using(crate::proofs::Steps::free_here, crate::proofs::Steps::free_next))]
pub(crate) fn next_free(children: &UdpChildren, seed: u32, first: u32, count: u32) -> Option<u32>
    requires round { first < 16384 }
    requires few { count < 65536 }
    ensures number { result ≡ next_free (everyone children.now) seed first count }
    ensures within { IfSome result (λ k. k < first + count) }
{
    let mut k = first;
    let mut left = count;
    while left > 0 {
        if !any_has(children, port_at(seed, k)) {
            return Some(k);
        }
        k += 1;
        left -= 1;
    }
    None
}

/// The configuration with this port.
pub(crate) fn with_port(c: &UdpCfg, port: u16) -> UdpCfg
    ensures { result ≡ with_port c.now port }
{
    UdpCfg {
        at: c.at,
        port,
        share: c.share,
        peer: c.peer,
        broadcast: c.broadcast,
        timeout: c.timeout,
    }
}
