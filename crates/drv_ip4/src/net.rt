//! The default address and what comes with it, routes, and the station addresses. Children and tokens aren't here.
ghost use Rattle.std.specs.Prelude.{◌≡◌, ◌<◌, ◌≤◌, ◌+◌, ◌%◌, ◌^◌, length, OnOk, OnErr};
ghost use Rattle.efi_base.specs.Refusals.{RefusesExactly};
ghost use Rattle.ip_core.specs.Routing.{add_refusal, is_same, remove_refusal, route_place, without};
ghost use Rattle.drv_ip4.specs.Nets.{address_used, all_without, brought_in, hop_by, is_among, is_everyones, is_station, noted, nowhere, onlink, settled, with_next, with_route, with_stations, without_route};

use crate::work::{Hop, IpCfg};
use arrayvec::ArrayVec;
use efi_base::{Addr, Ip4, Refuse, is_broadcast};
use ip_core::{ROUTES, Route, Routes};
use std::marker::Model;

/// How many station addresses there may be.
pub(crate) const STATIONS: usize = 257;

/// Where the station is in its networks.
#[derive(Drop)]
pub(crate) struct Net {
    home: Option<Addr>,
    routes: Routes,
    brought: ArrayVec<Route, ROUTES>,
    stations: ArrayVec<Ip4, STATIONS>,
    next: u16,
}

impl Model for Net {
    ghost use Rattle.drv_ip4.specs.Nets.{Place};

    ghost Value = { Place };

    ghost view = { λ n. record { home = n.home; routes = n.routes; brought = n.brought.items; stations = n.stations.items; next = n.next } };
}

impl Net {
    /// No address and no routes.
    pub fn new() -> Net
        ensures { result ≡ nowhere }
    {
        Net {
            home: None,
            routes: Routes::new(),
            brought: ArrayVec::new(),
            stations: ArrayVec::new(),
            next: 0,
        }
    }

    /// The default address.
    pub fn home(&self) -> Option<Addr>
        ensures { result ≡ self.now.home }
    {
        self.home
    }

    pub fn routes(&self) -> &Routes
        ensures { result.now ≡ self.now.routes }
    {
        &self.routes
    }

    /// To whom a datagram to this destination is handed, `None` where no route matches.
    pub fn hop(&self, everyone: bool, dest: Ip4) -> Option<Hop>
        ensures { result ≡ hop_by self.now.routes everyone dest.0 }
    {
        hop_by(&self.routes, everyone, dest)
    }

    /// Whether the station answers at this address.
    pub fn is_station(&self, ip: Ip4) -> bool
        ensures { result ≡ is_station self.now ip.0 }
    {
        is_among(self.stations.as_slice(), ip)
    }

    /// The identification of the next datagram.
    pub fn id(&self) -> u16
        ensures { result ≡ self.now.next }
    {
        self.next
    }

    /// The identification is used.
    pub fn count(&mut self)
        ensures { self.new ≡ with_next self.old }
    {
        self.next = self.next.wrapping_add(1);
    }

    /// The station addresses from now on.
    pub fn learn(&mut self, a: &[Ip4])
        requires { length a.now ≤ 257 }
        ensures { self.new ≡ with_stations self.old a.now }
    {
        fill(&mut self.stations, a);
    }

    /// Adds a route. It is refused where `Routes` refuses it.
    pub fn add(&mut self, r: Route) -> Result<(), Refuse>
        ensures answer { RefusesExactly (add_refusal self.old.routes r) result }
        ensures ok { OnOk result (self.new ≡ with_route self.old r) }
        ensures err { OnErr result (self.new ≡ self.old) }
    {
        self.routes.add(r)
    }

    /// Removes a route, also where the default address brought it. It is refused where it isn't there.
    pub fn remove(&mut self, r: Route) -> Result<(), Refuse>
        ensures answer { RefusesExactly (remove_refusal self.old.routes r) result }
        ensures ok { OnOk result (self.new ≡ without_route self.old r) }
        ensures err { OnErr result (self.new ≡ self.old) }
    {
        match self.routes.remove(r) {
            Ok(()) => {
                forget(&mut self.brought, r);
                Ok(())
            }
            Err(why) => Err(why),
        }
    }

    /// Adds a route that the default address brings, where it can be added.
    pub fn bring(&mut self, r: Route)
        ensures { self.new ≡ brought_in self.old r }
    {
        if let Ok(()) = self.routes.add(r) {
            note(&mut self.brought, r);
        }
    }

    /// Another default address, or none, with the route to its network in place of what the old one brought.
    pub fn settle(&mut self, a: Option<Addr>)
        ensures { self.new ≡ settled self.old a }
    {
        remove_all(&mut self.routes, self.brought.as_slice());
        self.brought.clear();
        self.home = a;
        if let Some(a) = a {
            self.bring(onlink(a));
        }
    }
}

/// The address that a child with this configuration uses.
pub(crate) fn address_used(home: Option<Addr>, cfg: IpCfg) -> Option<Addr>
    ensures { result ≡ address_used home cfg }
{
    match cfg.at {
        Some(at) => Some(at),
        None => home,
    }
}

/// Whether the destination is all stations of this address's network: 255.255.255.255 or its all-ones address.
pub(crate) fn is_everyones(own: Addr, dest: Ip4) -> bool
    ensures { result ≡ is_everyones own dest.0 }
{
    is_broadcast(dest) || dest.0 == own.ip.0 | (u32::MAX - own.mask)
}

/// To whom a datagram to this destination is handed, `None` where no route matches.
fn hop_by(routes: &Routes, everyone: bool, dest: Ip4) -> Option<Hop>
    ensures { result ≡ hop_by routes.now everyone dest.0 }
{
    if everyone {
        return Some(Hop::Everyone);
    }
    match routes.route(dest) {
        Some(hop) => Some(Hop::To(hop)),
        None => None,
    }
}

/// Whether the address is one of these.
fn is_among(stations: &[Ip4], ip: Ip4) -> bool
    ensures { result ≡ is_among stations.now ip.0 }
{
    stations.iter().any(|s| s.0 == ip.0)
}

fn is_same(r: Route, s: Route) -> bool
    ensures { result ≡ is_same r s }
{
    r.dest.0 == s.dest.0 && (r.mask == s.mask && r.gate.0 == s.gate.0)
}

/// Where the same route is.
fn find(routes: &[Route], r: Route) -> Option<usize>
    ensures { result ≡ route_place r routes.now }
{
    routes.iter().position(|s| is_same(r, *s))
}

/// The route is none of those that came with the default address any more.
fn forget(brought: &mut ArrayVec<Route, ROUTES>, r: Route)
    ensures { brought.new.items ≡ without r brought.old.items }
{
    if let Some(place) = find(brought.as_slice(), r) {
        brought.remove(place);
    }
}

/// The route is one of those that came with the default address.
fn note(brought: &mut ArrayVec<Route, ROUTES>, r: Route)
    ensures { brought.new.items ≡ noted r brought.old.items }
{
    if !brought.is_full() {
        brought.push(r);
    }
}

/// Removes these routes, each where it is there.
fn remove_all(routes: &mut Routes, gone: &[Route])
    ensures { routes.new ≡ all_without gone.now routes.old }
{
    for r in gone {
        let _ = routes.remove(*r);
    }
}

/// The route to the network of an address, which is reached directly.
fn onlink(a: Addr) -> Route
    ensures { result ≡ onlink a }
{
    Route {
        dest: Ip4(a.ip.0 & a.mask),
        mask: a.mask,
        gate: Ip4(0),
    }
}

/// These addresses, in place of the others.
fn fill(stations: &mut ArrayVec<Ip4, STATIONS>, a: &[Ip4])
    requires { length a.now ≤ 257 }
    ensures { stations.new.items ≡ a.now }
{
    stations.clear();
    // There is room for so many.
    stations.try_extend_from_slice(a).unwrap();
}
