//! Routes of IPv4, and the next hop of a destination (RFC 1812, section 5.2.4.3). Nothing here knows how a hop is
//! reached.
ghost use Rattle.std.specs.Prelude.{◌≡◌, ◌≤◌, [], ◌∷◌, ◌++◌, length, OnOk, OnErr, option_map};
ghost use Rattle.efi_base.specs.Refusals.{RefusesExactly};
ghost use Rattle.ip_core.specs.Routing.{is_good, is_same, route_place, add_refusal, remove_refusal, without, matches, is_longer, best_of, next_hop, FindsBest};

use arrayvec::ArrayVec;
use efi_base::{Field, Ip4, Refuse, is_mask};
use std::marker::Model;

/// How many routes there may be.
pub const ROUTES: usize = 64;

/// The way to a network: its address, its mask, ones in front, and the router through which it is reached. The gate
/// 0.0.0.0 says that it is reached directly.
#[derive(Clone, Copy, PartialEq, Eq, Debug)]
pub struct Route {
    pub dest: Ip4,
    pub mask: u32,
    pub gate: Ip4,
}

/// The route to every network, reached directly.
impl Default for Route {
    ghost use Rattle.ip_core.specs.Routing.{everywhere};

    ghost is_default = { λ r. r ≡ everywhere };

    fn default() -> Route {
        Route {
            dest: Ip4(0),
            mask: 0,
            gate: Ip4(0),
        }
    }
}

/// Up to 64 routes, in the order in which they were added. No call takes memory.
#[derive(Drop)]
pub struct Routes {
    routes: ArrayVec<Route, ROUTES>,
}

impl Model for Routes {
    ghost use Rattle.std.specs.Prelude.{List};
    ghost use Rattle.ip_core.specs.declared.routes.Route.{Route as TheRoute};

    ghost Value = { List TheRoute };

    ghost view = { λ r. r.routes.items };
}

impl Routes {
    /// No routes.
    pub fn new() -> Routes
        ensures { result ≡ [] }
    {
        Routes {
            routes: ArrayVec::new(),
        }
    }

    /// The same routes once more.
    pub fn copied(&self) -> Routes
        ensures { result ≡ self.now }
    {
        Routes {
            routes: kept(self.routes.as_slice()),
        }
    }

    /// Adds a route behind the others. It is refused where it is there already, where its mask isn't ones and then
    /// zeros or its destination has bits outside it, and where 64 routes are there.
    pub fn add(&mut self, r: Route) -> Result<(), Refuse>
        ensures answer { RefusesExactly (add_refusal self.old r) result }
        ensures ok { OnOk result (self.new ≡ self.old ++ r ∷ []) }
        ensures err { OnErr result (self.new ≡ self.old) }
    {
        if let Some(_) = find(self.routes.as_slice(), r) {
            return Err(Refuse::AccessDenied);
        }
        if !is_good(r) {
            return Err(Refuse::BadConfig(Field::Mask));
        }
        if self.routes.is_full() {
            return Err(Refuse::NotReady);
        }
        self.routes.push(r);
        Ok(())
    }

    /// Removes a route. It is refused where it isn't there.
    pub fn remove(&mut self, r: Route) -> Result<(), Refuse>
        ensures answer { RefusesExactly (remove_refusal self.old r) result }
        ensures routes { self.new ≡ without r self.old }
    {
        let Some(place) = find(self.routes.as_slice(), r) else {
            return Err(Refuse::NotFound);
        };
        self.routes.remove(place);
        Ok(())
    }

    /// The next hop of a destination: by the longest mask that matches, and by the first added among equals.
    pub fn route(&self, dest: Ip4) -> Option<Ip4>
        ensures hop { option_map (λ hop. hop.0) result ≡ option_map (next_hop dest.0) (best_of dest.0 self.now) }
        ensures longest { FindsBest dest.0 self.now (best_of dest.0 self.now) }
    {
        match best_among(self.routes.as_slice(), dest) {
            Some(r) => Some(hop_by(r, dest)),
            None => None,
        }
    }
}

fn kept(routes: &[Route]) -> ArrayVec<Route, ROUTES>
    requires { length routes.now ≤ ROUTES }
    ensures { result.items ≡ routes.now }
{
    let mut room = ArrayVec::new();
    match room.try_extend_from_slice(routes) {
        Ok(()) => room,
        Err(_) => unreachable!(),
    }
}

/// Where the same route is.
fn find(routes: &[Route], r: Route) -> Option<usize>
    ensures { result ≡ route_place r routes.now }
{
    routes.iter().position(|s| is_same(r, *s))
}

fn is_same(r: Route, s: Route) -> bool
    ensures { result ≡ is_same r s }
{
    r.dest.0 == s.dest.0 && (r.mask == s.mask && r.gate.0 == s.gate.0)
}

/// Whether the route's mask is one, and its destination has no bits outside it.
fn is_good(r: Route) -> bool
    ensures { result ≡ is_good r }
{
    is_mask(r.mask) && r.dest.0 & r.mask == r.dest.0
}

/// Whether the address lies in the route's network.
fn matches(r: Route, dest: Ip4) -> bool
    ensures { result ≡ matches r dest.0 }
{
    dest.0 & r.mask == r.dest.0
}

/// Whether the route has a longer mask than the best one so far.
fn is_longer(r: Route, best: Option<Route>) -> bool
    ensures { result ≡ is_longer r best }
{
    match best {
        Some(best) => best.mask.count_ones() < r.mask.count_ones(),
        None => true,
    }
}

/// The route of the longest mask that matches.
fn best_among(routes: &[Route], dest: Ip4) -> Option<Route>
    ensures { result ≡ best_of dest.0 routes.now }
{
    let mut best = None;
    for r in routes {
        if matches(*r, dest) && is_longer(*r, best) {
            best = Some(*r);
        }
    }
    best
}

/// The router of a route, or the destination itself.
fn hop_by(r: Route, dest: Ip4) -> Ip4
    ensures { result.0 ≡ next_hop dest.0 r }
{
    if r.gate.0 == 0 { dest } else { r.gate }
}
