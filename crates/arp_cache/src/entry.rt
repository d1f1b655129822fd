//! One entry of the cache. The list of them isn't here.
ghost use Rattle.std.specs.Prelude.{◌≡◌};
ghost use Rattle.arp_cache.specs.Entries.{is_live, goes_before, candidate, staler, refreshed, keeps};

use efi_base::{Ip4, Mac, Tick};

/// An address with its Ethernet address. `refreshed` is the moment at which it was added or last heard, and `life` says for
/// how many ticks from there on it counts, where 0 is without end. One that is `fixed` doesn't end, and stays where room is
/// wanted.
#[derive(Clone, Copy, Debug)]
pub struct Entry {
    pub ip: Ip4,
    pub mac: Mac,
    pub fixed: bool,
    pub refreshed: Tick,
    pub life: u32,
}

/// Which entries stay.
#[derive(Clone, Copy)]
pub(crate) enum Keep {
    /// Those of other addresses.
    Others(Ip4),
    /// Those that are fixed.
    Fixed,
    /// Those that haven't ended at a moment.
    Live(Tick),
}

impl Entry {
    /// Whether it hasn't ended at a moment.
    pub(crate) fn is_live(&self, now: Tick) -> bool
        ensures { result ≡ is_live now.0 self.now }
    {
        if self.fixed {
            return true;
        }
        if self.life == 0 {
            return true;
        }
        now.0.saturating_sub(self.refreshed.0) < self.life as u64
    }

    /// Whether it stays.
    pub(crate) fn stays(&self, keep: Keep) -> bool
        ensures { result ≡ keeps keep self.now }
    {
        match keep {
            Keep::Others(ip) => self.ip.0 != ip.0,
            Keep::Fixed => self.fixed,
            Keep::Live(now) => self.is_live(now),
        }
    }

    /// Whether it goes before another where room is wanted.
    fn goes_before(&self, other: &Entry) -> bool
        ensures { result ≡ goes_before self.now other.now }
    {
        if self.refreshed.0 == other.refreshed.0 {
            return self.ip.0 < other.ip.0;
        }
        self.refreshed.0 < other.refreshed.0
    }
}

/// The one of two that goes first, where the second may go at all.
pub(crate) fn staler_of(a: Option<Entry>, b: &Entry) -> Option<Entry>
    ensures { result ≡ staler a (candidate b.now) }
{
    if b.fixed {
        return a;
    }
    match a {
        Some(e) => {
            if b.goes_before(&e) {
                return Some(*b);
            }
            Some(e)
        }
        None => Some(*b),
    }
}

/// The entry after its address was heard with an Ethernet address; others are as they were.
pub(crate) fn refresh(e: &mut Entry, ip: Ip4, mac: Mac, now: Tick)
    ensures { e.new ≡ refreshed ip mac now e.old }
{
    if e.ip.0 == ip.0 {
        e.mac = mac;
        e.refreshed = now;
    }
}
