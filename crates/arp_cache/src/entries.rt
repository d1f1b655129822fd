//! Loops over the entries of a cache: which one stands for an address, which go, and what is heard.
ghost use Rattle.std.specs.Prelude.{◌≡◌, ◌≤◌, filter, map, find, length, is_some, option_map, vec_capacity, vec_len};
ghost use Rattle.arp_cache.specs.Entries.{keeps, stalest, refreshed, mac_of, has_unfixed};
ghost use Rattle.arp_cache.specs.Caches.{after_time};

use crate::entry::{Entry, Keep, refresh, staler_of};
use efi_base::{Ip4, Mac, Tick};

/// The Ethernet address of an address.
pub(crate) fn mac_in(entries: &[Entry], ip: Ip4) -> Option<Mac>
    ensures { result ≡ mac_of entries.now ip.0 }
{
    for e in entries {
        if e.ip.0 == ip.0 {
            return Some(e.mac);
        }
    }
    None
}

/// Whether there is an entry that isn't fixed.
pub(crate) fn any_unfixed(entries: &[Entry]) -> bool
    ensures { result ≡ has_unfixed entries.now }
{
    for e in entries {
        if !e.fixed {
            return true;
        }
    }
    false
}

/// The Ethernet address of an address, by the entries that haven't ended at a moment.
pub(crate) fn live_mac_in(entries: &[Entry], ip: Ip4, now: Tick) -> Option<Mac>
    ensures { result ≡ mac_of (after_time now.0 entries.now) ip.0 }
{
    for e in entries {
        if e.is_live(now) {
            if e.ip.0 == ip.0 {
                return Some(e.mac);
            }
        }
    }
    None
}

/// Whether there is an entry that isn't fixed, of those that haven't ended at a moment.
pub(crate) fn any_live_unfixed(entries: &[Entry], now: Tick) -> bool
    ensures { result ≡ has_unfixed (after_time now.0 entries.now) }
{
    for e in entries {
        if e.is_live(now) {
            if !e.fixed {
                return true;
            }
        }
    }
    false
}

/// How many entries haven't ended at a moment.
pub(crate) fn live_len(entries: &[Entry], now: Tick) -> usize
    ensures { result ≡ length (after_time now.0 entries.now) }
{
    let mut n = 0;
    for e in entries {
        if e.is_live(now) {
            n += 1;
        }
    }
    n
}

/// The entry that goes first where room is wanted.
pub(crate) fn stalest_in(entries: &[Entry]) -> Option<Entry>
    ensures { result ≡ stalest entries.now }
{
    let mut first = None;
    for e in entries {
        first = staler_of(first, e);
    }
    first
}

/// Takes out the entries that don't stay.
pub(crate) fn keep_only(entries: &mut Vec<Entry>, keep: Keep)
    ensures kept { entries.new.items ≡ filter (keeps keep) entries.old.items }
    ensures bound { vec_len entries.new ≤ vec_len entries.old }
    ensures room { vec_capacity entries.new ≡ vec_capacity entries.old }
{
    let mut i = 0;
    while i < entries.len() {
        if entries[i].stays(keep) {
            i += 1;
        } else {
            entries.remove(i);
        }
    }
}

/// Notes that an address was heard with an Ethernet address.
pub(crate) fn refresh_all(entries: &mut [Entry], ip: Ip4, mac: Mac, now: Tick)
    ensures { entries.new ≡ map (refreshed ip mac now) entries.old }
{
    for e in entries.iter_mut() {
        refresh(e, ip, mac, now);
    }
}
