//! The cache. Its loops are over vectors, and stand elsewhere.
ghost use Rattle.std.specs.Prelude.{◌≡◌, ◌≤◌, [], length, IfOk, OnOk, OnErr, vec_capacity};
ghost use Rattle.efi_base.specs.Refusals.{RefusesExactly};
ghost use Rattle.arp_cache.specs.Entries.{mac_of};
ghost use Rattle.arp_cache.specs.Caches.{entered, add_refusal, delete_refusal, flush_refusal, after_flush, after_time, after_heard, after_add, with_room, join, without};

use crate::entries::{
    any_live_unfixed, any_unfixed, keep_only, live_len, live_mac_in, mac_in, refresh_all,
    stalest_in,
};
use crate::entry::{Entry, Keep};
use efi_base::{Ip4, Mac, NoMemory, Refuse, Tick};
use std::alloc::Global;
use std::marker::Model;
use wire_link::Arp;

/// How many entries there are at most.
const MOST: usize = 256;

/// Neighbours' addresses. Only `new` takes memory.
#[derive(Drop)]
pub struct Cache {
    entries: Vec<Entry>,
}

impl Model for Cache {
    ghost use Rattle.std.specs.Prelude.{List, length, ◌≤◌, vec_capacity};
    ghost use Rattle.arp_cache.specs.declared.entry.Entry.{Entry as Item};

    ghost Value = { List Item };

    ghost use Rattle.arp_cache.specs.Caches.{most};

    ghost view = { λ c. c.entries.items };

    ghost invariant = { λ c. (length c.entries.items ≤ 256) × (256 ≤ vec_capacity c.entries) };
}

impl Cache {
    /// An empty cache, with the room for all entries.
    pub fn new(alloc: Global) -> Result<Cache, NoMemory>
        ensures { IfOk result (λ c. c ≡ []) }
    {
        let entries = Vec::with_capacity(alloc, MOST)?;
        Ok(Cache { entries })
    }

    /// The Ethernet address of an address.
    pub fn find(&self, ip: Ip4) -> Option<Mac>
        ensures { result ≡ mac_of self.now ip.0 }
    {
        mac_in(&self.entries, ip)
    }

    /// As `find`, by the entries that haven't ended at a moment.
    pub fn find_at(&self, ip: Ip4, now: Tick) -> Option<Mac>
        ensures { result ≡ mac_of (after_time now.0 self.now) ip.0 }
    {
        live_mac_in(&self.entries, ip, now)
    }

    /// Why `add` would refuse an address once the entries are gone that have ended at a moment.
    pub fn add_refusal(&self, ip: Ip4, over: bool, now: Tick) -> Option<Refuse>
        ensures { result ≡ add_refusal (after_time now.0 self.now) ip.0 over }
    {
        if let Some(_) = self.find_at(ip, now) {
            if over {
                return None;
            }
            return Some(Refuse::AccessDenied);
        }
        if live_len(&self.entries, now) < MOST {
            return None;
        }
        if any_live_unfixed(&self.entries, now) {
            return None;
        }
        Some(Refuse::NotReady)
    }

    /// Why `flush` would refuse once the entries are gone that have ended at a moment.
    pub fn flush_refusal(&self, now: Tick) -> Option<Refuse>
        ensures { result ≡ flush_refusal (after_time now.0 self.now) }
    {
        if any_live_unfixed(&self.entries, now) {
            return None;
        }
        Some(Refuse::NotFound)
    }

    /// Adds an entry, or puts it in the place of that of its address where `over` says so.
    pub fn add(&mut self, e: Entry, over: bool) -> Result<(), Refuse>
        ensures answer { RefusesExactly (add_refusal self.old e.ip.0 over) result }
        ensures ok { OnOk result (self.new ≡ entered self.old e) }
        ensures err { OnErr result (self.new ≡ self.old) }
    {
        if self.find(e.ip).is_some() {
            if !over {
                return Err(Refuse::AccessDenied);
            }
        } else if self.entries.len() >= MOST {
            if !any_unfixed(&self.entries) {
                return Err(Refuse::NotReady);
            }
        }
        self.enter(e);
        Ok(())
    }

    /// Takes out the entry of an address.
    pub fn delete(&mut self, ip: Ip4) -> Result<(), Refuse>
        ensures answer { RefusesExactly (delete_refusal self.old ip.0) result }
        ensures ok { OnOk result (self.new ≡ without ip.0 self.old) }
        ensures err { OnErr result (self.new ≡ self.old) }
    {
        if self.find(ip).is_none() {
            return Err(Refuse::NotFound);
        }
        keep_only(&mut self.entries, Keep::Others(ip));
        Ok(())
    }

    /// Takes out the entries that aren't fixed.
    pub fn flush(&mut self) -> Result<(), Refuse>
        ensures answer { RefusesExactly (flush_refusal self.old) result }
        ensures ok { OnOk result (self.new ≡ after_flush self.old) }
        ensures err { OnErr result (self.new ≡ self.old) }
    {
        if !any_unfixed(&self.entries) {
            return Err(Refuse::NotFound);
        }
        keep_only(&mut self.entries, Keep::Fixed);
        Ok(())
    }

    /// Takes out the entries whose life has ended at a moment.
    pub fn expire(&mut self, now: Tick)
        ensures { self.new ≡ after_time now.0 self.old }
    {
        keep_only(&mut self.entries, Keep::Live(now));
    }

    /// Notes a packet that was heard. `life`, in ticks, is there where the target is an address of the station: it is the
    /// life that this address gives an entry.
    pub fn hear(&mut self, heard: &Arp, now: Tick, life: Option<u32>)
        ensures { self.new ≡ after_heard self.old heard.now now life }
    {
        refresh_all(&mut self.entries, heard.spa, heard.sha, now);
        if let Some(life) = life {
            self.learn(heard, now, life);
        }
    }

    /// Adds the sender's pair if it isn't there.
    fn learn(&mut self, heard: &Arp, now: Tick, life: u32)
        ensures { self.new ≡ after_add self.old heard.now now (Some life) }
    {
        if heard.spa.0 == 0 {
            return;
        }
        if self.find(heard.spa).is_some() {
            return;
        }
        self.enter(Entry {
            ip: heard.spa,
            mac: heard.sha,
            fixed: false,
            refreshed: now,
            life,
        });
    }

    /// Puts an entry in the place of that of its address, or of the one that goes first, where there is room.
    fn enter(&mut self, e: Entry)
        ensures { self.new ≡ entered self.old e }
    {
        keep_only(&mut self.entries, Keep::Others(e.ip));
        make_room(&mut self.entries);
        join(&mut self.entries, e);
    }
}

/// Gives up the entry that goes first, where the cache is full.
fn make_room(entries: &mut Vec<Entry>)
    ensures items { entries.new.items ≡ with_room entries.old.items }
    ensures bound { length entries.new.items ≤ length entries.old.items }
    ensures room { vec_capacity entries.new ≡ vec_capacity entries.old }
{
    if entries.len() < MOST {
        return;
    }
    if let Some(e) = stalest_in(entries) {
        keep_only(entries, Keep::Others(e.ip));
    }
}

/// Puts an entry behind the others, where there is room.
fn join(entries: &mut Vec<Entry>, e: Entry)
    requires { 256 ≤ vec_capacity entries.old }
    ensures items { entries.new.items ≡ join entries.old.items e }
    ensures bound { length entries.old.items ≤ 256 → length entries.new.items ≤ 256 }
    ensures room { vec_capacity entries.new ≡ vec_capacity entries.old }
{
    if entries.len() < MOST {
        entries.push_reserved(e);
    }
}
