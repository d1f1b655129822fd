//! The window.
ghost use Rattle.std.specs.Prelude.{◌≡◌, ◌==◌, ◌+◌, ◌-◌, ◌^◌, ◌<◌, ◌≤◌, ◌++◌, [], ℕ, min, length, take, drop, IfOk, is_none};
ghost use Rattle.std.specs.List.{list_all};
ghost use Rattle.efi_window.specs.Places.{Places, fresh, ready_of, after_pass, after_put, after_take};

use crate::bits::words_for;
use crate::memory::lengthen;
use crate::ring::{copy, free, put, reach, run};
use efi_base::NoMemory;
use std::alloc::Global;
use std::marker::Model;

/// The first place that is never kept.
const END_OF_PLACES: u64 = 1 << 62;

/// Bytes by place, from the first one that wasn't taken up to the window's edge. Places count octets.
///
/// They stand in a ring, so what stays is never moved. A bit says whether a place is kept. `origin` is a place that stands
/// at the ring's front; while nothing is kept it moves on with what was taken, so octets that come in order use the front
/// alone. The ring and its bits are as long as they were used, within memory for all of them. `span` counts the places
/// from the first one that wasn't taken up to the last byte, which is kept.
#[derive(Debug, Drop)]
pub struct Window {
    room: u32,
    cap: u32,
    taken: u64,
    origin: u64,
    span: u64,
    ring: Vec<u8>,
    words: Vec<u64>,
}

impl Model for Window {
    ghost use Rattle.efi_window.specs.Places.{Places};
    ghost use Rattle.efi_window.specs.Kept.{slots};
    ghost use Rattle.std.specs.Prelude.{◌-◌};

    ghost Value = { Places };

    ghost use Rattle.efi_window.specs.Inside.{IsWindow};

    ghost view = { λ w. record { room = w.room; cap = w.cap; taken = w.taken; held = slots w.room w.ring.items w.words.items (w.taken - w.origin) w.span } };

    ghost invariant = { IsWindow };
}

impl Window {
    /// An empty window of so many octets. Only this call takes memory.
    #[tactic(auto, using(crate::proofs::Words::none_kept))]
    pub fn open(alloc: Global, cap: u32) -> Result<Window, NoMemory>
        ensures { IfOk result (λ w. w ≡ fresh cap cap) }
    {
        let ring = Vec::with_capacity(alloc, cap as usize)?;
        let words = Vec::with_capacity(alloc, words_for(cap as usize))?;
        Ok(Window {
            room: cap,
            cap,
            taken: 0,
            origin: 0,
            span: 0,
            ring,
            words,
        })
    }

    /// Keeps those octets from a place on that stand within the window, where none stands yet.
    pub fn put(&mut self, place: u64, bytes: &[u8])
        ensures { self.new ≡ after_put self.old place bytes.now }
    {
        let first = place.max(self.taken);
        let edge = (self.taken + self.cap as u64).min(END_OF_PLACES);
        let bytes = within(bytes, first - place, edge.saturating_sub(first));
        if !bytes.is_empty() {
            let room = self.room as usize;
            let at = first - self.origin;
            let used = reach(room, at, bytes.len());
            lengthen(&mut self.ring, used, 0);
            lengthen(&mut self.words, words_for(used), 0);
            put(&mut self.ring, &mut self.words, room, at, bytes);
            self.span = self.span.max(first - self.taken + bytes.len() as u64);
        }
    }

    /// How many octets can be taken.
    pub fn ready(&self) -> u64
        ensures count { result ≡ length (ready_of self.now) }
        ensures bound { self.now.taken + result ≤ 2 ^ 62 }
    {
        run(
            &self.words,
            self.room as usize,
            true,
            self.taken - self.origin,
            self.span as usize,
        ) as u64
    }

    /// Moves out as many octets as are ready and fit.
    pub fn take(&mut self, room: &mut [u8]) -> usize
        ensures count { result ≡ min (length room.old) (length (ready_of self.old)) }
        ensures bytes { room.new ≡ take result (ready_of self.old) ++ drop result room.old }
        ensures window { self.new ≡ after_take self.old result }
        ensures bound { self.old.taken + length (ready_of self.old) ≤ 2 ^ 62 }
    {
        let ready = run(
            &self.words,
            self.room as usize,
            true,
            self.taken - self.origin,
            self.span as usize,
        );
        let count = ready.min(room.len());
        let at = self.taken - self.origin;
        copy(&self.ring, self.room as usize, at, count, room);
        free(&mut self.words, self.room as usize, at, count);
        self.taken += count as u64;
        self.span -= count as u64;
        self.origin = front_of(self.origin, self.taken, self.span);
        count
    }

    /// Moves on by octets that stand next and needn't be kept, as if they had been put and taken.
    pub fn pass(&mut self, count: u64)
        requires none { self.old.held ≡ [] }
        requires bound { self.old.taken + count ≤ 2 ^ 62 }
        ensures { self.new ≡ after_pass self.old count }
    {
        self.taken += count;
        self.origin += count;
    }

    /// Whether nothing is kept that wasn't taken.
    pub fn is_empty(&self) -> bool
        ensures { result ≡ (length self.now.held == 0) }
    {
        self.span == 0
    }

    /// How many octets were taken.
    pub fn taken(&self) -> u64
        ensures { result ≡ self.now.taken }
    {
        self.taken
    }

    /// How many octets are kept from the first one that wasn't taken.
    pub fn cap(&self) -> u32
        ensures { result ≡ self.now.cap }
    {
        self.cap
    }

    /// Whether nothing is kept at this place, which wasn't taken, or past it.
    pub fn is_free_from(&self, place: u64) -> bool
        requires { self.now.taken ≤ place }
        ensures { result ≡ list_all is_none (drop (place - self.now.taken) self.now.held) }
    {
        self.span <= place - self.taken
    }

    /// Empties the window and gives it another length, without taking memory.
    #[tactic(auto, using(crate::proofs::Words::none_kept))]
    pub fn clear(&mut self, cap: u32)
        requires least { 1 ≤ cap }
        requires most { cap ≤ self.old.room }
        ensures { self.new ≡ fresh self.old.room cap }
    {
        self.ring.clear();
        self.words.clear();
        self.taken = 0;
        self.origin = 0;
        self.span = 0;
        self.cap = cap;
    }
}

/// The place at the ring's front: where nothing is kept, the first one that wasn't taken.
fn front_of(origin: u64, taken: u64, span: u64) -> u64
    ensures stays { 0 < span → result ≡ origin }
    ensures moves { span ≡ 0 → result ≡ taken }
{
    if span == 0 {
        return taken;
    }
    origin
}

/// What is left of octets behind some of them, up to so many.
fn within(bytes: &[u8], skipped: u64, most: u64) -> &[u8]
    ensures { result.now ≡ take most (drop skipped bytes.now) }
{
    if skipped >= bytes.len() as u64 {
        return &bytes[bytes.len()..];
    }
    let rest = &bytes[skipped as usize..];
    if most >= rest.len() as u64 {
        return rest;
    }
    &rest[..most as usize]
}
