//! The memory of one pool: the bytes of one datagram's fragments by their places (RFC 791, section 3.2).
ghost use Rattle.std.specs.Prelude.{◌≡◌, ◌+◌, ◌≤◌, length, take, IfOk, IfSome, IfNone, option_map, vec_len};
ghost use Rattle.std.specs.Vec.{vec_capacity};
ghost use Rattle.wire_ip4.specs.Seen.{packet_seen};
ghost use Rattle.ip_core.specs.Pools.{Pool, key_of, is_key, is_of, lasts, most_bytes};
ghost use Rattle.ip_core.specs.Bytes.{Bytes, bytes_kept, bytes_with, end_with};
ghost use Rattle.ip_core.specs.Seen.{key_seen};

use efi_base::{Ip4, NoMemory};
use efi_window::{Window, lengthen};
use std::alloc::Global;
use std::marker::Model;
use wire_ip4::Ip;

/// How many octets the payload of a datagram has at most: 65,535 less the 20 of the least header.
pub const MOST_OCTETS: u32 = 65_515;

/// For how many ticks a pool lasts, from its first fragment on.
pub const LIFETIME: u64 = 30_000;

/// What the fragments of one datagram have in common.
#[derive(Clone, Copy, PartialEq, Eq, Debug)]
pub struct FragmentKey {
    pub src: Ip4,
    pub dest: Ip4,
    pub proto: u8,
    pub id: u16,
}

/// The memory of one pool.
#[derive(Drop)]
pub struct Slot {
    key: FragmentKey,
    opened: u64,
    end: Option<u64>,
    window: Window,
}

impl Model for Slot {
    ghost use Rattle.ip_core.specs.Pools.{Pool};
    ghost use Rattle.ip_core.specs.Bytes.{Bytes};
    ghost use Rattle.ip_core.specs.Seen.{key_seen};

    ghost Value = { Pool Bytes };

    ghost view = { λ s. record { key = key_seen s.key; opened = s.opened; kept = record { end = s.end; held = s.window.held } } };

    ghost use Rattle.ip_core.specs.Inside.{IsSlot};

    ghost invariant = { IsSlot };
}

impl Slot {
    /// A slot of no pool. Only this call takes memory.
    pub fn new(alloc: Global) -> Result<Slot, NoMemory>
        ensures opened { IfOk result (λ s. s.opened ≡ 0) }
        ensures kept { IfOk result (λ s. s.kept ≡ bytes_kept.nothing) }
    {
        let window = Window::open(alloc, MOST_OCTETS)?;
        Ok(Slot {
            key: FragmentKey {
                src: Ip4(0),
                dest: Ip4(0),
                proto: 0,
                id: 0,
            },
            opened: 0,
            end: None,
            window,
        })
    }

    /// Begins a pool at a tick.
    pub fn restart(&mut self, key: FragmentKey, now: u64)
        ensures { self.new ≡ record { key = key_seen key; opened = now; kept = bytes_kept.nothing } }
    {
        self.window.clear(MOST_OCTETS);
        self.key = key;
        self.opened = now;
        self.end = None;
    }

    /// Whether the pool is this key's.
    pub fn is_of(&self, key: FragmentKey) -> bool
        ensures { result ≡ is_of (key_seen key) self.now }
    {
        is_key(key, self.key)
    }

    /// Whether the pool isn't over yet.
    pub fn lasts(&self, now: u64) -> bool
        ensures { result ≡ lasts now self.now }
    {
        now.saturating_sub(self.opened) < LIFETIME
    }

    /// Keeps a fragment's octets, each where none stands yet.
    pub fn add(&mut self, f: &Ip)
        requires { f.now.place + length f.now.payload.now ≤ most_bytes }
        ensures { self.new ≡ record { key = self.old.key; opened = self.old.opened; kept = bytes_with self.old.kept (packet_seen f.now) } }
    {
        self.window.put(f.place as u64, f.payload);
        self.end = end_with(self.end, f);
    }

    /// Moves the octets below the end into the room, where they are there without a gap, and says how many they are. The room
    /// becomes as long as it has to be, within its memory.
    pub fn take_whole(&mut self, room: &mut Vec<u8>) -> Option<usize>
        requires most { vec_len room.old ≤ most_bytes }
        requires memory { most_bytes ≤ vec_capacity room.old }
        ensures bytes { option_map (λ n. take n room.new.items) result ≡ bytes_kept.whole self.old.kept }
        ensures fits { IfSome result (λ n. n ≤ vec_len room.new) }
        ensures kept { IfNone result (self.new ≡ self.old) }
        ensures most { vec_len room.new ≤ most_bytes }
        ensures memory { most_bytes ≤ vec_capacity room.new }
    {
        let Some(end) = self.end else {
            return None;
        };
        if self.window.ready() < end {
            return None;
        }
        lengthen(room, end as usize, 0);
        self.window.take(room);
        self.window.clear(MOST_OCTETS);
        Some(end as usize)
    }
}

/// The key of a fragment.
pub fn key_of(f: &Ip) -> FragmentKey
    ensures { key_seen result ≡ key_of (packet_seen f.now) }
{
    FragmentKey {
        src: f.src,
        dest: f.dest,
        proto: f.proto,
        id: f.id,
    }
}

fn is_key(k: FragmentKey, l: FragmentKey) -> bool
    ensures { result ≡ is_key (key_seen k) (key_seen l) }
{
    k.src.0 == l.src.0 && (k.dest.0 == l.dest.0 && (k.proto == l.proto && k.id == l.id))
}

/// The end with one more fragment.
fn end_with(end: Option<u64>, f: &Ip) -> Option<u64>
    ensures { result ≡ end_with end (packet_seen f.now) }
{
    if let Some(end) = end {
        return Some(end);
    }
    if f.mf {
        return None;
    }
    Some(f.place as u64 + f.payload.len() as u64)
}
