//! Datagrams from fragments (RFC 791, section 3.2): pools that hold the fragments of one datagram each, until it is
//! whole or too old. Nothing here reads a header.
ghost use Rattle.std.specs.Prelude.{⊤, List, ◌≡◌, ◌+◌, ◌≤◌, ◌<◌, [], nat_lt, length, take, remove, slice_set, slice_index_or, IfOk, IfSome, option_map, is_some, vec_len, if◌then◌else◌};
ghost use Rattle.std.specs.List.{position};
ghost use Rattle.std.specs.Vec.{vec_capacity};
ghost use Rattle.std.specs.Borrow.{sem, follows_so};
ghost use Rattle.wire_ip4.specs.Packet.{Packet};
ghost use Rattle.wire_ip4.specs.Seen.{packet_seen};
ghost use Rattle.ip_core.specs.Pools.{Pool, key_of, is_of, open_at, most_bytes, most_pools, reach_of, joined, after_fragment, after_packet, datagram_at};
ghost use Rattle.ip_core.specs.Bytes.{Bytes, bytes_kept, bytes_with};
ghost use Rattle.ip_core.specs.Datagrams.{fragments_kept};
ghost use Rattle.ip_core.specs.Standing.{StandFor};
ghost use Rattle.ip_core.specs.Seen.{key_seen, whole_seen};

use crate::slot::{FragmentKey, MOST_OCTETS, Slot, key_of};
use crate::whole::Whole;
use efi_base::{NoMemory, Tick};
use std::alloc::Global;
use std::marker::Model;
use wire_ip4::Ip;

/// How many pools may be open.
pub const POOLS: usize = 16;

/// Up to 16 pools, in the order in which they opened. Only `new` takes memory.
#[derive(Drop)]
pub struct Reasm {
    pools: Vec<Slot>,
    free: Vec<Slot>,
    room: Vec<u8>,
}

impl Model for Reasm {
    ghost use Rattle.std.specs.Prelude.{List};
    ghost use Rattle.ip_core.specs.Pools.{Pool};
    ghost use Rattle.ip_core.specs.Bytes.{Bytes};
    ghost use Rattle.ip_core.specs.Inside.{IsReasm};

    ghost Value = { List (Pool Bytes) };

    ghost view = { λ r. r.pools.items };

    ghost invariant = { IsReasm };
}

impl Reasm {
    ghost use Rattle.ip_core.specs.contracts.reasm.Reasm.{the_row};
    ghost use mathlib.Core.Option.{none};

    /// No pool is open.
    pub fn new(alloc: Global) -> Result<Reasm, NoMemory>
        ensures { IfOk result (λ r. r ≡ []) }
    {
        let pools = Vec::with_capacity(alloc, POOLS)?;
        let free = free_slots(alloc)?;
        let room = Vec::with_capacity(alloc, MOST_OCTETS as usize)?;
        Ok(Reasm { pools, free, room })
    }

    /// Takes in a packet. The answer is the datagram that exists at it: the packet's own where it isn't fragmented,
    /// and the joined one where it is the fragment that leaves no gap below the end.
    pub fn put<'a, 'p: 'a>(&'a mut self, now: Tick, p: &Ip<'p>) -> Option<Whole<'a>>
        ensures datagram { option_map whole_seen result ≡ datagram_at bytes_kept self.old now.0 (packet_seen p.now) }
        ensures fragments { (pools : List (Pool (List Packet))) → StandFor pools self.old
            → option_map whole_seen result ≡ datagram_at fragments_kept pools now.0 (packet_seen p.now) }
        ensures* after { sem 𝓛 (follows_so the_row the_row self.entry.ghost_name none (λ _ _. ⊤)
            (λ v. v ≡ after_packet bytes_kept self.old now.0 (packet_seen p.now))) }
    {
        close_old(&mut self.pools, &mut self.free, now.0);
        if !p.mf && p.place == 0 {
            return Some(lent(p, p.payload));
        }
        let count = join(&mut self.pools, &mut self.free, &mut self.room, now.0, p);
        match count {
            Some(count) => Some(lent(p, &self.room[..count])),
            None => None,
        }
    }

    /// Closes the pools that are over.
    pub fn tick(&mut self, now: Tick)
        ensures { self.new ≡ open_at now.0 self.old }
    {
        close_old(&mut self.pools, &mut self.free, now.0);
    }
}

/// The datagram of a packet, with this payload.
fn lent<'a>(p: &Ip, payload: &'a [u8]) -> Whole<'a>
    ensures src { result.src ≡ p.now.src }
    ensures dest { result.dest ≡ p.now.dest }
    ensures proto { result.proto ≡ p.now.proto }
    ensures id { result.id ≡ p.now.id }
    ensures payload { result.payload.now ≡ payload.now }
{
    Whole {
        src: p.src,
        dest: p.dest,
        proto: p.proto,
        id: p.id,
        payload,
    }
}

/// The slots, of which each is free.
fn free_slots(alloc: Global) -> Result<Vec<Slot>, NoMemory>
    ensures count { IfOk result (λ slots. vec_len slots ≡ most_pools) }
    ensures memory { IfOk result (λ slots. most_pools ≤ vec_capacity slots) }
{
    let mut slots = Vec::with_capacity(alloc, POOLS)?;
    for _ in 0..POOLS {
        let slot = Slot::new(alloc)?;
        slots.push(slot)?;
    }
    Ok(slots)
}

/// Closes the pool at a place.
fn close(pools: &mut Vec<Slot>, free: &mut Vec<Slot>, place: usize)
    requires place { place < vec_len pools.old }
    requires memory { vec_len free.old < vec_capacity free.old }
    ensures pools { pools.new.items ≡ remove pools.old.items place }
    ensures slots { vec_len pools.new + vec_len free.new ≡ vec_len pools.old + vec_len free.old }
    ensures pools_memory { vec_capacity pools.new ≡ vec_capacity pools.old }
    ensures free_memory { vec_capacity free.old ≤ vec_capacity free.new }
{
    let slot = pools.remove(place);
    let _ = free.push(slot);
}

/// Closes the pools that are over.
fn close_old(pools: &mut Vec<Slot>, free: &mut Vec<Slot>, now: u64)
    requires { vec_len pools.old + vec_len free.old ≤ vec_capacity free.old }
    ensures pools { pools.new.items ≡ open_at now pools.old.items }
    ensures slots { vec_len pools.new + vec_len free.new ≡ vec_len pools.old + vec_len free.old }
    ensures pools_memory { vec_capacity pools.new ≡ vec_capacity pools.old }
    ensures free_memory { vec_capacity free.old ≤ vec_capacity free.new }
{
    let mut place = 0;
    while place < pools.len() {
        if pools[place].lasts(now) {
            place += 1;
        } else {
            close(pools, free, place);
        }
    }
}

/// Whether a fragment reaches past the most octets that a datagram has.
fn is_too_long(f: &Ip) -> bool
    ensures { result ≡ nat_lt most_bytes (reach_of (packet_seen f.now)) }
{
    f.place as usize + f.payload.len() > MOST_OCTETS as usize
}

/// Where the key's pool is.
fn find(pools: &[Slot], key: FragmentKey) -> Option<usize>
    ensures { result ≡ position (is_of (key_seen key)) pools.now }
{
    pools.iter().position(|slot| slot.is_of(key))
}

/// Takes in a fragment, and moves the octets of its datagram into the room where they are whole.
fn join(
    pools: &mut Vec<Slot>,
    free: &mut Vec<Slot>,
    room: &mut Vec<u8>,
    now: u64,
    f: &Ip,
) -> Option<usize>
    requires slots { vec_len pools.old + vec_len free.old ≡ most_pools }
    requires pools_memory { most_pools ≤ vec_capacity pools.old }
    requires free_memory { most_pools ≤ vec_capacity free.old }
    requires room { vec_len room.old ≤ most_bytes }
    requires room_memory { most_bytes ≤ vec_capacity room.old }
    ensures bytes { option_map (λ n. take n room.new.items) result ≡ joined bytes_kept pools.old.items (packet_seen f.now) }
    ensures fits { IfSome result (λ n. n ≤ vec_len room.new) }
    ensures room { vec_len room.new ≤ most_bytes }
    ensures room_memory { most_bytes ≤ vec_capacity room.new }
    ensures pools { pools.new.items ≡ after_fragment bytes_kept now pools.old.items (packet_seen f.now) }
    ensures slots { vec_len pools.new + vec_len free.new ≡ most_pools }
    ensures pools_memory { most_pools ≤ vec_capacity pools.new }
    ensures free_memory { most_pools ≤ vec_capacity free.new }
{
    if is_too_long(f) {
        return None;
    }
    let key = key_of(f);
    if let Some(place) = find(pools, key) {
        return join_at(pools, free, room, place, f);
    }
    let Some(mut slot) = free.pop() else {
        return None;
    };
    slot.restart(key, now);
    let place = pools.len();
    let _ = pools.push(slot);
    join_at(pools, free, room, place, f)
}

/// Takes in a fragment of the pool at a place, and closes that where the datagram is whole.
fn join_at(
    pools: &mut Vec<Slot>,
    free: &mut Vec<Slot>,
    room: &mut Vec<u8>,
    place: usize,
    f: &Ip,
) -> Option<usize>
    requires place { place < vec_len pools.old }
    requires reach { f.now.place + length f.now.payload.now ≤ most_bytes }
    requires memory { vec_len free.old < vec_capacity free.old }
    requires room { vec_len room.old ≤ most_bytes }
    requires room_memory { most_bytes ≤ vec_capacity room.old }
    ensures bytes { (d : Pool Bytes) → option_map (λ n. take n room.new.items) result
        ≡ bytes_kept.whole (bytes_with (slice_index_or pools.old.items place d).kept (packet_seen f.now)) }
    ensures fits { IfSome result (λ n. n ≤ vec_len room.new) }
    ensures room { vec_len room.new ≤ most_bytes }
    ensures room_memory { most_bytes ≤ vec_capacity room.new }
    ensures pools { (d : Pool Bytes) → let pool = slice_index_or pools.old.items place d in pools.new.items
        ≡ (if is_some result then remove pools.old.items place
        else slice_set pools.old.items place (record { key = pool.key; opened = pool.opened; kept = bytes_with pool.kept (packet_seen f.now) })) }
    ensures slots { vec_len pools.new + vec_len free.new ≡ vec_len pools.old + vec_len free.old }
    ensures pools_memory { vec_capacity pools.new ≡ vec_capacity pools.old }
    ensures free_memory { vec_capacity free.old ≤ vec_capacity free.new }
{
    pools[place].add(f);
    let count = pools[place].take_whole(room)?;
    close(pools, free, place);
    Some(count)
}
