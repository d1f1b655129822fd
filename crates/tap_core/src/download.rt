//! The stream that a peer's segments make, and the load that takes it in.
ghost use Rattle.std.specs.Prelude.{◌≡◌, ◌==◌, ◌&&◌, ◌+◌, ◌%◌, ◌^◌, ◌<◌, ◌≤◌, ℕ, true, false, not, List, [], IfOk, OnOk, length, drop, take, min, vec_len};
ghost use Rattle.tcp_recv.specs.Stream.{Board, after_cut, empty, front, is_over};
ghost use Rattle.tcp_recv.specs.Receiver.{is_next, untaken};
ghost use Rattle.load_core.specs.Cases.{HasLoadSoFar, HasNoLoad};
ghost use Rattle.wire_http.specs.Response.{IsWhole};
ghost use Rattle.wire_l4.specs.Seen.{segment_seen};
ghost use Rattle.tap_core.specs.Connections.{after_segment, is_reset};
ghost use Rattle.tap_core.specs.Ends.{IsFirstEnd};
ghost use Rattle.tap_core.specs.Following.{Carries, Follows};
ghost use Rattle.tap_core.specs.Segments.{cut_of, has_fin, is_cut, resets};

use efi_base::{Bytes, LoadEnd, NoMemory};
use load_core::Load;
use std::alloc::Global;
use tcp_recv::Recv;
use wire_l4::{ACK, FIN, RST, SYN, Tcp};

/// The window with which a captured stream is kept, in octets: a foreign client may scale its own.
const TAP_WINDOW: u32 = 8_388_608;

/// How many octets are taken from the stream at a time. No segment has more.
const ROOM: usize = 65_536;

/// A connection that the peer accepted with this first number, its stream, and the load of it.
#[derive(Debug, Drop)]
pub struct Download {
    irs: u32,
    recv: Recv,
    load: Load,
    room: Vec<u8>,
}

impl Download {
    /// A connection on which nothing was heard, and a buffer of so many octets.
    pub fn new(alloc: Global, irs: u32, most: u32) -> Result<Download, NoMemory>
        ensures follows { IfOk result (λ d. Follows most irs empty d) }
        ensures room { IfOk result (λ d. 0 < vec_len d.room) }
    {
        let recv = Recv::with_cap(alloc, irs, TAP_WINDOW)?;
        let room = room_of(alloc)?;
        let load = Load::new(alloc, most);
        Ok(Download {
            irs,
            recv,
            load,
            room,
        })
    }

    /// Takes in a segment, and answers whether it resets the connection.
    pub fn on_segment(&mut self, segment: &Tcp<'_>) -> Result<bool, NoMemory>
        ensures follows { (most irs : ℕ) (board : Board) → 0 < vec_len self.old.room → Follows most irs board self.old
            → IfOk result (λ reset. (reset ≡ is_reset irs board (segment_seen segment.now))
            × Follows most irs (after_segment irs board (segment_seen segment.now)) self.new) }
        ensures room { vec_len self.new.room ≡ vec_len self.old.room }
    {
        let reset = is_reset(self.irs, self.recv.accepted(), segment);
        if !is_cut(segment) {
            return Ok(reset);
        }
        if pass_on(&mut self.recv, &mut self.load, segment)? {
            return Ok(reset);
        }
        self.recv
            .on_cut(segment.seq, segment.payload, has_fin(segment));
        drain(&mut self.recv, &mut self.room, &mut self.load)?;
        Ok(reset)
    }

    /// The first case that what is kept of the stream meets, where its last segment reset the connection or not.
    pub fn end(&self, reset: bool) -> Option<LoadEnd>
        ensures { (most irs : ℕ) (board : Board) → Follows most irs board self.now → IsFirstEnd most board reset result }
    {
        self.load.end(self.recv.ended(), reset)
    }

    /// How many octets of the stream were accepted.
    pub fn accepted(&self) -> u64
        ensures { (most irs : ℕ) (board : Board) → Follows most irs board self.now → result ≡ length (front board.kept) }
    {
        self.recv.accepted()
    }

    /// Whether the stream's end was reached.
    pub fn ended(&self) -> bool
        ensures { (most irs : ℕ) (board : Board) → Follows most irs board self.now → result ≡ is_over board }
    {
        self.recv.ended()
    }

    /// The octets of the body as far as they came and fit: the body, where the response is whole. None of another status's body
    /// and none of a coded one.
    pub fn into_body(self) -> Bytes
        ensures whole { (most irs : ℕ) (board : Board) → Follows most irs board self
            → (body : List ℕ) → IsWhole (front board.kept) (is_over board) 200 body → length body ≤ most → result ≡ body }
        ensures so_far { (most irs : ℕ) (board : Board) → Follows most irs board self
            → (octets : List ℕ) → HasLoadSoFar (front board.kept) octets → result ≡ take most octets }
        ensures none { (most irs : ℕ) (board : Board) → Follows most irs board self → HasNoLoad (front board.kept) → result ≡ [] }
    {
        let Download { load, .. } = self;
        load.into_body()
    }
}

/// Hands the load the octets of a cut that stand next, from where they are, and answers whether they do.
fn pass_on(recv: &mut Recv, load: &mut Load, segment: &Tcp<'_>) -> Result<bool, NoMemory>
    ensures exact { IfOk result (λ passed. passed ≡ (not (has_fin (segment_seen segment.now))
        && is_next recv.old (segment_seen segment.now).seq (length (segment_seen segment.now).payload))) }
    ensures passed { IfOk result (λ passed. passed ≡ true → (most : ℕ) (board : Board) → Carries most board recv.old load.old
        → Carries most (after_cut recv.old.irs recv.old.cap recv.old.taken board (cut_of (segment_seen segment.now))) recv.new load.new) }
    ensures all { IfOk result (λ passed. passed ≡ true → untaken recv.new ≡ []) }
    ensures numbers { (recv.new.irs ≡ recv.old.irs) × (recv.new.cap ≡ recv.old.cap) }
    ensures stays { IfOk result (λ passed. passed ≡ false → (recv.new ≡ recv.old) × (load.new ≡ load.old)) }
{
    if has_fin(segment) || !recv.pass(segment.seq, segment.payload) {
        return Ok(false);
    }
    load.feed(segment.payload)?;
    Ok(true)
}

/// Moves all octets that are there without a gap to the load.
fn drain(recv: &mut Recv, room: &mut [u8], load: &mut Load) -> Result<(), NoMemory>
    ensures carries { (most : ℕ) (board : Board) → Carries most board recv.old load.old → OnOk result (Carries most board recv.new load.new) }
    ensures all { 0 < length room.old → OnOk result (untaken recv.new ≡ []) }
    ensures numbers { OnOk result ((recv.new.irs ≡ recv.old.irs) × (recv.new.cap ≡ recv.old.cap)) }
{
    loop {
        let count = move_some(recv, room, load)?;
        if count == 0 {
            return Ok(());
        }
    }
}

/// Moves as many octets as fit the room, and answers how many.
fn move_some(recv: &mut Recv, room: &mut [u8], load: &mut Load) -> Result<usize, NoMemory>
    ensures count { IfOk result (λ n. n ≡ min (length room.old) (length (untaken recv.old))) }
    ensures left { IfOk result (λ n. untaken recv.new ≡ drop n (untaken recv.old)) }
    ensures carries { (most : ℕ) (board : Board) → Carries most board recv.old load.old → OnOk result (Carries most board recv.new load.new) }
    ensures numbers { (recv.new.irs ≡ recv.old.irs) × (recv.new.cap ≡ recv.old.cap) }
{
    let count = recv.take(room);
    match load.feed(&room[..count]) {
        Ok(()) => Ok(count),
        Err(e) => Err(e),
    }
}

/// Whether a segment has RST, and the number of the octet behind so many accepted ones.
fn is_reset(irs: u32, accepted: u64, segment: &Tcp<'_>) -> bool
    ensures { result ≡ (resets (segment_seen segment.now) && (segment_seen segment.now).seq == (irs + 1 + accepted) % 2 ^ 32) }
{
    segment.flags & RST == RST && segment.seq == number_at(irs, accepted)
}

/// The number of the octet at a place of the stream that begins behind this first number.
fn number_at(irs: u32, place: u64) -> u32
    ensures { result ≡ (irs + 1 + place) % 2 ^ 32 }
{
    ((irs as u64 + 1 + place % 0x1_0000_0000) % 0x1_0000_0000) as u32
}

/// Whether the peer's stream ends behind a segment's data.
fn has_fin(segment: &Tcp<'_>) -> bool
    ensures { result ≡ has_fin (segment_seen segment.now) }
{
    segment.flags & FIN == FIN
}

/// ACK, neither SYN nor RST, and data or FIN.
fn is_cut(segment: &Tcp<'_>) -> bool
    ensures { result ≡ is_cut (segment_seen segment.now) }
{
    segment.flags & (SYN | RST | ACK) == ACK && (!segment.payload.is_empty() || has_fin(segment))
}

/// Room for the octets of a segment.
fn room_of(alloc: Global) -> Result<Vec<u8>, NoMemory>
    ensures { IfOk result (λ v. vec_len v ≡ 65536) }
{
    Ok(vec![in alloc; 0; ROOM]?)
}
