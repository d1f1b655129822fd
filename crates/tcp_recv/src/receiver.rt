//! The receiver.
ghost use Rattle.std.specs.Prelude.{◌≡◌, ◌+◌, ◌-◌, ◌^◌, ◌≤◌, ◌∷◌, ◌++◌, ℕ, true, false, [], List, min, length, take, drop, IfOk};
ghost use Rattle.tcp_recv.specs.Receiver.{Receiver, fresh, untaken, accepted_of, is_ended, is_next, next_number, Stands};
ghost use Rattle.tcp_recv.specs.Steps.{StandsFor, Step};
ghost use Rattle.tcp_recv.specs.Steps.Step.{hears, takes};
ghost use Rattle.tcp_recv.specs.Stream.{Board, Cut, after_cut, front};

use crate::placing::{END_OF_PLACES, before_end, end_with, spot_of};
use efi_base::NoMemory;
use efi_window::Window;
use std::alloc::Global;
use std::marker::Model;

/// The window of a receiver that names none, in octets.
const PLAIN_CAP: u32 = 65_535;

/// What a peer's segments make of its stream. Places count octets from the stream's first one.
#[derive(Debug, Drop)]
pub struct Recv {
    irs: u32,
    window: Window,
    end: Option<u64>,
}

impl Model for Recv {
    ghost use Rattle.tcp_recv.specs.Receiver.{Receiver};

    ghost Value = { Receiver };

    ghost view = { λ r. record { irs = r.irs; room = r.window.room; cap = r.window.cap; taken = r.window.taken; held = r.window.held; end = r.end } };
}

impl Recv {
    /// A receiver with the window of a connection without window scaling.
    pub fn new(alloc: Global, irs: u32) -> Result<Recv, NoMemory>
        ensures { IfOk result (λ r. r ≡ fresh irs 65535 65535) }
    {
        Recv::with_cap(alloc, irs, PLAIN_CAP)
    }

    /// A receiver with a window of so many octets. Only this call and `new` take memory.
    pub fn with_cap(alloc: Global, irs: u32, cap: u32) -> Result<Recv, NoMemory>
        requires least { 1 ≤ cap }
        requires most { cap ≤ 8388608 }
        ensures { IfOk result (λ r. r ≡ fresh irs cap cap) }
    {
        let window = Window::open(alloc, cap)?;
        Ok(Recv {
            irs,
            window,
            end: None,
        })
    }

    /// Begins anew with another peer's first number and window, without taking memory.
    pub fn restart(&mut self, irs: u32, cap: u32)
        requires least { 1 ≤ cap }
        requires most { cap ≤ self.old.room }
        ensures { self.new ≡ fresh irs self.old.room cap }
    {
        self.window.clear(cap);
        self.irs = irs;
        self.end = None;
    }

    /// Takes in a segment's octets and its FIN, wherever they stand.
    pub fn on_cut(&mut self, seq: u32, bytes: &[u8], fin: bool)
        ensures stands { (board : Board) → (given : List ℕ) → Stands board given self.old
            → Stands (after_cut self.old.irs self.old.cap self.old.taken board (record { seq = seq; bytes = bytes.now; fin = fin })) given self.new }
        ensures steps { (steps : List Step) → (given : List ℕ) → StandsFor steps given self.old
            → StandsFor (steps ++ hears (record { seq = seq; bytes = bytes.now; fin = fin }) ∷ []) given self.new }
        ensures irs { self.new.irs ≡ self.old.irs }
        ensures room { self.new.room ≡ self.old.room }
        ensures cap { self.new.cap ≡ self.old.cap }
        ensures taken { self.new.taken ≡ self.old.taken }
    {
        let spot = spot_of(self.irs, self.window.taken() + self.window.ready(), seq);
        if spot.skipped > bytes.len() as u64 {
            return;
        }
        let bytes = &bytes[spot.skipped as usize..];
        self.window
            .put(spot.place, before_end(bytes, spot.place, self.end));
        self.end = end_with(&self.window, self.end, fin, spot.place + bytes.len() as u64);
    }

    /// Passes on a segment's octets that stand next, without FIN, where none is kept and the window takes in all of them: as if
    /// they had been taken in and moved out at once, but they stay where they are. Answers false, and does nothing, elsewhere.
    pub fn pass(&mut self, seq: u32, bytes: &[u8]) -> bool
        ensures exact { result ≡ is_next self.old seq (length bytes.now) }
        ensures passed { result ≡ true → self.new ≡ record self.old { taken = self.old.taken + length bytes.now; held = [] } }
        ensures stays { result ≡ false → self.new ≡ self.old }
        ensures stands { result ≡ true → (board : Board) → (given : List ℕ) → Stands board given self.old
            → Stands (after_cut self.old.irs self.old.cap self.old.taken board (record { seq = seq; bytes = bytes.now; fin = false }))
            (given ++ bytes.now) self.new }
        ensures steps { result ≡ true → (steps : List Step) → (given : List ℕ) → StandsFor steps given self.old
            → StandsFor (steps ++ hears (record { seq = seq; bytes = bytes.now; fin = false }) ∷ takes (length bytes.now) ∷ [])
            (given ++ bytes.now) self.new }
        ensures bound { result ≡ true → self.new.taken ≤ 2 ^ 62 }
    {
        let count = bytes.len() as u64;
        if !self.is_next(seq, count) {
            return false;
        }
        self.window.pass(count);
        true
    }

    /// Whether so many octets from this number on stand next, and the window takes in all of them and holds none.
    fn is_next(&self, seq: u32, count: u64) -> bool
        ensures { result ≡ is_next self.now seq count }
    {
        self.window.is_empty()
            && self.end.is_none()
            && seq == self.rcv_nxt()
            && count <= self.window.cap() as u64
            && self.accepted() + count <= END_OF_PLACES
    }

    /// Moves out as many octets as are ready and fit.
    pub fn take(&mut self, room: &mut [u8]) -> usize
        ensures count { result ≡ min (length room.old) (length (untaken self.old)) }
        ensures bytes { room.new ≡ take result (untaken self.old) ++ drop result room.old }
        ensures receiver { self.new ≡ record self.old { taken = self.old.taken + result; held = drop result self.old.held } }
        ensures stands { (board : Board) → (given : List ℕ) → Stands board given self.old
            → Stands board (given ++ take result (untaken self.old)) self.new }
        ensures steps { (steps : List Step) → (given : List ℕ) → StandsFor steps given self.old
            → StandsFor (steps ++ takes result ∷ []) (given ++ take result (untaken self.old)) self.new }
        ensures joined { (board : Board) → (given : List ℕ) → Stands board given self.old
            → front board.kept ≡ given ++ untaken self.old }
        ensures bound { self.old.taken + length (untaken self.old) ≤ 2 ^ 62 }
    {
        self.window.take(room)
    }

    /// How many octets are there without a gap, the taken ones with them.
    pub fn accepted(&self) -> u64
        ensures count { result ≡ accepted_of self.now }
        ensures bound { result ≤ 2 ^ 62 }
    {
        self.window.taken() + self.window.ready()
    }

    /// Whether the stream's end is there, and all octets before it.
    pub fn ended(&self) -> bool
        ensures { result ≡ is_ended self.now }
    {
        match self.end {
            Some(end) => end == self.accepted(),
            None => false,
        }
    }

    /// The number that an acknowledgment names (RCV.NXT of RFC 9293, section 3.3.1).
    pub fn rcv_nxt(&self) -> u32
        ensures { result ≡ next_number self.now }
    {
        let fin = if self.ended() { 1 } else { 0 };
        ((self.irs as u64 + 1 + self.accepted() + fin) % (1 << 32)) as u32
    }

    /// How many octets the window is open for: those that can be accepted before any more are taken.
    pub fn free(&self) -> u32
        ensures { result ≡ self.now.cap - length (untaken self.now) }
    {
        (self.window.cap() as u64).saturating_sub(self.window.ready()) as u32
    }
}
