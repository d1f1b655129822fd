//! The sender.
ghost use Rattle.std.specs.Prelude.{◌≡◌, ◌+◌, ◌-◌, ◌^◌, ◌<◌, ◌≤◌, ◌==◌, ◌&&◌, ℕ, List, IfOk, IfSome, if◌then◌else◌, true, nat_lt, length, min};
ghost use Rattle.tcp_send.specs.Flight.{fin_number, octets_of};
ghost use Rattle.tcp_send.specs.Numbers.{number_of};
ghost use Rattle.tcp_send.specs.Stream.{Keeps, IsTrueCut};
ghost use Rattle.tcp_send.specs.Sender.{Sender, IsSender, fresh, pushed_of, sent_of, unsent_of, next_place, passed_of, has_given_up, is_open, has_more, waits, restarted, push_count, after_push, after_finish, after_begin, ahead_of, counts, acknowledged, is_idle, after_heard, after_ack, after_bare_ack, is_due, in_flight, may_send, first_cut, cut_at, with_sent, row_passed, row_cut, after_row, new_segment, after_new, settled, cut_now, after_now, next_tick};

use crate::backoff::{Backoff, SEGMENT_ROWS};
use crate::flight::{MOST_SEGMENTS, Segment, fin_number, first_of, octets_of, release};
use crate::numbers::{distance, number_of};
use crate::peer_window::{SendWindow, updated};
use crate::text::{Cut, copied, front_of};
use arrayvec::ArrayVec;
use circular_buffer::HeapCircularBuffer;
use efi_base::{NoMemory, Tick};
use std::alloc::Global;
use std::marker::Model;

/// The octets that the buffer has room for.
const ROOM: usize = 65_536;

/// The first place at which no octet stands.
const END_OF_PLACES: u64 = 1 << 62;

/// What is sent of a stream of octets. Places count octets from the stream's first one, and FIN has the place behind the
/// last one.
#[derive(Drop)]
pub struct Send {
    iss: u32,
    m: u16,
    window: SendWindow,
    una: u64,
    base: u64,
    ring: HeapCircularBuffer<u8>,
    finished: bool,
    fin_sent: bool,
    flight: ArrayVec<Segment, MOST_SEGMENTS>,
    backoff: Option<Backoff>,
    probing: bool,
}

impl Model for Send {
    ghost use Rattle.tcp_send.specs.Sender.{Sender};
    ghost use Rattle.tcp_send.specs.Inside.{seen, IsSend};

    ghost Value = { Sender };

    ghost view = { seen };

    ghost invariant = { IsSend };
}

impl Send {
    /// A sender whose SYN has this number. Only this call takes memory.
    pub fn new(alloc: Global, iss: u32) -> Result<Send, NoMemory>
        ensures { IfOk result (λ s. s ≡ fresh iss) }
    {
        let ring = HeapCircularBuffer::with_capacity(alloc, ROOM)?;
        Ok(Send {
            iss,
            m: 0,
            window: SendWindow {
                size: 0,
                seq: 0,
                ack: 0,
            },
            una: 0,
            base: 0,
            ring,
            finished: false,
            fin_sent: false,
            flight: ArrayVec::new(),
            backoff: None,
            probing: false,
        })
    }

    /// Takes in as many octets as there is room for, and answers how many.
    pub fn push(&mut self, bytes: &[u8]) -> usize
        ensures count { result ≡ push_count self.old bytes.now }
        ensures sender { self.new ≡ after_push self.old bytes.now }
    {
        if self.finished {
            return 0;
        }
        let most = END_OF_PLACES - self.pushed();
        self.ring.fill_from_slice(front_of(bytes, most))
    }

    /// FIN stands behind what was pushed.
    pub fn finish(&mut self)
        ensures { self.new ≡ after_finish self.old }
    {
        self.finished = true;
    }

    /// The connection is established by a segment with this number and this window, in octets, that acknowledges the SYN.
    /// Segments have at most `m` octets. Before it nothing is sent.
    pub fn begin(&mut self, now: Tick, seq: u32, window: u32, m: u16)
        requires { m ≤ 1460 }
        ensures { self.new ≡ after_begin self.old now seq window m }
    {
        self.m = m;
        self.window = SendWindow {
            size: window,
            seq,
            ack: number_of(self.iss, 0),
        };
        self.restart(now);
    }

    /// Hears the numbers of a segment, and its window in octets.
    pub fn on_ack(&mut self, now: Tick, seq: u32, ack: u32, window: u32)
        ensures { self.new ≡ after_ack self.old now seq ack window }
    {
        if !self.counts(ack) {
            return;
        }
        let window = updated(self.window, seq, ack, window);
        self.hear(now, self.ahead(ack), window);
    }

    /// Hears the acknowledgment of a segment whose window doesn't count, since it isn't acceptable.
    pub fn on_bare_ack(&mut self, now: Tick, ack: u32)
        ensures { self.new ≡ after_bare_ack self.old now ack }
    {
        if !self.counts(ack) {
            return;
        }
        self.hear(now, self.ahead(ack), self.window);
    }

    /// The segment that goes now. An event is over once this call answered that none does; only then `next` is right.
    pub fn next_segment(&mut self, now: Tick) -> Option<Cut>
        ensures cut { result ≡ cut_now self.old now }
        ensures sound { IsSender self.old }
        ensures true_cut { (text : List ℕ) → Keeps text self.old → IfSome result (IsTrueCut text self.old.finished) }
        ensures sender { self.new ≡ after_now self.old now }
    {
        if !self.is_open() {
            return None;
        }
        if self.is_due(now) {
            return self.at_row();
        }
        if self.may_send() {
            return Some(self.send_new(now));
        }
        self.settle(now);
        None
    }

    /// The least number that isn't acknowledged (SND.UNA).
    pub fn snd_una(&self) -> u32
        ensures { result ≡ number_of self.now.iss self.now.una }
    {
        number_of(self.iss, self.una)
    }

    /// The number past all that was sent (SND.NXT).
    pub fn snd_nxt(&self) -> u32
        ensures { result ≡ number_of self.now.iss (next_place self.now) }
    {
        number_of(self.iss, self.next_place())
    }

    /// The next tick at which something is due, once the event's segments were taken.
    pub fn next(&self) -> Option<Tick>
        ensures { result ≡ next_tick self.now }
    {
        if !self.is_open() {
            return None;
        }
        if !self.waits() {
            return None;
        }
        self.backoff?.next()
    }

    /// Whether the last row has passed without an acknowledgment.
    pub fn given_up(&self) -> bool
        ensures { result ≡ has_given_up self.now }
    {
        self.passed() > SEGMENT_ROWS
    }

    /// How many of the octets are acknowledged.
    pub fn acked(&self) -> u64
        ensures { result ≡ min self.now.una (pushed_of self.now) }
    {
        self.una.min(self.pushed())
    }

    /// Whether FIN was sent.
    pub fn fin_sent(&self) -> bool
        ensures { result ≡ self.now.fin_sent }
    {
        self.fin_sent
    }

    /// Whether FIN was sent and is acknowledged.
    pub fn fin_acked(&self) -> bool
        ensures { result ≡ (self.now.fin_sent && self.now.una == next_place self.now) }
    {
        self.fin_sent && self.una == self.next_place()
    }

    /// How many octets were sent.
    pub fn sent(&self) -> u64
        ensures { result ≡ sent_of self.now }
    {
        self.base + octets_of(self.flight.as_slice())
    }

    /// How many octets were pushed.
    pub fn pushed(&self) -> u64
        ensures { result ≡ pushed_of self.now }
    {
        self.base + self.ring.len() as u64
    }

    fn unsent(&self) -> u64
        ensures { result ≡ unsent_of self.now }
    {
        (self.ring.len() as u64).saturating_sub(octets_of(self.flight.as_slice()))
    }

    fn next_place(&self) -> u64
        ensures { result ≡ next_place self.now }
    {
        self.sent() + fin_number(self.fin_sent)
    }

    fn passed(&self) -> u8
        ensures { result ≡ passed_of self.now.backoff }
    {
        match self.backoff {
            Some(backoff) => backoff.passed,
            None => 0,
        }
    }

    fn is_open(&self) -> bool
        ensures answer { result ≡ is_open self.now }
        ensures sound { IsSender self.now }
    {
        self.m > 0 && !self.given_up()
    }

    fn has_more(&self) -> bool
        ensures { result ≡ has_more self.now }
    {
        self.unsent() > 0 || self.finished && !self.fin_sent
    }

    fn waits(&self) -> bool
        ensures { result ≡ waits self.now }
    {
        !self.flight.is_empty() || self.window.size == 0 && self.has_more()
    }

    /// Counts the rows from this tick, where something waits for one.
    fn restart(&mut self, now: Tick)
        ensures { self.new ≡ restarted now self.old }
    {
        self.backoff = if self.waits() {
            Some(Backoff::start(now))
        } else {
            None
        };
    }

    fn ahead(&self, ack: u32) -> u64
        ensures { result ≡ ahead_of self.now ack }
    {
        distance(self.snd_una(), ack)
    }

    fn counts(&self, ack: u32) -> bool
        ensures { result ≡ counts self.now ack }
    {
        self.is_open() && self.ahead(ack) <= self.next_place() - self.una
    }

    fn is_idle(&self) -> bool
        ensures { result ≡ is_idle self.now }
    {
        self.probing || self.flight.is_empty()
    }

    fn hear(&mut self, now: Tick, ahead: u64, window: SendWindow)
        requires { ahead ≤ next_place self.old - self.old.una }
        ensures { self.new ≡ after_heard self.old now ahead window }
    {
        let restarts = ahead > 0 || self.is_idle();
        self.acknowledge(self.una + ahead);
        self.window = window;
        self.probing = self.probing && (window.size == 0 && !self.flight.is_empty());
        if restarts {
            self.restart(now);
        }
    }

    fn acknowledge(&mut self, una: u64)
        requires least { self.old.una ≤ una }
        requires most { una ≤ next_place self.old }
        ensures { self.new ≡ acknowledged self.old una }
    {
        let base = release(&mut self.flight, self.base, una);
        let rest = self.ring.len() - (base - self.base) as usize;
        self.ring.truncate_front(rest);
        self.base = base;
        self.una = una;
    }

    fn is_due(&self, now: Tick) -> bool
        ensures { result ≡ is_due self.now now }
    {
        let Some(backoff) = self.backoff else {
            return false;
        };
        self.waits() && backoff.is_due(now)
    }

    fn in_flight(&self) -> u64
        ensures { result ≡ in_flight self.now }
    {
        self.sent().saturating_sub(self.una)
    }

    fn may_send(&self) -> bool
        ensures { result ≡ may_send self.now }
    {
        self.has_more()
            && (self.flight.len() < MOST_SEGMENTS && self.in_flight() < self.window.size as u64)
    }

    fn first_cut(&self, most: u64) -> Segment
        requires { most ≤ 1460 }
        ensures { result ≡ first_cut self.now most }
    {
        let unsent = self.unsent();
        let last = unsent <= most;
        Segment {
            len: most.min(unsent) as u16,
            psh: unsent > 0 && last,
            fin: self.finished && last,
        }
    }

    /// A segment at a place, with its octets.
    fn cut(&self, place: u64, segment: Segment) -> Cut
        requires least { self.now.base ≤ place }
        requires most { place ≤ pushed_of self.now }
        requires len { segment.len ≤ 1460 }
        ensures { result ≡ cut_at self.now place segment }
    {
        let skipped = (place - self.base) as usize;
        Cut {
            place,
            psh: segment.psh,
            fin: segment.fin,
            payload: copied(&self.ring, skipped, segment.len as usize),
        }
    }

    fn send_first(&mut self, most: u64) -> Cut
        requires most { most ≤ 1460 }
        requires room { length self.old.flight < 8 }
        ensures cut { result ≡ cut_at self.old (sent_of self.old) (first_cut self.old most) }
        ensures sender { self.new ≡ with_sent self.old (first_cut self.old most) }
    {
        let segment = self.first_cut(most);
        let cut = self.cut(self.sent(), segment);
        self.flight.push(segment);
        self.fin_sent = segment.fin;
        cut
    }

    fn at_row(&mut self) -> Option<Cut>
        requires { passed_of self.old.backoff ≤ 8 }
        ensures cut { result ≡ row_cut self.old }
        ensures sender { self.new ≡ after_row self.old }
    {
        let passed = self.passed();
        self.backoff = row_passed(self.backoff);
        if passed == SEGMENT_ROWS {
            return None;
        }
        if let Some(oldest) = first_of(self.flight.as_slice()) {
            return Some(self.cut(self.base, oldest));
        }
        let cut = self.send_first(1);
        self.probing = true;
        Some(cut)
    }

    fn send_new(&mut self, now: Tick) -> Cut
        requires { length self.old.flight < 8 }
        ensures cut { result ≡ cut_at self.old (sent_of self.old) (new_segment self.old) }
        ensures sender { self.new ≡ after_new self.old now }
    {
        let most = (self.m as u64).min((self.window.size as u64).saturating_sub(self.in_flight()));
        if self.flight.is_empty() {
            self.backoff = Some(Backoff::start(now));
        }
        self.send_first(most)
    }

    fn settle(&mut self, now: Tick)
        ensures { self.new ≡ settled self.old now }
    {
        if self.backoff.is_none() {
            self.restart(now);
        }
    }
}

/// One more row has passed.
fn row_passed(backoff: Option<Backoff>) -> Option<Backoff>
    requires { passed_of backoff ≤ 8 }
    ensures { result ≡ row_passed backoff }
{
    match backoff {
        Some(backoff) => Some(Backoff {
            since: backoff.since,
            passed: backoff.passed + 1,
        }),
        None => None,
    }
}
