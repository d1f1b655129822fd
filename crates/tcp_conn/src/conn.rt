//! The connection: its facts, what a segment, a tick and the user's calls do to them, and what goes out. An event begins
//! with a segment or a tick and is closed by taking all its segments; the user's calls stand in between.
ghost use Rattle.std.specs.Prelude.{◌⊎◌, ◌≡◌, ◌+◌, ◌-◌, ◌^◌, ◌<◌, ◌≤◌, ◌==◌, ◌&&◌, ◌++◌, ℕ, List, IfOk, IfSome, if◌then◌else◌, true, length, take, drop, min};
ghost use Rattle.wire_l4.specs.Seen.{segment_seen};
ghost use Rattle.tcp_recv.specs.Receiver.{accepted_of, is_ended, untaken};
ghost use Rattle.tcp_send.specs.Sender.{pushed_of};
ghost use Rattle.tcp_send.specs.Stream.{Keeps};
ghost use Rattle.tcp_conn.specs.TrueSegments.{IsTrueOut, IsPlain, IsSynOf, IsPartOf};
ghost use Rattle.tcp_conn.specs.Connection.{Connection, is_over};
ghost use Rattle.tcp_conn.specs.Segments.{ended_by, owing_ack, owing_reset, moved, after_text, after_reset, after_syn_again, opened_by, in_syn_sent, established_by, in_syn_received, acknowledged_by, in_synchronized, after_segment};
ghost use Rattle.tcp_conn.specs.Calls.{opening, listening, after_tick, pushed_count, after_pushing, after_abort, after_close, after_taking, begun, shown_state, next_event};
ghost use Rattle.tcp_conn.specs.Owed.{syn_out, ack_out, cut_out, opening_out, after_opening, stream_out, after_stream, due_in, after_due_in, abort_out, rest_out, after_rest, segment_out, after_out};

use crate::acceptance::{
    acks_syn, acks_unsent, has_ack, has_fin, has_rst, has_syn, has_text, is_acceptable,
    is_in_window, number_of,
};
use crate::hearing::hear_cut;
use crate::out::{SegOut, cut_flags, reset_out};
use crate::rows::{is_syn_due, is_syn_over, is_waited, syn_sent, wait_end};
use crate::side::{MSS, SCALED_CAP, SHIFT, answered_shift, cap_of, most_of, scaled, window_field};
use crate::state::{ConnEnd, ConnState};
use arrayvec::ArrayVec;
use efi_base::{NoMemory, Tick};
use std::alloc::Global;
use std::marker::Model;
use tcp_recv::Recv;
use tcp_send::{Backoff, Cut, Send};
use wire_l4::{ACK, SYN, Tcp};

/// The window that a SYN tells.
const PLAIN_WINDOW: u16 = 65_535;

const SYN_ACK: u8 = SYN | ACK;

/// One side of a connection.
#[derive(Drop)]
pub struct Conn {
    state: ConnState,
    aborted: bool,
    closed: bool,
    iss: u32,
    limit: u16,
    scale: Option<u8>,
    at: Tick,
    since: Tick,
    syn: Option<Backoff>,
    ack_owed: bool,
    reset_owed: Option<u32>,
    recv: Recv,
    send: Send,
}

impl Model for Conn {
    ghost use Rattle.tcp_conn.specs.Connection.{Connection};
    ghost use Rattle.tcp_conn.specs.Inside.{seen, IsConn};

    ghost Value = { Connection };

    ghost view = { seen };

    ghost invariant = { IsConn };
}

impl Conn {
    /// Opens a connection by a SYN with this number. Segments have at most `mss` octets, and fewer where the peer takes fewer.
    /// Only this call and `listen` take memory.
    pub fn open(alloc: Global, now: Tick, iss: u32, mss: u16) -> Result<Conn, NoMemory>
        requires { mss ≤ 1460 }
        ensures { IfOk result (λ c. c ≡ opening now iss mss) }
    {
        Conn::begin(alloc, ConnState::SynSent, now, iss, 0, mss, None)
    }

    /// Answers a heard SYN.
    pub fn listen(
        alloc: Global,
        now: Tick,
        syn: &Tcp<'_>,
        iss: u32,
        mss: u16,
    ) -> Result<Conn, NoMemory>
        requires { mss ≤ 1460 }
        ensures { IfOk result (λ c. c ≡ listening now (segment_seen syn.now) iss mss) }
    {
        let limit = most_of(mss, syn.mss);
        Conn::begin(
            alloc,
            ConnState::SynReceived,
            now,
            iss,
            syn.seq,
            limit,
            syn.shift,
        )
    }

    fn begin(
        alloc: Global,
        state: ConnState,
        now: Tick,
        iss: u32,
        irs: u32,
        limit: u16,
        scale: Option<u8>,
    ) -> Result<Conn, NoMemory>
        requires { limit ≤ 1460 }
        ensures { IfOk result (λ c. c ≡ begun state now iss irs limit scale) }
    {
        let mut recv = Recv::with_cap(alloc, irs, SCALED_CAP)?;
        recv.restart(irs, cap_of(scale));
        let send = Send::new(alloc, iss)?;
        Ok(Conn {
            state,
            aborted: false,
            closed: false,
            iss,
            limit,
            scale,
            at: now,
            since: now,
            syn: None,
            ack_owed: false,
            reset_owed: None,
            recv,
            send,
        })
    }

    /// Hears a segment between the connection's ports.
    pub fn on_segment(&mut self, now: Tick, s: &Tcp<'_>)
        ensures { self.new ≡ after_segment self.old now (segment_seen s.now) }
    {
        if self.is_over() {
            return;
        }
        self.at = now;
        match self.state {
            ConnState::SynSent => self.in_syn_sent(s),
            ConnState::SynReceived => self.in_syn_received(s),
            ConnState::Closed(_) => {}
            _ => self.in_synchronized(s),
        }
    }

    /// A tick has come.
    pub fn on_tick(&mut self, now: Tick)
        ensures { self.new ≡ after_tick self.old now }
    {
        if self.is_over() {
            return;
        }
        self.at = now;
        if is_waited(self.state, self.since, now) {
            self.state = ConnState::Closed(ConnEnd::Fin);
        }
    }

    /// Takes in as many octets as there is room for, and answers how many.
    pub fn push(&mut self, bytes: &[u8]) -> usize
        ensures count { result ≡ pushed_count self.old bytes.now }
        ensures connection { self.new ≡ after_pushing self.old bytes.now }
    {
        if self.is_over() {
            return 0;
        }
        self.send.push(bytes)
    }

    /// No more octets will be pushed: FIN goes behind the last one.
    pub fn close(&mut self)
        ensures { self.new ≡ after_close self.old }
    {
        if self.is_over() {
            return;
        }
        if self.state == ConnState::SynSent {
            self.aborted = true;
            return;
        }
        self.closed = true;
        self.state = self.state.after_close();
        self.send.finish();
    }

    /// Gives the connection up, behind what this event still owes.
    pub fn abort(&mut self)
        ensures { self.new ≡ after_abort self.old }
    {
        if self.is_over() {
            return;
        }
        self.aborted = true;
    }

    /// The state that the user sees.
    pub fn state(&self) -> ConnState
        ensures { result ≡ shown_state self.now }
    {
        if self.aborted {
            return ConnState::Closed(ConnEnd::Aborted);
        }
        self.state
    }

    /// Moves out as many accepted octets as are there and fit.
    pub fn take(&mut self, room: &mut [u8]) -> usize
        ensures count { result ≡ min (length room.old) (length (untaken self.old.receiver)) }
        ensures bytes { room.new ≡ take result (untaken self.old.receiver) ++ drop result room.old }
        ensures connection { self.new ≡ after_taking self.old result }
    {
        self.recv.take(room)
    }

    /// How many octets are accepted, the taken ones with them.
    pub fn accepted(&self) -> u64
        ensures { result ≡ accepted_of self.now.receiver }
    {
        self.recv.accepted()
    }

    /// Whether the peer's FIN is reached.
    pub fn ended(&self) -> bool
        ensures { result ≡ is_ended self.now.receiver }
    {
        self.recv.ended()
    }

    /// How many of the pushed octets are acknowledged.
    pub fn acked(&self) -> u64
        ensures { result ≡ min self.now.sender.una (pushed_of self.now.sender) }
    {
        self.send.acked()
    }

    /// The next tick at which something is due, once the event's segments were taken.
    pub fn next(&self) -> Option<Tick>
        ensures { result ≡ next_event self.now }
    {
        if self.aborted {
            return None;
        }
        match self.state {
            ConnState::SynSent | ConnState::SynReceived => self.syn?.next(),
            ConnState::TimeWait => wait_end(self.since),
            ConnState::Closed(_) => None,
            _ => self.send.next(),
        }
    }

    /// The event's next segment. Each counts as sent.
    pub fn take_segment(&mut self) -> Option<SegOut>
        ensures segment { result ≡ segment_out self.old }
        ensures connection { self.new ≡ after_out self.old }
        ensures true_segment { (text : List ℕ) → Keeps text self.old.sender → IfSome result (IsTrueOut text self.old) }
    {
        let Some(segment) = self.take_due() else {
            return self.take_rest();
        };
        self.ack_owed = false;
        Some(segment)
    }

    fn is_over(&self) -> bool
        ensures { result ≡ is_over self.now }
    {
        self.aborted || self.state.is_closed()
    }

    #[tactic(auto, unfolding(crate::specs::Segments::in_syn_sent))]
    fn in_syn_sent(&mut self, s: &Tcp<'_>)
        ensures { self.new ≡ in_syn_sent self.old (segment_seen s.now) }
    {
        let acks = acks_syn(self.iss, s);
        if has_rst(s) {
            if acks {
                self.state = ConnState::Closed(ConnEnd::Refused);
            }
            return;
        }
        if !has_ack(s) {
            return;
        }
        if !acks {
            self.reset_owed = Some(s.ack);
            return;
        }
        if has_syn(s) {
            self.open_by(s);
        }
    }

    fn open_by(&mut self, s: &Tcp<'_>)
        ensures { self.new ≡ opened_by self.old (segment_seen s.now) }
    {
        self.state = ConnState::Established;
        self.ack_owed = true;
        self.scale = s.shift;
        self.recv.restart(s.seq, cap_of(s.shift));
        self.send.begin(self.at, s.seq, s.window as u32, most_of(self.limit, s.mss));
    }

    #[tactic(auto, unfolding(crate::specs::Segments::in_syn_received))]
    fn in_syn_received(&mut self, s: &Tcp<'_>)
        ensures { self.new ≡ in_syn_received self.old (segment_seen s.now) }
    {
        if has_rst(s) {
            return self.reset_by(s);
        }
        if has_syn(s) {
            return self.in_syn_received_syn(s);
        }
        if !is_acceptable(&self.recv, s) {
            if acks_syn(self.iss, s) {
                self.hear_text(s);
            }
            self.ack_owed = true;
            return;
        }
        if !has_ack(s) {
            return;
        }
        if !acks_syn(self.iss, s) {
            self.reset_owed = Some(s.ack);
            return;
        }
        self.establish_by(s);
        self.hear_text(s);
        self.move_on(has_fin(s));
    }

    fn in_syn_received_syn(&mut self, s: &Tcp<'_>)
        ensures { self.new ≡ after_syn_again self.old (segment_seen s.now) }
    {
        if is_in_window(&self.recv, s.seq) {
            self.state = ConnState::Closed(ConnEnd::Reset);
            return;
        }
        self.ack_owed = true;
    }

    fn establish_by(&mut self, s: &Tcp<'_>)
        ensures { self.new ≡ established_by self.old (segment_seen s.now) }
    {
        self.state = ConnState::established(self.closed);
        self.send
            .begin(self.at, s.seq, scaled(self.scale, s.window), self.limit);
    }

    #[tactic(auto, unfolding(crate::specs::Segments::in_synchronized))]
    fn in_synchronized(&mut self, s: &Tcp<'_>)
        ensures { self.new ≡ in_synchronized self.old (segment_seen s.now) }
    {
        if has_rst(s) {
            return self.reset_by(s);
        }
        if !has_ack(s) {
            if has_syn(s) || !is_acceptable(&self.recv, s) {
                self.ack_owed = true;
            }
            return;
        }
        if acks_unsent(&self.send, s) {
            self.ack_owed = true;
            return;
        }
        if has_syn(s) {
            self.send.on_bare_ack(self.at, s.ack);
            self.ack_owed = true;
            return self.move_on(false);
        }
        self.acknowledge_by(s);
        self.hear_text(s);
        self.move_on(has_fin(s));
    }

    fn acknowledge_by(&mut self, s: &Tcp<'_>)
        ensures { self.new ≡ acknowledged_by self.old (segment_seen s.now) }
    {
        if is_acceptable(&self.recv, s) {
            self.send
                .on_ack(self.at, s.seq, s.ack, scaled(self.scale, s.window));
            return;
        }
        self.send.on_bare_ack(self.at, s.ack);
        self.ack_owed = true;
    }

    fn reset_by(&mut self, s: &Tcp<'_>)
        ensures { self.new ≡ after_reset self.old (segment_seen s.now) }
    {
        if s.seq == self.recv.rcv_nxt() {
            self.state = ConnState::Closed(ConnEnd::Reset);
            return;
        }
        if is_in_window(&self.recv, s.seq) {
            self.ack_owed = true;
        }
    }

    fn hear_text(&mut self, s: &Tcp<'_>)
        ensures { self.new ≡ after_text self.old (segment_seen s.now) }
    {
        if !has_text(s) {
            return;
        }
        self.ack_owed = true;
        hear_cut(&mut self.recv, s.seq, s.payload, has_fin(s));
    }

    fn move_on(&mut self, fin: bool)
        ensures { self.new ≡ moved fin self.old }
    {
        let next = self
            .state
            .after_hearing(self.send.fin_acked(), self.recv.ended());
        if self.state.restarts_wait(next, fin) {
            self.since = self.at;
        }
        self.state = next;
    }

    fn take_due(&mut self) -> Option<SegOut>
        ensures segment { result ≡ due_in self.old.state self.old }
        ensures connection { self.new ≡ after_due_in self.old.state self.old }
        ensures true_segment { (text : List ℕ) → Keeps text self.old.sender → IfSome result (IsTrueOut text self.old) }
    {
        match self.state {
            ConnState::SynSent | ConnState::SynReceived => self.take_opening(),
            ConnState::Closed(_) => None,
            _ => self.take_stream(),
        }
    }

    fn take_opening(&mut self) -> Option<SegOut>
        ensures segment { result ≡ opening_out self.old }
        ensures connection { self.new ≡ after_opening self.old }
        ensures plain { IfSome result (λ out. IsPlain out ⊎ IsSynOf self.old out) }
    {
        if let Some(seq) = self.reset_owed {
            self.reset_owed = None;
            return Some(reset_out(seq));
        }
        if !is_syn_due(self.syn, self.at) {
            return None;
        }
        if is_syn_over(self.syn) {
            self.state = ConnState::Closed(ConnEnd::ConnectTimeout);
            return None;
        }
        let segment = self.syn_out();
        self.syn = Some(syn_sent(self.syn, self.at));
        Some(segment)
    }

    fn take_stream(&mut self) -> Option<SegOut>
        ensures segment { result ≡ stream_out self.old }
        ensures connection { self.new ≡ after_stream self.old }
        ensures part { (text : List ℕ) → Keeps text self.old.sender → IfSome result (IsPartOf text self.old) }
    {
        let cut = self.send.next_segment(self.at);
        self.state = self
            .state
            .after_sending(self.send.given_up(), self.send.fin_sent(), self.aborted);
        match cut {
            Some(cut) => Some(self.cut_out(cut)),
            None => None,
        }
    }

    fn take_rest(&mut self) -> Option<SegOut>
        ensures segment { result ≡ rest_out self.old }
        ensures connection { self.new ≡ after_rest self.old }
        ensures plain { IfSome result IsPlain }
    {
        if self.state.is_closed() {
            return None;
        }
        if self.ack_owed {
            self.ack_owed = false;
            return Some(self.ack_out());
        }
        if !self.aborted {
            return None;
        }
        let segment = self.abort_out();
        self.state = ConnState::Closed(ConnEnd::Aborted);
        segment
    }

    fn abort_out(&self) -> Option<SegOut>
        ensures { result ≡ abort_out self.now }
    {
        if !self.state.resets_on_abort() {
            return None;
        }
        Some(reset_out(self.send.snd_nxt()))
    }

    fn syn_out(&self) -> SegOut
        ensures { result ≡ syn_out self.now.state self.now }
    {
        match self.state {
            ConnState::SynReceived => SegOut {
                seq: self.iss,
                ack: self.recv.rcv_nxt(),
                flags: SYN_ACK,
                window: PLAIN_WINDOW,
                mss: Some(MSS),
                shift: answered_shift(self.scale),
                payload: ArrayVec::new(),
            },
            _ => SegOut {
                seq: self.iss,
                ack: 0,
                flags: SYN,
                window: PLAIN_WINDOW,
                mss: Some(MSS),
                shift: Some(SHIFT),
                payload: ArrayVec::new(),
            },
        }
    }

    fn ack_out(&self) -> SegOut
        ensures { result ≡ ack_out self.now }
    {
        SegOut {
            seq: self.send.snd_nxt(),
            ack: self.recv.rcv_nxt(),
            flags: ACK,
            window: window_field(self.scale, self.recv.free()),
            mss: None,
            shift: None,
            payload: ArrayVec::new(),
        }
    }

    fn cut_out(&self, cut: Cut) -> SegOut
        ensures { result ≡ cut_out self.now cut }
    {
        SegOut {
            seq: number_of(self.iss, cut.place),
            ack: self.recv.rcv_nxt(),
            flags: cut_flags(cut.psh, cut.fin),
            window: window_field(self.scale, self.recv.free()),
            mss: None,
            shift: None,
            payload: cut.payload,
        }
    }
}
