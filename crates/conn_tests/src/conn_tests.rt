//! What a connection sends at which tick and which state it is in, on cases written by hand from RFC 9293.
use efi_base::{NoMemory, Tick};
use std::alloc::Global;
use std::process::Abort;
use tcp_conn::{Conn, ConnEnd, ConnState};
use wire_l4::Tcp;

/// Number, acknowledgment, flags, window and octets of a segment that goes.
type Sent = (u32, u32, u8, u16, usize);

/// A segment that is heard: number, acknowledgment, flags, window and octets.
type Heard = (u32, u32, u8, u16, usize);

/// What happens to a connection, and what it answers.
#[derive(Clone, Copy)]
enum Step<'a> {
    Tick,
    Hear(Heard),
    /// A SYN with its options.
    HearSyn(Heard, Option<u16>, Option<u8>),
    Push(usize, usize),
    Take(usize, usize),
    Close,
    Abort,
    /// All segments of an event.
    Goes(&'a [Sent]),
    Is(ConnState),
    Next(Option<u64>),
    Tells(u64, bool, u64),
}

use Step::{
    Abort as Aborts, Close, Goes, Hear, HearSyn, Is, Next, Push, Take, Tells, Tick as Ticks,
};

static OCTETS: [u8; 2_000] = [7; 2_000];

fn segment(heard: Heard, mss: Option<u16>, shift: Option<u8>) -> Tcp<'static> {
    let (seq, ack, flags, window, len) = heard;
    Tcp {
        sport: 80,
        dport: 50_000,
        seq,
        ack,
        flags,
        window,
        mss,
        shift,
        payload: &OCTETS[..len.min(2_000)],
    }
}

fn segments_taken(rt: &impl Abort, conn: &mut Conn, now: u64, wanted: &[Sent]) {
    for sent in wanted {
        match conn.take_segment() {
            Some(out) => {
                let seen = (out.seq, out.ack, out.flags, out.window, out.payload.len());
                assert_eq!(rt; seen, *sent, "at {now}");
            }
            None => assert!(rt; false, "nothing at {now}"),
        }
    }
    assert!(rt; conn.take_segment().is_none(), "more at {now}");
}

fn pushed(conn: &mut Conn, count: usize) -> usize {
    let mut left = count;
    let mut sum: usize = 0;
    for _round in 0..40u32 {
        let piece = left.min(2_000);
        sum = sum.saturating_add(conn.push(&OCTETS[..piece]));
        left -= piece;
    }
    sum
}

fn does(rt: &impl Abort, conn: &mut Conn, now: u64, step: Step) {
    match step {
        Step::Tick => conn.on_tick(Tick(now)),
        Step::Hear(heard) => conn.on_segment(Tick(now), &segment(heard, None, None)),
        Step::HearSyn(heard, mss, shift) => {
            conn.on_segment(Tick(now), &segment(heard, mss, shift));
        }
        Step::Push(count, taken) => assert_eq!(rt; pushed(conn, count), taken, "at {now}"),
        Step::Take(most, taken) => {
            let mut room = [0u8; 3_000];
            let most = most.min(3_000);
            assert_eq!(rt; conn.take(&mut room[..most]), taken, "at {now}");
        }
        Step::Close => conn.close(),
        Step::Abort => conn.abort(),
        Step::Goes(wanted) => segments_taken(rt, conn, now, wanted),
        Step::Is(state) => assert!(rt; conn.state() == state, "state at {now}"),
        Step::Next(at) => assert_eq!(rt; conn.next().map(|tick| tick.0), at, "next at {now}"),
        Step::Tells(accepted, ended, acked) => {
            let told = (conn.accepted(), conn.ended(), conn.acked());
            assert_eq!(rt; told, (accepted, ended, acked), "at {now}");
        }
    }
}

/// Opens or answers a connection at tick 0, with the number 1,000, and does the steps at their ticks.
fn runs(rt: &impl Abort, conn: Result<Conn, NoMemory>, steps: &[(u64, Step)]) {
    let mut conn = conn.expect(rt, "memory");
    for (now, step) in steps {
        does(rt, &mut conn, *now, *step);
    }
}

const FIN: u8 = 1;

const SYN: u8 = 2;

const RST: u8 = 4;

const PUSH: u8 = 8;

const ACK: u8 = 16;

/// The SYN of a side that opens with the number 1,000.
const OPENING: &[Sent] = &[(1_000, 0, SYN, 65_535, 0)];

const RESET: ConnState = ConnState::Closed(ConnEnd::Reset);

/// What the peer answers: its number is 5,000.
const ANSWER: Heard = (5_000, 1_001, SYN | ACK, 8_000, 0);

/// The acknowledgment of that.
const ESTABLISHED: Sent = (1_001, 5_001, ACK, 65_535, 0);

fn opened(rt: &impl Abort, alloc: Global, iss: u32, steps: &[(u64, Step)]) {
    runs(rt, Conn::open(alloc, Tick(0), iss, 1_460), steps);
}

fn answered(rt: &impl Abort, alloc: Global, syn: &Tcp<'_>, steps: &[(u64, Step)]) {
    runs(rt, Conn::listen(alloc, Tick(0), syn, 1_000, 1_460), steps);
}

/// With an established connection, by the peer's SYN without options.
fn established(rt: &impl Abort, alloc: Global, steps: &[(u64, Step)]) {
    let mut conn = Conn::open(alloc, Tick(0), 1_000, 1_460).expect(rt, "memory");
    does(rt, &mut conn, 0, Goes(OPENING));
    does(rt, &mut conn, 10, Hear(ANSWER));
    does(rt, &mut conn, 10, Goes(&[ESTABLISHED]));
    does(rt, &mut conn, 10, Is(ConnState::Established));
    for (now, step) in steps {
        does(rt, &mut conn, *now, *step);
    }
}

#[test]
fn a_syn_goes_six_times(rt: HostRuntime) {
    opened(
        &rt,
        rt.alloc(),
        1_000,
        &[
            (0, Goes(OPENING)),
            (0, Next(Some(1_000))),
            (999, Ticks),
            (999, Goes(&[])),
            (1_000, Ticks),
            (1_000, Goes(OPENING)),
            (3_000, Ticks),
            (3_000, Goes(OPENING)),
            (7_000, Ticks),
            (7_000, Goes(OPENING)),
            (15_000, Ticks),
            (15_000, Goes(OPENING)),
            (23_000, Ticks),
            (23_000, Goes(OPENING)),
            (23_000, Next(Some(31_000))),
            (31_000, Ticks),
            (31_000, Goes(&[])),
            (31_000, Is(ConnState::Closed(ConnEnd::ConnectTimeout))),
            (31_000, Next(None)),
        ],
    );
}

#[test]
fn an_opening_side_hears_what_answers_its_syn(rt: HostRuntime) {
    // a RST that acknowledges the SYN refuses; other RSTs, a bare SYN and a bare acknowledgment do nothing; a bad
    // acknowledgment is answered by a RST with its number
    opened(
        &rt,
        rt.alloc(),
        1_000,
        &[
            (0, Goes(OPENING)),
            (1, Hear((5_000, 1_002, RST | ACK, 0, 0))),
            (2, Hear((5_000, 1_001, RST, 0, 0))),
            (3, Hear((5_000, 1_001, ACK, 0, 0))),
            (4, Hear((5_000, 0, SYN, 0, 0))),
            (4, Goes(&[])),
            (4, Is(ConnState::SynSent)),
            (5, Hear((5_000, 1_002, SYN | ACK, 0, 0))),
            (5, Goes(&[(1_002, 0, RST, 0, 0)])),
            (5, Is(ConnState::SynSent)),
            (6, Hear((5_000, 1_001, RST | ACK, 0, 0))),
            (6, Is(ConnState::Closed(ConnEnd::Refused))),
            (6, Goes(&[])),
        ],
    );
}

#[test]
fn data_go_both_ways_and_the_peer_closes_first(rt: HostRuntime) {
    opened(
        &rt,
        rt.alloc(),
        1_000,
        &[
            (0, Goes(OPENING)),
            (10, Hear(ANSWER)),
            (10, Push(10, 10)),
            (10, Goes(&[(1_001, 5_001, ACK | PUSH, 65_535, 10)])),
            (12, Hear((5_001, 1_011, ACK, 8_000, 20))),
            (12, Goes(&[(1_011, 5_021, ACK, 65_515, 0)])),
            (12, Tells(20, false, 10)),
            (12, Take(3_000, 20)),
            (12, Goes(&[])),
            (14, Hear((5_021, 1_011, ACK | FIN, 8_000, 0))),
            (14, Goes(&[(1_011, 5_022, ACK, 65_535, 0)])),
            (14, Is(ConnState::CloseWait)),
            (14, Tells(20, true, 10)),
            (16, Ticks),
            (16, Push(5, 5)),
            (16, Close),
            (16, Push(5, 0)),
            (16, Is(ConnState::CloseWait)),
            (16, Goes(&[(1_011, 5_022, ACK | PUSH | FIN, 65_535, 5)])),
            (16, Is(ConnState::LastAck)),
            (18, Hear((5_022, 1_017, ACK, 8_000, 0))),
            (18, Is(ConnState::Closed(ConnEnd::Fin))),
            (18, Goes(&[])),
            (18, Tells(20, true, 15)),
        ],
    );
}

#[test]
fn a_side_that_closes_first_waits(rt: HostRuntime) {
    let sent = &[(1_001, 5_001, ACK | FIN, 65_535, 0)];
    let answer = &[(1_002, 5_002, ACK, 65_535, 0)];
    // FIN-WAIT-2, and TIME-WAIT that counts anew
    established(
        &rt,
        rt.alloc(),
        &[
            (20, Ticks),
            (20, Close),
            (20, Is(ConnState::FinWait1)),
            (20, Goes(sent)),
            (22, Hear((5_001, 1_002, ACK, 8_000, 0))),
            (22, Is(ConnState::FinWait2)),
            (22, Goes(&[])),
            (30, Hear((5_001, 1_002, ACK | FIN, 8_000, 0))),
            (30, Is(ConnState::TimeWait)),
            (30, Goes(answer)),
            (30, Next(Some(2_030))),
            (40, Hear((5_001, 1_002, ACK | FIN, 8_000, 0))),
            (40, Goes(answer)),
            (40, Next(Some(2_040))),
            (2_039, Ticks),
            (2_039, Is(ConnState::TimeWait)),
            (2_040, Ticks),
            (2_040, Is(ConnState::Closed(ConnEnd::Fin))),
            (2_040, Goes(&[])),
        ],
    );
    // both close at once
    established(
        &rt,
        rt.alloc(),
        &[
            (20, Ticks),
            (20, Close),
            (20, Goes(sent)),
            (21, Hear((5_001, 1_001, ACK | FIN, 8_000, 0))),
            (21, Is(ConnState::Closing)),
            (21, Goes(answer)),
            (22, Hear((5_002, 1_002, ACK, 8_000, 0))),
            (22, Is(ConnState::TimeWait)),
            (22, Goes(&[])),
        ],
    );
    // the FIN that acknowledges this side's
    established(
        &rt,
        rt.alloc(),
        &[
            (20, Ticks),
            (20, Close),
            (20, Goes(sent)),
            (21, Hear((5_001, 1_002, ACK | FIN, 8_000, 0))),
            (21, Is(ConnState::TimeWait)),
            (21, Goes(answer)),
            (22, Hear((5_002, 1_002, RST, 0, 0))),
            (22, Is(RESET)),
        ],
    );
}

#[test]
fn a_reset_counts_at_the_next_number(rt: HostRuntime) {
    established(
        &rt,
        rt.alloc(),
        &[
            (20, Hear((5_002, 0, RST, 0, 0))),
            (20, Is(ConnState::Established)),
            (20, Goes(&[ESTABLISHED])),
            (21, Hear((5_000, 0, RST, 0, 0))),
            (21, Goes(&[])),
            (22, Hear((5_001, 0, RST, 0, 0))),
            (22, Is(RESET)),
            (22, Goes(&[])),
            (22, Push(1, 0)),
        ],
    );
    // what isn't acceptable, has SYN or acknowledges what wasn't sent is answered once; data without ACK isn't heard
    established(
        &rt,
        rt.alloc(),
        &[
            (20, Hear((5_000, 1_001, SYN | ACK, 8_000, 0))),
            (20, Goes(&[ESTABLISHED])),
            (21, Hear((5_001, 1_002, ACK, 8_000, 5))),
            (21, Goes(&[ESTABLISHED])),
            (22, Hear((5_001, 0, 0, 8_000, 5))),
            (22, Goes(&[])),
            (23, Hear((5_000, 1_001, ACK, 8_000, 0))),
            (23, Goes(&[ESTABLISHED])),
            (23, Tells(0, false, 0)),
        ],
    );
    // an abort stands behind what the event owes
    established(
        &rt,
        rt.alloc(),
        &[
            (20, Hear((5_001, 1_001, ACK, 8_000, 5))),
            (20, Aborts),
            (20, Is(ConnState::Closed(ConnEnd::Aborted))),
            (
                20,
                Goes(&[(1_001, 5_006, ACK, 65_530, 0), (1_001, 0, RST, 0, 0)]),
            ),
            (21, Hear((5_006, 1_001, ACK, 8_000, 5))),
            (21, Goes(&[])),
            (21, Next(None)),
        ],
    );
}

#[test]
fn an_answering_side_does_as_told(rt: HostRuntime) {
    let syn = segment((5_000, 0, SYN, 8_000, 0), None, Some(15));
    let answer = &[(1_000, 5_001, SYN | ACK, 65_535, 0)];
    answered(
        &rt,
        rt.alloc(),
        &syn,
        &[
            (0, Goes(answer)),
            (0, Is(ConnState::SynReceived)),
            (1, HearSyn((5_000, 0, SYN, 8_000, 0), None, Some(15))),
            (1, Goes(&[ESTABLISHED])),
            (2, Hear((5_001, 1_002, ACK, 8_000, 0))),
            (2, Goes(&[(1_002, 0, RST, 0, 0)])),
            (1_000, Ticks),
            (1_000, Goes(answer)),
            (1_001, Push(600, 600)),
            (1_001, Hear((5_001, 1_001, ACK, 1, 100))),
            (1_001, Is(ConnState::Established)),
            (
                1_001,
                Goes(&[
                    (1_001, 5_101, ACK, 65_528, 536),
                    (1_537, 5_101, ACK | PUSH, 65_528, 64),
                ]),
            ),
        ],
    );
    answered(
        &rt,
        rt.alloc(),
        &syn,
        &[
            (0, Goes(answer)),
            (1, Hear((5_010, 0, SYN, 8_000, 0))),
            (1, Is(RESET)),
            (1, Goes(&[])),
        ],
    );
}

#[test]
fn a_reset_follows_the_fin_of_its_event(rt: HostRuntime) {
    // the peer has closed; this side closes and gives up in one event
    established(
        &rt,
        rt.alloc(),
        &[
            (20, Hear((5_001, 1_001, FIN | ACK, 8_000, 0))),
            (20, Goes(&[(1_001, 5_002, ACK, 65_535, 0)])),
            (20, Is(ConnState::CloseWait)),
            (30, Close),
            (30, Aborts),
            (
                30,
                Goes(&[(1_001, 5_002, FIN | ACK, 65_535, 0), (1_002, 0, RST, 0, 0)]),
            ),
            (30, Is(ConnState::Closed(ConnEnd::Aborted))),
        ],
    );
}

#[test]
fn sizes_and_windows_are_the_agreed_ones(rt: HostRuntime) {
    // the peer's MSS, the octets of the first segment, and the number of the second one
    for (mss, first, second) in [
        (None, 536usize, 1_537u32),
        (Some(63), 64, 1_065),
        (Some(64), 64, 1_065),
        (Some(1_461), 1_460, 2_461),
    ] {
        let sent = [
            (1_001, 5_001, ACK, 65_535, first),
            (second, 5_001, ACK | PUSH, 65_535, 8),
        ];
        opened(
            &rt,
            rt.alloc(),
            1_000,
            &[
                (0, Goes(OPENING)),
                (0, Push(first.saturating_add(8), first.saturating_add(8))),
                (1, HearSyn(ANSWER, mss, None)),
                (1, Goes(&sent)),
            ],
        );
    }
    // the window of a SYN is as it stands, others are shifted
    opened(
        &rt,
        rt.alloc(),
        1_000,
        &[
            (0, Goes(OPENING)),
            (0, Push(1_000, 1_000)),
            (1, HearSyn((5_000, 1_001, SYN | ACK, 100, 0), None, Some(4))),
            (1, Goes(&[(1_001, 5_001, ACK, 65_535, 100)])),
            (2, Hear((5_001, 1_101, ACK, 10, 100))),
            (2, Goes(&[(1_101, 5_101, ACK, 65_528, 160)])),
        ],
    );
    // a window of 0 that opens, and numbers across the wrap
    opened(
        &rt,
        rt.alloc(),
        4_294_967_294,
        &[
            (0, Goes(&[(4_294_967_294, 0, SYN, 65_535, 0)])),
            (1, Hear((4_294_967_295, 4_294_967_295, SYN | ACK, 0, 0))),
            (1, Push(10, 10)),
            (1, Goes(&[(4_294_967_295, 0, ACK, 65_535, 0)])),
            (1, Next(Some(1_001))),
            (1_001, Ticks),
            (1_001, Goes(&[(4_294_967_295, 0, ACK, 65_535, 1)])),
            (1_002, Hear((0, 0, ACK, 100, 0))),
            (1_002, Goes(&[(0, 0, ACK | PUSH, 65_535, 9)])),
            (1_002, Tells(0, false, 1)),
        ],
    );
}

#[test]
fn a_segment_goes_again_eight_times(rt: HostRuntime) {
    let sent = Goes(&[(1_001, 5_001, ACK | PUSH, 65_535, 3)]);
    established(
        &rt,
        rt.alloc(),
        &[
            (10, Push(3, 3)),
            (10, sent),
            (1_010, Ticks),
            (1_010, sent),
            (3_010, Ticks),
            (3_010, sent),
            (7_010, Ticks),
            (7_010, sent),
            (15_010, Ticks),
            (15_010, sent),
            (23_010, Ticks),
            (23_010, sent),
            (31_010, Ticks),
            (31_010, sent),
            (39_010, Ticks),
            (39_010, sent),
            (47_010, Ticks),
            (47_010, sent),
            (47_010, Next(Some(55_010))),
            (55_010, Ticks),
            (55_010, Goes(&[])),
            (55_010, Is(ConnState::Closed(ConnEnd::SendTimeout))),
        ],
    );
}
