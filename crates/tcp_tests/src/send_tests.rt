//! What a sender sends at which tick, on cases written by hand from the rules.
use efi_base::Tick;
use std::alloc::Global;
use std::process::Abort;
use tcp_send::{Backoff, SYN_ROWS, Send};

/// A segment's place, octets, PSH and FIN.
type Sent = (u64, usize, bool, bool);

/// What happens to a sender, and what it answers.
#[derive(Clone, Copy)]
enum Step<'a> {
    /// So many octets are pushed, and so many are taken in.
    Push(usize, usize),
    Finish,
    /// The acknowledgment of an acceptable segment, and its window.
    Ack(u32, u32),
    /// An acknowledgment alone.
    Bare(u32),
    /// All segments of an event.
    Takes(&'a [Sent]),
    Next(Option<u64>),
    GivenUp(bool),
    /// SND.UNA and SND.NXT.
    Numbers(u32, u32),
}

/// The number of the peer's segments.
const SEQ: u32 = 77;

fn octets_taken(rt: &impl Abort, send: &mut Send, now: u64, wanted: &[Sent]) {
    for sent in wanted {
        match send.next_segment(Tick(now)) {
            Some(cut) => {
                let seen = (cut.place, cut.payload.len(), cut.psh, cut.fin);
                assert_eq!(rt; seen, *sent, "at {now}");
            }
            None => assert!(rt; false, "nothing at {now}"),
        }
    }
    assert!(rt; send.next_segment(Tick(now)).is_none(), "more at {now}");
}

fn does(rt: &impl Abort, send: &mut Send, now: u64, step: Step) {
    match step {
        Step::Push(count, taken) => {
            let bytes = [7u8; 10_000];
            let mut left = count;
            let mut sum: usize = 0;
            for _round in 0..7u32 {
                let piece = left.min(10_000);
                sum = sum.saturating_add(send.push(&bytes[..piece]));
                left -= piece;
            }
            assert_eq!(rt; sum, taken, "at {now}");
        }
        Step::Finish => send.finish(),
        Step::Ack(ack, window) => send.on_ack(Tick(now), SEQ, ack, window),
        Step::Bare(ack) => send.on_bare_ack(Tick(now), ack),
        Step::Takes(wanted) => octets_taken(rt, send, now, wanted),
        Step::Next(at) => assert_eq!(rt; send.next().map(|tick| tick.0), at, "at {now}"),
        Step::GivenUp(given_up) => assert_eq!(rt; send.given_up(), given_up, "at {now}"),
        Step::Numbers(una, nxt) => {
            assert_eq!(rt; (send.snd_una(), send.snd_nxt()), (una, nxt), "at {now}");
        }
    }
}

/// Begins at tick 0 with a first number, a window and a length of segments, and does the steps at their ticks.
fn runs(rt: &impl Abort, alloc: Global, iss: u32, window: u32, m: u16, steps: &[(u64, Step)]) {
    assert!(rt; m <= 1_460);
    let mut send = Send::new(alloc, iss).expect(rt, "memory");
    send.begin(Tick(0), SEQ, window, m);
    for (now, step) in steps {
        does(rt, &mut send, *now, *step);
    }
}

#[test]
fn a_syn_goes_six_times(rt: HostRuntime) {
    let mut rows = Backoff::start(Tick(0));
    for at in [1_000u64, 3_000, 7_000, 15_000, 23_000] {
        assert!(rt; rows.passed < SYN_ROWS);
        assert_eq!(rt; rows.next(), Some(Tick(at)));
        assert!(rt; !rows.is_due(Tick(at - 1)) && rows.is_due(Tick(at)));
        rows.passed += 1;
    }
    assert_eq!(rt; rows.passed, SYN_ROWS);
    assert_eq!(rt; rows.next(), Some(Tick(31_000)));
}

#[test]
fn segments_go_again(rt: HostRuntime) {
    const ONE: &[Sent] = &[(0, 100, true, false)];
    runs(
        &rt,
        rt.alloc(),
        1_000,
        65_535,
        1_460,
        &[
            (0, Step::Takes(&[])),
            (0, Step::Next(None)),
            (0, Step::Push(100, 100)),
            (0, Step::Takes(ONE)),
            (0, Step::Next(Some(1_000))),
            (999, Step::Takes(&[])),
            (1_000, Step::Takes(ONE)),
            (3_000, Step::Takes(ONE)),
            (7_000, Step::Takes(ONE)),
            (15_000, Step::Takes(ONE)),
            (23_000, Step::Takes(ONE)),
            (31_000, Step::Takes(ONE)),
            (39_000, Step::Takes(ONE)),
            (47_000, Step::Takes(ONE)),
            (47_000, Step::Next(Some(55_000))),
            (54_999, Step::GivenUp(false)),
            (55_000, Step::Takes(&[])),
            (55_000, Step::GivenUp(true)),
            (55_000, Step::Next(None)),
        ],
    );
}

#[test]
fn the_buffer_and_the_flight_have_limits(rt: HostRuntime) {
    runs(
        &rt,
        rt.alloc(),
        0,
        65_535,
        1_000,
        &[
            (0, Step::Push(70_000, 65_536)),
            (
                0,
                Step::Takes(&[
                    (0, 1_000, false, false),
                    (1_000, 1_000, false, false),
                    (2_000, 1_000, false, false),
                    (3_000, 1_000, false, false),
                    (4_000, 1_000, false, false),
                    (5_000, 1_000, false, false),
                    (6_000, 1_000, false, false),
                    (7_000, 1_000, false, false),
                ]),
            ),
            (10, Step::Ack(1_501, 65_535)),
            (10, Step::Takes(&[(8_000, 1_000, false, false)])),
            (10, Step::Next(Some(1_010))),
            (10, Step::Push(5_000, 1_000)),
            (20, Step::Ack(9_002, 65_535)),
            (20, Step::Takes(&[])),
            (1_010, Step::Takes(&[(1_000, 1_000, false, false)])),
            (1_020, Step::Ack(9_001, 500)),
            (1_020, Step::Takes(&[(9_000, 500, false, false)])),
            (1_020, Step::Next(Some(2_020))),
        ],
    );
}

#[test]
fn a_window_of_0(rt: HostRuntime) {
    runs(
        &rt,
        rt.alloc(),
        0,
        0,
        1_460,
        &[
            (0, Step::Takes(&[])),
            (500, Step::Push(10, 10)),
            (500, Step::Takes(&[])),
            (500, Step::Next(Some(1_500))),
            (1_500, Step::Takes(&[(0, 1, false, false)])),
            (1_500, Step::Next(Some(3_500))),
            (1_600, Step::Ack(1, 0)),
            (1_600, Step::Takes(&[])),
            (1_600, Step::Next(Some(2_600))),
            (2_600, Step::Takes(&[(0, 1, false, false)])),
            (2_700, Step::Ack(1, 5)),
            (2_700, Step::Takes(&[(1, 4, false, false)])),
            (2_700, Step::Next(Some(3_700))),
            (3_700, Step::Takes(&[(0, 1, false, false)])),
            (3_800, Step::Ack(6, 0)),
            (3_800, Step::Takes(&[])),
            (3_800, Step::Next(Some(4_800))),
            (4_800, Step::Takes(&[(5, 1, false, false)])),
            (4_900, Step::Ack(7, 100)),
            (4_900, Step::Takes(&[(6, 4, true, false)])),
        ],
    );
}

#[test]
fn numbers_wrap_and_fin_ends(rt: HostRuntime) {
    runs(
        &rt,
        rt.alloc(),
        4_294_967_290,
        65_535,
        1_460,
        &[
            (0, Step::Push(3_000, 3_000)),
            (
                0,
                Step::Takes(&[
                    (0, 1_460, false, false),
                    (1_460, 1_460, false, false),
                    (2_920, 80, true, false),
                ]),
            ),
            (0, Step::Numbers(4_294_967_291, 2_995)),
            (5, Step::Bare(4)),
            (5, Step::Numbers(4, 2_995)),
            (6, Step::Finish),
            (6, Step::Push(1, 0)),
            (6, Step::Takes(&[(3_000, 0, false, true)])),
            (6, Step::Numbers(4, 2_996)),
            (7, Step::Ack(2_995, 65_535)),
            (7, Step::Next(Some(1_007))),
            (1_007, Step::Takes(&[(3_000, 0, false, true)])),
            (1_008, Step::Ack(2_996, 65_535)),
            (1_008, Step::Numbers(2_996, 2_996)),
            (1_008, Step::Next(None)),
        ],
    );
}

#[test]
fn fin_rides_on_the_last_octet(rt: HostRuntime) {
    runs(
        &rt,
        rt.alloc(),
        9,
        20,
        10,
        &[
            (0, Step::Push(30, 30)),
            (0, Step::Finish),
            (
                0,
                Step::Takes(&[(0, 10, false, false), (10, 10, false, false)]),
            ),
            (1, Step::Ack(30, 10)),
            (1, Step::Takes(&[(20, 10, true, true)])),
            (1, Step::Numbers(30, 41)),
        ],
    );
}
