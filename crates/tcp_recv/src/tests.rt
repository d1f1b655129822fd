//! The receiver on cases from outside.
use crate::Recv;
use std::alloc::Global;
use std::process::Abort;

/// The peer's first number in these tests, of which six places are left before the numbers wrap.
const IRS: u32 = 4_294_967_290;

/// A segment's number, octets and FIN, and the accepted length and whether the stream ended behind it.
type Row<'a> = (u32, &'a [u8], bool, u64, bool);

/// Hands over the segments, and compares what the receiver says behind each.
fn hears(rt: &impl Abort, recv: &mut Recv, rows: &[Row]) {
    for (seq, octets, fin, accepted, ended) in rows {
        recv.on_cut(*seq, octets, *fin);
        assert_eq!(rt; recv.accepted(), *accepted, "at {seq}");
        assert_eq!(rt; recv.ended(), *ended, "at {seq}");
    }
}

/// Takes up to 16 octets, and compares them.
fn gives(rt: &impl Abort, recv: &mut Recv, octets: &[u8]) {
    let mut room = [0u8; 16];
    let count = recv.take(&mut room);
    assert_eq!(rt; &room[..count], octets);
}

#[test]
fn numbers_wrap(rt: HostRuntime) {
    let mut recv = Recv::new(rt.alloc(), IRS).expect(&rt, "memory for 65,535");
    hears(
        &rt,
        &mut recv,
        &[(4_294_967_291, b"0123456789", false, 10, false)],
    );
    assert_eq!(rt; recv.rcv_nxt(), 5);
    assert_eq!(rt; recv.free(), 65_525);
    hears(
        &rt,
        &mut recv,
        &[(5, b"x", false, 11, false), (6, b"yz", true, 13, true)],
    );
    assert_eq!(rt; recv.rcv_nxt(), 9);
    gives(&rt, &mut recv, b"0123456789xyz");
    hears(&rt, &mut recv, &[(8, b"late", false, 13, true)]);
}

#[test]
fn any_order(rt: HostRuntime) {
    let mut recv = Recv::with_cap(rt.alloc(), IRS, 100).expect(&rt, "memory for 100");
    let rows: [Row; 6] = [
        (0, b"fgh", true, 0, false),
        (u32::MAX - 1, b"de", false, 0, false),
        (u32::MAX - 2, b"cDE", false, 0, false),
        (2, b"HI", true, 0, false),
        (IRS, b"?ab", false, 8, true),
        (IRS - 5, b"?", true, 8, true),
    ];
    hears(&rt, &mut recv, &rows);
    gives(&rt, &mut recv, b"abcdefgh");
}

#[test]
fn a_segment_past_the_edge(rt: HostRuntime) {
    let mut recv = Recv::with_cap(rt.alloc(), 0, 8).expect(&rt, "memory for 8");
    hears(&rt, &mut recv, &[(1, b"abc", false, 3, false)]);
    gives(&rt, &mut recv, b"abc");
    let rows: [Row; 2] = [
        (10, b"xyz", true, 3, false),
        (4, b"defghi", true, 11, false),
    ];
    hears(&rt, &mut recv, &rows);
    gives(&rt, &mut recv, b"defghixy");
    hears(&rt, &mut recv, &[(12, b"z", true, 12, true)]);
}

#[test]
fn begins_anew(rt: HostRuntime) {
    let mut recv = Recv::with_cap(rt.alloc(), 0, 8).expect(&rt, "memory for 8");
    recv.on_cut(2, b"old", true);
    recv.restart(IRS, 4);
    hears(&rt, &mut recv, &[(IRS + 1, b"abcde", true, 4, false)]);
    gives(&rt, &mut recv, b"abcd");
}

/// How many octets of 70,001 a window of this length accepts, where the last one comes first.
fn accepted_of(rt: &impl Abort, alloc: Global, cap: u32) -> u64 {
    assert!(rt; 1 <= cap && cap <= 8_388_608);
    let mut recv = Recv::with_cap(alloc, IRS, cap).expect(rt, "memory");
    recv.on_cut(IRS.wrapping_add(70_001), b"!", false);
    let piece = [7u8; 1000];
    for round in 0..70u32 {
        recv.on_cut(IRS.wrapping_add(1 + round * 1000), &piece, false);
    }
    recv.accepted()
}

#[test]
fn windows_of_two_lengths(rt: HostRuntime) {
    assert_eq!(rt; accepted_of(&rt, rt.alloc(), 1_048_560), 70_001);
    assert_eq!(rt; accepted_of(&rt, rt.alloc(), 65_535), 65_535);
}

/// A segment's number and octets, whether they are passed on, and the accepted length behind it.
type Next<'a> = (u32, &'a [u8], bool, u64);

/// Passes on the octets of segments, and compares what the receiver says of each.
fn passes(rt: &impl Abort, recv: &mut Recv, rows: &[Next]) {
    for (seq, octets, passed, accepted) in rows {
        assert_eq!(rt; recv.pass(*seq, octets), *passed, "at {seq}");
        assert_eq!(rt; recv.accepted(), *accepted, "at {seq}");
    }
}

#[test]
fn passes_on_what_stands_next(rt: HostRuntime) {
    let mut recv = Recv::with_cap(rt.alloc(), IRS, 8).expect(&rt, "memory for 8");
    let rows: [Next; 7] = [
        (4_294_967_292, b"bc", false, 0),
        (4_294_967_291, b"abc", true, 3),
        (4_294_967_291, b"abc", false, 3),
        (4_294_967_294, b"defghijkl", false, 3),
        (4_294_967_294, b"defg", true, 7),
        (2, b"", true, 7),
        (2, b"hijklmno", true, 15),
    ];
    passes(&rt, &mut recv, &rows);
    hears(&rt, &mut recv, &[(12, b"r", false, 15, false)]);
    passes(&rt, &mut recv, &[(10, b"p", false, 15)]);
    hears(&rt, &mut recv, &[(10, b"pq", false, 18, false)]);
    passes(&rt, &mut recv, &[(13, b"s", false, 18)]);
    gives(&rt, &mut recv, b"pqr");
    passes(&rt, &mut recv, &[(13, b"s", true, 19)]);
    hears(&rt, &mut recv, &[(14, b"", true, 19, true)]);
    passes(
        &rt,
        &mut recv,
        &[(14, b"t", false, 19), (14, b"", false, 19)],
    );
}
