//! Routes and reassembly on cases from outside.
use crate::{Reasm, Route, Routes, Whole};
use efi_base::{Field, Ip4, Refuse, Tick};
use std::process::Abort;
use wire_ip4::Ip;

const PEER: Ip4 = Ip4(0x0A00_0001);

const STATION: Ip4 = Ip4(0x0A00_0002);

/// The tick, and a packet's identification, place, whether more follow, and payload; and the datagram at it.
type Row<'a> = (u64, u16, u16, bool, &'a [u8], Option<&'a [u8]>);

/// The packet of a row.
fn packet<'a>(id: u16, place: u16, mf: bool, payload: &'a [u8]) -> Ip<'a> {
    Ip {
        src: PEER,
        dest: STATION,
        proto: 17,
        id,
        df: false,
        mf,
        place,
        ttl: 64,
        payload,
    }
}

/// Hands over the packets, and compares the datagram at each.
fn hears(rt: &impl Abort, reasm: &mut Reasm, rows: &[Row]) {
    for (now, id, place, mf, payload, datagram) in rows {
        let whole = match datagram {
            Some(payload) => Some(Whole {
                src: PEER,
                dest: STATION,
                proto: 17,
                id: *id,
                payload,
            }),
            None => None,
        };
        let answer = reasm.put(Tick(*now), &packet(*id, *place, *mf, payload));
        assert!(rt; answer == whole, "tick {now}, {id} at {place}");
    }
}

#[test]
fn joins_fragments(rt: HostRuntime) {
    let mut reasm = Reasm::new(rt.alloc()).expect(&rt, "memory for 16 pools");
    let rows: [Row; 22] = [
        // fragments that overlap, in reverse order
        (0, 1, 16, false, b"CCCCCCCC", None),
        (0, 1, 8, true, b"BBBBBBBBXXXXXXXX", None),
        (
            0,
            1,
            0,
            true,
            b"AAAAAAAA",
            Some(b"AAAAAAAABBBBBBBBCCCCCCCC"),
        ),
        // an unfragmented packet is a datagram, also amid fragments of its key
        (1, 2, 0, true, b"12345678", None),
        (1, 2, 0, false, b"whole", Some(b"whole")),
        (1, 2, 0, false, b"", Some(b"")),
        (1, 2, 8, false, b"9", Some(b"123456789")),
        // two keys in turn
        (2, 3, 8, false, b"three", None),
        (2, 4, 8, false, b"four", None),
        (2, 4, 0, true, b"44444444", Some(b"44444444four")),
        (2, 3, 0, true, b"33333333", Some(b"33333333three")),
        // the first end stays, and bytes behind it aren't the datagram's
        (3, 5, 8, false, b"end", None),
        (3, 5, 16, false, b"later end", None),
        (3, 5, 0, true, b"01234567", Some(b"01234567end")),
        // a fragment that reaches past the most octets opens no pool
        (4, 6, 65_528, false, b"x", None),
        (4, 6, 0, true, b"abcdefgh", None),
        (4, 6, 8, false, b"i", Some(b"abcdefghi")),
        // a pool lasts 30,000 ticks from its first fragment on
        (10, 7, 0, true, b"old bits", None),
        (20_010, 7, 16, true, b"between.", None),
        (30_010, 7, 8, false, b"late", None),
        (60_009, 7, 0, true, b"in time ", Some(b"in time late")),
        (60_009, 7, 8, false, b"late", None),
    ];
    hears(&rt, &mut reasm, &rows);
}

/// The first fragment of each of so many datagrams.
fn open_pools(rt: &impl Abort, reasm: &mut Reasm, count: u16) {
    for id in 0..count {
        hears(rt, reasm, &[(0, id, 0, true, b"........", None)]);
    }
}

#[test]
fn sixteen_pools(rt: HostRuntime) {
    let mut reasm = Reasm::new(rt.alloc()).expect(&rt, "memory for 16 pools");
    open_pools(&rt, &mut reasm, 17);
    let rows: [Row; 2] = [
        (0, 16, 8, false, b"none", None),
        (0, 0, 16, false, b"its own pool", None),
    ];
    hears(&rt, &mut reasm, &rows);
    reasm.tick(Tick(29_999));
    hears(&rt, &mut reasm, &[(29_999, 16, 8, false, b"none", None)]);
    reasm.tick(Tick(30_000));
    let rows: [Row; 3] = [
        (30_000, 16, 0, true, b"a place ", None),
        (30_000, 15, 8, false, b"over", None),
        (30_000, 16, 8, false, b"is free", Some(b"a place is free")),
    ];
    hears(&rt, &mut reasm, &rows);
}

/// A route by its numbers.
fn way(dest: u32, mask: u32, gate: u32) -> Route {
    Route {
        dest: Ip4(dest),
        mask,
        gate: Ip4(gate),
    }
}

/// Adds routes, and compares the answers.
fn adds(rt: &impl Abort, routes: &mut Routes, rows: &[(Route, Result<(), Refuse>)]) {
    for (route, answer) in rows {
        assert_eq!(rt; routes.add(*route), *answer, "{route:?}");
    }
}

/// Compares the next hops of destinations.
fn leads(rt: &impl Abort, routes: &Routes, rows: &[(u32, Option<u32>)]) {
    for (dest, hop) in rows {
        let hop = match hop {
            Some(hop) => Some(Ip4(*hop)),
            None => None,
        };
        assert_eq!(rt; routes.route(Ip4(*dest)), hop, "{dest:x}");
    }
}

#[test]
fn finds_next_hops(rt: HostRuntime) {
    let mut routes = Routes::new();
    leads(&rt, &routes, &[(0x0A01_0203, None)]);
    let net = way(0x0A00_0000, 0xFF00_0000, 0);
    let bad = Err(Refuse::BadConfig(Field::Mask));
    let rows = [
        (way(0, 0, 0x0A00_0009), Ok(())),
        (net, Ok(())),
        (net, Err(Refuse::AccessDenied)),
        (way(0x0A00_0000, 0xFF00_FF00, 0), bad),
        (way(0x0A00_0001, 0xFF00_0000, 0), bad),
        (way(0x0A00_0000, 0xFF00_0000, 0x0A00_0007), Ok(())),
        (way(0x0A00_0005, 0xFFFF_FFFF, 0x0A00_0008), Ok(())),
    ];
    adds(&rt, &mut routes, &rows);
    let hops = [
        (0x0A01_0203, Some(0x0A01_0203)),
        (0x0B00_0001, Some(0x0A00_0009)),
        (0x0A00_0005, Some(0x0A00_0008)),
    ];
    leads(&rt, &routes, &hops);
    assert_eq!(rt; routes.remove(net), Ok(()));
    assert_eq!(rt; routes.remove(net), Err(Refuse::NotFound));
    leads(&rt, &routes, &[(0x0A01_0203, Some(0x0A00_0007))]);
    for last in 0..61u32 {
        adds(&rt, &mut routes, &[(way(0, 0, 1 + last), Ok(()))]);
    }
    let rows = [
        (way(0, 0, 100), Err(Refuse::NotReady)),
        (way(0, 0, 1), Err(Refuse::AccessDenied)),
        (way(1, 0, 100), bad),
    ];
    adds(&rt, &mut routes, &rows);
    leads(&rt, &routes, &[(0x0B00_0001, Some(0x0A00_0009))]);
}
