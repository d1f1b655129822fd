//! What a tap tells of small captures, whose frames were made by another program.
use efi_base::{Bytes, LoadEnd, Record, Tick};
use std::alloc::Global;
use std::process::Abort;
use std::test::Fail;
use tap_core::Tap;

/// The station's segment that asks for a connection, from 02:00:00:00:00:01.
const SYN: &str = "\
    02000000000202000000000108004500002800010000400666cd0a0000020a000001c001005000010000000000005002\
    ffffdb8d0000";

/// The peer's segment that accepts it.
const ACCEPT: &str = "\
    02000000000102000000000208004500002800010000400666cd0a0000010a0000020050c001000003e8000100015012\
    ffffd7940000";

/// The same in two fragments.
const ACCEPT_FRONT: &str = "\
    02000000000102000000000208004500002400072000400646cb0a0000010a0000020050c001000003e8000100015012\
    ffff";

const ACCEPT_REST: &str =
    "02000000000102000000000208004500001800070002400666d50a0000010a000002d7940000";

/// A response whose body is the octet `A`.
const WHOLE: &str = "\
    02000000000102000000000208004500004f00020000400666a50a0000010a0000020050c001000003e9000100015018\
    ffffe7660000485454502f312e3120323030204f4b0d0a436f6e74656e742d4c656e6774683a20310d0a0d0a41";

/// The peer resets the connection, on which nothing was heard.
const RESET: &str = "\
    02000000000102000000000208004500002800030000400666cb0a0000010a0000020050c001000003e9000100015014\
    ffffd7910000";

fn digit(code: u8) -> u8 {
    match code {
        b'0'..=b'9' => code - b'0',
        b'a'..=b'f' => code - b'a' + 10,
        _ => 0,
    }
}

/// The octets that pairs of hexadecimal digits write.
fn from_hex(alloc: Global, text: &str) -> Result<Bytes, Fail> {
    let mut octets = Vec::new(alloc);
    for pair in text.as_bytes().chunks_exact(2) {
        let mut octet = 0u8;
        for code in pair {
            octet = (octet << 4) | digit(*code);
        }
        octets.push(octet)?;
    }
    Ok(Bytes::from_vec(octets))
}

/// The record of a frame at a tick.
fn record_of(alloc: Global, tick: u32, frame: &str) -> Result<Record, Fail> {
    let frame = from_hex(alloc, frame)?;
    Ok(Record {
        tick: Tick(tick as u64),
        frame,
    })
}

/// The tap hears a frame at a tick.
fn hear(rt: &impl Abort, alloc: Global, tap: &mut Tap, tick: u32, frame: &str) -> Result<(), Fail> {
    tap.hear(record_of(alloc, tick, frame)?)
        .expect(rt, "memory");
    Ok(())
}

/// The records that a tap hears, each at a tick, and what it tells: how the download ends, how many octets of the stream were
/// accepted, how many records the station sent and heard, and the body.
type Case<'a> = (&'a [(u32, &'a str)], LoadEnd, u64, u64, u64, &'a [u8]);

const CASES: [Case; 5] = [
    // a whole response, and records behind its end
    (
        &[(0, SYN), (2, ACCEPT), (4, WHOLE), (6, RESET), (8, SYN)],
        LoadEnd::Success(1),
        39,
        1,
        2,
        b"A",
    ),
    // a reset
    (
        &[(0, SYN), (2, ACCEPT), (4, RESET), (6, WHOLE)],
        LoadEnd::Reset,
        0,
        1,
        2,
        b"",
    ),
    // no answer
    (&[(0, SYN), (2, WHOLE)], LoadEnd::NoConnection, 0, 1, 1, b""),
    // a fragment in front, and the other at the end of its time
    (
        &[(0, ACCEPT_FRONT), (29_999, SYN), (29_999, ACCEPT_REST)],
        LoadEnd::OutOfTime,
        0,
        1,
        2,
        b"",
    ),
    // and behind its time
    (
        &[(0, ACCEPT_FRONT), (30_000, SYN), (30_000, ACCEPT_REST)],
        LoadEnd::NoConnection,
        0,
        1,
        2,
        b"",
    ),
];

#[test]
fn tells_by_the_table(rt: HostRuntime) -> Result<(), Fail> {
    for (records, end, accepted, sent, heard, body) in &CASES {
        let mut tap = Tap::new(rt.alloc(), 1).expect(&rt, "memory");
        for (tick, frame) in *records {
            hear(&rt, rt.alloc(), &mut tap, *tick, frame)?;
        }
        let seen = tap.finish();
        assert_eq!(rt; seen.shown.end, *end);
        assert_eq!(rt;
            (seen.shown.accepted, seen.shown.sent, seen.shown.heard),
            (*accepted, *sent, *heard)
        );
        assert_eq!(rt; seen.body.as_slice(), *body);
    }
    Ok(())
}
