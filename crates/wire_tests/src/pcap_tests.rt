//! Captures in all forms, read whole and in pieces, and written.
use efi_base::{Bytes, NoRoom, Record, Tick};
use std::alloc::{AllocError, Global};
use std::test::Fail;
use wire_pcap::{CapFault, PcapReader, write_header, write_record};

/// The headers of captures, and what stands before the frames of their three records, in hexadecimal: little-endian
/// and big-endian in microseconds, and then both in nanoseconds. The moments are 0, 2 and 4 milliseconds, the last two
/// in nanoseconds with a rest.
const FORMS: [[&str; 4]; 4] = [
    [
        "d4c3b2a10200040000000000000000000000040001000000",
        "00000000000000003600000036000000",
        "00000000d00700003600000036000000",
        "00000000a00f00005d0000005d000000",
    ],
    [
        "a1b2c3d40002000400000000000000000004000000000001",
        "00000000000000000000003600000036",
        "00000000000007d00000003600000036",
        "0000000000000fa00000005d0000005d",
    ],
    [
        "4d3cb2a10200040000000000000000000000040001000000",
        "00000000000000003600000036000000",
        "00000000bfc62d003600000036000000",
        "00000000ff4a4c005d0000005d000000",
    ],
    [
        "a1b23c4d0002000400000000000000000004000000000001",
        "00000000000000000000003600000036",
        "00000000002dc6bf0000003600000036",
        "00000000004c4aff0000005d0000005d",
    ],
];

/// A connection's SYN, its answer and a response, in hexadecimal.
const FRAMES: [&str; 3] = [
    "02000000000202000000000108004500002800010000400666cd0a0000020a000001c001005000010000000000005002ffffdb8d0000",
    "02000000000102000000000208004500002800010000400666cd0a0000010a0000020050c001000003e8000100015012ffffd7940000",
    "02000000000102000000000208004500004f00020000400666a50a0000010a0000020050c001000003e9000100015018ffffe7660000485454502f312e3120323030204f4b0d0a436f6e74656e742d4c656e6774683a20310d0a0d0a41",
];

fn nibble(digit: u8) -> u8 {
    match digit {
        b'0'..=b'9' => digit - b'0',
        b'a'..=b'f' => digit - b'a' + 10,
        _ => 0,
    }
}

/// Adds the octets that the text writes in hexadecimal.
fn push_hex(octets: &mut Vec<u8>, text: &str) -> Result<(), AllocError> {
    let mut high = None;
    for digit in text.bytes() {
        match high {
            None => high = Some(nibble(digit)),
            Some(h) => {
                octets.push(16 * (h % 16) + nibble(digit) % 16)?;
                high = None;
            }
        }
    }
    Ok(())
}

fn hex(alloc: Global, text: &str) -> Result<Vec<u8>, AllocError> {
    let mut octets = Vec::new(alloc);
    push_hex(&mut octets, text)?;
    Ok(octets)
}

/// The capture of the three frames in a form.
fn capture(alloc: Global, form: [&str; 4]) -> Result<Vec<u8>, AllocError> {
    let [header, first, second, third] = form;
    let [syn, answer, response] = FRAMES;
    let mut octets = hex(alloc, header)?;
    for (head, frame) in [(first, syn), (second, answer), (third, response)] {
        push_hex(&mut octets, head)?;
        push_hex(&mut octets, frame)?;
    }
    Ok(octets)
}

/// Feeds the octets in pieces of a length, up to a fault, and takes what is ready after each. Answers the ticks and the
/// lengths of the frames, how many octets were fed without a fault, and the fault or what the end says.
fn read(
    alloc: Global,
    octets: &[u8],
    piece: usize,
) -> Result<(Vec<(u64, usize)>, usize, Result<(), CapFault>), AllocError> {
    let mut reader = PcapReader::new(alloc);
    let mut records = Vec::new(alloc);
    let mut fed = 0;
    for part in octets.chunks(piece.max(1)) {
        let result = reader.feed(part);
        for _ in 0..1000 {
            let Some(record) = reader.take() else {
                break;
            };
            records.push((record.tick.0, record.frame.len()))?;
        }
        if let Err(fault) = result {
            return Ok((records, fed, Err(fault)));
        }
        fed = fed.saturating_add(part.len());
    }
    let end = reader.finish();
    Ok((records, fed, end))
}

#[test]
fn reads_every_form_in_any_pieces(rt: HostRuntime) -> Result<(), Fail> {
    for form in FORMS {
        let octets = capture(rt.alloc(), form)?;
        for piece in [1, 7, 24, 100, 273] {
            let (records, fed, end) = read(rt.alloc(), &octets, piece)?;
            assert_eq!(rt;
                records.as_slice(),
                [(0, 54), (2, 54), (4, 93)].as_slice(),
                "in {piece}"
            );
            assert_eq!(rt; fed, 273, "in {piece}");
            assert_eq!(rt; end, Ok(()), "in {piece}");
        }
    }
    Ok(())
}

#[test]
fn ends_too_early(rt: HostRuntime) -> Result<(), Fail> {
    let cases = [
        (0, Err(CapFault::BadAt(0))),
        (1, Err(CapFault::BadAt(0))),
        (23, Err(CapFault::BadAt(0))),
        (24, Ok(())),
        (25, Err(CapFault::BadAt(24))),
        (30, Err(CapFault::BadAt(24))),
        (93, Err(CapFault::BadAt(24))),
        (94, Ok(())),
        (163, Err(CapFault::BadAt(94))),
        (272, Err(CapFault::BadAt(164))),
    ];
    for form in FORMS {
        let octets = capture(rt.alloc(), form)?;
        for (len, wanted) in cases {
            let (_, fed, end) = read(rt.alloc(), octets.get(..len).unwrap_or(&[]), 50)?;
            assert_eq!(rt; (fed, end), (len, wanted), "at {len}");
        }
    }
    Ok(())
}

/// A form, a place at which other octets are put, and how many octets are fed before the fault comes, and its place.
/// Each fault is told with the first octet behind which no capture goes on, and the records in front of it are given.
#[test]
fn tells_a_fault_at_once(rt: HostRuntime) -> Result<(), Fail> {
    let cases = [
        // another magic number, from its first octet or its second
        (0, 0, "00", 0, 0),
        (0, 0, "a1", 1, 0),
        (1, 3, "4d", 3, 0),
        // another version
        (0, 4, "03", 4, 0),
        (0, 6, "03", 6, 0),
        (1, 4, "01", 4, 0),
        (3, 7, "05", 7, 0),
        // another link type, of which all four octets count
        (0, 20, "69", 20, 0),
        (0, 23, "01", 23, 0),
        (1, 20, "10", 20, 0),
        (2, 21, "01", 21, 0),
        // one octet more was kept than may be, in the first record and in the second
        (0, 32, "01000400", 34, 24),
        (1, 32, "00040001", 35, 24),
        (2, 102, "01000400", 104, 94),
        (3, 102, "00040001", 105, 94),
        // far more were
        (0, 32, "000000ff", 35, 24),
        (1, 32, "01", 32, 24),
    ];
    for (form, place, put, told, bad) in cases {
        let octets = capture(rt.alloc(), *FORMS.get(form).unwrap_or(&FORMS[0]))?;
        let mut changed = Vec::new(rt.alloc());
        changed.extend_from_slice(octets.get(..place).unwrap_or(&[]))?;
        push_hex(&mut changed, put)?;
        changed.extend_from_slice(octets.get(place + put.len() / 2..).unwrap_or(&[]))?;
        let before = if bad > 24 {
            [(0, 54)].as_slice()
        } else {
            [].as_slice()
        };
        for (piece, wanted) in [(1, told), (1000, 0)] {
            let (records, fed, end) = read(rt.alloc(), &changed, piece)?;
            assert_eq!(rt;
                (fed, end),
                (wanted, Err(CapFault::BadAt(bad))),
                "{put} at {place} of {form} in {piece}"
            );
            assert_eq!(rt;
                records.as_slice(),
                before,
                "{put} at {place} of {form} in {piece}"
            );
        }
    }
    Ok(())
}

/// The tick and the length of the frame that the reader gives next.
fn next(reader: &mut PcapReader) -> Option<(u64, usize)> {
    let record = reader.take()?;
    Some((record.tick.0, record.frame.len()))
}

/// The fault is told again, and two records in front of it are given, of which one was ready before.
#[test]
fn tells_a_fault_for_ever(rt: HostRuntime) -> Result<(), Fail> {
    let bad = Err(CapFault::BadAt(164));
    let mut octets = capture(rt.alloc(), FORMS[0])?;
    octets.truncate(172);
    push_hex(&mut octets, "01000400")?;
    let mut reader = PcapReader::new(rt.alloc());
    assert_eq!(rt; reader.feed(octets.get(..100).unwrap_or(&[])), Ok(()));
    assert_eq!(rt; reader.feed(octets.get(100..).unwrap_or(&[])), bad);
    assert_eq!(rt; reader.feed(&[]), bad);
    assert_eq!(rt; next(&mut reader), Some((0, 54)));
    assert_eq!(rt; reader.feed(&octets), bad);
    assert_eq!(rt; reader.finish(), bad);
    assert_eq!(rt; next(&mut reader), Some((2, 54)));
    assert_eq!(rt; next(&mut reader), None);
    assert_eq!(rt; reader.finish(), bad);
    Ok(())
}

/// The front of this length of a capture of a frame of 262,144 octets.
fn front_of_longest(alloc: Global, len: usize) -> Result<Vec<u8>, AllocError> {
    let mut octets = hex(alloc, FORMS[0][0])?;
    push_hex(&mut octets, "00000000000000000000040000000400")?;
    octets.resize(len, 7)?;
    Ok(octets)
}

/// A frame of 262,144 octets is kept whole, also where it comes in pieces.
#[test]
fn keeps_the_longest_frame(rt: HostRuntime) -> Result<(), Fail> {
    let octets = front_of_longest(rt.alloc(), 262_183)?;
    let (none, _, early) = read(rt.alloc(), &octets, 65_536)?;
    assert_eq!(rt; (none.len(), early), (0, Err(CapFault::BadAt(24))));
    let octets = front_of_longest(rt.alloc(), 262_184)?;
    let (records, _, end) = read(rt.alloc(), &octets, 65_536)?;
    assert_eq!(rt; records.as_slice(), [(0, 262_144)].as_slice());
    assert_eq!(rt; end, Ok(()));
    Ok(())
}

/// A time that falls is held at the one before; a fraction over a second is added; a record may be empty. A nanosecond
/// short of a millisecond is the tick before.
#[test]
fn holds_moments(rt: HostRuntime) -> Result<(), Fail> {
    let micros = [
        "05000000000000000000000000000000",
        "06000000000000000000000000000000",
        "05000000f40100000000000000000000",
        "05000000808d5b000000000000000000",
        "02000000000000000100000001000000ff",
    ];
    let nanos = [
        "05000000000000000000000000000000",
        "05000000ffc99a3b0000000000000000",
        "0500000000ca9a3b0000000000000000",
        "04000000000000000000000000000000",
        "06000000404b4c000100000001000000ff",
    ];
    let cases = [
        (
            FORMS[0][0],
            micros,
            [(0, 0), (1000, 0), (1000, 0), (6000, 0), (6000, 1)],
        ),
        (
            FORMS[2][0],
            nanos,
            [(0, 0), (999, 0), (1000, 0), (1000, 0), (1005, 1)],
        ),
    ];
    for (header, heads, wanted) in cases {
        let mut octets = hex(rt.alloc(), header)?;
        for head in heads {
            push_hex(&mut octets, head)?;
        }
        let (records, _, end) = read(rt.alloc(), &octets, 9)?;
        assert_eq!(rt; records.as_slice(), wanted.as_slice());
        assert_eq!(rt; end, Ok(()));
    }
    Ok(())
}

/// Writes a record of this tick to a room of this length, which is filled with 9.
fn written(
    alloc: Global,
    tick: u64,
    frame: &str,
    len: usize,
) -> Result<(Result<usize, NoRoom>, Vec<u8>), AllocError> {
    let record = Record {
        tick: Tick(tick),
        frame: Bytes::from_vec(hex(alloc, frame)?),
    };
    let mut room = Vec::from_elem(alloc, 9, len)?;
    let result = write_record(&record, &mut room);
    Ok((result, room))
}

#[test]
fn writes_records(rt: HostRuntime) -> Result<(), Fail> {
    let cases = [
        (0, "", 16, Ok(16), "00000000000000000000000000000000"),
        (
            2,
            "0a0b0c",
            20,
            Ok(19),
            "00000000d007000003000000030000000a0b0c09",
        ),
        (
            1_700_000_061_999,
            "ff",
            17,
            Ok(17),
            "3df15365583e0f000100000001000000ff",
        ),
        (
            4_294_967_295_999,
            "",
            17,
            Ok(16),
            "ffffffff583e0f00000000000000000009",
        ),
        (1, "ff", 16, Err(NoRoom), "09090909090909090909090909090909"),
        (1, "", 0, Err(NoRoom), ""),
    ];
    for (tick, frame, len, wanted, text) in cases {
        let (result, room) = written(rt.alloc(), tick, frame, len)?;
        assert_eq!(rt; result, wanted, "at {tick}");
        assert_eq!(rt;
            room.as_slice(),
            hex(rt.alloc(), text)?.as_slice(),
            "at {tick}"
        );
    }
    Ok(())
}

#[test]
fn writes_a_header(rt: HostRuntime) -> Result<(), Fail> {
    let mut room = [9; 25];
    assert_eq!(rt; write_header(&mut room[..23]), Err(NoRoom));
    assert_eq!(rt; room, [9; 25]);
    assert_eq!(rt; write_header(&mut room), Ok(24));
    let mut wanted = hex(rt.alloc(), FORMS[0][0])?;
    wanted.push(9)?;
    assert_eq!(rt; room.as_slice(), wanted.as_slice());
    Ok(())
}

/// What is written is read again.
#[test]
fn reads_what_it_wrote(rt: HostRuntime) -> Result<(), Fail> {
    let mut octets = Vec::from_elem(rt.alloc(), 0, 24)?;
    assert_eq!(rt; write_header(&mut octets), Ok(24));
    for (tick, frame) in [(10, "0102"), (10, ""), (1234, "03")] {
        let (result, room) = written(rt.alloc(), tick, frame, 18)?;
        let len = result.unwrap_or(0);
        octets.extend_from_slice(room.get(..len).unwrap_or(&[]))?;
    }
    let (records, _, end) = read(rt.alloc(), &octets, 5)?;
    assert_eq!(rt; records.as_slice(), [(0, 2), (0, 0), (1224, 1)].as_slice());
    assert_eq!(rt; end, Ok(()));
    Ok(())
}
