//! Datagrams of several shapes. Their sums were computed apart.
use efi_base::{Bad, Ip4, NoRoom};
use wire_l4::{Udp, read_udp, write_udp};

const CLIENT: Ip4 = Ip4(0x0A00_0002);

const SERVER: Ip4 = Ip4(0x0A00_0001);

/// From port 5000 to port 7, with three octets.
const GREETING: [u8; 11] = *b"\x13\x88\0\x07\0\x0b\x4e\xdd\x68\x69\x21";

/// One whose sum is all ones, so that its checksum would be 0.
const ALL_ONES: [u8; 10] = *b"\x13\x88\0\x07\0\x0a\xff\xff\xd8\x48";

const GREETING_VALUE: Udp<'static> = Udp {
    sport: 5000,
    dport: 7,
    payload: b"hi!",
};

const ALL_ONES_VALUE: Udp<'static> = Udp {
    sport: 5000,
    dport: 7,
    payload: b"\xd8\x48",
};

#[test]
fn reads_datagrams(rt: HostRuntime) {
    for (what, bytes, there) in [
        ("a right checksum", &GREETING[..], Ok(GREETING_VALUE)),
        ("all ones", &ALL_ONES[..], Ok(ALL_ONES_VALUE)),
        (
            "no checksum",
            b"\x13\x88\0\x07\0\x0b\0\0hi!",
            Ok(GREETING_VALUE),
        ),
        (
            "padding behind the length",
            b"\x13\x88\0\x07\0\x0b\x4e\xddhi!\xee\xee",
            Ok(GREETING_VALUE),
        ),
        (
            "a wrong checksum",
            b"\x13\x88\0\x07\0\x0b\x4e\xdehi!",
            Err(Bad),
        ),
        ("length 7", b"\x13\x88\0\x07\0\x07\0\0hi!", Err(Bad)),
        (
            "length above the octets there",
            b"\x13\x88\0\x07\0\x0c\0\0hi!",
            Err(Bad),
        ),
        ("seven octets", b"\x13\x88\0\x07\0\x08\0", Err(Bad)),
    ] {
        assert_eq!(rt; read_udp(CLIENT, SERVER, bytes), there, "{what}");
    }
    assert_eq!(rt; read_udp(SERVER, SERVER, &GREETING), Err(Bad));
}

#[test]
fn writes_datagrams(rt: HostRuntime) {
    for (value, size, answer, room) in [
        (
            GREETING_VALUE,
            12,
            Ok(11),
            b"\x13\x88\0\x07\0\x0b\x4e\xddhi!\xee",
        ),
        (
            ALL_ONES_VALUE,
            10,
            Ok(10),
            b"\x13\x88\0\x07\0\x0a\xff\xff\xd8\x48\xee\xee",
        ),
        (GREETING_VALUE, 10, Err(NoRoom), &[0xee; 12]),
    ] {
        assert_eq!(rt; written(value, size), (answer, *room));
    }
}

/// What is answered for a room of so many octets, and twelve octets that begin with the room.
fn written(value: Udp<'_>, size: usize) -> (Result<usize, NoRoom>, [u8; 12]) {
    let mut room = [0xee; 12];
    let answer = match room.get_mut(..size) {
        Some(front) if value.payload.len() <= size => write_udp(CLIENT, SERVER, &value, front),
        _ => Err(NoRoom),
    };
    (answer, room)
}
