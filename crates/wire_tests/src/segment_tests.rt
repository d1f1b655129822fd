//! Segments of a capture and options of several shapes. The sums of those were computed apart.
use efi_base::{Bad, Ip4, NoRoom};
use wire_l4::{ACK, FIN, PSH, SYN, Tcp, read_tcp, read_tcp_unverified, write_tcp};

const CLIENT: Ip4 = Ip4(0x0A00_0002);

const SERVER: Ip4 = Ip4(0x0A00_0001);

const OPENING: [u8; 20] = *b"\xc0\x01\0\x50\0\x01\0\0\0\0\0\0\x50\x02\xff\xff\xdb\x8d\0\0";

const REPLY: &[u8] = b"\0\x50\xc0\x01\0\0\x03\xe8\0\x01\0\x01\x50\x12\xff\xff\xd7\x94\0\0";

const DATA: &[u8] = b"\0\x50\xc0\x01\0\0\x03\xe9\0\x01\0\x01\x50\x18\xff\xff\xe7\x66\0\0\
    HTTP/1.1 200 OK\r\nContent-Length: 1\r\n\r\nA";

/// A largest segment of 1,460 octets, a no-operation, a shift of 7.
const OPTIONS: &[u8] =
    b"\xc0\x01\0\x50\0\0\0\0\0\0\0\0\x70\x02\xff\xff\xaf\xc4\0\0\x02\x04\x05\xb4\x01\x03\x03\x07";

/// A kind 2 of length 3, a largest segment of 536 octets, a shift of 7 and one of 8.
const SKIPPED: &[u8] = b"\xc0\x01\0\x50\0\0\0\0\0\0\0\0\x90\x02\xff\xff\x6b\x68\0\0\
    \x02\x03\x05\x02\x04\x02\x18\x01\x03\x03\x07\x03\x03\x08\0\0";

/// The last segment of a stream, with five octets.
const LAST: &[u8] =
    b"\xc0\x01\x00\x50\x00\x00\x03\xe9\x00\x01\x00\x01\x50\x19\x12\x34\xf9\xae\x00\x00\x48\x54\x54\x50\x2f";

/// An option of length 0.
const NO_LENGTH: &[u8] =
    b"\xc0\x01\0\x50\0\0\0\0\0\0\0\0\x70\x02\xff\xff\xb3\x86\0\0\x08\0\0\0\0\0\0\0";

#[test]
fn reads_segments(rt: HostRuntime) {
    let opening = Tcp {
        sport: 0xC001,
        dport: 80,
        seq: 0x0001_0000,
        ack: 0,
        flags: SYN,
        window: 0xFFFF,
        mss: None,
        shift: None,
        payload: &[],
    };
    let reply = Tcp {
        sport: 80,
        dport: 0xC001,
        seq: 1000,
        ack: 0x0001_0001,
        flags: SYN | ACK,
        ..opening
    };
    let data = Tcp {
        seq: 1001,
        flags: PSH | ACK,
        payload: b"HTTP/1.1 200 OK\r\nContent-Length: 1\r\n\r\nA",
        ..reply
    };
    assert_eq!(rt; read_tcp(CLIENT, SERVER, &OPENING), Ok(opening));
    assert_eq!(rt; read_tcp(SERVER, CLIENT, REPLY), Ok(reply));
    assert_eq!(rt; read_tcp(SERVER, CLIENT, DATA), Ok(data));
    for (bytes, mss) in [(OPTIONS, 1460), (SKIPPED, 536)] {
        let with_options = Tcp {
            seq: 0,
            mss: Some(mss),
            shift: Some(7),
            ..opening
        };
        assert_eq!(rt; read_tcp(CLIENT, SERVER, bytes), Ok(with_options));
    }
}

#[test]
fn refuses_segments(rt: HostRuntime) {
    let mut short_header = OPENING;
    short_header[12] = 0x40;
    assert_eq!(rt;
        read_tcp_unverified(&short_header),
        Err(Bad),
        "four words of header"
    );
    assert_eq!(rt;
        read_tcp_unverified(NO_LENGTH),
        Err(Bad),
        "an option of length 0"
    );
    assert_eq!(rt;
        read_tcp(SERVER, SERVER, &OPENING),
        Err(Bad),
        "another address"
    );
    let mut wrong_sum = OPENING;
    wrong_sum[17] = 0x8e;
    assert_eq!(rt;
        read_tcp(CLIENT, SERVER, &wrong_sum),
        Err(Bad),
        "a wrong checksum"
    );
    assert!(rt; read_tcp_unverified(&wrong_sum).is_ok());
}

#[test]
fn writes_segments(rt: HostRuntime) {
    let opening = Tcp {
        sport: 0xC001,
        dport: 80,
        seq: 0x0001_0000,
        ack: 0,
        flags: SYN,
        window: 0xFFFF,
        mss: None,
        shift: None,
        payload: &[],
    };
    let largest = Tcp {
        mss: Some(1460),
        ..opening
    };
    let shifted = Tcp {
        shift: Some(4),
        ..opening
    };
    let both = Tcp {
        shift: Some(4),
        ..largest
    };
    let last = Tcp {
        seq: 1001,
        ack: 0x0001_0001,
        flags: FIN | PSH | ACK,
        window: 0x1234,
        payload: b"HTTP/",
        ..opening
    };
    for (value, size, answer, front) in [
        (opening, 20, Ok(20), &OPENING[..]),
        (
            largest,
            32,
            Ok(24),
            b"\xc0\x01\0\x50\0\x01\0\0\0\0\0\0\x60\x02\xff\xff\xc3\xd1\0\0\x02\x04\x05\xb4\xee",
        ),
        (
            shifted,
            32,
            Ok(24),
            b"\xc0\x01\0\x50\0\x01\0\0\0\0\0\0\x60\x02\xff\xff\xc7\x82\0\0\x01\x03\x03\x04\xee",
        ),
        (
            both,
            28,
            Ok(28),
            b"\xc0\x01\0\x50\0\x01\0\0\0\0\0\0\x70\x02\xff\xff\xaf\xc6\0\0\x02\x04\x05\xb4\x01\x03\x03\x04\xee",
        ),
        (last, 25, Ok(25), LAST),
        (both, 27, Err(NoRoom), b"\xee\xee\xee\xee"),
    ] {
        let (answered, room) = written(value, size);
        assert_eq!(rt; answered, answer);
        assert!(rt; room.starts_with(front));
    }
}

/// What is answered for a room of so many octets, and 32 octets that begin with the room.
fn written(value: Tcp<'_>, size: usize) -> (Result<usize, NoRoom>, [u8; 32]) {
    let mut room = [0xee; 32];
    let answer = match room.get_mut(..size) {
        Some(front) if value.payload.len() <= size => write_tcp(CLIENT, SERVER, &value, front),
        _ => Err(NoRoom),
    };
    (answer, room)
}
