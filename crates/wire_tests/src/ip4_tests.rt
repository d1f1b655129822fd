//! Packets of a capture and of a session, fragments, echo messages, and texts that are none. The sums were computed
//! apart.
use efi_base::{Bad, Ip4, NoRoom};
use wire_ip4::{Icmp, Ip, read_icmp, read_ip, read_ip_unverified, write_icmp, write_ip};

const CLIENT: Ip4 = Ip4(0x0A00_0002);

const SERVER: Ip4 = Ip4(0x0A00_0001);

/// A packet of 20 octets of payload, all zeros here, with six octets of padding behind them.
const PACKET: [u8; 46] = *b"\x45\0\0\x28\0\x01\0\0\x40\x06\x66\xcd\x0a\0\0\x02\x0a\0\0\x01\
    \0\0\0\0\0\0\0\0\0\0\0\0\0\0\0\0\0\0\0\0\xee\xee\xee\xee\xee\xee";

/// Packets of a capture, whole.
const OPENING: &[u8] = b"\x45\0\0\x28\0\x01\0\0\x40\x06\x66\xcd\x0a\0\0\x02\x0a\0\0\x01\
    \xc0\x01\0\x50\0\x01\0\0\0\0\0\0\x50\x02\xff\xff\xdb\x8d\0\0";

const ACCEPTING: &[u8] = b"\x45\0\0\x28\0\x01\0\0\x40\x06\x66\xcd\x0a\0\0\x01\x0a\0\0\x02\
    \0\x50\xc0\x01\0\0\x03\xe8\0\x01\0\x01\x50\x12\xff\xff\xd7\x94\0\0";

const SENDING: &[u8] = b"\x45\0\0\x4f\0\x02\0\0\x40\x06\x66\xa5\x0a\0\0\x01\x0a\0\0\x02\
    \0\x50\xc0\x01\0\0\x03\xe9\0\x01\0\x01\x50\x18\xff\xff\xe7\x66\0\0\
    HTTP/1.1 200 OK\r\nContent-Length: 1\r\n\r\nA";

/// A fragment with four octets of options, and one that may not be cut further.
const FRAGMENT: &[u8] =
    b"\x46\0\0\x1c\x12\x34\x20\x0b\x40\x11\x31\x8e\x0a\0\0\x01\x0a\0\0\x02\x01\x01\x01\x01data";

const WHOLE: &[u8] =
    b"\x46\0\0\x1c\x12\x34\x40\x0b\x40\x11\x11\x8e\x0a\0\0\x01\x0a\0\0\x02\x01\x01\x01\x01data";

/// A datagram of a session, and fragments whose place is 88, and the last there is.
const DATAGRAM: &[u8] = b"\x45\0\0\x1e\0\0\0\0\x40\x11\x66\xcd\x0a\0\0\x02\x0a\0\0\x01\
    \x13\x88\0\x07\0\x0a\x6f\xdf\x68\x69";

const MIDDLE: &[u8] = b"\x45\0\0\x18\x12\x34\x20\x0b\x40\x11\x34\x94\x0a\0\0\x01\x0a\0\0\x02data";

const LAST: &[u8] = b"\x45\0\0\x14\x12\x34\x5f\xff\x40\x11\xf4\xa3\x0a\0\0\x01\x0a\0\0\x02";

/// An echo request with an odd number of octets, and its reply.
const ECHO: &[u8] = b"\x08\0\xf8\x2b\0\x01\0\x02ping!";

const ECHOED: &[u8] = b"\0\0\0\x2c\0\x01\0\x02ping!";

#[test]
fn reads_packets(rt: HostRuntime) {
    let packet = Ip {
        src: CLIENT,
        dest: SERVER,
        proto: 6,
        id: 1,
        df: false,
        mf: false,
        place: 0,
        ttl: 64,
        payload: &[0; 20],
    };
    let opening = Ip {
        payload: &OPENING[20..],
        ..packet
    };
    let accepting = Ip {
        src: SERVER,
        dest: CLIENT,
        payload: &ACCEPTING[20..],
        ..packet
    };
    let sending = Ip {
        id: 2,
        payload: &SENDING[20..],
        ..accepting
    };
    let fragment = Ip {
        proto: 17,
        id: 0x1234,
        mf: true,
        place: 88,
        payload: b"data",
        ..accepting
    };
    let whole = Ip {
        df: true,
        mf: false,
        ..fragment
    };
    for (what, bytes, there) in [
        ("padding", &PACKET[..], packet),
        ("an opening", OPENING, opening),
        ("its answer", ACCEPTING, accepting),
        ("data", SENDING, sending),
        ("options, and more fragments", FRAGMENT, fragment),
        ("options, and no fragments", WHOLE, whole),
    ] {
        assert_eq!(rt; read_ip(bytes), Ok(there), "{what}");
    }
}

#[test]
fn refuses_headers(rt: HostRuntime) {
    for (what, place, octet) in [
        ("version 6", 0, 0x65),
        ("four words of header", 0, 0x44),
        ("total length 19", 3, 19),
        ("total length above the octets there", 3, 47),
    ] {
        assert_eq!(rt;
            read_ip_unverified(&with_octet(place, octet)),
            Err(Bad),
            "{what}"
        );
    }
    let wrong_sum = with_octet(11, 0xce);
    assert_eq!(rt; read_ip(&wrong_sum), Err(Bad));
    assert!(rt; read_ip_unverified(&wrong_sum).is_ok());
}

#[test]
fn writes_packets(rt: HostRuntime) {
    let datagram = Ip {
        src: CLIENT,
        dest: SERVER,
        proto: 17,
        id: 0,
        df: false,
        mf: false,
        place: 0,
        ttl: 64,
        payload: &DATAGRAM[20..],
    };
    let middle = Ip {
        src: SERVER,
        dest: CLIENT,
        id: 0x1234,
        mf: true,
        place: 88,
        payload: b"data",
        ..datagram
    };
    let last = Ip {
        df: true,
        mf: false,
        place: 65_528,
        payload: &[],
        ..middle
    };
    for (packet, text) in [(datagram, DATAGRAM), (middle, MIDDLE), (last, LAST)] {
        let mut room = [0xee; 31];
        assert_eq!(rt; write_packet(&packet, &mut room), Ok(text.len()));
        assert!(rt; room[..text.len()] == text[..]);
        assert_eq!(rt; room[text.len()..].first(), Some(&0xee));
        assert_eq!(rt; read_ip(&room), Ok(packet));
        assert_eq!(rt;
            write_packet(&packet, &mut room[..text.len() - 1]),
            Err(NoRoom)
        );
    }
}

#[test]
fn reads_and_writes_messages(rt: HostRuntime) {
    let asked = Icmp {
        kind: 8,
        code: 0,
        rest: 0x0001_0002,
        payload: b"ping!",
    };
    let answered = Icmp { kind: 0, ..asked };
    let unreachable = Icmp {
        kind: 3,
        code: 3,
        rest: 0,
        payload: &[],
    };
    for (message, text) in [
        (asked, ECHO),
        (answered, ECHOED),
        (unreachable, b"\x03\x03\xfc\xfc\0\0\0\0"),
    ] {
        assert_eq!(rt; read_icmp(text), Ok(message));
        let mut room = [0xee; 14];
        assert_eq!(rt; write_icmp(&message, &mut room), Ok(text.len()));
        assert!(rt; room[..text.len()] == text[..]);
        assert_eq!(rt;
            write_icmp(&message, &mut room[..text.len() - 1]),
            Err(NoRoom)
        );
    }
    assert_eq!(rt; read_icmp(&ECHO[..7]), Err(Bad), "seven octets");
    assert_eq!(rt; read_icmp(&ECHO[..12]), Err(Bad), "a wrong checksum");
}

/// The packet with another octet at this place.
fn with_octet(place: usize, octet: u8) -> [u8; 46] {
    let mut packet = PACKET;
    if let Some(there) = packet.get_mut(place) {
        *there = octet;
    }
    packet
}

/// Writes one of the packets of these tests, whose conditions are looked at here.
fn write_packet(packet: &Ip<'_>, room: &mut [u8]) -> Result<usize, NoRoom> {
    if packet.place % 8 != 0 || packet.payload.len() > 65_515 {
        return Ok(0);
    }
    write_ip(packet, room)
}
