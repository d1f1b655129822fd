//! Frames and ARP packets of a capture and of a session, read and written, and texts that are none.
use efi_base::{Bad, Ip4, Mac, NoRoom};
use std::test::Fail;
use wire_link::{Arp, Ether, REPLY, REQUEST, read_arp, read_ether, write_arp, write_ether};

const CLIENT: Mac = Mac([2, 0, 0, 0, 0, 1]);

const SERVER: Mac = Mac([2, 0, 0, 0, 0, 2]);

/// The frames of a capture: a station opens a connection, the server accepts it, and sends an image of one octet.
const OPENING: &[u8] = b"\x02\0\0\0\0\x02\x02\0\0\0\0\x01\x08\0\
    \x45\0\0\x28\0\x01\0\0\x40\x06\x66\xcd\x0a\0\0\x02\x0a\0\0\x01\
    \xc0\x01\0\x50\0\x01\0\0\0\0\0\0\x50\x02\xff\xff\xdb\x8d\0\0";

const ACCEPTING: &[u8] = b"\x02\0\0\0\0\x01\x02\0\0\0\0\x02\x08\0\
    \x45\0\0\x28\0\x01\0\0\x40\x06\x66\xcd\x0a\0\0\x01\x0a\0\0\x02\
    \0\x50\xc0\x01\0\0\x03\xe8\0\x01\0\x01\x50\x12\xff\xff\xd7\x94\0\0";

const SENDING: &[u8] = b"\x02\0\0\0\0\x01\x02\0\0\0\0\x02\x08\0\
    \x45\0\0\x4f\0\x02\0\0\x40\x06\x66\xa5\x0a\0\0\x01\x0a\0\0\x02\
    \0\x50\xc0\x01\0\0\x03\xe9\0\x01\0\x01\x50\x18\xff\xff\xe7\x66\0\0\
    HTTP/1.1 200 OK\r\nContent-Length: 1\r\n\r\nA";

/// A frame that asks everyone for the address of 10.0.0.1.
const REQUEST_FRAME: [u8; 60] = *b"\xff\xff\xff\xff\xff\xff\x02\0\0\0\0\x01\x08\x06\
    \0\x01\x08\0\x06\x04\0\x01\x02\0\0\0\0\x01\x0a\0\0\x02\0\0\0\0\0\0\x0a\0\0\x01\
    \0\0\0\0\0\0\0\0\0\0\0\0\0\0\0\0\0\0";

const ASKED: Arp = Arp {
    op: REQUEST,
    sha: CLIENT,
    spa: Ip4(0x0A00_0002),
    tha: Mac([0; 6]),
    tpa: Ip4(0x0A00_0001),
};

/// The answer to it.
const ANSWER: [u8; 28] =
    *b"\0\x01\x08\0\x06\x04\0\x02\x02\0\0\0\0\x02\x0a\0\0\x01\x02\0\0\0\0\x01\x0a\0\0\x02";

const ANSWERED: Arp = Arp {
    op: REPLY,
    sha: SERVER,
    spa: Ip4(0x0A00_0001),
    tha: CLIENT,
    tpa: Ip4(0x0A00_0002),
};

#[test]
fn reads_frames(rt: HostRuntime) {
    for (bytes, dest, src, size) in [
        (OPENING, SERVER, CLIENT, 40),
        (ACCEPTING, CLIENT, SERVER, 40),
        (SENDING, CLIENT, SERVER, 79),
        (&OPENING[..14], SERVER, CLIENT, 0),
    ] {
        let frame = Ether {
            dest,
            src,
            proto: 0x0800,
            payload: &bytes[14..],
        };
        assert_eq!(rt; read_ether(bytes), Ok(frame));
        assert_eq!(rt; frame.payload.len(), size);
    }
    assert!(rt; read_ether(&OPENING[..13]).is_err());
}

#[test]
fn writes_frames(rt: HostRuntime) {
    let frame = Ether {
        dest: Mac([0xff; 6]),
        src: CLIENT,
        proto: 0x0806,
        payload: &REQUEST_FRAME[14..42],
    };
    let mut room = [0xee; 62];
    assert_eq!(rt; write_ether(&frame, &mut room), Ok(60));
    assert!(rt; room[..60] == REQUEST_FRAME[..]);
    assert_eq!(rt; (room[60], room[61]), (0xee, 0xee));
    let mut short = [0xee; 59];
    assert_eq!(rt; write_ether(&frame, &mut short), Err(NoRoom));
    assert!(rt; short == [0xee; 59]);
    let long = Ether {
        payload: &[7; 47],
        ..frame
    };
    assert_eq!(rt; write_ether(&long, &mut room), Ok(61));
    assert_eq!(rt; write_ether(&long, &mut room[..60]), Err(NoRoom));
}

#[test]
fn reads_and_writes_arp_packets(rt: HostRuntime) {
    assert_eq!(rt; read_arp(&REQUEST_FRAME[14..]), Ok(ASKED));
    assert_eq!(rt; read_arp(&ANSWER), Ok(ANSWERED));
    let mut room = [0xee; 30];
    assert_eq!(rt; write_arp(&ANSWERED, &mut room), Ok(28));
    assert!(rt; room[..28] == ANSWER[..]);
    assert_eq!(rt; (room[28], room[29]), (0xee, 0xee));
    assert_eq!(rt; write_arp(&ANSWERED, &mut room[..27]), Err(NoRoom));
    assert_eq!(rt; read_arp(&ANSWER[..27]), Err(Bad));
    for (what, place, octet) in [
        ("other hardware", 1, 6),
        ("another protocol", 2, 0x86),
        ("hardware addresses of 5 octets", 4, 5),
        ("protocol addresses of 6 octets", 5, 6),
        ("operation 0", 7, 0),
        ("operation 3", 7, 3),
    ] {
        assert_eq!(rt; read_arp(&with_octet(place, octet)), Err(Bad), "{what}");
    }
}

/// The answer with another octet at this place.
fn with_octet(place: usize, octet: u8) -> [u8; 28] {
    let mut packet = ANSWER;
    if let Some(there) = packet.get_mut(place) {
        *there = octet;
    }
    packet
}
