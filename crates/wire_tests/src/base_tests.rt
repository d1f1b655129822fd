//! Each public call on its happy path, with values from outside.
use efi_base::{
    Bytes, Ip4, Name, NoRoom, Servers, checksum, is_broadcast, is_mask, is_unicast, put_parts,
    u16_at, u32_at,
};
use std::test::Fail;

#[test]
fn checksums(rt: HostRuntime) {
    // the example of RFC 1071, section 3, and a header of IPv4 without and with its checksum
    let rows: [(&[u8], &[u8], u16); 9] = [
        (b"\x00\x01\xf2\x03", b"\xf4\xf5\xf6\xf7", 0x220d),
        (b"\x00\x01\xf2\x03\xf4\xf5\xf6\xf7", b"", 0x220d),
        (
            b"\x45\x00\x00\x73\x00\x00\x40\x00\x40\x11\x00\x00",
            b"\xc0\xa8\x00\x01\xc0\xa8\x00\xc7",
            0xb861,
        ),
        (
            b"\x45\x00\x00\x73\x00\x00\x40\x00\x40\x11\xb8\x61",
            b"\xc0\xa8\x00\x01\xc0\xa8\x00\xc7",
            0,
        ),
        (b"", b"\x01", 0xfeff),
        (b"\xff\xff\xff\xff", b"\x00\x01\x02", 0xfdfe),
        (b"", b"", 0xffff),
        // words of 64 bits, and what is left behind them
        (b"abcdefghijklmnopqrstuvwx", b"yz0123456789!", 0x4b5a),
        (
            b"\xff\xff\xff\xff\xff\xff\xff\xff",
            b"\xff\xff\xff\xff\xff\xff\xff\xff\x80",
            0x7fff,
        ),
    ];
    for (first, second, want) in rows {
        assert!(rt; first.len() % 2 == 0);
        assert_eq!(rt; checksum(first, second), want, "{first:?} {second:?}");
    }
}

/// The answer of `put_parts` for a room of so many octets, and the room.
fn put_into(size: usize) -> (Result<usize, NoRoom>, [u8; 6]) {
    let mut room = *b"......";
    let put = match room.get_mut(..size) {
        Some(front) => put_parts(b"ab", b"cde", front),
        None => Err(NoRoom),
    };
    (put, room)
}

#[test]
fn headers_with_a_rest(rt: HostRuntime) {
    assert_eq!(rt; put_into(6), (Ok(5), *b"abcde."));
    assert_eq!(rt; put_into(5), (Ok(5), *b"abcde."));
    assert_eq!(rt; put_into(4), (Err(NoRoom), *b"......"));
    assert_eq!(rt; put_into(1), (Err(NoRoom), *b"......"));
    assert_eq!(rt;
        (u16_at(b"abcde", 3), u32_at(b"abcde", 1)),
        (0x6465, 0x6263_6465)
    );
}

#[test]
fn strings_of_octets(rt: HostRuntime) -> Result<(), Fail> {
    assert!(rt; Bytes::new(rt.alloc()).is_empty());
    let octets = Bytes::from_vec([7, 8, 9].to_vec(rt.alloc())?);
    assert_eq!(rt; octets.len(), 3);
    assert_eq!(rt; octets.as_slice(), [7, 8, 9].as_slice());
    assert_eq!(rt; octets.into_vec().as_slice(), [7, 8, 9].as_slice());
    Ok(())
}

#[test]
fn addresses(rt: HostRuntime) {
    let rows: [(u32, bool, bool, bool); 7] = [
        (0, false, false, true),
        (1, true, false, false),
        (0xDFFF_FFFF, true, false, false),
        (0xE000_0000, false, false, true),
        (0xFFFF_FF00, false, false, true),
        (0xFFFF_00FF, false, false, false),
        (0xFFFF_FFFF, false, true, true),
    ];
    for (number, unicast, broadcast, mask) in rows {
        assert_eq!(rt; is_unicast(Ip4(number)), unicast, "{number}");
        assert_eq!(rt; is_broadcast(Ip4(number)), broadcast, "{number}");
        assert_eq!(rt; is_mask(number), mask, "{number}");
    }
}

#[test]
fn names_and_servers(rt: HostRuntime) {
    assert_eq!(rt;
        Name::from_slice(b"boot.example").as_slice(),
        b"boot.example".as_slice()
    );
    let mut servers = Servers::new();
    let asked = [Ip4(1), Ip4(2), Ip4(3)];
    for ip in asked {
        assert_eq!(rt; servers.push(ip), Ok(()));
    }
    assert_eq!(rt; servers.push(Ip4(4)), Err(NoRoom));
    assert_eq!(rt; servers.as_slice(), asked.as_slice());
}
