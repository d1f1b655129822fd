//! TFTP packets, laid out by RFC 1350, section 5, as tftpd-hpa, dnsmasq, iPXE and EDK2 send them.
use wire_tftp::{Opts, Packet, fits_ask, read_packet, write_packet};

/// No options.
const NONE: Opts = Opts {
    blksize: None,
    tsize: None,
    other: false,
};

/// Whether the octets are read as this, or as no packet.
fn is_read_as(octets: &[u8], want: Option<(u16, u16, &[u8], Opts)>) -> bool {
    let Ok(packet) = read_packet(octets) else {
        return want.is_none();
    };
    match packet {
        Packet::Rrq(ask) => want == Some((1, 0, ask.name.as_slice(), ask.opts)),
        Packet::Wrq(ask) => want == Some((2, 0, ask.name.as_slice(), ask.opts)),
        Packet::Data(number, block) => want == Some((3, number, block, NONE)),
        Packet::Ack(number) => want == Some((4, number, b"", NONE)),
        Packet::Error(code, text) => want == Some((5, code, text, NONE)),
        Packet::Oack(opts) => want == Some((6, 0, b"", opts)),
    }
}

/// Options of these values.
fn opts(blksize: Option<u64>, tsize: Option<u64>, other: bool) -> Opts {
    Opts {
        blksize,
        tsize,
        other,
    }
}

#[test]
fn packets(rt: HostRuntime) {
    let rows: [(&str, &[u8], Option<(u16, u16, &[u8], Opts)>); 19] = [
        (
            "iPXE asks",
            b"\0\x01image\0octet\0blksize\x001432\0tsize\x000\0",
            Some((1, 0, b"image", opts(Some(1432), Some(0), false))),
        ),
        (
            "EDK2 asks",
            b"\0\x01bootx64.efi\0octet\0tsize\x000\0blksize\x001468\0windowsize\x004\0",
            Some((1, 0, b"bootx64.efi", opts(Some(1468), Some(0), true))),
        ),
        (
            "a request to write, in another case",
            b"\0\x02image\0OCTET\0BLKSIZE\x00512\0",
            Some((2, 0, b"image", opts(Some(512), None, false))),
        ),
        (
            "the first of a name",
            b"\0\x01a\0octet\0tsize\x007\0tsize\x008\0",
            Some((1, 0, b"a", opts(None, Some(7), false))),
        ),
        (
            "a block",
            b"\0\x03\x12\x34abc",
            Some((3, 0x1234, b"abc", NONE)),
        ),
        ("an empty block", b"\0\x03\0\x02", Some((3, 2, b"", NONE))),
        (
            "an acknowledgment",
            b"\0\x04\xff\xff",
            Some((4, 65535, b"", NONE)),
        ),
        (
            "tftpd-hpa: an error",
            b"\0\x05\0\x01File not found\0",
            Some((5, 1, b"File not found", NONE)),
        ),
        (
            "tftpd-hpa: options",
            b"\0\x06tsize\x008388608\0blksize\x001432\0",
            Some((6, 0, b"", opts(Some(1432), Some(8388608), false))),
        ),
        (
            "dnsmasq: options",
            b"\0\x06blksize\x001408\0tsize\x008388608\0",
            Some((6, 0, b"", opts(Some(1408), Some(8388608), false))),
        ),
        ("opcode 0", b"\0\0\0\0", None),
        ("opcode 7", b"\0\x07\0\0", None),
        ("one octet", b"\0", None),
        (
            "an error without its last zero",
            b"\0\x05\0\x01File not found",
            None,
        ),
        ("octets behind an error", b"\0\x05\0\x01\0x", None),
        ("an option without a value", b"\0\x06blksize\0", None),
        ("a value that is no number", b"\0\x06blksize\x00x\0", None),
        ("another mode", b"\0\x01image\0netascii\0", None),
        ("an acknowledgment of 5 octets", b"\0\x04\0\x01\0", None),
    ];
    for (what, octets, want) in rows {
        assert!(rt; is_read_as(octets, want), "{what}");
    }
}

#[test]
fn answers_to_options(rt: HostRuntime) {
    let rows: [(&str, Opts, Opts, bool); 7] = [
        (
            "what was asked for",
            opts(Some(1432), None, false),
            opts(Some(1432), None, false),
            true,
        ),
        (
            "a smaller block",
            opts(Some(1432), Some(0), false),
            opts(Some(8), Some(9), false),
            true,
        ),
        ("nothing", opts(Some(1432), None, false), NONE, true),
        (
            "a size that wasn't asked for",
            opts(Some(1432), None, false),
            opts(None, Some(9), false),
            false,
        ),
        (
            "another option",
            opts(Some(1432), None, false),
            opts(None, None, true),
            false,
        ),
        (
            "a block of 7",
            opts(Some(1432), None, false),
            opts(Some(7), None, false),
            false,
        ),
        (
            "a block above the one asked for",
            opts(Some(512), None, false),
            opts(Some(513), None, false),
            false,
        ),
    ];
    for (what, asked, given, want) in rows {
        assert_eq!(rt; fits_ask(&asked, &given), want, "{what}");
    }
}

/// The octets written of a packet, in front of eight.
fn written(packet: &Packet<'_>) -> [u8; 8] {
    let mut room = [0xee; 8];
    if let Packet::Ack(_) | Packet::Data(_, _) = packet {
        let _ = write_packet(packet, &mut room);
    }
    room
}

#[test]
fn written_packets(rt: HostRuntime) {
    let rows: [(Packet<'_>, &[u8; 8]); 2] = [
        (Packet::Ack(9), b"\0\x04\0\x09\xee\xee\xee\xee"),
        (Packet::Data(1, b"abc"), b"\0\x03\0\x01abc\xee"),
    ];
    for (packet, want) in rows {
        assert_eq!(rt; written(&packet), *want);
    }
}
