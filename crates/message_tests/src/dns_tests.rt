//! DNS messages, laid out by RFC 1035, section 4, as BIND, dnsmasq, iPXE and EDK2 send them.
use efi_base::{Ip4, Name};
use wire_dns::{
    Found, FoundName, Query, RowValue, address, address_question, name_said, pointer_question,
    read_answer, read_name, read_query, write_query,
};

/// The name at this place is this text, and ends in front of that place. No text: there is none.
fn is_name_at(octets: &[u8], at: usize, want: Option<(&[u8], usize)>) -> bool {
    match read_name(octets, at) {
        Ok((name, behind)) => want == Some((name.as_slice(), behind)),
        Err(_) => want.is_none(),
    }
}

#[test]
fn names(rt: HostRuntime) {
    let rows: [(&str, &[u8], usize, Option<(&[u8], usize)>); 14] = [
        ("the root", b"\0", 0, Some((b"", 1))),
        (
            "labels",
            b"\x04boot\x07example\0",
            0,
            Some((b"boot.example", 14)),
        ),
        (
            "a pointer back",
            b"\x01x\0\x02n0\xc0\0",
            3,
            Some((b"n0.x", 8)),
        ),
        (
            "a pointer to a pointer",
            b"\x01x\0\xc0\0\x01y\xc0\x03",
            5,
            Some((b"y.x", 9)),
        ),
        ("a dot in a label", b"\x03a.b\0", 0, Some((b"a.b", 5))),
        ("no zero", b"\x01x", 0, None),
        ("a label cut short", b"\x05boot", 0, None),
        ("a pointer cut short", b"\0\xc0", 1, None),
        ("behind the octets", b"\0", 2, None),
        ("a label that begins with 0x40", b"\x40x\0", 0, None),
        ("a label that begins with 0x80", b"\x80x\0", 0, None),
        (
            "a pointer to itself",
            b"\0\0\0\0\0\0\0\0\0\0\0\0\xc0\x0c",
            12,
            None,
        ),
        ("a pointer forward", b"\xc0\x02\0", 0, None),
        ("a loop of two", b"\xc0\x02\xc0\0", 2, None),
    ];
    for (what, octets, at, want) in rows {
        assert!(rt; is_name_at(octets, at, want), "{what}");
    }
}

/// A header with these flags, one question, and so many answers.
const ASKED: &[u8] = b"\x12\x34\x81\x80\0\x01\0\x01\0\0\0\0\x04boot\x07example\0\0\x01\0\x01";

/// What the octets say of the address of a name. None where they are no answer.
fn found(octets: &[u8], name: &[u8]) -> Option<Found> {
    if name.len() > 255 {
        return None;
    }
    match read_answer(octets) {
        Ok(answer) => Some(address(&answer, &Name::from_slice(name))),
        Err(_) => None,
    }
}

#[test]
fn addresses(rt: HostRuntime) {
    let rows: [(&str, &[u8], Option<Found>); 19] = [
        (
            "dnsmasq: one row, its owner a pointer",
            b"\x12\x34\x85\x80\0\x01\0\x01\0\0\0\0\x04boot\x07example\0\0\x01\0\x01\xc0\x0c\0\x01\0\x01\0\0\0\x3c\0\x04\x0a\0\0\x09",
            Some(Found::At(Ip4(0x0A00_0009))),
        ),
        (
            "BIND: an alias, an address, an authority and an OPT row",
            b"\x12\x34\x81\x80\0\x01\0\x02\0\x01\0\x01\x04boot\x07example\0\0\x01\0\x01\xc0\x0c\0\x05\0\x01\0\0\x0e\x10\0\x06\x03web\xc0\x11\xc0\x2a\0\x01\0\x01\0\0\x0e\x10\0\x04\x0a\0\0\x07\xc0\x11\0\x02\0\x01\0\0\x0e\x10\0\x05\x02ns\xc0\x11\0\0\x29\x10\0\0\0\0\0\0\0",
            Some(Found::At(Ip4(0x0A00_0007))),
        ),
        (
            "another case",
            b"\x12\x34\x81\x80\0\x01\0\x01\0\0\0\0\x04boot\x07example\0\0\x01\0\x01\x04BOOT\x07Example\0\0\x01\0\x01\0\0\0\x3c\0\x04\x0a\0\0\x09",
            Some(Found::At(Ip4(0x0A00_0009))),
        ),
        (
            "the first row of another name",
            b"\x12\x34\x81\x80\0\x01\0\x02\0\0\0\0\x04boot\x07example\0\0\x01\0\x01\x03www\xc0\x11\0\x01\0\x01\0\0\0\x3c\0\x04\x0a\0\0\x08\xc0\x0c\0\x01\0\x01\0\0\0\x3c\0\x04\x0a\0\0\x09",
            Some(Found::At(Ip4(0x0A00_0009))),
        ),
        (
            "the first row of class CH",
            b"\x12\x34\x81\x80\0\x01\0\x02\0\0\0\0\x04boot\x07example\0\0\x01\0\x01\xc0\x0c\0\x01\0\x03\0\0\0\x3c\0\x04\x0a\0\0\x08\xc0\x0c\0\x01\0\x01\0\0\0\x3c\0\x04\x0a\0\0\x09",
            Some(Found::At(Ip4(0x0A00_0009))),
        ),
        (
            "the first address no unicast one",
            b"\x12\x34\x81\x80\0\x01\0\x02\0\0\0\0\x04boot\x07example\0\0\x01\0\x01\xc0\x0c\0\x01\0\x01\0\0\0\x3c\0\x04\xe0\0\0\x01\xc0\x0c\0\x01\0\x01\0\0\0\x3c\0\x04\x0a\0\0\x09",
            Some(Found::At(Ip4(0x0A00_0009))),
        ),
        (
            "no unicast address",
            b"\x12\x34\x81\x80\0\x01\0\x01\0\0\0\0\x04boot\x07example\0\0\x01\0\x01\xc0\x0c\0\x01\0\x01\0\0\0\x3c\0\x04\0\0\0\0",
            Some(Found::NoAddress),
        ),
        (
            "two aliases: the first",
            b"\x12\x34\x81\x80\0\x01\0\x04\0\0\0\0\x04boot\x07example\0\0\x01\0\x01\xc0\x0c\0\x05\0\x01\0\0\0\x3c\0\x04\x01a\xc0\x11\xc0\x0c\0\x05\0\x01\0\0\0\x3c\0\x04\x01b\xc0\x11\x01b\xc0\x11\0\x01\0\x01\0\0\0\x3c\0\x04\x0a\0\0\x02\x01a\xc0\x11\0\x01\0\x01\0\0\0\x3c\0\x04\x0a\0\0\x01",
            Some(Found::At(Ip4(0x0A00_0001))),
        ),
        (
            "cut",
            b"\x12\x34\x83\x80\0\x01\0\x01\0\0\0\0\x04boot\x07example\0\0\x01\0\x01\xc0\x0c\0\x01\0\x01\0\0\0\x3c\0\x04\x0a\0\0\x09",
            Some(Found::NoAddress),
        ),
        (
            "code 3",
            b"\x12\x34\x81\x83\0\x01\0\0\0\0\0\0\x04boot\x07example\0\0\x01\0\x01",
            Some(Found::NameError(3)),
        ),
        (
            "no rows",
            b"\x12\x34\x81\x80\0\x01\0\0\0\0\0\0\x04boot\x07example\0\0\x01\0\x01",
            Some(Found::NoAddress),
        ),
        ("11 octets", b"\x12\x34\x81\x80\0\x01\0\x01\0\0\0", None),
        ("a row announced and none there", ASKED, None),
        (
            "65,535 rows announced in 12 octets",
            b"\x12\x34\x81\x80\0\x01\xff\xff\0\0\0\0",
            None,
        ),
        (
            "a query",
            b"\x12\x34\x01\0\0\x01\0\0\0\0\0\0\x04boot\x07example\0\0\x01\0\x01",
            None,
        ),
        (
            "another opcode",
            b"\x12\x34\x89\x80\0\x01\0\0\0\0\0\0\x04boot\x07example\0\0\x01\0\x01",
            None,
        ),
        (
            "an address of 5 octets",
            b"\x12\x34\x81\x80\0\x01\0\x01\0\0\0\0\x04boot\x07example\0\0\x01\0\x01\xc0\x0c\0\x01\0\x01\0\0\0\x3c\0\x05\x0a\0\0\x09\0",
            None,
        ),
        (
            "an alias that doesn't fill its row",
            b"\x12\x34\x81\x80\0\x01\0\x01\0\0\0\0\x04boot\x07example\0\0\x01\0\x01\xc0\x0c\0\x05\0\x01\0\0\0\x3c\0\x05\x01a\xc0\x11\0",
            None,
        ),
        (
            "an authority cut short",
            b"\x12\x34\x81\x80\0\x01\0\0\0\x01\0\0\x04boot\x07example\0\0\x01\0\x01\xc0\x11\0\x02\0\x01\0\0\x0e\x10\0\x05\x02ns\xc0",
            None,
        ),
    ];
    for (what, octets, want) in rows {
        assert_eq!(rt; found(octets, b"boot.example"), want, "{what}");
    }
}

/// Nine aliases, each of the next name, and the address of the last.
const CHAIN: &[u8] = b"\0\0\x81\x80\0\x01\0\x0a\0\0\0\0\x02n0\x01x\0\0\x01\0\x01\
    \x02n0\xc0\x0f\0\x05\0\x01\0\0\0\x3c\0\x05\x02n1\xc0\x0f\
    \x02n1\xc0\x0f\0\x05\0\x01\0\0\0\x3c\0\x05\x02n2\xc0\x0f\
    \x02n2\xc0\x0f\0\x05\0\x01\0\0\0\x3c\0\x05\x02n3\xc0\x0f\
    \x02n3\xc0\x0f\0\x05\0\x01\0\0\0\x3c\0\x05\x02n4\xc0\x0f\
    \x02n4\xc0\x0f\0\x05\0\x01\0\0\0\x3c\0\x05\x02n5\xc0\x0f\
    \x02n5\xc0\x0f\0\x05\0\x01\0\0\0\x3c\0\x05\x02n6\xc0\x0f\
    \x02n6\xc0\x0f\0\x05\0\x01\0\0\0\x3c\0\x05\x02n7\xc0\x0f\
    \x02n7\xc0\x0f\0\x05\0\x01\0\0\0\x3c\0\x05\x02n8\xc0\x0f\
    \x02n8\xc0\x0f\0\x05\0\x01\0\0\0\x3c\0\x05\x02n9\xc0\x0f\
    \x02n9\xc0\x0f\0\x01\0\x01\0\0\0\x3c\0\x04\x0a\0\0\x09";

#[test]
fn chains(rt: HostRuntime) {
    let rows: [(&[u8], Option<Found>); 4] = [
        (b"n9.x", Some(Found::At(Ip4(0x0A00_0009)))),
        (b"N1.x", Some(Found::At(Ip4(0x0A00_0009)))),
        (b"n0.x", Some(Found::NoAddress)),
        (b"n", Some(Found::NoAddress)),
    ];
    for (name, want) in rows {
        assert_eq!(rt; found(CHAIN, name), want, "{name:?}");
    }
}

/// Whether a row says this name, or an address where the name is empty.
fn says(value: &RowValue, name: &[u8]) -> bool {
    match value {
        RowValue::At(_) => name.is_empty(),
        RowValue::Alias(next) => next.as_slice() == name,
        RowValue::Pointer(found) => found.as_slice() == name,
    }
}

/// Whether the row at this place has this owner, these seconds, and says this name. None: there is no row.
fn is_row_at(octets: &[u8], n: u32, want: Option<(&[u8], u32, &[u8])>) -> bool {
    let Ok(answer) = read_answer(octets) else {
        return false;
    };
    let Some(row) = answer.row(n) else {
        return want.is_none();
    };
    let Some((owner, secs, name)) = want else {
        return false;
    };
    row.name.as_slice() == owner && row.secs == secs && says(&row.value, name)
}

/// BIND: an alias, an OPT row among the answers, an address, and a name that is pointed to.
const ROWS: &[u8] = b"\xab\xcd\x87\x85\0\x01\0\x04\0\0\0\0\x01x\0\0\xff\0\x01\
    \xc0\x0c\0\x05\0\x01\0\0\x0e\x10\0\x04\x01y\xc0\x0c\
    \0\0\x29\x10\0\0\0\0\0\0\0\
    \x01y\xc0\x0c\0\x01\0\x01\0\0\0\x3c\0\x04\x0a\0\0\x09\
    \xc0\x0c\0\x0c\0\x01\0\0\0\x01\0\x02\xc0\x0c";

#[test]
fn rows(rt: HostRuntime) {
    let rows: [(u32, Option<(&[u8], u32, &[u8])>); 4] = [
        (0, Some((b"x", 3600, b"y.x"))),
        (1, Some((b"y.x", 60, b""))),
        (2, Some((b"x", 1, b"x"))),
        (3, None),
    ];
    for (n, want) in rows {
        assert!(rt; is_row_at(ROWS, n, want), "{n}");
    }
    let seen = match read_answer(ROWS) {
        Ok(answer) => {
            let q = answer.query();
            (q.id, q.rd, q.kind, answer.tc(), answer.code())
        }
        Err(_) => (0, false, 0, false, 0),
    };
    assert_eq!(rt; seen, (0xabcd, true, 255, true, 5));
}

/// The answer to `9.0.0.10.in-addr.arpa`, and whether it names this name.
fn is_named(id: u16, want: Option<&[u8]>) -> bool {
    let octets =
        b"\x12\x34\x85\x80\0\x01\0\x01\0\0\0\0\x019\x010\x010\x0210\x07in-addr\x04arpa\0\0\x0c\0\x01\xc0\x0c\0\x0c\0\x01\0\0\0\x3c\0\x0e\x04boot\x07example\0";
    match name_said(octets, &pointer_question(id, Ip4(0x0A00_0009))) {
        Some(FoundName::Named(name)) => want == Some(name.as_slice()),
        _ => want.is_none(),
    }
}

#[test]
fn names_of_addresses(rt: HostRuntime) {
    assert!(rt; is_named(0x1234, Some(b"boot.example")));
    assert!(rt; is_named(0x1235, None));
}

/// The octets of a query, where they are 30.
fn query_octets(q: &Query) -> [u8; 30] {
    let mut room = [0xee; 30];
    if q.name.as_slice() == b"boot.example".as_slice() {
        let _ = write_query(q, &mut room);
    }
    room
}

#[test]
fn queries(rt: HostRuntime) {
    // as iPXE and EDK2 ask
    let octets = b"\x12\x34\x01\0\0\x01\0\0\0\0\0\0\x04boot\x07example\0\0\x01\0\x01";
    let q = address_question(0x1234, Name::from_slice(b"boot.example"));
    assert_eq!(rt; query_octets(&q), *octets);
    let seen = match read_query(octets) {
        Ok(q) => (
            q.id,
            q.rd,
            q.kind,
            q.name.as_slice() == b"boot.example".as_slice(),
        ),
        Err(_) => (0, false, 0, false),
    };
    assert_eq!(rt; seen, (0x1234, true, 1, true));
}
