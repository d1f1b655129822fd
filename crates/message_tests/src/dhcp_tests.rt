//! DHCP messages, laid out by RFC 2131, section 2, as dnsmasq, ISC dhcpd, iPXE and EDK2 send them.
use crate::words::{octets_of, put_number, put_text};
use efi_base::{Ip4, Mac};
use std::alloc::Global;
use std::process::Abort;
use std::test::Fail;
use wire_dhcp::{
    Lease, Offer, Reply, read_dhcp, read_lease, read_reply, write_discover, write_release,
    write_renewal, write_request,
};

/// The station that is spoken to, and the transaction.
const STATION: Mac = Mac([2, 0, 0, 0, 0, 9]);

const XID: u32 = 0x1234_5678;

/// What stands for `~` in rows: the fields of a server's message in front of `siaddr`.
const FRONT: &str = "02010600 12345678 @16 0a000002";

/// What stands for `^` in rows: the fields behind `siaddr`, and the cookie.
const BEHIND: &str = "@28 020000000009 @236 63825363";

/// What a row is about, its octets from `op` on, and what is read: what is said to the station (`http` where it is of HTTP Boot),
/// and the lease: mask, seconds, the two times, router, DNS servers, URI, next server, file.
const ROWS: &str = "\
dnsmasq: an offer|~ 00000000 ^ 350102 36040a000001 330400000e10 3a0400000708 3b0400000c4e 0104ffffff00 1c040a0000ff 06040a000001 03040a000001 ff @300|offer 0a000002 0a000001 lease ffffff00 00000e10 00000708 00000c4e 0a000001 0a000001 - 00000000 .
dnsmasq: an ACK|~ 00000000 ^ 350105 36040a000001 330400000e10 3a0400000708 3b0400000c4e 0104ffffff00 06040a000001 03040a000001 ff @300|ack 0a000002 0a000001 lease ffffff00 00000e10 00000708 00000c4e 0a000001 0a000001 - 00000000 .
ISC dhcpd: an offer with siaddr and file|~ 0a000003 @28 020000000009 @108 'image @236 63825363 350102 36040a000001 330400000258 0104ffffff00 03080a0000010a0000fe 06080a00000a0a00000b ff @300|offer 0a000002 0a000001 lease ffffff00 00000258 0000012c 0000020d 0a000001 0a00000a 0a00000b image 0a000003 image
HTTP Boot|~ 00000000 ^ 350102 36040a000001 330400000e10 3c0a 'HTTPClient 4311 'http://10.0.0.1/a ff|offer 0a000002 0a000001 http lease ff000000 00000e10 00000708 00000c4e - - http://10.0.0.1/a 00000000 .
a NAK|~ 00000000 ^ 350106 36040a000001 ff|nak 0a000001
a NAK without a server|~ 00000000 ^ 350106 ff|-
iPXE and EDK2: DISCOVER|01010600 12345678 00008000 @28 020000000009 @236 63825363 350101 3707 0103060c2b3c43 390205dc 3c20 'PXEClient:Arch:00007:UNDI:003001 5d020007 ff|-
a REQUEST|01010600 12345678 00008000 @28 020000000009 @236 63825363 350103 32040a000002 36040a000001 ff|-
for another station|02010600 12345678 @16 0a000002 @28 020000000008 @236 63825363 350102 36040a000001 330400000e10 ff|- lease ff000000 00000e10 00000708 00000c4e - - - 00000000 .
from a client|01010600 12345678 @16 0a000002 @28 020000000009 @236 63825363 350106 36040a000001 ff|-
239 octets|02010600 12345678 @28 020000000009 @236 638253|bad
no options|~ 00000000 ^|bad
no cookie|~ 00000000 @28 020000000009 @236 63825364 350106 36040a000001 ff|bad
another kind of link|02060600 12345678 @28 020000000009 @236 63825363 350106 36040a000001 ff|bad
addresses of 16 octets|02011000 12345678 @28 020000000009 @236 63825363 350106 36040a000001 ff|bad
without 255|~ 00000000 ^ 350106 36040a000001|bad
padding without 255|~ 00000000 ^ 350106 36040a000001 @300|bad
a length past the end|~ 00000000 ^ 350106 36050a000001|bad
a length past the 255|~ 00000000 ^ 350106 36050a000001 ff|bad
a code without a length|~ 00000000 ^ 350106 36040a000001 43|bad
a 255 alone|~ 00000000 ^ ff|bad
the type twice|~ 00000000 ^ 350106 350106 36040a000001 ff|bad
the type twice, once in file|~ 00000000 @28 020000000009 @108 350106ff @236 63825363 350106 340101 36040a000001 ff|bad
the type behind the 255|~ 00000000 ^ 36040a000001 ff 350106 ff|bad
a type of two octets|~ 00000000 ^ 35020600 36040a000001 ff|-
padding between options|~ 00000000 ^ 00 350106 0000 36040a000001 00 ff|nak 0a000001
a NAK in file|~ 00000000 @28 020000000009 @108 36040a000001ff @236 63825363 350106 340101 ff|nak 0a000001
a NAK in sname|~ 00000000 @28 020000000009 @44 36040a000001ff @236 63825363 350106 340102 ff|nak 0a000001
halves in both fields, file first|~ 00000000 @28 020000000009 @44 36020001ff @108 36020a00ff @236 63825363 350106 340103 ff|nak 0a000001
overload of file without 255|~ 00000000 @28 020000000009 @108 36040a000001 @236 63825363 350106 340101 ff|bad
overload of sname without 255|~ 00000000 @28 020000000009 @44 36040a000001 @236 63825363 350106 340102 ff|bad
an option past the end of file|~ 00000000 @28 020000000009 @108 2bff @235 ff 63825363 350106 340101 ff|bad
no overload|~ 00000000 @28 020000000009 @108 36040a000001ff @236 63825363 350106 ff|-
overload 4|~ 00000000 @28 020000000009 @44 36040a000001ff @108 36040a000001ff @236 63825363 350106 340104 ff|-
overload of two octets|~ 00000000 @28 020000000009 @108 36040a000001ff @236 63825363 350106 34020100 ff|-
overload in file|~ 00000000 @28 020000000009 @44 36040a000001ff @108 340103ff @236 63825363 350106 340101 ff|-
equal codes joined|~ 00000000 ^ 350102 36020a00 330400000e10 36020001 4304 'http 4304 '://a ff|offer 0a000002 0a000001 lease ff000000 00000e10 00000708 00000c4e - - http://a 00000000 .
file holds options|~ 00000000 @28 020000000009 @108 4301 'a ff @236 63825363 350102 340101 36040a000001 330400000e10 4301 'b ff|offer 0a000002 0a000001 lease ff000000 00000e10 00000708 00000c4e - - ba 00000000 .
option 67 of zeros alone|~ 00000000 @28 020000000009 @108 'image @236 63825363 350102 36040a000001 330400000e10 43020000 ff|offer 0a000002 0a000001 lease ff000000 00000e10 00000708 00000c4e - - . 00000000 image
option 67 with zeros at its end|~ 00000000 ^ 350102 36040a000001 330400000e10 4305 'a 00 'b 0000 ff|offer 0a000002 0a000001 lease ff000000 00000e10 00000708 00000c4e - - a\0b 00000000 .
a mask with a hole|~ 00000000 ^ 350102 36040a000001 330400000e10 0104ff00ff00 ff|offer 0a000002 0a000001 lease ff000000 00000e10 00000708 00000c4e - - - 00000000 .
a mask of three octets|~ 00000000 ^ 350102 36040a000001 330400000e10 0103ffff00 ff|offer 0a000002 0a000001 lease ff000000 00000e10 00000708 00000c4e - - - 00000000 .
times of three and five octets|~ 00000000 ^ 350102 36040a000001 330400000e10 3a03000001 3b050000000001 ff|offer 0a000002 0a000001 lease ff000000 00000e10 00000708 00000c4e - - - 00000000 .
a lease that doesn't end|~ 00000000 ^ 350105 36040a000001 3304ffffffff ff|ack 0a000002 0a000001 lease ff000000 ffffffff 7fffffff dfffffff - - - 00000000 .
a lease of no time|~ 00000000 ^ 350105 36040a000001 330400000000 ff|-
a lease of three octets|~ 00000000 ^ 350105 36040a000001 3303000e10 ff|-
a server that isn't unicast|~ 00000000 ^ 350105 3604ffffffff 330400000e10 ff|-
a router of three octets|~ 00000000 ^ 350105 36040a000001 330400000e10 03030a0000 ff|ack 0a000002 0a000001 lease ff000000 00000e10 00000708 00000c4e - - - 00000000 .
four DNS servers, one of many, and an octet|~ 00000000 ^ 350105 36040a000001 330400000e10 0615 0a000001 e0000001 0a000002 0a000003 0a000004 0a ff|ack 0a000002 0a000001 lease ff000000 00000e10 00000708 00000c4e - 0a000001 0a000002 0a000003 - 00000000 .
";

/// Puts an offer's address and server behind the text.
fn put_offer(offer: &Offer, text: &mut Vec<u8>) -> Result<(), Fail> {
    put_number(text, offer.ip.0)?;
    put_number(text, offer.server.0)?;
    if offer.http {
        put_text(text, Some(b"http"))?;
    }
    Ok(())
}

/// Puts what is said to the station behind the text.
fn put_reply(rt: &impl Abort, reply: Option<Reply>, text: &mut Vec<u8>) -> Result<(), Fail> {
    match reply {
        None => put_text(text, None),
        Some(Reply::Offer(xid, offer)) => {
            assert_eq!(rt; xid, XID);
            put_text(text, Some(b"offer"))?;
            put_offer(&offer, text)
        }
        Some(Reply::Ack(xid, offer)) => {
            assert_eq!(rt; xid, XID);
            put_text(text, Some(b"ack"))?;
            put_offer(&offer, text)
        }
        Some(Reply::Nak(xid, server)) => {
            assert_eq!(rt; xid, XID);
            put_text(text, Some(b"nak"))?;
            put_number(text, server.0)
        }
    }
}

/// Puts addresses behind the text.
fn put_addresses(ips: &[Ip4], text: &mut Vec<u8>) -> Result<(), Fail> {
    if ips.is_empty() {
        put_text(text, None)?;
    }
    for ip in ips {
        put_number(text, ip.0)?;
    }
    Ok(())
}

/// Puts where an image is behind the text.
fn put_image(lease: &Lease, text: &mut Vec<u8>) -> Result<(), Fail> {
    match &lease.uri {
        Some(uri) => put_text(text, Some(uri.as_slice()))?,
        None => put_text(text, None)?,
    }
    put_number(text, lease.next.0)?;
    put_text(text, Some(lease.file.as_slice()))
}

/// Puts a lease behind the text.
fn put_lease(lease: &Lease, text: &mut Vec<u8>) -> Result<(), Fail> {
    put_text(text, Some(b"lease"))?;
    for number in [lease.mask, lease.secs, lease.t1, lease.t2] {
        put_number(text, number)?;
    }
    match lease.router {
        Some(ip) => put_number(text, ip.0)?,
        None => put_text(text, None)?,
    }
    put_addresses(lease.dns.as_slice(), text)?;
    put_image(lease, text)
}

/// What is read of the octets, behind a space.
fn said(rt: &impl Abort, alloc: Global, octets: &[u8]) -> Result<Vec<u8>, Fail> {
    let mut text = Vec::new(alloc);
    let Ok(message) = read_dhcp(octets) else {
        put_text(&mut text, Some(b"bad"))?;
        return Ok(text);
    };
    put_reply(rt, read_reply(&message, STATION), &mut text)?;
    if let Some(lease) = read_lease(alloc, &message)? {
        put_lease(&lease, &mut text)?;
    }
    Ok(text)
}

/// The octets of a row's words.
fn message_of(alloc: Global, words: &str) -> Result<Option<Vec<u8>>, Fail> {
    let fronted = words.replace(alloc, "~", FRONT)?;
    let whole = fronted.replace(alloc, "^", BEHIND)?;
    octets_of(alloc, whole.as_str())
}

fn row_is_read(rt: &impl Abort, alloc: Global, row: &str) -> Result<(), Fail> {
    let mut fields = row.split('|');
    let (Some(_), Some(words), Some(want)) = (fields.next(), fields.next(), fields.next()) else {
        assert!(rt; false, "fields: {row}");
        return Ok(());
    };
    let Some(octets) = message_of(alloc, words)? else {
        assert!(rt; false, "words: {row}");
        return Ok(());
    };
    let text = said(rt, alloc, octets.as_slice())?;
    assert_eq!(rt; text.as_slice().get(1..), Some(want.as_bytes()), "{row}");
    Ok(())
}

#[test]
fn messages(rt: HostRuntime) -> Result<(), Fail> {
    for row in ROWS.lines() {
        row_is_read(&rt, rt.alloc(), row)?;
    }
    Ok(())
}

/// The messages of a station: DISCOVER, REQUEST, renewal, RELEASE.
const SENT: &str = "\
01010600 12345678 00008000 ^ 350101 370901030633363a3b3c43 390205dc 3c21 'HTTPClient:Arch:00016:UNDI:003001 5d020010 ff @300
01010600 12345678 00008000 ^ 350103 32040a000002 36040a000001 370901030633363a3b3c43 390205dc 3c21 'HTTPClient:Arch:00016:UNDI:003001 5d020010 ff @300
01010600 12345678 00008000 0a000002 ^ 350103 370901030633363a3b3c43 390205dc 3c21 'HTTPClient:Arch:00016:UNDI:003001 5d020010 ff @300
01010600 12345678 00008000 0a000002 ^ 350107 36040a000001 ff @300";

/// The message of this place in the table, in front of the room. No length where it has none.
fn write_at(place: usize, room: &mut [u8]) -> Option<usize> {
    let (ip, server) = (Ip4(0x0A00_0002), Ip4(0x0A00_0001));
    let written = match place {
        0 => write_discover(STATION, XID, room),
        1 => write_request(STATION, XID, ip, server, room),
        2 => write_renewal(STATION, XID, ip, room),
        _ => write_release(STATION, XID, ip, server, room),
    };
    written.ok()
}

#[test]
fn messages_of_a_station(rt: HostRuntime) -> Result<(), Fail> {
    for (place, row) in SENT.lines().enumerate() {
        let mut room = vec![in rt.alloc(); 0xee; 310]?;
        let size = write_at(place, &mut room);
        assert_eq!(rt;
            message_of(rt.alloc(), row)?.as_deref(),
            room.get(..size.unwrap_or(0)),
            "{row}"
        );
    }
    Ok(())
}
