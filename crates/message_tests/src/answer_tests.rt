//! Answers of DNS as they are written: whole up to 512 octets, else cut to their question (RFC 1035, section 4.2.1).
ghost use Rattle.std.specs.Prelude.{IsTrue};
ghost use Rattle.wire_dns.specs.Spelling.{is_row};

use efi_base::Ip4;
use std::alloc::Global;
use std::test::Fail;
use wire_dns::{Row, RowValue, pointer_question, read_answer, write_answer};

/// A row of 67 octets: its owner's name has 28, and the name that it points to has 29.
fn long_row() -> Row
    ensures { IsTrue (is_row result) }
{
    Row {
        name: pointer_question(0, Ip4(0x6464_0a0a)).name,
        secs: 60,
        value: RowValue::Pointer(pointer_question(0, Ip4(0x6464_640a)).name),
    }
}

/// What is read again of an answer of seven such rows to the question of the name of this address: its octets, whether it says that
/// it is cut, its code, and whether it has the seventh row and the first one.
fn read_again(
    alloc: Global,
    ip: u32,
    tc: bool,
    room: usize,
) -> Result<Option<(usize, bool, u8, bool, bool)>, Fail> {
    let rows = [
        long_row(),
        long_row(),
        long_row(),
        long_row(),
        long_row(),
        long_row(),
        long_row(),
    ];
    let mut octets = vec![in alloc; 0xee; room]?;
    let Ok(size) = write_answer(&pointer_question(7, Ip4(ip)), tc, 3, &rows, &mut octets) else {
        return Ok(None);
    };
    let Ok(answer) = read_answer(octets.get(..size).unwrap_or(&[])) else {
        return Ok(None);
    };
    Ok(Some((
        size,
        answer.tc(),
        answer.code(),
        answer.row(6).is_some(),
        answer.row(0).is_some(),
    )))
}

#[test]
fn cut_answers(rt: HostRuntime) -> Result<(), Fail> {
    // the address that is asked for decides the length: each digit is an octet
    let rows: [(
        &str,
        u32,
        bool,
        usize,
        Option<(usize, bool, u8, bool, bool)>,
    ); 6] = [
        (
            "512 octets",
            0x640a_0a0a,
            false,
            600,
            Some((512, false, 3, true, true)),
        ),
        (
            "512 octets, said to be cut",
            0x640a_0a0a,
            true,
            512,
            Some((512, true, 3, true, true)),
        ),
        (
            "513 octets",
            0x6464_0a0a,
            false,
            600,
            Some((44, true, 3, false, false)),
        ),
        (
            "513 octets, in a room for the question",
            0x6464_0a0a,
            true,
            44,
            Some((44, true, 3, false, false)),
        ),
        ("a room of 511 octets", 0x640a_0a0a, false, 511, None),
        ("no room for the question", 0x6464_0a0a, false, 43, None),
    ];
    for (what, ip, tc, room, want) in rows {
        assert_eq!(rt; read_again(rt.alloc(), ip, tc, room)?, want, "{what}");
    }
    Ok(())
}
