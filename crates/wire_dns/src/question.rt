//! The questions of a station: the address of a name, and the name of an address (RFC 1035, section 3.5).
ghost use Rattle.std.specs.Prelude.{◌≡◌, ◌+◌, ◌<◌, ◌≤◌, ◌++◌, ◌^◌, IsTrue, length};
ghost use Rattle.wire_dns.specs.Questions.{address_question, octet_label, pointer_name, pointer_question};
ghost use Rattle.wire_dns.specs.Spelling.{is_name};

use crate::entry::{A, PTR};
use crate::message::Query;
use arrayvec::ArrayVec;
use efi_base::{Ip4, Name};
use itoa::Buffer;

/// What stands behind the octets of an address.
const REVERSE: &[u8] = b"in-addr.arpa";

/// The most octets of an address's name: four numbers of three digits, their dots, and what stands behind them.
const MOST_POINTER: usize = 28;

/// The question of the address of a name, by a server that asks on.
pub fn address_question(id: u16, name: Name) -> Query
    ensures { result ≡ address_question id name }
{
    Query {
        id,
        rd: true,
        name,
        kind: A,
    }
}

/// The question of the name of an address: its four octets, the last first, in front of `in-addr.arpa`.
pub fn pointer_question(id: u16, ip: Ip4) -> Query
    ensures is { result ≡ pointer_question id ip.0 }
    ensures name { IsTrue (is_name result.name) }
{
    Query {
        id,
        rd: true,
        name: pointer_name(ip.0),
        kind: PTR,
    }
}

#[tactic(auto, unfolding(crate::specs::Questions::pointer_name))]
fn pointer_name(ip: u32) -> Name
    ensures is { result ≡ pointer_name ip }
    ensures fits { ip < 2 ^ 32 }
{
    let mut text = ArrayVec::new();
    put_octet(ip % 256, &mut text);
    put_octet(ip / 256 % 256, &mut text);
    put_octet(ip / 65536 % 256, &mut text);
    put_octet(ip / 16_777_216, &mut text);
    put(REVERSE, &mut text);
    Name::from_slice(text.as_slice())
}

/// Puts a number of at most three digits and a dot behind the text.
fn put_octet(number: u32, text: &mut ArrayVec<u8, MOST_POINTER>)
    requires octet { number < 256 }
    requires room { length text.old.items + 4 ≤ MOST_POINTER }
    ensures put { text.new.items ≡ text.old.items ++ octet_label number }
    ensures short { length text.new.items ≤ length text.old.items + 4 }
{
    let mut digits = Buffer::new();
    put(digits.format(number).as_bytes(), text);
    put(b".", text);
}

/// Puts octets behind the text.
fn put(octets: &[u8], text: &mut ArrayVec<u8, MOST_POINTER>)
    requires { length text.old.items + length octets.now ≤ MOST_POINTER }
    ensures put { text.new.items ≡ text.old.items ++ octets.now }
    ensures len { length text.new.items ≡ length text.old.items + length octets.now }
{
    match text.try_extend_from_slice(octets) {
        Ok(()) => {}
        Err(_) => unreachable!(),
    }
}
