//! What an answer says of a name: its address, or the name to which it points (RFC 1034, section 3.6.2).
ghost use Rattle.std.specs.Prelude.{◌≡◌, unwrap_or};
ghost use Rattle.std.specs.Str.{str_eq_ignore_ascii_case};
ghost use Rattle.wire_dns.specs.Found.{of_name, said_by, alias_in, address_in, pointer_in, reached, timed_address, address_of, pointed_name, name_of, is_answer_to, said_to};
ghost use Rattle.wire_dns.specs.Rows.{list_of};

use crate::entry::{Rows, next_row};
use crate::message::{Answer, Query, read_answer};
use crate::row::{Row, RowValue};
use efi_base::{Ip4, Name, is_unicast};

/// The most steps from a name to that of which it is an alias.
const MOST_STEPS: u8 = 8;

/// What an answer says to the question of an address.
#[derive(Clone, Copy, PartialEq, Eq, Debug)]
pub enum Found {
    /// The name has this address.
    At(Ip4),
    /// The server answered with this code (RFC 1035, section 4.1.1).
    NameError(u8),
    /// The answer has no address of the name, or was cut.
    NoAddress,
}

/// What an answer says to the question of the name of an address.
#[derive(Debug, Drop)]
pub enum FoundName {
    /// The address has this name.
    Named(Name),
    /// The server answered with this code.
    NameError(u8),
    /// The answer has no name of the address, or was cut.
    NoName,
}

/// An address, and the seconds for which it holds.
#[derive(Clone, Copy, PartialEq, Eq, Debug)]
pub struct TimedAddress {
    pub ip: Ip4,
    pub secs: u32,
}

/// The address of the name: the first unicast one of the name that is reached by at most 8 steps from alias to name.
pub fn address(a: &Answer, name: &Name) -> Found
    ensures { result ≡ address_of a.now name.now }
{
    if a.code() != 0 {
        return Found::NameError(a.code());
    }
    match timed_address(a, name) {
        Some(found) => Found::At(found.ip),
        None => Found::NoAddress,
    }
}

/// The address of the name, with its seconds.
#[tactic(auto, unfolding(crate::specs::Found::timed_address))]
pub fn timed_address(a: &Answer, name: &Name) -> Option<TimedAddress>
    ensures { result ≡ timed_address a.now name.now }
{
    if a.code() != 0 || a.tc() {
        return None;
    }
    let rows = a.rows();
    match reached(rows, name.as_slice()) {
        Some(last) => address_of(rows, last.as_slice()),
        None => address_of(rows, name.as_slice()),
    }
}

/// The name to which the name points, by the same steps.
pub fn pointer(a: &Answer, name: &Name) -> FoundName
    ensures { result ≡ name_of a.now name.now }
{
    if a.code() != 0 {
        return FoundName::NameError(a.code());
    }
    match pointed_name(a, name) {
        Some(found) => FoundName::Named(found),
        None => FoundName::NoName,
    }
}

#[tactic(auto, unfolding(crate::specs::Found::pointed_name))]
fn pointed_name(a: &Answer, name: &Name) -> Option<Name>
    ensures { result ≡ pointed_name a.now name.now }
{
    if a.code() != 0 || a.tc() {
        return None;
    }
    let rows = a.rows();
    match reached(rows, name.as_slice()) {
        Some(last) => pointer_of(rows, last.as_slice()),
        None => pointer_of(rows, name.as_slice()),
    }
}

/// Whether the answer has the id and the question of the query. Case makes no difference.
pub fn is_answer_to(a: &Answer, q: &Query) -> bool
    ensures { result ≡ is_answer_to a.now q.now }
{
    let asked = a.query();
    asked.id == q.id && asked.kind == q.kind && is_same(asked.name.as_slice(), q.name.as_slice())
}

/// What the octets say to the query for an address. None where they are no answer to it.
pub fn address_said(octets: &[u8], q: &Query) -> Option<Found>
    ensures { result ≡ said_to address_of octets.now q.now }
{
    let Ok(a) = read_answer(octets) else {
        return None;
    };
    if !is_answer_to(&a, q) {
        return None;
    }
    Some(address(&a, &q.name))
}

/// What the octets say to the query for a name. None where they are no answer to it.
pub fn name_said(octets: &[u8], q: &Query) -> Option<FoundName>
    ensures { result ≡ said_to name_of octets.now q.now }
{
    let Ok(a) = read_answer(octets) else {
        return None;
    };
    if !is_answer_to(&a, q) {
        return None;
    }
    Some(pointer(&a, &q.name))
}

/// The name reached by at most 8 steps. None where it is the name itself.
fn reached(rows: Rows<'_>, name: &[u8]) -> Option<Name>
    ensures { reached 8 (list_of rows.entry) name.now ≡ unwrap_or result name.now }
{
    let Some(first) = alias_of(rows, name) else {
        return None;
    };
    let mut last = first;
    let mut steps = MOST_STEPS - 1;
    while steps > 0 {
        match alias_of(rows, last.as_slice()) {
            Some(next) => last = next,
            None => return Some(last),
        }
        steps -= 1;
    }
    Some(last)
}

/// The name of which the name is an alias, by the first row that says so.
fn alias_of(rows: Rows<'_>, name: &[u8]) -> Option<Name>
    ensures { result ≡ of_name alias_in name.now (list_of rows.entry) }
{
    let mut rest = rows;
    while let Some((row, behind)) = next_row(rest) {
        if let Some(next) = alias_by(row, name) {
            return Some(next);
        }
        rest = behind;
    }
    None
}

fn alias_by(row: Row, name: &[u8]) -> Option<Name>
    ensures { result ≡ said_by alias_in name.now row }
{
    if !is_same(row.name.as_slice(), name) {
        return None;
    }
    match row.value {
        RowValue::Alias(next) => Some(next),
        _ => None,
    }
}

/// The first unicast address of the name.
fn address_of(rows: Rows<'_>, name: &[u8]) -> Option<TimedAddress>
    ensures { result ≡ of_name address_in name.now (list_of rows.entry) }
{
    let mut rest = rows;
    while let Some((row, behind)) = next_row(rest) {
        if let Some(found) = address_by(row, name) {
            return Some(found);
        }
        rest = behind;
    }
    None
}

/// The first name to which the name points.
fn pointer_of(rows: Rows<'_>, name: &[u8]) -> Option<Name>
    ensures { result ≡ of_name pointer_in name.now (list_of rows.entry) }
{
    let mut rest = rows;
    while let Some((row, behind)) = next_row(rest) {
        if let Some(found) = pointer_by(row, name) {
            return Some(found);
        }
        rest = behind;
    }
    None
}

fn address_by(row: Row, name: &[u8]) -> Option<TimedAddress>
    ensures { result ≡ said_by address_in name.now row }
{
    let is_of_name = is_same(row.name.as_slice(), name);
    match row.value {
        RowValue::At(ip) if is_of_name && is_unicast(ip) => {
            Some(TimedAddress { ip, secs: row.secs })
        }
        _ => None,
    }
}

fn pointer_by(row: Row, name: &[u8]) -> Option<Name>
    ensures { result ≡ said_by pointer_in name.now row }
{
    if !is_same(row.name.as_slice(), name) {
        return None;
    }
    match row.value {
        RowValue::Pointer(found) => Some(found),
        _ => None,
    }
}

/// Whether the names are the same without case.
fn is_same(a: &[u8], b: &[u8]) -> bool
    ensures { result ≡ str_eq_ignore_ascii_case a.now b.now }
{
    a.eq_ignore_ascii_case(b)
}
