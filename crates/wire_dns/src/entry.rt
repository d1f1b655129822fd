//! The records of a message where they lie, and the rows that they show, one after the other (RFC 1035, section 4.1.3).
ghost use Rattle.std.specs.Prelude.{◌≡◌, ℕ, ◌+◌, ◌<◌, ◌≤◌, ◌∷◌, [], length, false, IfSome, IfNone};
ghost use Rattle.efi_base.specs.Reads.{ReadsAs};
ghost use Rattle.wire_dns.specs.Rows.{entry_at, entry_from, value_of, name_value, row_of, are_within, are_answers, list_of};

use crate::names::read_name;
use crate::row::{Row, RowValue};
use efi_base::{Bad, Ip4, Name, u16_at, u32_at};

/// The class IN.
pub(crate) const IN: u16 = 1;

/// The types of rows that are shown.
pub(crate) const A: u16 = 1;

pub(crate) const CNAME: u16 = 5;

pub(crate) const PTR: u16 = 12;

/// The octets between a record's name and its value.
const FIXED: usize = 10;

/// A record: its owner's name, its type, class and seconds, and the place and size of its value.
#[derive(Debug, Drop)]
pub(crate) struct Entry {
    pub(crate) owner: Name,
    pub(crate) kind: u16,
    pub(crate) class: u16,
    pub(crate) secs: u32,
    pub(crate) from: usize,
    pub(crate) size: usize,
}

/// A walk over records: the message, how many are left, and where the next one begins.
#[derive(Clone, Copy, Debug)]
pub(crate) struct Rows<'a> {
    pub(crate) octets: &'a [u8],
    pub(crate) left: u16,
    pub(crate) place: usize,
}

/// The next row that is shown, and the walk behind it. None where there is none.
pub(crate) fn next_row<'a>(rows: Rows<'a>) -> Option<(Row, Rows<'a>)>
    ensures some { IfSome result (λ n. list_of rows.entry ≡ n.0 ∷ list_of n.1) }
    ensures less { IfSome result (λ n. n.1.left < rows.entry.left) }
    ensures none { IfNone result (list_of rows.entry ≡ []) }
{
    let octets = rows.octets;
    let mut left = rows.left;
    let mut place = rows.place;
    while left > 0 {
        let Some(entry) = entry_at(octets, place) else {
            return None;
        };
        left -= 1;
        place = entry.from + entry.size;
        if let Some(row) = row_of(octets, entry) {
            return Some((
                row,
                Rows {
                    octets,
                    left,
                    place,
                },
            ));
        }
    }
    None
}

/// The place behind so many answers. None where one isn't within the octets, or says what its type can't say.
pub(crate) fn behind_answers(octets: &[u8], count: u16, at: usize) -> Option<usize>
    ensures some { IfSome result (λ place. (others : ℕ) → are_answers octets.now others count at ≡ are_within octets.now others place) }
    ensures none { IfNone result ((others : ℕ) → are_answers octets.now others count at ≡ false) }
{
    let mut left = count;
    let mut place = at;
    while left > 0 {
        let Some(entry) = entry_at(octets, place) else {
            return None;
        };
        if let Err(_) = value_of(octets, &entry) {
            return None;
        }
        left -= 1;
        place = entry.from + entry.size;
    }
    Some(place)
}

/// Whether so many records lie within the octets from this place on.
pub(crate) fn are_within(octets: &[u8], count: u32, at: usize) -> bool
    ensures { result ≡ are_within octets.now count at }
{
    let mut left = count;
    let mut place = at;
    while left > 0 {
        let Some(entry) = entry_at(octets, place) else {
            return false;
        };
        left -= 1;
        place = entry.from + entry.size;
    }
    true
}

/// The record at this place.
#[tactic(auto, unfolding(crate::specs::Rows::entry_at))]
fn entry_at(msg: &[u8], place: usize) -> Option<Entry>
    ensures at { result ≡ entry_at msg.now place }
    ensures within { IfSome result (λ e. e.from + e.size ≤ length msg.now) }
{
    match read_name(msg, place) {
        Ok((owner, behind)) => entry_behind(msg, owner, behind),
        Err(_) => None,
    }
}

/// The record whose name ends at this place.
fn entry_behind(msg: &[u8], owner: Name, place: usize) -> Option<Entry>
    requires { place ≤ length msg.now }
    ensures at { result ≡ entry_from msg.now (owner, place) }
    ensures within { IfSome result (λ e. e.from + e.size ≤ length msg.now) }
{
    if msg.len() - place < FIXED {
        return None;
    }
    let size = u16_at(msg, place + 8) as usize;
    if msg.len() - place - FIXED < size {
        return None;
    }
    Some(Entry {
        owner,
        kind: u16_at(msg, place),
        class: u16_at(msg, place + 2),
        secs: u32_at(msg, place + 4),
        from: place + FIXED,
        size,
    })
}

/// The row that a record shows.
fn row_of(msg: &[u8], entry: Entry) -> Option<Row>
    requires { entry.from + entry.size ≤ length msg.now }
    ensures { result ≡ row_of msg.now entry }
{
    match value_of(msg, &entry) {
        Ok(Some(value)) => Some(Row {
            name: entry.owner,
            secs: entry.secs,
            value,
        }),
        Ok(None) => None,
        Err(_) => None,
    }
}

/// What a record says: nothing where it isn't of class IN or of another type.
#[tactic(auto, unfolding(crate::specs::Rows::value_of))]
fn value_of(msg: &[u8], entry: &Entry) -> Result<Option<RowValue>, Bad>
    requires { entry.now.from + entry.now.size ≤ length msg.now }
    ensures { ReadsAs (λ v. v) result (value_of msg.now entry.now) }
{
    if entry.class != IN {
        return Ok(None);
    }
    match entry.kind {
        A => {
            if entry.size != 4 {
                return Err(Bad);
            }
            Ok(Some(RowValue::At(Ip4(u32_at(msg, entry.from)))))
        }
        CNAME => match name_value(msg, entry) {
            Some(name) => Ok(Some(RowValue::Alias(name))),
            None => Err(Bad),
        },
        PTR => match name_value(msg, entry) {
            Some(name) => Ok(Some(RowValue::Pointer(name))),
            None => Err(Bad),
        },
        _ => Ok(None),
    }
}

/// The name that fills a record's value.
fn name_value(msg: &[u8], entry: &Entry) -> Option<Name>
    requires { entry.now.from + entry.now.size ≤ length msg.now }
    ensures { result ≡ name_value msg.now entry.now }
{
    let Ok((name, behind)) = read_name(msg, entry.from) else {
        return None;
    };
    if behind != entry.from + entry.size {
        return None;
    }
    Some(name)
}
