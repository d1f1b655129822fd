//! Queries and answers (RFC 1035, section 4.1). Their rows lie in the octets; what they say of a name isn't here.
ghost use Rattle.std.specs.Prelude.{◌≡◌, ◌+◌, ◌≤◌, length, IfOk, IfSome, slice_get};
ghost use Rattle.efi_base.specs.Reads.{ReadsAs};
ghost use Rattle.wire_dns.specs.Messages.{query_of, query_from, answer_of, question_in, question_of, has_header, asked, rd_in, tc_in, code_in};
ghost use Rattle.wire_dns.specs.Rows.{list_of};

use crate::entry::{IN, Rows, are_within, behind_answers, next_row};
use crate::names::read_name;
use crate::row::Row;
use efi_base::{Bad, Name, u16_at};
use std::marker::Model;

/// The octets of a header.
pub(crate) const HEADER: usize = 12;

/// The octets of a question behind its name.
const BEHIND_NAME: usize = 4;

/// A question of class IN with its id: the name and the type that are asked for, and whether the server is to ask on.
#[derive(Debug, Drop)]
pub struct Query {
    pub id: u16,
    pub rd: bool,
    pub name: Name,
    pub kind: u16,
}

/// An answer, which lends its octets: its question was read, and its rows are read when they are asked for.
#[derive(Debug, Drop)]
pub struct Answer<'a> {
    octets: &'a [u8],
    name: Name,
    kind_at: usize,
}

impl<'a> Model for Answer<'a> {
    ghost use Rattle.std.specs.Prelude.{◌+◌, ◌≤◌, length};
    ghost use Rattle.wire_dns.specs.Messages.{Message, message_from};

    ghost Value = { Message };

    ghost view = { λ a. message_from a.octets.now (a.name, a.kind_at) };

    ghost invariant = { λ a. (12 ≤ length a.octets.now) × (a.kind_at + 4 ≤ length a.octets.now) × (length a.name ≤ 253) };
}

impl Answer<'_> {
    /// Its id, its bit RD and its question.
    pub fn query(&self) -> Query
        ensures { result ≡ question_of self.now }
    {
        Query {
            id: u16_at(self.octets, 0),
            rd: rd_in(self.octets),
            name: Name::from_slice(self.name.as_slice()),
            kind: u16_at(self.octets, self.kind_at),
        }
    }

    /// Whether it was cut.
    pub fn tc(&self) -> bool
        ensures { result ≡ self.now.tc }
    {
        tc_in(self.octets)
    }

    /// Its code: 0 where there was no error.
    pub fn code(&self) -> u8
        ensures { result ≡ self.now.code }
    {
        code_in(self.octets)
    }

    /// The row at this place of the list of rows of class IN and of the types A, CNAME and PTR, counted from 0.
    pub fn row(&self, n: u32) -> Option<Row>
        ensures { result ≡ slice_get self.now.rows n }
    {
        row_at(self.rows(), n)
    }

    /// The walk over its rows.
    pub(crate) fn rows(&self) -> Rows<'_>
        ensures { list_of result ≡ self.now.rows }
    {
        Rows {
            octets: self.octets,
            left: u16_at(self.octets, 6),
            place: self.kind_at + BEHIND_NAME,
        }
    }
}

/// The row at this place of those before the walk.
fn row_at(rows: Rows<'_>, n: u32) -> Option<Row>
    ensures { result ≡ slice_get (list_of rows.entry) n }
{
    let mut rest = rows;
    let mut before = n;
    while let Some((row, behind)) = next_row(rest) {
        if before == 0 {
            return Some(row);
        }
        before -= 1;
        rest = behind;
    }
    None
}

/// Reads a query. What is behind its question isn't read.
pub fn read_query(octets: &[u8]) -> Result<Query, Bad>
    ensures { ReadsAs (λ q. q) result (query_of octets.now) }
{
    match question_in(octets, 0) {
        Some((name, kind_at)) => Ok(Query {
            id: u16_at(octets, 0),
            rd: rd_in(octets),
            name,
            kind: u16_at(octets, kind_at),
        }),
        None => Err(Bad),
    }
}

/// Reads an answer: all its records lie within the octets, and the answers say what their types can say.
#[tactic(auto, unfolding(crate::specs::Messages::answer_of))]
pub fn read_answer(octets: &[u8]) -> Result<Answer<'_>, Bad>
    ensures { ReadsAs (λ a. a) result (answer_of octets.now) }
{
    let Some((name, kind_at)) = question_in(octets, 16) else {
        return Err(Bad);
    };
    let others = u16_at(octets, 8) as u32 + u16_at(octets, 10) as u32;
    let Some(place) = behind_answers(octets, u16_at(octets, 6), kind_at + BEHIND_NAME) else {
        return Err(Bad);
    };
    if !are_within(octets, others, place) {
        return Err(Bad);
    }
    Ok(Answer {
        octets,
        name,
        kind_at,
    })
}

/// The name that is asked for and the place behind it, where the header has these five highest flags.
#[tactic(auto, unfolding(crate::specs::Messages::question_in))]
fn question_in(octets: &[u8], top: u16) -> Option<(Name, usize)>
    ensures is { result ≡ question_in top octets.now }
    ensures header { IfSome result (λ _. 12 ≤ length octets.now) }
    ensures within { IfSome result (λ q. q.1 + 4 ≤ length octets.now) }
    ensures short { IfSome result (λ q. length q.0 ≤ 253) }
{
    if !has_header(octets, top) {
        return None;
    }
    let Ok((name, kind_at)) = read_name(octets, HEADER) else {
        return None;
    };
    if octets.len() - kind_at < BEHIND_NAME {
        return None;
    }
    if u16_at(octets, kind_at + 2) != IN {
        return None;
    }
    Some((name, kind_at))
}

/// Whether the header has these five highest flags, and one question.
fn has_header(octets: &[u8], top: u16) -> bool
    ensures { result ≡ has_header top octets.now }
{
    if octets.len() < HEADER {
        return false;
    }
    u16_at(octets, 2) / 2048 == top && u16_at(octets, 4) == 1
}

fn rd_in(octets: &[u8]) -> bool
    requires { 12 ≤ length octets.now }
    ensures { result ≡ rd_in octets.now }
{
    u16_at(octets, 2) / 256 % 2 == 1
}

fn tc_in(octets: &[u8]) -> bool
    requires { 12 ≤ length octets.now }
    ensures { result ≡ tc_in octets.now }
{
    u16_at(octets, 2) / 512 % 2 == 1
}

fn code_in(octets: &[u8]) -> u8
    requires { 12 ≤ length octets.now }
    ensures { result ≡ code_in octets.now }
{
    (u16_at(octets, 2) % 16) as u8
}
