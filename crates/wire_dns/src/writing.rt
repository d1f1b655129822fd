//! Queries and answers as octets (RFC 1035, section 4.1), without pointers. An answer of more than 512 octets is cut to its
//! question.
ghost use Rattle.std.specs.Prelude.{◌≡◌, ◌+◌, ◌<◌, ◌≤◌, ◌≢◌, ◌∷◌, ◌++◌, ℕ, [], true, false, length, slice_index, IfNone, IfSome, IsTrue};
ghost use Rattle.std.specs.List.{list_all};
ghost use Rattle.byteorder.specs.Endian.{big_bytes};
ghost use Rattle.efi_base.specs.HostNames.{labels};
ghost use Rattle.efi_base.specs.Writes.{Writes};
ghost use Rattle.wire_dns.specs.Left.{labels_left, size_left};
ghost use Rattle.wire_dns.specs.Spelling.{name_text, is_name, header_text, flag, question_text, query_text, kind_of, value_text, fixed_text, row_text, rows_text, whole_text, answer_text, is_value, is_row};

use crate::entry::{A, CNAME, IN, PTR};
use crate::message::{HEADER, Query};
use crate::row::{Row, RowValue};
use arrayvec::ArrayVec;
use byteorder::{BigEndian, ByteOrder};
use efi_base::{Name, NoRoom, put_parts};

/// The most octets of a message behind its header, where it isn't cut.
const MOST_REST: usize = 500;

/// What stands behind a header.
type Rest = ArrayVec<u8, MOST_REST>;

/// Writes a query to the front of the room, and answers how many octets it has.
pub fn write_query(q: &Query, room: &mut [u8]) -> Result<usize, NoRoom>
    requires { IsTrue (is_name q.now.name) }
    ensures writes { Writes (query_text q.now) room.old result room.new }
{
    let header = header_of(q.id, flag(q.rd, 0x0100), 0);
    match rest_of(q, &[]) {
        Some(rest) => put_parts(&header, rest.as_slice(), room),
        None => Err(NoRoom),
    }
}

/// Writes an answer to the front of the room, and answers how many octets it has. One of more than 512 octets is cut to its
/// question, and says so.
pub fn write_answer(
    q: &Query,
    tc: bool,
    code: u8,
    rows: &[Row],
    room: &mut [u8],
) -> Result<usize, NoRoom>
    requires name { IsTrue (is_name q.now.name) }
    requires code { code < 16 }
    requires few { length rows.now < 65536 }
    requires rows { IsTrue (list_all is_row rows.now) }
    ensures writes { Writes (answer_text q.now tc code rows.now) room.old result room.new }
{
    match rest_of(q, rows) {
        Some(rest) => {
            let header = header_of(q.id, answer_flags(q.rd, tc, code), rows.len() as u16);
            put_parts(&header, rest.as_slice(), room)
        }
        None => write_cut(q, code, room),
    }
}

/// Writes an answer without its rows.
fn write_cut(q: &Query, code: u8, room: &mut [u8]) -> Result<usize, NoRoom>
    requires name { IsTrue (is_name q.now.name) }
    requires code { code < 16 }
    ensures { Writes (whole_text q.now true code []) room.old result room.new }
{
    let header = header_of(q.id, answer_flags(q.rd, true, code), 0);
    match rest_of(q, &[]) {
        Some(rest) => put_parts(&header, rest.as_slice(), room),
        None => Err(NoRoom),
    }
}

/// The flags of an answer.
fn answer_flags(rd: bool, tc: bool, code: u8) -> u16
    requires { code < 16 }
    ensures { result ≡ 32768 + flag tc 512 + flag rd 256 + code }
{
    0x8000 + flag(tc, 0x0200) + flag(rd, 0x0100) + code as u16
}

fn flag(set: bool, value: u16) -> u16
    ensures { result ≡ flag set value }
{
    if set { value } else { 0 }
}

/// A header with these flags, one question and so many answers.
fn header_of(id: u16, flags: u16, answers: u16) -> [u8; HEADER]
    ensures { result ≡ header_text id flags answers }
{
    let mut header = [0; HEADER];
    BigEndian::write_u16(&mut header, id);
    BigEndian::write_u16(&mut header[2..], flags);
    BigEndian::write_u16(&mut header[4..], 1);
    BigEndian::write_u16(&mut header[6..], answers);
    header
}

/// A question and rows. None where they are over 500 octets.
fn rest_of(q: &Query, rows: &[Row]) -> Option<Rest>
    requires name { IsTrue (is_name q.now.name) }
    requires rows { IsTrue (list_all is_row rows.now) }
    ensures some { IfSome result (λ rest. rest.items ≡ question_text q.now ++ rows_text rows.now) }
    ensures none { IfNone result (MOST_REST < length (question_text q.now ++ rows_text rows.now)) }
{
    let mut rest = ArrayVec::new();
    if !put_question(q, &mut rest) {
        return None;
    }
    if !put_rows(rows, &mut rest) {
        return None;
    }
    Some(rest)
}

/// Puts a question behind the rest. False where it doesn't fit.
fn put_question(q: &Query, rest: &mut Rest) -> bool
    requires { IsTrue (is_name q.now.name) }
    ensures put { IsTrue result → rest.new.items ≡ rest.old.items ++ question_text q.now }
    ensures full { result ≡ false → MOST_REST < length rest.old.items + length (question_text q.now) }
{
    if !put_name(q.name.as_slice(), rest) {
        return false;
    }
    let mut behind = [0; 4];
    BigEndian::write_u16(&mut behind, q.kind);
    BigEndian::write_u16(&mut behind[2..], IN);
    put(&behind, rest)
}

/// Puts rows behind the rest.
fn put_rows(rows: &[Row], rest: &mut Rest) -> bool
    requires { IsTrue (list_all is_row rows.now) }
    ensures put { IsTrue result → rest.new.items ≡ rest.old.items ++ rows_text rows.now }
    ensures full { result ≡ false → MOST_REST < length rest.old.items + length (rows_text rows.now) }
{
    for row in rows {
        if !put_row(row, rest) {
            return false;
        }
    }
    true
}

/// Puts a row behind the rest.
#[tactic(auto, unfolding(crate::specs::Spelling::row_text))]
fn put_row(row: &Row, rest: &mut Rest) -> bool
    requires { IsTrue (is_row row.now) }
    ensures put { IsTrue result → rest.new.items ≡ rest.old.items ++ row_text row.now }
    ensures full { result ≡ false → MOST_REST < length rest.old.items + length (row_text row.now) }
{
    if !put_name(row.name.as_slice(), rest) {
        return false;
    }
    put_value(row.secs, &row.value, rest)
}

/// Puts what follows a row's name behind the rest.
fn put_value(secs: u32, value: &RowValue, rest: &mut Rest) -> bool
    requires { IsTrue (is_value value.now) }
    ensures put { IsTrue result → rest.new.items ≡ rest.old.items ++ (fixed_text (kind_of value.now) secs (length (value_text value.now)) ++ value_text value.now) }
    ensures full { result ≡ false → MOST_REST < length rest.old.items + length (fixed_text (kind_of value.now) secs (length (value_text value.now)) ++ value_text value.now) }
{
    match value {
        RowValue::At(ip) => {
            let mut octets = [0; 4];
            BigEndian::write_u32(&mut octets, ip.0);
            put(&fixed_of(A, secs, 4), rest) && put(&octets, rest)
        }
        RowValue::Alias(name) => {
            put(&fixed_of(CNAME, secs, name_size(name)), rest) && put_name(name.as_slice(), rest)
        }
        RowValue::Pointer(name) => {
            put(&fixed_of(PTR, secs, name_size(name)), rest) && put_name(name.as_slice(), rest)
        }
    }
}

/// Type, class, seconds and size.
fn fixed_of(kind: u16, secs: u32, size: u16) -> [u8; 10]
    ensures { result ≡ fixed_text kind secs size }
{
    let mut fixed = [0; 10];
    BigEndian::write_u16(&mut fixed, kind);
    BigEndian::write_u16(&mut fixed[2..], IN);
    BigEndian::write_u32(&mut fixed[4..], secs);
    BigEndian::write_u16(&mut fixed[8..], size);
    fixed
}

/// How many octets a name has where it is written.
fn name_size(name: &Name) -> u16
    requires { IsTrue (is_name name.now) }
    ensures { result ≡ length (name_text name.now) }
{
    match name.as_slice() {
        [] => 1,
        text => text.len() as u16 + 2,
    }
}

/// Puts a name behind the rest.
fn put_name(name: &[u8], rest: &mut Rest) -> bool
    requires { IsTrue (is_name name.now) }
    ensures put { IsTrue result → rest.new.items ≡ rest.old.items ++ name_text name.now }
    ensures full { result ≡ false → MOST_REST < length rest.old.items + length (name_text name.now) }
{
    if name.is_empty() {
        return put(&[0], rest);
    }
    let mut left = Some(name);
    while let Some(text) = left {
        let (label, behind) = next_label(text);
        if !put_label(label, rest) {
            return false;
        }
        left = behind;
    }
    put(&[0], rest)
}

/// The first label, and what stands behind its dot.
fn next_label(text: &[u8]) -> (&[u8], Option<&[u8]>)
    ensures labels { labels text.now ≡ result.0.now ∷ labels_left result.1 }
    ensures shorter { size_left result.1 ≤ length text.now }
{
    let end = dot_at(text);
    if end == text.len() {
        return (text, None);
    }
    (&text[..end], Some(&text[end + 1..]))
}

/// Puts a label with its length behind the rest.
fn put_label(label: &[u8], rest: &mut Rest) -> bool
    requires { length label.now ≤ 63 }
    ensures put { IsTrue result → rest.new.items ≡ rest.old.items ++ (length label.now ∷ label.now) }
    ensures full { result ≡ false → MOST_REST < length rest.old.items + (1 + length label.now) }
{
    if !put(&[label.len() as u8], rest) {
        return false;
    }
    put(label, rest)
}

/// The place of the first dot, or the length.
fn dot_at(text: &[u8]) -> usize
    ensures within { result ≤ length text.now }
    ensures before { (k : ℕ) → k < result → slice_index text.now k ≢ 46 }
    ensures at { result < length text.now → slice_index text.now result ≡ 46 }
{
    for (i, octet) in text.iter().enumerate() {
        if *octet == b'.' {
            return i;
        }
    }
    text.len()
}

/// Puts octets behind the rest. False where they don't fit, which leaves it.
fn put(octets: &[u8], rest: &mut Rest) -> bool
    ensures put { IsTrue result → rest.new.items ≡ rest.old.items ++ octets.now }
    ensures full { result ≡ false → MOST_REST < length rest.old.items + length octets.now }
{
    match rest.try_extend_from_slice(octets) {
        Ok(()) => true,
        Err(_) => false,
    }
}
