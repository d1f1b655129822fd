//! The head of a response (RFC 9112, section 4): its status, and what its fields say of the body.
ghost use Rattle.std.specs.Prelude.{◌≡◌, ◌≤◌, ℕ, List, length, All};
ghost use Rattle.httparse.specs.Grammar.{ResponseHead};
ghost use Rattle.httparse.specs.Spans.{IsHeaderWithin};
ghost use Rattle.wire_http.specs.Heads.{ReadsHead};
ghost use Rattle.wire_http.specs.Fields.{locations};
ghost use Rattle.wire_http.specs.Info.{IsInfo, IsOneAt, HeadIs, IfWhole, IsWholeAnd, MayBecomeHead, NeverHasHead};
ghost use Rattle.wire_http.specs.Walk.{fields_at};

use crate::fields::{coding, framing, location};
use crate::lines::fields_begun;
use efi_base::CodingField;
use httparse::Status;
use httparse::spans::{EMPTY_HEADER_SPAN, HeaderSpan, parse_response};

/// The most octets of all heads of a response together.
pub const MOST_HEAD: usize = 16_384;

/// The most fields of a head.
const MOST_FIELDS: usize = 64;

/// How a body is framed (RFC 9112, section 6.3).
#[derive(Clone, Copy, PartialEq, Eq, Debug)]
pub enum Framing {
    /// There is no body.
    Empty,
    /// So many octets.
    Length(u64),
    /// Chunks, a last chunk and a trailer.
    Chunked,
    /// All octets until the stream's end.
    Close,
    /// A length was stated that is no number of 1 to 19 digits, or two that differ.
    BadLength,
}

/// What a head says.
#[derive(Clone, Copy, PartialEq, Eq, Debug)]
pub struct HeadInfo {
    /// The three digits of the status line.
    pub status: u16,
    pub framing: Framing,
    pub coding: Option<CodingField>,
    /// Where the value of the one field Location begins (RFC 9110, section 10.2.2), and its length, in octets of the
    /// head; none where there isn't exactly one.
    pub location: Option<(usize, usize)>,
}

/// What stands at the front of the octets.
#[derive(Clone, Copy, PartialEq, Eq, Debug)]
pub enum Head {
    /// A head, with its length in octets.
    Whole(HeadInfo, usize),
    /// The front of a head.
    More,
    /// No head, whatever follows.
    Bad,
}

/// Reads a head of at most 64 fields.
pub fn read_head(bytes: &[u8]) -> Head
    ensures whole { IfWhole result (λ info n. (head : ResponseHead) × HeadIs bytes.now head info n) }
    ensures found { (head : ResponseHead) (rest : List ℕ) → ReadsHead bytes.now head rest
        → IsWholeAnd result (HeadIs bytes.now head) }
    ensures more { result ≡ Head.More → MayBecomeHead bytes.now }
    ensures bad { result ≡ Head.Bad → NeverHasHead bytes.now }
{
    let mut room = [EMPTY_HEADER_SPAN; MOST_FIELDS];
    read_into(bytes, &mut room)
}

/// The same, with room for the fields.
fn read_into(bytes: &[u8], room: &mut [HeaderSpan]) -> Head
    requires { length room.old ≡ MOST_FIELDS }
    ensures whole { IfWhole result (λ info n. (head : ResponseHead) × HeadIs bytes.now head info n) }
    ensures found { (head : ResponseHead) (rest : List ℕ) → ReadsHead bytes.now head rest
        → IsWholeAnd result (HeadIs bytes.now head) }
    ensures more { result ≡ Head.More → MayBecomeHead bytes.now }
    ensures bad { result ≡ Head.Bad → NeverHasHead bytes.now }
{
    match parse_response(bytes, room) {
        Ok(Status::Complete(head)) => {
            Head::Whole(info_of(bytes, &room[..head.headers], head.code), head.len)
        }
        Ok(Status::Partial) if fields_begun(bytes) <= MOST_FIELDS => Head::More,
        _ => Head::Bad,
    }
}

fn info_of(bytes: &[u8], spans: &[HeaderSpan], status: u16) -> HeadInfo
    requires within { All (IsHeaderWithin (length bytes.now)) spans.now }
    ensures says { IsInfo result status (fields_at bytes.now spans.now) }
    ensures location { IsOneAt bytes.now result.location (locations (fields_at bytes.now spans.now)) }
{
    HeadInfo {
        status,
        framing: framing(bytes, spans, status),
        coding: coding(bytes, spans),
        location: location(bytes, spans),
    }
}
