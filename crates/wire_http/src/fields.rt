//! What the fields of a head say: codings and framing of its body, and where else it is.
ghost use Rattle.std.specs.Prelude.{◌≡◌, length, All};
ghost use Rattle.httparse.specs.Spans.{IsHeaderWithin};
ghost use Rattle.wire_http.specs.Fields.{values, is_one, is_none_or_one, coding_of, framing_of, framing_by_lengths, has_no_body, locations};
ghost use Rattle.wire_http.specs.Info.{IsOneAt};
ghost use Rattle.wire_http.specs.Walk.{fields_at, ShowsValues};

use crate::head::Framing;
use crate::lengths::join_elements;
use crate::text::same_word;
use efi_base::CodingField;
use httparse::spans::{HeaderSpan, Span};

/// The values of the fields of one name.
#[derive(Clone, Copy)]
pub enum Values {
    Nothing,
    One(Span),
    Several,
}

fn values_of(buf: &[u8], spans: &[HeaderSpan], name: &[u8]) -> Values
    requires within { All (IsHeaderWithin (length buf.now)) spans.now }
    ensures { ShowsValues buf.now result (values name.now (fields_at buf.now spans.now)) }
{
    let mut found = Values::Nothing;
    for span in spans {
        if same_word(span.name.of(buf), name) {
            found = match found {
                Values::Nothing => Values::One(span.value),
                _ => Values::Several,
            };
        }
    }
    found
}

fn is_one_word(buf: &[u8], spans: &[HeaderSpan], name: &[u8], word: &[u8]) -> bool
    requires within { All (IsHeaderWithin (length buf.now)) spans.now }
    ensures { result ≡ is_one word.now (values name.now (fields_at buf.now spans.now)) }
{
    match values_of(buf, spans, name) {
        Values::One(value) => same_word(value.of(buf), word),
        _ => false,
    }
}

fn is_none_or_one_word(buf: &[u8], spans: &[HeaderSpan], name: &[u8], word: &[u8]) -> bool
    requires within { All (IsHeaderWithin (length buf.now)) spans.now }
    ensures { result ≡ is_none_or_one word.now (values name.now (fields_at buf.now spans.now)) }
{
    match values_of(buf, spans, name) {
        Values::Nothing => true,
        Values::One(value) => same_word(value.of(buf), word),
        Values::Several => false,
    }
}

/// The coding that isn't undone here, if there is one. That of the content is told first.
pub fn coding(buf: &[u8], spans: &[HeaderSpan]) -> Option<CodingField>
    requires within { All (IsHeaderWithin (length buf.now)) spans.now }
    ensures { result ≡ coding_of (fields_at buf.now spans.now) }
{
    if !is_none_or_one_word(buf, spans, b"content-encoding", b"identity") {
        return Some(CodingField::Content);
    }
    if !is_none_or_one_word(buf, spans, b"transfer-encoding", b"chunked") {
        return Some(CodingField::Transfer);
    }
    None
}

/// Where the value of the one field Location begins, and its length.
pub fn location(buf: &[u8], spans: &[HeaderSpan]) -> Option<(usize, usize)>
    requires within { All (IsHeaderWithin (length buf.now)) spans.now }
    ensures { IsOneAt buf.now result (locations (fields_at buf.now spans.now)) }
{
    match values_of(buf, spans, b"location") {
        Values::One(value) => Some((value.start, value.end - value.start)),
        _ => None,
    }
}

/// The length that the Content-Length fields state together, or `Close` where there is none.
fn stated_length(buf: &[u8], spans: &[HeaderSpan], name: &[u8]) -> Framing
    requires within { All (IsHeaderWithin (length buf.now)) spans.now }
    ensures { result ≡ framing_by_lengths (values name.now (fields_at buf.now spans.now)) }
{
    let mut stated = Framing::Close;
    for span in spans {
        if same_word(span.name.of(buf), name) {
            stated = join_elements(stated, span.value.of(buf));
        }
    }
    stated
}

fn has_no_body(status: u16) -> bool
    ensures { result ≡ has_no_body status }
{
    status == 101 || status == 204 || status == 304
}

/// How the body of a response of this status is framed.
pub fn framing(buf: &[u8], spans: &[HeaderSpan], status: u16) -> Framing
    requires within { All (IsHeaderWithin (length buf.now)) spans.now }
    ensures { result ≡ framing_of status (fields_at buf.now spans.now) }
{
    if has_no_body(status) {
        return Framing::Empty;
    }
    if is_one_word(buf, spans, b"transfer-encoding", b"chunked") {
        return Framing::Chunked;
    }
    stated_length(buf, spans, b"content-length")
}
