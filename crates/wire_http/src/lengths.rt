//! The numbers of Content-Length: digits, comma lists of them, and what several state together (RFC 9110,
//! section 8.6).
ghost use Rattle.std.specs.Prelude.{◌≡◌, ◌≢◌, ◌<◌, ◌≤◌, ◌∷◌, [], ℕ, length, slice_index, IfSome, MatchOption};
ghost use Rattle.wire_http.specs.Fields.{length_number, elements};
ghost use Rattle.wire_http.specs.Walk.{joined, joined_all};

use crate::head::Framing;
use crate::text::trim;

/// The most digits of a length: each number of so many fits 64 bits.
const MOST_DIGITS: usize = 19;

/// The number of a text that is digits alone.
pub fn length_number(text: &[u8]) -> Option<u64>
    ensures { result ≡ length_number text.now }
{
    if text.is_empty() || text.len() > MOST_DIGITS {
        return None;
    }
    let mut number: u64 = 0;
    for digit in text {
        if !digit.is_ascii_digit() {
            return None;
        }
        number = number * 10 + u64::from(*digit - b'0');
    }
    Some(number)
}

/// What is stated by one more text.
fn join(so_far: Framing, text: &[u8]) -> Framing
    ensures { result ≡ joined so_far text.now }
{
    let Some(number) = length_number(text) else {
        return Framing::BadLength;
    };
    match so_far {
        Framing::Close => Framing::Length(number),
        Framing::Length(stated) if stated == number => so_far,
        _ => Framing::BadLength,
    }
}

/// The place of the first comma, or the length.
fn comma_at(text: &[u8]) -> usize
    ensures within { result ≤ length text.now }
    ensures before { (k : ℕ) → k < result → slice_index text.now k ≢ 44 }
    ensures at { result < length text.now → slice_index text.now result ≡ 44 }
{
    for (i, byte) in text.iter().enumerate() {
        if *byte == b',' {
            return i;
        }
    }
    text.len()
}

/// The first element of a comma list, and what follows its comma if there is one.
fn first_element(text: &[u8]) -> (&[u8], Option<&[u8]>)
    ensures first { MatchOption result.1 (elements text.now ≡ result.0.now ∷ [])
        (λ after. elements text.now ≡ result.0.now ∷ elements after.now) }
    ensures shorter { IfSome result.1 (λ after. length after.now < length text.now) }
{
    let end = comma_at(text);
    let element = trim(&text[..end]);
    if end == text.len() {
        return (element, None);
    }
    (element, Some(&text[end + 1..]))
}

/// What is stated by the elements of one more value.
pub fn join_elements(so_far: Framing, value: &[u8]) -> Framing
    ensures { result ≡ joined_all so_far (elements value.now) }
{
    let mut stated = so_far;
    let mut rest = value;
    loop {
        let (element, after) = first_element(rest);
        stated = join(stated, element);
        match after {
            Some(after) => rest = after,
            None => return stated,
        }
    }
}
