//! The line in front of a chunk (RFC 9112, section 7.1), an octet at a time, within its limits.
ghost use Rattle.std.specs.Prelude.{◌≡◌, ◌≤◌, ◌^◌};
ghost use Rattle.wire_http.specs.Stages.{after_size, next_place, with_digit, next_size, ends_line, least_line, digits_at, fits_line};

use crate::text::is_blank;
use httparse::parse_hex_digit;

/// The most octets of a chunk line, its CR and LF counted in.
const MOST_LINE: usize = 256;

/// The largest chunk.
const MOST_SIZE: u64 = 2_147_483_648;

/// The most digits of a size.
const MOST_DIGITS: usize = 16;

/// Where in a chunk line the next octet stands.
#[derive(Clone, Copy, PartialEq, Eq, Debug)]
pub enum LinePlace {
    /// At the first digit.
    Start,
    /// Behind a digit.
    Size,
    /// Behind a blank that follows the digits.
    Pad,
    /// In the extension.
    Extension,
    /// Behind the CR.
    Return,
}

fn after_size(byte: u8) -> Option<LinePlace>
    ensures { result ≡ after_size byte }
{
    if is_blank(byte) {
        return Some(LinePlace::Pad);
    }
    match byte {
        b';' => Some(LinePlace::Extension),
        b'\r' => Some(LinePlace::Return),
        _ => None,
    }
}

fn in_extension(byte: u8) -> Option<LinePlace>
    ensures { result ≡ next_place LinePlace.Extension byte }
{
    match byte {
        b'\r' => Some(LinePlace::Return),
        b'\n' => None,
        _ => Some(LinePlace::Extension),
    }
}

/// The place behind one more octet of the grammar.
pub fn next_place(place: LinePlace, byte: u8) -> Option<LinePlace>
    ensures { result ≡ next_place place byte }
{
    match place {
        LinePlace::Start if byte.is_ascii_hexdigit() => Some(LinePlace::Size),
        LinePlace::Start => None,
        LinePlace::Size if byte.is_ascii_hexdigit() => Some(LinePlace::Size),
        LinePlace::Size => after_size(byte),
        LinePlace::Pad => after_size(byte),
        LinePlace::Extension => in_extension(byte),
        LinePlace::Return => None,
    }
}

/// The size behind one more octet, which may be a digit.
fn with_digit(size: u32, byte: u8) -> u64
    ensures { result ≡ with_digit size byte }
{
    match parse_hex_digit(byte) {
        Some(digit) => u64::from(size) * 16 + digit,
        None => u64::from(size),
    }
}

/// The size behind one more octet.
pub fn next_size(place: LinePlace, size: u32, byte: u8) -> u64
    ensures { result ≡ next_size place size byte }
{
    match place {
        LinePlace::Start | LinePlace::Size => with_digit(size, byte),
        _ => u64::from(size),
    }
}

/// Whether the octet ends the line.
pub fn ends_line(place: LinePlace, byte: u8) -> bool
    ensures { result ≡ ends_line place byte }
{
    match place {
        LinePlace::Return => byte == b'\n',
        _ => false,
    }
}

/// The fewest octets that a line still needs.
fn least_line(place: LinePlace) -> usize
    ensures { result ≡ least_line place }
{
    match place {
        LinePlace::Start => 3,
        LinePlace::Size | LinePlace::Pad | LinePlace::Extension => 2,
        LinePlace::Return => 1,
    }
}

/// The digits that an unfinished size has.
fn digits_at(place: LinePlace, len: usize) -> usize
    ensures { result ≡ digits_at place len }
{
    match place {
        LinePlace::Size => len,
        _ => 0,
    }
}

/// Whether a line of so many octets so far can end within the limits.
pub fn fits_line(place: LinePlace, size: u64, len: usize) -> bool
    requires { len ≤ 2 ^ 17 }
    ensures { result ≡ fits_line place size len }
{
    len + least_line(place) <= MOST_LINE
        && size <= MOST_SIZE
        && digits_at(place, len) <= MOST_DIGITS
}
