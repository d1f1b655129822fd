//! The trailer of a body in chunks (RFC 9112, section 7.1.2), an octet at a time, within its limits.
ghost use Rattle.std.specs.Prelude.{◌≡◌, ◌+◌, ◌≤◌, ◌^◌};
ghost use Rattle.httparse.specs.Grammar.{is_token_byte, is_value_byte};
ghost use Rattle.wire_http.specs.Stages.{next_field_place, ends_trailer, next_fields, least_trailer, fits_trailer};

/// The most octets of a trailer, the empty line at its end counted in.
const MOST_TRAILER: usize = 16_384;

/// The most fields of a trailer.
const MOST_FIELDS: usize = 64;

/// Where in a trailer the next octet stands.
#[derive(Clone, Copy, PartialEq, Eq, Debug)]
pub enum FieldPlace {
    /// At the first octet of a field line, or of the empty line at the end.
    Start,
    /// In a field's name.
    Name,
    /// In a field's value.
    Value,
    /// Behind the CR of a field line.
    Return,
    /// Behind the CR of the empty line.
    Last,
}

/// Whether the octet is one of a field's name (RFC 9110, section 5.6.2).
fn is_name_octet(byte: u8) -> bool
    ensures { result ≡ is_token_byte byte }
{
    byte.is_ascii_alphanumeric() || b"!#$%&'*+-.^_`|~".contains(&byte)
}

/// Whether the octet is one of a field's value.
fn is_value_octet(byte: u8) -> bool
    ensures { result ≡ is_value_byte byte }
{
    byte == b'\t' || (byte >= b' ' && byte != 0x7F)
}

fn from_start(byte: u8) -> Option<FieldPlace>
    ensures { result ≡ next_field_place FieldPlace.Start byte }
{
    if byte == b'\r' {
        return Some(FieldPlace::Last);
    }
    if is_name_octet(byte) {
        return Some(FieldPlace::Name);
    }
    None
}

fn from_name(byte: u8) -> Option<FieldPlace>
    ensures { result ≡ next_field_place FieldPlace.Name byte }
{
    if byte == b':' {
        return Some(FieldPlace::Value);
    }
    if is_name_octet(byte) {
        return Some(FieldPlace::Name);
    }
    None
}

fn from_value(byte: u8) -> Option<FieldPlace>
    ensures { result ≡ next_field_place FieldPlace.Value byte }
{
    match byte {
        b'\n' => Some(FieldPlace::Start),
        b'\r' => Some(FieldPlace::Return),
        _ => if is_value_octet(byte) {
            Some(FieldPlace::Value)
        } else {
            None
        },
    }
}

/// The place behind one more octet of the grammar.
pub fn next_field_place(place: FieldPlace, byte: u8) -> Option<FieldPlace>
    ensures { result ≡ next_field_place place byte }
{
    match place {
        FieldPlace::Start => from_start(byte),
        FieldPlace::Name => from_name(byte),
        FieldPlace::Value => from_value(byte),
        FieldPlace::Return if byte == b'\n' => Some(FieldPlace::Start),
        FieldPlace::Return => None,
        FieldPlace::Last => None,
    }
}

/// Whether the octet ends the trailer.
pub fn ends_trailer(place: FieldPlace, byte: u8) -> bool
    ensures { result ≡ ends_trailer place byte }
{
    match place {
        FieldPlace::Start => byte == b'\n',
        FieldPlace::Last => byte == b'\n',
        _ => false,
    }
}

/// The fields that have begun, behind one more octet.
pub fn next_fields(place: FieldPlace, fields: u8, byte: u8) -> usize
    ensures { result ≡ next_fields place fields byte }
{
    match place {
        FieldPlace::Start if byte != b'\r' => usize::from(fields) + 1,
        _ => usize::from(fields),
    }
}

/// The fewest octets that a trailer still needs.
fn least_trailer(place: FieldPlace) -> usize
    ensures { result ≡ least_trailer place }
{
    match place {
        FieldPlace::Start | FieldPlace::Last => 1,
        FieldPlace::Name => 3,
        FieldPlace::Value | FieldPlace::Return => 2,
    }
}

/// Whether a trailer of so many octets and fields so far can end within the limits.
pub fn fits_trailer(place: FieldPlace, fields: usize, len: usize) -> bool
    requires { len ≤ 2 ^ 17 }
    ensures { result ≡ fits_trailer place fields len }
{
    len + least_trailer(place) <= MOST_TRAILER && fields <= MOST_FIELDS
}
