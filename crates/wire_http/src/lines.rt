//! The lines of a head that isn't whole yet.
ghost use Rattle.std.specs.Prelude.{◌≡◌};
ghost use Rattle.httparse.specs.Pieces.{is_newline};
ghost use Rattle.wire_http.specs.Begun.{next_place, begins, fields_begun};

/// Where in a head an octet stands.
#[derive(Clone, Copy)]
enum Place {
    /// Among the empty lines before the status line.
    Before,
    /// In the status line or in a field line, behind its first octet.
    Within,
    /// At the first octet of a field line, or of the empty line at the end.
    Start,
    /// In the empty line at the end, or behind it.
    After,
}

fn is_newline(byte: u8) -> bool
    ensures { result ≡ is_newline byte }
{
    byte == b'\r' || byte == b'\n'
}

fn next_place(place: Place, byte: u8) -> Place
    ensures { result ≡ next_place place byte }
{
    match place {
        Place::Before => if is_newline(byte) {
            Place::Before
        } else {
            Place::Within
        },
        Place::Within => if byte == b'\n' {
            Place::Start
        } else {
            Place::Within
        },
        Place::Start => if is_newline(byte) {
            Place::After
        } else {
            Place::Within
        },
        Place::After => Place::After,
    }
}

fn begins(place: Place, byte: u8) -> usize
    ensures { result ≡ begins place byte }
{
    match place {
        Place::Start => if is_newline(byte) { 0 } else { 1 },
        _ => 0,
    }
}

/// How many field lines have begun.
pub fn fields_begun(bytes: &[u8]) -> usize
    ensures { result ≡ fields_begun bytes.now }
{
    let mut place = Place::Before;
    let mut count = 0;
    for byte in bytes {
        count += begins(place, *byte);
        place = next_place(place, *byte);
    }
    count
}
