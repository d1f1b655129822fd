//! Where a segment stands in the stream, and where the stream ends (RFC 9293, section 3.4).
ghost use Rattle.std.specs.Prelude.{◌≡◌, ◌^◌, ◌<◌, ◌≤◌, Option};
ghost use Rattle.tcp_recv.specs.Stream.{place_of};
ghost use Rattle.tcp_recv.specs.Ends.{up_to_end, end_heard};

use efi_window::Window;

/// How many sequence numbers there are.
const NUMBERS: u64 = 1 << 32;

/// From this distance on a number stands behind the one that is expected.
const HALF_OF_NUMBERS: u64 = 1 << 31;

/// The first place that is never kept.
pub const END_OF_PLACES: u64 = 1 << 62;

/// Where a segment's first octet that has a place stands, and how many octets in front of it have none.
#[derive(Clone, Copy)]
pub struct Spot {
    pub place: u64,
    pub skipped: u64,
}

/// The place that is congruent to the number within 2^31 of the accepted length.
pub fn spot_of(irs: u32, accepted: u64, seq: u32) -> Spot
    requires { accepted ≤ 2 ^ 62 }
    ensures place { result.place ≡ (place_of irs accepted seq).place }
    ensures skipped { result.skipped ≡ (place_of irs accepted seq).skipped }
    ensures bound { result.place < 2 ^ 63 }
{
    let expected = (irs as u64 + 1 + accepted) % NUMBERS;
    let ahead = (seq as u64 + NUMBERS - expected) % NUMBERS;
    if ahead < HALF_OF_NUMBERS {
        return Spot {
            place: accepted + ahead,
            skipped: 0,
        };
    }
    let back = NUMBERS - ahead;
    Spot {
        place: accepted.saturating_sub(back),
        skipped: back.saturating_sub(accepted),
    }
}

/// Those of a segment's octets that stand before the stream's end.
pub fn before_end(bytes: &[u8], place: u64, end: Option<u64>) -> &[u8]
    ensures { result.now ≡ up_to_end end place bytes.now }
{
    let Some(end) = end else {
        return bytes;
    };
    let most = end.saturating_sub(place);
    if most >= bytes.len() as u64 {
        return bytes;
    }
    &bytes[..most as usize]
}

/// The stream's end after a segment whose octets end at this place.
pub fn end_with(window: &Window, end: Option<u64>, fin: bool, place: u64) -> Option<u64>
    ensures { result ≡ end_heard window.now end fin place }
{
    if !fin {
        return end;
    }
    if let Some(end) = end {
        return Some(end);
    }
    let taken = window.taken();
    if place < taken || place >= END_OF_PLACES || place - taken > window.cap() as u64 {
        return None;
    }
    if window.is_free_from(place) {
        return Some(place);
    }
    None
}
