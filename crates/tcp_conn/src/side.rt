//! What two sides agree on: segments' sizes (RFC 9293, section 3.7.1) and windows (RFC 7323, section 2).
ghost use Rattle.std.specs.Prelude.{◌≡◌, ◌≤◌, ◌<◌, ◌^◌};
ghost use Rattle.tcp_conn.specs.Sides.{cap_of, most_of, scaled, window_field, answered_shift};

/// The largest segment that this side takes, in octets, as its SYN tells it.
pub const MSS: u16 = 1_460;

/// The shift that this side's SYN carries.
pub const SHIFT: u8 = 4;

/// The window with that shift, in octets.
pub const SCALED_CAP: u32 = 1_048_560;

/// The window without it.
const PLAIN_CAP: u32 = 65_535;

/// The segment of a peer that tells no size, and the least one.
const UNTOLD_MSS: u16 = 536;

const LEAST_MSS: u16 = 64;

/// The most that a window is shifted by.
const MOST_SHIFT: u8 = 14;

/// The window, where the peer's SYN carries a shift or doesn't.
pub fn cap_of(scale: Option<u8>) -> u32
    ensures { result ≡ cap_of scale }
{
    match scale {
        Some(_) => SCALED_CAP,
        None => PLAIN_CAP,
    }
}

/// The most octets of a segment, by the own limit and what the peer's SYN tells.
pub fn most_of(limit: u16, mss: Option<u16>) -> u16
    ensures { result ≡ most_of limit mss }
{
    limit.min(mss.unwrap_or(UNTOLD_MSS).max(LEAST_MSS))
}

/// The octets of a heard window.
pub fn scaled(scale: Option<u8>, window: u16) -> u32
    ensures { result ≡ scaled scale window }
{
    match scale {
        Some(shift) => shifted(window, shift.min(MOST_SHIFT)),
        None => window as u32,
    }
}

fn shifted(window: u16, shift: u8) -> u32
    requires { shift ≤ 14 }
    ensures { result ≡ scaled (Some shift) window }
{
    (window as u32) << shift
}

/// The field that tells a window of so many octets.
pub fn window_field(scale: Option<u8>, octets: u32) -> u16
    requires { octets ≤ cap_of scale }
    ensures { result ≡ window_field scale octets }
{
    match scale {
        Some(_) => (octets >> SHIFT) as u16,
        None => octets as u16,
    }
}

/// The shift of a SYN that answers one.
pub fn answered_shift(scale: Option<u8>) -> Option<u8>
    ensures { result ≡ answered_shift scale }
{
    match scale {
        Some(_) => Some(SHIFT),
        None => None,
    }
}
