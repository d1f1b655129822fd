//! Places of a stream as sequence numbers, modulo 2^32 (RFC 9293, section 3.4).
ghost use Rattle.std.specs.Prelude.{◌≡◌, ◌^◌, ◌<◌};
ghost use Rattle.tcp_send.specs.Numbers.{number_of, distance};

/// How many sequence numbers there are.
const NUMBERS: u64 = 1 << 32;

/// From this distance on a number stands behind another.
pub const HALF_OF_NUMBERS: u64 = 1 << 31;

/// The number of a place: the first octet's is one past the SYN's.
pub fn number_of(iss: u32, place: u64) -> u32
    requires { place < 2 ^ 63 }
    ensures { result ≡ number_of iss place }
{
    ((iss as u64 + 1 + place) % NUMBERS) as u32
}

/// How far a number stands past another.
pub fn distance(from: u32, to: u32) -> u64
    ensures far { result ≡ distance from to }
    ensures bound { result < 2 ^ 32 }
{
    (to as u64 + NUMBERS - from as u64) % NUMBERS
}
