//! How a capture is written: the byte order of its numbers, and what the fractions of its times count.
ghost use Rattle.std.specs.Prelude.{◌≡◌, ◌≤◌, ◌+◌, ◌*◌, ◌/◌, length};
ghost use Rattle.wire_pcap.specs.Grammar.{per_second, per_tick};
ghost use Rattle.wire_pcap.specs.Steps.{number_in};

use byteorder::{BigEndian, ByteOrder, LittleEndian};

/// The byte order of a capture's numbers: that of the machine that wrote it.
#[derive(Clone, Copy, PartialEq, Eq, Debug)]
pub enum Order {
    Big,
    Little,
}

/// What the second number of a record's time counts.
#[derive(Clone, Copy, PartialEq, Eq, Debug)]
pub enum Resolution {
    /// Microseconds.
    Micros,
    /// Nanoseconds.
    Nanos,
}

/// How a capture is written.
#[derive(Clone, Copy, PartialEq, Eq, Debug)]
pub struct Form {
    pub order: Order,
    pub resolution: Resolution,
}

/// The number in the first four octets.
pub fn number(order: Order, bytes: &[u8]) -> u32
    requires { 4 ≤ length bytes.now }
    ensures { result ≡ number_in order 4 bytes.now }
{
    match order {
        Order::Big => BigEndian::read_u32(bytes),
        Order::Little => LittleEndian::read_u32(bytes),
    }
}

/// A time in units of the fraction.
pub fn time_in(resolution: Resolution, secs: u32, fraction: u32) -> u64
    ensures { result ≡ secs * per_second resolution + fraction }
{
    match resolution {
        Resolution::Micros => secs as u64 * 1_000_000 + fraction as u64,
        Resolution::Nanos => secs as u64 * 1_000_000_000 + fraction as u64,
    }
}

/// The whole ticks of a millisecond in a time that is counted in units of the fraction.
pub fn ticks_in(resolution: Resolution, time: u64) -> u64
    ensures { result ≡ time / per_tick resolution }
{
    match resolution {
        Resolution::Micros => time / 1000,
        Resolution::Nanos => time / 1_000_000,
    }
}
