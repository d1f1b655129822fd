//! When what isn't acknowledged goes again: at rows of ticks, whose distance doubles to at most 8,000 (RFC 6298, section 5,
//! with fixed numbers).
ghost use Rattle.std.specs.Prelude.{◌≡◌, ◌^◌, ◌<◌, ◌≤◌};
ghost use Rattle.tcp_send.specs.Rows.{row_at, is_row, row_tick, started};

use efi_base::Tick;

/// At so many rows a segment goes again. At the next one the connection is given up.
pub const SEGMENT_ROWS: u8 = 8;

/// At so many rows a SYN goes again. At the next one the connection is given up.
pub const SYN_ROWS: u8 = 5;

/// The tick from which rows count, and how many of them have passed.
#[derive(Clone, Copy, PartialEq, Eq, Debug)]
pub struct Backoff {
    pub since: Tick,
    pub passed: u8,
}

impl Backoff {
    /// Rows that count from this tick.
    pub fn start(now: Tick) -> Backoff
        ensures { result ≡ started now }
    {
        Backoff {
            since: now,
            passed: 0,
        }
    }

    /// Whether the next row is there.
    pub fn is_due(self, now: Tick) -> bool
        ensures { result ≡ is_row self now }
    {
        now.0.saturating_sub(self.since.0) >= row_at(self.passed)
    }

    /// The tick of the next row, where there is a tick of that number.
    pub fn next(self) -> Option<Tick>
        ensures { result ≡ row_tick self }
    {
        match self.since.0.checked_add(row_at(self.passed)) {
            Some(at) => Some(Tick(at)),
            None => None,
        }
    }
}

/// How many ticks the row behind so many others stands from the start: 1,000, 3,000, 7,000, 15,000, and then 8,000 apart.
fn row_at(passed: u8) -> u64
    ensures at { result ≡ row_at passed }
    ensures least { 1000 ≤ result }
    ensures bound { result < 2 ^ 32 }
{
    match passed {
        0 => 1_000,
        1 => 3_000,
        2 => 7_000,
        _ => 15_000 + 8_000 * (passed as u64 - 3),
    }
}
