//! The moments of a capture's records.
ghost use Rattle.std.specs.Prelude.{◌≡◌};
ghost use Rattle.wire_pcap.specs.Steps.{new_clock, clock_at};

use crate::form::{Resolution, ticks_in};

/// When the first record was heard, in units of the fraction, and the moment of the last one, in ticks.
#[derive(Clone, Copy, Debug)]
pub struct Clock {
    pub start: Option<u64>,
    pub tick: u64,
}

impl Clock {
    /// Before the first record.
    pub fn new() -> Clock
        ensures { result ≡ new_clock }
    {
        Clock {
            start: None,
            tick: 0,
        }
    }
}

/// The clock after a record of this time, in units of the fraction.
pub fn clock_at(resolution: Resolution, clock: Clock, time: u64) -> Clock
    ensures { result ≡ clock_at resolution clock time }
{
    let start = clock.start.unwrap_or(time);
    let tick = ticks_in(resolution, time.saturating_sub(start));
    Clock {
        start: Some(start),
        tick: clock.tick.max(tick),
    }
}
