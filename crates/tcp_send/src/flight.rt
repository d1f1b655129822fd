//! Segments in flight: they stand one behind the other, each as it was first cut.
ghost use Rattle.std.specs.Prelude.{◌≡◌, ◌+◌, ◌*◌, ◌^◌, ◌≤◌, length, slice_get};
ghost use Rattle.tcp_send.specs.Flight.{octets_of, fin_number, left_of};

use arrayvec::ArrayVec;

/// At most so many segments are in flight.
pub const MOST_SEGMENTS: usize = 8;

/// The length of a segment in octets, and its flags PSH and FIN.
#[derive(Clone, Copy, PartialEq, Eq, Debug)]
pub struct Segment {
    pub len: u16,
    pub psh: bool,
    pub fin: bool,
}

impl Default for Segment {
    ghost use Rattle.tcp_send.specs.Flight.{no_segment};

    ghost is_default = { λ s. s ≡ no_segment };

    fn default() -> Segment {
        Segment {
            len: 0,
            psh: false,
            fin: false,
        }
    }
}

/// How many sequence numbers a FIN takes.
pub fn fin_number(fin: bool) -> u64
    ensures number { result ≡ fin_number fin }
    ensures bound { result ≤ 1 }
{
    if fin { 1 } else { 0 }
}

/// How many octets segments have.
pub fn octets_of(flight: &[Segment]) -> u64
    requires { length flight.now ≤ 8 }
    ensures count { result ≡ octets_of flight.now }
    ensures bound { result ≤ 524280 }
{
    let mut octets = 0;
    for segment in flight {
        octets += segment.len as u64;
    }
    octets
}

/// Takes out the segments from the place `base` on that stand before `una` as a whole, and answers where the others begin.
pub fn release(flight: &mut ArrayVec<Segment, MOST_SEGMENTS>, base: u64, una: u64) -> u64
    requires { base + octets_of flight.old.items + 1 ≤ 2 ^ 63 }
    ensures flight { flight.new.items ≡ (left_of una base flight.old.items).segments }
    ensures base { result ≡ (left_of una base flight.old.items).base }
{
    let mut base = base;
    while let Some(segment) = first_of(flight.as_slice()) {
        let end = base + segment.len as u64;
        if end + fin_number(segment.fin) > una {
            return base;
        }
        flight.remove(0);
        base = end;
    }
    base
}

/// The oldest segment.
pub fn first_of(flight: &[Segment]) -> Option<Segment>
    ensures { result ≡ slice_get flight.now 0 }
{
    flight.first().copied()
}
