//! The record that stands at the front of octets behind a capture's header.
ghost use Rattle.std.specs.Prelude.{◌≡◌, get_or};
ghost use Rattle.wire_pcap.specs.Next.{IsNext};
ghost use Rattle.wire_pcap.specs.Steps.{kept_at};

use crate::form::{Form, Order, number, time_in};

/// Octets of a record before those that were kept of its frame.
pub const RECORD_HEAD_LEN: usize = 16;

/// Octets that may have been kept of a frame.
pub const MAX_KEPT: u32 = 262_144;

/// The time of a whole record in units of the fraction, and how many octets were kept of its frame.
#[derive(Clone, Copy, Debug)]
pub struct Head {
    pub time: u64,
    pub kept: usize,
}

/// What stands at the front of octets behind the header.
#[derive(Clone, Copy, Debug)]
pub enum Next {
    Whole(Head),
    /// Less than a whole record.
    Partial,
    /// What no record begins with, since more octets were kept than may be.
    Over,
}

/// The octet at a place, or 0 where there is none yet.
fn octet(bytes: &[u8], place: usize) -> u8
    ensures { result ≡ get_or bytes.now place 0 }
{
    match bytes.get(place) {
        Some(octet) => *octet,
        None => 0,
    }
}

/// The least number of kept octets that the record at the front may say, whatever follows.
fn kept_of(order: Order, bytes: &[u8]) -> u32
    ensures { result ≡ kept_at order bytes.now }
{
    let field = [
        octet(bytes, 8),
        octet(bytes, 9),
        octet(bytes, 10),
        octet(bytes, 11),
    ];
    number(order, &field)
}

/// What stands at the front of the octets.
pub fn next_of(form: Form, bytes: &[u8]) -> Next
    ensures { IsNext form bytes.now result }
{
    let kept = kept_of(form.order, bytes);
    if kept > MAX_KEPT {
        return Next::Over;
    }
    let kept = kept as usize;
    if bytes.len() < RECORD_HEAD_LEN + kept {
        return Next::Partial;
    }
    let secs = number(form.order, bytes);
    let fraction = number(form.order, &bytes[4..]);
    Next::Whole(Head {
        time: time_in(form.resolution, secs, fraction),
        kept,
    })
}
