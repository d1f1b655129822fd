//! Octets that are kept for segments, and the segments that are handed out with them.
ghost use Rattle.std.specs.Prelude.{◌≡◌, ◌+◌, ◌≤◌, ◌++◌, length, take, drop};

use arrayvec::ArrayVec;
use circular_buffer::HeapCircularBuffer;

/// The most octets of a segment.
pub const MOST_OCTETS: usize = 1_460;

/// A segment to be sent: the place of its first octet, its flags PSH and FIN, and its octets. Places count octets from the
/// stream's first one.
#[derive(Drop)]
pub struct Cut {
    pub place: u64,
    pub psh: bool,
    pub fin: bool,
    pub payload: ArrayVec<u8, MOST_OCTETS>,
}

/// A copy of so many octets behind some of those kept.
pub fn copied(
    kept: &HeapCircularBuffer<u8>,
    skipped: usize,
    count: usize,
) -> ArrayVec<u8, MOST_OCTETS>
    requires { count ≤ 1460 }
    ensures { result.items ≡ take count (drop skipped kept.now.items) }
{
    let (front, back) = kept.as_slices();
    joined(front, back, skipped, count)
}

/// A copy of so many octets behind some of those that stand in two pieces.
fn joined(front: &[u8], back: &[u8], skipped: usize, count: usize) -> ArrayVec<u8, MOST_OCTETS>
    requires { count ≤ 1460 }
    ensures { result.items ≡ take count (drop skipped (front.now ++ back.now)) }
{
    let mut octets = ArrayVec::new();
    let first = piece(front, skipped, count);
    let second = piece(
        back,
        skipped.saturating_sub(front.len()),
        count - first.len(),
    );
    append(&mut octets, first);
    append(&mut octets, second);
    octets
}

/// Adds octets for which there is room.
fn append(octets: &mut ArrayVec<u8, MOST_OCTETS>, more: &[u8])
    requires { length octets.old.items + length more.now ≤ 1460 }
    ensures { octets.new.items ≡ octets.old.items ++ more.now }
{
    let _ = octets.try_extend_from_slice(more);
}

/// At most so many octets behind some.
fn piece(octets: &[u8], skipped: usize, count: usize) -> &[u8]
    ensures piece { result.now ≡ take count (drop skipped octets.now) }
    ensures bound { length result.now ≤ count }
{
    if skipped >= octets.len() {
        return &octets[octets.len()..];
    }
    let rest = &octets[skipped..];
    if count >= rest.len() {
        return rest;
    }
    &rest[..count]
}

/// Those of some octets that stand in front, at most so many.
pub fn front_of(octets: &[u8], most: u64) -> &[u8]
    ensures { result.now ≡ take most octets.now }
{
    if most >= octets.len() as u64 {
        return octets;
    }
    &octets[..most as usize]
}
