//! A ring of bytes by place: a place stands at its number modulo the ring's room. Which places are kept, bits of words say. The
//! ring and its bits are as long as they were used.
ghost use Rattle.std.specs.Prelude.{◌≡◌, ◌+◌, ◌-◌, ◌*◌, ◌%◌, ◌<◌, ◌≤◌, ◌++◌, ℕ, true, false, not, length, get_or, drop, min};
ghost use Rattle.efi_window.specs.Kept.{is_kept, IsPlaced};

use crate::bits::{mark, run_end};
use crate::runs::put_run;

/// How long a ring is that was used from its front up to the end of so many places from one on: as long as its room once they
/// go round.
pub fn reach(room: usize, place: u64, count: usize) -> usize
    ensures { result ≡ min (place + count) room }
{
    place.saturating_add(count as u64).min(room as u64) as usize
}

/// Keeps bytes from a place on, in at most two runs. A byte that is kept there already stays.
pub fn put(ring: &mut [u8], words: &mut [u64], room: usize, place: u64, bytes: &[u8])
    requires some { 0 < room }
    requires fits { length bytes.now ≤ room }
    requires enough { min (place % room + length bytes.now) room ≤ length ring.old }
    requires words { min (place % room + length bytes.now) room ≤ 64 * length words.old }
    ensures { IsPlaced room place bytes.now ring.old words.old ring.new words.new }
{
    let at = (place % room as u64) as usize;
    let first = bytes.len().min(room - at);
    put_run(ring, words, at, &bytes[..first]);
    put_run(ring, words, 0, &bytes[first..]);
}

/// How many places from one on, up to so many, are all kept or all free.
pub fn run(words: &[u64], room: usize, set: bool, place: u64, most: usize) -> usize
    requires fits { most ≤ room }
    requires words { 0 < most → min (place % room + most) room ≤ 64 * length words.now }
    ensures most { result ≤ most }
    ensures alike { (i : ℕ) → i < result → is_kept words.now ((place + i) % room) ≡ set }
    ensures ends { result < most → is_kept words.now ((place + result) % room) ≡ not set }
{
    if most == 0 {
        return 0;
    }
    let at = (place % room as u64) as usize;
    if most <= room - at {
        return run_end(words, set, at, at + most) - at;
    }
    let end = run_end(words, set, at, room);
    if end < room {
        return end - at;
    }
    room - at + run_end(words, set, 0, most - (room - at))
}

/// Writes two runs to the front of a room, one behind the other.
fn fill(out: &mut [u8], first: &[u8], second: &[u8])
    requires { length first.now + length second.now ≤ length out.old }
    ensures { out.new ≡ first.now ++ second.now ++ drop (length first.now + length second.now) out.old }
{
    let start = first.len();
    let end = start + second.len();
    out[..start].copy_from_slice(first);
    out[start..end].copy_from_slice(second);
}

/// Copies so many bytes from a place on to the front of a room.
pub fn copy(ring: &[u8], room: usize, place: u64, count: usize, out: &mut [u8])
    requires fits { count ≤ room }
    requires enough { 0 < count → min (place % room + count) room ≤ length ring.now }
    requires out { count ≤ length out.old }
    ensures len { length out.new ≡ length out.old }
    ensures bytes { (i : ℕ) → i < count → get_or out.new i 0 ≡ get_or ring.now ((place + i) % room) 0 }
    ensures rest { drop count out.new ≡ drop count out.old }
{
    if count == 0 {
        return;
    }
    let at = (place % room as u64) as usize;
    let first = count.min(room - at);
    fill(out, &ring[at..at + first], &ring[..count - first]);
}

/// Frees so many places from one on.
pub fn free(words: &mut [u64], room: usize, place: u64, count: usize)
    requires fits { count ≤ room }
    requires words { 0 < count → min (place % room + count) room ≤ 64 * length words.old }
    ensures len { length words.new ≡ length words.old }
    ensures freed { (i : ℕ) → i < count → is_kept words.new ((place + i) % room) ≡ false }
    ensures others { (i : ℕ) → count ≤ i → i < room → is_kept words.new ((place + i) % room) ≡ is_kept words.old ((place + i) % room) }
{
    if count == 0 {
        return;
    }
    let at = (place % room as u64) as usize;
    let first = count.min(room - at);
    mark(words, false, at, at + first);
    mark(words, false, 0, count - first);
}
