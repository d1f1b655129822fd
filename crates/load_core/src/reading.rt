//! The body behind the final head: as many of its octets as fit are placed, and all are counted.
ghost use Rattle.std.specs.Prelude.{◌≡◌, ◌≢◌, ◌+◌, ◌^◌, ◌<◌, ◌≤◌, ◌++◌, ◌⊎◌, ℕ, Bool, List, [], length, take, drop, OnOk, IfOk};
ghost use Rattle.std.specs.Io.{StartsWith};
ghost use Rattle.wire_http.specs.Feeding.{IsState};
ghost use Rattle.load_core.specs.Taken.{room_of, Reads, ReadsOn};

use crate::cases::OK;
use crate::kept::keep;
use efi_base::NoMemory;
use wire_http::{Body, BodyState, HeadInfo};

/// How many octets of the body are placed at a time.
const ROOM: usize = 1_024;

/// What is kept of a body.
#[derive(Clone, Copy, PartialEq, Eq, Debug)]
pub struct Reading {
    pub info: HeadInfo,
    pub body: Body,
    /// How far the body is, where the stream goes on.
    pub state: BodyState,
    /// How many octets of the body came.
    pub count: u64,
}

/// How many octets of the body are placed at most: none of one that isn't a load's.
pub fn room_of(info: HeadInfo, most: u32) -> usize
    ensures { result ≡ room_of info most }
{
    if info.status == OK && info.coding.is_none() {
        most as usize
    } else {
        0
    }
}

/// Nothing of the body was read.
pub fn begin(info: HeadInfo) -> Reading
    ensures reads { Reads result [] [] }
    ensures info { result.info ≡ info }
{
    let mut body = Body::new(info.framing);
    let fed = body.feed(&[], &mut []);
    Reading {
        info,
        body,
        state: fed.state,
        count: 0,
    }
}

/// How far the body is, where the stream goes on or ends.
pub fn state_at(reading: Reading, fin: bool) -> BodyState
    ensures { (rest octets : List ℕ) → Reads reading rest octets → IsState result reading.info.framing fin rest }
{
    if fin {
        return reading.body.fin();
    }
    reading.state
}

/// Reads on in a piece, as far as there is room. The answer is how many of its octets were read: none where no more
/// of them count.
fn advance(
    reading: &mut Reading,
    piece: &[u8],
    room: &mut [u8],
    most: usize,
    placed: &mut Vec<u8>,
) -> Result<usize, NoMemory>
    requires { 0 < length room.old }
    ensures info { reading.new.info ≡ reading.old.info }
    ensures room { length room.new ≡ length room.old }
    ensures within { IfOk result (λ n. n ≤ length piece.now) }
    ensures reads { (rest octets : List ℕ) → Reads reading.old rest octets → placed.old.items ≡ take most octets
        → length rest + length piece.now ≤ 2 ^ 62
        → IfOk result (λ n. ReadsOn reading.new most placed.new.items (rest ++ take n piece.now) octets) }
    ensures stops { (rest octets : List ℕ) → Reads reading.old rest octets → 0 < length piece.now
        → IfOk result (λ n. n ≡ 0 → reading.new.state ≢ BodyState.More) }
    ensures front { StartsWith placed.new.items placed.old.items }
{
    let fed = reading.body.feed(piece, room);
    reading.state = fed.state;
    reading.count = reading.count.saturating_add(fed.placed as u64);
    keep(placed, most, &room[..fed.placed])?;
    Ok(fed.read)
}

/// Reads a piece, with room for some octets.
fn read_with(
    reading: &mut Reading,
    piece: &[u8],
    room: &mut [u8],
    most: usize,
    placed: &mut Vec<u8>,
) -> Result<(), NoMemory>
    requires { 0 < length room.old }
    ensures info { reading.new.info ≡ reading.old.info }
    ensures reads { (rest octets : List ℕ) → Reads reading.old rest octets → placed.old.items ≡ take most octets
        → length rest + length piece.now ≤ 2 ^ 62
        → OnOk result (ReadsOn reading.new most placed.new.items (rest ++ piece.now) octets) }
    ensures front { StartsWith placed.new.items placed.old.items }
{
    let mut at = 0;
    while at < piece.len() {
        let count = advance(reading, &piece[at..], room, most, placed)?;
        if count == 0 {
            return Ok(());
        }
        at += count;
    }
    Ok(())
}

/// Reads a piece, and places what fits of the body's octets.
pub fn read_piece(
    reading: &mut Reading,
    piece: &[u8],
    most: usize,
    placed: &mut Vec<u8>,
) -> Result<(), NoMemory>
    ensures info { reading.new.info ≡ reading.old.info }
    ensures reads { (rest octets : List ℕ) → Reads reading.old rest octets → placed.old.items ≡ take most octets
        → length rest + length piece.now ≤ 2 ^ 62
        → OnOk result (ReadsOn reading.new most placed.new.items (rest ++ piece.now) octets) }
    ensures front { StartsWith placed.new.items placed.old.items }
{
    let mut room = [0u8; ROOM];
    read_with(reading, piece, &mut room, most, placed)
}

/// Reads what stands behind the final head: the rest of what was kept, and the rest of the piece.
pub fn read_first(
    info: HeadInfo,
    kept: &[u8],
    piece: &[u8],
    most: u32,
    placed: &mut Vec<u8>,
) -> Result<Reading, NoMemory>
    ensures info { IfOk result (λ r. r.info ≡ info) }
    ensures reads { placed.old.items ≡ [] → length kept.now + length piece.now ≤ 2 ^ 62
        → IfOk result (λ r. ReadsOn r (room_of info most) placed.new.items (kept.now ++ piece.now) []) }
    ensures front { StartsWith placed.new.items placed.old.items }
{
    let mut reading = begin(info);
    let room = room_of(info, most);
    read_piece(&mut reading, kept, room, placed)?;
    read_piece(&mut reading, piece, room, placed)?;
    Ok(reading)
}
