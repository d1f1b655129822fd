//! Pieces of a body: runs of its octets are copied at once, all others are read one by one.
ghost use Rattle.std.specs.Prelude.{◌≡◌, ◌≤◌, ◌<◌, ◌++◌, ◌⊎◌, ℕ, min, true, false, length, take, drop};
ghost use Rattle.wire_http.specs.Stages.{walk, wants_octets, has_octets, allows, after_run, is_ended};

use crate::stage::{Stage, left_stage, octets_stage, step};

/// The octets read and placed, and the stage behind them.
#[derive(Clone, Copy)]
pub struct Step {
    pub read: usize,
    pub placed: usize,
    pub stage: Stage,
}

/// Whether nothing more is read.
pub fn is_ended(stage: Stage) -> bool
    ensures { result ≡ is_ended stage }
{
    match stage {
        Stage::Done => true,
        Stage::Bad(_) => true,
        _ => false,
    }
}

/// How many octets of the body are next, at most.
fn octets_next(stage: Stage) -> u64
    ensures none { wants_octets stage ≡ false → result ≡ 0 }
    ensures some { has_octets stage ≡ true → 0 < result }
    ensures wanted { 0 < result → wants_octets stage ≡ true }
    ensures allows { (n : ℕ) → n ≤ result → allows stage n }
{
    match stage {
        Stage::Left(count) => count,
        Stage::Octets(count) => count,
        Stage::UntilEnd => u64::MAX,
        _ => 0,
    }
}

/// Whether the next octet is one of the body.
fn wants_octets(stage: Stage) -> bool
    ensures { result ≡ wants_octets stage }
{
    match stage {
        Stage::Left(_) => true,
        Stage::Octets(_) => true,
        Stage::UntilEnd => true,
        _ => false,
    }
}

/// The stage behind so many octets of the body.
fn after_run(stage: Stage, count: u64) -> Stage
    requires { allows stage count }
    ensures { result ≡ after_run stage count }
{
    match stage {
        Stage::Left(left) => left_stage(left - count),
        Stage::Octets(left) => octets_stage(left - count),
        _ => stage,
    }
}

/// Copies as many octets as there are and fit, but no more than the number.
fn copy_most(most: u64, piece: &[u8], place: &mut [u8]) -> usize
    ensures count { result ≡ min most (min (length piece.now) (length place.old)) }
    ensures octets { place.new ≡ take result piece.now ++ drop result place.old }
{
    let count = most.min(piece.len().min(place.len()) as u64) as usize;
    place[..count].copy_from_slice(&piece[..count]);
    count
}

/// One step: a run of octets of the body, or one other octet.
fn advance(stage: Stage, piece: &[u8], place: &mut [u8]) -> Step
    requires some { 0 < length piece.now }
    requires on { is_ended stage ≡ false }
    ensures walked { walk stage (take result.read piece.now) ≡ (take result.placed place.new, result.stage) }
    ensures early { (k : ℕ) → k < result.read → is_ended (walk stage (take k piece.now)).1 ≡ false }
    ensures beyond { drop result.placed place.new ≡ drop result.placed place.old }
    ensures read { result.read ≤ length piece.now }
    ensures placed { result.placed ≤ length place.old }
    ensures same { length place.new ≡ length place.old }
    ensures stuck { result.read ≡ 0 → (wants_octets stage ≡ true) × (has_octets stage ≡ true → length place.old ≡ 0) }
{
    if !wants_octets(stage) {
        return Step {
            read: 1,
            placed: 0,
            stage: step(stage, piece[0]),
        };
    }
    let count = copy_most(octets_next(stage), piece, place);
    if count == 0 {
        return Step {
            read: 0,
            placed: 0,
            stage,
        };
    }
    Step {
        read: count,
        placed: count,
        stage: after_run(stage, count as u64),
    }
}

/// Reads on until the body is whole or bad, the piece is read, or the next octet of the body has no room.
pub fn feed_stage(stage: Stage, piece: &[u8], place: &mut [u8]) -> Step
    ensures walked { walk stage (take result.read piece.now) ≡ (take result.placed place.new, result.stage) }
    ensures early { (k : ℕ) → k < result.read → is_ended (walk stage (take k piece.now)).1 ≡ false }
    ensures beyond { drop result.placed place.new ≡ drop result.placed place.old }
    ensures read { result.read ≤ length piece.now }
    ensures placed { result.placed ≤ length place.old }
    ensures same { length place.new ≡ length place.old }
    ensures stops { result.read < length piece.now → (is_ended result.stage ≡ true)
        ⊎ ((wants_octets result.stage ≡ true) × (has_octets result.stage ≡ true → result.placed ≡ length place.old)) }
{
    let mut read = 0;
    let mut placed = 0;
    let mut now = stage;
    while read < piece.len() && !is_ended(now) {
        let step = advance(now, &piece[read..], &mut place[placed..]);
        read += step.read;
        placed += step.placed;
        now = step.stage;
        if step.read == 0 {
            return Step {
                read,
                placed,
                stage: now,
            };
        }
    }
    Step {
        read,
        placed,
        stage: now,
    }
}
