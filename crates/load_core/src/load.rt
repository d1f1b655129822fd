//! A response that comes in pieces: what a load finds in it, and its body, as far as that fits a buffer.
ghost use Rattle.std.specs.Prelude.{◌≡◌, ◌+◌, ◌^◌, ◌≤◌, ◌++◌, ℕ, Bool, List, [], length, take, OnOk, OnErr, IfOk};
ghost use Rattle.std.specs.Io.{StartsWith};
ghost use Rattle.wire_http.specs.Response.{IsWhole};
ghost use Rattle.load_core.specs.Cases.{IsFirstCase, HasLoadSoFar, HasNoLoad};
ghost use Rattle.load_core.specs.Taken.{AtHeads, IsBehind, IsUnchanged, StandsAt, HasTaken};

use crate::cases::{case_of, case_without};
use crate::heads::{Found, find_final};
use crate::kept::keep;
use crate::reading::{Reading, read_first, read_piece, room_of, state_at};
use efi_base::{Bytes, LoadEnd, NoMemory, Part};
use std::alloc::Global;
use wire_http::MOST_HEAD;

/// How far a response is.
#[derive(Clone, Copy, PartialEq, Eq, Debug)]
enum Stage {
    /// The final head isn't whole.
    Heads,
    /// There is none, whatever follows.
    BadHead,
    /// It is whole, and what follows it is read.
    Behind(Reading),
}

/// A load of a response's body into a buffer.
#[derive(Debug, Drop)]
pub struct Load {
    most: u32,
    stage: Stage,
    kept: Vec<u8>,
    placed: Vec<u8>,
    /// How many octets of the stream were taken in.
    taken: u64,
}

/// As many octets as all heads have at most.
fn most_heads(kept: &[u8]) -> &[u8]
    ensures most { length result.now ≤ MOST_HEAD }
    ensures all { length kept.now ≤ MOST_HEAD → result.now ≡ kept.now }
{
    &kept[..kept.len().min(MOST_HEAD)]
}

/// Takes in a piece in front of which the final head isn't whole.
fn take_heads(
    kept: &mut Vec<u8>,
    piece: &[u8],
    most: u32,
    placed: &mut Vec<u8>,
) -> Result<Stage, NoMemory>
    ensures stands { (stream : List ℕ) → AtHeads kept.old.items placed.old.items stream → length stream + length piece.now ≤ 2 ^ 62
        → IfOk result (λ stage. StandsAt stage kept.new.items placed.new.items most (stream ++ piece.now)) }
    ensures kept { StartsWith kept.new.items kept.old.items }
    ensures placed { StartsWith placed.new.items placed.old.items }
{
    let before = kept.len();
    keep(kept, MOST_HEAD, piece)?;
    let taken = kept.len().saturating_sub(before).min(piece.len());
    let heads = most_heads(kept.as_slice());
    match find_final(heads) {
        Found::Final(info, len) => match read_first(
            info,
            &heads[len..],
            &piece[taken..],
            most,
            placed,
        ) {
            Ok(reading) => Ok(Stage::Behind(reading)),
            Err(e) => Err(e),
        },
        Found::More if heads.len() < MOST_HEAD => Ok(Stage::Heads),
        Found::More => Ok(Stage::BadHead),
        Found::Bad => Ok(Stage::BadHead),
    }
}

/// Takes in a piece, and answers the stage behind it. What was kept and placed stays in front, also where there is no memory.
fn take_piece(
    stage: Stage,
    kept: &mut Vec<u8>,
    piece: &[u8],
    most: u32,
    placed: &mut Vec<u8>,
) -> Result<Stage, NoMemory>
    ensures stands { (stream : List ℕ) → StandsAt stage kept.old.items placed.old.items most stream
        → length stream + length piece.now ≤ 2 ^ 62
        → IfOk result (λ next. StandsAt next kept.new.items placed.new.items most (stream ++ piece.now)) }
    ensures kept { StartsWith kept.new.items kept.old.items }
    ensures placed { StartsWith placed.new.items placed.old.items }
{
    match stage {
        Stage::Heads => take_heads(kept, piece, most, placed),
        Stage::BadHead => Ok(Stage::BadHead),
        Stage::Behind(mut reading) => {
            let room = room_of(reading.info, most);
            read_piece(&mut reading, piece, room, placed)?;
            Ok(Stage::Behind(reading))
        }
    }
}

/// The first case behind the final head, where so many octets of the stream were taken in.
fn case_behind(reading: Reading, fin: bool, reset: bool, most: u32, taken: u64) -> Option<LoadEnd>
    ensures { (placed stream : List ℕ) → IsBehind reading placed most stream → taken ≡ length stream
        → IsFirstCase most stream fin reset result }
{
    let otherwise = case_without(fin, taken, reset);
    case_of(
        state_at(reading, fin),
        reading.info,
        reading.count,
        most,
        otherwise,
    )
}

impl Load {
    /// A load that has taken in nothing, with a buffer of so many octets. It takes no memory.
    pub fn new(alloc: Global, most: u32) -> Load
        ensures { HasTaken result most [] }
    {
        Load {
            most,
            stage: Stage::Heads,
            kept: Vec::new(alloc),
            placed: Vec::new(alloc),
            taken: 0,
        }
    }

    /// Takes in the next octets of the stream. Where there is no memory the load stays as it was, and may be fed the same octets
    /// again.
    pub fn feed(&mut self, piece: &[u8]) -> Result<(), NoMemory>
        ensures taken { (most : ℕ) → (stream : List ℕ) → HasTaken self.old most stream → length stream + length piece.now ≤ 2 ^ 62
            → OnOk result (HasTaken self.new most (stream ++ piece.now)) }
        ensures refused { OnErr result (IsUnchanged self.old self.new) }
        ensures stays { (most : ℕ) → (stream : List ℕ) → HasTaken self.old most stream → OnErr result (HasTaken self.new most stream) }
    {
        let kept = self.kept.len();
        let placed = self.placed.len();
        match take_piece(
            self.stage,
            &mut self.kept,
            piece,
            self.most,
            &mut self.placed,
        ) {
            Ok(stage) => {
                self.stage = stage;
                self.taken = self.taken.saturating_add(piece.len() as u64);
                Ok(())
            }
            Err(e) => {
                self.kept.truncate(kept);
                self.placed.truncate(placed);
                Err(e)
            }
        }
    }

    /// The first case that the stream meets, and None where it meets none yet; fin says that the stream is at its end, and
    /// reset that the peer reset the connection.
    pub fn end(&self, fin: bool, reset: bool) -> Option<LoadEnd>
        ensures { (most : ℕ) → (stream : List ℕ) → HasTaken self.now most stream → IsFirstCase most stream fin reset result }
    {
        match self.stage {
            Stage::Heads => case_without(fin, self.taken, reset),
            Stage::BadHead => Some(LoadEnd::BadResponse(Part::Head)),
            Stage::Behind(reading) => case_behind(reading, fin, reset, self.most, self.taken),
        }
    }

    /// The octets of the body that came, as far as they fit the buffer: with `LoadEnd::Success`, the body. None of another
    /// status's body and none of a coded one.
    pub fn body(&self) -> &[u8]
        ensures whole { (most : ℕ) → (stream : List ℕ) → HasTaken self.now most stream
            → (fin : Bool) → (body : List ℕ) → IsWhole stream fin 200 body → length body ≤ most → result.now ≡ body }
        ensures so_far { (most : ℕ) → (stream : List ℕ) → HasTaken self.now most stream → (octets : List ℕ)
            → HasLoadSoFar stream octets → result.now ≡ take most octets }
        ensures none { (most : ℕ) → (stream : List ℕ) → HasTaken self.now most stream → HasNoLoad stream → result.now ≡ [] }
    {
        self.placed.as_slice()
    }

    /// The same, without taking memory.
    pub fn into_body(self) -> Bytes
        ensures whole { (most : ℕ) → (stream : List ℕ) → HasTaken self most stream
            → (fin : Bool) → (body : List ℕ) → IsWhole stream fin 200 body → length body ≤ most → result ≡ body }
        ensures so_far { (most : ℕ) → (stream : List ℕ) → HasTaken self most stream → (octets : List ℕ)
            → HasLoadSoFar stream octets → result ≡ take most octets }
        ensures none { (most : ℕ) → (stream : List ℕ) → HasTaken self most stream → HasNoLoad stream → result ≡ [] }
    {
        let Load { placed, .. } = self;
        Bytes::from_vec(placed)
    }
}
