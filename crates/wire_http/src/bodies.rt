//! The body behind a final head, read in pieces however they are cut (RFC 9112, sections 6.3 and 7.1).
ghost use Rattle.std.specs.Prelude.{◌≡◌, ◌≢◌, ◌≤◌, ◌<◌, ◌⊎◌, ◌++◌, ℕ, true, false, List, [], length, take, drop};
ghost use Rattle.wire_http.specs.Body.{HoldsSoFar};
ghost use Rattle.wire_http.specs.Feeding.{BodyHasRead, IsState, IsNextOctet, answer, answer_at_end};
ghost use Rattle.wire_http.specs.declared.bodies.BodyState.TheVariants.{More};

use crate::head::Framing;
use crate::runs::feed_stage;
use crate::stage::{Stage, start};
use efi_base::Part;

/// How far a body is.
#[derive(Clone, Copy, PartialEq, Eq, Debug)]
pub enum BodyState {
    /// Octets are missing.
    More,
    /// It is all there.
    Whole,
    /// It is none, whatever follows.
    Bad(Part),
}

/// What came of a piece.
#[derive(Clone, Copy, PartialEq, Eq, Debug)]
pub struct Fed {
    /// The octets of the piece that were read.
    pub read: usize,
    /// The octets of the body that were placed.
    pub placed: usize,
    /// How far the body is behind those that were read.
    pub state: BodyState,
}

/// Reads a body in pieces. It takes no memory.
#[derive(Clone, Copy, PartialEq, Eq, Debug)]
pub struct Body {
    stage: Stage,
}

/// How far a body is at a stage.
fn state_of(stage: Stage) -> BodyState
    ensures { result ≡ answer stage }
{
    match stage {
        Stage::Done => BodyState::Whole,
        Stage::Bad(part) => BodyState::Bad(part),
        _ => BodyState::More,
    }
}

/// The same where the stream ends.
fn state_at_end(stage: Stage) -> BodyState
    ensures { result ≡ answer_at_end stage }
{
    match stage {
        Stage::Done => BodyState::Whole,
        Stage::UntilEnd => BodyState::Whole,
        Stage::Bad(part) => BodyState::Bad(part),
        _ => BodyState::More,
    }
}

impl Body {
    /// A reader of a body with this framing.
    pub fn new(framing: Framing) -> Body
        ensures read { BodyHasRead result framing [] }
        ensures placed { HoldsSoFar framing [] [] }
    {
        Body {
            stage: start(framing),
        }
    }

    /// Reads a piece, and places the octets of the body that it brings. Where the body is whole or bad, nothing more is
    /// read.
    pub fn feed(&mut self, piece: &[u8], place: &mut [u8]) -> Fed
        ensures read { (framing : Framing) → (read : List ℕ) → BodyHasRead self.old framing read
            → BodyHasRead self.new framing (read ++ take result.read piece.now) }
        ensures state { (framing : Framing) → (read : List ℕ) → BodyHasRead self.old framing read
            → IsState result.state framing false (read ++ take result.read piece.now) }
        ensures placed { (framing : Framing) → (read before : List ℕ) → BodyHasRead self.old framing read → HoldsSoFar framing read before
            → HoldsSoFar framing (read ++ take result.read piece.now) (before ++ take result.placed place.new) }
        ensures early { (framing : Framing) → (read : List ℕ) → BodyHasRead self.old framing read
            → (k : ℕ) → k < result.read → IsState More framing false (read ++ take k piece.now) }
        ensures stops { (framing : Framing) → (read : List ℕ) → BodyHasRead self.old framing read → result.read < length piece.now
            → (result.state ≢ More) ⊎ ((result.placed ≡ length place.old)
            × ((b : ℕ) → IsNextOctet framing (read ++ take result.read piece.now) b)) }
        ensures read_most { result.read ≤ length piece.now }
        ensures placed_most { result.placed ≤ length place.old }
        ensures length { length place.new ≡ length place.old }
        ensures beyond { drop result.placed place.new ≡ drop result.placed place.old }
    {
        let step = feed_stage(self.stage, piece, place);
        self.stage = step.stage;
        Fed {
            read: step.read,
            placed: step.placed,
            state: state_of(step.stage),
        }
    }

    /// How far the body is where the stream ends here.
    pub fn fin(&self) -> BodyState
        ensures { (framing : Framing) → (read : List ℕ) → BodyHasRead self.now framing read → IsState result framing true read }
    {
        state_at_end(self.stage)
    }
}
