//! A source that is fed to its end, in pieces.
ghost use Rattle.std.specs.Prelude.{◌+◌, ◌≡◌, ◌≢◌, ◌<◌, ◌≤◌, ℕ, List, [], Err, length, IfOk, IfSome, IsErrOf, OnOk, vec_len};
ghost use Rattle.std.specs.Io.KnownBytes.{IsAtEnd, Keeps};
ghost use Rattle.efi_outside.specs.Intake.{HasInputCause, TakesAtMost, input_limit};
ghost use Rattle.efi_feed.specs.Pieces.{FeedsPiece, TakesExactly};

use crate::feed::Feed;
use efi_outside::{INPUT_LIMIT, InputFault, PIECE, Source};
use std::alloc::Global;

// The octets that are read at most: the last of them shows that the input is too long.
const MOST: usize = INPUT_LIMIT as usize + 1;

/// Reads the source to its end, and answers what came of it.
pub fn read_whole<S: Source, F: Feed + Drop>(
    alloc: Global,
    src: &mut S,
    mut reader: F,
) -> Result<F::Whole, InputFault>
    // All of the input, which isn't longer than the limit.
    ensures whole { (about : F.About) → F.has_fed about [] reader
        → IfOk result (λ whole. IfSome (S.left src.old) (λ octets. F.is_whole about octets whole)) }
    ensures end { OnOk result (IsAtEnd (S.left src.new)) }
    ensures bound { OnOk result (IfSome (S.left src.old) (λ octets. length octets ≤ input_limit)) }

    // What the source gave, whatever is answered.
    ensures taken { TakesAtMost (S.left src.old) (S.left src.new) (input_limit + 1) }

    // When the faults come.
    ensures too_long { IsErrOf result InputFault.TooLong → TakesExactly (S.left src.old) (S.left src.new) (input_limit + 1) }
    ensures failed { IsErrOf result InputFault.Failed → TakesAtMost (S.left src.old) (S.left src.new) input_limit }
    ensures cause { HasInputCause (S.faults src.old) (S.faults src.new) result }
{
    match feed_all(alloc, src, &mut reader) {
        Ok(()) => {}
        Err(fault) => return Err(fault),
    }
    match reader.finish() {
        Ok(whole) => Ok(whole),
        Err(_) => Err(InputFault::OutOfResources),
    }
}

/// Reads the source to its end, and feeds what it gives to the reader.
fn feed_all<S: Source, F: Feed>(
    alloc: Global,
    src: &mut S,
    reader: &mut F,
) -> Result<(), InputFault>
    // All of the input was fed, and it isn't longer than the limit.
    ensures whole { (about : F.About) → F.has_fed about [] reader.old
        → OnOk result (IfSome (S.left src.old) (λ octets. F.has_fed about octets reader.new)) }
    ensures end { OnOk result (IsAtEnd (S.left src.new)) }
    ensures bound { OnOk result (IfSome (S.left src.old) (λ octets. length octets ≤ input_limit)) }

    // What the source gave, whatever is answered.
    ensures taken { TakesAtMost (S.left src.old) (S.left src.new) (input_limit + 1) }

    // When the faults come.
    ensures too_long { IsErrOf result InputFault.TooLong → TakesExactly (S.left src.old) (S.left src.new) (input_limit + 1) }
    ensures failed { IsErrOf result InputFault.Failed → TakesAtMost (S.left src.old) (S.left src.new) input_limit }
    ensures cause { HasInputCause (S.faults src.old) (S.faults src.new) result }
{
    let mut room = room_of(alloc)?;
    let mut count = 0;
    while count < MOST {
        let free = PIECE.min(MOST - count);
        let read = read_piece(src, &mut room[..free], reader)?;
        if read == 0 {
            return Ok(());
        }
        count += read;
    }
    Err(InputFault::TooLong)
}

/// Room for the octets of one read.
fn room_of(alloc: Global) -> Result<Vec<u8>, InputFault>
    ensures room { IfOk result (λ v. vec_len v ≡ 65536) }
    ensures fault { result ≢ Err InputFault.TooLong }
    ensures memory { result ≢ Err InputFault.Failed }
{
    match vec![in alloc; 0; PIECE] {
        Ok(room) => Ok(room),
        Err(_) => Err(InputFault::OutOfResources),
    }
}

/// Reads once into the room, and feeds what came. The answer is how many octets came, 0 at the source's end.
fn read_piece<S: Source, F: Feed>(
    src: &mut S,
    room: &mut [u8],
    reader: &mut F,
) -> Result<usize, InputFault>
    requires { 0 < length room.old }
    ensures piece { IfOk result (FeedsPiece F.has_fed (S.left src.old) (S.left src.new) reader.old reader.new) }
    ensures bound { IfOk result (λ n. n ≤ length room.old) }
    ensures taken { TakesAtMost (S.left src.old) (S.left src.new) (length room.old) }
    ensures failed { IsErrOf result InputFault.Failed → Keeps (S.left src.old) (S.left src.new) }
    ensures cause { HasInputCause (S.faults src.old) (S.faults src.new) result }
    ensures not_too_long { result ≢ Err InputFault.TooLong }
{
    let count = match src.read(room) {
        Ok(count) => count,
        Err(_) => return Err(InputFault::Failed),
    };
    match reader.feed(&room[..count]) {
        Ok(()) => Ok(count),
        Err(_) => Err(InputFault::OutOfResources),
    }
}
