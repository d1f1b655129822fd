//! Reading a source to its end, up to a limit.
ghost use Rattle.std.specs.Prelude.{◌≡◌, ◌≢◌, ◌+◌, ◌<◌, ◌≤◌, length, IfOk, IfSome, IsErrOf, OnOk, vec_len};
ghost use Rattle.std.specs.Io.KnownBytes.{IsAtEnd};
ghost use Rattle.efi_outside.specs.declared.intake.InputFault.TheVariants as fault;
ghost use Rattle.efi_outside.specs.Intake.{HasInputCause, PutsPiece, TakesAtMost, input_limit};

use crate::fault::Failed;
use crate::outside::Source;
use std::alloc::{AllocError, Global};

/// The octets that one read asks for at most.
pub const PIECE: usize = 65_536;

/// The octets of the longest input.
pub const INPUT_LIMIT: u64 = 2_147_483_648;

// The octets that are read at most: the last of them shows that the input is too long.
const MOST: usize = INPUT_LIMIT as usize + 1;

/// Why an input wasn't read.
#[derive(Clone, Copy, PartialEq, Eq, Debug)]
pub enum InputFault {
    /// The source failed, and its count of faults rose.
    Failed,
    /// More octets came than the limit.
    TooLong,
    /// There was no memory for the input.
    OutOfResources,
}

impl From<Failed> for InputFault {
    ghost from_gives = { λ _ e. e ≡ fault.Failed };

    fn from(_e: Failed) -> InputFault {
        InputFault::Failed
    }
}

impl From<AllocError> for InputFault {
    ghost from_gives = { λ _ e. e ≡ fault.OutOfResources };

    fn from(_e: AllocError) -> InputFault {
        InputFault::OutOfResources
    }
}

/// Some octets to read into.
fn make_room(alloc: Global, size: usize) -> Result<Vec<u8>, AllocError>
    ensures { IfOk result (λ room. vec_len room ≡ size) }
{
    vec![in alloc; 0; size]
}

/// Reads once into the room, and puts what came behind the input. The answer is how many octets came.
fn read_piece<S: Source>(
    src: &mut S,
    room: &mut [u8],
    input: &mut Vec<u8>,
) -> Result<usize, InputFault>
    requires { 0 < length room.old }
    ensures piece { IfOk result (PutsPiece (S.left src.old) (S.left src.new) input.old.items input.new.items) }
    ensures bound { IfOk result (λ n. n ≤ length room.old) }
    ensures taken { TakesAtMost (S.left src.old) (S.left src.new) (length room.old) }
    ensures cause { HasInputCause (S.faults src.old) (S.faults src.new) result }
    ensures not_too_long { result ≢ Err InputFault.TooLong }
{
    let count = src.read(room)?;
    input.extend_from_slice(&room[..count])?;
    Ok(count)
}

/// Reads a source to its end.
pub fn read_all<S: Source>(alloc: Global, src: &mut S) -> Result<Vec<u8>, InputFault>
    // All of the input, which isn't longer than the limit.
    ensures whole { IfOk result (λ input. IfSome (S.left src.old) (λ octets. input.items ≡ octets)) }
    ensures end { OnOk result (IsAtEnd (S.left src.new)) }
    ensures bound { IfOk result (λ input. length input.items ≤ input_limit) }

    // What it took, whatever it answers.
    ensures taken { TakesAtMost (S.left src.old) (S.left src.new) (input_limit + 1) }

    // When the faults come.
    ensures too_long { IsErrOf result InputFault.TooLong → IfSome (S.left src.old) (λ octets. input_limit < length octets) }
    ensures cause { HasInputCause (S.faults src.old) (S.faults src.new) result }
    ensures count { S.faults src.new ≢ S.faults src.old → IsErrOf result InputFault.Failed }
{
    let mut room = make_room(alloc, PIECE)?;
    let mut input = Vec::new(alloc);
    while input.len() < MOST {
        let free = PIECE.min(MOST - input.len());
        if read_piece(src, &mut room[..free], &mut input)? == 0 {
            return Ok(input);
        }
    }
    Err(InputFault::TooLong)
}
