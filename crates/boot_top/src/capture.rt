//! The input of `extract`: a capture that is read to its end in pieces, as a tap hears it.
ghost use Rattle.std.specs.Prelude.{◌+◌, ◌≡◌, ◌≢◌, ◌<◌, ◌≤◌, [], Err, length, IfOk, IfSome, IsErrOf, OnOk};
ghost use Rattle.std.specs.Io.KnownBytes.{IsAtEnd};
ghost use Rattle.efi_feed.specs.Pieces.{TakesExactly};
ghost use Rattle.efi_outside.specs.Intake.{HasInputCause, TakesAtMost, input_limit};
ghost use Rattle.boot_top.specs.Watched.{IsWatched};
ghost use Rattle.boot_top.specs.Streaming.{HasWatched};

use crate::watching::{Watched, Watching};
use efi_feed::read_whole;
use efi_outside::{InputFault, Source};
use std::alloc::Global;

/// Reads the source to its end, and watches the capture that it gives, with a buffer of so many octets.
pub fn watch_source<S: Source>(alloc: Global, most: u32, src: &mut S) -> Result<Watched, InputFault>
    // All of the input, which isn't longer than the limit.
    ensures whole { IfOk result (λ watched. IfSome (S.left src.old) (λ octets. IsWatched most octets watched)) }
    ensures end { OnOk result (IsAtEnd (S.left src.new)) }
    ensures bound { OnOk result (IfSome (S.left src.old) (λ octets. length octets ≤ input_limit)) }

    // What it took, whatever it answers.
    ensures taken { TakesAtMost (S.left src.old) (S.left src.new) (input_limit + 1) }

    // When the faults come.
    ensures too_long { IsErrOf result InputFault.TooLong → TakesExactly (S.left src.old) (S.left src.new) (input_limit + 1) }
    ensures failed { IsErrOf result InputFault.Failed → TakesAtMost (S.left src.old) (S.left src.new) input_limit }
    ensures cause { HasInputCause (S.faults src.old) (S.faults src.new) result }
{
    let watching = begin(alloc, most)?;
    read_whole(alloc, src, watching)
}

/// Nothing was read yet.
fn begin(alloc: Global, most: u32) -> Result<Watching, InputFault>
    ensures watched { IfOk result (HasWatched most []) }
    ensures fault { result ≢ Err InputFault.TooLong }
    ensures memory { result ≢ Err InputFault.Failed }
{
    match Watching::new(alloc, most) {
        Ok(watching) => Ok(watching),
        Err(_) => Err(InputFault::OutOfResources),
    }
}
