//! What a command writes at its end: a text, or the line that refuses its input.
ghost use Rattle.std.specs.Prelude.{◌≡◌, ◌≢◌, ◌⊎◌, IfOk};
ghost use Rattle.std.specs.Io.KnownBytes.{Appends};
ghost use Rattle.efi_outside.specs.Causes.{AppendsFront, Rose};
ghost use Rattle.boot_top.specs.Extract.{bad_input_text};

use crate::status::{BAD_INPUT, NO_MEMORY, SINK_FAILED};
use efi_outside::{Miss, Sink, write_all};
use std::alloc::{AllocError, Global};

/// Writes a text. The answer is this status where all of it was written.
pub fn write_text<K: Sink>(out: &mut K, text: &[u8], status: u8) -> u8
    ensures cases { (result ≡ 5) ⊎ (result ≡ 6) ⊎ ((result ≡ status) × Appends (K.held out.old) (K.held out.new) text.now
        × (K.faults out.new ≡ K.faults out.old)) }
    ensures front { AppendsFront (K.held out.old) (K.held out.new) text.now }
    ensures sink { (result ≡ 5) → (status ≢ 5) → Rose (K.faults out.old) (K.faults out.new) }
    ensures sink_count { K.faults out.new ≢ K.faults out.old → result ≡ 5 }
{
    match write_all(out, text) {
        Ok(()) => status,
        Err(Miss::Failed) => SINK_FAILED,
        Err(Miss::OutOfResources) => NO_MEMORY,
    }
}

/// Writes the line that tells where an input is bad.
pub fn write_refusal<K: Sink>(alloc: Global, out: &mut K, place: u64) -> u8
    ensures cases { (result ≡ 5) ⊎ (result ≡ 6) ⊎ ((result ≡ 3) × Appends (K.held out.old) (K.held out.new) (bad_input_text place)
        × (K.faults out.new ≡ K.faults out.old)) }
    ensures front { (out.new ≡ out.old) ⊎ AppendsFront (K.held out.old) (K.held out.new) (bad_input_text place) }
    ensures sink { (result ≡ 5) → Rose (K.faults out.old) (K.faults out.new) }
    ensures sink_count { K.faults out.new ≢ K.faults out.old → result ≡ 5 }
{
    match bad_input_line(alloc, place) {
        Ok(line) => write_text(out, &line, BAD_INPUT),
        Err(_) => NO_MEMORY,
    }
}

/// The line that tells where an input is bad.
pub fn bad_input_line(alloc: Global, place: u64) -> Result<Vec<u8>, AllocError>
    ensures { IfOk result (λ line. line.items ≡ bad_input_text place) }
{
    let mut text = String::from_str(alloc, "bad input at ")?;
    write!(text, "{place}\n")?;
    Ok(text.into_bytes())
}
