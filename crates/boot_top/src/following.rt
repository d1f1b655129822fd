//! A text that a command follows: it is read to its end, what it asks for is done and told, and one that isn't in the grammar
//! is refused. What texts mean, and what is done for them, isn't here.
ghost use Rattle.std.specs.Prelude.{◌+◌, ◌≡◌, ◌≢◌, ◌⊎◌, ◌<◌, ℕ, List, [], length, IfOk, IfSome};
ghost use Rattle.std.specs.Io.KnownBytes.{Appends, IsAtEnd};
ghost use Rattle.efi_feed.specs.Pieces.{TakesExactly};
ghost use Rattle.efi_outside.specs.Causes.{AppendsFront, Rose};
ghost use Rattle.efi_outside.specs.Intake.{TakesAtMost, input_limit};
ghost use Rattle.boot_top.specs.Extract.{bad_input_text};
ghost use Rattle.boot_top.specs.Texts.{IsOneOf, IsRefusedBy};

use crate::status::{NO_MEMORY, NOT_BUILT, SOURCE_FAILED, SUCCESS, TOO_LONG};
use crate::writing::{write_refusal, write_text};
use efi_base::{Bytes, NoMemory};
use efi_feed::{Feed, read_whole};
use efi_outside::{InputFault, Sink, Source};
use std::alloc::Global;
use text_base::TextFault;

/// What came of a text.
pub enum Told {
    /// It was followed, and this is to be written.
    Text(Bytes),
    /// It is in the grammar, and asks for what isn't built yet.
    NotBuilt,
    /// It isn't: its first bad line begins at this octet, or its last line is missing at this one.
    BadAt(u64),
}

/// Reads the source to its end as a text of the reader's grammar, and writes what came of it, or the line that refuses it.
pub fn follow_text<S: Source, K: Sink, F: Feed<Whole = Told> + Drop>(
    alloc: Global,
    reader: F,
    src: &mut S,
    out: &mut K,
) -> u8
    // The whole input was followed and all that came of it was written; or it asks for what isn't built; or it is no text of the
    // grammar, and the line that tells where was written.
    ensures said { (about : F.About) → F.has_fed about [] reader → result ≡ 0
        → IfSome (S.left src.old) (λ input. (text : List ℕ) × F.is_whole about input (Told.Text text)
        × Appends (K.held out.old) (K.held out.new) text) }
    ensures good { (about : F.About) → F.has_fed about [] reader → result ≡ 8
        → IfSome (S.left src.old) (λ input. F.is_whole about input Told.NotBuilt) }
    ensures refused { (about : F.About) → F.has_fed about [] reader → result ≡ 3
        → IfSome (S.left src.old) (λ input. (n : ℕ) × F.is_whole about input (Told.BadAt n)
        × Appends (K.held out.old) (K.held out.new) (bad_input_text n)) }
    ensures read_whole { (result ≡ 0) ⊎ (result ≡ 3) ⊎ (result ≡ 5) ⊎ (result ≡ 8) → IsAtEnd (S.left src.new) }
    ensures read_first { out.new ≢ out.old → IsAtEnd (S.left src.new) }
    ensures taken { TakesAtMost (S.left src.old) (S.left src.new) (input_limit + 1) }

    // The input is longer than the limit: so much of it was taken, and no more.
    ensures too_long { result ≡ 7 → TakesExactly (S.left src.old) (S.left src.new) (input_limit + 1) }
    ensures failed { result ≡ 4 → TakesAtMost (S.left src.old) (S.left src.new) input_limit }
    ensures long { IfSome (S.left src.old) (λ input. input_limit < length input
        → (result ≡ 4) ⊎ (result ≡ 6) ⊎ (result ≡ 7)) }

    // When the other answers come.
    ensures source { result ≡ 4 → Rose (S.faults src.old) (S.faults src.new) }
    ensures sink { result ≡ 5 → Rose (K.faults out.old) (K.faults out.new) }
    ensures source_count { S.faults src.new ≢ S.faults src.old → result ≡ 4 }
    ensures sink_count { K.faults out.new ≢ K.faults out.old → result ≡ 5 }
    ensures others { (result ≡ 0) ⊎ (result ≡ 3) ⊎ (result ≡ 4) ⊎ (result ≡ 5) ⊎ (result ≡ 6) ⊎ (result ≡ 7) ⊎ (result ≡ 8) }

    // What is written: a front of one of these where a write failed or memory ran out, and nothing with the others.
    ensures front { (about : F.About) → F.has_fed about [] reader → (result ≡ 5) ⊎ (result ≡ 6) → IfSome (S.left src.old) (λ input.
        (out.new ≡ out.old) ⊎ ((text : List ℕ) × IsOneOf (F.is_whole about input) text
        × AppendsFront (K.held out.old) (K.held out.new) text)) }
    ensures nothing { (result ≡ 4) ⊎ (result ≡ 7) ⊎ (result ≡ 8) → out.new ≡ out.old }
{
    match read_whole(alloc, src, reader) {
        Ok(Told::Text(text)) => write_text(out, text.as_slice(), SUCCESS),
        Ok(Told::NotBuilt) => NOT_BUILT,
        Ok(Told::BadAt(place)) => write_refusal(alloc, out, place),
        Err(InputFault::Failed) => SOURCE_FAILED,
        Err(InputFault::OutOfResources) => NO_MEMORY,
        Err(InputFault::TooLong) => TOO_LONG,
    }
}

/// What comes of a text that a reader refused.
pub fn refused(fault: TextFault) -> Result<Told, NoMemory>
    ensures { IfOk result (IsRefusedBy fault) }
{
    match fault {
        TextFault::BadAt(place) => Ok(Told::BadAt(place)),
        TextFault::OutOfResources => Err(NoMemory),
    }
}
