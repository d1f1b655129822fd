//! The command `extract`: the image that a capture shows, or the report of it, or the line that refuses the input.
ghost use Rattle.std.specs.Prelude.{◌+◌, ◌≡◌, ◌≢◌, ◌⊎◌, ◌<◌, List, [], ℕ, length, string_bytes, IfOk, IfSome};
ghost use Rattle.std.specs.Io.KnownBytes.{Appends, IsAtEnd};
ghost use Rattle.efi_outside.specs.Causes.{AppendsFront, Rose};
ghost use Rattle.efi_outside.specs.Intake.{TakesAtMost, input_limit};
ghost use Rattle.efi_base.specs.declared.plain.Record.{Record};
ghost use Rattle.tcp_recv.specs.Stream.{front, is_over};
ghost use Rattle.tap_core.specs.Shown.{Tells};
ghost use Rattle.tap_core.specs.Shows.{Telling, Shows};
ghost use Rattle.tap_core.specs.Watching.{IsSeen};
ghost use Rattle.wire_pcap.specs.Reading.{IsWhole};
ghost use Rattle.boot_top.specs.Extract.{EndedOtherwise, IsRefusal, Succeeded, is_success};
ghost use Rattle.efi_feed.specs.Pieces.{TakesExactly};
ghost use Rattle.boot_top.specs.Watched.{HasNoReport, IsAnswered, IsAnswerText, IsWatched};
ghost use Rattle.boot_words.specs.declared.task.Emit.TheVariants as emit;

use crate::capture::watch_source;
use crate::report::report_of;
use crate::status::{BAD_INPUT, ENDED_OTHERWISE, NO_MEMORY, SOURCE_FAILED, SUCCESS, TOO_LONG};
use crate::watching::Watched;
use crate::writing::{bad_input_line, write_text};
use boot_words::{Emit, ExtractTask};
use doc_text::report_text;
use efi_base::{LoadEnd, NoMemory};
use efi_outside::{InputFault, Sink, Source};
use std::alloc::Global;
use tap_core::{Seen, Shown};

/// What is answered to an input.
pub enum Answer {
    /// What is written where the download ends with success.
    Success(Vec<u8>),
    /// What is written where it ends otherwise: nothing where the image is asked for.
    Otherwise(Vec<u8>),
    /// The line that refuses the input.
    Refused(Vec<u8>),
}

/// Reads the source to its end, and writes what the task asks for of the capture that it gives. The capture is read passively.
pub fn extract<S: Source, K: Sink>(alloc: Global, task: ExtractTask, src: &mut S, out: &mut K) -> u8
    // The download on the capture ends with success, or otherwise, and this was written.
    ensures success { result ≡ 0 → IfSome (S.left src.old) (λ input. (text : List ℕ) × Succeeded task input text
        × Appends (K.held out.old) (K.held out.new) text) }
    ensures otherwise { result ≡ 1 → IfSome (S.left src.old) (λ input. (text : List ℕ) × EndedOtherwise task input text
        × Appends (K.held out.old) (K.held out.new) text) }

    // The whole input is no capture, and the line that tells so was written.
    ensures refused { result ≡ 3 → IfSome (S.left src.old) (λ input. (line : List ℕ) × IsRefusal input line
        × Appends (K.held out.old) (K.held out.new) line) }
    ensures read_whole { (result ≡ 0) ⊎ (result ≡ 1) ⊎ (result ≡ 3) ⊎ (result ≡ 5) → IsAtEnd (S.left src.new) }
    ensures read_first { out.new ≢ out.old → IsAtEnd (S.left src.new) }
    ensures taken { TakesAtMost (S.left src.old) (S.left src.new) (input_limit + 1) }

    // The input is longer than the limit: so much of it was taken, and no more.
    ensures too_long { result ≡ 7 → TakesExactly (S.left src.old) (S.left src.new) (input_limit + 1) }
    ensures failed { result ≡ 4 → TakesAtMost (S.left src.old) (S.left src.new) input_limit }
    ensures long { IfSome (S.left src.old) (λ input. input_limit < length input
        → (result ≡ 4) ⊎ (result ≡ 6) ⊎ (result ≡ 7)) }

    // When the other answers come.
    ensures source { result ≡ 4 → Rose (S.faults src.old) (S.faults src.new) }
    ensures sink { result ≡ 5 → Rose (K.faults out.old) (K.faults out.new) }
    ensures source_count { S.faults src.new ≢ S.faults src.old → result ≡ 4 }
    ensures sink_count { K.faults out.new ≢ K.faults out.old → result ≡ 5 }
    ensures others { (result ≡ 0) ⊎ (result ≡ 1) ⊎ (result ≡ 3) ⊎ (result ≡ 4) ⊎ (result ≡ 5) ⊎ (result ≡ 6) ⊎ (result ≡ 7) }

    // What is written: a front of the text where a write failed or memory ran out, and nothing with the others.
    ensures front { (result ≡ 5) ⊎ (result ≡ 6) → IfSome (S.left src.old) (λ input.
        (out.new ≡ out.old) ⊎ ((text : List ℕ) × IsAnswerText task input text × AppendsFront (K.held out.old) (K.held out.new) text)) }
    ensures nothing { (result ≡ 4) ⊎ (result ≡ 7) → out.new ≡ out.old }
    ensures no_image { result ≡ 1 → task.emit ≡ emit.Image → out.new ≡ out.old }
{
    let watched = match watch_source(alloc, task.buffer, src) {
        Ok(watched) => watched,
        Err(InputFault::Failed) => return SOURCE_FAILED,
        Err(InputFault::OutOfResources) => return NO_MEMORY,
        Err(InputFault::TooLong) => return TOO_LONG,
    };
    match answer_of(alloc, task, watched) {
        Ok(Answer::Success(text)) => write_text(out, &text, SUCCESS),
        Ok(Answer::Otherwise(text)) => write_otherwise(out, &text),
        Ok(Answer::Refused(line)) => write_text(out, &line, BAD_INPUT),
        Err(NoMemory) => NO_MEMORY,
    }
}

/// Writes what is written where the download ends otherwise than with success; nothing is no write.
fn write_otherwise<K: Sink>(out: &mut K, text: &[u8]) -> u8
    ensures cases { (result ≡ 5) ⊎ (result ≡ 6) ⊎ ((result ≡ 1) × Appends (K.held out.old) (K.held out.new) text.now
        × (K.faults out.new ≡ K.faults out.old)) }
    ensures front { AppendsFront (K.held out.old) (K.held out.new) text.now }
    ensures sink { (result ≡ 5) → Rose (K.faults out.old) (K.faults out.new) }
    ensures sink_count { K.faults out.new ≢ K.faults out.old → result ≡ 5 }
    ensures nothing { text.now ≡ [] → out.new ≡ out.old }
{
    if text.is_empty() {
        return ENDED_OTHERWISE;
    }
    write_text(out, text, ENDED_OTHERWISE)
}

/// What is answered to an input of which this was watched.
fn answer_of(alloc: Global, task: ExtractTask, watched: Watched) -> Result<Answer, NoMemory>
    ensures answered { (bytes : List ℕ) → IsWatched task.buffer bytes watched → IfOk result (IsAnswered task bytes) }
    ensures no_image { task.emit ≡ emit.Image → IfOk result HasNoReport }
{
    match watched {
        Watched::Capture(seen) => answer_seen(alloc, task, seen),
        Watched::BadAt(place) => Ok(Answer::Refused(bad_input_line(alloc, place)?)),
    }
}

/// What is answered to a capture of which this was seen.
fn answer_seen(alloc: Global, task: ExtractTask, seen: Seen) -> Result<Answer, NoMemory>
    ensures answered { (bytes : List ℕ) → (records : List Record) → IsWhole bytes [] records → IsSeen task.buffer records seen
        → IfOk result (IsAnswered task bytes) }
    ensures no_image { task.emit ≡ emit.Image → IfOk result HasNoReport }
{
    match task.emit {
        Emit::Image => Ok(image_answer(alloc, seen)),
        Emit::Report => report_answer(alloc, &seen.shown),
    }
}

/// The image, where it is asked for.
fn image_answer(alloc: Global, seen: Seen) -> Answer
    ensures answered { (most : ℕ) (bytes : List ℕ) (records : List Record) → IsWhole bytes [] records → IsSeen most records seen
        → IsAnswered (record { emit = emit.Image; buffer = most }) bytes result }
    ensures no_image { HasNoReport result }
{
    if is_success(seen.shown.end) {
        return Answer::Success(seen.body.into_vec());
    }
    Answer::Otherwise(Vec::new(alloc))
}

/// The report, where it is asked for.
fn report_answer(alloc: Global, shown: &Shown) -> Result<Answer, NoMemory>
    ensures { (most : ℕ) (bytes : List ℕ) (records : List Record) (t : Telling) → IsWhole bytes [] records → Shows most records t
        → Tells t.end t.opening (length (front t.board.kept)) (is_over t.board) t.upto shown.now
        → IfOk result (IsAnswered (record { emit = emit.Report; buffer = most }) bytes) }
{
    let text = match report_text(alloc, &report_of(shown)) {
        Ok(text) => text.into_vec(),
        Err(e) => return Err(e),
    };
    if is_success(shown.end) {
        return Ok(Answer::Success(text));
    }
    Ok(Answer::Otherwise(text))
}

fn is_success(end: LoadEnd) -> bool
    ensures { result ≡ is_success end }
{
    match end {
        LoadEnd::Success(_) => true,
        _ => false,
    }
}
