//! The top call: what the program does with its words, standard input and standard output.
ghost use Rattle.std.specs.Prelude.{◌≡◌, ◌⊎◌, List, Option, ℕ, map, string_bytes, true, None, IfSome};
ghost use Rattle.std.specs.Io.KnownBytes.{Appends};
ghost use Rattle.boot_words.specs.Grammar.{grammar_task};
ghost use Rattle.boot_words.specs.declared.task.Task.{Task};
ghost use Rattle.boot_words.specs.declared.task.ExtractTask.{ExtractTask};
ghost use Rattle.boot_words.specs.declared.task.Emit.TheVariants as emit;
ghost use Rattle.wire_http.specs.Response.{IsWhole};
ghost use Rattle.wire_l4.specs.Segment.{Segment};
ghost use Rattle.tap_core.specs.Peers.{Succeeds};
ghost use Rattle.boot_top.specs.Commands.{AskFor, AskToExtract, Answers};
ghost use Rattle.boot_top.specs.HonestPeers.{HasHonestPeer};

use crate::document::DocumentCheck;
use crate::extract::extract;
use crate::following::follow_text;
use crate::script::ScriptRun;
use crate::status::{BAD_WORDS, NO_MEMORY, NOT_BUILT};
use boot_words::{Task, WordsFault, read_words};
use efi_outside::{Sink, Source};
use std::alloc::Global;

/// Does the work that the words after the program's name name, and answers the exit status. `src` is standard input,
/// `out` is standard output, and `cap` takes the capture of commands that write one.
pub fn run<S: Source, K: Sink, P: Sink>(
    alloc: Global,
    words: &Vec<String>,
    src: &mut S,
    out: &mut K,
    cap: &mut P,
) -> u8
    // The words are no command line. They alone decide it, want of memory aside.
    ensures words { result ≡ 2 → grammar_task (map string_bytes words.now.items) ≡ None }
    ensures bad_words { grammar_task (map string_bytes words.now.items) ≡ None
        → ((result ≡ 2) ⊎ (result ≡ 6)) × (src.new ≡ src.old) × (out.new ≡ out.old) × (cap.new ≡ cap.old) }

    // They ask for a task: the status, and what is read and written for it, command by command.
    ensures answers { (task : Task) → AskFor (map string_bytes words.now.items) task → Answers task
        (record { old = src.old; new = src.new; octets = S.left; faults = S.faults })
        (record { old = out.old; new = out.new; octets = K.held; faults = K.faults })
        (record { old = cap.old; new = cap.new; octets = P.held; faults = P.faults }) result }

    // Where every cut of the connection comes from a peer that speaks one stream, however lost, repeated or reordered, the
    // download succeeds exactly where the accepted stream comes to hold a whole response of status 200 that fits the buffer, and
    // the image is the body of the peer's whole stream.
    ensures honest_download { (t : ExtractTask) → AskToExtract (map string_bytes words.now.items) t
        → IfSome (S.left src.old) (λ input. (irs : ℕ) (heard : List (Option Segment)) (stream : List ℕ) → HasHonestPeer input irs heard stream
        → (result ≡ 0 → Succeeds t.buffer irs heard)
        × (result ≡ 1 → Succeeds t.buffer irs heard → ⊥)
        × (result ≡ 0 → t.emit ≡ emit.Image → (body : List ℕ) × IsWhole stream true 200 body
        × Appends (K.held out.old) (K.held out.new) body)) }
{
    match read_words(alloc, words) {
        Ok(Task::Extract(task)) => extract(alloc, task, src, out),
        Ok(Task::Boot(_)) => follow_text(alloc, DocumentCheck::new(alloc), src, out),
        Ok(Task::Tftp(_)) => follow_text(alloc, DocumentCheck::new(alloc), src, out),
        Ok(Task::Script) => follow_text(alloc, ScriptRun::new(alloc), src, out),
        Ok(Task::Replay(_)) => NOT_BUILT,
        Ok(Task::Make(_)) => NOT_BUILT,
        Err(WordsFault::Bad) => BAD_WORDS,
        Err(WordsFault::OutOfResources) => NO_MEMORY,
    }
}
