//! The options of each command, with their defaults and ranges.
ghost use Rattle.std.specs.Prelude.{◌≡◌, is_some, option_map};
ghost use Rattle.clap.specs.Words.{first_value, found_of};
ghost use Rattle.boot_words.specs.Lines.{given_by};
ghost use Rattle.boot_words.specs.Tasks as spec;

use crate::numbers::{mac, number};
use crate::task::{Emit, ExtractTask, MakeTask, ReplayTask, Task};
use clap::ArgMatches;
use efi_base::Mac;

/// The most octets of a buffer.
const MOST_BUFFER: u32 = 1_073_741_824;

/// The octets of a buffer where none is given.
const BUFFER: u32 = 16_777_216;

/// The station's number where none is given.
const SEED: u32 = 1;

/// The station's address where none is given.
const MAC: Mac = Mac([2, 0, 0, 0, 0, 1]);

fn emit_word(text: &str) -> Option<Emit>
    ensures { result ≡ spec.emit_word text.now }
{
    match text {
        "report" => Some(Emit::Report),
        "image" => Some(Emit::Image),
        _ => None,
    }
}

fn emit(matches: &ArgMatches<'_>, default: Emit) -> Option<Emit>
    ensures { result ≡ spec.emit_of default (given_by matches.now).emit }
{
    match matches.get_str("emit") {
        Some(text) => emit_word(text),
        None => Some(default),
    }
}

fn buffer(matches: &ArgMatches<'_>) -> Option<u32>
    ensures { result ≡ spec.buffer_of (given_by matches.now).buffer }
{
    match matches.get_str("buffer") {
        Some(text) => number(text, MOST_BUFFER),
        None => Some(BUFFER),
    }
}

fn seed(matches: &ArgMatches<'_>) -> Option<u32>
    ensures { result ≡ spec.seed_of (given_by matches.now).seed }
{
    match matches.get_str("seed") {
        Some(text) => number(text, u32::MAX),
        None => Some(SEED),
    }
}

fn station(matches: &ArgMatches<'_>) -> Option<Mac>
    ensures { result ≡ spec.mac_value (given_by matches.now).mac }
{
    match matches.get_str("mac") {
        Some(text) => mac(text.as_bytes()),
        None => Some(MAC),
    }
}

fn is_file_name(name: &[u8]) -> bool
    ensures { result ≡ spec.is_file_name name.now }
{
    match name {
        [] => false,
        [first, ..] => *first != b'-',
    }
}

fn capture_passes(matches: &ArgMatches<'_>) -> bool
    ensures { result ≡ spec.capture_passes (given_by matches.now).capture }
{
    match matches.get_str("capture") {
        Some(name) => is_file_name(name.as_bytes()),
        None => true,
    }
}

fn has(matches: &ArgMatches<'_>, id: &str) -> bool
    ensures { result ≡ is_some (first_value (found_of matches.now) id.now) }
{
    matches.get_str(id).is_some()
}

fn extract(matches: &ArgMatches<'_>) -> Option<Task>
    ensures { result ≡ spec.extract_task (given_by matches.now) }
{
    if has(matches, "capture") || has(matches, "seed") || has(matches, "mac") {
        return None;
    }
    let Some(emit) = emit(matches, Emit::Image) else {
        return None;
    };
    let Some(buffer) = buffer(matches) else {
        return None;
    };
    Some(Task::Extract(ExtractTask { emit, buffer }))
}

fn script(matches: &ArgMatches<'_>) -> Option<Task>
    ensures { result ≡ spec.script_task (given_by matches.now) }
{
    if has(matches, "emit") || has(matches, "capture") || has(matches, "buffer") {
        return None;
    }
    if has(matches, "seed") || has(matches, "mac") {
        return None;
    }
    Some(Task::Script)
}

fn replay(matches: &ArgMatches<'_>) -> Option<Task>
    ensures { result ≡ spec.replay_task (given_by matches.now) }
{
    if !capture_passes(matches) {
        return None;
    }
    let Some(emit) = emit(matches, Emit::Report) else {
        return None;
    };
    let Some(buffer) = buffer(matches) else {
        return None;
    };
    let Some(seed) = seed(matches) else {
        return None;
    };
    let Some(mac) = station(matches) else {
        return None;
    };
    Some(Task::Replay(ReplayTask {
        emit,
        buffer,
        seed,
        mac,
    }))
}

fn session_emit(matches: &ArgMatches<'_>, default: Emit) -> Option<Emit>
    ensures { result ≡ spec.session_emit default (given_by matches.now) }
{
    if has(matches, "buffer") || has(matches, "seed") || has(matches, "mac") {
        return None;
    }
    if !capture_passes(matches) {
        return None;
    }
    emit(matches, default)
}

fn boot(matches: &ArgMatches<'_>) -> Option<Task>
    ensures { result ≡ option_map Task.Boot (spec.session_emit Emit.Report (given_by matches.now)) }
{
    match session_emit(matches, Emit::Report) {
        Some(emit) => Some(Task::Boot(emit)),
        None => None,
    }
}

fn tftp(matches: &ArgMatches<'_>) -> Option<Task>
    ensures { result ≡ option_map Task.Tftp (spec.session_emit Emit.Image (given_by matches.now)) }
{
    match session_emit(matches, Emit::Image) {
        Some(emit) => Some(Task::Tftp(emit)),
        None => None,
    }
}

fn make(matches: &ArgMatches<'_>) -> Option<Task>
    ensures { result ≡ spec.make_task (given_by matches.now) }
{
    if has(matches, "buffer") || has(matches, "mac") || !capture_passes(matches) {
        return None;
    }
    let Some(emit) = emit(matches, Emit::Report) else {
        return None;
    };
    let Some(text) = matches.get_str("seed") else {
        return None;
    };
    let Some(seed) = number(text, u32::MAX) else {
        return None;
    };
    Some(Task::Make(MakeTask { emit, seed }))
}

fn named(matches: &ArgMatches<'_>, command: &str) -> Option<Task>
    ensures { result ≡ spec.named_task (given_by matches.now) command.now }
{
    match command {
        "extract" => extract(matches),
        "script" => script(matches),
        "replay" => replay(matches),
        "boot" => boot(matches),
        "tftp" => tftp(matches),
        "make" => make(matches),
        _ => None,
    }
}

/// What the command and its options ask for.
pub fn task(matches: &ArgMatches<'_>) -> Option<Task>
    ensures { result ≡ spec.task_of (given_by matches.now) }
{
    match matches.get_str("command") {
        Some(command) => named(matches, command),
        None => None,
    }
}
