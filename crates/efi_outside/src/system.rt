//! The trusted edge: standard input and output and a file, as sources and sinks. They tell what their reader or writer tells
//! of its octets; those of the system tell none. An error of the system, also an interruption, counts as one fault.
ghost use Rattle.std.specs.Prelude.{◌≡◌, ◌≢◌, ◌<◌, ◌≤◌, None, length, take, IfOk, IfSome, OnErr, option_and_then};
ghost use Rattle.std.specs.Io.{ReadsAtMost, WritesAtMost};
ghost use Rattle.std.specs.Io.KnownBytes.{Appends, ReadConsumes, WriteAppends};
ghost use Rattle.efi_outside.specs.Causes.{AppendsFront, HasCause, HasMissCause};
ghost use Rattle.efi_outside.specs.Memory.{count_up};

use crate::fault::{Failed, Miss};
use crate::outside::{Sink, Source};
use std::fs;
use std::io::{Read, Write};
use std::marker::Model;
use std::rt::Files;

/// Standard input, or another reader of the system.
#[derive(Drop)]
pub struct StdSource<R: Read> {
    input: R,
    faults: u64,
}

impl<R: Read> Model for StdSource<R> {
    ghost use Rattle.efi_outside.specs.Edge.{Edge};

    ghost Value = { Edge };

    ghost view = { λ s. record { octets = R.remaining s.input; faults = s.faults } };
}

impl<R: Read> StdSource<R> {
    pub fn new(input: R) -> StdSource<R>
        ensures { result ≡ record { octets = R.remaining input; faults = 0 } }
    {
        StdSource { input, faults: 0 }
    }
}

impl<R: Read> Source for StdSource<R> {
    ghost left = { λ s. s.octets };

    ghost faults = { λ s. s.faults };

    fn read(&mut self, room: &mut [u8]) -> Result<usize, Failed>
        ensures bound { ReadsAtMost result room.new }
        ensures bytes { ReadConsumes self.old.octets self.new.octets result room.new }
        ensures cause { HasCause self.old.faults self.new.faults result }
        ensures failed { OnErr result (self.new.faults ≡ count_up self.old.faults) }
    {
        match self.input.read(room) {
            Ok(count) => Ok(count),
            Err(_) => {
                self.faults = self.faults.saturating_add(1);
                Err(Failed)
            }
        }
    }
}

/// Hands octets at the front of a piece to the system. `None` is an error, or that it took none of some.
fn hand_over<W: Write>(output: &mut W, piece: &[u8]) -> Option<usize>
    ensures bound { IfSome result (λ n. n ≤ length piece.now) }
    ensures moves { IfSome result (λ n. 0 < length piece.now → 0 < n) }
    ensures handed { IfSome result (λ n. Appends (W.contents output.old) (W.contents output.new) (take n piece.now)) }
    ensures front { AppendsFront (W.contents output.old) (W.contents output.new) piece.now }
{
    let Ok(count) = output.write(piece) else {
        return None;
    };
    let Ok(()) = output.flush() else {
        return None;
    };
    if count == 0 && !piece.is_empty() {
        return None;
    }
    Some(count)
}

/// Standard output, or another writer of the system. What a write took was handed to the system.
#[derive(Drop)]
pub struct StdSink<W: Write> {
    output: W,
    faults: u64,
}

impl<W: Write> Model for StdSink<W> {
    ghost use Rattle.efi_outside.specs.Edge.{Edge};

    ghost Value = { Edge };

    ghost view = { λ s. record { octets = W.contents s.output; faults = s.faults } };
}

impl<W: Write> StdSink<W> {
    pub fn new(output: W) -> StdSink<W>
        ensures { result ≡ record { octets = W.contents output; faults = 0 } }
    {
        StdSink { output, faults: 0 }
    }
}

impl<W: Write> Sink for StdSink<W> {
    ghost held = { λ _. None };

    ghost faults = { λ s. s.faults };

    fn write(&mut self, piece: &[u8]) -> Result<usize, Miss>
        ensures bound { WritesAtMost result piece.now }
        ensures moves { IfOk result (λ n. 0 < length piece.now → 0 < n) }
        ensures bytes { WriteAppends None None result piece.now }
        ensures cause { HasMissCause self.old.faults self.new.faults result }

        // The writer took what is answered, and after a fault it may have taken some of the piece.
        ensures handed { IfOk result (λ n. Appends self.old.octets self.new.octets (take n piece.now)) }
        ensures front { AppendsFront self.old.octets self.new.octets piece.now }
        ensures failed { OnErr result (self.new.faults ≡ count_up self.old.faults) }
        ensures only_failed { result ≢ Err Miss.OutOfResources }
    {
        match hand_over(&mut self.output, piece) {
            Some(count) => Ok(count),
            None => {
                self.faults = self.faults.saturating_add(1);
                Err(Miss::Failed)
            }
        }
    }
}

/// A file, which is made or emptied at the first write.
#[derive(Drop)]
pub struct FileSink<'a, R: Files> {
    files: &'a R,
    path: &'a str,
    file: Option<R::File>,
    faults: u64,
}

impl<'a, R: Files> Model for FileSink<'a, R> {
    ghost use Rattle.std.specs.Prelude.{option_and_then};
    ghost use Rattle.efi_outside.specs.Edge.{Edge};

    ghost Value = { Edge };

    ghost view = { λ s. record { octets = option_and_then R.File.contents s.file; faults = s.faults } };
}

impl<'a, R: Files> FileSink<'a, R> {
    pub fn new(files: &'a R, path: &'a str) -> FileSink<'a, R>
        ensures { result ≡ record { octets = None; faults = 0 } }
    {
        FileSink {
            files,
            path,
            file: None,
            faults: 0,
        }
    }
}

/// Hands octets at the front of a piece to the file, which is opened first where it isn't open yet.
fn hand_to_file<R: Files>(
    files: &R,
    path: &str,
    file: &mut Option<R::File>,
    piece: &[u8],
) -> Option<usize>
    ensures bound { IfSome result (λ n. n ≤ length piece.now) }
    ensures moves { IfSome result (λ n. 0 < length piece.now → 0 < n) }
    ensures handed { IfSome result (λ n. Appends (option_and_then R.File.contents file.old) (option_and_then R.File.contents file.new)
        (take n piece.now)) }
    ensures opened { IfSome result (λ n. (made : R.File) × Appends (R.File.contents made) (option_and_then R.File.contents file.new) (take n piece.now)) }
    ensures front { AppendsFront (option_and_then R.File.contents file.old) (option_and_then R.File.contents file.new) piece.now }
{
    match file {
        Some(open) => hand_over(open, piece),
        None => {
            let Ok(mut made) = fs::create(files, path) else {
                return None;
            };
            let count = hand_over(&mut made, piece);
            *file = Some(made);
            count
        }
    }
}

impl<R: Files> Sink for FileSink<'_, R> {
    ghost held = { λ _. None };

    ghost faults = { λ s. s.faults };

    fn write(&mut self, piece: &[u8]) -> Result<usize, Miss>
        ensures bound { WritesAtMost result piece.now }
        ensures moves { IfOk result (λ n. 0 < length piece.now → 0 < n) }
        ensures bytes { WriteAppends None None result piece.now }
        ensures cause { HasMissCause self.old.faults self.new.faults result }

        // The same of the file, once it is open. At the first write, too, what is answered are the last octets that the file
        // took; what stands in front of them no clause says, since nothing is known of a file that was just made.
        ensures handed { IfOk result (λ n. Appends self.old.octets self.new.octets (take n piece.now)) }
        ensures opened { IfOk result (λ n. (made : R.File) × Appends (R.File.contents made) self.new.octets (take n piece.now)) }
        ensures front { AppendsFront self.old.octets self.new.octets piece.now }
        ensures failed { OnErr result (self.new.faults ≡ count_up self.old.faults) }
        ensures only_failed { result ≢ Err Miss.OutOfResources }
    {
        match hand_to_file(self.files, self.path, &mut self.file, piece) {
            Some(count) => Ok(count),
            None => {
                self.faults = self.faults.saturating_add(1);
                Err(Miss::Failed)
            }
        }
    }
}

/// It takes everything, tells nothing and never fails.
#[derive(Clone, Copy, Debug)]
pub struct DropSink;

impl Sink for DropSink {
    ghost held = { λ _. None };

    ghost faults = { λ _. 0 };

    fn write(&mut self, piece: &[u8]) -> Result<usize, Miss>
        ensures bound { WritesAtMost result piece.now }
        ensures moves { IfOk result (λ n. 0 < length piece.now → 0 < n) }
        ensures bytes { WriteAppends None None result piece.now }
        ensures cause { HasMissCause 0 0 result }
        ensures whole { result ≡ Ok (length piece.now) }
    {
        Ok(piece.len())
    }
}
