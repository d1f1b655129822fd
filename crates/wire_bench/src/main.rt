//! A program to time the wire crates with: it does one kind of work on the segments of standard input, so many rounds,
//! and prints a number that all of them went into. The clock is the caller's (bench/wire.py).
#![tactic(auto)]

use efi_base::{Ip4, checksum};
use efi_outside::{StdSource, read_all};
use std::{env, io};
use wire_l4::read_tcp;

/// The octets of a segment: a header without options, and 1,460 octets of data.
const SEGMENT: usize = 1480;

/// The addresses of the segments.
const SRC: Ip4 = Ip4(0x0A00_0001);

const DEST: Ip4 = Ip4(0x0A00_0002);

/// What is done with a segment.
#[derive(Clone, Copy)]
enum Work {
    /// It is copied.
    Copy,
    /// It is summed.
    Sum,
    /// It is read, with its checksum.
    Read,
}

fn main(rt: HostRuntime) -> io::Result<()> {
    let mut words = env::args(&rt)?.skip(1);
    let work = work_of(words.next());
    let rounds = rounds_of(words.next());
    let mut source = StdSource::new(rt.stdin());
    match read_all(rt.alloc(), &mut source) {
        Ok(input) => println!(rt; "{}", repeat(work, rounds, &input)),
        Err(_) => println!(rt; "the input was not read"),
    }
}

fn work_of(word: Option<String>) -> Work {
    match word {
        Some(word) if word.as_str() == "sum" => Work::Sum,
        Some(word) if word.as_str() == "read" => Work::Read,
        _ => Work::Copy,
    }
}

fn rounds_of(word: Option<String>) -> u32 {
    match word {
        Some(word) => word.parse::<u32>().unwrap_or(1),
        None => 1,
    }
}

/// Does the work on all segments, so many rounds.
fn repeat(work: Work, rounds: u32, input: &[u8]) -> u64 {
    let mut room = [0; SEGMENT];
    let mut total = 0u64;
    for _ in 0..rounds {
        total = total.wrapping_add(round(work, input, &mut room, total));
    }
    total
}

/// Does the work once on each segment. What came before decides which octet of a copy counts, so that each copy is
/// made.
fn round(work: Work, input: &[u8], room: &mut [u8; SEGMENT], before: u64) -> u64 {
    let mut total = before;
    for segment in input.chunks_exact(SEGMENT) {
        total = total.wrapping_add(once(work, segment, room, total));
    }
    total.wrapping_sub(before)
}

fn once(work: Work, segment: &[u8], room: &mut [u8; SEGMENT], before: u64) -> u64 {
    match work {
        Work::Copy => {
            let size = segment.len().min(SEGMENT);
            room[..size].copy_from_slice(&segment[..size]);
            room[before as usize % SEGMENT] as u64
        }
        Work::Sum => checksum(&[], segment) as u64,
        Work::Read => match read_tcp(SRC, DEST, segment) {
            Ok(tcp) => tcp.payload.len() as u64,
            Err(_) => 0,
        },
    }
}
