//! Command lines, right and wrong.
use crate::{Emit, ExtractTask, MakeTask, ReplayTask, Task, WordsFault, capture_name, read_words};
use efi_base::Mac;
use std::alloc::{AllocError, Global};

const BUFFER: u32 = 16_777_216;

const OWN: Mac = Mac([2, 0, 0, 0, 0, 1]);

fn owned(alloc: Global, words: &[&str]) -> Result<Vec<String>, AllocError> {
    let mut line = Vec::new(alloc);
    for word in words {
        line.push(String::from_str(alloc, word)?)?;
    }
    Ok(line)
}

fn read(alloc: Global, words: &[&str]) -> Result<Task, WordsFault> {
    match owned(alloc, words) {
        Ok(line) => read_words(alloc, &line),
        Err(_) => Err(WordsFault::OutOfResources),
    }
}

fn extract(emit: Emit, buffer: u32) -> Task {
    Task::Extract(ExtractTask { emit, buffer })
}

fn replay(emit: Emit, buffer: u32, seed: u32, mac: Mac) -> Task {
    Task::Replay(ReplayTask {
        emit,
        buffer,
        seed,
        mac,
    })
}

fn make(emit: Emit, seed: u32) -> Task {
    Task::Make(MakeTask { emit, seed })
}

#[test]
fn reads_command_lines(rt: HostRuntime) {
    let cases: [(&[&str], Task); 19] = [
        (&["extract"], extract(Emit::Image, BUFFER)),
        (&["extract", "--emit=report"], extract(Emit::Report, BUFFER)),
        (&["--buffer", "0", "extract"], extract(Emit::Image, 0)),
        (
            &["extract", "--buffer", "1073741824"],
            extract(Emit::Image, 1_073_741_824),
        ),
        (&["script"], Task::Script),
        (&["replay"], replay(Emit::Report, BUFFER, 1, OWN)),
        (
            &[
                "--emit",
                "image",
                "--seed=0",
                "replay",
                "--mac",
                "fe:09:af:00:ff:10",
            ],
            replay(
                Emit::Image,
                BUFFER,
                0,
                Mac([0xFE, 0x09, 0xAF, 0, 0xFF, 0x10]),
            ),
        ),
        (
            &[
                "replay",
                "--seed",
                "4294967295",
                "--capture",
                "x",
                "--buffer=7",
            ],
            replay(Emit::Report, 7, u32::MAX, OWN),
        ),
        (&["boot"], Task::Boot(Emit::Report)),
        (&["boot", "--emit", "image"], Task::Boot(Emit::Image)),
        (&["boot", "--capture=a=-b"], Task::Boot(Emit::Report)),
        (&["boot", "--capture", "a b"], Task::Boot(Emit::Report)),
        (&["boot", "--capture", "make"], Task::Boot(Emit::Report)),
        (&["boot", "--capture", "\u{e9}-"], Task::Boot(Emit::Report)),
        (&["tftp"], Task::Tftp(Emit::Image)),
        (&["tftp", "--emit=report"], Task::Tftp(Emit::Report)),
        (&["make", "--seed", "1"], make(Emit::Report, 1)),
        (
            &["--capture=x", "--seed=7", "--emit=image", "make"],
            make(Emit::Image, 7),
        ),
        (
            &["--emit", "report", "extract"],
            extract(Emit::Report, BUFFER),
        ),
    ];
    for (words, want) in cases {
        assert_eq!(rt; read(rt.alloc(), words), Ok(want));
    }
}

#[test]
fn refuses_other_words(rt: HostRuntime) {
    let cases: [&[&str]; 55] = [
        &[],
        &[""],
        &["boot", "--emit", "pdf"],
        &["script", "--emit", "image"],
        &["make"],
        &["boot", "boot"],
        &["boot", "--"],
        &["--", "boot"],
        &["boot", "-"],
        &["boot", ""],
        &["", "boot"],
        &["boot", "--capture", ""],
        &["boot", "--capture", "-"],
        &["boot", "--capture", "--"],
        &["boot", "--capture", "-x"],
        &["boot", "--capture", "--emit", "image"],
        &["boot", "--capture="],
        &["boot", "--capture=-x"],
        &["boot", "--capture"],
        &["boot", "--capture", "x", "--capture", "y"],
        &["boot", "--capture=x", "--capture=x"],
        &["extract", "--emit=image", "--emit", "image"],
        &["extract", "--emit", "image", "--emit=image"],
        &["extract", "--emit="],
        &["extract", "--emit=IMAGE"],
        &["extract", "--EMIT=image"],
        &["extract", "--buffer", "007"],
        &["extract", "--buffer", "00"],
        &["extract", "--buffer", "-1"],
        &["extract", "--buffer=-1"],
        &["extract", "--buffer", "+1"],
        &["extract", "--buffer", " 1"],
        &["extract", "--buffer", "1_0"],
        &["extract", "--buffer", "1073741825"],
        &["extract", "--buffer", "18446744073709551617"],
        &["extract", "--buf", "1"],
        &["extract", "--seed", "1"],
        &["extract", "--capture", "x"],
        &["replay", "--seed", "4294967296"],
        &["replay", "--mac", "03:00:00:00:00:01"],
        &["replay", "--mac", "02:00:00:00:00:0A"],
        &["replay", "--mac", "02:00:00:00:00"],
        &["replay", "--mac", "02-00-00-00-00-01"],
        &["replay", "--mac", "02:00:00:00:00:01:02"],
        &["make", "--seed", "1", "--buffer", "1"],
        &["tftp", "--buffer", "1"],
        &["script", "--seed", "1"],
        &["--help"],
        &["-h"],
        &["help"],
        &["--version"],
        &["-V"],
        &["boot", "--help"],
        &["boot", "-e", "image"],
        &["Boot"],
    ];
    for words in cases {
        assert_eq!(rt; read(rt.alloc(), words), Err(WordsFault::Bad));
    }
}

fn name_of(alloc: Global, words: &[&str]) -> Option<usize> {
    match owned(alloc, words) {
        Ok(line) => capture_name(&line),
        Err(_) => None,
    }
}

#[test]
fn finds_the_name_of_the_capture(rt: HostRuntime) {
    let cases: [(&[&str], Option<usize>); 8] = [
        (&[], None),
        (&["boot", "--emit", "image"], None),
        (&["boot", "--capture"], None),
        (&["boot", "--capture", "x"], Some(2)),
        (&["--capture=x", "boot", "--capture", "y"], Some(0)),
        (&["--capture", "x", "--capture=y"], Some(1)),
        (&["boot", "--capture="], Some(1)),
        (&["--captures", "--capture", "--capture"], Some(2)),
    ];
    for (words, want) in cases {
        assert_eq!(rt; name_of(rt.alloc(), words), want);
    }
}
