//! What the top call answers over memory sources and sinks, with ample memory, by each of its statuses but want of memory and
//! an input that is too long. The capture was made by another program.
use crate::{
    BAD_INPUT, BAD_WORDS, ENDED_OTHERWISE, NOT_BUILT, SINK_FAILED, SOURCE_FAILED, SUCCESS, run,
};
use efi_outside::{DropSink, MemSink, MemSource};
use std::alloc::Global;
use std::test::Fail;

/// A SYN, its answer, and a response whose body is the octet `A`.
const FIRST: &str = "\
    d4c3b2a10200040000000000000000000000040001000000000000000000000036000000360000000200000000020200\
    0000000108004500002800010000400666cd0a0000020a000001c001005000010000000000005002ffffdb8d00000000\
    0000d0070000360000003600000002000000000102000000000208004500002800010000400666cd0a0000010a000002\
    0050c001000003e8000100015012ffffd794000000000000a00f00005d0000005d000000020000000001020000000002\
    08004500004f00020000400666a50a0000010a0000020050c001000003e9000100015018ffffe7660000485454502f31\
    2e3120323030204f4b0d0a436f6e74656e742d4c656e6774683a20310d0a0d0a41";

/// A call: its words, how many octets of the capture are there, the numbers of the read and of the write that fail, the status,
/// and what is written.
type Row = (&'static str, usize, u64, u64, u8, &'static str);

const ROWS: [Row; 9] = [
    ("extract", 273, 0, 0, SUCCESS, "A"),
    ("extract", 164, 0, 0, ENDED_OTHERWISE, ""),
    ("extrac", 273, 0, 0, BAD_WORDS, ""),
    ("extract", 272, 0, 0, BAD_INPUT, "bad input at 164\n"),
    ("extract", 273, 1, 0, SOURCE_FAILED, ""),
    ("extract", 273, 0, 1, SINK_FAILED, ""),
    ("script", 273, 0, 0, BAD_INPUT, "bad input at 0\n"),
    ("boot", 273, 0, 0, BAD_INPUT, "bad input at 0\n"),
    ("replay", 273, 0, 0, NOT_BUILT, ""),
];

fn digit(code: u8) -> u8 {
    match code {
        b'0'..=b'9' => code - b'0',
        b'a'..=b'f' => code - b'a' + 10,
        _ => 0,
    }
}

/// The octets that pairs of hexadecimal digits write.
fn from_hex(alloc: Global, text: &str) -> Result<Vec<u8>, Fail> {
    let mut octets = Vec::new(alloc);
    for pair in text.as_bytes().chunks_exact(2) {
        let mut octet = 0u8;
        for code in pair {
            octet = (octet << 4) | digit(*code);
        }
        octets.push(octet)?;
    }
    Ok(octets)
}

/// The top call over memory, apart, since its contract would stand in the proof of what is done beside it.
fn run_over(alloc: Global, words: &Vec<String>, src: &mut MemSource, out: &mut MemSink) -> u8 {
    run(alloc, words, src, out, &mut DropSink)
}

/// The status, and whether just what is wanted is written.
fn answer_to(alloc: Global, row: &Row) -> Result<(u8, bool), Fail> {
    let (word, length, read, write, _, text) = *row;
    let mut octets = from_hex(alloc, FIRST)?;
    octets.truncate(length);
    answer_over(alloc, word, octets, (read, write), text)
}

/// The same, of a command and its input, with the numbers of the read and of the write that fail.
fn answer_over(
    alloc: Global,
    word: &str,
    octets: Vec<u8>,
    (read, write): (u64, u64),
    text: &str,
) -> Result<(u8, bool), Fail> {
    let words = vec![in alloc; String::from_str(alloc, word)?]?;
    let mut src = MemSource::new(octets, vec![in alloc; read]?);
    let mut out = MemSink::new(alloc, vec![in alloc; write]?);
    let status = run_over(alloc, &words, &mut src, &mut out);
    Ok((status, out.octets() == text.as_bytes()))
}

#[test]
fn answers_by_the_table(rt: HostRuntime) -> Result<(), Fail> {
    for row in &ROWS {
        let (status, same) = answer_to(rt.alloc(), row)?;
        assert_eq!(rt; status, row.4, "{}", row.0);
        assert!(rt; same, "{} {}", row.0, row.4);
    }
    Ok(())
}

/// A script, the number of the write that fails, the status, and what is written: the whole trace where each step is for a
/// protocol that is built.
type ScriptRow = (&'static str, u64, u8, &'static str);

const SCRIPTS: [ScriptRow; 5] = [
    (
        "efiscript 1\nsnp start\nsnp initialize\nsnp start\ncreate arp\narpfind 1 10.0.0.1\ntick 5\nend\n",
        0,
        SUCCESS,
        "efitrace 1\ndone\ndone\nrefused already-started\nhandle 1\nrefused not-started\ntick 5\nend\n",
    ),
    ("efiscript 1\nend", 0, SUCCESS, "efitrace 1\nend\n"),
    ("efiscript 1\nend\n", 1, SINK_FAILED, ""),
    (
        "efiscript 1\nsnp start\ncreate udp4\nend\n",
        0,
        NOT_BUILT,
        "",
    ),
    (
        "efiscript 1\nsnp start\nsnp begin\nend\n",
        0,
        BAD_INPUT,
        "bad input at 22\n",
    ),
];

#[test]
fn scripts_are_run(rt: HostRuntime) -> Result<(), Fail> {
    for row in &SCRIPTS {
        let (script, write, wanted, text) = *row;
        let octets = script.as_bytes().to_vec(rt.alloc())?;
        let (status, same) = answer_over(rt.alloc(), "script", octets, (0, write), text)?;
        assert_eq!(rt; status, wanted, "{script}");
        assert!(rt; same, "{script}");
    }
    Ok(())
}
