//! The rows of a table, one run of the program or two for each. A row is a text:
//!
//! ```text
//! # the name of the row
//! stream the octets that the peer sends, where they aren't those of a plain response
//! station the number with which the station begins, where it isn't 65,536
//! peer the number with which the peer begins, where it isn't 1,000
//! words the command line, where it isn't `extract`
//! send the steps of the capture, with bars between
//! // a note
//! ```
//!
//! Its capture is written in both byte orders: the image of the one is asked for, and the report of the other. A row whose
//! capture was made elsewhere has these lines, and is run once, with its words as they are:
//!
//! ```text
//! hex the octets of the capture
//! again whatever, where the capture is that of the last row that has its octets
//! length how many of the octets are there, where not all are
//! order whatever, where the capture's magic number is that of the other byte order
//! read-fails the number of the first read that fails
//! write-fails the number of the first write that fails
//! ```
use crate::fault::RowFault;
use crate::sent::{Plan, put_step};
use crate::steps::step_of;
use crate::text::{octets_of, parsed_number, put_hex, put_visible, word_of};
use boot_top::run;
use efi_outside::{DropSink, MemSink, MemSource};
use std::alloc::{AllocError, Global};
use test_frames::{Form, Writer, begun};

/// The words with which the lines of a row begin.
const LINES: &str = "stream station peer words send hex again length order read-fails write-fails";

/// The stream of a plain response: a head of 39 octets, and an image of 10.
const STREAM: &str = r"HTTP/1.1 200 OK\r\nContent-Length: 10\r\n\r\n0123456789";

/// Puts what the program answers to a row, a line for each run. `kept` has the octets of the last capture that was made elsewhere.
pub(crate) fn put_answers(
    alloc: Global,
    lines: &str,
    kept: &mut Vec<u8>,
    text: &mut String,
) -> Result<(), RowFault> {
    if !are_known(lines) {
        return Err(RowFault::Text("a line of no known word"));
    }
    if line_of(lines, "hex").is_some() {
        kept.clear();
        put_octets(kept, lines)?;
    } else if line_of(lines, "again").is_none() {
        return put_both(alloc, lines, text);
    }
    let capture = capture_made(alloc, lines, kept)?;
    let words = words_of(alloc, line_or(lines, "words", "extract"), "")?;
    let reads = failing_of(alloc, lines, "read-fails")?;
    let writes = failing_of(alloc, lines, "write-fails")?;
    put_answer(alloc, "run", &words, capture, (reads, writes), text)
}

/// Puts the image of the one form, and the report of the other.
fn put_both(alloc: Global, lines: &str, text: &mut String) -> Result<(), RowFault> {
    put_form(alloc, lines, Form::Little, "image", text)?;
    put_form(alloc, lines, Form::Big, "report", text)
}

fn put_form(
    alloc: Global,
    lines: &str,
    form: Form,
    emit: &str,
    text: &mut String,
) -> Result<(), RowFault> {
    let capture = capture_of(alloc, lines, form)?;
    let mut words = words_of(alloc, line_or(lines, "words", "extract"), "--emit")?;
    put_words(alloc, &mut words, emit)?;
    let none = (Vec::new(alloc), Vec::new(alloc));
    put_answer(alloc, emit, &words, capture, none, text)
}

/// Puts the status, how much of the input is left, and what is written.
fn put_answer(
    alloc: Global,
    name: &str,
    words: &Vec<String>,
    capture: Vec<u8>,
    failing: (Vec<u64>, Vec<u64>),
    text: &mut String,
) -> Result<(), RowFault> {
    let (reads, writes) = failing;
    let mut src = MemSource::new(capture, reads);
    let mut out = MemSink::new(alloc, writes);
    let status = run_over(alloc, words, &mut src, &mut out);
    write!(text, "{name} {status}, {} left <", src.octets().len())?;
    put_visible(text, out.octets())?;
    text.push_str(">\n")?;
    Ok(())
}

/// The top call over memory, apart, since its contract would stand in the proof of what is done beside it.
fn run_over(alloc: Global, words: &Vec<String>, src: &mut MemSource, out: &mut MemSink) -> u8 {
    run(alloc, words, src, out, &mut DropSink)
}

/// Whether each line begins with a word of a row's, or is a note.
fn are_known(lines: &str) -> bool {
    for line in lines.lines() {
        let (word, _) = word_of(line.trim());
        if !is_known(word) {
            return false;
        }
    }
    true
}

fn is_known(word: &str) -> bool {
    if word.is_empty() || word == "//" {
        return true;
    }
    for known in LINES.split_whitespace() {
        if known == word {
            return true;
        }
    }
    false
}

/// What stands behind a word in the first line that begins with it.
fn line_of<'a>(lines: &'a str, word: &str) -> Option<&'a str> {
    for line in lines.lines() {
        let (first, rest) = word_of(line.trim());
        if first == word {
            return Some(rest);
        }
    }
    None
}

/// The same, or this where there is no such line.
fn line_or<'a>(lines: &'a str, word: &str, other: &'a str) -> &'a str {
    match line_of(lines, word) {
        Some(line) => line,
        None => other,
    }
}

/// Puts the octets of a capture that was made elsewhere.
fn put_octets(octets: &mut Vec<u8>, lines: &str) -> Result<(), RowFault> {
    for line in lines.lines() {
        let (key, text) = word_of(line.trim());
        if key == "hex" {
            put_hex(octets, text)?;
        }
    }
    Ok(())
}

/// The capture that was made elsewhere, as the row has it.
fn capture_made(alloc: Global, lines: &str, kept: &[u8]) -> Result<Vec<u8>, RowFault> {
    let Some(length) = parsed_number(line_or(lines, "length", "4294967295")) else {
        return Err(RowFault::Text("a length of a capture"));
    };
    let mut octets = Vec::new(alloc);
    octets.extend_from_slice(kept)?;
    octets.truncate(length as usize);
    if line_of(lines, "order").is_some() {
        turn_order(&mut octets);
    }
    Ok(octets)
}

/// Puts the magic number of the other byte order, where there is one.
fn turn_order(octets: &mut [u8]) {
    if octets.len() >= 4 {
        octets[..4].copy_from_slice(&[0xA1, 0xB2, 0xC3, 0xD4]);
    }
}

/// The number of the call that fails, if one does.
fn failing_of(alloc: Global, lines: &str, word: &str) -> Result<Vec<u64>, RowFault> {
    let mut numbers = Vec::new(alloc);
    if let Some(line) = line_of(lines, word) {
        let Some(number) = parsed_number(line) else {
            return Err(RowFault::Text("a number of a call"));
        };
        numbers.push(u64::from(number))?;
    }
    Ok(numbers)
}

/// The capture of a row's steps.
fn capture_of(alloc: Global, lines: &str, form: Form) -> Result<Vec<u8>, RowFault> {
    let Some(iss) = parsed_number(line_or(lines, "station", "65536")) else {
        return Err(RowFault::Text("a number of the station"));
    };
    let Some(irs) = parsed_number(line_or(lines, "peer", "1000")) else {
        return Err(RowFault::Text("a number of the peer"));
    };
    let stream = octets_of(alloc, line_or(lines, "stream", STREAM))?;
    let plan = Plan {
        stream: &stream,
        iss,
        irs,
    };
    let mut writer = begun(alloc, form)?;
    for line in lines.lines() {
        let (key, steps) = word_of(line.trim());
        if key == "send" {
            put_steps(&mut writer, &plan, steps)?;
        }
    }
    let Writer { octets, .. } = writer;
    Ok(octets)
}

fn put_steps(writer: &mut Writer, plan: &Plan<'_>, steps: &str) -> Result<(), RowFault> {
    for text in steps.split('|') {
        let Some(step) = step_of(text.trim()) else {
            return Err(RowFault::Text("a step of no form"));
        };
        put_step(writer, plan, step)?;
    }
    Ok(())
}

/// The words between blanks of both texts.
fn words_of(alloc: Global, first: &str, second: &str) -> Result<Vec<String>, AllocError> {
    let mut words = Vec::new(alloc);
    put_words(alloc, &mut words, first)?;
    put_words(alloc, &mut words, second)?;
    Ok(words)
}

fn put_words(alloc: Global, words: &mut Vec<String>, text: &str) -> Result<(), AllocError> {
    for word in text.split_whitespace() {
        words.push(String::from_str(alloc, word)?)?;
    }
    Ok(())
}
