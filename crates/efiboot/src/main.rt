//! The program: its words, standard input and standard output around the top call. What they mean isn't here.
#![tactic(auto)]

use boot_top::{BAD_WORDS, NO_MEMORY, capture_name, run};
use efi_outside::{DropSink, FileSink, StdSink, StdSource};
use std::process::ExitCode;
use std::rt::Env;
use std::{env, io};

fn main(rt: HostRuntime) -> ExitCode {
    let words = match words_of(&rt) {
        Ok(words) => words,
        Err(e) => return ExitCode::from(status_of(&e)),
    };
    let mut src = StdSource::new(rt.stdin());
    let mut out = StdSink::new(rt.stdout());
    let alloc = rt.alloc();
    let status = match capture_file(&words) {
        Some(name) => run(
            alloc,
            &words,
            &mut src,
            &mut out,
            &mut FileSink::new(&rt, name),
        ),
        None => run(alloc, &words, &mut src, &mut out, &mut DropSink),
    };
    ExitCode::from(status)
}

/// The name of the file that the capture goes to, if the words name one. It is made at the first write to it.
fn capture_file(words: &Vec<String>) -> Option<&str> {
    let word = words.get(capture_name(words)?)?.as_str();
    Some(word.strip_prefix("--capture=").unwrap_or(word))
}

/// The words after the program's name.
fn words_of(rt: &(impl Env + AllocGlobal)) -> io::Result<Vec<String>> {
    let mut words = Vec::new(rt.alloc());
    for word in env::args(rt)?.skip(1) {
        words.push(word)?;
    }
    Ok(words)
}

/// The status where there are no words to read: some are no text, or there is no memory for them.
fn status_of(e: &io::Error) -> u8 {
    match e.kind() {
        io::ErrorKind::InvalidData => BAD_WORDS,
        _ => NO_MEMORY,
    }
}
