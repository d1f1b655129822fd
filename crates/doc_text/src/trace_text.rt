//! The text of a trace's lines.
ghost use Rattle.std.specs.Prelude.{◌≡◌, ◌++◌, IfOk, codes, decimal};
ghost use Rattle.doc_text.specs.Traces.{end_words, hex_word, trace_line_text, trace_words, unit_text};
ghost use Rattle.text_base.specs.Addresses.{dotted, mac_text};

use crate::trace::{TraceEnd, TraceLine, TraceUnit};
use crate::trace_words::{EndWord, RefuseWord};
use efi_base::{Bytes, Ip4, Mac, NoMemory, Peer};
use std::alloc::{AllocError, Global};
use text_base::{Dotted, put_hex, put_mac};

/// A line of a trace, ended by LF.
pub fn trace_line(alloc: Global, line: &TraceLine) -> Result<Bytes, NoMemory>
    ensures { IfOk result (λ text. text ≡ trace_line_text line.now) }
{
    let mut text = words_of(alloc, line)?;
    text.push(b'\n')?;
    Ok(Bytes::from_vec(text))
}

fn words_of(alloc: Global, line: &TraceLine) -> Result<Vec<u8>, AllocError>
    ensures { IfOk result (λ text. text.items ≡ trace_words line.now) }
{
    match line {
        TraceLine::First => plain(alloc, "efitrace 1"),
        TraceLine::Done => plain(alloc, "done"),
        TraceLine::Found(mac) => behind(plain(alloc, "found ")?, *mac),
        TraceLine::Handle(handle) => numbered(alloc, "handle", *handle),
        TraceLine::Token(token) => numbered(alloc, "token", *token),
        TraceLine::Refused(why) => {
            let why = *why;
            let text = format!(in alloc; "refused {}", RefuseWord(why))?;
            Ok(text.into_bytes())
        }
        TraceLine::Tick(tick) => numbered(alloc, "tick", *tick),
        TraceLine::Heard => plain(alloc, "heard"),
        TraceLine::Fired(token, end) => fired(alloc, *token, end),
        TraceLine::Sent(frame) => with_octets(plain(alloc, "sent ")?, frame.as_slice()),
        TraceLine::Last => plain(alloc, "end"),
    }
}

fn plain(alloc: Global, words: &str) -> Result<Vec<u8>, AllocError>
    ensures { IfOk result (λ text. text.items ≡ words.now) }
{
    let text = String::from_str(alloc, words)?;
    Ok(text.into_bytes())
}

fn numbered(alloc: Global, word: &str, number: u64) -> Result<Vec<u8>, AllocError>
    ensures { IfOk result (λ text. text.items ≡ word.now ++ (codes " " ++ decimal number)) }
{
    let text = format!(in alloc; "{word} {number}")?;
    Ok(text.into_bytes())
}

fn behind(mut text: Vec<u8>, mac: Mac) -> Result<Vec<u8>, AllocError>
    ensures { IfOk result (λ new. new.items ≡ text.items ++ mac_text mac) }
{
    put_mac(&mut text, mac)?;
    Ok(text)
}

/// Octets in hexadecimal digits behind the text, `-` where there are none.
fn with_octets(mut text: Vec<u8>, octets: &[u8]) -> Result<Vec<u8>, AllocError>
    ensures { IfOk result (λ new. new.items ≡ text.items ++ hex_word octets.now) }
{
    if octets.is_empty() {
        text.push(b'-')?;
    } else {
        put_hex(&mut text, octets)?;
    }
    Ok(text)
}

fn fired(alloc: Global, token: u64, end: &TraceEnd) -> Result<Vec<u8>, AllocError>
    ensures { IfOk result (λ text. text.items ≡ codes "fired " ++ (decimal token ++ (codes " " ++ end_words end.now))) }
{
    match end {
        TraceEnd::Success(unit) => {
            let mut text = format!(in alloc; "fired {token} success ")?.into_bytes();
            text.extend_from_slice(&unit_text(alloc, unit)?)?;
            Ok(text)
        }
        TraceEnd::Failed(end) => {
            let end = *end;
            let text = format!(in alloc; "fired {token} {}", EndWord(end))?;
            Ok(text.into_bytes())
        }
    }
}

fn unit_text(alloc: Global, unit: &TraceUnit) -> Result<Vec<u8>, AllocError>
    ensures { IfOk result (λ text. text.items ≡ unit_text unit.now) }
{
    match unit {
        TraceUnit::Nothing => plain(alloc, "-"),
        TraceUnit::Octets(octets) => with_octets(Vec::new(alloc), octets.as_slice()),
        TraceUnit::FromAddress(source, octets) => from_address(alloc, *source, octets.as_slice()),
        TraceUnit::FromPort(source, octets) => from_port(alloc, *source, octets.as_slice()),
        TraceUnit::Mac(mac) => behind(Vec::new(alloc), *mac),
        TraceUnit::Address(address) => {
            let text = format!(in alloc; "{}", Dotted(address.0))?;
            Ok(text.into_bytes())
        }
        TraceUnit::Name(name) => Vec::from_slice(alloc, name.as_slice()),
        TraceUnit::Accepted(token) => {
            let token = *token;
            let text = format!(in alloc; "a{token}")?;
            Ok(text.into_bytes())
        }
        TraceUnit::Number(number) => {
            let number = *number;
            let text = format!(in alloc; "{number}")?;
            Ok(text.into_bytes())
        }
        TraceUnit::Response(status, octets) => response(alloc, *status, octets.as_slice()),
    }
}

/// The payload of a datagram behind its source address.
fn from_address(alloc: Global, source: Ip4, octets: &[u8]) -> Result<Vec<u8>, AllocError>
    ensures { IfOk result (λ text. text.items ≡ dotted source.0 ++ (codes " " ++ hex_word octets.now)) }
{
    let front = format!(in alloc; "{} ", Dotted(source.0))?;
    let text = with_octets(front.into_bytes(), octets)?;
    Ok(text)
}

/// The payload of a UDP datagram behind its source address and port.
fn from_port(alloc: Global, source: Peer, octets: &[u8]) -> Result<Vec<u8>, AllocError>
    ensures { IfOk result (λ text. text.items ≡ dotted source.addr.0 ++ (codes " " ++ (decimal source.port ++ (codes " " ++ hex_word octets.now)))) }
{
    let front = format!(in alloc; "{} {} ", Dotted(source.addr.0), source.port)?;
    let text = with_octets(front.into_bytes(), octets)?;
    Ok(text)
}

/// Octets of a response's body behind its status.
fn response(alloc: Global, status: u16, octets: &[u8]) -> Result<Vec<u8>, AllocError>
    ensures { IfOk result (λ text. text.items ≡ decimal status ++ (codes " " ++ hex_word octets.now)) }
{
    let front = format!(in alloc; "{status} ")?;
    let text = with_octets(front.into_bytes(), octets)?;
    Ok(text)
}
