//! The text of a report, line by line.
ghost use Rattle.std.specs.Prelude.{◌≡◌, ◌++◌, IfOk, codes, map};
ghost use Rattle.doc_text.specs.Ends.{download_word};
ghost use Rattle.doc_text.specs.Reports.{accepted_words, counts_words, ended, fin_word, lease_words, peer_word, report_text, uri_word, visible};

use crate::report::{Leased, Report};
use efi_base::{Bytes, NoMemory};
use std::alloc::{AllocError, Global};
use text_base::Dotted;

/// The text of a report: seven lines of words, each ended by LF.
pub fn report_text(alloc: Global, r: &Report) -> Result<Bytes, NoMemory>
    ensures { IfOk result (λ text. text ≡ report_text r.now) }
{
    Ok(Bytes::from_vec(text_of(alloc, r)?))
}

fn text_of(alloc: Global, r: &Report) -> Result<Vec<u8>, AllocError>
    ensures { IfOk result (λ text. text.items ≡ report_text r.now) }
{
    let mut text = lease_lines(alloc, r.lease)?;
    put_uri(&mut text, &r.uri)?;
    text.extend_from_slice(&server_lines(alloc, r)?)?;
    text.extend_from_slice(&end_lines(alloc, r)?)?;
    Ok(text)
}

/// The line that names the form, and that of the lease.
fn lease_lines(alloc: Global, lease: Option<Leased>) -> Result<Vec<u8>, AllocError>
    ensures { IfOk result (λ text. text.items ≡ ended (codes "efiboot report 1") ++ ended (codes "lease " ++ lease_words lease)) }
{
    let mut text = String::from_str(alloc, "efiboot report 1\n")?;
    match lease {
        Some(l) => write!(text, "lease {} {}\n", Dotted(l.addr.0), Dotted(l.mask))?,
        None => text.push_str("lease -\n")?,
    }
    Ok(text.into_bytes())
}

/// The line of the URI.
fn put_uri(text: &mut Vec<u8>, uri: &Option<Bytes>) -> Result<(), AllocError>
    ensures { IfOk result (λ _. text.new.items ≡ text.old.items ++ ended (codes "uri " ++ uri_word uri.now)) }
{
    text.extend_from_slice(b"uri ")?;
    match uri {
        Some(octets) => put_visible(text, octets.as_slice())?,
        None => text.push(b'-')?,
    }
    text.push(b'\n')?;
    Ok(())
}

/// Octets, with `?` for each that isn't a visible ASCII character.
fn put_visible(text: &mut Vec<u8>, octets: &[u8]) -> Result<(), AllocError>
    ensures { IfOk result (λ _. text.new.items ≡ text.old.items ++ map visible octets.now) }
{
    for octet in octets {
        text.push(visible(*octet))?;
    }
    Ok(())
}

fn visible(octet: u8) -> u8
    ensures { result ≡ visible octet }
{
    if octet >= 0x21 && octet <= 0x7E {
        octet
    } else {
        b'?'
    }
}

/// The lines of the peer and of what was accepted.
fn server_lines(alloc: Global, r: &Report) -> Result<Vec<u8>, AllocError>
    ensures { IfOk result (λ text. text.items ≡ ended (codes "peer " ++ peer_word r.now.peer) ++ ended (accepted_words r.now)) }
{
    let mut text = String::from_str(alloc, "peer ")?;
    match r.peer {
        Some(p) => write!(text, "{}:{}\n", Dotted(p.addr.0), p.port)?,
        None => text.push_str("-\n")?,
    }
    let (accepted, fin) = (r.accepted, fin_word(r.fin));
    write!(text, "accepted {accepted} {fin}\n")?;
    Ok(text.into_bytes())
}

fn fin_word(fin: bool) -> &'static str
    ensures { result.now ≡ fin_word fin }
{
    if fin { "fin" } else { "open" }
}

/// The lines of the outcome, and of when it came.
fn end_lines(alloc: Global, r: &Report) -> Result<Vec<u8>, AllocError>
    ensures { IfOk result (λ text. text.items ≡ ended (codes "outcome " ++ download_word r.now.outcome) ++ ended (counts_words r.now)) }
{
    let outcome = r.outcome;
    let mut text = format!(in alloc; "outcome {outcome}\n")?;
    let (tick, sent, heard) = (r.tick.0, r.sent, r.heard);
    write!(text, "tick {tick} sent {sent} heard {heard}\n")?;
    Ok(text.into_bytes())
}
