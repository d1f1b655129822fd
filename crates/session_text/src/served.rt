//! The lines that tell what a site serves.
ghost use Rattle.std.specs.Prelude.{◌≡◌};
ghost use Rattle.session_text.specs.Putting.{Puts};
ghost use Rattle.session_text.specs.Served.{finish_of, framing_of, put_served, served_line};

use crate::image::Piece;
use crate::putting::once;
use crate::rows::Rows;
use crate::words::{behind, u8_in, u16_in, u32_in};
use efi_base::Bytes;

/// How the end of a body is told (RFC 9112, section 6).
#[derive(Clone, Copy, PartialEq, Eq, Debug)]
pub enum Framing {
    /// By its length in the head.
    Length,
    /// By chunks of so many octets.
    Chunked(u32),
    /// By the end of the stream.
    Close,
}

/// How the stream ends.
#[derive(Clone, Copy, PartialEq, Eq, Debug)]
pub enum Finish {
    Fin,
    Rst,
}

/// A line that tells of a site.
#[derive(Clone, Copy)]
pub enum ServedLine {
    Mss(u16),
    Status(u16),
    Interim(u8),
    Framing(Framing),
    Finish(Finish),
}

/// What was said of a site.
#[derive(Drop)]
pub struct SiteSaid {
    pub mss: Option<u16>,
    pub status: Option<u16>,
    pub interim: Option<u8>,
    pub framing: Option<Framing>,
    pub finish: Option<Finish>,
    pub headers: Rows<Bytes>,
    pub image: Rows<Piece>,
}

/// The most octets of a segment, and the least limit of them.
const MOST_MSS: u64 = 1_460;

const LEAST_MSS: u64 = 64;

const LEAST_STATUS: u64 = 200;

const MOST_STATUS: u64 = 599;

const MOST_INTERIM: u64 = 8;

/// The most octets of a chunk.
const MOST_CHUNK: u64 = 65_536;

fn framing_of(text: &[u8]) -> Option<Framing>
    ensures { result ≡ framing_of text.now }
{
    if text == b"length".as_slice() {
        return Some(Framing::Length);
    }
    if text == b"close".as_slice() {
        return Some(Framing::Close);
    }
    match behind(text, b"chunked") {
        Some(size) => u32_in(size, 1, MOST_CHUNK).map(|n| Framing::Chunked(n)),
        None => None,
    }
}

fn finish_of(text: &[u8]) -> Option<Finish>
    ensures { result ≡ finish_of text.now }
{
    if text == b"fin".as_slice() {
        return Some(Finish::Fin);
    }
    if text == b"rst".as_slice() {
        return Some(Finish::Rst);
    }
    None
}

/// The line of this word, and what stands behind it.
pub fn served_line(key: &[u8], text: &[u8]) -> Option<ServedLine>
    ensures { result ≡ served_line key.now text.now }
{
    if key == b"mss".as_slice() {
        return u16_in(text, LEAST_MSS, MOST_MSS).map(|n| ServedLine::Mss(n));
    }
    if key == b"status".as_slice() {
        return u16_in(text, LEAST_STATUS, MOST_STATUS).map(|n| ServedLine::Status(n));
    }
    if key == b"interim".as_slice() {
        return u8_in(text, 0, MOST_INTERIM).map(|n| ServedLine::Interim(n));
    }
    if key == b"framing".as_slice() {
        return framing_of(text).map(|f| ServedLine::Framing(f));
    }
    if key == b"finish".as_slice() {
        return finish_of(text).map(|f| ServedLine::Finish(f));
    }
    None
}

/// Says what a line tells of the site. Whether it wasn't said before.
pub fn put_served(said: &mut SiteSaid, line: ServedLine) -> bool
    ensures { Puts (put_served said.old line) said.new result }
{
    match line {
        ServedLine::Mss(n) => once(&mut said.mss, n),
        ServedLine::Status(n) => once(&mut said.status, n),
        ServedLine::Interim(n) => once(&mut said.interim, n),
        ServedLine::Framing(framing) => once(&mut said.framing, framing),
        ServedLine::Finish(finish) => once(&mut said.finish, finish),
    }
}
