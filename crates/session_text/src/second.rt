//! The lines that documents of version 2 have besides.
ghost use Rattle.std.specs.Prelude.{◌≡◌};
ghost use Rattle.session_text.specs.Putting.{Puts};
ghost use Rattle.session_text.specs.Second.{put_bootfile, put_second, scale_of, second_line, site_line};

use crate::putting::once;
use crate::words::{split, u8_in, u16_in};
use efi_base::Peer;
use text_base::ip;

/// A line of version 2.
#[derive(Clone, Copy)]
pub enum SecondLine {
    Scale(bool),
    BootFile,
    Stations(u8),
}

/// What these lines said.
#[derive(Clone, Copy)]
pub struct SecondSaid {
    pub scale: Option<bool>,
    pub bootfile: bool,
    pub stations: Option<u8>,
}

/// The most stations.
const MOST_STATIONS: u64 = 16;

fn scale_of(text: &[u8]) -> Option<bool>
    ensures { result ≡ scale_of text.now }
{
    if text == b"on".as_slice() {
        return Some(true);
    }
    if text == b"off".as_slice() {
        return Some(false);
    }
    None
}

/// The line of this word, and what stands behind it.
pub fn second_line(key: &[u8], text: &[u8]) -> Option<SecondLine>
    ensures { result ≡ second_line key.now text.now }
{
    if key == b"scale".as_slice() {
        return scale_of(text).map(|scale| SecondLine::Scale(scale));
    }
    if key == b"stations".as_slice() {
        return u8_in(text, 1, MOST_STATIONS).map(|n| SecondLine::Stations(n));
    }
    None
}

/// Where the site stands that a line begins.
pub fn site_line(key: &[u8], text: &[u8]) -> Option<Peer>
    ensures { result ≡ site_line key.now text.now }
{
    if key != b"site".as_slice() {
        return None;
    }
    let Some((address, port)) = split(text) else {
        return None;
    };
    let Some(addr) = ip(address) else {
        return None;
    };
    u16_in(port, 1, u64::from(u16::MAX)).map(|port| Peer { addr, port })
}

fn put_bootfile(said: &mut SecondSaid) -> bool
    ensures { Puts (put_bootfile said.old) said.new result }
{
    if said.bootfile {
        return false;
    }
    said.bootfile = true;
    true
}

/// Says what a line tells. Whether it wasn't said before.
pub fn put_second(said: &mut SecondSaid, line: SecondLine) -> bool
    ensures { Puts (put_second said.old line) said.new result }
{
    match line {
        SecondLine::Scale(scale) => once(&mut said.scale, scale),
        SecondLine::BootFile => put_bootfile(said),
        SecondLine::Stations(n) => once(&mut said.stations, n),
    }
}
