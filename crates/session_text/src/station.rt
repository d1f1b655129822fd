//! The lines that tell of the station.
ghost use Rattle.std.specs.Prelude.{◌≡◌};
ghost use Rattle.session_text.specs.Putting.{Puts};
ghost use Rattle.session_text.specs.Station.{block_size, choose_of, progress_of, put_station, station_line};

use crate::putting::once;
use crate::words::{behind, number_in, u32_in, unicast_mac};
use efi_base::{Ip4, Mac};
use text_base::ip;

/// Which offer the station picks.
#[derive(Clone, Copy, PartialEq, Eq, Debug)]
pub enum Choose {
    /// The first that names an image.
    Http,
    /// The first of all.
    Any,
    /// None of them.
    Never,
    /// None of them: the first ends the load.
    Stop,
    /// The first of this server.
    From(Ip4),
}

/// What the caller says while octets come.
#[derive(Clone, Copy, PartialEq, Eq, Debug)]
pub enum Progress {
    /// To go on.
    Go,
    /// To stop, once so many octets were placed.
    Abort(u64),
}

/// A line that tells of the station.
#[derive(Clone, Copy)]
pub enum StationLine {
    Mac(Mac),
    Seed(u32),
    Buffer(u32),
    Last(u64),
    Choose(Choose),
    Progress(Progress),
    BlockSize(u16),
}

/// What was said of the station.
#[derive(Clone, Copy)]
pub struct StationSaid {
    pub mac: Option<Mac>,
    pub seed: Option<u32>,
    pub buffer: Option<u32>,
    pub last: Option<u64>,
    pub choose: Option<Choose>,
    pub progress: Option<Progress>,
    pub blksize: Option<u16>,
}

/// The most octets of a buffer.
const MOST_BUFFER: u64 = 1_073_741_824;

/// The last tick that can be the last.
const MOST_LAST: u64 = 1_099_511_627_776;

/// The most octets of a block that can be asked for, and the least.
const MOST_BLOCK: u64 = 1_468;

const LEAST_BLOCK: u64 = 8;

fn choose_of(text: &[u8]) -> Option<Choose>
    ensures { result ≡ choose_of text.now }
{
    if text == b"http".as_slice() {
        return Some(Choose::Http);
    }
    if text == b"any".as_slice() {
        return Some(Choose::Any);
    }
    if text == b"never".as_slice() {
        return Some(Choose::Never);
    }
    if text == b"stop".as_slice() {
        return Some(Choose::Stop);
    }
    match behind(text, b"from") {
        Some(from) => ip(from).map(|ip| Choose::From(ip)),
        None => None,
    }
}

fn progress_of(text: &[u8]) -> Option<Progress>
    ensures { result ≡ progress_of text.now }
{
    if text == b"go".as_slice() {
        return Some(Progress::Go);
    }
    match behind(text, b"abort") {
        Some(count) => number_in(count, 0, u64::MAX).map(|n| Progress::Abort(n)),
        None => None,
    }
}

fn block_size(text: &[u8]) -> Option<u16>
    ensures { result ≡ block_size text.now }
{
    let Some(n) = number_in(text, 0, MOST_BLOCK) else {
        return None;
    };
    if n > 0 && n < LEAST_BLOCK {
        return None;
    }
    Some(n as u16)
}

/// The line of this word, and what stands behind it.
pub fn station_line(key: &[u8], text: &[u8]) -> Option<StationLine>
    ensures { result ≡ station_line key.now text.now }
{
    if key == b"mac".as_slice() {
        return unicast_mac(text).map(|mac| StationLine::Mac(mac));
    }
    if key == b"seed".as_slice() {
        return u32_in(text, 0, u64::from(u32::MAX)).map(|n| StationLine::Seed(n));
    }
    if key == b"buffer".as_slice() {
        return u32_in(text, 0, MOST_BUFFER).map(|n| StationLine::Buffer(n));
    }
    if key == b"last".as_slice() {
        return number_in(text, 0, MOST_LAST).map(|n| StationLine::Last(n));
    }
    if key == b"choose".as_slice() {
        return choose_of(text).map(|c| StationLine::Choose(c));
    }
    if key == b"progress".as_slice() {
        return progress_of(text).map(|p| StationLine::Progress(p));
    }
    if key == b"blksize".as_slice() {
        return block_size(text).map(|n| StationLine::BlockSize(n));
    }
    None
}

/// Says what a line tells of the station. Whether it wasn't said before.
pub fn put_station(said: &mut StationSaid, line: StationLine) -> bool
    ensures { Puts (put_station said.old line) said.new result }
{
    match line {
        StationLine::Mac(mac) => once(&mut said.mac, mac),
        StationLine::Seed(n) => once(&mut said.seed, n),
        StationLine::Buffer(n) => once(&mut said.buffer, n),
        StationLine::Last(n) => once(&mut said.last, n),
        StationLine::Choose(choose) => once(&mut said.choose, choose),
        StationLine::Progress(progress) => once(&mut said.progress, progress),
        StationLine::BlockSize(n) => once(&mut said.blksize, n),
    }
}
