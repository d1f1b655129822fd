//! A line by itself: its kind, and what its words tell.
ghost use Rattle.std.specs.Prelude.{◌≡◌, ◌≤◌, IfOk};
ghost use Rattle.std.specs.List.{list_all};
ghost use Rattle.session_text.specs.Line.{bare_line, first_line, header_of, is_printable, is_visible, kept_line, line_of, plain_line, text_within, uri_of};

use crate::image::{Piece, piece_of};
use crate::lan::{LanLine, lan_line};
use crate::names::{NameLine, name_line};
use crate::schedule::{Rule, rule_line};
use crate::second::{SecondLine, second_line, site_line};
use crate::served::{ServedLine, served_line};
use crate::station::{StationLine, station_line};
use crate::words::split;
use efi_base::{Bytes, NoMemory, Peer};
use std::alloc::Global;

/// Which lines a document may have.
#[derive(Clone, Copy, PartialEq, Eq, Debug)]
pub enum Version {
    One,
    Two,
}

/// A line.
#[derive(Drop)]
pub enum Line {
    First(Version),
    Station(StationLine),
    Lan(LanLine),
    Uri(Bytes),
    Name(NameLine),
    Rule(Rule),
    Second(SecondLine),
    /// Where a site stands, whose lines follow.
    Site(Peer),
    Served(ServedLine),
    Header(Bytes),
    Image(Piece),
    End,
}

/// The most octets of a URI, and of a field line.
const MOST_URI: usize = 255;

const MOST_HEADER: usize = 200;

fn first_line(key: &[u8], text: &[u8]) -> Option<Version>
    ensures { result ≡ first_line key.now text.now }
{
    if key != b"efiboot".as_slice() {
        return None;
    }
    if text == b"1".as_slice() {
        return Some(Version::One);
    }
    if text == b"2".as_slice() {
        return Some(Version::Two);
    }
    None
}

/// A line of one word.
fn bare_line(text: &[u8]) -> Option<Line>
    ensures { result ≡ bare_line text.now }
{
    if text == b"end".as_slice() {
        return Some(Line::End);
    }
    if text == b"bootfile".as_slice() {
        return Some(Line::Second(SecondLine::BootFile));
    }
    None
}

/// A line that needs no memory, by its word and what stands behind it.
fn plain_line(key: &[u8], text: &[u8]) -> Option<Line>
    ensures { result ≡ plain_line key.now text.now }
{
    if let Some(version) = first_line(key, text) {
        return Some(Line::First(version));
    }
    if let Some(line) = station_line(key, text) {
        return Some(Line::Station(line));
    }
    if let Some(line) = lan_line(key, text) {
        return Some(Line::Lan(line));
    }
    if let Some(line) = name_line(key, text) {
        return Some(Line::Name(line));
    }
    if let Some(rule) = rule_line(key, text) {
        return Some(Line::Rule(rule));
    }
    if let Some(line) = second_line(key, text) {
        return Some(Line::Second(line));
    }
    if let Some(at) = site_line(key, text) {
        return Some(Line::Site(at));
    }
    served_line(key, text).map(|line| Line::Served(line))
}

fn is_visible(octet: u8) -> bool
    ensures { result ≡ is_visible octet }
{
    octet >= 0x21 && octet <= 0x7E
}

fn is_printable(octet: u8) -> bool
    ensures { result ≡ is_printable octet }
{
    octet >= 0x20 && octet <= 0x7E
}

/// Whether all octets are ASCII characters that are seen.
pub fn are_visible(text: &[u8]) -> bool
    ensures { result ≡ list_all is_visible text.now }
{
    text.iter().all(|octet| is_visible(*octet))
}

fn are_printable(text: &[u8]) -> bool
    ensures { result ≡ list_all is_printable text.now }
{
    text.iter().all(|octet| is_printable(*octet))
}

/// From one octet up to so many.
fn is_within(text: &[u8], most: usize) -> bool
    ensures { result ≡ text_within most text.now }
{
    text.len() >= 1 && text.len() <= most
}

fn copy_of(alloc: Global, text: &[u8]) -> Result<Bytes, NoMemory>
    ensures { IfOk result (λ octets. octets ≡ text.now) }
{
    let mut octets = Vec::new(alloc);
    octets.extend_from_slice(text)?;
    Ok(Bytes::from_vec(octets))
}

fn uri_of(alloc: Global, text: &[u8]) -> Result<Option<Bytes>, NoMemory>
    ensures { IfOk result (λ uri. uri ≡ uri_of text.now) }
{
    if !is_within(text, MOST_URI) {
        return Ok(None);
    }
    if !are_visible(text) {
        return Ok(None);
    }
    Ok(Some(copy_of(alloc, text)?))
}

fn header_of(alloc: Global, text: &[u8]) -> Result<Option<Bytes>, NoMemory>
    ensures { IfOk result (λ header. header ≡ header_of text.now) }
{
    if !is_within(text, MOST_HEADER) {
        return Ok(None);
    }
    if !are_printable(text) {
        return Ok(None);
    }
    Ok(Some(copy_of(alloc, text)?))
}

/// A line whose octets are kept.
fn kept_line(alloc: Global, key: &[u8], text: &[u8]) -> Result<Option<Line>, NoMemory>
    ensures { IfOk result (λ line. line ≡ kept_line key.now text.now) }
{
    if key == b"uri".as_slice() {
        return Ok(uri_of(alloc, text)?.map(|uri| Line::Uri(uri)));
    }
    if key == b"header".as_slice() {
        return Ok(header_of(alloc, text)?.map(|header| Line::Header(header)));
    }
    if key == b"image".as_slice() {
        return Ok(piece_of(alloc, text)?.map(|piece| Line::Image(piece)));
    }
    Ok(None)
}

/// What a line tells, where it is one of a document.
pub fn line_of(alloc: Global, text: &[u8]) -> Result<Option<Line>, NoMemory>
    ensures { IfOk result (λ line. line ≡ line_of text.now) }
{
    let Some((key, rest)) = split(text) else {
        return Ok(bare_line(text));
    };
    if let Some(line) = plain_line(key, rest) {
        return Ok(Some(line));
    }
    kept_line(alloc, key, rest)
}
