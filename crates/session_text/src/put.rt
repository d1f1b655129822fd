//! What a line says behind those that were read, where it is good there.
ghost use Rattle.std.specs.Prelude.{◌≡◌, IfOk};
ghost use Rattle.session_text.specs.Documents.{is_free, is_second, may_stand, put_end, put_first, put_header, put_line, put_piece, put_site, said_behind};
ghost use Rattle.session_text.specs.Putting.{Puts};

use crate::draft::{Draft, here, lease_of};
use crate::ending::end_fits;
use crate::image::{Piece, piece_length};
use crate::lan::put_lan;
use crate::line::{Line, Version};
use crate::names::put_name;
use crate::putting::once;
use crate::rows::Rows;
use crate::schedule::put_rule;
use crate::second::put_second;
use crate::served::put_served;
use crate::site::{has_peer, is_same_peer, new_site, site_of};
use crate::station::put_station;
use efi_base::{Bytes, NoMemory, Peer};
use std::alloc::Global;
use std::mem;

/// The most field lines of a site.
const MOST_HEADERS: usize = 8;

/// The most lines that begin a site.
const MOST_SITES: usize = 7;

/// All images together have fewer octets.
const IMAGES: u64 = 1_073_741_824;

/// Whether a line of this kind may stand in a document of this version, in front of the first line `site` or behind it.
fn may_stand(version: Version, front: bool, line: &Line) -> bool
    ensures { result ≡ may_stand version front line.now }
{
    match line {
        Line::First(_) => false,
        Line::Station(_) | Line::Lan(_) | Line::Uri(_) | Line::Name(_) | Line::Rule(_) => front,
        Line::Second(_) => front && is_second(version),
        Line::Site(_) => is_second(version),
        Line::Served(_) | Line::Header(_) | Line::Image(_) | Line::End => true,
    }
}

fn is_second(version: Version) -> bool
    ensures { result ≡ is_second version }
{
    match version {
        Version::One => false,
        Version::Two => true,
    }
}

fn put_header(headers: &mut Rows<Bytes>, header: Bytes) -> Result<bool, NoMemory>
    ensures { IfOk result (λ good. Puts (put_header headers.old header) headers.new good) }
{
    if headers.len() >= MOST_HEADERS {
        return Ok(false);
    }
    headers.push(header)?;
    Ok(true)
}

fn put_piece(draft: &mut Draft, piece: Piece) -> Result<bool, NoMemory>
    ensures { IfOk result (λ good. Puts (put_piece draft.old piece) draft.new good) }
{
    let Some(octets) = draft.octets.checked_add(piece_length(&piece)) else {
        return Ok(false);
    };
    if octets >= IMAGES {
        return Ok(false);
    }
    draft.site.image.push(piece)?;
    draft.octets = octets;
    Ok(true)
}

/// Whether no site stands there, and it isn't the leased address.
fn is_free(draft: &Draft, at: Peer) -> bool
    ensures { result ≡ is_free draft.now at }
{
    if at.addr.0 == lease_of(draft).ip.0 {
        return false;
    }
    if is_same_peer(here(draft), at) {
        return false;
    }
    !has_peer(draft.sites.as_slice(), at)
}

fn put_site(alloc: Global, draft: &mut Draft, at: Peer) -> Result<bool, NoMemory>
    ensures { IfOk result (λ good. Puts (put_site draft.old at) draft.new good) }
{
    if draft.sites.len() >= MOST_SITES {
        return Ok(false);
    }
    if !is_free(draft, at) {
        return Ok(false);
    }
    let place = here(draft);
    let said = mem::replace(&mut draft.site, new_site(alloc));
    draft.sites.push(site_of(place, said))?;
    draft.at = Some(at);
    Ok(true)
}

fn put_end(draft: &mut Draft) -> bool
    ensures { Puts (put_end draft.old) draft.new result }
{
    if !end_fits(draft) {
        return false;
    }
    draft.ended = true;
    true
}

/// Says what a line tells that may stand here. Whether it is good.
fn put_line(alloc: Global, draft: &mut Draft, line: Line) -> Result<bool, NoMemory>
    ensures { IfOk result (λ good. Puts (put_line draft.old line) draft.new good) }
{
    match line {
        Line::First(_) => Ok(false),
        Line::Station(line) => Ok(put_station(&mut draft.station, line)),
        Line::Lan(line) => Ok(put_lan(&mut draft.lan, line)),
        Line::Uri(uri) => Ok(once(&mut draft.uri, uri)),
        Line::Name(line) => put_name(&mut draft.names, line),
        Line::Rule(rule) => put_rule(&mut draft.rules, rule),
        Line::Second(line) => Ok(put_second(&mut draft.second, line)),
        Line::Site(at) => put_site(alloc, draft, at),
        Line::Served(line) => Ok(put_served(&mut draft.site, line)),
        Line::Header(header) => put_header(&mut draft.site.headers, header),
        Line::Image(piece) => put_piece(draft, piece),
        Line::End => Ok(put_end(draft)),
    }
}

/// Reads the first line, which tells the version.
fn put_first(draft: &mut Draft, line: Line) -> bool
    ensures { Puts (put_first draft.old line) draft.new result }
{
    match line {
        Line::First(version) => {
            draft.version = Some(version);
            true
        }
        _ => false,
    }
}

/// Says what a line tells. Whether it is good behind those that were read.
pub fn say(alloc: Global, draft: &mut Draft, line: Line) -> Result<bool, NoMemory>
    ensures { IfOk result (λ good. Puts (said_behind draft.old.version draft.old line) draft.new good) }
{
    let Some(version) = draft.version else {
        return Ok(put_first(draft, line));
    };
    if !may_stand(version, draft.at.is_none(), &line) {
        return Ok(false);
    }
    put_line(alloc, draft, line)
}
