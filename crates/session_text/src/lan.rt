//! The lines that tell of the server: its addresses, and what it offers.
ghost use Rattle.std.specs.Prelude.{◌≡◌, ◌<◌, ◌∷◌, ◌++◌, [], length, OnOk, OnErr};
ghost use Rattle.text_base.specs.Addresses.{ip_of};
ghost use Rattle.session_text.specs.Lan.{lan_line, lease_of, offer_of, put_lan};
ghost use Rattle.session_text.specs.Putting.{Puts};
ghost use Rattle.session_text.specs.Words.{few_words, put_word};

use crate::putting::once;
use crate::words::{split, u32_in, unicast_ip, unicast_mac};
use arrayvec::ArrayVec;
use efi_base::{Ip4, Mac, NoRoom, Servers};
use std::marker::Model;
use text_base::ip;

/// The most offers that answer a station.
const MOST_OFFERS: usize = 8;

/// The most DNS servers of a lease.
const MOST_SERVERS: usize = 3;

/// What the server leases: an address, the mask of its network, and for how many seconds.
#[derive(Clone, Copy, PartialEq, Eq, Debug)]
pub struct Terms {
    pub ip: Ip4,
    pub mask: Ip4,
    pub secs: u32,
}

/// An offer.
#[derive(Clone, Copy, PartialEq, Eq, Debug, Default)]
pub enum Offer {
    /// One that names an image.
    #[default]
    Http,
    /// One that doesn't.
    Plain,
}

/// At most eight offers, in the order in which they are sent.
#[derive(Debug, Drop)]
pub struct Offers {
    offers: ArrayVec<Offer, MOST_OFFERS>,
}

impl Model for Offers {
    ghost use Rattle.std.specs.Prelude.{List};
    ghost use Rattle.session_text.specs.declared.lan.Offer.{Offer};

    ghost Value = { List Offer };

    ghost view = { λ o. o.offers.items };
}

impl Offers {
    pub fn new() -> Offers
        ensures { result ≡ [] }
    {
        Offers {
            offers: ArrayVec::new(),
        }
    }

    /// Puts one more behind the others, or says that there are eight.
    pub fn push(&mut self, offer: Offer) -> Result<(), NoRoom>
        ensures put { OnOk result ((length self.old < 8) × (self.new ≡ self.old ++ (offer ∷ []))) }
        ensures refused { OnErr result ((length self.old ≡ 8) × (self.new ≡ self.old)) }
    {
        match self.offers.try_push(offer) {
            Ok(()) => Ok(()),
            Err(_) => Err(NoRoom),
        }
    }

    pub fn as_slice(&self) -> &[Offer]
        ensures { result.now ≡ self.now }
    {
        self.offers.as_slice()
    }
}

/// A line that tells of the server.
#[derive(Drop)]
pub enum LanLine {
    Mac(Mac),
    Ip(Ip4),
    FirstSequence(u32),
    Lease(Terms),
    Router(Ip4),
    Dns(Servers),
    Offers(Offers),
}

/// What was said of the server.
#[derive(Drop)]
pub struct LanSaid {
    pub mac: Option<Mac>,
    pub ip: Option<Ip4>,
    pub first_sequence: Option<u32>,
    pub lease: Option<Terms>,
    pub router: Option<Ip4>,
    pub dns: Option<Servers>,
    pub offers: Option<Offers>,
}

fn lease_of(text: &[u8]) -> Option<Terms>
    ensures { result ≡ lease_of text.now }
{
    let Some((address, rest)) = split(text) else {
        return None;
    };
    let Some((mask, secs)) = split(rest) else {
        return None;
    };
    let Some(address) = unicast_ip(address) else {
        return None;
    };
    let Some(mask) = ip(mask) else {
        return None;
    };
    u32_in(secs, 1, u64::from(u32::MAX)).map(|secs| Terms {
        ip: address,
        mask,
        secs,
    })
}

/// Puts the address of a word behind the others.
fn put_server(servers: &mut Servers, word: &[u8]) -> bool
    ensures { Puts (put_word ip_of 3 servers.old word.now) servers.new result }
{
    let Some(server) = ip(word) else {
        return false;
    };
    match servers.push(server) {
        Ok(()) => true,
        Err(NoRoom) => false,
    }
}

/// From one address up to three.
pub fn servers_of(text: &[u8]) -> Option<Servers>
    ensures { result ≡ few_words ip_of 3 text.now }
{
    let mut servers = Servers::new();
    let mut rest = text;
    let mut left = MOST_SERVERS;
    while left > 0 {
        left -= 1;
        let Some((word, behind)) = split(rest) else {
            if put_server(&mut servers, rest) {
                return Some(servers);
            }
            return None;
        };
        if !put_server(&mut servers, word) {
            return None;
        }
        rest = behind;
    }
    None
}

fn offer_of(word: &[u8]) -> Option<Offer>
    ensures { result ≡ offer_of word.now }
{
    if word == b"http".as_slice() {
        return Some(Offer::Http);
    }
    if word == b"plain".as_slice() {
        return Some(Offer::Plain);
    }
    None
}

/// Puts the offer of a word behind the others.
fn put_offer(offers: &mut Offers, word: &[u8]) -> bool
    ensures { Puts (put_word offer_of 8 offers.old word.now) offers.new result }
{
    let Some(offer) = offer_of(word) else {
        return false;
    };
    match offers.push(offer) {
        Ok(()) => true,
        Err(NoRoom) => false,
    }
}

fn offers_of(text: &[u8]) -> Option<Offers>
    ensures { result ≡ few_words offer_of 8 text.now }
{
    let mut offers = Offers::new();
    let mut rest = text;
    let mut left = MOST_OFFERS;
    while left > 0 {
        left -= 1;
        let Some((word, behind)) = split(rest) else {
            if put_offer(&mut offers, rest) {
                return Some(offers);
            }
            return None;
        };
        if !put_offer(&mut offers, word) {
            return None;
        }
        rest = behind;
    }
    None
}

/// The line of this word, and what stands behind it.
pub fn lan_line(key: &[u8], text: &[u8]) -> Option<LanLine>
    ensures { result ≡ lan_line key.now text.now }
{
    if key == b"smac".as_slice() {
        return unicast_mac(text).map(|mac| LanLine::Mac(mac));
    }
    if key == b"sip".as_slice() {
        return unicast_ip(text).map(|ip| LanLine::Ip(ip));
    }
    if key == b"siss".as_slice() {
        return u32_in(text, 0, u64::from(u32::MAX)).map(|n| LanLine::FirstSequence(n));
    }
    if key == b"lease".as_slice() {
        return lease_of(text).map(|lease| LanLine::Lease(lease));
    }
    if key == b"router".as_slice() {
        return ip(text).map(|ip| LanLine::Router(ip));
    }
    if key == b"dns".as_slice() {
        return servers_of(text).map(|servers| LanLine::Dns(servers));
    }
    if key == b"offers".as_slice() {
        return offers_of(text).map(|offers| LanLine::Offers(offers));
    }
    None
}

/// Says what a line tells of the server. Whether it wasn't said before.
pub fn put_lan(said: &mut LanSaid, line: LanLine) -> bool
    ensures { Puts (put_lan said.old line) said.new result }
{
    match line {
        LanLine::Mac(mac) => once(&mut said.mac, mac),
        LanLine::Ip(ip) => once(&mut said.ip, ip),
        LanLine::FirstSequence(n) => once(&mut said.first_sequence, n),
        LanLine::Lease(lease) => once(&mut said.lease, lease),
        LanLine::Router(ip) => once(&mut said.router, ip),
        LanLine::Dns(servers) => once(&mut said.dns, servers),
        LanLine::Offers(offers) => once(&mut said.offers, offers),
    }
}
