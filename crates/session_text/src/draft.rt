//! What the lines so far say.
ghost use Rattle.std.specs.Prelude.{◌≡◌};
ghost use Rattle.session_text.specs.Drafts.{buffer_of, here, lease_of, server_ip, server_mac, start, station_mac};

use crate::lan::{LanSaid, Terms};
use crate::line::Version;
use crate::names::Names;
use crate::rows::Rows;
use crate::schedule::Rule;
use crate::second::SecondSaid;
use crate::served::SiteSaid;
use crate::site::{Site, new_site};
use crate::station::StationSaid;
use efi_base::{Bytes, Ip4, Mac, Peer};
use std::alloc::Global;

/// What the lines so far say, and whether the last one was read.
#[derive(Drop)]
pub struct Draft {
    pub version: Option<Version>,
    pub ended: bool,
    pub station: StationSaid,
    pub lan: LanSaid,
    pub second: SecondSaid,
    pub uri: Option<Bytes>,
    pub names: Names,
    pub rules: Rows<Rule>,
    /// The octets of all images.
    pub octets: u64,
    /// Where the site stands whose lines are read: none for the first, which stands where the server does.
    pub at: Option<Peer>,
    pub site: SiteSaid,
    /// The sites in front of it.
    pub sites: Rows<Site>,
}

/// The port of the first site.
const HTTP_PORT: u16 = 80;

/// The station's Ethernet address.
const STATION_MAC: Mac = Mac([2, 0, 0, 0, 0, 1]);

/// The server's.
const SERVER_MAC: Mac = Mac([2, 0, 0, 0, 0, 2]);

/// 192.168.7.1.
const SERVER_IP: Ip4 = Ip4(0xC0A8_0701);

/// 192.168.7.50, in a network of 256 addresses, for a day.
const TERMS: Terms = Terms {
    ip: Ip4(0xC0A8_0732),
    mask: Ip4(0xFFFF_FF00),
    secs: 86_400,
};

/// The octets of a load's buffer.
const BUFFER: u32 = 16_777_216;

fn no_station() -> StationSaid
    ensures { result ≡ start.station }
{
    StationSaid {
        mac: None,
        seed: None,
        buffer: None,
        last: None,
        choose: None,
        progress: None,
        blksize: None,
    }
}

fn no_lan() -> LanSaid
    ensures { result ≡ start.lan }
{
    LanSaid {
        mac: None,
        ip: None,
        first_sequence: None,
        lease: None,
        router: None,
        dns: None,
        offers: None,
    }
}

/// No line was read.
pub fn new_draft(alloc: Global) -> Draft
    ensures { result ≡ start }
{
    Draft {
        version: None,
        ended: false,
        station: no_station(),
        lan: no_lan(),
        second: SecondSaid {
            scale: None,
            bootfile: false,
            stations: None,
        },
        uri: None,
        names: Names {
            addresses: Rows::new(alloc),
            aliases: Rows::new(alloc),
        },
        rules: Rows::new(alloc),
        octets: 0,
        at: None,
        site: new_site(alloc),
        sites: Rows::new(alloc),
    }
}

pub fn station_mac(draft: &Draft) -> Mac
    ensures { result ≡ station_mac draft.now }
{
    draft.station.mac.unwrap_or(STATION_MAC)
}

pub fn server_mac(draft: &Draft) -> Mac
    ensures { result ≡ server_mac draft.now }
{
    draft.lan.mac.unwrap_or(SERVER_MAC)
}

pub fn server_ip(draft: &Draft) -> Ip4
    ensures { result ≡ server_ip draft.now }
{
    draft.lan.ip.unwrap_or(SERVER_IP)
}

pub fn lease_of(draft: &Draft) -> Terms
    ensures { result ≡ lease_of draft.now }
{
    draft.lan.lease.unwrap_or(TERMS)
}

pub fn buffer_of(draft: &Draft) -> u32
    ensures { result ≡ buffer_of draft.now }
{
    draft.station.buffer.unwrap_or(BUFFER)
}

/// Where the site stands whose lines are read.
pub fn here(draft: &Draft) -> Peer
    ensures { result ≡ here draft.now }
{
    draft.at.unwrap_or(Peer {
        addr: server_ip(draft),
        port: HTTP_PORT,
    })
}
