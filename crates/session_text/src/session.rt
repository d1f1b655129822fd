//! What a whole document says, with what it says by default.
ghost use Rattle.std.specs.Prelude.{◌≡◌, ◌++◌, IfOk, codes};
ghost use Rattle.std.specs.Option.{unwrap_or};
ghost use Rattle.text_base.specs.Addresses.{dotted};
ghost use Rattle.session_text.specs.Sessions.{lan_of, one_offer, session_from, station_of, uri_of};

use crate::draft::{Draft, buffer_of, here, lease_of, server_ip, server_mac, station_mac};
use crate::lan::{LanSaid, Offer, Offers, Terms};
use crate::line::Version;
use crate::names::Names;
use crate::rows::Rows;
use crate::schedule::Rule;
use crate::second::SecondSaid;
use crate::site::{Site, site_of};
use crate::station::{Choose, Progress};
use efi_base::{Bytes, Ip4, Mac, NoMemory, Servers};
use std::alloc::{AllocError, Global};
use text_base::Dotted;

/// The first station, and how many there are.
#[derive(Clone, Copy, PartialEq, Eq, Debug)]
pub struct Station {
    pub mac: Mac,
    /// From this the station's numbers are made: ports, first sequence numbers, transactions.
    pub seed: u32,
    /// The octets of a load's buffer.
    pub buffer: u32,
    /// The last tick.
    pub last: u64,
    pub choose: Choose,
    pub progress: Progress,
    /// The octets of a block that TFTP asks for: 0 asks for none.
    pub blksize: u16,
    pub count: u8,
}

/// The server.
#[derive(Debug, Drop)]
pub struct Lan {
    pub mac: Mac,
    pub ip: Ip4,
    /// The sequence number of its first connection.
    pub first_sequence: u32,
    pub lease: Terms,
    pub router: Option<Ip4>,
    pub dns: Option<Servers>,
    /// The URI that offers name.
    pub uri: Bytes,
    pub offers: Offers,
    /// Whether it may scale windows (RFC 7323).
    pub scale: bool,
    /// Whether its messages name a server and a file for TFTP.
    pub bootfile: bool,
}

/// A session: what a load is tried with.
#[derive(Debug, Drop)]
pub struct Session {
    pub version: Version,
    pub station: Station,
    pub lan: Lan,
    pub names: Names,
    /// The lines of the schedule, in order.
    pub schedule: Rows<Rule>,
    /// The sites in order. The first stands where the server does.
    pub sites: Rows<Site>,
}

/// The last tick.
const LAST: u64 = 3_600_000;

const FIRST_SEQUENCE: u32 = 1_000;

fn station_of(draft: &Draft) -> Station
    ensures { result ≡ station_of draft.now }
{
    let said = draft.station;
    Station {
        mac: station_mac(draft),
        seed: said.seed.unwrap_or(1),
        buffer: buffer_of(draft),
        last: said.last.unwrap_or(LAST),
        choose: said.choose.unwrap_or(Choose::Http),
        progress: said.progress.unwrap_or(Progress::Go),
        blksize: said.blksize.unwrap_or(0),
        count: draft.second.stations.unwrap_or(1),
    }
}

/// The image at the server's address.
fn default_uri(alloc: Global, ip: Ip4) -> Result<Bytes, AllocError>
    ensures { IfOk result (λ uri. uri ≡ codes "http://" ++ (dotted ip.0 ++ codes "/image")) }
{
    let text = format!(in alloc; "http://{}/image", Dotted(ip.0))?;
    Ok(Bytes::from_vec(text.into_bytes()))
}

fn uri_of(alloc: Global, said: Option<Bytes>, ip: Ip4) -> Result<Bytes, NoMemory>
    ensures { IfOk result (λ uri. uri ≡ uri_of said ip) }
{
    match said {
        Some(uri) => Ok(uri),
        None => Ok(default_uri(alloc, ip)?),
    }
}

/// One offer that names an image, where none were said.
fn offers_of(said: Option<Offers>) -> Offers
    ensures { result ≡ unwrap_or said one_offer }
{
    match said {
        Some(offers) => offers,
        None => one_offer(),
    }
}

fn one_offer() -> Offers
    ensures { result ≡ one_offer }
{
    let mut offers = Offers::new();
    match offers.push(Offer::Http) {
        Ok(()) => offers,
        Err(_) => unreachable!(),
    }
}

fn lan_of(mac: Mac, ip: Ip4, lease: Terms, uri: Bytes, said: LanSaid, second: SecondSaid) -> Lan
    ensures { result ≡ lan_of mac ip lease uri said second }
{
    let LanSaid {
        mac: _,
        ip: _,
        first_sequence,
        lease: _,
        router,
        dns,
        offers,
    } = said;
    Lan {
        mac,
        ip,
        first_sequence: first_sequence.unwrap_or(FIRST_SEQUENCE),
        lease,
        router,
        dns,
        uri,
        offers: offers_of(offers),
        scale: second.scale.unwrap_or(true),
        bootfile: second.bootfile,
    }
}

/// What these lines say. Where no line told the version, it is the first.
#[tactic(auto, unfolding(crate::specs::Sessions::session_from))]
pub fn session_from(alloc: Global, draft: Draft) -> Result<Session, NoMemory>
    ensures { IfOk result (λ session. session ≡ session_from draft) }
{
    let (station, place, lease) = (station_of(&draft), here(&draft), lease_of(&draft));
    let (mac, ip) = (server_mac(&draft), server_ip(&draft));
    let Draft {
        version,
        lan,
        second,
        uri,
        names,
        rules,
        site,
        mut sites,
        ..
    } = draft;
    sites.push(site_of(place, site))?;
    let uri = uri_of(alloc, uri, ip)?;
    Ok(Session {
        version: version.unwrap_or(Version::One),
        station,
        lan: lan_of(mac, ip, lease, uri, lan, second),
        names,
        schedule: rules,
        sites,
    })
}
