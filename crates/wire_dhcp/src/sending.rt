//! The messages that a station sends (RFC 2131, section 4.4). When they are sent, and to whom, is a driver's affair.
ghost use Rattle.std.specs.Prelude.{◌≡◌, ◌≤◌, ◌-◌, ◌++◌, ℕ, List, IsTrue, length, replicate};
ghost use Rattle.byteorder.specs.Endian.{big_bytes};
ghost use Rattle.efi_base.specs.Writes.{Writes};
ghost use Rattle.wire_dhcp.specs.Filling.{Stands};
ghost use Rattle.wire_dhcp.specs.Sent.{discover_text, padded, release_text, renewal_text, request_text, station_fields};
ghost use Rattle.wire_dhcp.specs.Spelling.{can_write, dhcp_text};
ghost use Rattle.wire_dhcp.specs.Walk.{items_seen};

use crate::message::DhcpFixed;
use crate::options::DhcpOption;
use crate::writing::{put_next, write_dhcp};
use byteorder::{BigEndian, ByteOrder};
use efi_base::{Ip4, Mac, Name, NoRoom};

/// The least octets of a message that a station sends.
const LEAST: usize = 300;

/// The types of messages from stations.
const DISCOVER: [u8; 1] = [1];

const REQUEST: [u8; 1] = [3];

const RELEASE: [u8; 1] = [7];

/// The codes of the options that are asked for.
const PARAMETERS: [u8; 9] = [1, 3, 6, 51, 54, 58, 59, 60, 67];

/// The most octets of a message that is taken: 1500.
const MOST: [u8; 2] = [5, 220];

/// A station that boots over HTTP, and its architecture, 16.
const CLASS: [u8; 33] = *b"HTTPClient:Arch:00016:UNDI:003001";

const ARCHITECTURE: [u8; 2] = [0, 16];

/// Writes a DISCOVER.
#[tactic(auto, unfolding(crate::specs::Sent::discover_text))]
pub fn write_discover(mac: Mac, xid: u32, room: &mut [u8]) -> Result<usize, NoRoom>
    ensures { Writes (discover_text mac xid) room.old result room.new }
{
    let options = [
        DhcpOption {
            code: 53,
            value: &DISCOVER,
        },
        DhcpOption {
            code: 55,
            value: &PARAMETERS,
        },
        DhcpOption {
            code: 57,
            value: &MOST,
        },
        DhcpOption {
            code: 60,
            value: &CLASS,
        },
        DhcpOption {
            code: 93,
            value: &ARCHITECTURE,
        },
    ];
    put_padded(&station_fields(mac, xid, Ip4(0)), &options, room)
}

/// Writes a REQUEST of the address that this server offered.
#[tactic(auto, unfolding(crate::specs::Sent::request_text))]
pub fn write_request(
    mac: Mac,
    xid: u32,
    ip: Ip4,
    server: Ip4,
    room: &mut [u8],
) -> Result<usize, NoRoom>
    ensures { Writes (request_text mac xid ip server) room.old result room.new }
{
    let ip = four_octets(ip);
    let server = four_octets(server);
    let options = [
        DhcpOption {
            code: 53,
            value: &REQUEST,
        },
        DhcpOption {
            code: 50,
            value: &ip,
        },
        DhcpOption {
            code: 54,
            value: &server,
        },
        DhcpOption {
            code: 55,
            value: &PARAMETERS,
        },
        DhcpOption {
            code: 57,
            value: &MOST,
        },
        DhcpOption {
            code: 60,
            value: &CLASS,
        },
        DhcpOption {
            code: 93,
            value: &ARCHITECTURE,
        },
    ];
    put_padded(&station_fields(mac, xid, Ip4(0)), &options, room)
}

/// Writes a REQUEST that renews the lease of this address.
#[tactic(auto, unfolding(crate::specs::Sent::renewal_text))]
pub fn write_renewal(mac: Mac, xid: u32, ip: Ip4, room: &mut [u8]) -> Result<usize, NoRoom>
    ensures { Writes (renewal_text mac xid ip) room.old result room.new }
{
    let options = [
        DhcpOption {
            code: 53,
            value: &REQUEST,
        },
        DhcpOption {
            code: 55,
            value: &PARAMETERS,
        },
        DhcpOption {
            code: 57,
            value: &MOST,
        },
        DhcpOption {
            code: 60,
            value: &CLASS,
        },
        DhcpOption {
            code: 93,
            value: &ARCHITECTURE,
        },
    ];
    put_padded(&station_fields(mac, xid, ip), &options, room)
}

/// Writes a RELEASE of the address that this server gave.
#[tactic(auto, unfolding(crate::specs::Sent::release_text))]
pub fn write_release(
    mac: Mac,
    xid: u32,
    ip: Ip4,
    server: Ip4,
    room: &mut [u8],
) -> Result<usize, NoRoom>
    ensures { Writes (release_text mac xid ip server) room.old result room.new }
{
    let server = four_octets(server);
    let options = [
        DhcpOption {
            code: 53,
            value: &RELEASE,
        },
        DhcpOption {
            code: 54,
            value: &server,
        },
    ];
    put_padded(&station_fields(mac, xid, ip), &options, room)
}

pub(crate) fn four_octets(ip: Ip4) -> [u8; 4]
    ensures { result ≡ big_bytes 4 ip.0 }
{
    let mut octets = [0; 4];
    BigEndian::write_u32(&mut octets, ip.0);
    octets
}

/// The fields of a station that has this address.
fn station_fields(mac: Mac, xid: u32, ip: Ip4) -> DhcpFixed
    ensures { result ≡ station_fields mac xid ip }
{
    DhcpFixed {
        op: 1,
        xid,
        flags: 0x8000,
        ciaddr: ip,
        yiaddr: Ip4(0),
        siaddr: Ip4(0),
        mac,
        file: Name::from_slice(&[]),
    }
}

/// Writes a message, filled up with zeros to 300 octets.
fn put_padded(f: &DhcpFixed, options: &[DhcpOption<'_>], room: &mut [u8]) -> Result<usize, NoRoom>
    requires { IsTrue (can_write f.now (items_seen options.now)) }
    ensures { Writes (padded (dhcp_text f.now (items_seen options.now))) room.old result room.new }
{
    if room.len() < LEAST {
        return Err(NoRoom);
    }
    match write_dhcp(f, options, room) {
        Ok(end) => Ok(pad(end, room)),
        Err(e) => Err(e),
    }
}

/// Writes zeros from this place on up to the least octets, and answers the place behind them.
fn pad(end: usize, room: &mut [u8]) -> usize
    requires { 300 ≤ length room.old }
    ensures { (text before : List ℕ) → Stands text before end room.old → Stands (text ++ replicate (300 - end) 0) before result room.new }
{
    if end >= LEAST {
        return end;
    }
    put_next(&[0; LEAST][end..], end, room)
}
