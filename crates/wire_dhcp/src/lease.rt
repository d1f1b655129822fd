//! Leases (RFC 2131): an address for a time, and what else the server tells. Times are in seconds; when a lease ends is a
//! driver's affair.
ghost use Rattle.std.specs.Prelude.{◌≡◌, ◌∷◌, [], ◌++◌, ◌≤◌, ◌*◌, ◌/◌, length, take, option_map, IfOk};
ghost use Rattle.wire_dhcp.specs.Leases.{class_mask, file_of, first_address, four_of, lease_by, lease_of, mask_from, said_or, servers_of, unicast_in, uri_from, without_zeros};
ghost use Rattle.wire_dhcp.specs.Message.{option_of};

use crate::message::Dhcp;
use crate::says::{Terms, read_four, read_terms};
use byteorder::{BigEndian, ByteOrder};
use efi_base::{Bytes, Ip4, Name, NoMemory, Servers, is_mask, is_unicast, u32_at};
use std::alloc::Global;

/// A lease. Times are in seconds; one of 4,294,967,295 doesn't end.
#[derive(Debug, Drop)]
pub struct Lease {
    pub ip: Ip4,
    /// The mask of the network, ones in front.
    pub mask: u32,
    /// The server that gave it.
    pub server: Ip4,
    pub secs: u32,
    /// After this time the server is asked to renew it.
    pub t1: u32,
    /// After this time every server is asked.
    pub t2: u32,
    pub router: Option<Ip4>,
    pub dns: Servers,
    /// From where an image is loaded.
    pub uri: Option<Bytes>,
    /// The next server.
    pub next: Ip4,
    /// The file to load from it, empty where none is named.
    pub file: Name,
}

/// The codes of the options that are read here.
const MASK: u8 = 1;

const ROUTER: u8 = 3;

const DNS: u8 = 6;

const RENEWAL: u8 = 58;

const REBINDING: u8 = 59;

const BOOT_FILE: u8 = 67;

/// The lease that the message gives. None where it doesn't say what an ACK must say.
pub fn read_lease(alloc: Global, message: &Dhcp<'_>) -> Result<Option<Lease>, NoMemory>
    ensures { IfOk result (λ lease. lease ≡ lease_of message.now) }
{
    match read_terms(message) {
        Some(terms) => match lease_by(alloc, message, terms) {
            Ok(lease) => Ok(Some(lease)),
            Err(e) => Err(e),
        },
        None => Ok(None),
    }
}

fn lease_by(alloc: Global, message: &Dhcp<'_>, terms: Terms) -> Result<Lease, NoMemory>
    ensures { IfOk result (λ lease. lease ≡ lease_by message.now terms) }
{
    let uri = match read_uri(alloc, message) {
        Ok(uri) => uri,
        Err(e) => return Err(e),
    };
    let dns = match read_servers(alloc, message) {
        Ok(dns) => dns,
        Err(e) => return Err(e),
    };
    Ok(Lease {
        ip: terms.ip,
        mask: mask_of(terms.ip, read_four(message, MASK)),
        server: terms.server,
        secs: terms.secs,
        t1: said_or(read_four(message, RENEWAL), terms.secs / 2),
        t2: said_or(read_four(message, REBINDING), seven_eighths(terms.secs)),
        router: read_router(message),
        dns,
        uri,
        next: message.fixed().siaddr,
        file: message.named_file(),
    })
}

/// Option 1 where it is a mask, else the mask of the address's class.
fn mask_of(ip: Ip4, said: Option<u32>) -> u32
    ensures { result ≡ mask_from ip.0 said }
{
    let Some(mask) = said else {
        return class_mask(ip.0);
    };
    if is_mask(mask) {
        mask
    } else {
        class_mask(ip.0)
    }
}

fn class_mask(ip: u32) -> u32
    ensures { result ≡ class_mask ip }
{
    if ip < 0x8000_0000 {
        return 0xFF00_0000;
    }
    if ip < 0xC000_0000 {
        return 0xFFFF_0000;
    }
    0xFFFF_FF00
}

fn said_or(said: Option<u32>, other: u32) -> u32
    ensures { result ≡ said_or said other }
{
    match said {
        Some(said) => said,
        None => other,
    }
}

/// Seven eighths, rounded down.
fn seven_eighths(secs: u32) -> u32
    ensures { result ≡ secs * 7 / 8 }
{
    (secs as u64 * 7 / 8) as u32
}

/// The first address of option 3.
fn read_router(message: &Dhcp<'_>) -> Option<Ip4>
    ensures { result ≡ first_address (option_of 3 message.now) }
{
    let mut room = [0; 4];
    let Some(size) = message.option(ROUTER, &mut room) else {
        return None;
    };
    if size < 4 {
        return None;
    }
    Some(Ip4(BigEndian::read_u32(&room)))
}

/// Option 67 without the zeros at its end, else the file that is named.
fn read_uri(alloc: Global, message: &Dhcp<'_>) -> Result<Option<Bytes>, NoMemory>
    ensures { IfOk result (λ uri. uri ≡ uri_from (option_of 67 message.now) (file_of message.now)) }
{
    match read_value(alloc, message, BOOT_FILE) {
        Ok(Some(value)) => Ok(Some(trimmed(value))),
        Ok(None) => file_uri(alloc, &message.named_file()),
        Err(e) => Err(e),
    }
}

/// The file as a URI, where one is named.
fn file_uri(alloc: Global, file: &Name) -> Result<Option<Bytes>, NoMemory>
    ensures { IfOk result (λ uri. uri ≡ uri_from None file.now) }
{
    if file.as_slice().is_empty() {
        return Ok(None);
    }
    match file.as_slice().to_vec(alloc) {
        Ok(octets) => Ok(Some(Bytes::from_vec(octets))),
        Err(_) => Err(NoMemory),
    }
}

/// The octets without the zeros at their end.
fn trimmed(value: Vec<u8>) -> Bytes
    ensures { result ≡ without_zeros value.items }
{
    let mut octets = value;
    let end = text_end(&octets);
    octets.truncate(end);
    Bytes::from_vec(octets)
}

/// The place behind the last octet that isn't zero.
fn text_end(octets: &[u8]) -> usize
    ensures text { take result octets.now ≡ without_zeros octets.now }
    ensures within { result ≤ length octets.now }
{
    let mut end = 0;
    for (i, octet) in octets.iter().enumerate() {
        if *octet != 0 {
            end = i + 1;
        }
    }
    end
}

/// The joined value of the options of this code.
fn read_value(alloc: Global, message: &Dhcp<'_>, code: u8) -> Result<Option<Vec<u8>>, NoMemory>
    ensures { IfOk result (λ value. option_map (λ v. v.items) value ≡ option_of code message.now) }
{
    let Some(size) = message.option(code, &mut []) else {
        return Ok(None);
    };
    let mut octets = match zeros(alloc, size) {
        Ok(octets) => octets,
        Err(e) => return Err(e),
    };
    message.option(code, &mut octets);
    Ok(Some(octets))
}

fn zeros(alloc: Global, size: usize) -> Result<Vec<u8>, NoMemory>
    ensures { IfOk result (λ octets. length octets.items ≡ size) }
{
    match vec![in alloc; 0; size] {
        Ok(octets) => Ok(octets),
        Err(_) => Err(NoMemory),
    }
}

/// The first three unicast addresses of option 6.
fn read_servers(alloc: Global, message: &Dhcp<'_>) -> Result<Servers, NoMemory>
    ensures { IfOk result (λ servers. servers ≡ servers_of (option_of 6 message.now)) }
{
    match read_value(alloc, message, DNS) {
        Ok(Some(value)) => Ok(servers_in(&value)),
        Ok(None) => Ok(Servers::new()),
        Err(e) => Err(e),
    }
}

/// The first three unicast addresses.
fn servers_in(octets: &[u8]) -> Servers
    ensures { result ≡ servers_of (Some octets.now) }
{
    let mut servers = Servers::new();
    let mut rest = octets;
    while rest.len() >= 4 {
        put_server(&mut servers, Ip4(u32_at(rest, 0)));
        rest = &rest[4..];
    }
    servers
}

/// Puts a unicast address behind the others, where there are fewer than three.
fn put_server(servers: &mut Servers, ip: Ip4)
    requires { length servers.old ≤ 3 }
    ensures servers { servers.new ≡ take 3 (servers.old ++ unicast_in (ip.0 ∷ [])) }
    ensures bound { length servers.new ≤ 3 }
{
    if !is_unicast(ip) {
        return;
    }
    if servers.as_slice().len() == 3 {
        return;
    }
    match servers.push(ip) {
        Ok(()) => (),
        Err(_) => (),
    }
}
