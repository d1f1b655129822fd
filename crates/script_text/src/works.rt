//! The work of a token, by the protocol of its child.
ghost use Rattle.std.specs.Prelude.{◌≡◌, IfOk};
ghost use Rattle.script_text.specs.Works.{arp_work, boot_work, dhcp_work, dns_work, file_work, get_url, http_work, is_url, kept_work, last_ip, last_name, last_octets, plain_work, read_work, receive_work, room_next, send_datagram, send_frame, send_octets, send_packet, tcp_work, work_of, write_file};

use crate::words::Words;
use efi_base::{Bytes, Ip4, Mac, Name, NoMemory, Proto};
use session_text::{are_visible, hex_of};
use std::alloc::Global;

/// What is asked of a child.
#[derive(Debug, Drop)]
pub enum Work {
    /// To send a frame of an EtherType.
    SendFrame(Mac, u16, Bytes),
    /// To send a packet of a protocol.
    SendPacket(Ip4, u8, Bytes),
    /// To send a datagram to a port.
    SendDatagram(Ip4, u16, Bytes),
    /// To send octets of a stream.
    SendOctets(Bytes),
    /// To receive a frame, packet or datagram.
    Receive,
    /// To receive octets of a stream into a room of so many.
    ReceiveInto(u32),
    /// To find the Ethernet address of a station.
    Request(Ip4),
    Connect,
    Accept,
    Close,
    Abort,
    /// To take a lease.
    Start,
    Renew,
    Release,
    /// To find the address of a name.
    Resolve(Name),
    /// To find the name of an address.
    Reverse(Ip4),
    /// To read a file into a room of so many octets.
    Read(Name, u32),
    /// To write a file.
    Write(Name, Bytes),
    /// To ask for a file's size.
    Info(Name),
    /// To ask for a URL.
    Get(Bytes),
    /// To take the response into a room of so many octets.
    Response(u32),
    /// To load an image into a buffer of so many octets.
    Load(u32),
}

/// The most octets of a room.
const MOST_ROOM: u64 = 1_073_741_825;

/// The most of an EtherType and of a port, and of a protocol's number.
const MOST_U16: u64 = 65_535;

const MOST_U8: u64 = 255;

/// A room, which ends the line.
fn room(words: Words<'_>) -> Option<u32>
    ensures { result ≡ room_next words.entry }
{
    let Some((n, words)) = words.number(0, MOST_ROOM) else {
        return None;
    };
    words.finished(n as u32)
}

/// Works of a connection but for sending.
fn tcp_work(key: &[u8], words: Words<'_>) -> Option<Work>
    ensures { result ≡ tcp_work key.now words.entry }
{
    if key == b"connect".as_slice() {
        return words.finished(Work::Connect);
    }
    if key == b"accept".as_slice() {
        return words.finished(Work::Accept);
    }
    if key == b"close".as_slice() {
        return words.finished(Work::Close);
    }
    if key == b"abort".as_slice() {
        return words.finished(Work::Abort);
    }
    if key == b"receive".as_slice() {
        return room(words).map(|n| Work::ReceiveInto(n));
    }
    None
}

fn dhcp_work(key: &[u8], words: Words<'_>) -> Option<Work>
    ensures { result ≡ dhcp_work key.now words.entry }
{
    if key == b"start".as_slice() {
        return words.finished(Work::Start);
    }
    if key == b"renew".as_slice() {
        return words.finished(Work::Renew);
    }
    if key == b"release".as_slice() {
        return words.finished(Work::Release);
    }
    None
}

/// An address, which ends the line.
pub fn last_ip(words: Words<'_>) -> Option<Ip4>
    ensures { result ≡ last_ip words.entry }
{
    let Some((ip, words)) = words.ip() else {
        return None;
    };
    words.finished(ip)
}

/// A name, which ends the line.
fn last_name(words: Words<'_>) -> Option<Name>
    ensures { result ≡ last_name words.entry }
{
    let Some((name, words)) = words.name() else {
        return None;
    };
    words.finished(name)
}

fn dns_work(key: &[u8], words: Words<'_>) -> Option<Work>
    ensures { result ≡ dns_work key.now words.entry }
{
    if key == b"resolve".as_slice() {
        return last_name(words).map(|name| Work::Resolve(name));
    }
    if key == b"reverse".as_slice() {
        return last_ip(words).map(|ip| Work::Reverse(ip));
    }
    None
}

/// A file to read, and its room.
fn read_work(words: Words<'_>) -> Option<Work>
    ensures { result ≡ read_work words.entry }
{
    let Some((name, words)) = words.name() else {
        return None;
    };
    let Some(room) = room(words) else {
        return None;
    };
    Some(Work::Read(name, room))
}

/// Works of files but for writing.
fn file_work(key: &[u8], words: Words<'_>) -> Option<Work>
    ensures { result ≡ file_work key.now words.entry }
{
    if key == b"read".as_slice() {
        return read_work(words);
    }
    if key == b"info".as_slice() {
        return last_name(words).map(|name| Work::Info(name));
    }
    None
}

/// To receive what comes next.
fn receive_work(key: &[u8], words: Words<'_>) -> Option<Work>
    ensures { result ≡ receive_work key.now words.entry }
{
    if key != b"receive".as_slice() {
        return None;
    }
    words.finished(Work::Receive)
}

fn arp_work(key: &[u8], words: Words<'_>) -> Option<Work>
    ensures { result ≡ arp_work key.now words.entry }
{
    if key != b"request".as_slice() {
        return None;
    }
    last_ip(words).map(|ip| Work::Request(ip))
}

fn http_work(key: &[u8], words: Words<'_>) -> Option<Work>
    ensures { result ≡ http_work key.now words.entry }
{
    if key != b"response".as_slice() {
        return None;
    }
    room(words).map(|n| Work::Response(n))
}

fn boot_work(key: &[u8], words: Words<'_>) -> Option<Work>
    ensures { result ≡ boot_work key.now words.entry }
{
    if key != b"load".as_slice() {
        return None;
    }
    room(words).map(|n| Work::Load(n))
}

/// A work that needs no memory, by its word and what stands behind it.
fn plain_work(proto: Proto, key: &[u8], words: Words<'_>) -> Option<Work>
    ensures { result ≡ plain_work proto key.now words.entry }
{
    match proto {
        Proto::Mnp | Proto::Ip4 | Proto::Udp4 => receive_work(key, words),
        Proto::Arp => arp_work(key, words),
        Proto::Tcp4 => tcp_work(key, words),
        Proto::Dhcp4 => dhcp_work(key, words),
        Proto::Dns4 => dns_work(key, words),
        Proto::Mtftp4 => file_work(key, words),
        Proto::Http => http_work(key, words),
        Proto::Boot => boot_work(key, words),
    }
}

/// HEX, which ends the line.
pub fn last_octets(alloc: Global, words: Words<'_>) -> Result<Option<Bytes>, NoMemory>
    ensures { IfOk result (λ octets. octets ≡ last_octets words.entry) }
{
    let Some((word, words)) = words.word() else {
        return Ok(None);
    };
    match hex_of(alloc, word)? {
        Some(octets) => Ok(words.finished(octets)),
        None => Ok(None),
    }
}

/// A frame's destination, EtherType and octets.
fn send_frame(alloc: Global, words: Words<'_>) -> Result<Option<Work>, NoMemory>
    ensures { IfOk result (λ work. work ≡ send_frame words.entry) }
{
    let Some((dest, words)) = words.mac() else {
        return Ok(None);
    };
    let Some((kind, words)) = words.number(0, MOST_U16) else {
        return Ok(None);
    };
    match last_octets(alloc, words)? {
        Some(octets) => Ok(Some(Work::SendFrame(dest, kind as u16, octets))),
        None => Ok(None),
    }
}

/// A packet's destination, protocol and octets.
fn send_packet(alloc: Global, words: Words<'_>) -> Result<Option<Work>, NoMemory>
    ensures { IfOk result (λ work. work ≡ send_packet words.entry) }
{
    let Some((dest, words)) = words.ip() else {
        return Ok(None);
    };
    let Some((proto, words)) = words.number(0, MOST_U8) else {
        return Ok(None);
    };
    match last_octets(alloc, words)? {
        Some(octets) => Ok(Some(Work::SendPacket(dest, proto as u8, octets))),
        None => Ok(None),
    }
}

/// A datagram's destination, port and octets.
fn send_datagram(alloc: Global, words: Words<'_>) -> Result<Option<Work>, NoMemory>
    ensures { IfOk result (λ work. work ≡ send_datagram words.entry) }
{
    let Some((dest, words)) = words.ip() else {
        return Ok(None);
    };
    let Some((port, words)) = words.number(0, MOST_U16) else {
        return Ok(None);
    };
    match last_octets(alloc, words)? {
        Some(octets) => Ok(Some(Work::SendDatagram(dest, port as u16, octets))),
        None => Ok(None),
    }
}

fn send_octets(alloc: Global, words: Words<'_>) -> Result<Option<Work>, NoMemory>
    ensures { IfOk result (λ work. work ≡ send_octets words.entry) }
{
    Ok(last_octets(alloc, words)?.map(|octets| Work::SendOctets(octets)))
}

/// A file's name, and its octets.
fn write_file(alloc: Global, words: Words<'_>) -> Result<Option<Work>, NoMemory>
    ensures { IfOk result (λ work. work ≡ write_file words.entry) }
{
    let Some((name, words)) = words.name() else {
        return Ok(None);
    };
    match last_octets(alloc, words)? {
        Some(octets) => Ok(Some(Work::Write(name, octets))),
        None => Ok(None),
    }
}

/// One or more octets that are seen.
fn is_url(text: &[u8]) -> bool
    ensures { result ≡ is_url text.now }
{
    if text.is_empty() {
        return false;
    }
    are_visible(text)
}

/// The octets of a URL, which ends the line.
fn get_url(alloc: Global, words: Words<'_>) -> Result<Option<Work>, NoMemory>
    ensures { IfOk result (λ work. work ≡ get_url words.entry) }
{
    let Some((word, words)) = words.word() else {
        return Ok(None);
    };
    if !is_url(word) {
        return Ok(None);
    }
    Ok(words.finished(Work::Get(Bytes::copy_of(alloc, word)?)))
}

/// A work whose octets are kept, by its word and what stands behind it.
fn kept_work(
    alloc: Global,
    proto: Proto,
    key: &[u8],
    words: Words<'_>,
) -> Result<Option<Work>, NoMemory>
    ensures { IfOk result (λ work. work ≡ kept_work proto key.now words.entry) }
{
    match proto {
        Proto::Mnp if key == b"send".as_slice() => send_frame(alloc, words),
        Proto::Ip4 if key == b"send".as_slice() => send_packet(alloc, words),
        Proto::Udp4 if key == b"send".as_slice() => send_datagram(alloc, words),
        Proto::Tcp4 if key == b"send".as_slice() => send_octets(alloc, words),
        Proto::Mtftp4 if key == b"write".as_slice() => write_file(alloc, words),
        Proto::Http if key == b"get".as_slice() => get_url(alloc, words),
        _ => Ok(None),
    }
}

/// The work of a token of this protocol.
pub fn work_of(alloc: Global, proto: Proto, words: Words<'_>) -> Result<Option<Work>, NoMemory>
    ensures { IfOk result (λ work. work ≡ work_of proto words.entry) }
{
    let Some((key, words)) = words.word() else {
        return Ok(None);
    };
    if let Some(work) = plain_work(proto, key, words.again()) {
        return Ok(Some(work));
    }
    kept_work(alloc, proto, key, words)
}
