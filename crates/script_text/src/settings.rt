//! What a child is configured with, by its protocol.
ghost use Rattle.std.specs.Prelude.{◌≡◌, ◌<◌, ◌^◌};
ghost use Rattle.script_text.specs.Settings.{addr_next, arp_settings, at_maybe, dns_settings, ip_at, ip_settings, keyed_ip, keyed_number, mnp_flags, mnp_settings, peer_maybe, peer_next, proto_of, proto_word, settings_behind, settings_of, tcp_settings, tftp_settings, timeout_maybe, udp_settings};

use crate::words::Words;
use efi_base::{Addr, Ip4, Peer, Proto, Servers};
use session_text::servers_of;

/// Which frames a child takes: those of an EtherType, or of all where it is 0, to these destinations.
#[derive(Clone, Copy, PartialEq, Eq, Debug)]
pub struct MnpSettings {
    pub kind: u16,
    pub unicast: bool,
    pub multicast: bool,
    pub broadcast: bool,
    pub promiscuous: bool,
}

/// How a child asks for and keeps mappings (RFC 826).
#[derive(Clone, Copy, PartialEq, Eq, Debug)]
pub struct ArpSettings {
    /// The address for which it answers.
    pub ip: Ip4,
    /// For how many ticks a mapping holds: 0 for ever.
    pub entry: u32,
    /// How often it asks, from 1 to 10 times.
    pub tries: u8,
    /// The ticks from one request to the next, at least 1.
    pub gap: u32,
}

/// Which packets a child sends and takes (RFC 791).
#[derive(Clone, Copy, PartialEq, Eq, Debug)]
pub struct IpSettings {
    /// The protocol: none for every one.
    pub proto: Option<u8>,
    /// Its address: none for the default one.
    pub at: Option<Addr>,
}

/// Which datagrams a child sends and takes (RFC 768).
#[derive(Clone, Copy, PartialEq, Eq, Debug)]
pub struct UdpSettings {
    /// Its port: 0 for one that the stack picks.
    pub port: u16,
    /// Whether others may have the same port.
    pub share: bool,
    /// Its address: none for the default one.
    pub at: Option<Addr>,
    /// From whom alone it takes datagrams.
    pub peer: Option<Peer>,
    /// Whether it takes broadcasts.
    pub broadcast: bool,
    /// The ticks after which a receive token ends.
    pub timeout: Option<u32>,
}

/// A connection's ends (RFC 9293).
#[derive(Clone, Copy, PartialEq, Eq, Debug)]
pub struct TcpSettings {
    /// Its port: 0 for one that the stack picks.
    pub port: u16,
    /// Its address: none for the default one.
    pub at: Option<Addr>,
    /// To whom it connects: none for one that listens.
    pub to: Option<Peer>,
}

/// From where files are fetched (RFC 1350).
#[derive(Clone, Copy, PartialEq, Eq, Debug)]
pub struct TftpSettings {
    pub server: Ip4,
    /// The octets of a block that are asked for (RFC 2348): 0 for none.
    pub blksize: u16,
}

/// What a child is configured with.
#[derive(Debug, Drop)]
pub enum Settings {
    Mnp(MnpSettings),
    Arp(ArpSettings),
    Ip4(IpSettings),
    Udp4(UdpSettings),
    Tcp4(TcpSettings),
    Dhcp4,
    /// The servers that are asked, from one to three.
    Dns4(Servers),
    Mtftp4(TftpSettings),
    Http,
    Boot,
}

const MOST_U8: u64 = 255;

const MOST_U16: u64 = 65_535;

const MOST_U32: u64 = 4_294_967_295;

/// The most requests for a mapping.
const MOST_TRIES: u64 = 10;

/// The word that names a protocol.
fn proto_word(proto: Proto) -> &'static [u8]
    ensures { result.now ≡ proto_word proto }
{
    match proto {
        Proto::Mnp => b"mnp",
        Proto::Arp => b"arp",
        Proto::Ip4 => b"ip4",
        Proto::Udp4 => b"udp4",
        Proto::Tcp4 => b"tcp4",
        Proto::Dhcp4 => b"dhcp4",
        Proto::Dns4 => b"dns4",
        Proto::Mtftp4 => b"mtftp4",
        Proto::Http => b"http",
        Proto::Boot => b"boot",
    }
}

/// The number of 32 bits behind this word.
fn keyed_u32<'a>(words: Words<'a>, key: &[u8], least: u64) -> Option<(u32, Words<'a>)>
    ensures { result ≡ keyed_number key.now least MOST_U32 words.entry }
{
    let Some(words) = words.behind(key) else {
        return None;
    };
    let Some((n, words)) = words.number(least, MOST_U32) else {
        return None;
    };
    Some((n as u32, words))
}

/// The number of 16 bits behind this word.
fn keyed_u16<'a>(words: Words<'a>, key: &[u8]) -> Option<(u16, Words<'a>)>
    ensures { result ≡ keyed_number key.now 0 MOST_U16 words.entry }
{
    let Some(words) = words.behind(key) else {
        return None;
    };
    let Some((n, words)) = words.number(0, MOST_U16) else {
        return None;
    };
    Some((n as u16, words))
}

/// The number of 8 bits behind this word.
fn keyed_u8<'a>(words: Words<'a>, key: &[u8], least: u64, most: u64) -> Option<(u8, Words<'a>)>
    requires { most < 2 ^ 8 }
    ensures { result ≡ keyed_number key.now least most words.entry }
{
    let Some(words) = words.behind(key) else {
        return None;
    };
    let Some((n, words)) = words.number(least, most) else {
        return None;
    };
    Some((n as u8, words))
}

/// The address behind this word.
fn keyed_ip<'a>(words: Words<'a>, key: &[u8]) -> Option<(Ip4, Words<'a>)>
    ensures { result ≡ keyed_ip key.now words.entry }
{
    let Some(words) = words.behind(key) else {
        return None;
    };
    words.ip()
}

/// An address and its mask.
pub fn addr_next<'a>(words: Words<'a>) -> Option<(Addr, Words<'a>)>
    ensures { result ≡ addr_next words.entry }
{
    let Some((ip, words)) = words.ip() else {
        return None;
    };
    let Some((mask, words)) = words.ip() else {
        return None;
    };
    Some((Addr { ip, mask: mask.0 }, words))
}

/// An address and a port.
fn peer_next<'a>(words: Words<'a>) -> Option<(Peer, Words<'a>)>
    ensures { result ≡ peer_next words.entry }
{
    let Some((addr, words)) = words.ip() else {
        return None;
    };
    let Some((port, words)) = words.number(0, MOST_U16) else {
        return None;
    };
    Some((
        Peer {
            addr,
            port: port as u16,
        },
        words,
    ))
}

/// The child's own address, where one is told.
fn at_maybe<'a>(words: Words<'a>) -> Option<(Option<Addr>, Words<'a>)>
    ensures { result ≡ at_maybe words.entry }
{
    let Some(behind) = words.behind(b"at") else {
        return Some((None, words));
    };
    let Some((at, words)) = addr_next(behind) else {
        return None;
    };
    Some((Some(at), words))
}

/// The peer behind this word, where one is told.
fn peer_maybe<'a>(words: Words<'a>, key: &[u8]) -> Option<(Option<Peer>, Words<'a>)>
    ensures { result ≡ peer_maybe key.now words.entry }
{
    let Some(behind) = words.behind(key) else {
        return Some((None, words));
    };
    let Some((peer, words)) = peer_next(behind) else {
        return None;
    };
    Some((Some(peer), words))
}

/// The protocol that a word names.
pub fn proto_of(word: &[u8]) -> Option<Proto>
    ensures { result ≡ proto_of word.now }
{
    if word == b"mnp".as_slice() {
        return Some(Proto::Mnp);
    }
    if word == b"arp".as_slice() {
        return Some(Proto::Arp);
    }
    if word == b"ip4".as_slice() {
        return Some(Proto::Ip4);
    }
    if word == b"udp4".as_slice() {
        return Some(Proto::Udp4);
    }
    if word == b"tcp4".as_slice() {
        return Some(Proto::Tcp4);
    }
    if word == b"dhcp4".as_slice() {
        return Some(Proto::Dhcp4);
    }
    if word == b"dns4".as_slice() {
        return Some(Proto::Dns4);
    }
    if word == b"mtftp4".as_slice() {
        return Some(Proto::Mtftp4);
    }
    if word == b"http".as_slice() {
        return Some(Proto::Http);
    }
    if word == b"boot".as_slice() {
        return Some(Proto::Boot);
    }
    None
}

/// Which destinations, in this order.
fn mnp_flags(kind: u16, words: Words<'_>) -> Option<MnpSettings>
    ensures { result ≡ mnp_flags kind words.entry }
{
    let (unicast, words) = words.flag(b"unicast");
    let (multicast, words) = words.flag(b"multicast");
    let (broadcast, words) = words.flag(b"broadcast");
    let (promiscuous, words) = words.flag(b"promiscuous");
    words.finished(MnpSettings {
        kind,
        unicast,
        multicast,
        broadcast,
        promiscuous,
    })
}

fn mnp_settings(words: Words<'_>) -> Option<MnpSettings>
    ensures { result ≡ mnp_settings words.entry }
{
    let Some((kind, words)) = keyed_u16(words, b"type") else {
        return None;
    };
    mnp_flags(kind, words)
}

fn arp_settings(words: Words<'_>) -> Option<ArpSettings>
    ensures { result ≡ arp_settings words.entry }
{
    let Some((ip, words)) = keyed_ip(words, b"ip") else {
        return None;
    };
    let Some((entry, words)) = keyed_u32(words, b"entry", 0) else {
        return None;
    };
    let Some((tries, words)) = keyed_u8(words, b"tries", 1, MOST_TRIES) else {
        return None;
    };
    let Some((gap, words)) = keyed_u32(words, b"gap", 1) else {
        return None;
    };
    words.finished(ArpSettings {
        ip,
        entry,
        tries,
        gap,
    })
}

/// Where packets of this protocol, or of every one, come to.
fn ip_at(proto: Option<u8>, words: Words<'_>) -> Option<IpSettings>
    ensures { result ≡ ip_at proto words.entry }
{
    let Some((at, words)) = at_maybe(words) else {
        return None;
    };
    words.finished(IpSettings { proto, at })
}

fn ip_settings(words: Words<'_>) -> Option<IpSettings>
    ensures { result ≡ ip_settings words.entry }
{
    if let Some(words) = words.behind(b"any") {
        return ip_at(None, words);
    }
    let Some((proto, words)) = keyed_u8(words, b"proto", 0, MOST_U8) else {
        return None;
    };
    ip_at(Some(proto), words)
}

/// The ticks after which a receive token ends, where they are told.
fn timeout_maybe<'a>(words: Words<'a>) -> Option<(Option<u32>, Words<'a>)>
    ensures { result ≡ timeout_maybe words.entry }
{
    let Some(behind) = words.behind(b"timeout") else {
        return Some((None, words));
    };
    let Some((n, words)) = behind.number(0, MOST_U32) else {
        return None;
    };
    Some((Some(n as u32), words))
}

fn udp_settings(words: Words<'_>) -> Option<UdpSettings>
    ensures { result ≡ udp_settings words.entry }
{
    let Some((port, words)) = keyed_u16(words, b"port") else {
        return None;
    };
    let (share, words) = words.flag(b"share");
    let Some((at, words)) = at_maybe(words) else {
        return None;
    };
    let Some((peer, words)) = peer_maybe(words, b"peer") else {
        return None;
    };
    let (broadcast, words) = words.flag(b"broadcast");
    let Some((timeout, words)) = timeout_maybe(words) else {
        return None;
    };
    words.finished(UdpSettings {
        port,
        share,
        at,
        peer,
        broadcast,
        timeout,
    })
}

fn tcp_settings(words: Words<'_>) -> Option<TcpSettings>
    ensures { result ≡ tcp_settings words.entry }
{
    let Some((port, words)) = keyed_u16(words, b"port") else {
        return None;
    };
    let Some((at, words)) = at_maybe(words) else {
        return None;
    };
    let Some((to, words)) = peer_maybe(words, b"to") else {
        return None;
    };
    words.finished(TcpSettings { port, at, to })
}

fn dns_settings(words: Words<'_>) -> Option<Servers>
    ensures { result ≡ dns_settings words.entry }
{
    let Some(words) = words.behind(b"server") else {
        return None;
    };
    let Some(text) = words.text() else {
        return None;
    };
    servers_of(text)
}

fn tftp_settings(words: Words<'_>) -> Option<TftpSettings>
    ensures { result ≡ tftp_settings words.entry }
{
    let Some((server, words)) = keyed_ip(words, b"server") else {
        return None;
    };
    let Some((blksize, words)) = keyed_u16(words, b"blksize") else {
        return None;
    };
    words.finished(TftpSettings { server, blksize })
}

/// What a child of this protocol is configured with, behind the protocol's word.
fn settings_behind(proto: Proto, words: Words<'_>) -> Option<Settings>
    ensures { result ≡ settings_behind proto words.entry }
{
    match proto {
        Proto::Mnp => mnp_settings(words).map(|s| Settings::Mnp(s)),
        Proto::Arp => arp_settings(words).map(|s| Settings::Arp(s)),
        Proto::Ip4 => ip_settings(words).map(|s| Settings::Ip4(s)),
        Proto::Udp4 => udp_settings(words).map(|s| Settings::Udp4(s)),
        Proto::Tcp4 => tcp_settings(words).map(|s| Settings::Tcp4(s)),
        Proto::Dhcp4 => words.finished(Settings::Dhcp4),
        Proto::Dns4 => dns_settings(words).map(|s| Settings::Dns4(s)),
        Proto::Mtftp4 => tftp_settings(words).map(|s| Settings::Mtftp4(s)),
        Proto::Http => words.finished(Settings::Http),
        Proto::Boot => words.finished(Settings::Boot),
    }
}

/// What a child of this protocol is configured with.
pub fn settings_of(proto: Proto, words: Words<'_>) -> Option<Settings>
    ensures { result ≡ settings_of proto words.entry }
{
    let Some(words) = words.behind(proto_word(proto)) else {
        return None;
    };
    settings_behind(proto, words)
}
