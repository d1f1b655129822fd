//! Addresses as texts: IPv4 as four numbers joined by dots, Ethernet as six octets of two digits joined by colons.
ghost use Rattle.std.specs.Prelude.{◌≡◌, ◌<◌, ◌+◌, ◌&&◌, ◌≤◌, ◌++◌, Some, IfOk, IsTrue, MatchOption, length, map, true};
ghost use Rattle.text_base.specs.Addresses.{dotted, ip_of, is_colon_at, is_mac_text, is_octet_at, later_octets, mac_of, mac_text, octet_at, octet_in_front, octet_places};

use crate::hex::{hex_value, is_hex, put_octet};
use crate::numbers::number;
use crate::words::{front, rest};
use efi_base::{Ip4, Mac};
use std::alloc::AllocError;
use std::fmt;

/// Octets of an Ethernet address's text.
const MAC_TEXT: usize = 17;

/// A number of 32 bits that is written as its four octets, the highest first.
#[derive(Clone, Copy, Debug)]
pub struct Dotted(pub u32);

impl fmt::Display for Dotted {
    ghost output = { λ d. Some (dotted d.0) };

    fn fmt<W: fmt::Write>(&self, f: &mut fmt::Formatter<W>) -> fmt::Result {
        let n = self.0;
        let (first, second) = (n / 16_777_216, n / 65_536 % 256);
        let (third, fourth) = (n / 256 % 256, n % 256);
        write!(f, "{first}.{second}.{third}.{fourth}")
    }
}

/// The number in front of the first dot, and what stands behind the dot.
fn octet_in_front(text: &[u8]) -> Option<(u8, &[u8])>
    ensures { MatchOption result (octet_in_front text.now ≡ None) (λ part. octet_in_front text.now ≡ Some (part.0, part.1.now)) }
{
    let Some(behind) = rest(text, b'.') else {
        return None;
    };
    let Some(octet) = number(front(text, b'.'), 255) else {
        return None;
    };
    Some((octet as u8, behind))
}

/// The address that four numbers write.
pub fn ip(text: &[u8]) -> Option<Ip4>
    ensures { result ≡ ip_of text.now }
{
    let Some((first, text)) = octet_in_front(text) else {
        return None;
    };
    let Some((second, text)) = octet_in_front(text) else {
        return None;
    };
    let Some((third, text)) = octet_in_front(text) else {
        return None;
    };
    let Some(fourth) = number(text, 255) else {
        return None;
    };
    let high = u32::from(first) * 256 + u32::from(second);
    Some(Ip4((high * 256 + u32::from(third)) * 256 + fourth as u32))
}

fn is_octet_at(text: &[u8], place: usize) -> bool
    requires { place + 1 < length text.now }
    ensures { result ≡ is_octet_at text.now place }
{
    is_hex(text[place]) && is_hex(text[place + 1])
}

fn octet_at(text: &[u8], place: usize) -> u8
    requires within { place + 1 < length text.now }
    requires digits { IsTrue (is_octet_at text.now place) }
    ensures { result ≡ octet_at text.now place }
{
    16 * hex_value(text[place]) + hex_value(text[place + 1])
}

fn has_octets(text: &[u8]) -> bool
    requires { length text.now ≡ MAC_TEXT }
    ensures { result ≡ (is_octet_at text.now 0 && (is_octet_at text.now 3 && (is_octet_at text.now 6 && (is_octet_at text.now 9
        && (is_octet_at text.now 12 && (is_octet_at text.now 15 && true)))))) }
{
    is_octet_at(text, 0)
        && is_octet_at(text, 3)
        && is_octet_at(text, 6)
        && is_octet_at(text, 9)
        && is_octet_at(text, 12)
        && is_octet_at(text, 15)
}

fn has_colons(text: &[u8]) -> bool
    requires { length text.now ≡ MAC_TEXT }
    ensures { result ≡ (is_colon_at text.now 2 && (is_colon_at text.now 5 && (is_colon_at text.now 8 && (is_colon_at text.now 11
        && (is_colon_at text.now 14 && true))))) }
{
    text[2] == b':' && text[5] == b':' && text[8] == b':' && text[11] == b':' && text[14] == b':'
}

fn is_mac_text(text: &[u8]) -> bool
    ensures { result ≡ is_mac_text text.now }
{
    text.len() == MAC_TEXT && has_octets(text) && has_colons(text)
}

fn octets(text: &[u8]) -> [u8; 6]
    requires { is_mac_text text.now ≡ true }
    ensures { result ≡ map (octet_at text.now) octet_places }
{
    [
        octet_at(text, 0),
        octet_at(text, 3),
        octet_at(text, 6),
        octet_at(text, 9),
        octet_at(text, 12),
        octet_at(text, 15),
    ]
}

/// The address that six octets of two digits write.
pub fn mac(text: &[u8]) -> Option<Mac>
    ensures { result ≡ mac_of text.now }
{
    if !is_mac_text(text) {
        return None;
    }
    Some(Mac(octets(text)))
}

/// Puts the address's text behind the text.
pub fn put_mac(text: &mut Vec<u8>, mac: Mac) -> Result<(), AllocError>
    ensures { IfOk result (λ _. text.new.items ≡ text.old.items ++ mac_text mac) }
{
    put_octet(text, mac.0[0])?;
    put_later(text, &mac.0[1..])
}

/// Puts octets, each with a colon in front.
fn put_later(text: &mut Vec<u8>, octets: &[u8]) -> Result<(), AllocError>
    ensures { IfOk result (λ _. text.new.items ≡ text.old.items ++ later_octets octets.now) }
{
    for octet in octets {
        text.push(b':')?;
        put_octet(text, *octet)?;
    }
    Ok(())
}
