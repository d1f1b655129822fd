//! Words within a line, and their ranges.
ghost use Rattle.std.specs.Prelude.{◌≡◌, ◌≤◌, ◌<◌, ◌^◌, None, Some, MatchOption, IfSome};
ghost use Rattle.std.specs.Option.{option_copied};
ghost use Rattle.session_text.specs.Words.{behind, mac_in, number_in, split, unicast_ip};

use efi_base::{Ip4, Mac, is_unicast};
use text_base::{front, ip, mac, number, rest};

/// The first word, and what stands behind its space.
pub fn split(text: &[u8]) -> Option<(&[u8], &[u8])>
    ensures { MatchOption result (split text.now ≡ None) (λ w. split text.now ≡ Some (w.0.now, w.1.now)) }
{
    let Some(behind) = rest(text, b' ') else {
        return None;
    };
    Some((front(text, b' '), behind))
}

/// What stands behind this word.
pub fn behind<'a>(text: &'a [u8], word: &[u8]) -> Option<&'a [u8]>
    ensures { option_copied result ≡ behind word.now text.now }
{
    let Some((first, rest)) = split(text) else {
        return None;
    };
    if first != word {
        return None;
    }
    Some(rest)
}

/// The number within this range.
pub fn number_in(text: &[u8], least: u64, most: u64) -> Option<u64>
    ensures value { result ≡ number_in least most text.now }
    ensures within { IfSome result (λ n. n ≤ most) }
{
    let Some(n) = number(text, most) else {
        return None;
    };
    if n < least {
        return None;
    }
    Some(n)
}

/// The number of 32 bits within this range.
pub fn u32_in(text: &[u8], least: u64, most: u64) -> Option<u32>
    requires { most < 2 ^ 32 }
    ensures { result ≡ number_in least most text.now }
{
    let Some(n) = number_in(text, least, most) else {
        return None;
    };
    Some(n as u32)
}

/// The number of 16 bits within this range.
pub fn u16_in(text: &[u8], least: u64, most: u64) -> Option<u16>
    requires { most < 2 ^ 16 }
    ensures { result ≡ number_in least most text.now }
{
    let Some(n) = number_in(text, least, most) else {
        return None;
    };
    Some(n as u16)
}

/// The number of 8 bits within this range.
pub fn u8_in(text: &[u8], least: u64, most: u64) -> Option<u8>
    requires { most < 2 ^ 8 }
    ensures { result ≡ number_in least most text.now }
{
    let Some(n) = number_in(text, least, most) else {
        return None;
    };
    Some(n as u8)
}

/// The address of one station.
pub fn unicast_ip(text: &[u8]) -> Option<Ip4>
    ensures { result ≡ unicast_ip text.now }
{
    let Some(ip) = ip(text) else {
        return None;
    };
    if !is_unicast(ip) {
        return None;
    }
    Some(ip)
}

/// The Ethernet address of one station: its first octet is even (IEEE 802, section 8.2).
pub fn unicast_mac(text: &[u8]) -> Option<Mac>
    ensures { result ≡ mac_in text.now }
{
    let Some(mac) = mac(text) else {
        return None;
    };
    if mac.0[0] % 2 == 1 {
        return None;
    }
    Some(mac)
}
