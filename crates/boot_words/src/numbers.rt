//! Numbers, and Ethernet addresses, as values of options.
ghost use Rattle.std.specs.Prelude.{◌≡◌, ◌<◌, ◌≤◌, ◌^◌, ◌+◌, ◌&&◌, true, length, map, IsTrue, MatchOption};
ghost use Rattle.std.specs.List.{list_all};
ghost use Rattle.std.specs.Char.{is_ascii_digit};
ghost use Rattle.std.specs.Str.Parse.{digits_value};
ghost use Rattle.boot_words.specs.Numbers.{has_no_leading_zero, is_colon_at, is_hex, is_mac_text, is_number, is_octet_at, hex_value, mac_of, number_of, octet_at, octet_places};

use efi_base::Mac;

/// Octets of an address's text.
const MAC_TEXT: usize = 17;

fn has_no_leading_zero(text: &[u8]) -> bool
    ensures { result ≡ has_no_leading_zero text.now }
{
    match text {
        [] => false,
        [_] => true,
        [first, ..] => *first != b'0',
    }
}

fn are_digits(text: &[u8]) -> bool
    ensures { result ≡ list_all is_ascii_digit text.now }
{
    text.iter().all(|octet| octet.is_ascii_digit())
}

fn is_number(text: &[u8]) -> bool
    ensures { result ≡ is_number text.now }
{
    has_no_leading_zero(text) && are_digits(text)
}

fn parsed(text: &str) -> Option<u32>
    requires { is_number text.now ≡ true }
    ensures { MatchOption result (2 ^ 32 ≤ digits_value 10 text.now) (λ n. n ≡ digits_value 10 text.now) }
{
    match text.parse::<u32>() {
        Ok(number) => Some(number),
        Err(_) => None,
    }
}

/// The number that decimal digits write, where it is at most this one.
pub fn number(text: &str, most: u32) -> Option<u32>
    ensures { result ≡ number_of most text.now }
{
    if !is_number(text.as_bytes()) {
        return None;
    }
    let Some(number) = parsed(text) else {
        return None;
    };
    if number > most {
        return None;
    }
    Some(number)
}

fn is_hex(octet: u8) -> bool
    ensures { result ≡ is_hex octet }
{
    if octet <= b'9' {
        octet >= b'0'
    } else {
        octet >= b'a' && octet <= b'f'
    }
}

fn hex_value(octet: u8) -> u8
    requires { IsTrue (is_hex octet) }
    ensures value { result ≡ hex_value octet }
    ensures small { result < 16 }
{
    if octet <= b'9' {
        octet - b'0'
    } else {
        octet - (b'a' - 10)
    }
}

fn is_octet_at(text: &[u8], place: usize) -> bool
    requires { place + 1 < length text.now }
    ensures { result ≡ is_octet_at text.now place }
{
    is_hex(text[place]) && is_hex(text[place + 1])
}

fn octet_at(text: &[u8], place: usize) -> u8
    requires within { place + 1 < length text.now }
    requires digits { IsTrue (is_octet_at text.now place) }
    ensures { result ≡ octet_at text.now place }
{
    16 * hex_value(text[place]) + hex_value(text[place + 1])
}

fn has_octets(text: &[u8]) -> bool
    requires { length text.now ≡ MAC_TEXT }
    ensures { result ≡ (is_octet_at text.now 0 && (is_octet_at text.now 3 && (is_octet_at text.now 6 && (is_octet_at text.now 9
        && (is_octet_at text.now 12 && (is_octet_at text.now 15 && true)))))) }
{
    is_octet_at(text, 0)
        && is_octet_at(text, 3)
        && is_octet_at(text, 6)
        && is_octet_at(text, 9)
        && is_octet_at(text, 12)
        && is_octet_at(text, 15)
}

fn has_colons(text: &[u8]) -> bool
    requires { length text.now ≡ MAC_TEXT }
    ensures { result ≡ (is_colon_at text.now 2 && (is_colon_at text.now 5 && (is_colon_at text.now 8 && (is_colon_at text.now 11
        && (is_colon_at text.now 14 && true))))) }
{
    text[2] == b':' && text[5] == b':' && text[8] == b':' && text[11] == b':' && text[14] == b':'
}

fn is_mac_text(text: &[u8]) -> bool
    ensures { result ≡ is_mac_text text.now }
{
    text.len() == MAC_TEXT && has_octets(text) && has_colons(text)
}

fn octets(text: &[u8]) -> [u8; 6]
    requires { is_mac_text text.now ≡ true }
    ensures { result ≡ map (octet_at text.now) octet_places }
{
    [
        octet_at(text, 0),
        octet_at(text, 3),
        octet_at(text, 6),
        octet_at(text, 9),
        octet_at(text, 12),
        octet_at(text, 15),
    ]
}

/// The unicast address that six octets of two digits write.
pub fn mac(text: &[u8]) -> Option<Mac>
    ensures { result ≡ mac_of text.now }
{
    if !is_mac_text(text) {
        return None;
    }
    let octets = octets(text);
    if octets[0] % 2 != 0 {
        return None;
    }
    Some(Mac(octets))
}
