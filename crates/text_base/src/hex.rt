//! Octets as two lower-case hexadecimal digits each.
ghost use Rattle.std.specs.Prelude.{◌≡◌, ◌<◌, ◌&&◌, ◌++◌, IfOk, IsTrue, true};
ghost use Rattle.text_base.specs.Hex.{hex_digit, hex_octets, hex_text, hex_value, is_hex, is_hex_text, octet_text};

use std::alloc::{AllocError, Global};

pub fn is_hex(octet: u8) -> bool
    ensures { result ≡ is_hex octet }
{
    if octet <= b'9' {
        octet >= b'0'
    } else {
        octet >= b'a' && octet <= b'f'
    }
}

pub fn hex_value(octet: u8) -> u8
    requires { IsTrue (is_hex octet) }
    ensures value { result ≡ hex_value octet }
    ensures small { result < 16 }
{
    if octet <= b'9' {
        octet - b'0'
    } else {
        octet - (b'a' - 10)
    }
}

fn is_pair(first: u8, second: u8) -> bool
    ensures { result ≡ (is_hex first && is_hex second) }
{
    is_hex(first) && is_hex(second)
}

/// Whether the text is an even number of digits.
pub fn is_hex_text(text: &[u8]) -> bool
    ensures { result ≡ is_hex_text text.now }
{
    let mut place = 0;
    while place + 1 < text.len() {
        if !is_pair(text[place], text[place + 1]) {
            return false;
        }
        place += 2;
    }
    place == text.len()
}

/// Puts the octets that digits write behind those that are there.
pub fn hex_octets(alloc: Global, text: &[u8]) -> Result<Vec<u8>, AllocError>
    requires { is_hex_text text.now ≡ true }
    ensures { IfOk result (λ octets. octets.items ≡ hex_octets text.now) }
{
    let mut octets = Vec::with_capacity(alloc, text.len() / 2)?;
    let mut place = 0;
    while place + 1 < text.len() {
        octets.push(16 * hex_value(text[place]) + hex_value(text[place + 1]))?;
        place += 2;
    }
    Ok(octets)
}

fn hex_digit(number: u8) -> u8
    requires { number < 16 }
    ensures { result ≡ hex_digit number }
{
    if number < 10 {
        number + b'0'
    } else {
        number + (b'a' - 10)
    }
}

/// Puts an octet's two digits behind the text.
pub fn put_octet(text: &mut Vec<u8>, octet: u8) -> Result<(), AllocError>
    ensures { IfOk result (λ _. text.new.items ≡ text.old.items ++ octet_text octet) }
{
    text.push(hex_digit(octet / 16))?;
    text.push(hex_digit(octet % 16))?;
    Ok(())
}

/// Puts the digits of octets behind the text.
pub fn put_hex(text: &mut Vec<u8>, octets: &[u8]) -> Result<(), AllocError>
    ensures { IfOk result (λ _. text.new.items ≡ text.old.items ++ hex_text octets.now) }
{
    for octet in octets {
        put_octet(text, *octet)?;
    }
    Ok(())
}
