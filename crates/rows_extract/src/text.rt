//! The small parts of the text of a table: rows, words, numbers and octets, and how octets are printed.
use crate::fault::RowFault;
use std::alloc::Global;

/// The rows of a table, each behind a `#`, and what stands in front of them.
pub(crate) fn rows_of(alloc: Global, table: &str) -> Result<Vec<&str>, RowFault> {
    let mut rows = Vec::new(alloc);
    for row in table.split('#') {
        rows.push(row)?;
    }
    Ok(rows)
}

/// The first word, and what stands behind the blank.
pub(crate) fn word_of(text: &str) -> (&str, &str) {
    match text.split_once(' ') {
        Some(parts) => parts,
        None => (text, ""),
    }
}

pub(crate) fn parsed_number(text: &str) -> Option<u32> {
    match text.parse::<u32>() {
        Ok(number) => Some(number),
        Err(_) => None,
    }
}

/// A number and the text behind it, which may be empty.
pub(crate) fn first_number(text: &str) -> Option<(u32, &str)> {
    let (word, rest) = word_of(text);
    Some((parsed_number(word)?, rest))
}

/// Two numbers.
pub(crate) fn pair_of(text: &str) -> Option<(u32, u32)> {
    let (first, rest) = first_number(text)?;
    Some((first, parsed_number(rest)?))
}

/// The octets of a text, in which `\r`, `\n` and `\s` stand for the two octets that end a line and for a blank, and `\\` for `\`.
pub(crate) fn octets_of(alloc: Global, text: &str) -> Result<Vec<u8>, RowFault> {
    let mut octets = Vec::new(alloc);
    let mut escaped = false;
    for octet in text.as_bytes() {
        let octet = *octet;
        if octet == b'\\' && !escaped {
            escaped = true;
            continue;
        }
        let Some(meant) = meant_by(octet, escaped) else {
            return Err(RowFault::Text("octets that aren't of the form"));
        };
        octets.push(meant)?;
        escaped = false;
    }
    if escaped {
        return Err(RowFault::Text("octets without their end"));
    }
    Ok(octets)
}

fn meant_by(octet: u8, escaped: bool) -> Option<u8> {
    if !escaped {
        return Some(octet);
    }
    match octet {
        b'r' => Some(b'\r'),
        b'n' => Some(b'\n'),
        b's' => Some(b' '),
        b'\\' => Some(octet),
        _ => None,
    }
}

/// The octets that numbers between blanks tell.
pub(crate) fn numbers_of(alloc: Global, text: &str) -> Result<Vec<u8>, RowFault> {
    let mut octets = Vec::new(alloc);
    for word in text.split_whitespace() {
        let Ok(octet) = word.parse::<u8>() else {
            return Err(RowFault::Text("a number that isn't an octet's"));
        };
        octets.push(octet)?;
    }
    Ok(octets)
}

/// These octets so many times.
pub(crate) fn repeated(alloc: Global, octets: &[u8], count: u32) -> Result<Vec<u8>, RowFault> {
    let mut all = Vec::new(alloc);
    for _ in 0..count {
        all.extend_from_slice(octets)?;
    }
    Ok(all)
}

/// Puts octets so that a table may hold them in one line: each that isn't a visible one of ASCII or a blank is told by its number.
pub(crate) fn put_visible(text: &mut String, octets: &[u8]) -> Result<(), RowFault> {
    for octet in octets {
        match *octet {
            b'\r' => text.push_str("\\r")?,
            b'\n' => text.push_str("\\n")?,
            b'\\' => text.push_str("\\\\")?,
            0x20..=0x7E => text.push(char::from(*octet))?,
            other => write!(text, "\\x{other:02x}")?,
        }
    }
    Ok(())
}

fn digit_of(code: u8) -> Option<u8> {
    match code {
        b'0'..=b'9' => Some(code - b'0'),
        b'a'..=b'f' => Some(code - b'a' + 10),
        _ => None,
    }
}

/// Puts the octets that pairs of hexadecimal digits tell.
pub(crate) fn put_hex(octets: &mut Vec<u8>, text: &str) -> Result<(), RowFault> {
    for pair in text.as_bytes().chunks(2) {
        let [high, low] = pair else {
            return Err(RowFault::Text("a digit without its other"));
        };
        let (Some(high), Some(low)) = (digit_of(*high), digit_of(*low)) else {
            return Err(RowFault::Text("octets that aren't hexadecimal digits"));
        };
        octets.push((high << 4) | low)?;
    }
    Ok(())
}
