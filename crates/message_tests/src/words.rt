//! Octets as rows of tables write them: digits in pairs, parted by spaces; `@236` for the zeros up to the place 236; and `'` for
//! letters as they stand.
use std::alloc::Global;
use std::test::Fail;
use text_base::{hex_octets, is_hex_text, number, put_hex};

/// Puts the zeros up to this place.
fn put_zeros(place: u64, octets: &mut Vec<u8>) -> Result<(), Fail> {
    for _zero in octets.len() as u64..place {
        octets.push(0)?;
    }
    Ok(())
}

/// Puts what a word says behind the octets. False where it says nothing.
fn put_word(alloc: Global, word: &str, octets: &mut Vec<u8>) -> Result<bool, Fail> {
    if let Some(letters) = word.strip_prefix('\'') {
        octets.extend_from_slice(letters.as_bytes())?;
        return Ok(true);
    }
    if let Some(place) = word.strip_prefix('@') {
        let Some(place) = number(place.as_bytes(), 2000) else {
            return Ok(false);
        };
        put_zeros(place, octets)?;
        return Ok(true);
    }
    if !is_hex_text(word.as_bytes()) {
        return Ok(false);
    }
    octets.extend_from_slice(hex_octets(alloc, word.as_bytes())?.as_slice())?;
    Ok(true)
}

/// The octets of a row. None where a word of it says nothing.
pub fn octets_of(alloc: Global, text: &str) -> Result<Option<Vec<u8>>, Fail> {
    let mut octets = Vec::new(alloc);
    for word in text.split(' ') {
        if !put_word(alloc, word, &mut octets)? {
            return Ok(None);
        }
    }
    Ok(Some(octets))
}

/// Puts a space and a number behind the text.
pub fn put_number(text: &mut Vec<u8>, number: u32) -> Result<(), Fail> {
    text.push(b' ')?;
    put_hex(text, &number.to_be_bytes())?;
    Ok(())
}

/// Puts a space and octets behind the text, `.` where there are none, and `-` for what is absent.
pub fn put_text(text: &mut Vec<u8>, octets: Option<&[u8]>) -> Result<(), Fail> {
    text.push(b' ')?;
    match octets {
        None => text.push(b'-')?,
        Some(octets) if octets.is_empty() => text.push(b'.')?,
        Some(octets) => text.extend_from_slice(octets)?,
    }
    Ok(())
}
