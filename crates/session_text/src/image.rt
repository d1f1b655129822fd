//! The pieces of an image, which are never joined: octets as they are, and a rule that fills.
ghost use Rattle.std.specs.Prelude.{◌≡◌, IfOk};
ghost use Rattle.session_text.specs.Image.{fill_of, hex_of, piece_length, piece_of};

use crate::words::{behind, number_in, split, u8_in};
use efi_base::{Bytes, NoMemory};
use std::alloc::Global;
use text_base::{hex_octets, is_hex_text};

/// A piece of an image.
#[derive(Debug, Drop)]
pub enum Piece {
    Octets(Bytes),
    /// So many octets by a rule that begins with this one.
    Fill(u64, u8),
}

/// The octets of HEX: digits, or `-` for none.
pub fn hex_of(alloc: Global, text: &[u8]) -> Result<Option<Bytes>, NoMemory>
    ensures { IfOk result (λ octets. octets ≡ hex_of text.now) }
{
    if text == b"-".as_slice() {
        return Ok(Some(Bytes::new(alloc)));
    }
    if text.is_empty() {
        return Ok(None);
    }
    if !is_hex_text(text) {
        return Ok(None);
    }
    let octets = hex_octets(alloc, text)?;
    Ok(Some(Bytes::from_vec(octets)))
}

fn fill_of(text: &[u8]) -> Option<Piece>
    ensures { result ≡ fill_of text.now }
{
    let Some((count, first)) = split(text) else {
        return None;
    };
    let Some(count) = number_in(count, 0, u64::MAX) else {
        return None;
    };
    u8_in(first, 0, 255).map(|first| Piece::Fill(count, first))
}

/// The piece that these words tell.
pub fn piece_of(alloc: Global, text: &[u8]) -> Result<Option<Piece>, NoMemory>
    ensures { IfOk result (λ piece. piece ≡ piece_of text.now) }
{
    if let Some(fill) = behind(text, b"fill") {
        return Ok(fill_of(fill));
    }
    let Some(digits) = behind(text, b"hex") else {
        return Ok(None);
    };
    match hex_of(alloc, digits)? {
        Some(octets) => Ok(Some(Piece::Octets(octets))),
        None => Ok(None),
    }
}

/// How many octets a piece is.
pub fn piece_length(piece: &Piece) -> u64
    ensures { result ≡ piece_length piece.now }
{
    match piece {
        Piece::Octets(octets) => octets.len() as u64,
        Piece::Fill(count, _) => *count,
    }
}
