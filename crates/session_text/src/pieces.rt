//! An image by its pieces, which are never joined: its length, an octet of it, and runs of it.
ghost use Rattle.std.specs.Prelude.{◌≡◌, ◌≤◌, ◌<◌, ◌+◌, ◌-◌, ◌++◌, ◌^◌, length, min, take, drop, slice_index, EachIndex, MatchOption};
ghost use Rattle.session_text.specs.Image.{fill_octet, image_octets, piece_length, piece_octets};

use crate::image::{Piece, piece_length};

/// The octet at this place of a piece that is filled from this one on.
fn fill_octet(first: u8, place: u64) -> u8
    requires { place < 2 ^ 32 }
    ensures { result ≡ fill_octet first place }
{
    ((u64::from(first) + 7 * place + place / 251) % 256) as u8
}

fn octet_at(octets: &[u8], place: u64) -> u8
    requires { place < length octets.now }
    ensures { result ≡ slice_index octets.now place }
{
    octets[place as usize]
}

fn piece_octet(piece: &Piece, place: u64) -> u8
    requires within { place < piece_length piece.now }
    requires small { place < 2 ^ 32 }
    ensures { result ≡ slice_index (piece_octets piece.now) place }
{
    match piece {
        Piece::Octets(octets) => octet_at(octets.as_slice(), place),
        Piece::Fill(_, first) => fill_octet(*first, place),
    }
}

/// The octets of an image that has fewer than 2^32, as each document's has.
pub fn image_length(pieces: &[Piece]) -> u64
    requires { length (image_octets pieces.now) < 2 ^ 32 }
    ensures { result ≡ length (image_octets pieces.now) }
{
    let mut length = 0;
    for piece in pieces {
        length += piece_length(piece);
    }
    length
}

/// The octet at this place of an image, where it has so many.
pub fn image_octet(pieces: &[Piece], place: u64) -> Option<u8>
    requires { length (image_octets pieces.now) < 2 ^ 32 }
    ensures { MatchOption result (length (image_octets pieces.now) ≤ place)
        (λ octet. (place < length (image_octets pieces.now)) × (octet ≡ slice_index (image_octets pieces.now) place)) }
{
    let mut left = place;
    for piece in pieces {
        let length = piece_length(piece);
        if left < length {
            return Some(piece_octet(piece, left));
        }
        left -= length;
    }
    None
}

/// Fills the room with the octets from this place on.
fn fill_run(first: u8, place: u64, room: &mut [u8])
    requires { place + length room.old < 2 ^ 32 }
    ensures { EachIndex room.new (λ k. slice_index room.new k ≡ fill_octet first (place + k)) }
{
    let mut at = place;
    for cell in room.iter_mut() {
        *cell = fill_octet(first, at);
        at += 1;
    }
}

fn copy_run(octets: &[u8], place: u64, room: &mut [u8])
    requires { place + length room.old ≤ length octets.now }
    ensures { room.new ≡ take (length room.old) (drop place octets.now) }
{
    let start = place as usize;
    let end = start + room.len();
    room.copy_from_slice(&octets[start..end]);
}

/// Copies a piece's octets from this place on, which fill the room.
fn piece_run(piece: &Piece, place: u64, room: &mut [u8])
    requires within { place + length room.old ≤ piece_length piece.now }
    requires small { piece_length piece.now < 2 ^ 32 }
    ensures { room.new ≡ take (length room.old) (drop place (piece_octets piece.now)) }
{
    match piece {
        Piece::Octets(octets) => copy_run(octets.as_slice(), place, room),
        Piece::Fill(_, first) => fill_run(*first, place, room),
    }
}

/// Copies a piece's octets from this place on to the front of the room, as many as fit and are there. How many.
fn copy_piece(piece: &Piece, place: u64, room: &mut [u8]) -> usize
    requires within { place < piece_length piece.now }
    requires small { piece_length piece.now < 2 ^ 32 }
    ensures count { result ≡ min (length room.old) (piece_length piece.now - place) }
    ensures octets { room.new ≡ take result (drop place (piece_octets piece.now)) ++ drop result room.old }
{
    let left = (piece_length(piece) - place) as usize;
    let count = room.len().min(left);
    piece_run(piece, place, &mut room[..count]);
    count
}

/// Copies a piece's octets from this place on into the room, behind those that fill it. How many.
fn copy_behind(piece: &Piece, place: u64, room: &mut [u8], filled: usize) -> usize
    requires within { place < piece_length piece.now }
    requires small { piece_length piece.now < 2 ^ 32 }
    requires filled { filled ≤ length room.old }
    ensures count { result ≡ min (length room.old - filled) (piece_length piece.now - place) }
    ensures octets { room.new ≡ take filled room.old ++ (take result (drop place (piece_octets piece.now)) ++ drop (filled + result) room.old) }
{
    copy_piece(piece, place, &mut room[filled..])
}

/// Copies the octets of an image from this place on to the front of the room, as many as fit and are there. It answers
/// how many.
pub fn copy_image(pieces: &[Piece], place: u64, room: &mut [u8]) -> usize
    requires { length (image_octets pieces.now) < 2 ^ 32 }
    ensures count { result ≡ min (length room.old) (length (drop place (image_octets pieces.now))) }
    ensures octets { room.new ≡ take result (drop place (image_octets pieces.now)) ++ drop result room.old }
{
    let mut left = place;
    let mut filled = 0;
    for piece in pieces {
        let length = piece_length(piece);
        if left >= length {
            left -= length;
            continue;
        }
        filled += copy_behind(piece, left, room, filled);
        if filled == room.len() {
            return filled;
        }
        left = 0;
    }
    filled
}
