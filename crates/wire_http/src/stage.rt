//! What is kept of a body between two octets: numbers alone, so that a reader takes no memory.
ghost use Rattle.std.specs.Prelude.{◌≡◌, ◌≤◌, false};
ghost use Rattle.wire_http.specs.Stages.{left_stage, octets_stage, line_done, kept_line, kept_trailer, line_step, trailer_step, step, start, wants_octets};

use crate::chunk_line::{LinePlace, ends_line, fits_line, next_place, next_size};
use crate::head::Framing;
use crate::trailer::{FieldPlace, ends_trailer, fits_trailer, next_field_place, next_fields};
use efi_base::Part;

/// What the next octet is.
#[derive(Clone, Copy, PartialEq, Eq, Debug)]
pub enum Stage {
    /// None: the body is whole.
    Done,
    /// None: there is no body, whatever follows.
    Bad(Part),
    /// One of so many octets of a body with a length.
    Left(u64),
    /// One of a body that goes on until the stream's end.
    UntilEnd,
    /// One of a chunk line, with the size so far and the line's length so far.
    Line(LinePlace, u32, u16),
    /// One of so many octets of a chunk.
    Octets(u64),
    /// The CR behind a chunk.
    Return,
    /// The LF behind a chunk.
    Feed,
    /// One of the trailer, with the fields that have begun and its length so far.
    Trailer(FieldPlace, u8, u16),
}

/// The stage in front of a body.
pub fn start(framing: Framing) -> Stage
    ensures { result ≡ start framing }
{
    match framing {
        Framing::Empty => Stage::Done,
        Framing::Length(count) => left_stage(count),
        Framing::Chunked => Stage::Line(LinePlace::Start, 0, 0),
        Framing::Close => Stage::UntilEnd,
        Framing::BadLength => Stage::Bad(Part::Length),
    }
}

pub fn left_stage(count: u64) -> Stage
    ensures { result ≡ left_stage count }
{
    if count == 0 {
        Stage::Done
    } else {
        Stage::Left(count)
    }
}

pub fn octets_stage(count: u64) -> Stage
    ensures { result ≡ octets_stage count }
{
    if count == 0 {
        Stage::Return
    } else {
        Stage::Octets(count)
    }
}

fn line_done(size: u32) -> Stage
    ensures { result ≡ line_done size }
{
    if size == 0 {
        Stage::Trailer(FieldPlace::Start, 0, 0)
    } else {
        Stage::Octets(u64::from(size))
    }
}

fn kept_line(place: Option<LinePlace>, size: u64, len: usize) -> Stage
    requires { len ≤ 65536 }
    ensures { result ≡ kept_line place size len }
{
    match place {
        Some(place) => if fits_line(place, size, len) {
            Stage::Line(place, size as u32, len as u16)
        } else {
            Stage::Bad(Part::Chunk)
        },
        None => Stage::Bad(Part::Chunk),
    }
}

fn line_step(place: LinePlace, size: u32, len: u16, byte: u8) -> Stage
    ensures { result ≡ line_step place size len byte }
{
    if ends_line(place, byte) {
        return line_done(size);
    }
    kept_line(
        next_place(place, byte),
        next_size(place, size, byte),
        usize::from(len) + 1,
    )
}

fn kept_trailer(place: Option<FieldPlace>, fields: usize, len: usize) -> Stage
    requires { len ≤ 65536 }
    ensures { result ≡ kept_trailer place fields len }
{
    match place {
        Some(place) => if fits_trailer(place, fields, len) {
            Stage::Trailer(place, fields as u8, len as u16)
        } else {
            Stage::Bad(Part::Trailer)
        },
        None => Stage::Bad(Part::Trailer),
    }
}

fn trailer_step(place: FieldPlace, fields: u8, len: u16, byte: u8) -> Stage
    ensures { result ≡ trailer_step place fields len byte }
{
    if ends_trailer(place, byte) {
        return Stage::Done;
    }
    kept_trailer(
        next_field_place(place, byte),
        next_fields(place, fields, byte),
        usize::from(len) + 1,
    )
}

/// The stage behind one more octet, which is none of the body.
pub fn step(stage: Stage, byte: u8) -> Stage
    ensures { wants_octets stage ≡ false → result ≡ step stage byte }
{
    match stage {
        Stage::Line(place, size, len) => line_step(place, size, len, byte),
        Stage::Return if byte == b'\r' => Stage::Feed,
        Stage::Return => Stage::Bad(Part::Chunk),
        Stage::Feed if byte == b'\n' => Stage::Line(LinePlace::Start, 0, 0),
        Stage::Feed => Stage::Bad(Part::Chunk),
        Stage::Trailer(place, fields, len) => trailer_step(place, fields, len, byte),
        _ => stage,
    }
}
