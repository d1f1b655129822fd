//! Captures: their header and their records, in both byte orders (draft-ietf-opsawg-pcap).
use std::alloc::{AllocError, Global};

/// How a capture's numbers are written: lowest octet first and in microseconds, or highest octet first and in nanoseconds.
#[derive(Clone, Copy)]
pub enum Form {
    Little,
    Big,
}

/// The time between records, in milliseconds.
const STEP: u32 = 2;

/// A capture as far as it is written, and the time of the next record.
#[derive(Drop)]
pub struct Writer {
    pub alloc: Global,
    pub octets: Vec<u8>,
    pub form: Form,
    pub time: u32,
}

/// A capture without records.
pub fn begun(alloc: Global, form: Form) -> Result<Writer, AllocError> {
    let mut octets = Vec::new(alloc);
    octets.extend_from_slice(&header_of(form))?;
    Ok(Writer {
        alloc,
        octets,
        form,
        time: 0,
    })
}

/// The capture's header, of version 2.4 and Ethernet.
fn header_of(form: Form) -> [u8; 24] {
    match form {
        Form::Little => [
            0xD4, 0xC3, 0xB2, 0xA1, 2, 0, 4, 0, 0, 0, 0, 0, 0, 0, 0, 0, 0, 0, 4, 0, 1, 0, 0, 0,
        ],
        Form::Big => [
            0xA1, 0xB2, 0x3C, 0x4D, 0, 2, 0, 4, 0, 0, 0, 0, 0, 0, 0, 0, 0, 4, 0, 0, 0, 0, 0, 1,
        ],
    }
}

fn number_octets(form: Form, number: u32) -> [u8; 4] {
    match form {
        Form::Little => number.to_le_bytes(),
        Form::Big => number.to_be_bytes(),
    }
}

/// The parts of a second, in the capture's unit.
fn fraction_of(form: Form, time: u32) -> u32 {
    match form {
        Form::Little => time % 1_000 * 1_000,
        Form::Big => time % 1_000 * 1_000_000,
    }
}

/// Puts the head of a record, which tells this length.
pub fn put_head(writer: &mut Writer, len: u32) -> Result<(), AllocError> {
    let (form, time) = (writer.form, writer.time);
    for number in [time / 1_000, fraction_of(form, time), len, len] {
        writer
            .octets
            .extend_from_slice(&number_octets(form, number))?;
    }
    writer.time = time.wrapping_add(STEP);
    Ok(())
}

/// Puts a record with a frame.
pub fn put_record(writer: &mut Writer, frame: &[u8]) -> Result<(), AllocError> {
    put_head(writer, (frame.len() % 65_536) as u32)?;
    writer.octets.extend_from_slice(frame)
}
