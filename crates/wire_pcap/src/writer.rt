//! Writing captures: little-endian, in microseconds. A record's time is its tick, in milliseconds since 0.
ghost use Rattle.std.specs.Prelude.{◌≡◌, ◌≤◌, ◌++◌, ◌/◌, ◌%◌, ◌*◌, length, drop};
ghost use Rattle.efi_base.specs.Writes.{Writes};
ghost use Rattle.wire_pcap.specs.Grammar.{Little, IsHeader, number_text, little_micros};
ghost use Rattle.wire_pcap.specs.Written.{header_text, stored_of, written_text, IsTold, Fits};

use byteorder::{ByteOrder, LittleEndian};
use efi_base::{NoRoom, Record, put_parts};

/// The header: version 2.4, a snapshot length of 262,144 octets, link type 1.
const HEADER: [u8; 24] = [
    0xD4, 0xC3, 0xB2, 0xA1, 2, 0, 4, 0, 0, 0, 0, 0, 0, 0, 0, 0, 0, 0, 4, 0, 1, 0, 0, 0,
];

/// Octets of a record before its frame.
const RECORD_HEAD: usize = 16;

/// Numbers of four octets end below this.
const WORD: u64 = 4_294_967_296;

/// Writes a capture's header to the front of the room, and answers its length of 24 octets.
pub fn write_header(room: &mut [u8]) -> Result<usize, NoRoom>
    ensures writes { Writes header_text room.old result room.new }
    ensures header { IsHeader little_micros header_text }
{
    put_parts(&HEADER, &[], room)
}

/// Writes a record to the front of the room, and answers how many octets it takes. Of the seconds and of the frame's
/// length the lowest 32 bits are written: a tick from 4,294,967,296,000 on, or a frame of more than 262,144 octets, isn't
/// told by a capture.
pub fn write_record(r: &Record, room: &mut [u8]) -> Result<usize, NoRoom>
    ensures writes { Writes (written_text r.now) room.old result room.new }
    ensures told { Fits r.now → IsTold r.now (stored_of r.now) }
{
    let mut head = [0; RECORD_HEAD];
    put_record_head(&mut head, r.tick.0, r.frame.len());
    put_parts(&head, r.frame.as_slice(), room)
}

/// Writes the four numbers of a record with this tick and this many octets.
fn put_record_head(head: &mut [u8], tick: u64, len: usize)
    requires { 16 ≤ length head.old }
    ensures { head.new ≡ (number_text Little 4 (tick / 1000) ++ (number_text Little 4 (tick % 1000 * 1000)
        ++ (number_text Little 4 len ++ number_text Little 4 len))) ++ drop 16 head.old }
{
    put_number(head, tick / 1000);
    put_number(&mut head[4..], tick % 1000 * 1000);
    put_number(&mut head[8..], len as u64);
    put_number(&mut head[12..], len as u64);
}

/// Writes the lowest 32 bits of a number.
fn put_number(room: &mut [u8], n: u64)
    requires { 4 ≤ length room.old }
    ensures { room.new ≡ number_text Little 4 n ++ drop 4 room.old }
{
    LittleEndian::write_u32(room, (n % WORD) as u32);
}
