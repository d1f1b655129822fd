//! Headers: numbers at their places, the highest octet first, and a header with what follows it. What the numbers mean
//! is each format's affair.
ghost use Rattle.std.specs.Prelude.{◌≡◌, ◌+◌, ◌++◌, ◌≤◌, length, drop};
ghost use Rattle.byteorder.specs.Endian.{big_number};
ghost use Rattle.efi_base.specs.Writes.{Writes};

use crate::fault::NoRoom;
use byteorder::{BigEndian, ByteOrder};

/// The number of two octets at this place, in host order.
pub fn u16_at(bytes: &[u8], place: usize) -> u16
    requires { place + 2 ≤ length bytes.now }
    ensures { result ≡ big_number 2 (drop place bytes.now) }
{
    BigEndian::read_u16(&bytes[place..])
}

/// The number of four octets at this place, in host order.
pub fn u32_at(bytes: &[u8], place: usize) -> u32
    requires { place + 4 ≤ length bytes.now }
    ensures { result ≡ big_number 4 (drop place bytes.now) }
{
    BigEndian::read_u32(&bytes[place..])
}

/// Writes a header and what follows it to the front of the room, and answers how many octets they are.
pub fn put_parts(header: &[u8], rest: &[u8], room: &mut [u8]) -> Result<usize, NoRoom>
    ensures { Writes (header.now ++ rest.now) room.old result room.new }
{
    let start = header.len();
    if room.len() < start || room.len() - start < rest.len() {
        return Err(NoRoom);
    }
    let end = start + rest.len();
    room[..start].copy_from_slice(header);
    room[start..end].copy_from_slice(rest);
    Ok(end)
}
