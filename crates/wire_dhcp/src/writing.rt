//! Messages of DHCP, written (RFC 2131, section 2). Which options a message has isn't here.
ghost use Rattle.std.specs.Prelude.{◌≡◌, ◌≤◌, ◌+◌, ◌-◌, ◌++◌, ℕ, List, true, drop, nat_le, length, replicate, take, IsTrue, IfOk};
ghost use Rattle.std.specs.List.{list_all};
ghost use Rattle.efi_base.specs.Writes.{Writes};
ghost use Rattle.wire_dhcp.specs.Filling.{Stands};
ghost use Rattle.wire_dhcp.specs.Spelling.{can_write, dhcp_text, front_text, is_writable, names_text, option_text, options_text};
ghost use Rattle.wire_dhcp.specs.Walk.{item_seen, items_seen};

use crate::message::DhcpFixed;
use crate::options::{DhcpOption, END, put_within};
use byteorder::{BigEndian, ByteOrder};
use efi_base::NoRoom;

/// The octets in front of `sname`, those of `sname`, those of `file`, and those in front of the options.
const FRONT: usize = 44;

const SNAME: usize = 64;

const FILE: usize = 128;

const HEAD: usize = 240;

/// What stands in front of the options.
const COOKIE: [u8; 4] = [99, 130, 83, 99];

/// Writes the fields, the options in order, and the 255 behind them, and answers how many octets they are. One option is
/// the message's type, none is an overload, and `file` has at most 128 octets and no zero.
pub fn write_dhcp(
    f: &DhcpFixed,
    options: &[DhcpOption<'_>],
    room: &mut [u8],
) -> Result<usize, NoRoom>
    requires { IsTrue (can_write f.now (items_seen options.now)) }
    ensures { Writes (dhcp_text f.now (items_seen options.now)) room.old result room.new }
{
    let front = front_of(f);
    if room.len() <= HEAD {
        return Err(NoRoom);
    }
    if !has_room(options, room.len() - HEAD - 1) {
        return Err(NoRoom);
    }
    let head = put_head(&front, f.file.as_slice(), room);
    let end = put_options(options, head, room);
    Ok(put_next(&[END], end, room))
}

/// Whether the options have at most so many octets.
fn has_room(options: &[DhcpOption<'_>], room: usize) -> bool
    ensures { result ≡ nat_le (length (options_text (items_seen options.now))) room }
{
    let mut left = room;
    for option in options {
        let size = 2 + option.value.len();
        if left < size {
            return false;
        }
        left -= size;
    }
    true
}

/// Writes what stands in front of the options, and answers the place behind it.
fn put_head(front: &[u8], file: &[u8], room: &mut [u8]) -> usize
    requires room { 240 ≤ length room.old }
    requires front { length front.now ≡ 44 }
    requires file { length file.now ≤ 128 }
    ensures end { result ≡ 240 }
    ensures text { Stands (front.now ++ names_text file.now) room.old result room.new }
{
    let sname = put_next(front, 0, room);
    let name = put_next(&[0; SNAME], sname, room);
    let cookie = put_next(&filled_up(file), name, room);
    put_next(&COOKIE, cookie, room)
}

/// The octets in front of `sname`.
fn front_of(f: &DhcpFixed) -> [u8; FRONT]
    ensures text { result ≡ front_text f.now }
    ensures size { length (front_text f.now) ≡ 44 }
{
    let mut octets = [0; FRONT];
    octets[0] = f.op;
    octets[1] = 1;
    octets[2] = 6;
    BigEndian::write_u32(&mut octets[4..], f.xid);
    BigEndian::write_u16(&mut octets[10..], f.flags);
    BigEndian::write_u32(&mut octets[12..], f.ciaddr.0);
    BigEndian::write_u32(&mut octets[16..], f.yiaddr.0);
    BigEndian::write_u32(&mut octets[20..], f.siaddr.0);
    octets[28..34].copy_from_slice(&f.mac.0);
    octets
}

/// A file's name, filled up with zeros.
fn filled_up(file: &[u8]) -> [u8; FILE]
    requires { length file.now ≤ 128 }
    ensures { result ≡ file.now ++ replicate (128 - length file.now) 0 }
{
    let mut octets = [0; FILE];
    octets[..file.len()].copy_from_slice(file);
    octets
}

/// Writes the options from this place on, and answers the place behind them.
fn put_options(options: &[DhcpOption<'_>], place: usize, room: &mut [u8]) -> usize
    requires room { place + length (options_text (items_seen options.now)) ≤ length room.old }
    requires good { list_all is_writable (items_seen options.now) ≡ true }
    ensures end { result ≡ place + length (options_text (items_seen options.now)) }
    ensures text { (text before : List ℕ) → Stands text before place room.old
        → Stands (text ++ options_text (items_seen options.now)) before result room.new }
{
    let mut end = place;
    for option in options {
        end = put_option(*option, end, room);
    }
    end
}

/// Writes an option from this place on, and answers the place behind it.
fn put_option(option: DhcpOption<'_>, place: usize, room: &mut [u8]) -> usize
    requires room { place + length (option_text (item_seen option)) ≤ length room.old }
    requires size { length option.value.now ≤ 255 }
    ensures end { result ≡ place + length (option_text (item_seen option.entry)) }
    ensures text { (text before : List ℕ) → Stands text before place room.old
        → Stands (text ++ option_text (item_seen option.entry)) before result room.new }
{
    let front = [option.code, option.value.len() as u8];
    let value = put_next(&front, place, room);
    put_next(option.value, value, room)
}

/// Writes octets from this place on, and answers the place behind them.
pub(crate) fn put_next(octets: &[u8], place: usize, room: &mut [u8]) -> usize
    requires { place + length octets.now ≤ length room.old }
    ensures end { result ≡ place + length octets.now }
    ensures text { (text before : List ℕ) → Stands text before place room.old → Stands (text ++ octets.now) before result room.new }
{
    put_within(octets, place, room);
    place + octets.len()
}
