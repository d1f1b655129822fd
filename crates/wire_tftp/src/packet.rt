//! The six packets (RFC 1350, section 5; RFC 2347). A packet lends the octets that it was read from, but for names.
ghost use Rattle.std.specs.Prelude.{◌≡◌, ◌≤◌, ◌∷◌, ◌++◌, [], Some, length, take, drop, IsTrue, IfOk};
ghost use Rattle.std.specs.Option.{option_map};
ghost use Rattle.byteorder.specs.Endian.{big_bytes};
ghost use Rattle.efi_base.specs.Reads.{ReadsAs};
ghost use Rattle.efi_base.specs.Writes.{Writes};
ghost use Rattle.wire_tftp.specs.Options.{opts_of};
ghost use Rattle.wire_tftp.specs.Packets.{packet_of, ask_of, block_of, acknowledgment_of, error_of, read_request, write_request, option_acknowledgment};
ghost use Rattle.wire_tftp.specs.Seen.{packet_seen};
ghost use Rattle.wire_tftp.specs.Spelling.{IsKept, Fits, AreOpts, is_sendable, packet_text, ask_tail, opts_text};

use crate::options::{MOST_OPTIONS, Opts, is_named, put_opts, read_opts};
use crate::texts::split_text;
use byteorder::{BigEndian, ByteOrder};
use efi_base::{Bad, MOST_NAME, Name, NoRoom, put_parts, u16_at};

/// What a request asks for, in mode `octet`: a file's name, and options.
#[derive(Debug, Drop)]
pub struct Ask {
    pub name: Name,
    pub opts: Opts,
}

/// A packet. Blocks are counted from 1; an error has a code and a text without its zero.
#[derive(Debug, Drop)]
pub enum Packet<'a> {
    Rrq(Ask),
    Wrq(Ask),
    Data(u16, &'a [u8]),
    Ack(u16),
    Error(u16, &'a [u8]),
    Oack(Opts),
}

/// The opcodes.
const RRQ: u16 = 1;

const WRQ: u16 = 2;

const DATA: u16 = 3;

const ACK: u16 = 4;

const ERROR: u16 = 5;

const OACK: u16 = 6;

/// The most octets behind the name of a request.
const MOST_TAIL: usize = 63;

/// Reads the packet that fills the octets.
#[tactic(auto, unfolding(crate::specs::Packets::packet_of))]
pub fn read_packet(bytes: &[u8]) -> Result<Packet<'_>, Bad>
    ensures { ReadsAs packet_seen result (packet_of bytes.now) }
{
    if bytes.len() < 2 {
        return Err(Bad);
    }
    let body = &bytes[2..];
    match u16_at(bytes, 0) {
        RRQ => read_rrq(body),
        WRQ => read_wrq(body),
        DATA => read_data(body),
        ACK => read_ack(body),
        ERROR => read_error(body),
        OACK => read_oack(body),
        _ => Err(Bad),
    }
}

fn read_rrq(body: &[u8]) -> Result<Packet<'_>, Bad>
    ensures { ReadsAs packet_seen result (option_map read_request (ask_of body.now)) }
{
    match read_ask(body) {
        Ok(ask) => Ok(Packet::Rrq(ask)),
        Err(bad) => Err(bad),
    }
}

fn read_wrq(body: &[u8]) -> Result<Packet<'_>, Bad>
    ensures { ReadsAs packet_seen result (option_map write_request (ask_of body.now)) }
{
    match read_ask(body) {
        Ok(ask) => Ok(Packet::Wrq(ask)),
        Err(bad) => Err(bad),
    }
}

/// Reads what a request asks for behind its opcode.
fn read_ask(body: &[u8]) -> Result<Ask, Bad>
    ensures { ReadsAs (λ ask. ask) result (ask_of body.now) }
{
    let Some((name, after)) = split_text(body) else {
        return Err(Bad);
    };
    let Some((mode, options)) = split_text(after) else {
        return Err(Bad);
    };
    if !is_named(mode, b"octet") {
        return Err(Bad);
    }
    if name.len() > MOST_NAME {
        return Err(Bad);
    }
    match read_opts(options) {
        Ok(opts) => Ok(Ask {
            name: Name::from_slice(name),
            opts,
        }),
        Err(bad) => Err(bad),
    }
}

fn read_data(body: &[u8]) -> Result<Packet<'_>, Bad>
    ensures { ReadsAs packet_seen result (block_of body.now) }
{
    if body.len() < 2 {
        return Err(Bad);
    }
    Ok(Packet::Data(u16_at(body, 0), &body[2..]))
}

fn read_ack(body: &[u8]) -> Result<Packet<'_>, Bad>
    ensures { ReadsAs packet_seen result (acknowledgment_of body.now) }
{
    if body.len() != 2 {
        return Err(Bad);
    }
    Ok(Packet::Ack(u16_at(body, 0)))
}

/// Reads a code, and the text that fills the rest.
fn read_error(body: &[u8]) -> Result<Packet<'_>, Bad>
    ensures { ReadsAs packet_seen result (error_of body.now) }
{
    if body.len() < 2 {
        return Err(Bad);
    }
    let Some((text, behind)) = split_text(&body[2..]) else {
        return Err(Bad);
    };
    if behind.len() > 0 {
        return Err(Bad);
    }
    Ok(Packet::Error(u16_at(body, 0), text))
}

fn read_oack(body: &[u8]) -> Result<Packet<'_>, Bad>
    ensures { ReadsAs packet_seen result (option_map option_acknowledgment (opts_of body.now)) }
{
    match read_opts(body) {
        Ok(opts) => Ok(Packet::Oack(opts)),
        Err(bad) => Err(bad),
    }
}

/// Writes a packet whose texts hold no zero and whose options are those that are read, and answers how many octets it has.
pub fn write_packet(packet: &Packet<'_>, room: &mut [u8]) -> Result<usize, NoRoom>
    requires { IsTrue (is_sendable (packet_seen packet.now)) }
    ensures writes { Writes (packet_text (packet_seen packet.now)) room.old result room.new }
    ensures again { IfOk result (λ n. IsKept (packet_seen packet.now) → packet_of (take n room.new) ≡ Some (packet_seen packet.now)) }
{
    put_packet(packet, room)
}

#[tactic(auto, unfolding(crate::specs::Spelling::packet_text))]
fn put_packet(packet: &Packet<'_>, room: &mut [u8]) -> Result<usize, NoRoom>
    ensures writes { Writes (packet_text (packet_seen packet.now)) room.old result room.new }
    ensures fits { Fits (packet_seen packet.now) }
{
    match packet {
        Packet::Rrq(ask) => put_ask(RRQ, ask, room),
        Packet::Wrq(ask) => put_ask(WRQ, ask, room),
        Packet::Data(number, octets) => put_numbered(DATA, *number, octets, room),
        Packet::Ack(number) => put_parts(&two_octets(ACK), &two_octets(*number), room),
        Packet::Error(code, text) => put_error(*code, text, room),
        Packet::Oack(opts) => put_oack(opts, room),
    }
}

fn two_octets(number: u16) -> [u8; 2]
    ensures { result ≡ big_bytes 2 number }
{
    let mut octets = [0; 2];
    BigEndian::write_u16(&mut octets, number);
    octets
}

fn put_numbered(opcode: u16, number: u16, octets: &[u8], room: &mut [u8]) -> Result<usize, NoRoom>
    ensures { Writes ((big_bytes 2 opcode ++ big_bytes 2 number) ++ octets.now) room.old result room.new }
{
    put_three(&two_octets(opcode), &two_octets(number), octets, room)
}

fn put_error(code: u16, text: &[u8], room: &mut [u8]) -> Result<usize, NoRoom>
    ensures { Writes (((big_bytes 2 5 ++ big_bytes 2 code) ++ text.now) ++ (0 ∷ [])) room.old result room.new }
{
    let mut front = [0; 4];
    BigEndian::write_u16(&mut front, ERROR);
    BigEndian::write_u16(&mut front[2..], code);
    put_three(&front, text, &[0], room)
}

fn put_ask(opcode: u16, ask: &Ask, room: &mut [u8]) -> Result<usize, NoRoom>
    ensures writes { Writes ((big_bytes 2 opcode ++ ask.now.name) ++ ask_tail ask.now.opts) room.old result room.new }
    ensures fits { AreOpts ask.now.opts }
{
    let mut tail = [0; MOST_TAIL];
    let end = put_tail(&ask.opts, &mut tail);
    put_three(&two_octets(opcode), ask.name.as_slice(), &tail[..end], room)
}

/// Writes what stands behind the name of a request, from the zero that ends the name.
fn put_tail(opts: &Opts, room: &mut [u8]) -> usize
    requires { 63 ≤ length room.old }
    ensures len { result ≡ length (ask_tail opts.now) }
    ensures text { room.new ≡ ask_tail opts.now ++ drop (length (ask_tail opts.now)) room.old }
    ensures bound { result ≤ 63 }
    ensures fits { AreOpts opts.now }
{
    put_front(b"\0octet\0", room);
    7 + put_opts(opts, &mut room[7..])
}

fn put_oack(opts: &Opts, room: &mut [u8]) -> Result<usize, NoRoom>
    ensures writes { Writes (big_bytes 2 6 ++ opts_text opts.now) room.old result room.new }
    ensures fits { AreOpts opts.now }
{
    let mut text = [0; MOST_OPTIONS];
    let end = put_opts(opts, &mut text);
    put_parts(&two_octets(OACK), &text[..end], room)
}

/// Writes three parts to the front of the room, and answers how many octets they are.
fn put_three(first: &[u8], second: &[u8], third: &[u8], room: &mut [u8]) -> Result<usize, NoRoom>
    ensures { Writes ((first.now ++ second.now) ++ third.now) room.old result room.new }
{
    if room.len() < first.len() || room.len() - first.len() < second.len() {
        return Err(NoRoom);
    }
    let place = first.len() + second.len();
    if room.len() - place < third.len() {
        return Err(NoRoom);
    }
    put_two(first, second, room);
    put_front(third, &mut room[place..]);
    Ok(place + third.len())
}

fn put_two(first: &[u8], second: &[u8], room: &mut [u8])
    requires { length (first.now ++ second.now) ≤ length room.old }
    ensures { room.new ≡ (first.now ++ second.now) ++ drop (length (first.now ++ second.now)) room.old }
{
    put_front(first, room);
    put_front(second, &mut room[first.len()..]);
}

fn put_front(text: &[u8], room: &mut [u8])
    requires { length text.now ≤ length room.old }
    ensures { room.new ≡ text.now ++ drop (length text.now) room.old }
{
    room[..text.len()].copy_from_slice(text);
}
