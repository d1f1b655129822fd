//! Messages of DHCP (RFC 2131, section 2). A message lends the octets that it was read from. What it says isn't here.
ghost use Rattle.std.specs.Prelude.{◌≡◌, ◌≤◌, ◌∷◌, [], ℕ, List, Option, drop, length, option_map, slice_index, take};
ghost use Rattle.efi_base.specs.Reads.{ReadsAs};
ghost use Rattle.wire_dhcp.specs.Filling.{filled};
ghost use Rattle.wire_dhcp.specs.Message.{are_ended, file_field, file_options, fixed_of, has_file_options, has_front, has_sname_options, is_readable, items_of, message_of, octet_of, option_of, options_field, overload_of, sname_field, sname_options, until_zero};
ghost use Rattle.wire_dhcp.specs.Leases.{file_of};
ghost use Rattle.wire_dhcp.specs.Options.{count_of};

use crate::options::{count, is_ended, join};
use efi_base::{Bad, Ip4, Mac, Name, u16_at, u32_at};
use std::marker::Model;

/// The fixed fields that are read and written. Numbers are in host order; `file` is that field up to its first zero.
#[derive(Debug, Drop)]
pub struct DhcpFixed {
    /// 1 from a client, 2 from a server.
    pub op: u8,
    /// The transaction.
    pub xid: u32,
    /// Its highest bit asks for answers by broadcast.
    pub flags: u16,
    /// The address that the client has.
    pub ciaddr: Ip4,
    /// The address that is offered or given.
    pub yiaddr: Ip4,
    /// The next server.
    pub siaddr: Ip4,
    /// The client's Ethernet address.
    pub mac: Mac,
    /// The file to load.
    pub file: Name,
}

/// A message that can be read, from a client or a server. Contracts see its octets.
#[derive(Drop)]
pub struct Dhcp<'a> {
    octets: &'a [u8],
}

impl<'a> Model for Dhcp<'a> {
    ghost use Rattle.std.specs.Prelude.{◌≡◌, ℕ, List, true};
    ghost use Rattle.wire_dhcp.specs.Message.{is_readable};

    ghost Value = { List ℕ };

    ghost view = { λ d. d.octets.now };

    ghost invariant = { λ d. is_readable d.octets.now ≡ true };
}

impl Dhcp<'_> {
    /// The fixed fields.
    #[tactic(auto, using(crate::proofs::Fields::readable_length))]
    pub fn fixed(&self) -> DhcpFixed
        ensures { result ≡ fixed_of self.now }
    {
        fixed_at(self.octets)
    }

    /// Puts the joined value of the options of this code into the room, as many of its octets as fit, and answers how
    /// many octets it has. None where no option has the code.
    #[tactic(auto, using(crate::proofs::Fields::readable_length))]
    pub fn option(&self, code: u8, room: &mut [u8]) -> Option<usize>
        ensures size { result ≡ option_map length (option_of code self.now) }
        ensures text { room.new ≡ filled (option_of code self.now) room.old }
    {
        option_at(self.octets, code, room)
    }

    /// The file that is named, empty where the field holds options.
    #[tactic(auto, using(crate::proofs::Fields::readable_length))]
    pub fn named_file(&self) -> Name
        ensures { result ≡ file_of self.now }
    {
        file_at(self.octets)
    }
}

/// The octets in front of the options.
const FRONT: usize = 240;

/// The place of `sname`, that of `file`, and the one behind it.
const SNAME: usize = 44;

const FILE: usize = 108;

const COOKIE: usize = 236;

/// What stands in front of the options: 99.130.83.99.
const COOKIE_NUMBER: u32 = 0x6382_5363;

/// The codes of the overload and of the type of a message.
const OVERLOAD: u8 = 52;

pub(crate) const MESSAGE_TYPE: u8 = 53;

/// Reads the message that fills the octets, whatever its op.
pub fn read_dhcp(bytes: &[u8]) -> Result<Dhcp<'_>, Bad>
    ensures { ReadsAs (λ d. d) result (message_of bytes.now) }
{
    if !is_readable(bytes) {
        return Err(Bad);
    }
    Ok(Dhcp { octets: bytes })
}

#[tactic(auto, unfolding(crate::specs::Message::is_readable))]
fn is_readable(octets: &[u8]) -> bool
    ensures { result ≡ is_readable octets.now }
{
    if !has_front(octets) {
        return false;
    }
    if !are_ended(octets) {
        return false;
    }
    types_in(octets) == 1
}

/// Whether Ethernet addresses of six octets and the cookie stand there.
fn has_front(octets: &[u8]) -> bool
    ensures { result ≡ has_front octets.now }
{
    if octets.len() < FRONT {
        return false;
    }
    octets[1] == 1 && octets[2] == 6 && u32_at(octets, COOKIE) == COOKIE_NUMBER
}

/// Whether each field that holds options has its 255.
fn are_ended(octets: &[u8]) -> bool
    requires { 240 ≤ length octets.now }
    ensures { result ≡ are_ended octets.now }
{
    if !is_ended(options_field(octets)) {
        return false;
    }
    if has_file_options(octets) && !is_ended(file_field(octets)) {
        return false;
    }
    !has_sname_options(octets) || is_ended(sname_field(octets))
}

/// How many options have the code of the message's type.
fn types_in(octets: &[u8]) -> usize
    requires { 240 ≤ length octets.now }
    ensures { result ≡ count_of 53 (items_of octets.now) }
{
    let main = count(MESSAGE_TYPE, options_field(octets));
    let file = count(MESSAGE_TYPE, file_options(octets));
    main + file + count(MESSAGE_TYPE, sname_options(octets))
}

/// The value of this code, of all fields that hold options.
fn option_at(octets: &[u8], code: u8, room: &mut [u8]) -> Option<usize>
    requires { 240 ≤ length octets.now }
    ensures size { result ≡ option_map length (option_of code octets.now) }
    ensures text { room.new ≡ filled (option_of code octets.now) room.old }
{
    let main = join(code, options_field(octets), None, room);
    let file = join(code, file_options(octets), main, room);
    join(code, sname_options(octets), file, room)
}

fn options_field(octets: &[u8]) -> &[u8]
    requires { 240 ≤ length octets.now }
    ensures field { result.now ≡ options_field octets.now }
    ensures bound { length result.now ≤ length octets.now }
{
    &octets[FRONT..]
}

fn sname_field(octets: &[u8]) -> &[u8]
    requires { 240 ≤ length octets.now }
    ensures field { result.now ≡ sname_field octets.now }
    ensures bound { length result.now ≤ 64 }
{
    &octets[SNAME..FILE]
}

fn file_field(octets: &[u8]) -> &[u8]
    requires { 240 ≤ length octets.now }
    ensures field { result.now ≡ file_field octets.now }
    ensures bound { length result.now ≤ 128 }
{
    &octets[FILE..COOKIE]
}

/// What option 52 says, and 0 where it says nothing.
fn overload(octets: &[u8]) -> u8
    requires { 240 ≤ length octets.now }
    ensures { result ≡ overload_of octets.now }
{
    let mut room = [0; 1];
    let size = join(OVERLOAD, options_field(octets), None, &mut room);
    one_octet(size, room[0])
}

/// The number of a value of one octet, and 0 for another size.
pub(crate) fn one_octet(size: Option<usize>, octet: u8) -> u8
    ensures { (value : Option (List ℕ)) → size ≡ option_map length value → octet ≡ slice_index (filled value (0 ∷ [])) 0 → result ≡ octet_of value }
{
    let Some(size) = size else { return 0 };
    if size != 1 {
        return 0;
    }
    octet
}

fn has_file_options(octets: &[u8]) -> bool
    requires { 240 ≤ length octets.now }
    ensures { result ≡ has_file_options octets.now }
{
    let overload = overload(octets);
    overload == 1 || overload == 3
}

fn has_sname_options(octets: &[u8]) -> bool
    requires { 240 ≤ length octets.now }
    ensures { result ≡ has_sname_options octets.now }
{
    let overload = overload(octets);
    overload == 2 || overload == 3
}

/// The octets of `file`, where it holds options.
#[tactic(auto, unfolding(crate::specs::Message::file_options))]
fn file_options(octets: &[u8]) -> &[u8]
    requires { 240 ≤ length octets.now }
    ensures options { result.now ≡ file_options octets.now }
    ensures bound { length result.now ≤ 128 }
{
    if !has_file_options(octets) {
        return &[];
    }
    file_field(octets)
}

/// The octets of `sname`, where it holds options.
#[tactic(auto, unfolding(crate::specs::Message::sname_options))]
fn sname_options(octets: &[u8]) -> &[u8]
    requires { 240 ≤ length octets.now }
    ensures options { result.now ≡ sname_options octets.now }
    ensures bound { length result.now ≤ 64 }
{
    if !has_sname_options(octets) {
        return &[];
    }
    sname_field(octets)
}

/// The fixed fields at their places.
fn fixed_at(octets: &[u8]) -> DhcpFixed
    requires { 240 ≤ length octets.now }
    ensures { result ≡ fixed_of octets.now }
{
    DhcpFixed {
        op: octets[0],
        xid: u32_at(octets, 4),
        flags: u16_at(octets, 10),
        ciaddr: Ip4(u32_at(octets, 12)),
        yiaddr: Ip4(u32_at(octets, 16)),
        siaddr: Ip4(u32_at(octets, 20)),
        mac: mac_at(octets),
        file: Name::from_slice(text_of(file_field(octets))),
    }
}

/// The file that is named.
fn file_at(octets: &[u8]) -> Name
    requires { 240 ≤ length octets.now }
    ensures { result ≡ file_of octets.now }
{
    if has_file_options(octets) {
        return Name::from_slice(&[]);
    }
    Name::from_slice(text_of(file_field(octets)))
}

fn mac_at(octets: &[u8]) -> Mac
    requires { 240 ≤ length octets.now }
    ensures { result.0 ≡ take 6 (drop 28 octets.now) }
{
    let mut mac = [0; 6];
    mac.copy_from_slice(&octets[28..34]);
    Mac(mac)
}

/// The octets in front of the first zero.
fn text_of(field: &[u8]) -> &[u8]
    ensures text { result.now ≡ until_zero field.now }
    ensures bound { length result.now ≤ length field.now }
{
    for (i, octet) in field.iter().enumerate() {
        if *octet == 0 {
            return &field[..i];
        }
    }
    field
}
