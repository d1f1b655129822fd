//! Options one behind the other (RFC 2132, section 2), and the values of one code joined (RFC 3396, section 7). What they
//! say isn't here.
ghost use Rattle.std.specs.Prelude.{◌≡◌, ◌+◌, ◌<◌, ◌≤◌, ◌^◌, ◌++◌, ℕ, List, Option, drop, take, length, slice_index, option_map, unwrap_or};
ghost use Rattle.wire_dhcp.specs.Filling.{Holds, laid_at};
ghost use Rattle.wire_dhcp.specs.Options.{continued, count_of, is_ended, items_in, own_value, value_of};
ghost use Rattle.wire_dhcp.specs.Walk.{FrontIs, item_seen};

/// An option: its code, and its value of at most 255 octets.
#[derive(Clone, Copy, PartialEq, Eq, Debug)]
pub struct DhcpOption<'a> {
    pub code: u8,
    pub value: &'a [u8],
}

impl Default for DhcpOption<'_> {
    fn default() -> Self {
        DhcpOption {
            code: 0,
            value: &[],
        }
    }
}

/// What stands in front of octets.
#[derive(Clone, Copy)]
enum Front<'a> {
    /// An option, and the octets behind it.
    Whole(DhcpOption<'a>, &'a [u8]),
    /// The 255 that ends options.
    End,
    /// No whole option.
    Cut,
}

/// The code that is padding, and the one that ends options.
const PAD: u8 = 0;

pub(crate) const END: u8 = 255;

/// What stands in front, behind padding.
fn step_at(octets: &[u8]) -> Front<'_>
    ensures { FrontIs octets.now result }
{
    let rest = skip_padding(octets);
    if rest.is_empty() {
        return Front::Cut;
    }
    if rest[0] == END {
        return Front::End;
    }
    if rest.len() < 2 {
        return Front::Cut;
    }
    let end = 2 + rest[1] as usize;
    if rest.len() < end {
        return Front::Cut;
    }
    let option = DhcpOption {
        code: rest[0],
        value: &rest[2..end],
    };
    Front::Whole(option, &rest[end..])
}

/// The octets from the first that is no padding.
fn skip_padding(octets: &[u8]) -> &[u8]
    ensures items { items_in result.now ≡ items_in octets.now }
    ensures ended { is_ended result.now ≡ is_ended octets.now }
    ensures within { length result.now ≤ length octets.now }
    ensures code { 0 < length result.now → 0 < slice_index result.now 0 }
{
    let mut rest = octets;
    while rest.len() > 0 {
        if rest[0] != PAD {
            return rest;
        }
        rest = &rest[1..];
    }
    rest
}

/// Whether a 255 ends the options within the octets.
pub(crate) fn is_ended(octets: &[u8]) -> bool
    ensures { result ≡ is_ended octets.now }
{
    let mut rest = octets;
    while rest.len() > 0 {
        match step_at(rest) {
            Front::Whole(_, behind) => rest = behind,
            Front::End => return true,
            Front::Cut => return false,
        }
    }
    false
}

/// How many options have this code.
pub(crate) fn count(code: u8, octets: &[u8]) -> usize
    ensures count { result ≡ count_of code (items_in octets.now) }
    ensures bound { result ≤ length octets.now }
{
    let mut count = 0;
    let mut rest = octets;
    while rest.len() > 0 {
        match step_at(rest) {
            Front::Whole(option, behind) => {
                count += usize::from(option.code == code);
                rest = behind;
            }
            _ => return count,
        }
    }
    count
}

/// Appends the values of this code to what was found before, whose octets lie in front of the room as far as they fit, and
/// answers the length of all of it.
pub(crate) fn join(code: u8, octets: &[u8], before: Option<usize>, room: &mut [u8]) -> Option<usize>
    requires { unwrap_or before 0 + length octets.now < 2 ^ 64 }
    ensures joined { (value : Option (List ℕ)) → (base : List ℕ) → Holds value before base room.old
        → Holds (continued value (value_of code (items_in octets.now))) result base room.new }
    ensures bound { unwrap_or result 0 ≤ unwrap_or before 0 + length octets.now }
{
    let mut found = before;
    let mut rest = octets;
    while rest.len() > 0 {
        match step_at(rest) {
            Front::Whole(option, behind) => {
                found = with_value(code, option, found, room);
                rest = behind;
            }
            _ => return found,
        }
    }
    found
}

/// Appends the value of one option, where it has this code.
fn with_value(
    code: u8,
    option: DhcpOption<'_>,
    before: Option<usize>,
    room: &mut [u8],
) -> Option<usize>
    requires { unwrap_or before 0 + length option.value.now < 2 ^ 64 }
    ensures joined { (value : Option (List ℕ)) → (base : List ℕ) → Holds value before base room.old
        → Holds (continued value (own_value code (item_seen option.entry))) result base room.new }
    ensures bound { unwrap_or result 0 ≤ unwrap_or before 0 + length option.entry.value.now }
{
    if option.code != code {
        return before;
    }
    let place = before.unwrap_or(0);
    put_at(option.value, place, room);
    Some(place + option.value.len())
}

/// Copies the octets into the room from this place on, as many as fit.
fn put_at(octets: &[u8], place: usize, room: &mut [u8])
    ensures { room.new ≡ laid_at place octets.now room.old }
{
    if room.len() <= place {
        return;
    }
    let count = octets.len().min(room.len() - place);
    put_within(&octets[..count], place, room);
}

pub(crate) fn put_within(octets: &[u8], place: usize, room: &mut [u8])
    requires { place + length octets.now ≤ length room.old }
    ensures { room.new ≡ (take place room.old ++ octets.now) ++ drop (place + length octets.now) room.old }
{
    room[place..place + octets.len()].copy_from_slice(octets);
}
