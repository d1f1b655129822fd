//! The options of a TCP header (RFC 9293, section 3.1; RFC 7323, section 2.2). Two are read and
//! written: the largest segment and the shift of the window. Others are passed over, and so are these where their length
//! is another.
ghost use Rattle.std.specs.Prelude.{◌≡◌, ◌<◌, ◌≤◌, ◌++◌, ◌%◌, ◌^◌, drop, List, [], ◌∷◌, length, slice_index, IfSome, IfNone};
ghost use Rattle.std.specs.Option.{option_map};
ghost use Rattle.efi_base.specs.Reads.{ReadsAs};
ghost use Rattle.wire_l4.specs.Options.{Item, items_of};
ghost use Rattle.wire_l4.specs.Spelling.{mss_option, shift_option, options_text};
ghost use Rattle.wire_l4.specs.Walk.{BeginsWith, known_in, joined, known_seen};

use byteorder::{BigEndian, ByteOrder};
use efi_base::Bad;

/// The options that are read of a header, the first of each kind.
#[derive(Clone, Copy)]
pub(crate) struct Options {
    pub(crate) mss: Option<u16>,
    pub(crate) shift: Option<u8>,
}

/// The kinds that are read or stand alone, without a length.
const END: u8 = 0;

const NO_OPERATION: u8 = 1;

const MSS: u8 = 2;

const SHIFT: u8 = 3;

/// Reads the options that fill these octets.
pub(crate) fn read_options(bytes: &[u8]) -> Result<Options, Bad>
    ensures { ReadsAs known_seen result (option_map known_in (items_of bytes.now)) }
{
    let mut found = Options {
        mss: None,
        shift: None,
    };
    let mut rest = bytes;
    while rest.len() > 0 {
        let kind = rest[0];
        if kind == END {
            return Ok(found);
        }
        if kind == NO_OPERATION {
            rest = &rest[1..];
            continue;
        }
        let Some((value, behind)) = split_value(rest) else {
            return Err(Bad);
        };
        found = with_first(found, read_value(kind, value));
        rest = behind;
    }
    Ok(found)
}

/// The octets of the option in front behind its kind and length, and the octets behind the option. None where its
/// length counts less than kind and length, or more than is there.
fn split_value(bytes: &[u8]) -> Option<(&[u8], &[u8])>
    requires { 2 ≤ slice_index bytes.now 0 }
    ensures some { IfSome result (λ found. BeginsWith bytes.now (record { kind = slice_index bytes.now 0; value = found.0.now }) found.1.now) }
    ensures shorter { IfSome result (λ found. length found.1.now < length bytes.now) }
    ensures none { IfNone result (items_of bytes.now ≡ None) }
{
    if bytes.len() < 2 {
        return None;
    }
    let size = bytes[1] as usize;
    if size < 2 {
        return None;
    }
    if bytes.len() < size {
        return None;
    }
    Some((&bytes[2..size], &bytes[size..]))
}

/// What one option says.
#[tactic(auto, unfolding(crate::specs::Walk::known_in))]
fn read_value(kind: u8, value: &[u8]) -> Options
    ensures { known_seen result ≡ known_in (record { kind = kind; value = value.now } ∷ []) }
{
    let mss = if kind == MSS && value.len() == 2 {
        Some(BigEndian::read_u16(value))
    } else {
        None
    };
    let shift = if kind == SHIFT && value.len() == 1 {
        Some(value[0])
    } else {
        None
    };
    Options { mss, shift }
}

/// What was found first of each kind.
#[tactic(auto, unfolding(crate::specs::Walk::joined))]
fn with_first(found: Options, next: Options) -> Options
    ensures { known_seen result ≡ joined (known_seen found) (known_seen next) }
{
    Options {
        mss: found.mss.or(next.mss),
        shift: found.shift.or(next.shift),
    }
}

/// Writes the options that are there to the front of the room, and answers how many octets they are.
pub(crate) fn put_options(mss: Option<u16>, shift: Option<u8>, room: &mut [u8]) -> usize
    requires { 8 ≤ length room.old }
    ensures len { result ≡ length (options_text mss shift) }
    ensures text { room.new ≡ options_text mss shift ++ drop (length (options_text mss shift)) room.old }
    ensures bound { result ≤ 8 }
    ensures even { result % 4 ≡ 0 }
    ensures fits { IfSome mss (λ mss. mss < 2 ^ 16) × IfSome shift (λ shift. shift < 2 ^ 8) }
{
    let first = put_mss(mss, room);
    first + put_shift(shift, &mut room[first..])
}

fn put_mss(mss: Option<u16>, room: &mut [u8]) -> usize
    requires { 4 ≤ length room.old }
    ensures len { result ≡ length (mss_option mss) }
    ensures text { room.new ≡ mss_option mss ++ drop (length (mss_option mss)) room.old }
    ensures bound { result ≤ 4 }
    ensures even { result % 4 ≡ 0 }
{
    let Some(mss) = mss else { return 0 };
    room[0] = MSS;
    room[1] = 4;
    BigEndian::write_u16(&mut room[2..], mss);
    4
}

fn put_shift(shift: Option<u8>, room: &mut [u8]) -> usize
    requires { 4 ≤ length room.old }
    ensures len { result ≡ length (shift_option shift) }
    ensures text { room.new ≡ shift_option shift ++ drop (length (shift_option shift)) room.old }
    ensures bound { result ≤ 4 }
    ensures even { result % 4 ≡ 0 }
{
    let Some(shift) = shift else { return 0 };
    room[..4].copy_from_slice(&[NO_OPERATION, SHIFT, 3, shift]);
    4
}
