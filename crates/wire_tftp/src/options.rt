//! The options of a request and of its acknowledgment (RFC 2347). Two are read and written: the block size (RFC 2348) and
//! the size of the file (RFC 2349). Of others it is only known that they are there.
ghost use Rattle.std.specs.Prelude.{◌≡◌, ◌≢◌, ◌+◌, ◌<◌, ◌≤◌, ◌∷◌, ◌++◌, ◌^◌, [], None, codes, drop, length, IfSome, IfNone};
ghost use Rattle.efi_base.specs.Reads.{ReadsAs};
ghost use Rattle.std.specs.Str.{str_eq_ignore_ascii_case};
ghost use Rattle.wire_tftp.specs.Options.{Item, items_in, number_of, opts_of};
ghost use Rattle.wire_tftp.specs.Spelling.{AreOpts, number_option, opts_text};
ghost use Rattle.wire_tftp.specs.Walk.{BeginsWith, joined};

use crate::texts::{put_text, split_text};
use efi_base::Bad;
use itoa::Buffer;

/// The options that are read, the first of each name: the octets of a block, and of the file. `other` says that an option
/// of another name is there.
#[derive(Clone, Copy, PartialEq, Eq, Debug)]
pub struct Opts {
    pub blksize: Option<u64>,
    pub tsize: Option<u64>,
    pub other: bool,
}

/// The most octets of both options.
pub(crate) const MOST_OPTIONS: usize = 56;

/// Reads the options that fill the octets.
pub(crate) fn read_opts(octets: &[u8]) -> Result<Opts, Bad>
    ensures { ReadsAs (λ o. o) result (opts_of octets.now) }
{
    let mut found = Opts {
        blksize: None,
        tsize: None,
        other: false,
    };
    let mut rest = octets;
    while rest.len() > 0 {
        let Some((name, value, behind)) = split_option(rest) else {
            return Err(Bad);
        };
        match with_option(found, name, value) {
            Some(next) => found = next,
            None => return Err(Bad),
        }
        rest = behind;
    }
    Ok(found)
}

/// The name and the value in front, and the octets behind them.
fn split_option(octets: &[u8]) -> Option<(&[u8], &[u8], &[u8])>
    requires { 0 < length octets.now }
    ensures some { IfSome result (λ found. BeginsWith octets.now (record { name = found.0.now; value = found.1.now }) found.2.now) }
    ensures shorter { IfSome result (λ found. length found.2.now < length octets.now) }
    ensures none { IfNone result (items_in octets.now ≡ None) }
{
    let Some((name, after)) = split_text(octets) else {
        return None;
    };
    let Some((value, behind)) = split_text(after) else {
        return None;
    };
    Some((name, value, behind))
}

/// What is read of one option more: the first of a name counts. None where its counted value is no number.
#[tactic(auto, unfolding(crate::specs::Walk::joined))]
fn with_option(found: Opts, name: &[u8], value: &[u8]) -> Option<Opts>
    ensures { result ≡ joined found (record { name = name.now; value = value.now } ∷ []) }
{
    if is_named(name, b"blksize") {
        if found.blksize.is_some() {
            return Some(found);
        }
        let Some(blksize) = read_number(value) else {
            return None;
        };
        return Some(Opts {
            blksize: Some(blksize),
            ..found
        });
    }
    if is_named(name, b"tsize") {
        if found.tsize.is_some() {
            return Some(found);
        }
        let Some(tsize) = read_number(value) else {
            return None;
        };
        return Some(Opts {
            tsize: Some(tsize),
            ..found
        });
    }
    Some(Opts {
        other: true,
        ..found
    })
}

/// Whether the names are the same without case.
pub(crate) fn is_named(name: &[u8], known: &[u8]) -> bool
    ensures { result ≡ str_eq_ignore_ascii_case name.now known.now }
{
    name.eq_ignore_ascii_case(known)
}

/// The number of decimal digits that fits 64 bits.
#[tactic(auto, unfolding(crate::specs::Options::number_of))]
fn read_number(text: &[u8]) -> Option<u64>
    ensures { result ≡ number_of text.now }
{
    if text.is_empty() {
        return None;
    }
    let mut number: u64 = 0;
    for digit in text {
        if !digit.is_ascii_digit() {
            return None;
        }
        let Some(tens) = number.checked_mul(10) else {
            return None;
        };
        let Some(more) = tens.checked_add(u64::from(*digit - b'0')) else {
            return None;
        };
        number = more;
    }
    Some(number)
}

/// Writes blksize and tsize, where they are there, to the front of the room, and answers how many octets they are.
pub(crate) fn put_opts(opts: &Opts, room: &mut [u8]) -> usize
    requires { 56 ≤ length room.old }
    ensures len { result ≡ length (opts_text opts.now) }
    ensures text { room.new ≡ opts_text opts.now ++ drop (length (opts_text opts.now)) room.old }
    ensures bound { result ≤ 56 }
    ensures fits { AreOpts opts.now }
{
    let first = put_number(b"blksize", opts.blksize, room);
    first + put_number(b"tsize", opts.tsize, &mut room[first..])
}

/// Writes one option with a number, where it is there.
fn put_number(name: &[u8], number: Option<u64>, room: &mut [u8]) -> usize
    requires { length name.now + 22 ≤ length room.old }
    ensures len { result ≡ length (number_option name.now number) }
    ensures text { room.new ≡ number_option name.now number ++ drop (length (number_option name.now number)) room.old }
    ensures bound { result ≤ length name.now + 22 }
    ensures fits { IfSome number (λ n. n < 2 ^ 64) }
{
    let Some(number) = number else { return 0 };
    let mut digits = Buffer::new();
    let first = put_text(name, room);
    first + put_text(digits.format(number).as_bytes(), &mut room[first..])
}
