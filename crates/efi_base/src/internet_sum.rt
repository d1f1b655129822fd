//! The Internet checksum (RFC 1071).
ghost use Rattle.std.specs.Prelude.{◌≡◌, ◌%◌, ◌*◌, ◌^◌, ◌≤◌, ◌<◌, ◌++◌, length};
ghost use Rattle.efi_base.specs.Carries.{Carries};
ghost use Rattle.efi_base.specs.Checksum.{checksum_of, plain_sum, words};

use byteorder::{BigEndian, ByteOrder};

/// The octets of a word of 64 bits, which are added at once.
const WORD: usize = 8;

/// The sum of the words of fewer than eight octets, with no carry brought back.
fn short_total(bytes: &[u8]) -> u32
    requires { length bytes.now < 8 }
    ensures { result ≡ plain_sum (words bytes.now) }
{
    let mut total = 0u32;
    let mut rest = bytes;
    while rest.len() >= 2 {
        total += BigEndian::read_u16(rest) as u32;
        rest = &rest[2..];
    }
    match rest {
        [last] => total + 256 * *last as u32,
        _ => total,
    }
}

/// The sum of the octets' words of 64 bits and of what is left behind them, which has all carries of the words of 16
/// bits in it.
fn total_of(bytes: &[u8]) -> u128
    ensures carries { Carries result (plain_sum (words bytes.now)) }
    ensures bound { result ≤ 2 ^ 64 * length bytes.now }
{
    let mut total = 0u128;
    let mut rest = bytes;
    while rest.len() >= WORD {
        total += BigEndian::read_u64(rest) as u128;
        rest = &rest[WORD..];
    }
    total + short_total(rest) as u128
}

/// The checksum of the octets of both parts, one after the other, as a number in host order.
pub fn checksum(first: &[u8], second: &[u8]) -> u16
    requires { length first.now % 2 ≡ 0 }
    ensures { result ≡ checksum_of (first.now ++ second.now) }
{
    let total = total_of(first) + total_of(second);
    if total == 0 {
        return u16::MAX;
    }
    let folded = (total - 1) % 65535 + 1;
    65535 - folded as u16
}
