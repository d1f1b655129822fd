//! Which option acknowledgment answers what was asked for (RFC 2347, section 3). Others are ignored by who asked.
ghost use Rattle.std.specs.Prelude.{◌≡◌, Bool};
ghost use Rattle.wire_tftp.specs.Fits.{fits_ask, fits_size, fits_total};

use crate::options::Opts;

/// The least octets of a block that can be asked for (RFC 2348).
pub const LEAST_BLOCK_SIZE: u64 = 8;

/// Whether the options given are among those asked for, and the block size is within the one asked for.
pub fn fits_ask(asked: &Opts, given: &Opts) -> bool
    ensures { result ≡ fits_ask asked.now given.now }
{
    if given.other {
        return false;
    }
    fits_size(asked.blksize, given.blksize) && fits_total(asked.tsize, given.tsize)
}

fn fits_size(asked: Option<u64>, given: Option<u64>) -> bool
    ensures { result ≡ fits_size asked given }
{
    match (asked, given) {
        (_, None) => true,
        (None, Some(_)) => false,
        (Some(asked), Some(given)) => LEAST_BLOCK_SIZE <= given && given <= asked,
    }
}

fn fits_total(asked: Option<u64>, given: Option<u64>) -> bool
    ensures { result ≡ fits_total asked given }
{
    match given {
        None => true,
        Some(_) => asked.is_some(),
    }
}
