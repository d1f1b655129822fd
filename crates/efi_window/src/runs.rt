//! Runs of bytes in a ring that don't cross its end: by index, each with a bit that says whether a byte is kept there.
ghost use Rattle.std.specs.Prelude.{◌≡◌, ◌+◌, ◌*◌, ◌<◌, ◌≤◌, ℕ, false, length};
ghost use Rattle.efi_window.specs.Kept.{is_kept, IsPut};

use crate::bits::{mark, run_end};

/// Keeps bytes from an index on, where none is kept.
fn keep(ring: &mut [u8], words: &mut [u64], at: usize, bytes: &[u8])
    requires end { at + length bytes.now ≤ length ring.old }
    requires words { at + length bytes.now ≤ 64 * length words.old }
    requires free { (i : ℕ) → at ≤ i → i < at + length bytes.now → is_kept words.old i ≡ false }
    ensures { IsPut at (length bytes.now) bytes.now ring.old words.old ring.new words.new }
{
    let end = at + bytes.len();
    ring[at..end].copy_from_slice(bytes);
    mark(words, true, at, end);
}

/// Keeps bytes from an index on. A byte that is kept there already stays.
pub fn put_run(ring: &mut [u8], words: &mut [u64], at: usize, bytes: &[u8])
    requires end { at + length bytes.now ≤ length ring.old }
    requires words { at + length bytes.now ≤ 64 * length words.old }
    ensures { IsPut at (length bytes.now) bytes.now ring.old words.old ring.new words.new }
{
    let end = at + bytes.len();
    let mut next = at;
    while next < end {
        let free = run_end(words, true, next, end);
        let stop = run_end(words, false, free, end);
        keep(ring, words, free, &bytes[free - at..stop - at]);
        next = stop;
    }
}
