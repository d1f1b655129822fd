//! Reading on where what was fed before ended.
ghost use Rattle.std.specs.Prelude.{◌≡◌, ◌+◌, ◌^◌, ◌<◌, ◌≤◌, ◌++◌, length, drop, MatchResult};
ghost use Rattle.wire_pcap.specs.Next.{StopsFrom};
ghost use Rattle.wire_pcap.specs.Stands.{GoesOn, Stops, ReadsFrom, GoesOnTo};

use crate::clock::Clock;
use crate::fault::CapFault;
use crate::form::Form;
use crate::header::{HEADER_LEN, form_of};
use crate::records::{Progress, read_records};
use efi_base::Record;
use std::alloc::Global;
use std::collections::VecDeque;

/// What is known of the octets that were read: the capture's form, once its header is whole, how many they are, and
/// the clock behind their records.
#[derive(Clone, Copy, Debug)]
pub struct Stage {
    pub form: Option<Form>,
    pub place: u64,
    pub clock: Clock,
}

/// The stage behind the octets that were read, and how many of those at hand they are.
#[derive(Clone, Copy, Debug)]
pub struct Reached {
    pub stage: Stage,
    pub at: usize,
}

/// Reads the records behind a place of the octets at hand, which stand behind those that were read.
fn read_from(
    alloc: Global,
    form: Form,
    bytes: &[u8],
    start: usize,
    from: Stage,
    ready: &mut VecDeque<Record>,
) -> Result<Reached, CapFault>
    requires start { start ≤ length bytes.now }
    requires place { from.place + length bytes.now < 2 ^ 64 }
    ensures { MatchResult result (λ to. ReadsFrom form bytes.now start from to ready.old.items ready.new.items)
        (λ e. StopsFrom form bytes.now from.place (record { at = start; clock = from.clock }) e ready.old.items ready.new.items) }
{
    let progress = Progress {
        at: start,
        clock: from.clock,
    };
    match read_records(alloc, form, bytes, progress, ready) {
        Ok(to) => {
            let stage = Stage {
                form: Some(form),
                place: from.place + to.at as u64,
                clock: to.clock,
            };
            Ok(Reached { stage, at: to.at })
        }
        Err(CapFault::BadAt(place)) => Err(CapFault::BadAt(from.place + place)),
        Err(CapFault::OutOfResources) => Err(CapFault::OutOfResources),
    }
}

/// Reads on in the octets at hand: over the header, where it is still to come, and over the records.
fn read_on(
    alloc: Global,
    bytes: &[u8],
    from: Stage,
    ready: &mut VecDeque<Record>,
) -> Result<Reached, CapFault>
    requires { from.place + length bytes.now < 2 ^ 64 }
    ensures { MatchResult result (λ to. GoesOn bytes.now from to ready.old.items ready.new.items)
        (λ e. Stops bytes.now from e ready.old.items ready.new.items) }
{
    if let Some(form) = from.form {
        return read_from(alloc, form, bytes, 0, from, ready);
    }
    let Some(form) = form_of(bytes) else {
        return Err(CapFault::BadAt(0));
    };
    if bytes.len() < HEADER_LEN {
        return Ok(Reached { stage: from, at: 0 });
    }
    read_from(alloc, form, bytes, HEADER_LEN, from, ready)
}

/// Removes the first octets.
fn drop_front(octets: &mut Vec<u8>, count: usize)
    requires { count ≤ length octets.old.items }
    ensures { octets.new.items ≡ drop count octets.old.items }
{
    let left = octets.len() - count;
    octets.rotate_left(count);
    octets.truncate(left);
}

/// Reads on with a piece behind the octets that were kept, and keeps those that aren't read yet. Where the capture is
/// longer than a place can tell, there is no room for it.
pub fn read_piece(
    alloc: Global,
    octets: &mut Vec<u8>,
    piece: &[u8],
    from: Stage,
    ready: &mut VecDeque<Record>,
) -> Result<Stage, CapFault>
    ensures { MatchResult result (λ to. GoesOnTo (octets.old.items ++ piece.now) from to octets.new.items ready.old.items ready.new.items)
        (λ e. Stops (octets.old.items ++ piece.now) from e ready.old.items ready.new.items) }
{
    if octets.extend_from_slice(piece).is_err() {
        return Err(CapFault::OutOfResources);
    }
    let Some(_) = from.place.checked_add(octets.len() as u64) else {
        return Err(CapFault::OutOfResources);
    };
    match read_on(alloc, octets.as_slice(), from, ready) {
        Ok(to) => {
            drop_front(octets, to.at);
            Ok(to.stage)
        }
        Err(fault) => Err(fault),
    }
}
