//! Reading record after record in octets.
ghost use Rattle.std.specs.Prelude.{◌≡◌, ◌+◌, ◌≤◌, length, take, drop, [], ◌∷◌, ◌++◌, OnOk, IfErr, MatchResult};
ghost use Rattle.wire_pcap.specs.Reading.{IsPartial};
ghost use Rattle.wire_pcap.specs.Next.{MadeReady, StopsFrom};

use crate::clock::{Clock, clock_at};
use crate::fault::CapFault;
use crate::form::Form;
use crate::head::{Next, RECORD_HEAD_LEN, next_of};
use efi_base::{Bytes, Record, Tick};
use std::alloc::Global;
use std::collections::VecDeque;

/// Where the first record stands that isn't made yet, and the clock before it.
#[derive(Clone, Copy, Debug)]
pub struct Progress {
    pub at: usize,
    pub clock: Clock,
}

/// Makes the record of this moment that stands at the front of the octets.
fn make_record(
    alloc: Global,
    bytes: &[u8],
    kept: usize,
    tick: u64,
    ready: &mut VecDeque<Record>,
) -> Result<(), CapFault>
    requires { 16 + kept ≤ length bytes.now }
    ensures made { OnOk result (ready.new.items ≡ ready.old.items
        ++ record { tick = record { 0 = tick }; frame = take kept (drop 16 bytes.now) } ∷ []) }
    ensures memory { IfErr result (λ e. (e ≡ CapFault.OutOfResources) × (ready.new.items ≡ ready.old.items)) }
{
    let octets = &bytes[RECORD_HEAD_LEN..RECORD_HEAD_LEN + kept];
    let Ok(frame) = Vec::from_slice(alloc, octets) else {
        return Err(CapFault::OutOfResources);
    };
    let record = Record {
        tick: Tick(tick),
        frame: Bytes::from_vec(frame),
    };
    match ready.push_back(record) {
        Ok(()) => Ok(()),
        Err(_) => Err(CapFault::OutOfResources),
    }
}

/// Makes the whole records that stand behind a place of the octets, also those in front of a bad one. Its place is counted
/// from their first.
pub fn read_records(
    alloc: Global,
    form: Form,
    bytes: &[u8],
    from: Progress,
    ready: &mut VecDeque<Record>,
) -> Result<Progress, CapFault>
    requires { from.at ≤ length bytes.now }
    ensures { MatchResult result (λ to. MadeReady form bytes.now from to ready.old.items ready.new.items × IsPartial form.order (drop to.at bytes.now))
        (λ e. StopsFrom form bytes.now 0 from e ready.old.items ready.new.items) }
{
    let mut at = from.at;
    let mut clock = from.clock;
    loop {
        let rest = &bytes[at..];
        match next_of(form, rest) {
            Next::Whole(head) => {
                clock = clock_at(form.resolution, clock, head.time);
                make_record(alloc, rest, head.kept, clock.tick, ready)?;
                at += RECORD_HEAD_LEN + head.kept;
            }
            Next::Partial => return Ok(Progress { at, clock }),
            Next::Over => return Err(CapFault::BadAt(at as u64)),
        }
    }
}
