//! What a report tells of a capture: the counts, the last tick, the peer.
ghost use Rattle.std.specs.Prelude.{◌≡◌, ◌+◌, ◌∷◌, ◌++◌, [], false, List, Some, None, IfOk, length};
ghost use Rattle.efi_base.specs.declared.plain.Record.{Record};
ghost use Rattle.tap_core.specs.Counting.{Counted};
ghost use Rattle.tap_core.specs.Openings.{Opening};
ghost use Rattle.tap_core.specs.Seen.{syn_seen};
ghost use Rattle.tap_core.specs.Shown.{Tells, last_tick};

use crate::opening::Syn;
use crate::packets::is_sent;
use efi_base::{LoadEnd, Mac, NoMemory, Peer, Record, Tick};

/// What a capture shows of its first connection. The counts go up to the record at which the download ends.
#[derive(Clone, Copy, PartialEq, Eq, Debug)]
pub struct Shown {
    pub peer: Option<Peer>,
    /// How many octets of the peer's stream were accepted.
    pub accepted: u64,
    /// Whether the end of the stream was reached.
    pub fin: bool,
    pub end: LoadEnd,
    /// The tick of the record at which it ends.
    pub tick: Tick,
    pub sent: u64,
    pub heard: u64,
}

/// How many records the station sent and heard, and the tick of the last one.
#[derive(Clone, Copy, PartialEq, Eq, Debug)]
pub struct Counts {
    pub sent: u64,
    pub heard: u64,
    pub tick: Tick,
}

/// What is shown of so many records where none asks for a connection, the last one at this tick.
pub fn shown_without(end: LoadEnd, heard: u64, tick: Tick) -> Shown
    ensures { (upto : List Record) → heard ≡ length upto → tick.0 ≡ last_tick upto → Tells end None 0 false upto result }
{
    Shown {
        peer: None,
        accepted: 0,
        fin: false,
        end,
        tick,
        sent: 0,
        heard,
    }
}

/// What is shown of a connection, with so many octets accepted, by the counts of the records up to its end.
pub fn shown_with(syn: &Syn, end: LoadEnd, accepted: u64, fin: bool, counts: Counts) -> Shown
    ensures { (upto : List Record) → Counted (Some (syn_seen syn.now)) upto counts
        → Tells end (Some (syn_seen syn.now)) accepted fin upto result }
{
    Shown {
        peer: Some(Peer {
            addr: syn.dest,
            port: syn.dport,
        }),
        accepted,
        fin,
        end,
        tick: counts.tick,
        sent: counts.sent,
        heard: counts.heard,
    }
}

/// The counts with one record more. More records than 64 bits count are refused as if for want of memory.
pub fn count_one(station: Mac, counts: Counts, record: &Record) -> Result<Counts, NoMemory>
    ensures { (o : Opening) (records : List Record) → o.station ≡ station.0 → Counted (Some o) records counts
        → IfOk result (Counted (Some o) (records ++ «record».now ∷ [])) }
{
    let tick = record.tick;
    if is_sent(station, record.frame.as_slice()) {
        let sent = one_more(counts.sent)?;
        return Ok(Counts {
            sent,
            heard: counts.heard,
            tick,
        });
    }
    let heard = one_more(counts.heard)?;
    Ok(Counts {
        sent: counts.sent,
        heard,
        tick,
    })
}

/// One more, where 64 bits count it.
pub fn one_more(count: u64) -> Result<u64, NoMemory>
    ensures { IfOk result (λ n. n ≡ count + 1) }
{
    match count.checked_add(1) {
        Some(more) => Ok(more),
        None => Err(NoMemory),
    }
}
