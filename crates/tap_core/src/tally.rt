//! How many records each station sent, counted before one of them is known to be the one that is watched.
ghost use Rattle.std.specs.Prelude.{◌≡◌, ℕ, ◌+◌, ◌∷◌, ◌++◌, [], false, List, None, OnOk, if◌then◌else◌};
ghost use Rattle.std.specs.Str.{bytes_eq};
ghost use Rattle.efi_base.specs.declared.plain.Record.{Record};
ghost use Rattle.tap_core.specs.Counting.{Counted, Tallies, sent_of};
ghost use Rattle.tap_core.specs.Openings.{Opening};
ghost use Rattle.tap_core.specs.Shown.{Tells, sent_by};

use crate::telling::{Counts, Shown, one_more, shown_without};
use efi_base::{LoadEnd, Mac, NoMemory, Record, Tick};
use std::alloc::Global;
use std::collections::BTreeMap;
use wire_link::read_ether;

/// The records so far: how many each station sent, how many there are, and the tick of the last one.
#[derive(Drop)]
pub struct Tally {
    sent: BTreeMap<[u8; 6], u64>,
    all: u64,
    tick: Tick,
}

impl Tally {
    /// No record was counted.
    pub fn new(alloc: Global) -> Tally
        ensures { Tallies [] result }
    {
        Tally {
            sent: BTreeMap::new(alloc),
            all: 0,
            tick: Tick(0),
        }
    }

    /// Counts a record. More records than 64 bits count are refused as if for want of memory.
    pub fn count(&mut self, record: &Record) -> Result<(), NoMemory>
        ensures { (records : List Record) → Tallies records self.old → OnOk result (Tallies (records ++ «record».now ∷ []) self.new) }
    {
        self.all = one_more(self.all)?;
        self.tick = record.tick;
        count_sender(&mut self.sent, record)?;
        Ok(())
    }

    /// The counts of the records, where this is the station.
    pub fn counts(&self, station: Mac) -> Counts
        ensures { (records : List Record) (o : Opening) → Tallies records self.now → o.station ≡ station.0 → Counted (Some o) records result }
    {
        let sent = sent_by(&self.sent, station);
        Counts {
            sent,
            heard: self.all.saturating_sub(sent),
            tick: self.tick,
        }
    }

    /// What is shown where none of the records asks for a connection.
    pub fn shown(&self, end: LoadEnd) -> Shown
        ensures { (records : List Record) → Tallies records self.now → Tells end None 0 false records result }
    {
        shown_without(end, self.all, self.tick)
    }
}

/// How many records this station sent.
fn sent_by(sent: &BTreeMap<[u8; 6], u64>, station: Mac) -> u64
    ensures { result ≡ sent_of sent.now station.0 }
{
    match sent.get(&station.0) {
        Some(count) => *count,
        None => 0,
    }
}

/// One record more of its sender; a frame too short for an Ethernet header has none.
fn count_sender(sent: &mut BTreeMap<[u8; 6], u64>, record: &Record) -> Result<(), NoMemory>
    ensures { OnOk result ((station : List ℕ) → sent_of sent.new station ≡ sent_of sent.old station + (if sent_by station «record».now then 1 else 0)) }
{
    let Ok(ether) = read_ether(record.frame.as_slice()) else {
        return Ok(());
    };
    add_one(sent, ether.src)?;
    Ok(())
}

/// One record more that this station sent.
fn add_one(sent: &mut BTreeMap<[u8; 6], u64>, station: Mac) -> Result<(), NoMemory>
    ensures { OnOk result ((other : List ℕ) → sent_of sent.new other ≡ sent_of sent.old other + (if bytes_eq station.0 other then 1 else 0)) }
{
    let count = one_more(sent_by(sent, station))?;
    sent.insert(station.0, count)?;
    Ok(())
}
