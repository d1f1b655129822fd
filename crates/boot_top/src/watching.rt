//! An input that is fed in pieces: it is read as a capture, and a tap hears the records.
ghost use Rattle.std.specs.Prelude.{◌≡◌, ℕ, List, [], ◌++◌, IfOk, OnOk};
ghost use Rattle.efi_base.specs.declared.plain.Record.{Record};
ghost use Rattle.wire_pcap.specs.Reading.{HasRead};
ghost use Rattle.tap_core.specs.Tapping.{HasHeard};
ghost use Rattle.boot_top.specs.Watched.{IsWatched};
ghost use Rattle.boot_top.specs.Streaming.{HasWatched, HearsAll};

use efi_base::NoMemory;
use efi_feed::Feed;
use std::alloc::Global;
use tap_core::{Seen, Tap};
use wire_pcap::{CapFault, PcapReader};

/// What came of an input.
pub enum Watched {
    /// A capture, and what it shows.
    Capture(Seen),
    /// No capture: this octet is the first of a header or record that is bad or incomplete.
    BadAt(u64),
}

/// How far an input was read, and what was heard.
#[derive(Drop)]
pub struct Watching {
    reader: PcapReader,
    tap: Tap,
}

impl Watching {
    /// Nothing was fed yet. The buffer has so many octets.
    pub fn new(alloc: Global, most: u32) -> Result<Watching, NoMemory>
        ensures { IfOk result (HasWatched most []) }
    {
        match Tap::new(alloc, most) {
            Ok(tap) => Ok(Watching {
                reader: PcapReader::new(alloc),
                tap,
            }),
            Err(e) => Err(e),
        }
    }
}

impl Feed for Watching {
    // The buffer has so many octets.
    type About = u32;

    type Whole = Watched;

    ghost has_fed = { HasWatched };

    ghost is_whole = { IsWatched };

    // Octets behind the place at which the input is no capture aren't looked at.
    fn feed(&mut self, piece: &[u8]) -> Result<(), NoMemory> {
        match self.reader.feed(piece) {
            Ok(()) => hear_ready(&mut self.reader, &mut self.tap),
            Err(CapFault::BadAt(_)) => Ok(()),
            Err(CapFault::OutOfResources) => Err(NoMemory),
        }
    }

    fn finish(self) -> Result<Watched, NoMemory> {
        let Watching { reader, tap } = self;
        match reader.finish() {
            Ok(()) => Ok(Watched::Capture(tap.finish())),
            Err(CapFault::BadAt(place)) => Ok(Watched::BadAt(place)),
            Err(CapFault::OutOfResources) => Err(NoMemory),
        }
    }
}

/// Has the tap hear all records that are ready.
fn hear_ready(reader: &mut PcapReader, tap: &mut Tap) -> Result<(), NoMemory>
    ensures { (most : ℕ) (fed : List ℕ) (given : List Record) → HasRead fed given reader.old → HasHeard most given tap.old
        → OnOk result (HearsAll most fed reader.new tap.new) }
{
    while let Some(record) = reader.take() {
        match tap.hear(record) {
            Ok(()) => {}
            Err(e) => return Err(e),
        }
    }
    Ok(())
}
