//! A tap on the station's link: it hears the records of a capture one after the other, and tells at the end what they show
//! of their first connection. It keeps no list of them: in front of the segment that asks for a connection it keeps fragments
//! whose datagrams may not be whole, and a count for each sender.
ghost use Rattle.std.specs.Prelude.{◌≡◌, ◌∷◌, ◌++◌, [], ℕ, List, None, false, IfOk, IsErr, OnErr, OnOk};
ghost use Rattle.efi_base.specs.declared.plain.Record.{Record};
ghost use Rattle.efi_base.specs.declared.load_end.LoadEnd.TheVariants.{NoConnection};
ghost use Rattle.tap_core.specs.Shown.{Tells};
ghost use Rattle.tap_core.specs.Tapping.{HasHeard, IsBroken};
ghost use Rattle.tap_core.specs.Watching.{IsSeen};

use crate::passive::Seen;
use crate::stages::{Stage, first_stage, next_stage, seen_at};
use efi_base::{NoMemory, Record};
use std::alloc::Global;
use std::mem;

/// A tap that has heard the records so far.
#[derive(Drop)]
pub struct Tap {
    alloc: Global,
    most: u32,
    stage: Stage,
}

impl Tap {
    /// A tap that has heard nothing, with a buffer of so many octets.
    pub fn new(alloc: Global, most: u32) -> Result<Tap, NoMemory>
        ensures { IfOk result (HasHeard most []) }
    {
        let stage = first_stage(alloc)?;
        Ok(Tap { alloc, most, stage })
    }

    /// Hears the next record. Records behind the download's end change nothing. Once memory was refused, it is at each record,
    /// and so is a record that 64 bits no longer count.
    pub fn hear(&mut self, record: Record) -> Result<(), NoMemory>
        ensures heard { (most : ℕ) (records : List Record) → HasHeard most records self.old
            → OnOk result (HasHeard most (records ++ «record» ∷ []) self.new) }
        ensures refused { OnErr result (IsBroken self.new) }
        ensures stays { IsBroken self.old → IsErr result }
    {
        let stage = mem::replace(&mut self.stage, Stage::Broken);
        self.stage = next_stage(self.alloc, self.most, stage, record)?;
        Ok(())
    }

    /// What the records show, and the body of the response as far as it came and fits the buffer. Once memory was refused, nothing
    /// is shown of a connection.
    pub fn finish(self) -> Seen
        ensures seen { (most : ℕ) (records : List Record) → HasHeard most records self → IsSeen most records result }
        ensures broken { IsBroken self → Tells NoConnection None 0 false [] result.shown × (result.body ≡ []) }
    {
        let Tap { alloc, stage, .. } = self;
        seen_at(alloc, stage)
    }
}
