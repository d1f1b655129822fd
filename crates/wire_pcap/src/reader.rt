//! The reader of captures, which is fed their octets.
ghost use Rattle.std.specs.Prelude.{◌≡◌, ◌⊎◌, ◌<◌, ℕ, List, [], ◌∷◌, ◌++◌, Some, None, Ok, Err, OnOk, IfErr, IfSome, IfNone};
ghost use Rattle.efi_base.specs.declared.plain.Record.{Record};
ghost use Rattle.wire_pcap.specs.Place.{IsCaptureFront};
ghost use Rattle.wire_pcap.specs.Reading.{Reading, held, new_stage, HasRead, Reads, Gives, IsLonger, IsNewFault, HasStopped, GivesLeft, IsWhole, IsUnfinished};
ghost use Rattle.wire_pcap.specs.declared.fault.CapFault.{CapFault};

use crate::clock::Clock;
use crate::fault::CapFault;
use crate::stage::{Stage, read_piece};
use efi_base::Record;
use std::alloc::Global;
use std::collections::VecDeque;
use std::marker::Model;

/// A reader of a capture, which is fed its octets. It keeps those that aren't a whole record yet.
#[derive(Drop)]
pub struct PcapReader {
    alloc: Global,
    octets: Vec<u8>,
    stage: Stage,
    ready: VecDeque<Record>,
    fault: Option<CapFault>,
}

impl Model for PcapReader {
    ghost use Rattle.wire_pcap.specs.Reading.{Reading};

    ghost Value = { Reading };

    ghost use Rattle.wire_pcap.specs.Inside.{reading_of, IsSound};

    ghost view = { reading_of };

    ghost invariant = { IsSound };
}

impl PcapReader {
    /// A reader to which nothing was fed.
    pub fn new(alloc: Global) -> PcapReader
        ensures empty { result ≡ record { stage = new_stage; rest = []; ready = []; fault = None } }
        ensures reading { HasRead [] [] result }
    {
        PcapReader {
            alloc,
            octets: Vec::new(alloc),
            stage: Stage {
                form: None,
                place: 0,
                clock: Clock::new(),
            },
            ready: VecDeque::new(alloc),
            fault: None,
        }
    }

    /// Takes the next octets of the capture, and makes the records that are whole now, also those in front of a fault.
    pub fn feed(&mut self, piece: &[u8]) -> Result<(), CapFault>
        // Octets that go on to a capture are read, and those that can't are refused at once, with their place.
        ensures ok { OnOk result ((self.old.fault ≡ None) × (self.new.fault ≡ None) × Reads piece.now self.old self.new) }
        ensures front { OnOk result ((fed : List ℕ) (given : List Record) → HasRead fed given self.old → IsCaptureFront (fed ++ piece.now)) }
        ensures cause { IfErr result (λ e. (fed : List ℕ) (given : List Record) → HasRead fed given self.old → IsNewFault (fed ++ piece.now) e) }

        // Records in front of a fault stay ready. It is told again for ever, and nothing that is fed then counts.
        ensures stops { IfErr result (λ e. (fed : List ℕ) (given : List Record) → HasRead fed given self.old → HasStopped (fed ++ piece.now) given self.new e) }
        ensures stays { (fed : List ℕ) (given : List Record) (e : CapFault) → HasStopped fed given self.old e → HasStopped (fed ++ piece.now) given self.new e }
        ensures fault { IfErr result (λ e. self.old.fault ≡ None → (self.new.fault ≡ Some e) × (self.new.rest ≡ [])) }
        ensures told { (e : CapFault) → self.old.fault ≡ Some e → (result ≡ Err e) × (self.new ≡ self.old) }
        ensures kept { IsLonger self.old.ready self.new.ready }
        ensures few { held self.new < 262160 }
    {
        if let Some(fault) = self.fault {
            return Err(fault);
        }
        match read_piece(
            self.alloc,
            &mut self.octets,
            piece,
            self.stage,
            &mut self.ready,
        ) {
            Ok(stage) => {
                self.stage = stage;
                Ok(())
            }
            Err(fault) => {
                self.octets.clear();
                self.fault = Some(fault);
                Err(fault)
            }
        }
    }

    /// Moves out the oldest record that is ready, also after a fault.
    pub fn take(&mut self) -> Option<Record>
        ensures some { IfSome result (λ r. (self.old.ready ≡ r ∷ self.new.ready) × Gives r self.old self.new) }
        ensures left { IfSome result (λ r. GivesLeft r self.old self.new) }
        ensures none { IfNone result ((self.old.ready ≡ []) × (self.new ≡ self.old)) }
        ensures fault { self.new.fault ≡ self.old.fault }
        ensures few { held self.new < 262160 }
    {
        let record = self.ready.pop_front()?;
        Some(record)
    }

    /// Whether all that was fed is a capture.
    pub fn finish(&self) -> Result<(), CapFault>
        ensures whole { OnOk result ((self.now.fault ≡ None)
            × ((fed : List ℕ) (given : List Record) → HasRead fed given self.now → IsWhole fed given self.now.ready)) }
        ensures refused { IfErr result (λ e. (fed : List ℕ) (given : List Record) → HasRead fed given self.now → IsUnfinished fed e) }
        ensures told { (e : CapFault) → self.now.fault ≡ Some e → result ≡ Err e }
    {
        if let Some(fault) = self.fault {
            return Err(fault);
        }
        if let None = self.stage.form {
            return Err(CapFault::BadAt(0));
        }
        let rest = self.octets.len();
        if rest > 0 {
            return Err(CapFault::BadAt(self.stage.place));
        }
        Ok(())
    }
}
