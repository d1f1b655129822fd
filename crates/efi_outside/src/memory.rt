//! Sources and sinks in memory: of two forms some calls are to fail, and the other two never fail.
ghost use Rattle.std.specs.Prelude.{◌≡◌, ◌≢◌, ◌↔◌, ◌<◌, ◌≤◌, min, ℕ, List, [], ◌++◌, Some, length, take, drop, IfOk, OnErr, IsErr, IsErrOf, is_ok, if◌then◌else◌};
ghost use Rattle.std.specs.Io.{ReadsAtMost, WritesAtMost};
ghost use Rattle.std.specs.Io.KnownBytes.{ReadConsumes, WriteAppends};
ghost use Rattle.efi_outside.specs.Causes.{HasCause, HasMissCause};
ghost use Rattle.efi_outside.specs.Memory.{FailsNext, after_call, after_fault};

use crate::fault::{Failed, Miss};
use crate::outside::{Sink, Source};
use crate::plan::FaultPlan;
use std::alloc::Global;
use std::marker::Model;

/// Copies as many of the octets as the room takes into its front, and answers how many.
fn copy_front(octets: &[u8], room: &mut [u8]) -> usize
    ensures count { result ≡ min (length octets.now) (length room.old) }
    ensures copied { take result room.new ≡ take result octets.now }
    ensures behind { drop result room.new ≡ drop result room.old }
{
    let count = octets.len().min(room.len());
    room[..count].copy_from_slice(&octets[..count]);
    count
}

/// Octets in memory, of which some reads are to fail.
#[derive(Debug, Drop)]
pub struct MemSource {
    octets: Vec<u8>,
    given: usize,
    plan: FaultPlan,
}

impl Model for MemSource {
    ghost use Rattle.std.specs.Prelude.{◌≤◌, drop, length};
    ghost use Rattle.efi_outside.specs.Memory.{Memory};

    ghost Value = { Memory };

    ghost view = { λ s. record {
      octets = drop s.given s.octets.items;
      failing = s.plan.failing.items;
      calls = s.plan.calls;
      faults = s.plan.faults;
    } };

    ghost invariant = { λ s. s.given ≤ length s.octets.items };
}

impl MemSource {
    /// The numbers of the reads that are to fail count from 1.
    pub fn new(octets: Vec<u8>, failing: Vec<u64>) -> MemSource
        ensures { result ≡ record { octets = octets.items; failing = failing.items; calls = 0; faults = 0 } }
    {
        MemSource {
            octets,
            given: 0,
            plan: FaultPlan::new(failing),
        }
    }

    /// The octets that weren't read yet.
    pub fn octets(&self) -> &[u8]
        ensures { result.now ≡ self.now.octets }
    {
        rest_of(&self.octets, self.given)
    }
}

/// The octets from an index on.
fn rest_of(octets: &Vec<u8>, given: usize) -> &[u8]
    requires { given ≤ length octets.now.items }
    ensures { result.now ≡ drop given octets.now.items }
{
    &octets[given..]
}

impl Source for MemSource {
    ghost left = { λ s. Some s.octets };

    ghost faults = { λ s. s.faults };

    fn read(&mut self, room: &mut [u8]) -> Result<usize, Failed>
        ensures bound { ReadsAtMost result room.new }
        ensures bytes { ReadConsumes (Some self.old.octets) (Some self.new.octets) result room.new }
        ensures cause { HasCause self.old.faults self.new.faults result }

        // It fails exactly where it is to fail, and else gives as many octets as there are and fit.
        ensures fails { IsErr result ↔ FailsNext self.old }
        ensures failed { OnErr result (self.new ≡ after_fault self.old) }
        ensures given { IfOk result (λ n. n ≡ min (length self.old.octets) (length room.old)) }
        ensures rest { IfOk result (λ n. self.new ≡ after_call self.old (drop n self.old.octets)) }

        // What is behind the octets that it gives stays.
        ensures behind { IfOk result (λ n. drop n room.new ≡ drop n room.old) }
        ensures room_kept { OnErr result (room.new ≡ room.old) }
    {
        if self.plan.fails_next() {
            self.plan.count_fault();
            return Err(Failed);
        }
        let count = copy_front(rest_of(&self.octets, self.given), room);
        self.given += count;
        self.plan.count_call();
        Ok(count)
    }
}

/// Octets in memory, of which every read succeeds.
#[derive(Debug, Drop)]
pub struct SureSource {
    octets: Vec<u8>,
    given: usize,
}

impl Model for SureSource {
    ghost use Rattle.std.specs.Prelude.{◌≤◌, ℕ, List, drop, length};

    ghost Value = { List ℕ };

    ghost view = { λ s. drop s.given s.octets.items };

    ghost invariant = { λ s. s.given ≤ length s.octets.items };
}

impl SureSource {
    pub fn new(octets: Vec<u8>) -> SureSource
        ensures { result ≡ octets.items }
    {
        SureSource { octets, given: 0 }
    }

    /// The octets that weren't read yet.
    pub fn octets(&self) -> &[u8]
        ensures { result.now ≡ self.now }
    {
        rest_of(&self.octets, self.given)
    }
}

impl Source for SureSource {
    ghost left = { λ s. Some s };

    ghost faults = { λ _. 0 };

    fn read(&mut self, room: &mut [u8]) -> Result<usize, Failed>
        ensures bound { ReadsAtMost result room.new }
        ensures bytes { ReadConsumes (Some self.old) (Some self.new) result room.new }
        ensures cause { HasCause 0 0 result }

        // It gives as many octets as there are and fit.
        ensures given { result ≡ Ok (min (length self.old) (length room.old)) }
        ensures rest { IfOk result (λ n. self.new ≡ drop n self.old) }
        ensures behind { IfOk result (λ n. drop n room.new ≡ drop n room.old) }
    {
        let count = copy_front(rest_of(&self.octets, self.given), room);
        self.given += count;
        Ok(count)
    }
}

/// Puts a piece behind the octets that are held, and answers its length.
fn store(octets: &mut Vec<u8>, piece: &[u8]) -> Result<usize, Miss>
    ensures held { octets.new.items ≡ (if is_ok result then octets.old.items ++ piece.now else octets.old.items) }
    ensures whole { IfOk result (λ n. n ≡ length piece.now) }
    ensures never_fails { result ≢ Err Miss.Failed }
{
    if octets.extend_from_slice(piece).is_err() {
        return Err(Miss::OutOfResources);
    }
    Ok(piece.len())
}

/// A store in memory, of which some writes are to fail.
#[derive(Debug, Drop)]
pub struct MemSink {
    octets: Vec<u8>,
    plan: FaultPlan,
}

impl Model for MemSink {
    ghost use Rattle.efi_outside.specs.Memory.{Memory};

    ghost Value = { Memory };

    ghost view = { λ s. record {
      octets = s.octets.items;
      failing = s.plan.failing.items;
      calls = s.plan.calls;
      faults = s.plan.faults;
    } };
}

impl MemSink {
    /// The numbers of the writes that are to fail count from 1. It takes no memory yet.
    pub fn new(alloc: Global, failing: Vec<u64>) -> MemSink
        ensures { result ≡ record { octets = []; failing = failing.items; calls = 0; faults = 0 } }
    {
        MemSink {
            octets: Vec::new(alloc),
            plan: FaultPlan::new(failing),
        }
    }

    /// The octets that were written.
    pub fn octets(&self) -> &[u8]
        ensures { result.now ≡ self.now.octets }
    {
        self.octets.as_slice()
    }
}

impl Sink for MemSink {
    ghost held = { λ s. Some s.octets };

    ghost faults = { λ s. s.faults };

    fn write(&mut self, piece: &[u8]) -> Result<usize, Miss>
        ensures bound { WritesAtMost result piece.now }
        ensures moves { IfOk result (λ n. 0 < length piece.now → 0 < n) }
        ensures bytes { WriteAppends (Some self.old.octets) (Some self.new.octets) result piece.now }
        ensures cause { HasMissCause self.old.faults self.new.faults result }

        // It fails exactly where it is to fail, and else takes the whole piece. A write that wants memory isn't counted.
        ensures fails { IsErrOf result Miss.Failed ↔ FailsNext self.old }
        ensures failed { IsErrOf result Miss.Failed → self.new ≡ after_fault self.old }
        ensures unchanged { IsErrOf result Miss.OutOfResources → self.new ≡ self.old }
        ensures whole { IfOk result (λ n. n ≡ length piece.now) }
        ensures held { IfOk result (λ _. self.new ≡ after_call self.old (self.old.octets ++ piece.now)) }
    {
        if self.plan.fails_next() {
            self.plan.count_fault();
            return Err(Miss::Failed);
        }
        let count = store(&mut self.octets, piece)?;
        self.plan.count_call();
        Ok(count)
    }
}

/// A store in memory, of which no write fails but for want of memory.
#[derive(Debug, Drop)]
pub struct SureSink {
    octets: Vec<u8>,
}

impl Model for SureSink {
    ghost use Rattle.std.specs.Prelude.{ℕ, List};

    ghost Value = { List ℕ };

    ghost view = { λ s. s.octets.items };
}

impl SureSink {
    /// It takes no memory yet.
    pub fn new(alloc: Global) -> SureSink
        ensures { result ≡ [] }
    {
        SureSink {
            octets: Vec::new(alloc),
        }
    }

    /// The octets that were written.
    pub fn octets(&self) -> &[u8]
        ensures { result.now ≡ self.now }
    {
        self.octets.as_slice()
    }
}

impl Sink for SureSink {
    ghost held = { λ s. Some s };

    ghost faults = { λ _. 0 };

    fn write(&mut self, piece: &[u8]) -> Result<usize, Miss>
        ensures bound { WritesAtMost result piece.now }
        ensures moves { IfOk result (λ n. 0 < length piece.now → 0 < n) }
        ensures bytes { WriteAppends (Some self.old) (Some self.new) result piece.now }
        ensures cause { HasMissCause 0 0 result }

        // It takes the whole piece.
        ensures never_fails { result ≢ Err Miss.Failed }
        ensures whole { IfOk result (λ n. n ≡ length piece.now) }
        ensures held { self.new ≡ (if is_ok result then self.old ++ piece.now else self.old) }
    {
        store(&mut self.octets, piece)
    }
}
