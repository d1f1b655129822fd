//! Links in memory: of one form some sends are to fail, and the other never fails.
ghost use Rattle.std.specs.Prelude.{◌≡◌, ◌≢◌, ◌↔◌, ◌<◌, ◌≤◌, [], ◌∷◌, ◌++◌, length, All, IsTrue, IsOk, IsErrOf};
ghost use Rattle.efi_link.specs.Tapes.{FailsNext, IsFrame, Plan, plan_of, wire_of};
ghost use Rattle.efi_link.specs.Wires.{Receives, Sends, with_faults};

use crate::link::Link;
use crate::tape::{Try, copy_frame, frame_at, put_try};
use efi_base::Bytes;
use efi_outside::{Failed, Miss};
use std::alloc::Global;
use std::marker::Model;

/// A link in memory, of which some sends are to fail. It never fails to receive.
#[derive(Drop)]
pub struct MemLink {
    alloc: Global,
    tries: Vec<Try>,
    frames: Vec<Bytes>,
    given: usize,
    failing: Vec<u64>,
}

impl Model for MemLink {
    ghost use Rattle.std.specs.Prelude.{◌≤◌, All, length, vec_len};
    ghost use Rattle.efi_link.specs.Tapes.{Tape, IsFrame};

    ghost Value = { Tape };

    ghost view = { λ s. record { tries = s.tries.items; frames = s.frames.items; given = s.given; failing = s.failing.items } };

    ghost invariant = { λ s. (s.given ≤ vec_len s.frames) × All IsFrame s.frames.items };
}

impl MemLink {
    /// `frames` are those to come, each of 1 to 1,514 octets. The numbers of the sends that are to fail count from 1.
    pub fn new(alloc: Global, frames: Vec<Bytes>, failing: Vec<u64>) -> MemLink
        requires { All IsFrame frames.items }
        ensures { result ≡ record { tries = []; frames = frames.items; given = 0; failing = failing.items } }
    {
        MemLink {
            alloc,
            tries: Vec::new(alloc),
            frames,
            given: 0,
            failing,
        }
    }

    /// The frames that were handed to it.
    pub fn tries(&self) -> &[Try]
        ensures { result.now ≡ self.now.tries }
    {
        self.tries.as_slice()
    }

    /// Whether the next send is to fail.
    fn fails_next(&self) -> bool
        ensures { IsTrue result ↔ FailsNext self.now }
    {
        self.failing.contains(&(self.tries.len() as u64 + 1))
    }
}

impl Link for MemLink {
    ghost wire = { λ s. wire_of s };

    ghost Made = { Plan };

    ghost made = { plan_of };

    fn send(&mut self, frame: &[u8]) -> Result<(), Miss>
        ensures sends { Sends (wire_of self.old) (wire_of self.new) frame.now result }
        ensures made { plan_of self.new ≡ plan_of self.old }

        // It fails exactly where it is to fail, unless the try found no memory.
        ensures fails { IsErrOf result Miss.Failed → FailsNext self.old }
        ensures takes { IsOk result → FailsNext self.old → ⊥ }
    {
        let taken = !self.fails_next();
        let Ok(()) = put_try(self.alloc, &mut self.tries, frame, taken) else {
            return Err(Miss::OutOfResources);
        };
        if taken { Ok(()) } else { Err(Miss::Failed) }
    }

    fn recv(&mut self, room: &mut [u8]) -> Result<usize, Failed>
        requires room { 1514 ≤ length room.old }
        ensures receives { Receives (wire_of self.old) (wire_of self.new) room.new result }
        ensures made { plan_of self.new ≡ plan_of self.old }
        ensures never_fails { IsOk result }
    {
        if self.given == self.frames.len() {
            return Ok(0);
        }
        let count = copy_frame(frame_at(&self.frames, self.given), room);
        self.given += 1;
        Ok(count)
    }
}

/// A link in memory that never fails.
#[derive(Drop)]
pub struct SureLink {
    alloc: Global,
    tries: Vec<Try>,
    frames: Vec<Bytes>,
    given: usize,
}

impl Model for SureLink {
    ghost use Rattle.std.specs.Prelude.{◌≤◌, [], All, vec_len};
    ghost use Rattle.efi_link.specs.Tapes.{Tape, IsFrame};

    ghost Value = { Tape };

    ghost view = { λ s. record { tries = s.tries.items; frames = s.frames.items; given = s.given; failing = [] } };

    ghost invariant = { λ s. (s.given ≤ vec_len s.frames) × All IsFrame s.frames.items };
}

impl SureLink {
    /// `frames` are those to come, each of 1 to 1,514 octets.
    pub fn new(alloc: Global, frames: Vec<Bytes>) -> SureLink
        requires { All IsFrame frames.items }
        ensures { result ≡ record { tries = []; frames = frames.items; given = 0; failing = [] } }
    {
        SureLink {
            alloc,
            tries: Vec::new(alloc),
            frames,
            given: 0,
        }
    }

    /// The frames that were handed to it.
    pub fn tries(&self) -> &[Try]
        ensures { result.now ≡ self.now.tries }
    {
        self.tries.as_slice()
    }
}

impl Link for SureLink {
    ghost wire = { λ s. with_faults (wire_of s) 0 };

    ghost Made = { Plan };

    ghost made = { plan_of };

    fn send(&mut self, frame: &[u8]) -> Result<(), Miss>
        ensures sends { Sends (with_faults (wire_of self.old) 0) (with_faults (wire_of self.new) 0) frame.now result }
        ensures made { plan_of self.new ≡ plan_of self.old }
        ensures never_fails { result ≢ Err Miss.Failed }
    {
        let Ok(()) = put_try(self.alloc, &mut self.tries, frame, true) else {
            return Err(Miss::OutOfResources);
        };
        Ok(())
    }

    fn recv(&mut self, room: &mut [u8]) -> Result<usize, Failed>
        requires room { 1514 ≤ length room.old }
        ensures receives { Receives (with_faults (wire_of self.old) 0) (with_faults (wire_of self.new) 0) room.new result }
        ensures made { plan_of self.new ≡ plan_of self.old }
        ensures never_fails { IsOk result }
    {
        if self.given == self.frames.len() {
            return Ok(0);
        }
        let count = copy_frame(frame_at(&self.frames, self.given), room);
        self.given += 1;
        Ok(count)
    }
}
