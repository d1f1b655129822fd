//! The outside: what gives octets and what takes them. Each counts its faults, and may tell its octets.
ghost use Rattle.std.specs.Prelude.{◌≡◌, ◌<◌, ℕ, List, Option, length, IfOk, OnOk};
ghost use Rattle.std.specs.Io.{ReadsAtMost, WritesAtMost};
ghost use Rattle.std.specs.Io.KnownBytes.{Appends, ReadConsumes, WriteAppends};
ghost use Rattle.efi_outside.specs.Causes.{AppendsFront, HasCause, HasMissCause};

use crate::fault::{Failed, Miss};

/// What gives octets.
pub trait Source {
    /// The octets still to come, where it tells them.
    ghost left: { Self → Option (List ℕ) };

    /// How often it failed, which stays at its type's end.
    ghost faults: { Self → ℕ };

    /// Moves the first octets that are left into the front of the room. `Ok(0)` with room is the end of input.
    fn read(&mut self, room: &mut [u8]) -> Result<usize, Failed>
        ensures bound { ReadsAtMost result room.new }
        ensures bytes { ReadConsumes (left self.old) (left self.new) result room.new }
        ensures cause { HasCause (faults self.old) (faults self.new) result };
}

/// What takes octets.
pub trait Sink {
    /// The octets taken, where it tells them.
    ghost held: { Self → Option (List ℕ) };

    /// How often it failed, which stays at its type's end.
    ghost faults: { Self → ℕ };

    /// Takes some octets at the front of the piece, at least one where there is one.
    fn write(&mut self, piece: &[u8]) -> Result<usize, Miss>
        ensures bound { WritesAtMost result piece.now }
        ensures moves { IfOk result (λ n. 0 < length piece.now → 0 < n) }
        ensures bytes { WriteAppends (held self.old) (held self.new) result piece.now }
        ensures cause { HasMissCause (faults self.old) (faults self.new) result };
}

/// Has the sink take all of the octets. After an error it has taken a front of them.
pub fn write_all<K: Sink>(sink: &mut K, bytes: &[u8]) -> Result<(), Miss>
    ensures all { OnOk result (Appends (K.held sink.old) (K.held sink.new) bytes.now) }
    ensures front { AppendsFront (K.held sink.old) (K.held sink.new) bytes.now }
    ensures cause { HasMissCause (K.faults sink.old) (K.faults sink.new) result }
{
    let mut done = 0;
    while done < bytes.len() {
        done += sink.write(&bytes[done..])?;
    }
    Ok(())
}
