//! What sends and receives Ethernet frames, one at a time. It counts its faults, and may tell its frames.
ghost use Rattle.std.specs.Prelude.{◌≡◌, ◌≤◌, length};
ghost use Rattle.efi_link.specs.Wires.{Wire, Receives, Sends};

use efi_outside::{Failed, Miss};

/// The octets of the longest frame, without its check sequence: room for a receive.
pub const LEAST_ROOM: usize = 1_514;

/// What sends and receives frames.
pub trait Link {
    /// What it shows of its frames, moment and faults.
    ghost wire: { Self → Wire };

    /// What a link of this type is made with.
    ghost Made: { Type 0 };

    /// What it was made with, which no call changes.
    ghost made: { Self → Made };

    /// Sends a frame. A frame whose send failed is lost.
    fn send(&mut self, frame: &[u8]) -> Result<(), Miss>
        ensures sends { Sends (wire self.old) (wire self.new) frame.now result }
        ensures made { made self.new ≡ made self.old };

    /// Moves the next frame that is due into the front of the room, and answers its octets. `Ok(0)` says that none is due.
    fn recv(&mut self, room: &mut [u8]) -> Result<usize, Failed>
        requires room { 1514 ≤ length room.old }
        ensures receives { Receives (wire self.old) (wire self.new) room.new result }
        ensures made { made self.new ≡ made self.old };
}
