//! What holds of the format, whoever reads or writes it: the contract of a function that does nothing.
ghost use Rattle.std.specs.Prelude.{◌≡◌, Some, true};
ghost use Rattle.wire_tftp.specs.Packets.{Message, packet_of};
ghost use Rattle.wire_tftp.specs.Spelling.{Fits, IsKept, is_sendable, packet_text};

/// What `write_packet` writes of a packet, `read_packet` reads as that packet.
pub fn written_packet_is_read_again()
    ensures { (m : Message) → is_sendable m ≡ true → IsKept m → Fits m → packet_of (packet_text m) ≡ Some m }
{}
