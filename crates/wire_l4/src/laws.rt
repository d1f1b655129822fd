//! What holds of the formats, whoever reads or writes them: each law is the contract of a function that does nothing.
ghost use Rattle.std.specs.Prelude.{◌≡◌, ℕ, Some};
ghost use Rattle.wire_l4.specs.Datagram.{Datagram, IsDatagram, datagram_of, datagram_text};
ghost use Rattle.wire_l4.specs.Segment.{Segment, flag_at, segment_of};
ghost use Rattle.wire_l4.specs.Spelling.{IsSegment, segment_text};

use crate::segment::{ACK, FIN, PSH, RST, SYN};

/// Each flag is the bit at its place.
pub fn flags_are_at_their_places()
    ensures fin { FIN ≡ flag_at 0 }
    ensures syn { SYN ≡ flag_at 1 }
    ensures rst { RST ≡ flag_at 2 }
    ensures psh { PSH ≡ flag_at 3 }
    ensures ack { ACK ≡ flag_at 4 }
{}

/// What `write_udp` writes of a datagram, `read_udp` reads as that datagram.
pub fn written_datagram_is_read_again()
    ensures { (src dest : ℕ) (d : Datagram) → IsDatagram d → datagram_of src dest (datagram_text src dest d) ≡ Some d }
{}

/// What `write_tcp` writes of a segment, `read_tcp` reads as that segment.
pub fn written_segment_is_read_again()
    ensures { (src dest : ℕ) (s : Segment) → IsSegment s → segment_of src dest (segment_text src dest s) ≡ Some s }
{}
