//! What holds of the driver at every state that its calls reach: each law is the contract of a function that does nothing.
ghost use Rattle.std.specs.Prelude.{◌≡◌, Some, filter};
ghost use Rattle.efi_base.specs.declared.units.IpPacket.{IpPacket};
ghost use Rattle.efi_book.specs.Aborts.{IsRising};
ghost use Rattle.wire_l4.specs.Datagram.{Datagram as Text};
ghost use Rattle.drv_udp4.specs.Hearing.{hearers};
ghost use Rattle.drv_udp4.specs.Others.{is_other};
ghost use Rattle.drv_udp4.specs.Udps.{UdpState, heard, heard_text, text_of};

/// A datagram ends only receive tokens of children that hear it: every other pending token stays, in its order. That
/// tickets rise is a law of `efi_book` over every list of calls.
pub fn a_datagram_ends_receives_of_its_hearers_alone()
    ensures { (s : UdpState) (p : IpPacket) (d : Text) → IsRising s.drive.tokens → text_of p ≡ Some d
        → filter (is_other (hearers (heard_text s p d) s.drive.family)) (heard s p).drive.tokens.pending
        ≡ filter (is_other (hearers (heard_text s p d) s.drive.family)) s.drive.tokens.pending }
{}
