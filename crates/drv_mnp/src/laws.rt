//! What holds of the driver at every state that its calls reach: each law is the contract of a function that does nothing.
ghost use Rattle.std.specs.Prelude.{◌≡◌, ℕ, List, Some, filter};
ghost use Rattle.wire_link.specs.Ether.{Frame, frame_of};
ghost use Rattle.efi_book.specs.Aborts.{IsRising};
ghost use Rattle.drv_mnp.specs.Hearing.{hearers};
ghost use Rattle.drv_mnp.specs.Mnps.{MnpState, heard};
ghost use Rattle.drv_mnp.specs.Others.{is_other};

/// A frame ends only receive tokens of children that hear it: every other pending token stays, in its order. That tickets
/// rise is a law of `efi_book` over every list of calls.
pub fn a_frame_ends_receives_of_its_hearers_alone()
    ensures { (s : MnpState) (octets : List ℕ) (f : Frame) → IsRising s.drive.tokens → frame_of octets ≡ Some f
        → filter (is_other (hearers s.mac.0 f s.drive.family)) (heard s octets).drive.tokens.pending
        ≡ filter (is_other (hearers s.mac.0 f s.drive.family)) s.drive.tokens.pending }
{}
