//! What holds of the driver at every state that its calls reach: each law is the contract of a function that does nothing.
ghost use Rattle.std.specs.Prelude.{◌≡◌, ℕ, Some, filter};
ghost use Rattle.efi_book.specs.Aborts.{IsRising};
ghost use Rattle.ip_core.specs.Bytes.{bytes_kept};
ghost use Rattle.ip_core.specs.Pools.{Datagram, datagram_at};
ghost use Rattle.wire_ip4.specs.Packet.{Packet};
ghost use Rattle.drv_ip4.specs.Hearing.{hearers};
ghost use Rattle.drv_ip4.specs.Icmps.{heard_of};
ghost use Rattle.drv_ip4.specs.Ips.{IpState, packet_heard};
ghost use Rattle.drv_ip4.specs.Others.{is_other};

/// A packet ends only receive tokens of children that hear its datagram: every other pending token stays, in its order.
/// That tickets rise is a law of `efi_book` over every list of calls.
pub fn a_packet_ends_receives_of_its_hearers_alone()
    ensures { (s : IpState) (now : ℕ) (p : Packet) (d : Datagram) → IsRising s.drive.tokens → datagram_at bytes_kept s.pools now p ≡ Some d
        → filter (is_other (hearers s.net.home (heard_of d).packet s.drive.family)) (packet_heard s now p).drive.tokens.pending
        ≡ filter (is_other (hearers s.net.home (heard_of d).packet s.drive.family)) s.drive.tokens.pending }
{}
