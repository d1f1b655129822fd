//! What holds of the packets that a datagram is sent as: each law is the contract of a function that does nothing.
ghost use Rattle.std.specs.Prelude.{◌≡◌, ◌+◌, ◌≤◌, ℕ, [], ◌∷◌, length, false};
ghost use Rattle.ip_core.specs.Datagrams.{datagrams_of};
ghost use Rattle.ip_cut.specs.Cutting.{Sending, cuts_of, packet_with, packets_of, datagram_sent, all_heard, at_last};

/// There are as many packets as are counted: one more than cuts.
pub fn packets_are_counted()
    ensures { (d : Sending) → length (packets_of d) ≡ cuts_of (length d.payload) + 1 }
{}

/// A datagram of at most 1,480 octets of payload is sent as one packet, which isn't a fragment.
pub fn short_datagram_is_one_packet()
    ensures { (d : Sending) → length d.payload ≤ 1480 → packets_of d ≡ packet_with d false 0 d.payload ∷ [] }
{}

/// Who hears the packets in order has exactly this datagram, at the last one of them.
pub fn sent_datagram_is_heard()
    ensures { (d : Sending) (now : ℕ) → length d.payload ≤ 65515
        → datagrams_of (all_heard now (packets_of d)) ≡ at_last (cuts_of (length d.payload)) (datagram_sent d) }
{}
