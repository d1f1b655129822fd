//! What holds of the definitions, for every list of packets and ticks: each law is the contract of a function that
//! does nothing.
ghost use Rattle.std.specs.Prelude.{◌≡◌, ◌++◌, ◌∷◌, ℕ, List, [], Option};
ghost use Rattle.efi_base.specs.declared.plain.Record.{Record};
ghost use Rattle.wire_ip4.specs.Packet.{Packet};
ghost use Rattle.ip_core.specs.Pools.{Pool};
ghost use Rattle.ip_core.specs.Bytes.{Bytes, bytes_kept};
ghost use Rattle.ip_core.specs.Datagrams.{Event, fragments_kept, event_datagram, event_datagrams, after_event, datagrams_of};
ghost use Rattle.ip_core.specs.Frames.{event_of, frame_datagrams, frame_pools};
ghost use Rattle.ip_core.specs.Standing.{StandFor};

/// Pools of bytes that stand for pools of fragments give the same datagram at each event, and stand for them behind
/// it.
pub fn bytes_stand_for_fragments()
    ensures { (e : Event) (pools : List (Pool (List Packet))) (slots : List (Pool Bytes)) → StandFor pools slots
        → (event_datagram bytes_kept slots e ≡ event_datagram fragments_kept pools e)
        × StandFor (after_event fragments_kept pools e) (after_event bytes_kept slots e) }
{}

/// A reassembly that keeps bytes gives, at each packet, the datagram that exists by the definition over all packets
/// and ticks so far.
pub fn gives_datagrams()
    ensures { (events : List Event) → event_datagrams bytes_kept [] events ≡ datagrams_of events }
{}

/// The datagrams of a capture come record by record: what one more record adds depends on the pools that the earlier
/// ones left open.
pub fn datagrams_by_records()
    ensures datagrams { (counts : List ℕ → Option Packet) (records : List Record) (r : Record)
        → frame_datagrams counts (records ++ r ∷ [])
        ≡ frame_datagrams counts records ++ event_datagram fragments_kept (frame_pools counts records) (event_of counts r) ∷ [] }
    ensures pools { (counts : List ℕ → Option Packet) (records : List Record) (r : Record)
        → frame_pools counts (records ++ r ∷ []) ≡ after_event fragments_kept (frame_pools counts records) (event_of counts r) }
{}
