//! What the station hears from its peer: the segments of datagrams that go from the one's port to the other's. What they
//! mean isn't here.
ghost use Rattle.std.specs.Prelude.{◌≡◌, ◌∷◌, [], option_map};
ghost use Rattle.ip_core.specs.Seen.{whole_seen};
ghost use Rattle.wire_l4.specs.Seen.{segment_seen};
ghost use Rattle.tap_core.specs.Heard.{segment_in};
ghost use Rattle.tap_core.specs.Hearing.{pools_from};
ghost use Rattle.tap_core.specs.Seen.{syn_seen};

use crate::opening::{Syn, TCP};
use crate::packets::read_heard;
use efi_base::Record;
use ip_core::{Reasm, Whole};
use wire_l4::{Tcp, read_tcp};

/// The segment of a datagram, if that goes from the peer to the station and its checksum is right.
#[tactic(auto, unfolding(crate::specs::Heard::segment_in))]
pub fn segment_of<'a>(syn: &Syn, whole: &Whole<'a>) -> Option<Tcp<'a>>
    ensures { option_map segment_seen result ≡ segment_in (syn_seen syn.now) (whole_seen whole.now) }
{
    if whole.proto != TCP {
        return None;
    }
    if whole.src != syn.dest {
        return None;
    }
    if whole.dest != syn.src {
        return None;
    }
    let Ok(segment) = read_tcp(whole.src, whole.dest, whole.payload) else {
        return None;
    };
    if segment.sport != syn.dport {
        return None;
    }
    if segment.dport != syn.sport {
        return None;
    }
    Some(segment)
}

/// Takes in the packet of a record, of which nothing is wanted but what later ones make with it.
pub fn pass(syn: &Syn, reasm: &mut Reasm, record: &Record)
    ensures { reasm.new ≡ pools_from (syn_seen syn.now) reasm.old («record».now ∷ []) }
{
    match read_heard(syn.station, record.frame.as_slice()) {
        Some(packet) => {
            let _ = reasm.put(record.tick, &packet);
        }
        None => reasm.tick(record.tick),
    }
}
