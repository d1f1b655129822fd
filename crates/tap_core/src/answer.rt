//! The segment with which the peer accepts the connection that a SYN asks for (RFC 9293, section 3.5).
ghost use Rattle.std.specs.Prelude.{◌≡◌};
ghost use Rattle.ip_core.specs.Bytes.{bytes_kept};
ghost use Rattle.ip_core.specs.Datagrams.{after_event};
ghost use Rattle.ip_core.specs.Seen.{whole_seen};
ghost use Rattle.wire_l4.specs.Seen.{segment_seen};
ghost use Rattle.tap_core.specs.Answering.{accepting_number};
ghost use Rattle.tap_core.specs.Heard.{segment_in};
ghost use Rattle.tap_core.specs.Hearing.{event_heard, heard_at};
ghost use Rattle.tap_core.specs.Seen.{syn_seen};
ghost use Rattle.tap_core.specs.Segments.{accepts};

use crate::heard::segment_of;
use crate::opening::Syn;
use crate::packets::read_heard;
use efi_base::Record;
use ip_core::{Reasm, Whole};
use wire_l4::{ACK, RST, SYN, Tcp};

/// Takes in the packet of a record, and answers the number of the segment that is heard at it and accepts the connection.
pub fn answer_at(syn: &Syn, reasm: &mut Reasm, record: &Record) -> Option<u32>
    ensures number { result ≡ accepting_number (syn_seen syn.now).seq (heard_at (syn_seen syn.now) reasm.old «record».now) }
    ensures pools { reasm.new ≡ after_event bytes_kept reasm.old (event_heard (syn_seen syn.now) «record».now) }
{
    let Some(packet) = read_heard(syn.station, record.frame.as_slice()) else {
        reasm.tick(record.tick);
        return None;
    };
    match reasm.put(record.tick, &packet) {
        Some(whole) => answer_in(syn, &whole),
        None => None,
    }
}

fn answer_in(syn: &Syn, whole: &Whole<'_>) -> Option<u32>
    ensures { result ≡ accepting_number (syn_seen syn.now).seq (segment_in (syn_seen syn.now) (whole_seen whole.now)) }
{
    let Some(segment) = segment_of(syn, whole) else {
        return None;
    };
    if !is_accepting(syn, &segment) {
        return None;
    }
    Some(segment.seq)
}

/// SYN and ACK, and not RST, and it acknowledges the SYN.
fn is_accepting(syn: &Syn, segment: &Tcp<'_>) -> bool
    ensures { result ≡ accepts (syn_seen syn.now).seq (segment_seen segment.now) }
{
    segment.flags & (SYN | RST | ACK) == SYN | ACK && segment.ack == syn.seq.wrapping_add(1)
}
