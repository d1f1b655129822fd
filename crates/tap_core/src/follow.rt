//! What a record behind the one that accepts the connection adds to the download.
ghost use Rattle.std.specs.Prelude.{◌≡◌, ◌<◌, ℕ, IfOk, vec_len};
ghost use Rattle.ip_core.specs.Bytes.{bytes_kept};
ghost use Rattle.ip_core.specs.Datagrams.{after_event};
ghost use Rattle.ip_core.specs.Seen.{whole_seen};
ghost use Rattle.tcp_recv.specs.Stream.{Board};
ghost use Rattle.tap_core.specs.Connections.{after_heard, is_reset_at};
ghost use Rattle.tap_core.specs.Following.{Follows};
ghost use Rattle.tap_core.specs.Heard.{segment_in};
ghost use Rattle.tap_core.specs.Hearing.{event_heard, heard_at};
ghost use Rattle.tap_core.specs.Seen.{syn_seen};

use crate::download::Download;
use crate::heard::segment_of;
use crate::opening::Syn;
use crate::packets::read_heard;
use efi_base::{NoMemory, Record};
use ip_core::{Reasm, Whole};

/// Takes in a record, and answers whether the segment that is heard at it resets the connection.
pub fn take_in(
    syn: &Syn,
    reasm: &mut Reasm,
    download: &mut Download,
    record: &Record,
) -> Result<bool, NoMemory>
    ensures pools { reasm.new ≡ after_event bytes_kept reasm.old (event_heard (syn_seen syn.now) «record».now) }
    ensures follows { (most irs : ℕ) (board : Board) → 0 < vec_len download.old.room → Follows most irs board download.old
        → IfOk result (λ reset. (reset ≡ is_reset_at irs board (heard_at (syn_seen syn.now) reasm.old «record».now))
        × Follows most irs (after_heard irs board (heard_at (syn_seen syn.now) reasm.old «record».now)) download.new) }
    ensures room { vec_len download.new.room ≡ vec_len download.old.room }
{
    let Some(packet) = read_heard(syn.station, record.frame.as_slice()) else {
        reasm.tick(record.tick);
        return Ok(false);
    };
    match reasm.put(record.tick, &packet) {
        Some(whole) => take_datagram(syn, download, &whole),
        None => Ok(false),
    }
}

/// The same for the datagram that exists at a record.
fn take_datagram(syn: &Syn, download: &mut Download, whole: &Whole<'_>) -> Result<bool, NoMemory>
    ensures follows { (most irs : ℕ) (board : Board) → 0 < vec_len download.old.room → Follows most irs board download.old
        → IfOk result (λ reset. (reset ≡ is_reset_at irs board (segment_in (syn_seen syn.now) (whole_seen whole.now)))
        × Follows most irs (after_heard irs board (segment_in (syn_seen syn.now) (whole_seen whole.now))) download.new) }
    ensures room { vec_len download.new.room ≡ vec_len download.old.room }
{
    match segment_of(syn, whole) {
        Some(segment) => download.on_segment(&segment),
        None => Ok(false),
    }
}
