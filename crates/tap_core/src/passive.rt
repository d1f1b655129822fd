//! What a capture shows that is read passively, and the body of the response on its first connection.
ghost use Rattle.std.specs.Prelude.{ℕ, List, Some};
ghost use Rattle.efi_base.specs.declared.plain.Record.{Record};
ghost use Rattle.tcp_recv.specs.Stream.{Board};
ghost use Rattle.tap_core.specs.Counting.{Counted};
ghost use Rattle.tap_core.specs.Following.{Follows};
ghost use Rattle.tap_core.specs.Seen.{syn_seen};
ghost use Rattle.tap_core.specs.Watching.{IsSeenOf};

use crate::download::Download;
use crate::opening::Syn;
use crate::telling::{Counts, Shown, shown_with};
use efi_base::{Bytes, LoadEnd};

/// What a capture shows, and the octets of the body as far as they came and fit: with `LoadEnd::Success`, the body.
#[derive(Debug, Drop)]
pub struct Seen {
    pub shown: Shown,
    pub body: Bytes,
}

/// What is seen of a download up to its end, with the counts of the records up to that.
pub fn seen_of(download: Download, syn: &Syn, end: LoadEnd, counts: Counts) -> Seen
    ensures { (most irs : ℕ) (board : Board) (upto : List Record) → Follows most irs board download
        → Counted (Some (syn_seen syn.now)) upto counts
        → IsSeenOf most (record { end = end; opening = Some (syn_seen syn.now); board = board; upto = upto }) result }
{
    Seen {
        shown: shown_with(syn, end, download.accepted(), download.ended(), counts),
        body: download.into_body(),
    }
}
