//! The report of `extract`: what a capture shows, as lines.
ghost use Rattle.std.specs.Prelude.{◌≡◌, length, IfSome};
ghost use Rattle.tcp_recv.specs.Stream.{front, is_over};
ghost use Rattle.tap_core.specs.Shows.{Telling};
ghost use Rattle.tap_core.specs.Shown.{Tells};
ghost use Rattle.boot_top.specs.Reports.{report_of};

use doc_text::{DownloadEnd, Report};
use tap_core::Shown;

/// The report of what a capture shows: there is no lease and no URI in it.
pub fn report_of(shown: &Shown) -> Report
    ensures { (t : Telling) → Tells t.end t.opening (length (front t.board.kept)) (is_over t.board) t.upto shown.now → result ≡ report_of t }
{
    Report {
        lease: None,
        uri: None,
        peer: shown.peer,
        accepted: shown.accepted,
        fin: shown.fin,
        outcome: DownloadEnd::Load(shown.end),
        tick: shown.tick,
        sent: shown.sent,
        heard: shown.heard,
    }
}
