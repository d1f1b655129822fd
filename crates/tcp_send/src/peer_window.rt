//! The window of the peer, and which segments change it (RFC 9293, section 3.10.7.4).
ghost use Rattle.std.specs.Prelude.{◌≡◌};
ghost use Rattle.tcp_send.specs.PeerWindow.{is_newer, updated};

use crate::numbers::{HALF_OF_NUMBERS, distance};

/// How many octets the peer takes (SND.WND), and the number and the acknowledgment of the segment that said so (SND.WL1,
/// SND.WL2).
#[derive(Clone, Copy, PartialEq, Eq, Debug)]
pub struct SendWindow {
    pub size: u32,
    pub seq: u32,
    pub ack: u32,
}

/// Whether a segment with these numbers is newer than the one that gave the window.
fn is_newer(window: SendWindow, seq: u32, ack: u32) -> bool
    ensures { result ≡ is_newer window seq ack }
{
    let later = distance(window.seq, seq);
    if later == 0 {
        return distance(window.ack, ack) < HALF_OF_NUMBERS;
    }
    later < HALF_OF_NUMBERS
}

/// The window after a segment with these numbers.
pub fn updated(window: SendWindow, seq: u32, ack: u32, size: u32) -> SendWindow
    ensures { result ≡ updated window seq ack size }
{
    if is_newer(window, seq, ack) {
        return SendWindow { size, seq, ack };
    }
    window
}
