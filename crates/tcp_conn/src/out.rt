//! Segments that go out.
ghost use Rattle.std.specs.Prelude.{◌≡◌};
ghost use Rattle.tcp_conn.specs.Owed.{reset_out, cut_flags};

use arrayvec::ArrayVec;
use wire_l4::{ACK, FIN, PSH, RST};

/// The most octets of a segment.
const MOST_OCTETS: usize = 1_460;

/// A segment without its ports. `mss` and `shift` are its options, and the window is the field's number.
#[derive(Debug, Drop)]
pub struct SegOut {
    pub seq: u32,
    pub ack: u32,
    pub flags: u8,
    pub window: u16,
    pub mss: Option<u16>,
    pub shift: Option<u8>,
    pub payload: ArrayVec<u8, MOST_OCTETS>,
}

/// A RST.
pub fn reset_out(seq: u32) -> SegOut
    ensures { result ≡ reset_out seq }
{
    SegOut {
        seq,
        ack: 0,
        flags: RST,
        window: 0,
        mss: None,
        shift: None,
        payload: ArrayVec::new(),
    }
}

/// The flags of a segment of the stream.
pub fn cut_flags(psh: bool, fin: bool) -> u8
    ensures { result ≡ cut_flags psh fin }
{
    let push = if psh { PSH } else { 0 };
    let end = if fin { FIN } else { 0 };
    ACK + push + end
}
