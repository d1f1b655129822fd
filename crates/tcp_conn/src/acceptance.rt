//! A heard segment's flags, and which segments are acceptable (RFC 9293, section 3.10.7.4, first check).
ghost use Rattle.std.specs.Prelude.{◌≡◌, ◌≤◌, ◌<◌, ◌^◌, ◌+◌};
ghost use Rattle.wire_l4.specs.Seen.{segment_seen};
ghost use Rattle.tcp_send.specs.Numbers.{number_of, distance};
ghost use Rattle.tcp_conn.specs.Acceptance.{has_fin, has_syn, has_rst, has_ack, has_text, len_of, is_in_window, is_acceptable, acks_syn, acks_unsent};

use tcp_recv::Recv;
use tcp_send::Send;
use wire_l4::{ACK, FIN, RST, SYN, Tcp};

/// How many sequence numbers there are.
const NUMBERS: u64 = 1 << 32;

/// From this distance on a number stands behind another.
const HALF_OF_NUMBERS: u64 = 1 << 31;

pub fn has_fin(s: &Tcp<'_>) -> bool
    ensures { result ≡ has_fin (segment_seen s.now) }
{
    s.flags & FIN != 0
}

pub fn has_syn(s: &Tcp<'_>) -> bool
    ensures { result ≡ has_syn (segment_seen s.now) }
{
    s.flags & SYN != 0
}

pub fn has_rst(s: &Tcp<'_>) -> bool
    ensures { result ≡ has_rst (segment_seen s.now) }
{
    s.flags & RST != 0
}

pub fn has_ack(s: &Tcp<'_>) -> bool
    ensures { result ≡ has_ack (segment_seen s.now) }
{
    s.flags & ACK != 0
}

/// Whether it has data or FIN.
pub fn has_text(s: &Tcp<'_>) -> bool
    ensures { result ≡ has_text (segment_seen s.now) }
{
    !s.payload.is_empty() || has_fin(s)
}

/// How many numbers data and FIN take.
fn len_of(s: &Tcp<'_>) -> u64
    ensures len { result ≡ len_of (segment_seen s.now) }
    ensures bound { result ≤ 2 ^ 63 }
{
    s.payload.len() as u64 + if has_fin(s) { 1 } else { 0 }
}

/// How far a number stands past another, modulo 2^32.
fn distance(from: u32, to: u32) -> u64
    ensures { result ≡ distance from to }
{
    (to as u64 + NUMBERS - from as u64) % NUMBERS
}

/// The number of a place: the first octet's is one past the SYN's.
pub fn number_of(iss: u32, place: u64) -> u32
    ensures { result ≡ number_of iss place }
{
    ((iss as u64 + 1 + place % NUMBERS) % NUMBERS) as u32
}

/// Whether a number stands in the window.
pub fn is_in_window(recv: &Recv, seq: u32) -> bool
    ensures { result ≡ is_in_window recv.now seq }
{
    let free = recv.free();
    if free == 0 {
        return seq == recv.rcv_nxt();
    }
    distance(recv.rcv_nxt(), seq) < free as u64
}

/// Whether a segment without SYN and RST is acceptable.
pub fn is_acceptable(recv: &Recv, s: &Tcp<'_>) -> bool
    ensures { result ≡ is_acceptable recv.now (segment_seen s.now) }
{
    let len = len_of(s);
    if len == 0 {
        return is_in_window(recv, s.seq);
    }
    let last = (s.seq as u64 + len - 1) % NUMBERS;
    recv.free() > 0 && (is_in_window(recv, s.seq) || is_in_window(recv, last as u32))
}

/// Whether it acknowledges this side's SYN, where no data was sent.
pub fn acks_syn(iss: u32, s: &Tcp<'_>) -> bool
    ensures { result ≡ acks_syn iss (segment_seen s.now) }
{
    has_ack(s) && s.ack == number_of(iss, 0)
}

/// Whether it acknowledges what wasn't sent.
pub fn acks_unsent(send: &Send, s: &Tcp<'_>) -> bool
    ensures { result ≡ acks_unsent send.now (segment_seen s.now) }
{
    distance(s.ack, send.snd_nxt()) >= HALF_OF_NUMBERS
}
