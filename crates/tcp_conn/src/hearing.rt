//! What a cut does to a receiver.
ghost use Rattle.std.specs.Prelude.{◌≡◌};
ghost use Rattle.tcp_conn.specs.Hearing.{after_hearing};

use tcp_recv::Recv;

/// Takes in a segment's octets and its FIN.
pub fn hear_cut(recv: &mut Recv, seq: u32, bytes: &[u8], fin: bool)
    ensures { recv.new ≡ after_hearing recv.old (record { seq = seq; bytes = bytes.now; fin = fin }) }
{
    recv.on_cut(seq, bytes, fin);
}
