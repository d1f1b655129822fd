//! Messages that wait for an address: whose they are, and the walks over several. Requests aren't here.
ghost use Rattle.std.specs.Prelude.{◌≡◌, ◌+◌, ◌≤◌, ◌<◌, ◌^◌, ◌++◌, filter, length, count_by, nat_le, IfSome, vec_len, All};
ghost use Rattle.std.specs.VecDeque.{deque_len, deque_capacity};
ghost use Rattle.std.specs.List.{position};
ghost use Rattle.ip_hops.specs.Waits.{number_of, is_token, waits_for, is_owned, is_not_owned, is_full, is_over, stays};

use crate::round::{Round, is_ending};
use efi_base::{Ip4, Proto, Tick, Ticket};
use std::collections::VecDeque;

/// How many messages may wait for one next hop. A further one is dropped.
pub const MOST_WAITS: usize = 16;

/// A message that waits: the address of its next hop, and the driver above with its ticket that waits for it.
#[derive(Debug, Drop)]
pub struct Wait<M> {
    pub hop: Ip4,
    pub owner: Option<(Proto, Ticket)>,
    pub message: M,
}

/// What becomes of a message that is handed in.
#[derive(Debug, Drop)]
pub enum Handed<M> {
    /// The address is known: the caller sends the message now.
    Goes(M),
    /// It waits.
    Waits,
    /// As many messages as may wait for its next hop already: it counts as gone.
    Dropped(M),
}

fn number_of(proto: Proto) -> u8
    ensures { result ≡ number_of proto }
{
    match proto {
        Proto::Mnp => 1,
        Proto::Arp => 2,
        Proto::Ip4 => 3,
        Proto::Udp4 => 4,
        Proto::Tcp4 => 5,
        Proto::Dhcp4 => 6,
        Proto::Dns4 => 7,
        Proto::Mtftp4 => 8,
        Proto::Http => 9,
        Proto::Boot => 10,
    }
}

fn is_token(owner: &Option<(Proto, Ticket)>, token: (Proto, Ticket)) -> bool
    ensures { result ≡ is_token token owner.now }
{
    match owner {
        Some((proto, ticket)) => number_of(*proto) == number_of(token.0) && *ticket == token.1,
        None => false,
    }
}

/// Whether as many messages wait for a next hop as may. They aren't counted where fewer wait for all hops together.
pub(crate) fn is_full<M>(waits: &[Wait<M>], hop: Ip4) -> bool
    ensures { result ≡ is_full hop waits.now }
{
    waits.len() >= MOST_WAITS && waits.iter().filter(|w| w.hop.0 == hop.0).count() >= MOST_WAITS
}

/// Where the first message for a next hop stands.
pub(crate) fn index_for<M>(waits: &[Wait<M>], hop: Ip4) -> Option<usize>
    ensures place { result ≡ position (waits_for hop) waits.now }
    ensures within { IfSome result (λ k. k < length waits.now) }
{
    waits.iter().position(|w| w.hop.0 == hop.0)
}

/// Takes out the messages of a token.
pub(crate) fn leave_out<M: Drop>(waits: &mut Vec<Wait<M>>, token: (Proto, Ticket))
    ensures { waits.new.items ≡ filter (is_not_owned token) waits.old.items }
{
    let mut i = 0;
    while i < waits.len() {
        if is_token(&waits[i].owner, token) {
            waits.remove(i);
        } else {
            i += 1;
        }
    }
}

/// The messages whose round ends at a moment are dropped, in room that was taken.
pub(crate) fn drop_over<M: Drop>(
    waits: &mut Vec<Wait<M>>,
    ended: &mut VecDeque<Wait<M>>,
    rounds: &[Round],
    m: Tick,
)
    requires early { All (λ r. r.asked.0 ≤ 2 ^ 62) rounds.now }
    requires room { vec_len waits.old + deque_len ended.old ≤ deque_capacity ended.old }
    ensures waits { waits.new.items ≡ filter (stays m.0 rounds.now) waits.old.items }
    ensures ended { ended.new.items ≡ ended.old.items ++ filter (is_over m.0 rounds.now) waits.old.items }
{
    let mut i = 0;
    while i < waits.len() {
        if is_ending(rounds, waits[i].hop, m) {
            let w = waits.remove(i);
            ended.push_back_reserved(w);
        } else {
            i += 1;
        }
    }
}
