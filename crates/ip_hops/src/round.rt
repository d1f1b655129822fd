//! Rounds of requests: what is due for one at a moment, and the walks over several. What waits for them isn't here.
ghost use Rattle.std.specs.Prelude.{◌≡◌, true, ◌+◌, ◌++◌, ◌≤◌, ◌^◌, map, filter, length, option_map, OnOk, OnErr, vec_len, All};
ghost use Rattle.std.specs.VecDeque.{deque_len, deque_capacity};
ghost use Rattle.std.specs.List.{list_any};
ghost use Rattle.ip_hops.specs.Rounds.{is_round_of, is_round_of_other, asks_again, goes_on, ends, is_ending, ask_of, due_after, least, next_among};
ghost use Rattle.ip_hops.specs.Unresolved.{begun, asked};

use efi_base::{Ip4, NoMemory, Tick};
use std::collections::VecDeque;

/// For how many ticks a request is waited for before the next one, or before the end of the round.
const GAP: u64 = 1_000;

/// The requests for one next hop: its address, the tick of the first request, and the station's address that asks.
#[derive(Clone, Copy, PartialEq, Eq, Debug)]
pub struct Round {
    pub hop: Ip4,
    pub asked: Tick,
    pub source: Ip4,
}

/// A request to send: the address that is asked for, and the station's address that asks.
#[derive(Clone, Copy, PartialEq, Eq, Debug)]
pub struct Ask {
    pub hop: Ip4,
    pub source: Ip4,
}

impl Round {
    /// Whether its request goes again at a moment.
    fn asks_again(&self, m: Tick) -> bool
        requires { self.now.asked.0 ≤ 2 ^ 62 }
        ensures { result ≡ asks_again m.0 self.now }
    {
        m.0 == self.asked.0 + GAP || m.0 == self.asked.0 + 2 * GAP
    }

    /// Whether it ends at a moment.
    fn ends(&self, m: Tick) -> bool
        requires { self.now.asked.0 ≤ 2 ^ 62 }
        ensures { result ≡ ends m.0 self.now }
    {
        m.0 == self.asked.0 + 3 * GAP
    }

    /// The request that it sends.
    fn ask(&self) -> Ask
        ensures { result ≡ ask_of self.now }
    {
        Ask {
            hop: self.hop,
            source: self.source,
        }
    }

    /// The next moment at which something is due for it.
    fn due_after(&self, moment: Tick) -> Option<u64>
        requires { self.now.asked.0 ≤ 2 ^ 62 }
        ensures { result ≡ due_after moment.0 self.now }
    {
        if moment.0 < self.asked.0 + GAP {
            return Some(self.asked.0 + GAP);
        }
        if moment.0 < self.asked.0 + 2 * GAP {
            return Some(self.asked.0 + 2 * GAP);
        }
        if moment.0 < self.asked.0 + 3 * GAP {
            return Some(self.asked.0 + 3 * GAP);
        }
        None
    }
}

/// The lesser of two moments.
fn least_of(a: Option<u64>, b: Option<u64>) -> Option<u64>
    ensures { result ≡ least a b }
{
    match a {
        Some(x) => match b {
            Some(y) => Some(x.min(y)),
            None => Some(x),
        },
        None => b,
    }
}

/// The least moment to come at which something is due.
pub(crate) fn next_in(rounds: &[Round], moment: Tick) -> Option<u64>
    requires { All (λ r. r.asked.0 ≤ 2 ^ 62) rounds.now }
    ensures { result ≡ next_among moment.0 rounds.now }
{
    let mut best = None;
    for r in rounds {
        best = least_of(best, r.due_after(moment));
    }
    best
}

fn has_round(rounds: &[Round], hop: Ip4) -> bool
    ensures { result ≡ list_any (is_round_of hop) rounds.now }
{
    rounds.iter().any(|r| r.hop.0 == hop.0)
}

/// Begins a round, with its first request, where its next hop has none.
pub(crate) fn begin(
    rounds: &mut Vec<Round>,
    asks: &mut VecDeque<Ask>,
    round: Round,
) -> Result<(), NoMemory>
    ensures rounds { OnOk result (rounds.new.items ≡ begun rounds.old.items round) }
    ensures asks { OnOk result (asks.new.items ≡ asked rounds.old.items asks.old.items round) }
    ensures same_rounds { OnErr result (rounds.new.items ≡ rounds.old.items) }
    ensures same_asks { OnErr result (asks.new.items ≡ asks.old.items) }
{
    if has_round(rounds, round.hop) {
        return Ok(());
    }
    rounds.reserve(1)?;
    asks.reserve(1)?;
    rounds.push_reserved(round);
    asks.push_back_reserved(round.ask());
    Ok(())
}

/// The requests that go again at a moment, in room that was taken.
pub(crate) fn ask_again(asks: &mut VecDeque<Ask>, rounds: &[Round], m: Tick)
    requires early { All (λ r. r.asked.0 ≤ 2 ^ 62) rounds.now }
    requires room { deque_len asks.old + length rounds.now ≤ deque_capacity asks.old }
    ensures { asks.new.items ≡ asks.old.items ++ map ask_of (filter (asks_again m.0) rounds.now) }
{
    for r in rounds {
        if r.asks_again(m) {
            asks.push_back_reserved(r.ask());
        }
    }
}

/// Whether a round of a next hop ends at a moment.
#[tactic(auto, unfolding(crate::specs::Rounds::is_ending))]
pub(crate) fn is_ending(rounds: &[Round], hop: Ip4, m: Tick) -> bool
    requires { All (λ r. r.asked.0 ≤ 2 ^ 62) rounds.now }
    ensures { result ≡ is_ending m.0 rounds.now hop }
{
    for r in rounds {
        if r.hop.0 == hop.0 && r.ends(m) {
            return true;
        }
    }
    false
}

/// Takes out the rounds that end at a moment.
pub(crate) fn end_rounds(rounds: &mut Vec<Round>, m: Tick)
    requires { All (λ r. r.asked.0 ≤ 2 ^ 62) rounds.old.items }
    ensures kept { rounds.new.items ≡ filter (goes_on m.0) rounds.old.items }
{
    let mut i = 0;
    while i < rounds.len() {
        if rounds[i].ends(m) {
            rounds.remove(i);
        } else {
            i += 1;
        }
    }
}

/// Takes out the round of a next hop.
pub(crate) fn close(rounds: &mut Vec<Round>, hop: Ip4)
    ensures kept { rounds.new.items ≡ filter (is_round_of_other hop) rounds.old.items }
{
    let mut i = 0;
    while i < rounds.len() {
        if rounds[i].hop.0 == hop.0 {
            rounds.remove(i);
        } else {
            i += 1;
        }
    }
}
