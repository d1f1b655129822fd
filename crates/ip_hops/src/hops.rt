//! What waits as a whole: messages are handed in and taken out, and moments come. The walks over rounds and messages stand
//! elsewhere.
ghost use Rattle.std.specs.Prelude.{◌≡◌, ◌≤◌, ◌^◌, slice_get, option_map, IfSome, IfNone, IfOk, OnOk, OnErr};

use crate::round::{Ask, Round, ask_again, begin, close, end_rounds, next_in};
use crate::wait::{Handed, Wait, drop_over, index_for, is_full, leave_out};
use efi_base::{Ip4, Mac, NoMemory, Proto, Tick, Ticket};
use std::alloc::Global;
use std::collections::VecDeque;
use std::marker::Model;

/// The messages that wait for next hops' Ethernet addresses, and the rounds of requests for these: the moment that a round
/// began at, and a request, a second later and two seconds later again, and its end another second later.
#[derive(Drop)]
pub struct Hops<M> {
    rounds: Vec<Round>,
    waits: Vec<Wait<M>>,
    asks: VecDeque<Ask>,
    ended: VecDeque<Wait<M>>,
    moment: Tick,
}

impl<M> Model for Hops<M> {
    ghost use Rattle.std.specs.Prelude.{◌≤◌, ◌^◌, All};
    ghost use Rattle.ip_hops.specs.Unresolved.{Unresolved};

    ghost Value = { Unresolved M };

    ghost view = { λ h. record { rounds = h.rounds.items; waits = h.waits.items; asks = h.asks.items; ended = h.ended.items; moment = h.moment.0 } };

    ghost invariant = { λ h. (h.moment.0 ≤ 2 ^ 62) × All (λ r. r.asked.0 ≤ 2 ^ 62) h.rounds.items };
}

impl<M: Drop> Hops<M> {
    ghost use Rattle.efi_base.specs.declared.plain.Tick.{Tick as Moment};
    ghost use Rattle.ip_hops.specs.declared.wait.Handed.TheVariants.{Waits};
    ghost use Rattle.ip_hops.specs.Unresolved.{nothing_waits, handing, handed, first_for, released, withdrawn, acted, at, next_of, without_ask, without_ended};

    /// Nothing waits, at moment 0.
    pub fn new(alloc: Global) -> Hops<M>
        ensures { result ≡ nothing_waits }
    {
        Hops {
            rounds: Vec::new(alloc),
            waits: Vec::new(alloc),
            asks: VecDeque::new(alloc),
            ended: VecDeque::new(alloc),
            moment: Tick(0),
        }
    }

    /// Hands in a message for a next hop, whose Ethernet address is `mac` where it is known: then the caller sends it. Else
    /// it waits, behind the others, and where the hop isn't asked for yet, a round begins now with a request from the
    /// station's address `source`.
    pub fn hand(
        &mut self,
        hop: Ip4,
        source: Ip4,
        owner: Option<(Proto, Ticket)>,
        mac: Option<Mac>,
        m: M,
    ) -> Result<Handed<M>, NoMemory>
        ensures answer { IfOk result (λ a. a ≡ handing self.old hop mac m) }
        ensures ok { OnOk result (self.new ≡ handed self.old hop source owner mac m) }
        ensures err { OnErr result (self.new ≡ self.old) }
        ensures memory { OnErr result (handing self.old hop mac m ≡ Waits) }
    {
        if let Some(_) = mac {
            return Ok(Handed::Goes(m));
        }
        if is_full(&self.waits, hop) {
            return Ok(Handed::Dropped(m));
        }
        self.waits.reserve(1)?;
        let round = Round {
            hop,
            asked: self.moment,
            source,
        };
        begin(&mut self.rounds, &mut self.asks, round)?;
        self.waits.push_reserved(Wait {
            hop,
            owner,
            message: m,
        });
        Ok(Handed::Waits)
    }

    /// Takes out the message that waits longest for a next hop, whose address came; where none waits, its round is over. The
    /// caller calls it until there is none. It takes no memory.
    pub fn release(&mut self, hop: Ip4) -> Option<Wait<M>>
        ensures first { result ≡ first_for self.old hop }
        ensures after { self.new ≡ released self.old hop }
    {
        let Some(i) = index_for(&self.waits, hop) else {
            close(&mut self.rounds, hop);
            return None;
        };
        Some(self.waits.remove(i))
    }

    /// The rounds, in the order of their beginning: which next hops are asked for.
    pub fn rounds(&self) -> &[Round]
        ensures { result.now ≡ self.now.rounds }
    {
        &self.rounds
    }

    /// The messages of a token don't wait any more; the rounds go on. It takes no memory.
    pub fn withdraw(&mut self, owner: (Proto, Ticket))
        ensures { self.new ≡ withdrawn self.old owner }
    {
        leave_out(&mut self.waits, owner);
    }

    /// The least moment to come at which something is due.
    pub fn next(&self) -> Option<Tick>
        ensures { option_map (λ (m : Moment). m.0) result ≡ next_of self.now }
    {
        match next_in(&self.rounds, self.moment) {
            Some(m) => Some(Tick(m)),
            None => None,
        }
    }

    /// A moment comes, and what is due at it is done: requests go again, and rounds end, with the messages that wait for
    /// their hops.
    pub fn act(&mut self, m: Tick) -> Result<(), NoMemory>
        requires { m.0 ≤ 2 ^ 62 }
        ensures ok { OnOk result (self.new ≡ acted m.0 self.old) }
        ensures err { OnErr result (self.new ≡ self.old) }
    {
        let requests = self.rounds.len();
        let messages = self.waits.len();
        self.asks.reserve(requests)?;
        self.ended.reserve(messages)?;
        ask_again(&mut self.asks, &self.rounds, m);
        drop_over(&mut self.waits, &mut self.ended, &self.rounds, m);
        end_rounds(&mut self.rounds, m);
        self.moment = m;
        Ok(())
    }

    /// A moment comes up to which nothing is due. It takes no memory.
    pub fn pass(&mut self, m: Tick)
        requires { m.0 ≤ 2 ^ 62 }
        ensures { self.new ≡ at m.0 self.old }
    {
        self.moment = m;
    }

    /// The request that is to be sent first. It takes no memory.
    pub fn take_ask(&mut self) -> Option<Ask>
        ensures first { result ≡ slice_get self.old.asks 0 }
        ensures after { self.new ≡ without_ask self.old }
    {
        self.asks.pop_front()
    }

    /// The message that was dropped first, with the token that waits for it. It takes no memory.
    pub fn take_ended(&mut self) -> Option<Wait<M>>
        ensures first { result ≡ slice_get self.old.ended 0 }
        ensures after { self.new ≡ without_ended self.old }
    {
        self.ended.pop_front()
    }
}
