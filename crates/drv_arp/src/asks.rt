//! What a child of the driver asks: its configuration, its works, and the moments at which a request goes again and ends.
//! Which requests are pending isn't here.
ghost use Rattle.std.specs.Prelude.{◌≡◌, ◌*◌, ◌≤◌, ◌^◌, option_map};
ghost use Rattle.drv_arp.specs.Asks.{cfg_refusal, ask_of, request_of, is_due, ends, told, least, later_than, next_of_ask};

use efi_base::{Field, Ip4, Mac, Refuse, Tick, is_unicast};
use wire_link::{Arp, REQUEST};

/// The protocol of the handles.
#[derive(Clone, Copy, PartialEq, Eq, Debug)]
pub struct ArpK;

/// The most requests of one token.
const MOST_TRIES: u8 = 10;

/// A child's configuration: its address; for how many ticks an entry counts, where 0 is without end; how many requests a
/// token sends, 1 to 10; and how many ticks lie between two of them.
#[derive(Clone, Copy, PartialEq, Eq, Debug)]
pub struct ArpCfg {
    pub ip: Ip4,
    pub entry: u32,
    pub tries: u8,
    pub gap: u32,
}

/// Asks for the Ethernet address of an address. It comes back with it where the token ends as `Success`, else as it was.
#[derive(Clone, Copy, PartialEq, Eq, Debug)]
pub struct ArpWork {
    pub ip: Ip4,
    pub mac: Option<Mac>,
}

/// A work with the facts of its asking: the child's address, the moment at which it ends where no answer comes, how many
/// requests are sent for it, and how many ticks lie between two of them. The first request was sent `tries` gaps before
/// `until`.
#[derive(Clone, Copy, PartialEq, Eq, Debug)]
pub struct Ask {
    pub work: ArpWork,
    pub from: Ip4,
    pub until: Tick,
    pub tries: u8,
    pub gap: u32,
}

impl ArpCfg {
    /// Why a child can't be configured so.
    pub(crate) fn refusal(&self) -> Option<Refuse>
        ensures { result ≡ cfg_refusal self.now }
    {
        if !is_unicast(self.ip) {
            return Some(Refuse::BadConfig(Field::Address));
        }
        if self.tries < 1 {
            return Some(Refuse::BadConfig(Field::Tries));
        }
        if self.tries > MOST_TRIES {
            return Some(Refuse::BadConfig(Field::Tries));
        }
        if self.gap == 0 {
            return Some(Refuse::BadConfig(Field::Gap));
        }
        None
    }

    /// What is asked at a moment by a child that is configured so.
    pub(crate) fn ask(&self, now: Tick, work: ArpWork) -> Ask
        requires { now.0 ≤ 2 ^ 62 }
        ensures { result ≡ ask_of now self.now work }
    {
        let gap = self.gap;
        let tries = self.tries;
        Ask {
            work,
            from: self.ip,
            until: Tick(now.0 + tries as u64 * gap as u64),
            tries,
            gap,
        }
    }
}

impl Ask {
    /// The packet that asks, from the station with an Ethernet address.
    pub(crate) fn request(&self, mac: Mac) -> Arp
        ensures { result ≡ request_of mac self.now }
    {
        Arp {
            op: REQUEST,
            sha: mac,
            spa: self.from,
            tha: Mac([0, 0, 0, 0, 0, 0]),
            tpa: self.work.ip,
        }
    }

    /// The same where the address is known.
    pub(crate) fn told(&self, mac: Mac) -> Ask
        ensures { result ≡ told mac self.now }
    {
        let mut ask = *self;
        ask.work.mac = Some(mac);
        ask
    }

    /// Whether it goes again or ends at a moment.
    #[tactic(auto, using(crate::proofs::Moments::in_step, crate::proofs::Moments::in_front))]
    pub(crate) fn is_due(&self, m: Tick) -> bool
        ensures { result ≡ is_due m.0 self.now }
    {
        let gap = self.gap as u64;
        let mut at = self.until.0;
        let mut left = self.tries;
        while left > 0 {
            if at == m.0 {
                return true;
            }
            at = at.saturating_sub(gap);
            left -= 1;
        }
        false
    }

    /// Whether it ends at a moment without an answer.
    pub(crate) fn ends(&self, m: Tick) -> bool
        ensures { result ≡ ends m.0 self.now }
    {
        self.until.0 == m.0
    }

    /// The first moment after this one at which it goes again or ends.
    #[tactic(auto, using(crate::proofs::Moments::next_step, crate::proofs::Moments::least_none))]
    pub(crate) fn next_after(&self, moment: Tick) -> Option<u64>
        ensures { result ≡ next_of_ask moment.0 self.now }
    {
        let gap = self.gap as u64;
        let mut best = None;
        let mut at = self.until.0;
        let mut left = self.tries;
        while left > 0 {
            best = least_of(best, later(moment.0, at));
            at = at.saturating_sub(gap);
            left -= 1;
        }
        best
    }
}

/// The lesser of two moments.
pub(crate) fn least_of(a: Option<u64>, b: Option<u64>) -> Option<u64>
    ensures { result ≡ least a b }
{
    match a {
        Some(x) => match b {
            Some(y) => Some(x.min(y)),
            None => Some(x),
        },
        None => b,
    }
}

/// A moment, where it comes after another.
fn later(moment: u64, at: u64) -> Option<u64>
    ensures { result ≡ later_than moment at }
{
    if moment < at {
        return Some(at);
    }
    None
}
