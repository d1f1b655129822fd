//! A map from numbers to moments, from which the least moment is taken. What is done at a moment isn't here.
ghost use Rattle.std.specs.Prelude.{◌≡◌, ◌<◌, ◌≤◌, ◌∷◌, ◌++◌, [], IfSome, IfNone, OnOk, OnErr, option_map, vec_capacity, vec_len, filter};

use efi_base::{NoMemory, Tick};
use std::alloc::Global;
use std::marker::Model;

/// A number with its moment.
#[derive(Clone, Copy)]
pub struct Timer {
    pub id: u64,
    pub at: Tick,
}

/// A moment for each of some numbers.
#[derive(Drop)]
pub struct Timers {
    timers: Vec<Timer>,
}

impl Model for Timers {
    ghost use Rattle.std.specs.Prelude.{List};
    ghost use Rattle.efi_timer.specs.declared.timers.Timer.{Timer as Entry};

    ghost Value = { List Entry };

    ghost view = { λ s. s.timers.items };
}

ghost use Rattle.efi_timer.specs.Moments.{comes_before, earlier, soonest, is_other, set_to, moment_of, due_id, after_due};

fn is_before(a: &Timer, b: &Timer) -> bool
    ensures { result ≡ comes_before a.now b.now }
{
    if a.at.0 == b.at.0 {
        return a.id < b.id;
    }
    a.at.0 < b.at.0
}

fn earlier_of(a: Option<Timer>, b: Timer) -> Option<Timer>
    ensures { result ≡ earlier a (Some b) }
{
    match a {
        Some(t) => {
            if is_before(&b, &t) {
                return Some(b);
            }
            Some(t)
        }
        None => Some(b),
    }
}

#[tactic(auto, using(crate::proofs::Orders::earlier_joins))]
fn soonest_in(timers: &[Timer]) -> Option<Timer>
    ensures { result ≡ soonest timers.now }
{
    let mut best = None;
    for t in timers {
        best = earlier_of(best, *t);
    }
    best
}

fn without(timers: &mut Vec<Timer>, id: u64)
    ensures kept { timers.new.items ≡ filter (is_other id) timers.old.items }
    ensures bound { vec_len timers.new ≤ vec_len timers.old }
    ensures room { vec_capacity timers.new ≡ vec_capacity timers.old }
{
    let mut i = 0;
    while i < timers.len() {
        if timers[i].id == id {
            timers.remove(i);
        } else {
            i += 1;
        }
    }
}

impl Timers {
    pub fn new(alloc: Global) -> Timers
        ensures { result ≡ [] }
    {
        Timers {
            timers: Vec::new(alloc),
        }
    }

    /// The number has this moment, and no other.
    pub fn set(&mut self, id: u64, at: Tick) -> Result<(), NoMemory>
        ensures ok { OnOk result (self.new ≡ set_to self.old id at) }
        ensures err { OnErr result (self.new ≡ self.old) }
    {
        self.timers.reserve(1)?;
        without(&mut self.timers, id);
        self.timers.push_reserved(Timer { id, at });
        Ok(())
    }

    /// The number has no moment. It takes no memory.
    pub fn clear(&mut self, id: u64)
        ensures { self.new ≡ filter (is_other id) self.old }
    {
        without(&mut self.timers, id);
    }

    /// The least moment.
    pub fn next(&self) -> Option<Tick>
        ensures { result ≡ option_map (λ t. t.at) (soonest self.now) }
    {
        let t = soonest_in(&self.timers)?;
        Some(t.at)
    }

    /// Takes out the number with the least moment, of several that with the least number, where that moment is at
    /// most `now`. It takes no memory.
    pub fn due(&mut self, now: Tick) -> Option<u64>
        ensures id { result ≡ due_id (soonest self.old) now }
        ensures after { self.new ≡ after_due self.old (due_id (soonest self.old) now) }
    {
        let t = soonest_in(&self.timers)?;
        if t.at.0 > now.0 {
            return None;
        }
        without(&mut self.timers, t.id);
        Some(t.id)
    }
}
