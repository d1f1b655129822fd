//! The fragments in front of the segment that asks for a connection. Which station hears them shows only with that segment,
//! so they are kept until then, and no longer than some station's pools may hold them. No other record is.
ghost use Rattle.std.specs.Prelude.{◌≡◌, ◌≤◌, ◌∷◌, ◌++◌, [], true, List, IfOk, OnOk, max};
ghost use Rattle.efi_base.specs.declared.plain.Record.{Record};
ghost use Rattle.ip_core.specs.Bytes.{bytes_kept};
ghost use Rattle.ip_core.specs.Datagrams.{after_event};
ghost use Rattle.ip_core.specs.Pools.{open_at};
ghost use Rattle.tap_core.specs.Early.{AreRecent, HasFragments, KeepsFragments, pools_left};
ghost use Rattle.tap_core.specs.Frames.{holds_fragment};
ghost use Rattle.tap_core.specs.Hearing.{event_heard};
ghost use Rattle.tap_core.specs.Openings.{Opening};
ghost use Rattle.tap_core.specs.Seen.{syn_seen};

use crate::heard::pass;
use crate::opening::Syn;
use crate::packets::holds_fragment;
use efi_base::{NoMemory, Record, Tick};
use ip_core::{LIFETIME, Reasm};
use std::alloc::Global;

/// A fragment, and the greatest tick of the records between the one that was kept before it and it.
#[derive(Drop)]
struct Fragment {
    passed: Tick,
    record: Record,
}

/// The fragments among the records so far, the greatest tick of the records behind the last of them, and the greatest tick of
/// them.
#[derive(Drop)]
pub struct Fragments {
    kept: Vec<Fragment>,
    passed: Tick,
    latest: Tick,
}

impl Fragments {
    /// No record was heard.
    pub fn new(alloc: Global) -> Fragments
        ensures { KeepsFragments [] result }
    {
        Fragments {
            kept: Vec::new(alloc),
            passed: Tick(0),
            latest: Tick(0),
        }
    }

    /// Hears a record.
    pub fn hear(&mut self, record: Record) -> Result<(), NoMemory>
        ensures { (records : List Record) → KeepsFragments records self.old → OnOk result (KeepsFragments (records ++ «record» ∷ []) self.new) }
    {
        self.fade(record.tick);
        if !holds_fragment(record.frame.as_slice()) {
            self.passed = later(record.tick, self.passed);
            return Ok(());
        }
        self.keep(record)?;
        Ok(())
    }

    /// Keeps a fragment.
    fn keep(&mut self, record: Record) -> Result<(), NoMemory>
        ensures left { OnOk result ((o : Opening) → pools_left o self.new ≡ after_event bytes_kept (pools_left o self.old) (event_heard o «record»)) }
        ensures fragments { HasFragments self.old → holds_fragment «record».frame ≡ true → OnOk result (HasFragments self.new) }
        ensures latest { OnOk result («record».tick.0 ≤ self.new.latest.0) }
    {
        let tick = record.tick;
        let passed = self.passed;
        push(&mut self.kept, Fragment { passed, record })?;
        self.passed = Tick(0);
        self.latest = later(self.latest, tick);
        Ok(())
    }

    /// Forgets the fragments once no station's pools can hold one at this tick.
    fn fade(&mut self, now: Tick)
        ensures left { HasFragments self.old → (o : Opening) → open_at now.0 (pools_left o self.new) ≡ open_at now.0 (pools_left o self.old) }
        ensures fragments { HasFragments self.old → HasFragments self.new }
        ensures recent { AreRecent now.0 self.new }
    {
        if now.0.saturating_sub(self.latest.0) >= LIFETIME {
            self.kept.clear();
            self.passed = Tick(0);
            self.latest = Tick(0);
        }
    }

    /// The pools of this station.
    pub fn pools(&self, alloc: Global, syn: &Syn) -> Result<Reasm, NoMemory>
        ensures { IfOk result (λ pools. pools ≡ pools_left (syn_seen syn.now) self.now) }
    {
        let mut reasm = Reasm::new(alloc)?;
        for fragment in &self.kept {
            reasm.tick(fragment.passed);
            pass(syn, &mut reasm, &fragment.record);
        }
        reasm.tick(self.passed);
        Ok(reasm)
    }
}

fn push(kept: &mut Vec<Fragment>, fragment: Fragment) -> Result<(), NoMemory>
    ensures { OnOk result (kept.new.items ≡ kept.old.items ++ fragment ∷ []) }
{
    match kept.push(fragment) {
        Ok(()) => Ok(()),
        Err(_) => Err(NoMemory),
    }
}

/// The later of two ticks.
fn later(a: Tick, b: Tick) -> Tick
    ensures { result.0 ≡ max a.0 b.0 }
{
    if a.0 < b.0 { b } else { a }
}
