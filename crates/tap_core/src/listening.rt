//! The station that asked for a connection, and what it hears record by record.
ghost use Rattle.std.specs.Prelude.{◌≡◌, ◌<◌, ◌∷◌, ◌++◌, [], ℕ, List, IfOk, OnOk, vec_len};
ghost use Rattle.efi_base.specs.declared.plain.Record.{Record};
ghost use Rattle.tcp_recv.specs.Stream.{Board};
ghost use Rattle.tap_core.specs.Answering.{accepting_number};
ghost use Rattle.tap_core.specs.Connections.{after_heard, is_reset_at};
ghost use Rattle.tap_core.specs.Counting.{Tallies};
ghost use Rattle.tap_core.specs.Early.{KeepsFragments};
ghost use Rattle.tap_core.specs.Following.{Follows};
ghost use Rattle.tap_core.specs.Hearing.{heard_at, pools_from};
ghost use Rattle.tap_core.specs.Seen.{syn_seen};
ghost use Rattle.tap_core.specs.Tapping.{Listens};

use crate::answer::answer_at;
use crate::download::Download;
use crate::early::Fragments;
use crate::follow::take_in;
use crate::opening::Syn;
use crate::tally::Tally;
use crate::telling::{Counts, count_one};
use efi_base::{NoMemory, Record};
use ip_core::Reasm;
use std::alloc::Global;

/// What the records so far leave: the fragments that the station heard, and the counts.
#[derive(Drop)]
pub struct Listener {
    pub syn: Syn,
    reasm: Reasm,
    pub counts: Counts,
}

/// The station that this segment shows, by what stands for the records that it has heard.
pub fn listen(
    alloc: Global,
    syn: Syn,
    early: &Fragments,
    tally: &Tally,
) -> Result<Listener, NoMemory>
    ensures syn { IfOk result (λ l. l.syn ≡ syn) }
    ensures listens { (records : List Record) → KeepsFragments records early.now → Tallies records tally.now → IfOk result (Listens records) }
{
    let reasm = early.pools(alloc, &syn)?;
    let counts = tally.counts(syn.station);
    Ok(Listener { syn, reasm, counts })
}

/// Hears a record, and answers the number of the segment that accepts the connection.
pub fn hear_answer(l: &mut Listener, record: &Record) -> Result<Option<u32>, NoMemory>
    ensures syn { l.new.syn ≡ l.old.syn }
    ensures number { (records : List Record) → Listens records l.old
        → IfOk result (λ irs. irs ≡ accepting_number (syn_seen l.old.syn).seq (heard_at (syn_seen l.old.syn) (pools_from (syn_seen l.old.syn) [] records) «record».now)) }
    ensures listens { (records : List Record) → Listens records l.old → OnOk result (Listens (records ++ «record».now ∷ []) l.new) }
{
    l.counts = count_one(l.syn.station, l.counts, record)?;
    Ok(answer_at(&l.syn, &mut l.reasm, record))
}

/// Hears a record on the connection, and answers whether its segment resets that.
pub fn hear_segment(
    l: &mut Listener,
    download: &mut Download,
    record: &Record,
) -> Result<bool, NoMemory>
    ensures syn { l.new.syn ≡ l.old.syn }
    ensures room { vec_len download.new.room ≡ vec_len download.old.room }
    ensures follows { (records : List Record) → Listens records l.old → (most irs : ℕ) (board : Board) → 0 < vec_len download.old.room
        → Follows most irs board download.old
        → IfOk result (λ reset. (reset ≡ is_reset_at irs board (heard_at (syn_seen l.old.syn) (pools_from (syn_seen l.old.syn) [] records) «record».now))
        × Follows most irs (after_heard irs board (heard_at (syn_seen l.old.syn) (pools_from (syn_seen l.old.syn) [] records) «record».now)) download.new) }
    ensures listens { (records : List Record) → Listens records l.old → OnOk result (Listens (records ++ «record».now ∷ []) l.new) }
{
    l.counts = count_one(l.syn.station, l.counts, record)?;
    let reset = take_in(&l.syn, &mut l.reasm, download, record)?;
    Ok(reset)
}
