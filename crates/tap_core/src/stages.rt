//! How far a tap is: which records it has heard, and what it keeps of them.
ghost use Rattle.std.specs.Prelude.{◌≡◌, ◌∷◌, ◌++◌, [], ℕ, List, None, false, IfOk, IsErr};
ghost use Rattle.efi_base.specs.declared.plain.Record.{Record};
ghost use Rattle.tap_core.specs.Tapping.{IsAnswering, IsEnded, IsFollowing, IsWaiting, StandsFor};
ghost use Rattle.tap_core.specs.Watching.{IsSeen};
ghost use Rattle.tap_core.specs.Shown.{Tells};
ghost use Rattle.efi_base.specs.declared.load_end.LoadEnd.TheVariants.{NoConnection};
ghost use Rattle.tap_core.specs.declared.stages.Stage.TheVariants.{Broken};

use crate::download::Download;
use crate::early::Fragments;
use crate::listening::{Listener, hear_answer, hear_segment, listen};
use crate::opening::asked_at;
use crate::passive::{Seen, seen_of};
use crate::tally::Tally;
use crate::telling::{shown_with, shown_without};
use efi_base::{Bytes, LoadEnd, NoMemory, Record, Tick};
use ip_core::Reasm;
use std::alloc::Global;

/// Records of which none asks for a connection. Which of them the station sent and heard shows only with its first
/// segment: what stands for them serves whichever it is.
#[derive(Drop)]
pub struct Waiting {
    reasm: Reasm,
    early: Fragments,
    tally: Tally,
}

/// How far a tap is.
#[derive(Drop)]
pub enum Stage {
    /// No segment asked for a connection.
    Opening(Waiting),
    /// One did, and the peer didn't accept it.
    Answering(Listener),
    /// The peer did, and the download is followed.
    Following(Listener, Download),
    /// The download ended.
    Ended(Seen),
    /// Memory was refused at a record.
    Broken,
}

/// No record was heard.
pub fn first_stage(alloc: Global) -> Result<Stage, NoMemory>
    ensures { IfOk result (λ s. (most : ℕ) → StandsFor most [] s) }
{
    let reasm = Reasm::new(alloc)?;
    let early = Fragments::new(alloc);
    let tally = Tally::new(alloc);
    Ok(Stage::Opening(Waiting {
        reasm,
        early,
        tally,
    }))
}

/// The stage after one record more.
pub fn next_stage(alloc: Global, most: u32, stage: Stage, record: Record) -> Result<Stage, NoMemory>
    ensures stands { (records : List Record) → StandsFor most records stage → IfOk result (StandsFor most (records ++ «record» ∷ [])) }
    ensures broken { stage ≡ Broken → IsErr result }
{
    match stage {
        Stage::Opening(waiting) => hear_first(alloc, waiting, record),
        Stage::Answering(listener) => hear_second(alloc, most, listener, &record),
        Stage::Following(listener, download) => hear_more(listener, download, &record),
        Stage::Ended(seen) => Ok(Stage::Ended(seen)),
        Stage::Broken => Err(NoMemory),
    }
}

/// A record before which none asks for a connection.
fn hear_first(alloc: Global, waiting: Waiting, record: Record) -> Result<Stage, NoMemory>
    ensures { (most : ℕ) (records : List Record) → IsWaiting records waiting → IfOk result (StandsFor most (records ++ «record» ∷ [])) }
{
    let Waiting {
        mut reasm,
        mut early,
        mut tally,
    } = waiting;
    let asked = asked_at(&mut reasm, &record);
    tally.count(&record)?;
    early.hear(record)?;
    let Some(syn) = asked else {
        return Ok(Stage::Opening(Waiting {
            reasm,
            early,
            tally,
        }));
    };
    let listener = listen(alloc, syn, &early, &tally)?;
    Ok(Stage::Answering(listener))
}

/// A record before which none accepts the connection.
fn hear_second(
    alloc: Global,
    most: u32,
    listener: Listener,
    record: &Record,
) -> Result<Stage, NoMemory>
    ensures { (records : List Record) → IsAnswering records listener → IfOk result (StandsFor most (records ++ «record».now ∷ [])) }
{
    let mut listener = listener;
    let Some(irs) = hear_answer(&mut listener, record)? else {
        return Ok(Stage::Answering(listener));
    };
    let download = Download::new(alloc, irs, most)?;
    Ok(Stage::Following(listener, download))
}

/// A record before which the download doesn't end.
fn hear_more(listener: Listener, download: Download, record: &Record) -> Result<Stage, NoMemory>
    ensures { (most : ℕ) (records : List Record) → IsFollowing most records listener download
        → IfOk result (StandsFor most (records ++ «record».now ∷ [])) }
{
    let mut listener = listener;
    let mut download = download;
    let reset = hear_segment(&mut listener, &mut download, record)?;
    match download.end(reset) {
        Some(end) => Ok(Stage::Ended(seen_of(download, &listener.syn, end, listener.counts))),
        None => Ok(Stage::Following(listener, download)),
    }
}

/// What is seen of the records, where no more come.
pub fn seen_at(alloc: Global, stage: Stage) -> Seen
    ensures seen { (most : ℕ) (records : List Record) → StandsFor most records stage → IsSeen most records result }
    ensures broken { stage ≡ Broken → Tells NoConnection None 0 false [] result.shown × (result.body ≡ []) }
{
    match stage {
        Stage::Opening(waiting) => Seen {
            shown: waiting.tally.shown(LoadEnd::NoConnection),
            body: Bytes::new(alloc),
        },
        Stage::Answering(listener) => Seen {
            shown: shown_with(
                &listener.syn,
                LoadEnd::NoConnection,
                0,
                false,
                listener.counts,
            ),
            body: Bytes::new(alloc),
        },
        Stage::Following(listener, download) => {
            seen_of(download, &listener.syn, LoadEnd::OutOfTime, listener.counts)
        }
        Stage::Ended(seen) => seen,
        Stage::Broken => Seen {
            shown: shown_without(LoadEnd::NoConnection, 0, Tick(0)),
            body: Bytes::new(alloc),
        },
    }
}
