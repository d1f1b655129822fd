//! Pending requests that are due at a moment, and those that are answered: which they are, and what becomes of them. When
//! there are such isn't here.
ghost use Rattle.std.specs.Prelude.{◌≡◌, ◌≤◌, filter_map, length, IfOk, OnOk, vec_capacity, vec_len};
ghost use Rattle.arp_cache.specs.Caches.{after_time};
ghost use Rattle.efi_book.specs.Books.{Keeps, completed_with};
ghost use Rattle.efi_book.specs.Cores.{in_tokens};
ghost use Rattle.efi_book.specs.Drives.{drive};
ghost use Rattle.drv_arp.specs.Arps.{answer_of, done_of, raised_of, settled};
ghost use Rattle.drv_arp.specs.Ticks.{due_of, due_done, all_done, next_of_all};

use crate::asks::{ArpCfg, ArpK, ArpWork, Ask, least_of};
use arp_cache::Cache;
use efi_base::{End, Mac, NoMemory, Tick, Ticket};
use efi_book::{Book, Core, Done, Pending, Raised};
use std::alloc::Global;
use wire_link::Arp;

/// A request, under its ticket.
#[derive(Clone, Copy)]
pub(crate) struct Told {
    pub ticket: Ticket,
    pub ask: Ask,
}

/// The pending request with its answer, where its address is known.
fn answer_to(cache: &Cache, now: Tick, p: &Pending<Ask>) -> Option<Told>
    ensures { result ≡ answer_of (after_time now.0 cache.now) p.now }
{
    match cache.find_at(p.work.work.ip, now) {
        Some(mac) => Some(Told {
            ticket: p.ticket,
            ask: p.work.told(mac),
        }),
        None => None,
    }
}

/// Room for an answer to each of these.
pub(crate) fn room_for(alloc: Global, pending: &[Pending<Ask>]) -> Result<Vec<Told>, NoMemory>
    ensures empty { IfOk result (λ v. vec_len v ≡ 0) }
    ensures room { IfOk result (λ v. length pending.now ≤ vec_capacity v) }
{
    let v = Vec::with_capacity(alloc, pending.len())?;
    Ok(v)
}

/// The pending requests whose address is known now, with their answers.
pub(crate) fn put_answers(
    answers: &mut Vec<Told>,
    cache: &Cache,
    now: Tick,
    pending: &[Pending<Ask>],
)
    requires empty { vec_len answers.old ≡ 0 }
    requires room { length pending.now ≤ vec_capacity answers.old }
    ensures { answers.new.items ≡ filter_map (answer_of (after_time now.0 cache.now)) pending.now }
{
    for p in pending {
        if let Some(t) = answer_to(cache, now, p) {
            answers.push_reserved(t);
        }
    }
}

/// These requests end as answered, one after another. It takes no memory.
pub(crate) fn settle(tokens: &mut Book<Ask>, answers: &[Told])
    ensures after { tokens.new ≡ settled tokens.old answers.now }
    ensures keeps { Keeps tokens.old tokens.new }
{
    for t in answers {
        tokens.complete_with(t.ticket, End::Success, t.ask);
    }
}

/// The pending request, where something is due for it.
fn due_to(m: Tick, p: &Pending<Ask>) -> Option<Told>
    ensures { result ≡ due_of m.0 p.now }
{
    if p.work.is_due(m) {
        return Some(Told {
            ticket: p.ticket,
            ask: p.work,
        });
    }
    None
}

/// The pending requests for which something is due at a moment.
pub(crate) fn dues(alloc: Global, m: Tick, pending: &[Pending<Ask>]) -> Result<Vec<Told>, NoMemory>
    ensures { IfOk result (λ v. v.items ≡ filter_map (due_of m.0) pending.now) }
{
    let mut found = Vec::new(alloc);
    for p in pending {
        if let Some(t) = due_to(m, p) {
            let Ok(()) = found.push(t) else {
                return Err(NoMemory);
            };
        }
    }
    Ok(found)
}

/// What is due at a moment for one request of the station with an Ethernet address: it ends, or it goes again.
fn do_due(
    core: &mut Core<ArpK, ArpCfg, Ask, Arp>,
    mac: Mac,
    m: Tick,
    t: Told,
) -> Result<(), NoMemory>
    ensures ok { OnOk result (drive core.new ≡ due_done m.0 mac (drive core.old) t) }
    ensures keeps { Keeps (drive core.old).tokens (drive core.new).tokens }
{
    if t.ask.ends(m) {
        core.complete(t.ticket, End::NoMapping);
        return Ok(());
    }
    core.outbox.ask(t.ask.request(mac))
}

/// What is due at a moment for each of these requests, in their order.
pub(crate) fn do_all(
    core: &mut Core<ArpK, ArpCfg, Ask, Arp>,
    mac: Mac,
    m: Tick,
    found: &[Told],
) -> Result<(), NoMemory>
    ensures ok { OnOk result (drive core.new ≡ all_done m.0 mac (drive core.old) found.now) }
    ensures keeps { Keeps (drive core.old).tokens (drive core.new).tokens }
{
    for t in found {
        do_due(core, mac, m, *t)?;
    }
    Ok(())
}

/// The first moment after this one at which something is due for one of these.
pub(crate) fn next_after(moment: Tick, pending: &[Pending<Ask>]) -> Option<u64>
    ensures { result ≡ next_of_all moment.0 pending.now }
{
    let mut best = None;
    for p in pending {
        best = least_of(best, p.work.next_after(moment));
    }
    best
}

/// A caller's ended token with its work alone.
pub(crate) fn plain_done(d: Done<Ask>) -> Done<ArpWork>
    ensures { result ≡ done_of d }
{
    Done {
        ticket: d.ticket,
        child: d.child,
        token: d.token,
        end: d.end,
        work: d.work.work,
    }
}

/// An ended token of a driver above with its work alone.
pub(crate) fn plain_raised(d: Raised<Ask>) -> Raised<ArpWork>
    ensures { result ≡ raised_of d }
{
    Raised {
        ticket: d.ticket,
        child: d.child,
        proto: d.proto,
        waits: d.waits,
        end: d.end,
        work: d.work.work,
    }
}
