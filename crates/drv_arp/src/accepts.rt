//! How a token is accepted, where its address is known and where it isn't. Why a child can't ask at all isn't here.
ghost use Rattle.std.specs.Prelude.{◌≡◌, ◌+◌, IfOk, IfErr};
ghost use Rattle.efi_base.specs.Refusals.{AnswersBy};
ghost use Rattle.efi_base.specs.declared.tokens.Owner.{Owner as OwnerValue};
ghost use Rattle.efi_book.specs.Books.{accept_refusal, times};
ghost use Rattle.efi_book.specs.Cores.{id_of};
ghost use Rattle.efi_book.specs.Drives.{drive};
ghost use Rattle.efi_book.specs.Owners.{gained};
ghost use Rattle.drv_arp.specs.Arps.{accepted_known, accepted_unknown};

use crate::asks::{ArpCfg, ArpK, ArpWork, Ask};
use efi_base::{ChildId, End, Mac, Owner, Refuse, Refused, Ticket};
use efi_book::Core;
use wire_link::Arp;

/// A token whose address is known ends with it at once.
pub(crate) fn accept_known(
    core: &mut Core<ArpK, ArpCfg, Ask, Arp>,
    child: ChildId,
    owner: Owner,
    ask: Ask,
    mac: Mac,
) -> Result<Ticket, Refused<ArpWork>>
    ensures answer { AnswersBy (accept_refusal (drive core.old).tokens child owner) result }
    ensures ok { IfOk result (λ t. (t.0 ≡ (drive core.old).tokens.next) × (drive core.new ≡ accepted_known (drive core.old) child owner ask mac)) }
    ensures err { IfErr result (λ r. (r.work ≡ ask.work) × (drive core.new ≡ drive core.old)) }
    ensures keeps { (o : OwnerValue) → times o (drive core.new).tokens ≡ times o (drive core.old).tokens + gained o owner result }
{
    match core.tokens.accept(child, owner, ask) {
        Ok(t) => {
            core.tokens.complete_with(t, End::Success, ask.told(mac));
            Ok(t)
        }
        Err(refused) => Err(Refused {
            why: refused.why,
            work: refused.work.work,
        }),
    }
}

/// For a token whose address isn't known a request goes to the layer below, from the station with an Ethernet address.
pub(crate) fn accept_unknown(
    core: &mut Core<ArpK, ArpCfg, Ask, Arp>,
    child: ChildId,
    owner: Owner,
    ask: Ask,
    mac: Mac,
) -> Result<Ticket, Refused<ArpWork>>
    ensures answer { AnswersBy (accept_refusal (drive core.old).tokens child owner) result }
    ensures ok { IfOk result (λ t. (t.0 ≡ (drive core.old).tokens.next) × (drive core.new ≡ accepted_unknown (drive core.old) child owner ask mac)) }
    ensures err { IfErr result (λ r. (r.work ≡ ask.work) × (drive core.new ≡ drive core.old)) }
    ensures keeps { (o : OwnerValue) → times o (drive core.new).tokens ≡ times o (drive core.old).tokens + gained o owner result }
{
    if let Some(why) = core.tokens.refusal(child, owner) {
        return Err(Refused {
            why,
            work: ask.work,
        });
    }
    let Ok(()) = core.outbox.take_room() else {
        return Err(Refused {
            why: Refuse::OutOfResources,
            work: ask.work,
        });
    };
    match core.tokens.accept(child, owner, ask) {
        Ok(t) => {
            core.outbox.put(ask.request(mac));
            Ok(t)
        }
        Err(refused) => {
            core.outbox.give_room();
            Err(Refused {
                why: refused.why,
                work: refused.work.work,
            })
        }
    }
}
