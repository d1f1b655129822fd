//! Calls on ARP as callers make them.
ghost use Rattle.std.specs.Prelude.{◌≡◌, ◌+◌, None, Some};
ghost use Rattle.efi_base.specs.declared.tokens.Owner.{Owner as OwnerValue};
ghost use Rattle.efi_book.specs.Books.{Keeps, times};
ghost use Rattle.efi_book.specs.Cores.{destroyed, drive_token_cancelled, drive_token_refusal};
ghost use Rattle.efi_book.specs.Families.{create_refusal, handle_refusal};
ghost use Rattle.drv_arp.specs.Arps.{in_drive};
ghost use Rattle.efi_stack.specs.Answering.{AnswersAs, IsPosted, after_ok, came};
ghost use Rattle.efi_stack.specs.OnArp.{ArpAnswers, IsMade, after_arp, after_configure, after_create, after_post, configure_refusal_of, fired, post_refusal_of, state_refusal};

use crate::any::{Answer, AnyCfg, AnyHandle, AnyWork, ArpCall, Fired};
use crate::on_snp::answer_of;
use drv_arp::{ArpK, ArpWork, DrvArp};
use efi_base::{Owner, Refuse, Refused, TokenId};
use efi_book::{Done, Handle};

pub(crate) fn create(arp: &mut DrvArp) -> Answer
    ensures answer { AnswersAs (create_refusal arp.old.drive.family) None (IsMade arp.old result) result }
    ensures after { arp.new ≡ after_create arp.old result }
    ensures keeps { Keeps arp.old.drive.tokens arp.new.drive.tokens }
    ensures moment { arp.new.moment ≡ arp.old.moment }
{
    match arp.create() {
        Ok(h) => Answer::Made(AnyHandle::Arp(h)),
        Err(why) => Answer::Refused(why, None),
    }
}

pub(crate) fn destroy(arp: &mut DrvArp, h: Handle<ArpK>) -> Answer
    ensures answer { AnswersAs (handle_refusal arp.old.drive.family h.key h.serial) None (result ≡ Answer.Done) result }
    ensures after { arp.new ≡ after_ok result arp.old (in_drive arp.old (destroyed arp.old.drive h.key h.serial)) }
    ensures keeps { Keeps arp.old.drive.tokens arp.new.drive.tokens }
    ensures moment { arp.new.moment ≡ arp.old.moment }
{
    answer_of(arp.destroy(h))
}

/// Why a child gets no configuration, by its handle and the device.
fn state_refusal(arp: &DrvArp, on: bool, h: Handle<ArpK>) -> Option<Refuse>
    ensures { result ≡ state_refusal arp.now on h.key h.serial }
{
    match arp.mode(h) {
        Ok(_) => {
            if !on {
                return Some(Refuse::NotStarted);
            }
            None
        }
        Err(why) => Some(why),
    }
}

/// `on` says that the device is initialized.
pub(crate) fn configure(arp: &mut DrvArp, on: bool, h: Handle<ArpK>, c: Option<AnyCfg>) -> Answer
    ensures answer { AnswersAs (configure_refusal_of arp.old on h.key h.serial c) None (result ≡ Answer.Done) result }
    ensures after { arp.new ≡ after_ok result arp.old (after_configure arp.old h.key h.serial c) }
    ensures keeps { Keeps arp.old.drive.tokens arp.new.drive.tokens }
    ensures moment { arp.new.moment ≡ arp.old.moment }
{
    match c {
        None => answer_of(arp.configure(h, None)),
        Some(AnyCfg::Arp(cfg)) => {
            if let Some(why) = state_refusal(arp, on, h) {
                return Answer::Refused(why, None);
            }
            answer_of(arp.configure(h, Some(cfg)))
        }
        Some(AnyCfg::Mnp(_)) => Answer::Refused(Refuse::BadHandle, None),
    }
}

pub(crate) fn cancel(arp: &mut DrvArp, h: Handle<ArpK>, t: Option<TokenId>) -> Answer
    ensures answer { AnswersAs (drive_token_refusal arp.old.drive h.key h.serial t) None (result ≡ Answer.Done) result }
    ensures after { arp.new ≡ after_ok result arp.old (in_drive arp.old (drive_token_cancelled arp.old.drive h.serial t)) }
    ensures keeps { Keeps arp.old.drive.tokens arp.new.drive.tokens }
    ensures moment { arp.new.moment ≡ arp.old.moment }
{
    answer_of(arp.cancel_token(h, t))
}

/// Why a post would be refused, but for want of memory.
pub(crate) fn refusal(
    arp: &DrvArp,
    h: Handle<ArpK>,
    token: TokenId,
    work: &AnyWork,
) -> Option<Refuse>
    ensures { result ≡ post_refusal_of arp.now h.key h.serial token work.now }
{
    match work {
        AnyWork::Arp(_) => arp.refusal(h, Owner::User(token)),
        AnyWork::Mnp(_) => Some(Refuse::BadHandle),
    }
}

pub(crate) fn post(arp: &mut DrvArp, h: Handle<ArpK>, token: TokenId, work: AnyWork) -> Answer
    ensures answer { AnswersAs (post_refusal_of arp.old h.key h.serial token work) (Some work) (IsPosted token work result) result }
    ensures after { arp.new ≡ after_post arp.old h.key h.serial token work result }
    ensures keeps { (o : OwnerValue) → times o arp.new.drive.tokens ≡ times o arp.old.drive.tokens + came o result }
    ensures moment { arp.new.moment ≡ arp.old.moment }
{
    match work {
        AnyWork::Arp(inner) => match arp.post(h, Owner::User(token), inner) {
            Ok(_) => Answer::Posted(token),
            Err(Refused { why, work }) => Answer::Refused(why, Some(AnyWork::Arp(work))),
        },
        AnyWork::Mnp(other) => Answer::Refused(Refuse::BadHandle, Some(AnyWork::Mnp(other))),
    }
}

/// A token that has ended, as its caller gets it.
pub(crate) fn shown(d: Done<ArpWork>) -> Fired
    ensures { result ≡ fired d }
{
    Fired {
        token: d.token,
        end: d.end,
        work: AnyWork::Arp(d.work),
    }
}

/// A call on the cache.
pub(crate) fn call(arp: &mut DrvArp, c: ArpCall) -> Answer
    ensures answer { ArpAnswers arp.old c result }
    ensures after { arp.new ≡ after_arp arp.old c result }
    ensures keeps { Keeps arp.old.drive.tokens arp.new.drive.tokens }
    ensures moment { arp.new.moment ≡ arp.old.moment }
{
    match c {
        ArpCall::Add(h, ip, mac, fixed, over) => answer_of(arp.add(h, ip, mac, fixed, over)),
        ArpCall::Find(h, ip) => match arp.find(h, ip) {
            Ok(mac) => Answer::Found(mac),
            Err(why) => Answer::Refused(why, None),
        },
        ArpCall::Delete(h, ip) => answer_of(arp.delete(h, ip)),
        ArpCall::Flush(h) => answer_of(arp.flush(h)),
    }
}
