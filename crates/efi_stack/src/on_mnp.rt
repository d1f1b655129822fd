//! Calls on MNP as callers make them.
ghost use Rattle.std.specs.Prelude.{◌≡◌, ◌+◌, None, Some};
ghost use Rattle.efi_base.specs.declared.tokens.Owner.{Owner as OwnerValue};
ghost use Rattle.efi_book.specs.Books.{Keeps, times};
ghost use Rattle.efi_book.specs.Cores.{destroyed, drive_token_cancelled, drive_token_refusal};
ghost use Rattle.efi_book.specs.Families.{create_refusal, handle_refusal};
ghost use Rattle.drv_mnp.specs.Mnps.{in_drive};
ghost use Rattle.efi_stack.specs.Answering.{AnswersAs, IsPosted, after_ok, came};
ghost use Rattle.efi_stack.specs.OnMnp.{IsMade, after_configure, after_create, after_post, configure_refusal_of, fired, post_refusal_of, state_refusal};

use crate::any::{Answer, AnyCfg, AnyHandle, AnyWork, Fired};
use crate::on_snp::answer_of;
use drv_mnp::{DrvMnp, Mnp, MnpWork};
use efi_base::{Owner, Refuse, Refused, TokenId};
use efi_book::{Done, Handle};

pub(crate) fn create(mnp: &mut DrvMnp) -> Answer
    ensures answer { AnswersAs (create_refusal mnp.old.drive.family) None (IsMade mnp.old result) result }
    ensures after { mnp.new ≡ after_create mnp.old result }
    ensures keeps { Keeps mnp.old.drive.tokens mnp.new.drive.tokens }
{
    match mnp.create() {
        Ok(h) => Answer::Made(AnyHandle::Mnp(h)),
        Err(why) => Answer::Refused(why, None),
    }
}

pub(crate) fn destroy(mnp: &mut DrvMnp, h: Handle<Mnp>) -> Answer
    ensures answer { AnswersAs (handle_refusal mnp.old.drive.family h.key h.serial) None (result ≡ Answer.Done) result }
    ensures after { mnp.new ≡ after_ok result mnp.old (in_drive mnp.old (destroyed mnp.old.drive h.key h.serial)) }
    ensures keeps { Keeps mnp.old.drive.tokens mnp.new.drive.tokens }
{
    answer_of(mnp.destroy(h))
}

/// Why a child gets no configuration, by its handle and the device.
fn state_refusal(mnp: &DrvMnp, on: bool, h: Handle<Mnp>) -> Option<Refuse>
    ensures { result ≡ state_refusal mnp.now on h.key h.serial }
{
    match mnp.mode(h) {
        Ok(_) => {
            if !on {
                return Some(Refuse::NotStarted);
            }
            None
        }
        Err(why) => Some(why),
    }
}

/// `on` says that the device is initialized.
pub(crate) fn configure(mnp: &mut DrvMnp, on: bool, h: Handle<Mnp>, c: Option<AnyCfg>) -> Answer
    ensures answer { AnswersAs (configure_refusal_of mnp.old on h.key h.serial c) None (result ≡ Answer.Done) result }
    ensures after { mnp.new ≡ after_ok result mnp.old (after_configure mnp.old h.key h.serial c) }
    ensures keeps { Keeps mnp.old.drive.tokens mnp.new.drive.tokens }
{
    match c {
        None => answer_of(mnp.configure(h, None)),
        Some(AnyCfg::Mnp(cfg)) => {
            if let Some(why) = state_refusal(mnp, on, h) {
                return Answer::Refused(why, None);
            }
            answer_of(mnp.configure(h, Some(cfg)))
        }
        Some(AnyCfg::Arp(_)) => Answer::Refused(Refuse::BadHandle, None),
    }
}

pub(crate) fn cancel(mnp: &mut DrvMnp, h: Handle<Mnp>, t: Option<TokenId>) -> Answer
    ensures answer { AnswersAs (drive_token_refusal mnp.old.drive h.key h.serial t) None (result ≡ Answer.Done) result }
    ensures after { mnp.new ≡ after_ok result mnp.old (in_drive mnp.old (drive_token_cancelled mnp.old.drive h.serial t)) }
    ensures keeps { Keeps mnp.old.drive.tokens mnp.new.drive.tokens }
{
    answer_of(mnp.cancel_token(h, t))
}

/// Why a post would be refused, but for want of memory.
pub(crate) fn refusal(
    mnp: &DrvMnp,
    h: Handle<Mnp>,
    token: TokenId,
    work: &AnyWork,
) -> Option<Refuse>
    ensures { result ≡ post_refusal_of mnp.now h.key h.serial token work.now }
{
    match work {
        AnyWork::Mnp(inner) => mnp.refusal(h, Owner::User(token), inner),
        AnyWork::Arp(_) => Some(Refuse::BadHandle),
    }
}

pub(crate) fn post(mnp: &mut DrvMnp, h: Handle<Mnp>, token: TokenId, work: AnyWork) -> Answer
    ensures answer { AnswersAs (post_refusal_of mnp.old h.key h.serial token work) (Some work) (IsPosted token work result) result }
    ensures after { mnp.new ≡ after_post mnp.old h.key h.serial token work result }
    ensures keeps { (o : OwnerValue) → times o mnp.new.drive.tokens ≡ times o mnp.old.drive.tokens + came o result }
{
    match work {
        AnyWork::Mnp(inner) => match mnp.post(h, Owner::User(token), inner) {
            Ok(_) => Answer::Posted(token),
            Err(Refused { why, work }) => Answer::Refused(why, Some(AnyWork::Mnp(work))),
        },
        AnyWork::Arp(other) => Answer::Refused(Refuse::BadHandle, Some(AnyWork::Arp(other))),
    }
}

/// A token that has ended, as its caller gets it.
pub(crate) fn shown(d: Done<MnpWork>) -> Fired
    ensures { result ≡ fired d }
{
    Fired {
        token: d.token,
        end: d.end,
        work: AnyWork::Mnp(d.work),
    }
}
