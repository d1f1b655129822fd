//! Calls on the device as callers make them.
ghost use Rattle.std.specs.Prelude.{◌≡◌, None};
ghost use Rattle.efi_stack.specs.Answering.{AnswersAs, after_ok, answer_of};
ghost use Rattle.efi_stack.specs.OnSnp.{after_snp, snp_refusal};

use crate::any::{Answer, SnpCall};
use drv_snp::Snp;
use efi_base::Refuse;

/// What a call answers that hands nothing back.
pub(crate) fn answer_of(r: Result<(), Refuse>) -> Answer
    ensures { result ≡ answer_of r }
{
    match r {
        Ok(()) => Answer::Done,
        Err(why) => Answer::Refused(why, None),
    }
}

/// `busy` says that a caller's child is configured.
pub(crate) fn call(snp: &mut Snp, busy: bool, c: SnpCall) -> Answer
    ensures answer { AnswersAs (snp_refusal snp.old busy c) None (result ≡ Answer.Done) result }
    ensures after { snp.new ≡ after_ok result snp.old (after_snp snp.old c) }
{
    match c {
        SnpCall::Start => answer_of(snp.start()),
        SnpCall::Initialize => answer_of(snp.initialize()),
        SnpCall::Shutdown => answer_of(snp.shutdown(busy)),
        SnpCall::Stop => answer_of(snp.stop()),
        SnpCall::Filters(mask) => answer_of(snp.filters(mask)),
    }
}
