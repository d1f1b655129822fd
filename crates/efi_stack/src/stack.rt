//! The stack and its calls. Heard frames, ticks, and what goes to the link, stand elsewhere.
ghost use Rattle.std.specs.Prelude.{◌≡◌, ℕ, ◌+◌, None, Some, IfOk};
ghost use Rattle.efi_base.specs.declared.tokens.Owner.{Owner as OwnerValue};
ghost use Rattle.efi_stack.specs.Answering.{AnswersAs, IsPosted, came};
ghost use Rattle.efi_stack.specs.Traces.{Called, IsStep};
ghost use Rattle.efi_stack.specs.Stacks.{Accepts, Answers, Holds, IsMade, after, after_cancel, after_configure, after_create, after_destroy, after_post_on, cancel_refusal, configure_refusal, create_refusal, destroy_refusal, is_on, is_used, moment_of, new_stack, owned, post_refusal_on, refusal};

use crate::any::{Answer, AnyCfg, AnyHandle, AnyWork, Call, Layer};
use crate::{on_arp, on_mnp, on_snp};
use drv_arp::DrvArp;
use drv_mnp::DrvMnp;
use drv_snp::{Snp, State};
use efi_base::{Mac, NoMemory, Refuse, TokenId};
use std::alloc::Global;

/// The drivers of one station, the lowest first, and the number of the next token.
#[derive(Drop)]
pub struct Stack {
    pub(crate) snp: Snp,
    pub(crate) mnp: DrvMnp,
    pub(crate) arp: DrvArp,
    pub(crate) next: u64,
}

impl Stack {
    /// The station of this address, with a stopped device and no children. It takes the room of all children.
    pub fn new(alloc: Global, mac: Mac) -> Result<Stack, NoMemory>
        ensures { IfOk result (λ s. s ≡ new_stack mac) }
    {
        let snp = Snp::new(alloc, mac)?;
        let mnp = DrvMnp::new(alloc, mac)?;
        let arp = DrvArp::new(alloc, mac)?;
        Ok(Stack {
            snp,
            mnp,
            arp,
            next: 1,
        })
    }

    /// Answers at once, and changes nothing where it refuses. What is to be sent goes by `poll`, and what has ended is taken
    /// by `take_fired`.
    pub fn call(&mut self, c: Call) -> Answer
        ensures answer { Answers self.old c result }
        ensures after { self.new ≡ after self.old c result }
        ensures step { IsStep self.old (Called c result) self.new }
        ensures moment { moment_of self.new ≡ moment_of self.old }
    {
        match c {
            Call::Snp(c) => {
                let busy = self.is_used();
                on_snp::call(&mut self.snp, busy, c)
            }
            Call::Create(layer) => self.create(layer),
            Call::Destroy(h) => self.destroy(h),
            Call::Configure(h, c) => self.configure(h, c),
            Call::Cancel(h, t) => self.cancel(h, t),
            Call::Post(h, work) => self.post(h, work),
            Call::Arp(c) => on_arp::call(&mut self.arp, c),
        }
    }

    /// Whether a caller's child is configured.
    fn is_used(&self) -> bool
        ensures { result ≡ is_used self.now }
    {
        self.mnp.is_busy() || self.arp.is_busy()
    }

    /// Whether the device is initialized.
    pub(crate) fn is_on(&self) -> bool
        ensures { result ≡ is_on self.now }
    {
        match self.snp.state() {
            State::Stopped => false,
            State::Started => false,
            State::Initialized => true,
        }
    }

    fn create(&mut self, layer: Layer) -> Answer
        ensures answer { AnswersAs (create_refusal self.old layer) None (IsMade self.old layer result) result }
        ensures after { self.new ≡ after_create self.old layer result }
        ensures keeps { Holds self.old self.new }
        ensures moment { moment_of self.new ≡ moment_of self.old }
    {
        match layer {
            Layer::Mnp => on_mnp::create(&mut self.mnp),
            Layer::Arp => on_arp::create(&mut self.arp),
        }
    }

    fn destroy(&mut self, h: AnyHandle) -> Answer
        ensures answer { AnswersAs (destroy_refusal self.old h) None (result ≡ Answer.Done) result }
        ensures after { self.new ≡ after_destroy self.old h result }
        ensures keeps { Holds self.old self.new }
        ensures moment { moment_of self.new ≡ moment_of self.old }
    {
        match h {
            AnyHandle::Mnp(h) => on_mnp::destroy(&mut self.mnp, h),
            AnyHandle::Arp(h) => on_arp::destroy(&mut self.arp, h),
        }
    }

    fn configure(&mut self, h: AnyHandle, c: Option<AnyCfg>) -> Answer
        ensures answer { AnswersAs (configure_refusal self.old h c) None (result ≡ Answer.Done) result }
        ensures after { self.new ≡ after_configure self.old h c result }
        ensures keeps { Holds self.old self.new }
        ensures moment { moment_of self.new ≡ moment_of self.old }
    {
        let on = self.is_on();
        match h {
            AnyHandle::Mnp(h) => on_mnp::configure(&mut self.mnp, on, h, c),
            AnyHandle::Arp(h) => on_arp::configure(&mut self.arp, on, h, c),
        }
    }

    fn cancel(&mut self, h: AnyHandle, t: Option<TokenId>) -> Answer
        ensures answer { AnswersAs (cancel_refusal self.old h t) None (result ≡ Answer.Done) result }
        ensures after { self.new ≡ after_cancel self.old h t result }
        ensures keeps { Holds self.old self.new }
        ensures moment { moment_of self.new ≡ moment_of self.old }
    {
        match h {
            AnyHandle::Mnp(h) => on_mnp::cancel(&mut self.mnp, h, t),
            AnyHandle::Arp(h) => on_arp::cancel(&mut self.arp, h, t),
        }
    }

    /// Why its driver would refuse a post, but for want of memory.
    fn post_refusal_on(&self, h: AnyHandle, token: TokenId, work: &AnyWork) -> Option<Refuse>
        ensures { result ≡ post_refusal_on self.now h token work.now }
    {
        match h {
            AnyHandle::Mnp(h) => on_mnp::refusal(&self.mnp, h, token, work),
            AnyHandle::Arp(h) => on_arp::refusal(&self.arp, h, token, work),
        }
    }

    /// The post to its driver, of a token with this number.
    fn post_on(&mut self, h: AnyHandle, token: TokenId, work: AnyWork) -> Answer
        ensures answer { AnswersAs (post_refusal_on self.old h token work) (Some work) (IsPosted token work result) result }
        ensures after { self.new ≡ after_post_on self.old h token work result }
        ensures keeps { (o : OwnerValue) → owned o self.new ≡ owned o self.old + came o result }
        ensures moment { moment_of self.new ≡ moment_of self.old }
    {
        match h {
            AnyHandle::Mnp(h) => on_mnp::post(&mut self.mnp, h, token, work),
            AnyHandle::Arp(h) => on_arp::post(&mut self.arp, h, token, work),
        }
    }

    fn post(&mut self, h: AnyHandle, work: AnyWork) -> Answer
        ensures answer { Answers self.old (Call.Post h work) result }
        ensures after { self.new ≡ after self.old (Call.Post h work) result }
        ensures keeps { (o : OwnerValue) → owned o self.new ≡ owned o self.old + came o result }
        ensures moment { moment_of self.new ≡ moment_of self.old }
    {
        let token = TokenId(self.next);
        if self.next == u64::MAX {
            return match self.post_refusal_on(h, token, &work) {
                Some(why) => Answer::Refused(why, Some(work)),
                None => Answer::Refused(Refuse::Exhausted, Some(work)),
            };
        }
        let answer = self.post_on(h, token, work);
        if let Answer::Posted(_) = answer {
            self.next += 1;
        }
        answer
    }
}
