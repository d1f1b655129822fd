//! What every driver is made of: its children with their configurations, its tokens, and its messages for the layer
//! below. The rules of one protocol aren't here.
//!
//! A driver owns one `Core`, and calls it in this order:
//! 1. `new`, once, which takes the room for all children.
//! 2. `create` and `destroy` for the caller's calls of these names; `create_own` for a child that the stack keeps.
//! 3. `configure`, after the tests of the driver's own on the configuration: it refuses for the handle and the state
//!    first, so a driver asks `mode` before its own tests.
//! 4. `post`: `mode`, the driver's own refusals, `outbox.reserve` for the messages that the token will send, and last
//!    `accept`, so that a refused post changes nothing. From then on the token's end takes no memory.
//! 5. `tokens.oldest`, `oldest_kind` and `work` to find what an event is for, `tokens.work_mut` to change what a token
//!    waits with, and `complete` or `complete_with` for its end; `is_busy` where the driver works only while a caller's
//!    child is configured; `abort_owner` where the layer above withdraws what it waits for; `outbox.put` for what is sent.
//! 6. `cancel` or `cancel_token` for the caller's cancel of one token or of all.
//! 7. after each event `take_done` for callers, `take_up` for the driver above and `take_down` for the layer below,
//!    each until it gives `None`.
ghost use Rattle.std.specs.Prelude.{◌≡◌, ℕ, ◌+◌, ◌<◌, ◌≤◌, IfOk, IfErr, IfSome, IfNone, OnErr, slice_get};
ghost use Rattle.efi_base.specs.Refusals.{AnswersBy, RefusesExactly};
ghost use Rattle.efi_book.specs.Families.{create_refusal, create_own_refusal, handle_refusal, is_callers as callers};
ghost use Rattle.efi_book.specs.Books.{completed, completed_with, owner_aborted, without_done, without_up, times, given, given_up, Keeps};
ghost use Rattle.efi_book.specs.Owners.{gained};
ghost use Rattle.efi_base.specs.declared.tokens.Owner.{Owner as OwnerValue};
ghost use Rattle.efi_book.specs.Outboxes.{without_first};

use crate::book::Book;
use crate::children::{CHILDREN, Children, Handle};
use crate::ends::{Done, Raised};
use crate::outbox::Outbox;
use efi_base::{ChildId, End, NoMemory, Owner, Refuse, Refused, Ticket, TokenId};
use std::alloc::Global;

/// The core of a driver of protocol `K`, with configurations `C`, works `W` and messages `M`.
#[derive(Drop)]
pub struct Core<K, C, W, M> {
    pub children: Children<K, Option<C>>,
    pub tokens: Book<W>,
    pub outbox: Outbox<M>,
}

impl<K: Copy + Drop, C: Copy + Drop, W: Drop, M: Drop> Core<K, C, W, M> {
    ghost use Rattle.efi_book.specs.Drives.{drive};
    ghost use Rattle.efi_book.specs.Cores.{start, start_from, cfg_of, made, own_made, destroyed, configure_refusal, configured, is_busy, drive_cancel_refusal, drive_cancelled, drive_token_refusal, drive_token_cancelled, post_refusal, posted, in_tokens, in_outbox};

    /// Room for 256 children of callers, and for `own` that the stack keeps for itself.
    pub fn new(alloc: Global, kind: K, own: u32) -> Result<Core<K, C, W, M>, NoMemory>
        ensures { IfOk result (λ c. drive c ≡ start own) }
    {
        Core::starting_at(alloc, kind, own, 1, Ticket(1))
    }

    /// As `new`, where the first serial and the first ticket are these, as after so many others.
    pub fn starting_at(
        alloc: Global,
        kind: K,
        own: u32,
        serial: u64,
        ticket: Ticket,
    ) -> Result<Core<K, C, W, M>, NoMemory>
        ensures { IfOk result (λ c. drive c ≡ start_from own serial ticket.0) }
    {
        let children = Children::starting_at(alloc, kind, CHILDREN, own, serial)?;
        Ok(Core {
            children,
            tokens: Book::starting_at(alloc, ticket),
            outbox: Outbox::new(alloc),
        })
    }

    /// One more child of a caller, without a configuration. It takes no memory.
    pub fn create(&mut self) -> Result<Handle<K>, Refuse>
        ensures answer { RefusesExactly (create_refusal (drive self.old).family) result }
        ensures ok { IfOk result (λ h. (h.serial ≡ (drive self.old).family.next) × (drive self.new ≡ made (drive self.old) h.key)) }
        ensures err { IfErr result (λ _. drive self.new ≡ drive self.old) }
    {
        match self.children.create(None) {
            Ok(h) => Ok(h),
            Err(refused) => Err(refused.why),
        }
    }

    /// One more child that the stack keeps for itself. It takes no memory.
    pub fn create_own(&mut self) -> Result<Handle<K>, Refuse>
        ensures answer { RefusesExactly (create_own_refusal (drive self.old).family) result }
        ensures ok { IfOk result (λ h. (h.serial ≡ (drive self.old).family.next) × (drive self.new ≡ own_made (drive self.old) h.key)) }
        ensures err { IfErr result (λ _. drive self.new ≡ drive self.old) }
    {
        match self.children.create_own(None) {
            Ok(h) => Ok(h),
            Err(refused) => Err(refused.why),
        }
    }

    /// The child is gone, and its pending tokens end as aborted. It takes no memory.
    pub fn destroy(&mut self, h: Handle<K>) -> Result<(), Refuse>
        ensures answer { RefusesExactly (handle_refusal (drive self.old).family h.key h.serial) result }
        ensures ok { IfOk result (λ _. drive self.new ≡ destroyed (drive self.old) h.key h.serial) }
        ensures err { IfErr result (λ _. drive self.new ≡ drive self.old) }
        ensures keeps { Keeps (drive self.old).tokens (drive self.new).tokens }
    {
        match self.children.destroy(h) {
            Ok(_) => {
                let gone = ChildId(h.serial);
                self.tokens.abort_child(gone);
                Ok(())
            }
            Err(why) => Err(why),
        }
    }

    /// The child's configuration, `None` where there is none.
    pub fn mode(&self, h: Handle<K>) -> Result<Option<C>, Refuse>
        ensures answer { RefusesExactly (handle_refusal (drive self.now).family h.key h.serial) result }
        ensures ok { IfOk result (λ c. c ≡ cfg_of (drive self.now) h.key h.serial) }
    {
        match self.children.get(h) {
            Some(c) => Ok(*c),
            None => Err(Refuse::BadHandle),
        }
    }

    /// Whether a caller's child is configured.
    pub fn is_busy(&self) -> bool
        ensures { result ≡ is_busy (drive self.now) }
    {
        let mut i = 0;
        while i < self.children.len() {
            if self.children.at(i).value.is_some() {
                return true;
            }
            i += 1;
        }
        false
    }

    /// Whether a caller's child has this handle.
    pub fn is_callers(&self, h: Handle<K>) -> bool
        ensures { result ≡ callers (drive self.now).family h.key h.serial }
    {
        self.children.is_callers(h)
    }

    /// With data the child gets it; without, the child is reset, and its pending tokens end as aborted. It takes no
    /// memory.
    pub fn configure(&mut self, h: Handle<K>, c: Option<C>) -> Result<(), Refuse>
        ensures answer { RefusesExactly (configure_refusal (drive self.old) h.key h.serial c) result }
        ensures ok { IfOk result (λ _. drive self.new ≡ configured (drive self.old) h.key h.serial c) }
        ensures err { IfErr result (λ _. drive self.new ≡ drive self.old) }
        ensures keeps { Keeps (drive self.old).tokens (drive self.new).tokens }
    {
        let old = self.mode(h)?;
        match c {
            Some(_) => {
                if let Some(_) = old {
                    return Err(Refuse::AlreadyStarted);
                }
                self.children.put(h, c);
                Ok(())
            }
            None => {
                self.children.put(h, None);
                self.tokens.abort_child(ChildId(h.serial));
                Ok(())
            }
        }
    }

    /// The child's pending token of this ticket ends as aborted, or each of its pending tokens. It takes no memory.
    pub fn cancel(&mut self, h: Handle<K>, t: Option<Ticket>) -> Result<(), Refuse>
        ensures answer { RefusesExactly (drive_cancel_refusal (drive self.old) h.key h.serial t) result }
        ensures ok { IfOk result (λ _. drive self.new ≡ drive_cancelled (drive self.old) h.serial t) }
        ensures err { IfErr result (λ _. drive self.new ≡ drive self.old) }
        ensures keeps { Keeps (drive self.old).tokens (drive self.new).tokens }
    {
        match t {
            Some(ticket) => match self.mode(h) {
                Ok(_) => self.tokens.cancel(ChildId(h.serial), ticket),
                Err(why) => Err(why),
            },
            None => match self.mode(h) {
                Ok(_) => {
                    self.tokens.abort_child(ChildId(h.serial));
                    Ok(())
                }
                Err(why) => Err(why),
            },
        }
    }

    /// As `cancel`, of a caller's token by its number.
    pub fn cancel_token(&mut self, h: Handle<K>, t: Option<TokenId>) -> Result<(), Refuse>
        ensures answer { RefusesExactly (drive_token_refusal (drive self.old) h.key h.serial t) result }
        ensures ok { IfOk result (λ _. drive self.new ≡ drive_token_cancelled (drive self.old) h.serial t) }
        ensures err { IfErr result (λ _. drive self.new ≡ drive self.old) }
        ensures keeps { Keeps (drive self.old).tokens (drive self.new).tokens }
    {
        match t {
            Some(token) => match self.mode(h) {
                Ok(_) => self.tokens.cancel_token(ChildId(h.serial), token),
                Err(why) => Err(why),
            },
            None => match self.mode(h) {
                Ok(_) => {
                    self.tokens.abort_child(ChildId(h.serial));
                    Ok(())
                }
                Err(why) => Err(why),
            },
        }
    }

    /// Takes a token of a configured child in. The rules of the protocol's own are the driver's.
    pub fn accept(&mut self, h: Handle<K>, owner: Owner, work: W) -> Result<Ticket, Refused<W>>
        ensures answer { AnswersBy (post_refusal (drive self.old) h.key h.serial owner) result }
        ensures ok { IfOk result (λ t. (t.0 ≡ (drive self.old).tokens.next) × (drive self.new ≡ posted (drive self.old) h.serial owner work)) }
        ensures err { IfErr result (λ r. (r.work ≡ work) × (drive self.new ≡ drive self.old)) }
        ensures keeps { (o : OwnerValue) → times o (drive self.new).tokens ≡ times o (drive self.old).tokens + gained o owner result }
    {
        let c = match self.mode(h) {
            Ok(c) => c,
            Err(why) => return Err(Refused { why, work }),
        };
        if let None = c {
            return Err(Refused {
                why: Refuse::NotStarted,
                work,
            });
        }
        self.tokens.accept(ChildId(h.serial), owner, work)
    }

    /// The pending token ends; where it isn't pending, nothing changes. It takes no memory.
    pub fn complete(&mut self, ticket: Ticket, end: End)
        ensures after { drive self.new ≡ in_tokens (drive self.old) (completed (drive self.old).tokens ticket end) }
        ensures keeps { Keeps (drive self.old).tokens (drive self.new).tokens }
    {
        self.tokens.complete(ticket, end);
    }

    /// As `complete`, with another work.
    pub fn complete_with(&mut self, ticket: Ticket, end: End, work: W)
        ensures after { drive self.new ≡ in_tokens (drive self.old) (completed_with (drive self.old).tokens ticket end work) }
        ensures keeps { Keeps (drive self.old).tokens (drive self.new).tokens }
    {
        self.tokens.complete_with(ticket, end, work);
    }

    /// Every pending token of the owner ends as aborted, by rising ticket. It takes no memory.
    pub fn abort_owner(&mut self, owner: Owner)
        ensures after { drive self.new ≡ in_tokens (drive self.old) (owner_aborted (drive self.old).tokens owner) }
        ensures keeps { Keeps (drive self.old).tokens (drive self.new).tokens }
    {
        self.tokens.abort_owner(owner);
    }

    /// The caller's token that ended first. It takes no memory.
    pub fn take_done(&mut self) -> Option<Done<W>>
        ensures first { result ≡ slice_get (drive self.old).tokens.done 0 }
        ensures some { IfSome result (λ _. drive self.new ≡ in_tokens (drive self.old) (without_done (drive self.old).tokens)) }
        ensures none { IfNone result (drive self.new ≡ drive self.old) }
        ensures keeps { (o : OwnerValue) → times o (drive self.new).tokens + given o result ≡ times o (drive self.old).tokens }
    {
        self.tokens.take_done()
    }

    /// The token of a driver above that ended first. It takes no memory.
    pub fn take_up(&mut self) -> Option<Raised<W>>
        ensures first { result ≡ slice_get (drive self.old).tokens.ups 0 }
        ensures some { IfSome result (λ _. drive self.new ≡ in_tokens (drive self.old) (without_up (drive self.old).tokens)) }
        ensures none { IfNone result (drive self.new ≡ drive self.old) }
        ensures keeps { (o : OwnerValue) → times o (drive self.new).tokens + given_up o result ≡ times o (drive self.old).tokens }
    {
        self.tokens.take_up()
    }

    /// The message for the layer below that waits longest. It takes no memory.
    pub fn take_down(&mut self) -> Option<M>
        ensures first { result ≡ slice_get (drive self.old).outbox.messages 0 }
        ensures some { IfSome result (λ _. drive self.new ≡ in_outbox (drive self.old) (without_first (drive self.old).outbox)) }
        ensures none { IfNone result (drive self.new ≡ drive self.old) }
    {
        self.outbox.take_down()
    }
}
