//! The driver and its calls: children of callers and of the stack, their tokens, and the frames for the device. Which
//! children hear a frame is decided elsewhere.
ghost use Rattle.std.specs.Prelude.{◌≡◌, ℕ, ◌+◌, ◌≤◌, length, slice_get, None, true, IfOk, IfErr, IfSome, IfNone, OnOk, OnErr};
ghost use Rattle.efi_base.specs.Refusals.{AnswersBy, RefusesExactly};
ghost use Rattle.efi_base.specs.declared.tokens.Owner.{Owner as OwnerValue};
ghost use Rattle.efi_book.specs.Books.{Keeps, given, given_up, owner_aborted, times, without_done, without_up};
ghost use Rattle.efi_base.specs.declared.refuse.Refuse.TheVariants.{OutOfResources};
ghost use Rattle.efi_book.specs.Drives.{drive};
ghost use Rattle.efi_book.specs.Cores.{post_refusal as core_post_refusal, posted, cfg_of, configure_refusal, configured, destroyed, drive_cancel_refusal, drive_cancelled, drive_token_cancelled, drive_token_refusal, in_outbox, in_tokens, is_busy, made, own_made};
ghost use Rattle.efi_book.specs.Families.{create_own_refusal, create_refusal, handle_refusal};
ghost use Rattle.efi_book.specs.Outboxes.{asked, without_first};
ghost use Rattle.efi_book.specs.Owners.{gained};
ghost use Rattle.drv_mnp.specs.declared.work.MnpWork.TheVariants.{Transmit};
ghost use Rattle.drv_mnp.specs.Mnps.{end_of, frame_sent, framed, heard, in_drive, is_heard, new_state, post_refusal, token_posted};

use crate::framing::make_frame;
use crate::hearing::{Arrival, give_all};
use crate::work::{Framed, Mnp, MnpCfg, MnpTx, MnpWork, NOBODY, is_long, is_transmit};
use efi_base::{
    Bytes, ChildId, End, Field, Mac, NoMemory, Owner, Refuse, Refused, Ticket, TokenId,
};
use efi_book::{Core, Done, Handle, OWN_CHILDREN, Raised};
use std::alloc::Global;
use std::marker::Model;
use wire_link::read_ether;

/// What the driver is made of.
type MnpCore = Core<Mnp, MnpCfg, MnpWork, Framed>;

/// MNP at the station of this address.
#[derive(Drop)]
pub struct DrvMnp {
    core: MnpCore,
    mac: Mac,
    alloc: Global,
}

impl Model for DrvMnp {
    ghost use Rattle.efi_book.specs.Drives.{drive};
    ghost use Rattle.drv_mnp.specs.Mnps.{MnpState};

    ghost Value = { MnpState };

    ghost view = { λ d. record { drive = drive d.core; mac = d.mac } };
}

impl DrvMnp {
    /// No children and no tokens. It takes the room of all children.
    pub fn new(alloc: Global, mac: Mac) -> Result<DrvMnp, NoMemory>
        ensures { IfOk result (λ d. d ≡ new_state mac 258) }
    {
        let core = Core::new(alloc, Mnp, OWN_CHILDREN)?;
        Ok(DrvMnp { core, mac, alloc })
    }

    /// One more child of a caller, without a configuration. It takes no memory.
    pub fn create(&mut self) -> Result<Handle<Mnp>, Refuse>
        ensures answer { RefusesExactly (create_refusal self.old.drive.family) result }
        ensures ok { IfOk result (λ h. (h.serial ≡ self.old.drive.family.next) × (self.new ≡ in_drive self.old (made self.old.drive h.key))) }
        ensures err { IfErr result (λ _. self.new ≡ self.old) }
    {
        self.core.create()
    }

    /// One more child that the stack keeps for itself. It takes no memory.
    pub fn create_own(&mut self) -> Result<Handle<Mnp>, Refuse>
        ensures answer { RefusesExactly (create_own_refusal self.old.drive.family) result }
        ensures ok { IfOk result (λ h. (h.serial ≡ self.old.drive.family.next) × (self.new ≡ in_drive self.old (own_made self.old.drive h.key))) }
        ensures err { IfErr result (λ _. self.new ≡ self.old) }
    {
        self.core.create_own()
    }

    /// The child is gone, and its pending tokens end as aborted. It takes no memory. A frame that one of them asked for
    /// is still sent.
    pub fn destroy(&mut self, h: Handle<Mnp>) -> Result<(), Refuse>
        ensures answer { RefusesExactly (handle_refusal self.old.drive.family h.key h.serial) result }
        ensures ok { IfOk result (λ _. self.new ≡ in_drive self.old (destroyed self.old.drive h.key h.serial)) }
        ensures err { IfErr result (λ _. self.new ≡ self.old) }
        ensures keeps { Keeps self.old.drive.tokens self.new.drive.tokens }
    {
        self.core.destroy(h)
    }

    /// With data the child gets it; without, the child is reset, and its pending tokens end as aborted. It takes no
    /// memory. A frame that one of them asked for is still sent.
    pub fn configure(&mut self, h: Handle<Mnp>, cfg: Option<MnpCfg>) -> Result<(), Refuse>
        ensures answer { RefusesExactly (configure_refusal self.old.drive h.key h.serial cfg) result }
        ensures ok { IfOk result (λ _. self.new ≡ in_drive self.old (configured self.old.drive h.key h.serial cfg)) }
        ensures err { IfErr result (λ _. self.new ≡ self.old) }
        ensures keeps { Keeps self.old.drive.tokens self.new.drive.tokens }
    {
        self.core.configure(h, cfg)
    }

    /// The child's configuration, `None` where there is none.
    pub fn mode(&self, h: Handle<Mnp>) -> Result<Option<MnpCfg>, Refuse>
        ensures answer { RefusesExactly (handle_refusal self.now.drive.family h.key h.serial) result }
        ensures ok { IfOk result (λ cfg. cfg ≡ cfg_of self.now.drive h.key h.serial) }
    {
        self.core.mode(h)
    }

    /// Whether a caller's child is configured.
    pub fn is_busy(&self) -> bool
        ensures { result ≡ is_busy self.now.drive }
    {
        self.core.is_busy()
    }

    /// The child's pending token of this ticket ends as aborted, or each of its pending tokens. It takes no memory. A
    /// frame that one of them asked for is still sent.
    pub fn cancel(&mut self, h: Handle<Mnp>, t: Option<Ticket>) -> Result<(), Refuse>
        ensures answer { RefusesExactly (drive_cancel_refusal self.old.drive h.key h.serial t) result }
        ensures ok { IfOk result (λ _. self.new ≡ in_drive self.old (drive_cancelled self.old.drive h.serial t)) }
        ensures err { IfErr result (λ _. self.new ≡ self.old) }
        ensures keeps { Keeps self.old.drive.tokens self.new.drive.tokens }
    {
        self.core.cancel(h, t)
    }

    /// As `cancel`, of a caller's token by its number.
    pub fn cancel_token(&mut self, h: Handle<Mnp>, t: Option<TokenId>) -> Result<(), Refuse>
        ensures answer { RefusesExactly (drive_token_refusal self.old.drive h.key h.serial t) result }
        ensures ok { IfOk result (λ _. self.new ≡ in_drive self.old (drive_token_cancelled self.old.drive h.serial t)) }
        ensures err { IfErr result (λ _. self.new ≡ self.old) }
        ensures keeps { Keeps self.old.drive.tokens self.new.drive.tokens }
    {
        self.core.cancel_token(h, t)
    }

    /// Every pending token of the owner ends as aborted, by rising ticket. It takes no memory. A frame that one of them
    /// asked for is still sent.
    pub fn abort_owner(&mut self, owner: Owner)
        ensures after { self.new ≡ in_drive self.old (in_tokens self.old.drive (owner_aborted self.old.drive.tokens owner)) }
        ensures keeps { Keeps self.old.drive.tokens self.new.drive.tokens }
    {
        self.core.abort_owner(owner);
    }

    /// Takes a token of a configured child in. A transmit asks for its frame at once; its memory is taken before. A
    /// receive waits for a frame.
    pub fn post(
        &mut self,
        h: Handle<Mnp>,
        owner: Owner,
        work: MnpWork,
    ) -> Result<Ticket, Refused<MnpWork>>
        ensures answer { AnswersBy (post_refusal self.old h.key h.serial owner work) result }
        ensures ok { IfOk result (λ t. (t.0 ≡ self.old.drive.tokens.next) × (self.new ≡ token_posted self.old h.serial owner work)) }
        ensures err { IfErr result (λ r. (r.work ≡ work) × (self.new ≡ self.old)) }
        ensures keeps { (o : OwnerValue) → times o self.new.drive.tokens ≡ times o self.old.drive.tokens + gained o owner result }
    {
        if let Some(why) = self.refusal(h, owner, &work) {
            return Err(Refused { why, work });
        }
        match work {
            MnpWork::Transmit(tx) => self.post_transmit(h, owner, tx),
            MnpWork::Receive(got) => self.core.accept(h, owner, MnpWork::Receive(got)),
        }
    }

    /// Why `post` would refuse, but for want of memory.
    pub fn refusal(&self, h: Handle<Mnp>, owner: Owner, work: &MnpWork) -> Option<Refuse>
        ensures { result ≡ post_refusal self.now h.key h.serial owner work.now }
    {
        let cfg = match self.core.mode(h) {
            Ok(cfg) => cfg,
            Err(why) => return Some(why),
        };
        if let None = cfg {
            return Some(Refuse::NotStarted);
        }
        if is_long(work) {
            return Some(Refuse::BadConfig(Field::Length));
        }
        self.core.tokens.refusal(ChildId(h.serial), owner)
    }

    /// Takes a transmit in that nothing refuses, with its frame.
    fn post_transmit(
        &mut self,
        h: Handle<Mnp>,
        owner: Owner,
        tx: MnpTx,
    ) -> Result<Ticket, Refused<MnpWork>>
        requires { post_refusal self.old h.key h.serial owner (Transmit tx) ≡ None }
        ensures answer { IfErr result (λ r. r.why ≡ OutOfResources) }
        ensures ok { IfOk result (λ t. (t.0 ≡ self.old.drive.tokens.next) × (self.new ≡ token_posted self.old h.serial owner (Transmit tx))) }
        ensures err { IfErr result (λ r. (r.work ≡ Transmit tx) × (self.new ≡ self.old)) }
        ensures keeps { (o : OwnerValue) → times o self.new.drive.tokens ≡ times o self.old.drive.tokens + gained o owner result }
    {
        match make_frame(
            self.alloc,
            tx.dest,
            self.mac,
            tx.proto,
            tx.payload.as_slice(),
        ) {
            Ok(frame) => accept_with(&mut self.core, h, owner, MnpWork::Transmit(tx), frame),
            Err(_) => Err(Refused {
                why: Refuse::OutOfResources,
                work: MnpWork::Transmit(tx),
            }),
        }
    }

    /// Puts a frame of another protocol of the stack behind the others for the device; no token waits for it.
    pub fn put(&mut self, dest: Mac, kind: u16, payload: &[u8]) -> Result<(), NoMemory>
        requires { length payload.now ≤ 1500 }
        ensures ok { OnOk result (self.new ≡ framed self.old dest.0 kind payload.now 0) }
        ensures err { OnErr result (self.new ≡ self.old) }
    {
        let frame = make_frame(self.alloc, dest, self.mac, kind, payload)?;
        self.core.outbox.ask(Framed {
            frame,
            mark: NOBODY,
        })
    }

    /// A frame was heard. The oldest receive token of each configured child for which it is ends with it. Octets without
    /// a whole header are no frame. Memory is taken only for the tokens that end. After `NoMemory` some of the children
    /// may have got it.
    pub fn deliver(&mut self, frame: &[u8]) -> Result<(), NoMemory>
        ensures ok { OnOk result (self.new ≡ heard self.old frame.now) }
        ensures free { OnErr result (is_heard self.old frame.now ≡ true) }
        ensures keeps { Keeps self.old.drive.tokens self.new.drive.tokens }
    {
        let Ok(ether) = read_ether(frame) else {
            return Ok(());
        };
        let a = Arrival {
            mac: self.mac,
            ether,
            octets: frame,
        };
        give_all(&self.core.children, &mut self.core.tokens, self.alloc, &a)
    }

    /// The frame of this mark was handed to the link, which took it or lost it: the pending transmit token of this ticket
    /// ends. Where there is none, nothing changes. It takes no memory.
    pub fn sent(&mut self, mark: u64, ok: bool)
        ensures after { self.new ≡ frame_sent self.old mark ok }
        ensures keeps { Keeps self.old.drive.tokens self.new.drive.tokens }
    {
        let ticket = Ticket(mark);
        if !is_transmit(self.core.tokens.work(ticket)) {
            return;
        }
        self.core.tokens.complete(ticket, end_of(ok));
    }

    /// The caller's token that ended first. It takes no memory.
    pub fn take_done(&mut self) -> Option<Done<MnpWork>>
        ensures first { result ≡ slice_get self.old.drive.tokens.done 0 }
        ensures some { IfSome result (λ _. self.new ≡ in_drive self.old (in_tokens self.old.drive (without_done self.old.drive.tokens))) }
        ensures none { IfNone result (self.new ≡ self.old) }
        ensures keeps { (o : OwnerValue) → times o self.new.drive.tokens + given o result ≡ times o self.old.drive.tokens }
    {
        self.core.take_done()
    }

    /// The token of a driver above that ended first. It takes no memory.
    pub fn take_up(&mut self) -> Option<Raised<MnpWork>>
        ensures first { result ≡ slice_get self.old.drive.tokens.ups 0 }
        ensures some { IfSome result (λ _. self.new ≡ in_drive self.old (in_tokens self.old.drive (without_up self.old.drive.tokens))) }
        ensures none { IfNone result (self.new ≡ self.old) }
        ensures keeps { (o : OwnerValue) → times o self.new.drive.tokens + given_up o result ≡ times o self.old.drive.tokens }
    {
        self.core.take_up()
    }

    /// The frame for the device that waits longest. It takes no memory.
    pub fn take_down(&mut self) -> Option<Framed>
        ensures first { result ≡ slice_get self.old.drive.outbox.messages 0 }
        ensures some { IfSome result (λ _. self.new ≡ in_drive self.old (in_outbox self.old.drive (without_first self.old.drive.outbox))) }
        ensures none { IfNone result (self.new ≡ self.old) }
    {
        self.core.take_down()
    }
}

/// Takes a token in that nothing refuses, and puts its frame behind the others.
fn accept_with(
    core: &mut MnpCore,
    h: Handle<Mnp>,
    owner: Owner,
    work: MnpWork,
    frame: Bytes,
) -> Result<Ticket, Refused<MnpWork>>
    requires { core_post_refusal (drive core.old) h.key h.serial owner ≡ None }
    ensures answer { IfErr result (λ r. r.why ≡ OutOfResources) }
    ensures ok { IfOk result (λ t. (t.0 ≡ (drive core.old).tokens.next) × (drive core.new ≡ in_outbox (posted (drive core.old) h.serial owner work) (asked (drive core.old).outbox (record { frame = frame; mark = (drive core.old).tokens.next })))) }
    ensures err { IfErr result (λ r. (r.work ≡ work) × (drive core.new ≡ drive core.old)) }
    ensures keeps { (o : OwnerValue) → times o (drive core.new).tokens ≡ times o (drive core.old).tokens + gained o owner result }
{
    if core.outbox.take_room().is_err() {
        return Err(Refused {
            why: Refuse::OutOfResources,
            work,
        });
    }
    match core.accept(h, owner, work) {
        Ok(ticket) => {
            core.outbox.put(Framed {
                frame,
                mark: ticket.0,
            });
            Ok(ticket)
        }
        Err(refused) => {
            core.outbox.give_room();
            Err(refused)
        }
    }
}

fn end_of(ok: bool) -> End
    ensures { result ≡ end_of ok }
{
    if ok {
        return End::Success;
    }
    End::DeviceError
}
