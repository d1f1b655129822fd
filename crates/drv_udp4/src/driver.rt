//! The driver and its calls: children of callers and of the stack, their tokens, and the messages for the layer below.
//! Which children hear a datagram is decided elsewhere.
ghost use Rattle.std.specs.Prelude.{◌≡◌, ℕ, ◌+◌, ◌-◌, ◌<◌, ◌≤◌, ◌^◌, ◌==◌, length, slice_get, option_map, None, Some, true, not, IfOk, IfErr, IfSome, IfNone, OnOk, OnErr};
ghost use Rattle.efi_base.specs.Refusals.{AnswersBy, RefusesExactly};
ghost use Rattle.efi_base.specs.declared.tokens.Owner.{Owner as OwnerValue};
ghost use Rattle.efi_base.specs.declared.refuse.Refuse.TheVariants.{OutOfResources};
ghost use Rattle.efi_book.specs.Books.{Keeps, given, given_up, owner_aborted, times, without_done, without_up};
ghost use Rattle.efi_book.specs.Cores.{cfg_of, configure_refusal, configured, destroyed, drive_cancel_refusal, drive_cancelled, drive_token_cancelled, drive_token_refusal, in_outbox, in_tokens, is_busy, made, own_made};
ghost use Rattle.efi_book.specs.Drives.{drive};
ghost use Rattle.efi_book.specs.Families.{create_own_refusal, create_refusal, handle_refusal};
ghost use Rattle.efi_book.specs.Outboxes.{without_first};
ghost use Rattle.efi_book.specs.Owners.{gained};
ghost use Rattle.drv_udp4.specs.declared.work.UdpWork.TheVariants.{Transmit};
ghost use Rattle.drv_udp4.specs.Networks.{addresses_of};
ghost use Rattle.drv_udp4.specs.Ticks.{acted, at, next_of, ticked};
ghost use Rattle.drv_udp4.specs.Udps.{chosen, choice, datagram_sent, done_of, heard, in_drive, in_routes, is_heard, is_stray, learned, new_state, post_refusal, posted_from, raised_of, source_of, source_refusal, told_refused, token_posted, udp_configure_refusal, udp_configured};

use crate::hearing::{Arrival, any_hears, give_all};
use crate::icmp::{quoted, tell_all};
use crate::networks::{address_named, address_of};
use crate::ports::{PORTS, next_free, port_at, with_port};
use crate::refusing::{cfg_refusal, work_refusal};
use crate::sending::{Source, UdpCore, accept_plain, accept_with, make_text};
use crate::waiting::{end_due, end_homeless, next_after};
use crate::work::{
    Udp4, UdpCfg, UdpOut, UdpTx, UdpWork, ask_at, is_transmit, plain_done, plain_raised,
};
use efi_base::{
    Addr, ChildId, End, IpPacket, NoMemory, Owner, Refuse, Refused, Tick, Ticket, TokenId,
};
use efi_book::{Core, Done, Handle, OWN_CHILDREN, Raised};
use ip_core::Routes;
use std::alloc::Global;
use std::marker::Model;
use wire_l4::read_udp;

/// UDP4 of a station.
#[derive(Drop)]
pub struct DrvUdp4 {
    core: UdpCore,
    seed: u32,
    tried: u32,
    home: Option<Addr>,
    routes: Routes,
    moment: Tick,
    alloc: Global,
}

impl Model for DrvUdp4 {
    ghost use Rattle.std.specs.Prelude.{◌≤◌, ◌<◌, ◌^◌};
    ghost use Rattle.efi_book.specs.Drives.{drive};
    ghost use Rattle.drv_udp4.specs.Udps.{UdpState};

    ghost Value = { UdpState };

    ghost view = { λ d. record { drive = drive d.core; seed = d.seed; tried = d.tried; home = d.home; routes = d.routes; moment = d.moment } };

    ghost invariant = { λ d. (d.tried < 16384) × (d.moment.0 ≤ 2 ^ 62) };
}

impl DrvUdp4 {
    /// No children and no tokens, no default address and no routes, at the moment 0. The ports that are chosen for
    /// children follow from the seed. It takes the room of all children.
    pub fn new(alloc: Global, seed: u32) -> Result<DrvUdp4, NoMemory>
        ensures { IfOk result (λ d. d ≡ new_state 258 seed) }
    {
        let core = Core::new(alloc, Udp4, OWN_CHILDREN)?;
        Ok(DrvUdp4 {
            core,
            seed,
            tried: 0,
            home: None,
            routes: Routes::new(),
            moment: Tick(0),
            alloc,
        })
    }

    /// One more child of a caller, without a configuration. It takes no memory.
    pub fn create(&mut self) -> Result<Handle<Udp4>, Refuse>
        ensures answer { RefusesExactly (create_refusal self.old.drive.family) result }
        ensures ok { IfOk result (λ h. (h.serial ≡ self.old.drive.family.next) × (self.new ≡ in_drive self.old (made self.old.drive h.key))) }
        ensures err { IfErr result (λ _. self.new ≡ self.old) }
        ensures moment { self.new.moment ≡ self.old.moment }
    {
        self.core.create()
    }

    /// One more child that the stack keeps for itself. It takes no memory.
    pub fn create_own(&mut self) -> Result<Handle<Udp4>, Refuse>
        ensures answer { RefusesExactly (create_own_refusal self.old.drive.family) result }
        ensures ok { IfOk result (λ h. (h.serial ≡ self.old.drive.family.next) × (self.new ≡ in_drive self.old (own_made self.old.drive h.key))) }
        ensures err { IfErr result (λ _. self.new ≡ self.old) }
        ensures moment { self.new.moment ≡ self.old.moment }
    {
        self.core.create_own()
    }

    /// The child is gone, and its pending tokens end as aborted. It takes no memory. A datagram that one of them
    /// asked for is still sent.
    pub fn destroy(&mut self, h: Handle<Udp4>) -> Result<(), Refuse>
        ensures answer { RefusesExactly (handle_refusal self.old.drive.family h.key h.serial) result }
        ensures ok { IfOk result (λ _. self.new ≡ in_drive self.old (destroyed self.old.drive h.key h.serial)) }
        ensures err { IfErr result (λ _. self.new ≡ self.old) }
        ensures keeps { Keeps self.old.drive.tokens self.new.drive.tokens }
        ensures moment { self.new.moment ≡ self.old.moment }
    {
        self.core.destroy(h)
    }

    /// With data the child gets it, and where the port is 0, the next port that no child has; without, the child is reset,
    /// and its pending tokens end as aborted. `AccessDenied` says that another child of the same address has the port, and
    /// not both share it; `BadConfig` names the first of address, mask and port that is out of its range; `NotReady` says
    /// that no port is left. It takes no memory. A datagram that a token asked for is still sent.
    pub fn configure(&mut self, h: Handle<Udp4>, cfg: Option<UdpCfg>) -> Result<(), Refuse>
        ensures answer { RefusesExactly (udp_configure_refusal self.old h.key h.serial cfg) result }
        ensures ok { IfOk result (λ _. self.new ≡ udp_configured self.old h.key h.serial cfg) }
        ensures err { IfErr result (λ _. self.new ≡ self.old) }
        ensures keeps { Keeps self.old.drive.tokens self.new.drive.tokens }
        ensures moment { self.new.moment ≡ self.old.moment }
    {
        match cfg {
            Some(c) => self.start(h, c),
            None => self.core.configure(h, None),
        }
    }

    /// The child gets its configuration.
    fn start(&mut self, h: Handle<Udp4>, c: UdpCfg) -> Result<(), Refuse>
        ensures answer { RefusesExactly (udp_configure_refusal self.old h.key h.serial (Some c)) result }
        ensures ok { IfOk result (λ _. self.new ≡ udp_configured self.old h.key h.serial (Some c)) }
        ensures err { IfErr result (λ _. self.new ≡ self.old) }
        ensures keeps { Keeps self.old.drive.tokens self.new.drive.tokens }
        ensures moment { self.new.moment ≡ self.old.moment }
    {
        match self.core.mode(h) {
            Ok(None) => {}
            Ok(Some(_)) => return Err(Refuse::AlreadyStarted),
            Err(why) => return Err(why),
        }
        let own = !self.core.is_callers(h);
        if let Some(why) = cfg_refusal(&self.core.children, self.home, own, &c) {
            return Err(why);
        }
        if c.port != 0 {
            return self.core.configure(h, Some(c));
        }
        match next_free(&self.core.children, self.seed, self.tried, PORTS) {
            Some(k) => self.choose(h, &c, k),
            None => Err(Refuse::NotReady),
        }
    }

    /// The child gets its configuration with the port of a number.
    fn choose(&mut self, h: Handle<Udp4>, c: &UdpCfg, k: u32) -> Result<(), Refuse>
        requires number { k < 65536 }
        requires state { configure_refusal self.old.drive h.key h.serial (Some c.now) ≡ None }
        ensures ok { OnOk result (self.new ≡ chosen self.old h.key h.serial c.now (Some k)) }
        ensures err { IfErr result (λ _. ⊥) }
        ensures keeps { Keeps self.old.drive.tokens self.new.drive.tokens }
        ensures moment { self.new.moment ≡ self.old.moment }
    {
        match self
            .core
            .configure(h, Some(with_port(c, port_at(self.seed, k))))
        {
            Ok(()) => {
                self.tried = (k + 1) % PORTS;
                Ok(())
            }
            Err(why) => Err(why),
        }
    }

    /// The child's configuration, `None` where there is none.
    pub fn mode(&self, h: Handle<Udp4>) -> Result<Option<UdpCfg>, Refuse>
        ensures answer { RefusesExactly (handle_refusal self.now.drive.family h.key h.serial) result }
        ensures ok { IfOk result (λ cfg. cfg ≡ cfg_of self.now.drive h.key h.serial) }
    {
        self.core.mode(h)
    }

    /// Whether a caller's child is configured.
    pub fn is_busy(&self) -> bool
        ensures { result ≡ is_busy self.now.drive }
    {
        self.core.is_busy()
    }

    /// How many children callers have.
    pub fn len(&self) -> usize
        ensures { result ≡ length self.now.drive.family.live }
    {
        self.core.children.len()
    }

    /// The address that a caller's child names for itself, by order of making from 0: `None` where it uses the default
    /// one, or isn't configured.
    pub fn address_at(&self, i: usize) -> Option<Addr>
        requires { i < length self.now.drive.family.live }
        ensures { slice_get (addresses_of self.now.drive.family) i ≡ Some result }
    {
        address_named(self.core.children.at(i))
    }

    /// The child's pending token of this ticket ends as aborted, or each of its pending tokens. It takes no memory. A
    /// datagram that one of them asked for is still sent.
    pub fn cancel(&mut self, h: Handle<Udp4>, t: Option<Ticket>) -> Result<(), Refuse>
        ensures answer { RefusesExactly (drive_cancel_refusal self.old.drive h.key h.serial t) result }
        ensures ok { IfOk result (λ _. self.new ≡ in_drive self.old (drive_cancelled self.old.drive h.serial t)) }
        ensures err { IfErr result (λ _. self.new ≡ self.old) }
        ensures keeps { Keeps self.old.drive.tokens self.new.drive.tokens }
        ensures moment { self.new.moment ≡ self.old.moment }
    {
        self.core.cancel(h, t)
    }

    /// As `cancel`, of a caller's token by its number.
    pub fn cancel_token(&mut self, h: Handle<Udp4>, t: Option<TokenId>) -> Result<(), Refuse>
        ensures answer { RefusesExactly (drive_token_refusal self.old.drive h.key h.serial t) result }
        ensures ok { IfOk result (λ _. self.new ≡ in_drive self.old (drive_token_cancelled self.old.drive h.serial t)) }
        ensures err { IfErr result (λ _. self.new ≡ self.old) }
        ensures keeps { Keeps self.old.drive.tokens self.new.drive.tokens }
        ensures moment { self.new.moment ≡ self.old.moment }
    {
        self.core.cancel_token(h, t)
    }

    /// Every pending token of the owner ends as aborted, by rising ticket. It takes no memory. A datagram that one of
    /// them asked for is still sent.
    pub fn abort_owner(&mut self, owner: Owner)
        ensures after { self.new ≡ in_drive self.old (in_tokens self.old.drive (owner_aborted self.old.drive.tokens owner)) }
        ensures keeps { Keeps self.old.drive.tokens self.new.drive.tokens }
        ensures moment { self.new.moment ≡ self.old.moment }
    {
        self.core.abort_owner(owner);
    }

    /// The default address is this from here on. Where one stood till then, the pending tokens of children that use it end
    /// as `NoMapping`, the oldest first. It takes no memory.
    pub fn learn(&mut self, home: Option<Addr>)
        ensures after { self.new ≡ learned self.old home }
        ensures keeps { Keeps self.old.drive.tokens self.new.drive.tokens }
        ensures moment { self.new.moment ≡ self.old.moment }
    {
        if let Some(_) = self.home {
            end_homeless(&self.core.children, &mut self.core.tokens);
        }
        self.home = home;
    }

    /// `NoRoute` speaks of these routes from here on. It takes no memory.
    pub fn learn_routes(&mut self, routes: &Routes)
        ensures after { self.new ≡ in_routes self.old routes.now }
        ensures moment { self.new.moment ≡ self.old.moment }
    {
        self.routes = routes.copied();
    }

    /// From where a child sends.
    fn source(&self, h: Handle<Udp4>) -> Result<Source, Refuse>
        ensures answer { RefusesExactly (source_refusal self.now h.key h.serial) result }
        ensures ok { IfOk result (λ from. source_of self.now h.key h.serial ≡ Some from) }
    {
        let cfg = match self.core.mode(h) {
            Ok(Some(cfg)) => cfg,
            Ok(None) => return Err(Refuse::NotStarted),
            Err(why) => return Err(why),
        };
        match address_of(self.home, &cfg) {
            Some(addr) => Ok(Source { cfg, addr }),
            None => Err(Refuse::NoMapping),
        }
    }

    /// Why `post` would refuse, but for want of memory.
    pub fn refusal(&self, h: Handle<Udp4>, owner: Owner, work: &UdpWork) -> Option<Refuse>
        ensures { result ≡ post_refusal self.now h.key h.serial owner work.now }
    {
        let from = match self.source(h) {
            Ok(from) => from,
            Err(why) => return Some(why),
        };
        if let Some(why) = work_refusal(&self.routes, from.addr, work) {
            return Some(why);
        }
        self.core.tokens.refusal(ChildId(h.serial), owner)
    }

    /// Takes a token of a configured child in. A transmit asks for its datagram at once; its memory is taken before. A
    /// receive waits for a datagram, for as long as the child's configuration says.
    pub fn post(
        &mut self,
        h: Handle<Udp4>,
        owner: Owner,
        work: UdpWork,
    ) -> Result<Ticket, Refused<UdpWork>>
        ensures answer { AnswersBy (post_refusal self.old h.key h.serial owner work) result }
        ensures ok { IfOk result (λ t. (t.0 ≡ self.old.drive.tokens.next) × (self.new ≡ token_posted self.old h.key h.serial owner work)) }
        ensures err { IfErr result (λ r. (r.work ≡ work) × (self.new ≡ self.old)) }
        ensures keeps { (o : OwnerValue) → times o self.new.drive.tokens ≡ times o self.old.drive.tokens + gained o owner result }
        ensures moment { self.new.moment ≡ self.old.moment }
    {
        if let Some(why) = self.refusal(h, owner, &work) {
            return Err(Refused { why, work });
        }
        match self.source(h) {
            Ok(from) => self.post_from(h, owner, &from, work),
            Err(why) => Err(Refused { why, work }),
        }
    }

    /// Takes a token in that nothing refuses.
    fn post_from(
        &mut self,
        h: Handle<Udp4>,
        owner: Owner,
        from: &Source,
        work: UdpWork,
    ) -> Result<Ticket, Refused<UdpWork>>
        requires accepted { post_refusal self.old h.key h.serial owner work ≡ None }
        requires source { source_of self.old h.key h.serial ≡ Some from.now }
        ensures answer { IfErr result (λ r. r.why ≡ OutOfResources) }
        ensures ok { IfOk result (λ t. (t.0 ≡ self.old.drive.tokens.next) × (self.new ≡ posted_from self.old h.serial owner work (Some from.now))) }
        ensures err { IfErr result (λ r. (r.work ≡ work) × (self.new ≡ self.old)) }
        ensures keeps { (o : OwnerValue) → times o self.new.drive.tokens ≡ times o self.old.drive.tokens + gained o owner result }
        ensures moment { self.new.moment ≡ self.old.moment }
    {
        match work {
            UdpWork::Transmit(tx) => match make_text(self.alloc, from, &tx) {
                Ok(text) => accept_with(&mut self.core, h, owner, from, tx, text),
                Err(_) => Err(Refused {
                    why: Refuse::OutOfResources,
                    work: UdpWork::Transmit(tx),
                }),
            },
            UdpWork::Receive(got) => {
                let ask = ask_at(self.moment, from.cfg.timeout, UdpWork::Receive(got));
                accept_plain(&mut self.core, h, owner, ask)
            }
        }
    }

    /// The sending of a datagram came to this end: the pending transmit token of this ticket ends so. Where there is none,
    /// nothing changes. It takes no memory.
    pub fn sent(&mut self, t: Ticket, end: End)
        ensures after { self.new ≡ datagram_sent self.old t end }
        ensures keeps { Keeps self.old.drive.tokens self.new.drive.tokens }
        ensures moment { self.new.moment ≡ self.old.moment }
    {
        if !is_transmit(self.core.tokens.work(t)) {
            return;
        }
        self.core.tokens.complete(t, end);
    }

    /// A packet of protocol 17 was heard. The oldest receive token of each configured child that hears its datagram ends
    /// with it. Answers false where it carries a datagram that no child hears. A payload that is no datagram changes
    /// nothing. Memory is taken only for the tokens that end. After `NoMemory` some of the children may have got it.
    pub fn on_packet(&mut self, p: &IpPacket) -> Result<bool, NoMemory>
        requires { p.now.proto ≡ 17 }
        ensures answer { IfOk result (λ taken. taken ≡ not (is_stray self.old p.now)) }
        ensures ok { OnOk result (self.new ≡ heard self.old p.now) }
        ensures free { OnErr result (is_heard self.old p.now ≡ true) }
        ensures keeps { Keeps self.old.drive.tokens self.new.drive.tokens }
        ensures moment { self.new.moment ≡ self.old.moment }
    {
        let Ok(udp) = read_udp(p.src, p.dest, p.payload.as_slice()) else {
            return Ok(true);
        };
        let a = Arrival {
            home: self.home,
            src: p.src,
            dest: p.dest,
            udp,
        };
        give_all(&self.core.children, &mut self.core.tokens, self.alloc, &a)?;
        Ok(any_hears(&self.core.children, &a))
    }

    /// A packet of protocol 1 was heard. Where it says that a port took no datagram (RFC 792, type 3, code 3), the oldest
    /// receive token of each caller's child that sent the datagram ends as `PortUnreachable`. Else nothing changes. It
    /// takes no memory.
    pub fn on_icmp(&mut self, p: &IpPacket)
        requires { p.now.proto ≡ 1 }
        ensures after { self.new ≡ told_refused self.old p.now }
        ensures keeps { Keeps self.old.drive.tokens self.new.drive.tokens }
        ensures moment { self.new.moment ≡ self.old.moment }
    {
        if let Some(q) = quoted(p.payload.as_slice()) {
            tell_all(&self.core.children, &mut self.core.tokens, self.home, q);
        }
    }

    /// The last moment that came.
    pub fn moment(&self) -> Tick
        ensures { result ≡ self.now.moment }
    {
        self.moment
    }

    /// The first moment to come at which a receive token ends.
    pub fn next(&self) -> Option<Tick>
        ensures { option_map (λ t. t.0) result ≡ next_of self.now }
    {
        match next_after(self.moment, self.core.tokens.pending()) {
            Some(at) => Some(Tick(at)),
            None => None,
        }
    }

    /// The moment comes, and the receive tokens that end at it do, as `ReceiveTimeout`. It takes no memory.
    pub fn act(&mut self, m: Tick)
        requires { m.0 ≤ 2 ^ 62 }
        ensures after { self.new ≡ acted m.0 self.old }
        ensures keeps { Keeps self.old.drive.tokens self.new.drive.tokens }
    {
        end_due(&mut self.core.tokens, m);
        self.moment = m;
    }

    /// The moment comes, at which nothing is due. It takes no memory.
    pub fn place(&mut self, m: Tick)
        requires { m.0 ≤ 2 ^ 62 }
        ensures { self.new ≡ at m.0 self.old }
    {
        self.moment = m;
    }

    /// The moments up to this one come, and the receive tokens that end at them do, as `ReceiveTimeout`. It takes no
    /// memory.
    pub fn tick(&mut self, now: Tick)
        requires later { self.old.moment.0 ≤ now.0 }
        requires within { now.0 ≤ 2 ^ 62 }
        ensures after { self.new ≡ ticked (now.0 - self.old.moment.0) self.old }
        ensures moment { self.new.moment ≡ now }
        ensures keeps { Keeps self.old.drive.tokens self.new.drive.tokens }
    {
        while let Some(m) = self.next() {
            if m.0 > now.0 {
                break;
            }
            self.act(m);
        }
        self.moment = now;
    }

    /// The caller's token that ended first. It takes no memory.
    pub fn take_done(&mut self) -> Option<Done<UdpWork>>
        ensures first { result ≡ option_map done_of (slice_get self.old.drive.tokens.done 0) }
        ensures some { IfSome result (λ _. self.new ≡ in_drive self.old (in_tokens self.old.drive (without_done self.old.drive.tokens))) }
        ensures none { IfNone result (self.new ≡ self.old) }
        ensures keeps { (o : OwnerValue) → times o self.new.drive.tokens + given o result ≡ times o self.old.drive.tokens }
        ensures moment { self.new.moment ≡ self.old.moment }
    {
        match self.core.take_done() {
            Some(d) => Some(plain_done(d)),
            None => None,
        }
    }

    /// The token of a driver above that ended first. It takes no memory.
    pub fn take_up(&mut self) -> Option<Raised<UdpWork>>
        ensures first { result ≡ option_map raised_of (slice_get self.old.drive.tokens.ups 0) }
        ensures some { IfSome result (λ _. self.new ≡ in_drive self.old (in_tokens self.old.drive (without_up self.old.drive.tokens))) }
        ensures none { IfNone result (self.new ≡ self.old) }
        ensures keeps { (o : OwnerValue) → times o self.new.drive.tokens + given_up o result ≡ times o self.old.drive.tokens }
        ensures moment { self.new.moment ≡ self.old.moment }
    {
        match self.core.take_up() {
            Some(d) => Some(plain_raised(d)),
            None => None,
        }
    }

    /// The datagram for the layer below that waits longest. It takes no memory.
    pub fn take_down(&mut self) -> Option<UdpOut>
        ensures first { result ≡ slice_get self.old.drive.outbox.messages 0 }
        ensures some { IfSome result (λ _. self.new ≡ in_drive self.old (in_outbox self.old.drive (without_first self.old.drive.outbox))) }
        ensures none { IfNone result (self.new ≡ self.old) }
        ensures moment { self.new.moment ≡ self.old.moment }
    {
        self.core.take_down()
    }
}
