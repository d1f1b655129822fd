//! The driver and its calls: children of callers and of the stack, their tokens, addresses and routes, and the datagrams
//! for the layer below. Which children hear a datagram, and what ICMP answers, are decided elsewhere.
ghost use Rattle.std.specs.Prelude.{◌≡◌, ℕ, ◌+◌, ◌<◌, ◌≤◌, length, slice_get, None, true, IfOk, IfErr, IfSome, IfNone, OnOk, OnErr, is_some};
ghost use Rattle.efi_base.specs.Refusals.{AnswersBy, RefusesExactly, first_of};
ghost use Rattle.efi_base.specs.declared.tokens.Owner.{Owner as OwnerValue};
ghost use Rattle.efi_book.specs.Books.{Keeps, accept_refusal, given, given_up, owner_aborted, times, without_done, without_up};
ghost use Rattle.efi_book.specs.Cores.{cfg_of, configured, destroyed, drive_cancel_refusal, drive_cancelled, drive_token_cancelled, drive_token_refusal, id_of, in_outbox, in_tokens, is_busy, made, own_made};
ghost use Rattle.efi_book.specs.Families.{create_own_refusal, create_refusal, handle_refusal};
ghost use Rattle.efi_book.specs.Outboxes.{without_first};
ghost use Rattle.efi_book.specs.Owners.{gained};
ghost use Rattle.ip_core.specs.Pools.{open_at};
ghost use Rattle.wire_ip4.specs.Seen.{packet_seen};
ghost use Rattle.ip_core.specs.Routing.{add_refusal, remove_refusal};
ghost use Rattle.drv_ip4.specs.declared.work.IpWork.TheVariants.{Transmit};
ghost use Rattle.drv_ip4.specs.Ips.{datagram_sent, default_set, given_down, hop_or_none, in_drive, in_net, in_pools, ip_configure_refusal, mailed, new_state, packet_heard, post_refusal, token_posted, told_unreachable, tx_posted, with_last};
ghost use Rattle.drv_ip4.specs.Nets.{address_named, addresses_of, at_or, brought_in, with_route, with_stations, without_route};
ghost use Rattle.drv_ip4.specs.Sendings.{answer_counted, answered_down, tx_refusal};
ghost use Rattle.drv_ip4.specs.Icmps.{answer_to};
ghost use Rattle.efi_book.specs.Drives.{drive};

use crate::defaults::lose;
use crate::hearing::give_all;
use crate::icmp::{Quote, answer_to, take_in, unreachable_to};
use crate::net::{Net, address_used};
use crate::sending::{
    IpCore, Letter, TTL, hop_from, put_answer, put_down, transmit, tx_refusal, work_refusal,
};
use crate::work::{Ip4K, IpCfg, IpTx, IpWork, Sending, cfg_fault, is_transmit};
use efi_base::{
    Addr, Bytes, ChildId, End, Ip4, IpPacket, NoMemory, Owner, Proto, Refuse, Refused, Tick,
    Ticket, TokenId,
};
use efi_book::{Child, Core, Done, Handle, OWN_CHILDREN, Raised};
use ip_core::{Reasm, Route, Routes};
use std::alloc::Global;
use std::marker::Model;
use wire_ip4::Ip;

/// IP4 of the station.
#[derive(Drop)]
pub struct DrvIp4 {
    core: IpCore,
    net: Net,
    reasm: Reasm,
    packet: Option<IpPacket>,
    quote: Option<Quote>,
    alloc: Global,
}

impl Model for DrvIp4 {
    ghost use Rattle.efi_book.specs.Drives.{drive};
    ghost use Rattle.drv_ip4.specs.Ips.{IpState};

    ghost Value = { IpState };

    ghost view = { λ d. record { drive = drive d.core; net = d.net; pools = d.reasm; packet = d.packet; quote = d.quote } };
}

impl DrvIp4 {
    /// No children, no tokens, no addresses and no routes. It takes the room of all children and of all pools of
    /// fragments.
    pub fn new(alloc: Global) -> Result<DrvIp4, NoMemory>
        ensures { IfOk result (λ d. d ≡ new_state 258) }
    {
        let core = Core::new(alloc, Ip4K, OWN_CHILDREN)?;
        let reasm = Reasm::new(alloc)?;
        Ok(DrvIp4 {
            core,
            net: Net::new(),
            reasm,
            packet: None,
            quote: None,
            alloc,
        })
    }

    /// One more child of a caller, without a configuration. It takes no memory.
    pub fn create(&mut self) -> Result<Handle<Ip4K>, Refuse>
        ensures answer { RefusesExactly (create_refusal self.old.drive.family) result }
        ensures ok { IfOk result (λ h. (h.serial ≡ self.old.drive.family.next) × (self.new ≡ in_drive self.old (made self.old.drive h.key))) }
        ensures err { IfErr result (λ _. self.new ≡ self.old) }
    {
        self.core.create()
    }

    /// One more child that the stack keeps for itself. It takes no memory.
    pub fn create_own(&mut self) -> Result<Handle<Ip4K>, Refuse>
        ensures answer { RefusesExactly (create_own_refusal self.old.drive.family) result }
        ensures ok { IfOk result (λ h. (h.serial ≡ self.old.drive.family.next) × (self.new ≡ in_drive self.old (own_made self.old.drive h.key))) }
        ensures err { IfErr result (λ _. self.new ≡ self.old) }
    {
        self.core.create_own()
    }

    /// The child is gone, and its pending tokens end as aborted. It takes no memory. A datagram that one of them
    /// handed down is none of this driver's any more.
    pub fn destroy(&mut self, h: Handle<Ip4K>) -> Result<(), Refuse>
        ensures answer { RefusesExactly (handle_refusal self.old.drive.family h.key h.serial) result }
        ensures ok { IfOk result (λ _. self.new ≡ in_drive self.old (destroyed self.old.drive h.key h.serial)) }
        ensures err { IfErr result (λ _. self.new ≡ self.old) }
        ensures keeps { Keeps self.old.drive.tokens self.new.drive.tokens }
    {
        self.core.destroy(h)
    }

    /// The child's configuration, `None` where there is none.
    pub fn mode(&self, h: Handle<Ip4K>) -> Result<Option<IpCfg>, Refuse>
        ensures answer { RefusesExactly (handle_refusal self.now.drive.family h.key h.serial) result }
        ensures ok { IfOk result (λ cfg. cfg ≡ cfg_of self.now.drive h.key h.serial) }
    {
        self.core.mode(h)
    }

    /// Whether a caller's child is configured.
    pub fn is_busy(&self) -> bool
        ensures { result ≡ is_busy self.now.drive }
    {
        self.core.is_busy()
    }

    /// How many children callers have.
    pub fn len(&self) -> usize
        ensures { result ≡ length self.now.drive.family.live }
    {
        self.core.children.len()
    }

    /// The address that a caller's child names for itself, by order of making from 0: `None` where it uses the default
    /// one, or isn't configured.
    pub fn address_at(&self, i: usize) -> Option<Addr>
        requires { i < length self.now.drive.family.live }
        ensures { slice_get (addresses_of self.now.drive.family) i ≡ Some result }
    {
        address_named(self.core.children.at(i))
    }

    /// The child's pending token of this ticket ends as aborted, or each of its pending tokens. It takes no memory. A
    /// datagram that one of them handed down is none of this driver's any more.
    pub fn cancel(&mut self, h: Handle<Ip4K>, t: Option<Ticket>) -> Result<(), Refuse>
        ensures answer { RefusesExactly (drive_cancel_refusal self.old.drive h.key h.serial t) result }
        ensures ok { IfOk result (λ _. self.new ≡ in_drive self.old (drive_cancelled self.old.drive h.serial t)) }
        ensures err { IfErr result (λ _. self.new ≡ self.old) }
        ensures keeps { Keeps self.old.drive.tokens self.new.drive.tokens }
    {
        self.core.cancel(h, t)
    }

    /// As `cancel`, of a caller's token by its number.
    pub fn cancel_token(&mut self, h: Handle<Ip4K>, t: Option<TokenId>) -> Result<(), Refuse>
        ensures answer { RefusesExactly (drive_token_refusal self.old.drive h.key h.serial t) result }
        ensures ok { IfOk result (λ _. self.new ≡ in_drive self.old (drive_token_cancelled self.old.drive h.serial t)) }
        ensures err { IfErr result (λ _. self.new ≡ self.old) }
        ensures keeps { Keeps self.old.drive.tokens self.new.drive.tokens }
    {
        self.core.cancel_token(h, t)
    }

    /// Every pending token of the owner ends as aborted, by rising ticket. It takes no memory. A datagram that one of
    /// them handed down is none of this driver's any more.
    pub fn abort_owner(&mut self, owner: Owner)
        ensures after { self.new ≡ in_drive self.old (in_tokens self.old.drive (owner_aborted self.old.drive.tokens owner)) }
        ensures keeps { Keeps self.old.drive.tokens self.new.drive.tokens }
    {
        self.core.abort_owner(owner);
    }

    /// With data the child gets it; without, the child is reset, and its pending tokens end as aborted. `BadConfig` names
    /// the address where it isn't one station's, and else the mask where it isn't ones and then zeros; a child of the
    /// stack's own may have the address 0.0.0.0. It takes no memory.
    pub fn configure(&mut self, h: Handle<Ip4K>, cfg: Option<IpCfg>) -> Result<(), Refuse>
        ensures answer { RefusesExactly (ip_configure_refusal self.old h.key h.serial cfg) result }
        ensures ok { IfOk result (λ _. self.new ≡ in_drive self.old (configured self.old.drive h.key h.serial cfg)) }
        ensures err { IfErr result (λ _. self.new ≡ self.old) }
        ensures keeps { Keeps self.old.drive.tokens self.new.drive.tokens }
    {
        match cfg {
            Some(new) => {
                match self.core.mode(h) {
                    Ok(None) => {}
                    Ok(Some(_)) => return Err(Refuse::AlreadyStarted),
                    Err(why) => return Err(why),
                }
                if let Some(why) = cfg_fault(new, !self.core.is_callers(h)) {
                    return Err(why);
                }
                self.core.configure(h, cfg)
            }
            None => self.core.configure(h, None),
        }
    }

    /// Takes a token of a configured child in. A transmit hands its datagram down at once; its memory is taken before. A
    /// receive waits for a datagram.
    pub fn post(
        &mut self,
        h: Handle<Ip4K>,
        owner: Owner,
        work: IpWork,
    ) -> Result<Ticket, Refused<IpWork>>
        ensures answer { AnswersBy (post_refusal self.old h.key h.serial owner work) result }
        ensures ok { IfOk result (λ t. (t.0 ≡ self.old.drive.tokens.next) × (self.new ≡ token_posted self.old h.key h.serial owner work)) }
        ensures err { IfErr result (λ r. (r.work ≡ work) × (self.new ≡ self.old)) }
        ensures keeps { (o : OwnerValue) → times o self.new.drive.tokens ≡ times o self.old.drive.tokens + gained o owner result }
    {
        let cfg = match self.core.mode(h) {
            Ok(Some(cfg)) => cfg,
            Ok(None) => {
                return Err(Refused {
                    why: Refuse::NotStarted,
                    work,
                });
            }
            Err(why) => return Err(Refused { why, work }),
        };
        let Some(own) = address_used(self.net.home(), cfg) else {
            return Err(Refused {
                why: Refuse::NoMapping,
                work,
            });
        };
        match work {
            IpWork::Transmit(tx) => self.post_transmit(h, owner, own, tx),
            IpWork::Receive(got) => self.core.accept(h, owner, IpWork::Receive(got)),
        }
    }

    /// Why `post` would refuse, but for want of memory.
    pub fn refusal(&self, h: Handle<Ip4K>, owner: Owner, work: &IpWork) -> Option<Refuse>
        ensures { result ≡ post_refusal self.now h.key h.serial owner work.now }
    {
        let cfg = match self.core.mode(h) {
            Ok(cfg) => cfg,
            Err(why) => return Some(why),
        };
        if let Some(why) = work_refusal(&self.net, cfg, work) {
            return Some(why);
        }
        self.core.tokens.refusal(ChildId(h.serial), owner)
    }

    /// Takes a transmit of a configured child with this address in.
    fn post_transmit(
        &mut self,
        h: Handle<Ip4K>,
        owner: Owner,
        own: Addr,
        tx: IpTx,
    ) -> Result<Ticket, Refused<IpWork>>
        requires live { handle_refusal self.old.drive.family h.key h.serial ≡ None }
        requires configured { is_some (cfg_of self.old.drive h.key h.serial) ≡ true }
        ensures answer { AnswersBy (first_of (tx_refusal self.old.net own tx) (accept_refusal self.old.drive.tokens (id_of h.serial) owner)) result }
        ensures ok { IfOk result (λ t. (t.0 ≡ self.old.drive.tokens.next) × (self.new ≡ tx_posted self.old own h.serial owner tx)) }
        ensures err { IfErr result (λ r. (r.work ≡ Transmit tx) × (self.new ≡ self.old)) }
        ensures keeps { (o : OwnerValue) → times o self.new.drive.tokens ≡ times o self.old.drive.tokens + gained o owner result }
    {
        if let Some(why) = tx_refusal(&self.net, own, &tx) {
            let work = IpWork::Transmit(tx);
            return Err(Refused { why, work });
        }
        if let Some(why) = self.core.tokens.refusal(ChildId(h.serial), owner) {
            let work = IpWork::Transmit(tx);
            return Err(Refused { why, work });
        }
        transmit(&mut self.core, &mut self.net, self.alloc, h, owner, own, tx)
    }

    /// The pending transmit token of this ticket ends so: its datagram went, or it can't go. Where there is none, nothing
    /// changes. It takes no memory.
    pub fn sent(&mut self, t: Ticket, end: End)
        ensures after { self.new ≡ datagram_sent self.old t end }
        ensures keeps { Keeps self.old.drive.tokens self.new.drive.tokens }
    {
        if !is_transmit(self.core.tokens.work(t)) {
            return;
        }
        self.core.tokens.complete(t, end);
    }

    /// A datagram of another protocol of the station, from this address or the default one, for which this driver's
    /// token waits. It is dropped where there is no address, and where it is no broadcast of the address's network and
    /// no route matches.
    pub fn send(
        &mut self,
        waits: Option<(Proto, Ticket)>,
        from: Option<Addr>,
        dest: Ip4,
        proto: u8,
        payload: Bytes,
    ) -> Result<bool, NoMemory>
        requires { length payload ≤ 65515 }
        ensures ok { IfOk result (λ b. (b ≡ is_some (hop_or_none self.old.net (at_or from self.old.net.home) dest.0)) × (self.new ≡ mailed self.old (at_or from self.old.net.home) waits dest proto payload)) }
        ensures err { OnErr result (self.new ≡ self.old) }
    {
        let Some(own) = from_or(from, self.net.home()) else {
            return Ok(false);
        };
        let hop = hop_from(&self.net, own, dest);
        let l = Letter {
            waits,
            src: own.ip,
            dest,
            proto,
            ttl: TTL,
            df: false,
            payload,
        };
        put_down(&mut self.core, &mut self.net, hop, l)
    }

    /// Another default address, or none. Where one stood, the pending tokens of the children that use it end as
    /// `NoMapping`, the oldest first, also where the new one is the same; the children stay configured. The routes that
    /// it brought go, and the new one brings the route to its network, unless it is there or there are 64. It takes no
    /// memory.
    pub fn set_default(&mut self, a: Option<Addr>)
        ensures after { self.new ≡ default_set self.old a }
        ensures keeps { Keeps self.old.drive.tokens self.new.drive.tokens }
    {
        lose(&self.core.children, &mut self.core.tokens, self.net.home());
        self.net.settle(a);
    }

    /// The default address.
    pub fn default(&self) -> Option<Addr>
        ensures { result ≡ self.now.net.home }
    {
        self.net.home()
    }

    /// A route that the default address brings, unless it is there or there are 64. It takes no memory.
    pub fn bring(&mut self, r: Route)
        ensures { self.new ≡ in_net self.old (brought_in self.old.net r) }
    {
        self.net.bring(r);
    }

    /// Adds a route behind the others. It is refused where it is there already, where its mask isn't ones and then zeros
    /// or its destination has bits outside it, and where 64 routes are there. It takes no memory.
    pub fn add_route(&mut self, r: Route) -> Result<(), Refuse>
        ensures answer { RefusesExactly (add_refusal self.old.net.routes r) result }
        ensures ok { OnOk result (self.new ≡ in_net self.old (with_route self.old.net r)) }
        ensures err { OnErr result (self.new ≡ self.old) }
    {
        self.net.add(r)
    }

    /// Removes a route. It is refused where it isn't there. It takes no memory.
    pub fn remove_route(&mut self, r: Route) -> Result<(), Refuse>
        ensures answer { RefusesExactly (remove_refusal self.old.net.routes r) result }
        ensures ok { OnOk result (self.new ≡ in_net self.old (without_route self.old.net r)) }
        ensures err { OnErr result (self.new ≡ self.old) }
    {
        self.net.remove(r)
    }

    pub fn routes(&self) -> &Routes
        ensures { result.now ≡ self.now.net.routes }
    {
        self.net.routes()
    }

    /// The station addresses from now on, at most 257. It takes no memory.
    pub fn learn_stations(&mut self, a: &[Ip4])
        requires { length a.now ≤ 257 }
        ensures { self.new ≡ in_net self.old (with_stations self.old.net a.now) }
    {
        self.net.learn(a);
    }

    /// A packet was heard (RFC 791, section 3.2). Where a datagram exists at it, `take_packet` gives it, the oldest receive
    /// token of each child that hears it ends with it, and an echo request to a station address is answered from that
    /// address. The datagram before is forgotten. After `NoMemory` some of the children may have got it.
    pub fn on_frame(&mut self, now: Tick, p: &Ip<'_>) -> Result<(), NoMemory>
        ensures ok { OnOk result (self.new ≡ packet_heard self.old now.0 (packet_seen p.now)) }
        ensures keeps { Keeps self.old.drive.tokens self.new.drive.tokens }
    {
        self.packet = None;
        self.quote = None;
        let heard = match take_in(&mut self.reasm, self.alloc, now, p) {
            Ok(Some(heard)) => heard,
            Ok(None) => return Ok(()),
            Err(e) => return Err(e),
        };
        give_and_answer(&mut self.core, &mut self.net, self.alloc, &heard.packet)?;
        self.packet = Some(heard.packet);
        self.quote = Some(heard.quote);
        Ok(())
    }

    /// Tells the source of the datagram that was heard last, where that went to a station address, that its port takes no
    /// datagram (RFC 792): from that address, with the datagram's header, written anew, and the first eight octets of its
    /// payload. It is dropped where no route matches.
    pub fn unreachable(&mut self) -> Result<(), NoMemory>
        ensures ok { OnOk result (self.new ≡ told_unreachable self.old) }
        ensures err { OnErr result (self.new ≡ self.old) }
        ensures keeps { Keeps self.old.drive.tokens self.new.drive.tokens }
    {
        match unreachable_to(&self.net, self.alloc, &self.quote) {
            Ok(l) => put_answer(&mut self.core, &mut self.net, l),
            Err(e) => Err(e),
        }
    }

    /// The datagram that the last packet made whole, once. It takes no memory.
    pub fn take_packet(&mut self) -> Option<IpPacket>
        ensures packet { result ≡ self.old.packet }
        ensures after { self.new ≡ with_last self.old None self.old.quote }
    {
        self.packet.take()
    }

    /// Pools of fragments of 30,000 ticks and more close (RFC 791, section 3.2). It takes no memory.
    pub fn tick(&mut self, now: Tick)
        ensures { self.new ≡ in_pools self.old (open_at now.0 self.old.pools) }
    {
        self.reasm.tick(now);
    }

    /// The caller's token that ended first. It takes no memory.
    pub fn take_done(&mut self) -> Option<Done<IpWork>>
        ensures first { result ≡ slice_get self.old.drive.tokens.done 0 }
        ensures some { IfSome result (λ _. self.new ≡ in_drive self.old (in_tokens self.old.drive (without_done self.old.drive.tokens))) }
        ensures none { IfNone result (self.new ≡ self.old) }
        ensures keeps { (o : OwnerValue) → times o self.new.drive.tokens + given o result ≡ times o self.old.drive.tokens }
    {
        self.core.take_done()
    }

    /// The token of a driver above that ended first. It takes no memory.
    pub fn take_up(&mut self) -> Option<Raised<IpWork>>
        ensures first { result ≡ slice_get self.old.drive.tokens.ups 0 }
        ensures some { IfSome result (λ _. self.new ≡ in_drive self.old (in_tokens self.old.drive (without_up self.old.drive.tokens))) }
        ensures none { IfNone result (self.new ≡ self.old) }
        ensures keeps { (o : OwnerValue) → times o self.new.drive.tokens + given_up o result ≡ times o self.old.drive.tokens }
    {
        self.core.take_up()
    }

    /// The datagram for the layer below that waits longest. It takes no memory.
    pub fn take_down(&mut self) -> Option<Sending>
        ensures first { result ≡ slice_get self.old.drive.outbox.messages 0 }
        ensures some { IfSome result (λ _. self.new ≡ in_drive self.old (in_outbox self.old.drive (without_first self.old.drive.outbox))) }
        ensures none { IfNone result (self.new ≡ self.old) }
    {
        self.core.take_down()
    }
}

/// The address that is named, or the default one.
fn from_or(from: Option<Addr>, home: Option<Addr>) -> Option<Addr>
    ensures { result ≡ at_or from home }
{
    match from {
        Some(own) => Some(own),
        None => home,
    }
}

/// The address that a child names for itself.
fn address_named(child: &Child<Option<IpCfg>>) -> Option<Addr>
    ensures { result ≡ address_named child.now }
{
    match &child.value {
        Some(cfg) => cfg.at,
        None => None,
    }
}

/// The children that hear the datagram get it, and it is answered.
fn give_and_answer(
    core: &mut IpCore,
    net: &mut Net,
    alloc: Global,
    d: &IpPacket,
) -> Result<(), NoMemory>
    ensures drive { OnOk result (drive core.new ≡ answered_down (given_down (drive core.old) net.old d.now) net.old (answer_to net.old d.now)) }
    ensures net { OnOk result (net.new ≡ answer_counted net.old (answer_to net.old d.now)) }
    ensures keeps { Keeps (drive core.old).tokens (drive core.new).tokens }
{
    give_all(&core.children, &mut core.tokens, alloc, net.home(), d)?;
    match answer_to(net, alloc, d) {
        Ok(l) => put_answer(core, net, l),
        Err(e) => Err(e),
    }
}
