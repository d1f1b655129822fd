//! The driver: its children's calls, heard packets and ticks. Who has an address, and the walks over pending
//! requests, stand elsewhere.
ghost use Rattle.std.specs.Prelude.{◌≡◌, ℕ, ◌+◌, ◌-◌, ◌≤◌, ◌^◌, Some, length, slice_get, option_map, vec_capacity, vec_len, IfOk, IfErr, IfSome, IfNone, OnOk, OnErr};
ghost use Rattle.efi_base.specs.Refusals.{AnswersBy, RefusesBy, RefusesExactly};
ghost use Rattle.efi_base.specs.declared.tokens.Owner.{Owner as OwnerValue};
ghost use Rattle.efi_book.specs.Books.{Keeps, given, given_up, owner_aborted, times, without_done, without_up};
ghost use Rattle.efi_book.specs.Cores.{cfg_of, configured, destroyed, drive_cancelled, drive_cancel_refusal, drive_token_cancelled, drive_token_refusal, in_outbox, in_tokens, is_busy, made, own_made, post_refusal};
ghost use Rattle.efi_book.specs.Families.{create_own_refusal, create_refusal, handle_refusal, is_callers as callers};
ghost use Rattle.efi_book.specs.Outboxes.{without_first};
ghost use Rattle.efi_book.specs.Owners.{gained};
ghost use Rattle.drv_arp.specs.Arps.{added, answered, arp_add_refusal, arp_configure_refusal, arp_delete_refusal, arp_flush_refusal, arp_posted, deleted, done_of, find_refusal, flushed, in_drive, in_entries, known, known_mac, mode_refusal, raised_of, started, stations_learned};
ghost use Rattle.drv_arp.specs.Hears.{heard, noted, with_reply};
ghost use Rattle.drv_arp.specs.Ticks.{acted, at, next_of, ticked};

use crate::accepts::{accept_known, accept_unknown};
use crate::asks::{ArpCfg, ArpK, ArpWork, Ask};
use crate::ours::claim_on;
use crate::stations::{STATIONS, Station, learned};
use crate::told::{
    Told, do_all, dues, next_after, plain_done, plain_raised, put_answers, room_for, settle,
};
use arp_cache::{Cache, Entry, reply_to};
use arrayvec::ArrayVec;
use efi_base::{ChildId, Ip4, Mac, NoMemory, Owner, Refuse, Refused, Tick, Ticket, TokenId};
use efi_book::{Core, Done, Handle, OWN_CHILDREN, Raised};
use std::alloc::Global;
use std::marker::Model;
use wire_link::Arp;

/// The driver of the station with an Ethernet address, and with addresses of its own.
#[derive(Drop)]
pub struct DrvArp {
    alloc: Global,
    core: Core<ArpK, ArpCfg, Ask, Arp>,
    cache: Cache,
    mac: Mac,
    stations: ArrayVec<Station, STATIONS>,
    moment: Tick,
}

impl Model for DrvArp {
    ghost use Rattle.std.specs.Prelude.{◌≤◌, ◌^◌};
    ghost use Rattle.efi_book.specs.Drives.{drive};
    ghost use Rattle.drv_arp.specs.Arps.{ArpState};

    ghost Value = { ArpState };

    ghost view = { λ d. record { drive = drive d.core; mac = d.mac; stations = d.stations.items; moment = d.moment; entries = d.cache } };

    ghost invariant = { λ d. d.moment.0 ≤ 2 ^ 62 };
}

impl DrvArp {
    /// A driver without children, at the moment 0. It takes the room of its children and of its cache.
    pub fn new(alloc: Global, mac: Mac) -> Result<DrvArp, NoMemory>
        ensures { IfOk result (λ d. d ≡ started 258 mac) }
    {
        let core = Core::new(alloc, ArpK, OWN_CHILDREN)?;
        let cache = Cache::new(alloc)?;
        Ok(DrvArp {
            alloc,
            core,
            cache,
            mac,
            stations: ArrayVec::new(),
            moment: Tick(0),
        })
    }

    /// One more child of a caller, without a configuration. It takes no memory.
    pub fn create(&mut self) -> Result<Handle<ArpK>, Refuse>
        ensures answer { RefusesExactly (create_refusal self.old.drive.family) result }
        ensures ok { IfOk result (λ h. (h.serial ≡ self.old.drive.family.next) × (self.new ≡ in_drive self.old (made self.old.drive h.key))) }
        ensures err { IfErr result (λ _. self.new ≡ self.old) }
        ensures moment { self.new.moment ≡ self.old.moment }
    {
        self.core.create()
    }

    /// One more child that the stack keeps for itself. It takes no memory.
    pub fn create_own(&mut self) -> Result<Handle<ArpK>, Refuse>
        ensures answer { RefusesExactly (create_own_refusal self.old.drive.family) result }
        ensures ok { IfOk result (λ h. (h.serial ≡ self.old.drive.family.next) × (self.new ≡ in_drive self.old (own_made self.old.drive h.key))) }
        ensures err { IfErr result (λ _. self.new ≡ self.old) }
        ensures moment { self.new.moment ≡ self.old.moment }
    {
        self.core.create_own()
    }

    /// The child is gone, and its pending tokens end as aborted. It takes no memory.
    pub fn destroy(&mut self, h: Handle<ArpK>) -> Result<(), Refuse>
        ensures answer { RefusesExactly (handle_refusal self.old.drive.family h.key h.serial) result }
        ensures ok { IfOk result (λ _. self.new ≡ in_drive self.old (destroyed self.old.drive h.key h.serial)) }
        ensures err { IfErr result (λ _. self.new ≡ self.old) }
        ensures keeps { Keeps self.old.drive.tokens self.new.drive.tokens }
        ensures moment { self.new.moment ≡ self.old.moment }
    {
        self.core.destroy(h)
    }

    /// The child's configuration, `None` where there is none.
    pub fn mode(&self, h: Handle<ArpK>) -> Result<Option<ArpCfg>, Refuse>
        ensures answer { RefusesExactly (handle_refusal self.now.drive.family h.key h.serial) result }
        ensures ok { IfOk result (λ c. c ≡ cfg_of self.now.drive h.key h.serial) }
    {
        self.core.mode(h)
    }

    /// Whether a caller's child has this handle.
    pub fn is_callers(&self, h: Handle<ArpK>) -> bool
        ensures { result ≡ callers self.now.drive.family h.key h.serial }
    {
        self.core.is_callers(h)
    }

    /// Whether a caller's child is configured.
    pub fn is_busy(&self) -> bool
        ensures { result ≡ is_busy self.now.drive }
    {
        self.core.is_busy()
    }

    /// With data the child gets it; without, the child is reset, and its pending tokens end as aborted. The cache stays.
    /// `BadConfig` names the first of address, tries and gap that is out of its range. It takes no memory.
    pub fn configure(&mut self, h: Handle<ArpK>, c: Option<ArpCfg>) -> Result<(), Refuse>
        ensures answer { RefusesExactly (arp_configure_refusal self.old h.key h.serial c) result }
        ensures ok { IfOk result (λ _. self.new ≡ in_drive self.old (configured self.old.drive h.key h.serial c)) }
        ensures err { IfErr result (λ _. self.new ≡ self.old) }
        ensures keeps { Keeps self.old.drive.tokens self.new.drive.tokens }
        ensures moment { self.new.moment ≡ self.old.moment }
    {
        match c {
            Some(cfg) => {
                match self.core.mode(h) {
                    Ok(None) => {}
                    Ok(Some(_)) => return Err(Refuse::AlreadyStarted),
                    Err(why) => return Err(why),
                }
                if let Some(why) = cfg.refusal() {
                    return Err(why);
                }
                self.core.configure(h, c)
            }
            None => self.core.configure(h, None),
        }
    }

    /// The child's pending token of this ticket ends as aborted, or each of its pending tokens. It takes no memory.
    pub fn cancel(&mut self, h: Handle<ArpK>, t: Option<Ticket>) -> Result<(), Refuse>
        ensures answer { RefusesExactly (drive_cancel_refusal self.old.drive h.key h.serial t) result }
        ensures ok { IfOk result (λ _. self.new ≡ in_drive self.old (drive_cancelled self.old.drive h.serial t)) }
        ensures err { IfErr result (λ _. self.new ≡ self.old) }
        ensures keeps { Keeps self.old.drive.tokens self.new.drive.tokens }
        ensures moment { self.new.moment ≡ self.old.moment }
    {
        self.core.cancel(h, t)
    }

    /// As `cancel`, of a caller's token by its number.
    pub fn cancel_token(&mut self, h: Handle<ArpK>, t: Option<TokenId>) -> Result<(), Refuse>
        ensures answer { RefusesExactly (drive_token_refusal self.old.drive h.key h.serial t) result }
        ensures ok { IfOk result (λ _. self.new ≡ in_drive self.old (drive_token_cancelled self.old.drive h.serial t)) }
        ensures err { IfErr result (λ _. self.new ≡ self.old) }
        ensures keeps { Keeps self.old.drive.tokens self.new.drive.tokens }
        ensures moment { self.new.moment ≡ self.old.moment }
    {
        self.core.cancel_token(h, t)
    }

    /// Every pending token of the owner ends as aborted, by rising ticket. It takes no memory.
    pub fn abort_owner(&mut self, owner: Owner)
        ensures after { self.new ≡ in_drive self.old (in_tokens self.old.drive (owner_aborted self.old.drive.tokens owner)) }
        ensures keeps { Keeps self.old.drive.tokens self.new.drive.tokens }
        ensures moment { self.new.moment ≡ self.old.moment }
    {
        self.core.abort_owner(owner);
    }

    /// Asks for an Ethernet address. Where it is known, the token ends at once; else a request is sent, which goes again
    /// after each gap, and after the last gap the token ends as `NoMapping`.
    pub fn post(
        &mut self,
        h: Handle<ArpK>,
        owner: Owner,
        work: ArpWork,
    ) -> Result<Ticket, Refused<ArpWork>>
        ensures answer { AnswersBy (post_refusal self.old.drive h.key h.serial owner) result }
        ensures ok { IfOk result (λ t. (t.0 ≡ self.old.drive.tokens.next) × (self.new ≡ arp_posted self.old h.key h.serial owner work)) }
        ensures err { IfErr result (λ r. (r.work ≡ work) × (self.new ≡ self.old)) }
        ensures keeps { (o : OwnerValue) → times o self.new.drive.tokens ≡ times o self.old.drive.tokens + gained o owner result }
        ensures moment { self.new.moment ≡ self.old.moment }
    {
        let cfg = match self.core.mode(h) {
            Ok(Some(cfg)) => cfg,
            Ok(None) => {
                return Err(Refused {
                    why: Refuse::NotStarted,
                    work,
                });
            }
            Err(why) => return Err(Refused { why, work }),
        };
        let ask = cfg.ask(self.moment, work);
        match self.cache.find_at(work.ip, self.moment) {
            Some(mac) => accept_known(&mut self.core, ChildId(h.serial), owner, ask, mac),
            None => accept_unknown(&mut self.core, ChildId(h.serial), owner, ask, self.mac),
        }
    }

    /// Why `post` would refuse, but for want of memory.
    pub fn refusal(&self, h: Handle<ArpK>, owner: Owner) -> Option<Refuse>
        ensures { result ≡ post_refusal self.now.drive h.key h.serial owner }
    {
        match self.core.mode(h) {
            Ok(Some(_)) => self.core.tokens.refusal(ChildId(h.serial), owner),
            Ok(None) => Some(Refuse::NotStarted),
            Err(why) => Some(why),
        }
    }

    /// The Ethernet address of an address, for the layer above.
    pub fn find_mac(&self, ip: Ip4) -> Option<Mac>
        ensures { result ≡ known_mac self.now ip.0 }
    {
        self.cache.find_at(ip, self.moment)
    }

    /// Why a call on the cache is refused for its handle or for the child's state.
    fn mode_of(&self, h: Handle<ArpK>) -> Result<ArpCfg, Refuse>
        ensures answer { RefusesExactly (mode_refusal self.now h.key h.serial) result }
        ensures ok { IfOk result (λ c. cfg_of self.now.drive h.key h.serial ≡ Some c) }
    {
        match self.core.mode(h) {
            Ok(Some(c)) => Ok(c),
            Ok(None) => Err(Refuse::NotStarted),
            Err(why) => Err(why),
        }
    }

    /// The Ethernet address of an address.
    pub fn find(&self, h: Handle<ArpK>, ip: Ip4) -> Result<Mac, Refuse>
        ensures answer { RefusesExactly (find_refusal self.now h.key h.serial ip.0) result }
        ensures ok { IfOk result (λ mac. known_mac self.now ip.0 ≡ Some mac) }
    {
        if let Err(why) = self.mode_of(h) {
            return Err(why);
        }
        match self.find_mac(ip) {
            Some(mac) => Ok(mac),
            None => Err(Refuse::NotFound),
        }
    }

    /// Takes out the entry of an address. It takes no memory.
    pub fn delete(&mut self, h: Handle<ArpK>, ip: Ip4) -> Result<(), Refuse>
        ensures answer { RefusesExactly (arp_delete_refusal self.old h.key h.serial ip.0) result }
        ensures ok { OnOk result (self.new ≡ deleted self.old ip.0) }
        ensures err { OnErr result (self.new ≡ self.old) }
        ensures moment { self.new.moment ≡ self.old.moment }
    {
        if let Err(why) = self.mode_of(h) {
            return Err(why);
        }
        if let None = self.find_mac(ip) {
            return Err(Refuse::NotFound);
        }
        self.cache.expire(self.moment);
        self.cache.delete(ip)
    }

    /// Takes out the entries that aren't fixed. It takes no memory.
    pub fn flush(&mut self, h: Handle<ArpK>) -> Result<(), Refuse>
        ensures answer { RefusesExactly (arp_flush_refusal self.old h.key h.serial) result }
        ensures ok { OnOk result (self.new ≡ flushed self.old) }
        ensures err { OnErr result (self.new ≡ self.old) }
        ensures moment { self.new.moment ≡ self.old.moment }
    {
        if let Err(why) = self.mode_of(h) {
            return Err(why);
        }
        if let Some(why) = self.cache.flush_refusal(self.moment) {
            return Err(why);
        }
        self.cache.expire(self.moment);
        self.cache.flush()
    }

    /// Adds an entry, or puts it in the place of that of its address where `over` says so. Where it isn't `fixed`, it counts
    /// for as long as the child's configuration says. Pending requests for the address end as `Success`.
    /// `OutOfResources` says that there was no memory for these.
    pub fn add(
        &mut self,
        h: Handle<ArpK>,
        ip: Ip4,
        mac: Mac,
        fixed: bool,
        over: bool,
    ) -> Result<(), Refuse>
        ensures answer { RefusesBy (arp_add_refusal self.old h.key h.serial ip.0 over) result }
        ensures ok { OnOk result (self.new ≡ added self.old h.key h.serial ip mac fixed) }
        ensures err { OnErr result (self.new ≡ self.old) }
        ensures keeps { Keeps self.old.drive.tokens self.new.drive.tokens }
        ensures moment { self.new.moment ≡ self.old.moment }
    {
        let c = match self.mode_of(h) {
            Ok(c) => c,
            Err(why) => return Err(why),
        };
        if let Some(why) = self.cache.add_refusal(ip, over, self.moment) {
            return Err(why);
        }
        let Ok(answers) = room_for(self.alloc, self.core.tokens.pending()) else {
            return Err(Refuse::OutOfResources);
        };
        self.cache.expire(self.moment);
        let e = Entry {
            ip,
            mac,
            fixed,
            refreshed: self.moment,
            life: c.entry,
        };
        self.cache.add(e, over)?;
        self.answer(answers);
        Ok(())
    }

    /// The pending requests whose address is known end with it, oldest first. It takes no memory.
    fn answer(&mut self, mut answers: Vec<Told>)
        requires empty { vec_len answers ≡ 0 }
        requires room { length self.old.drive.tokens.pending ≤ vec_capacity answers }
        ensures after { self.new ≡ answered self.old }
        ensures keeps { Keeps self.old.drive.tokens self.new.drive.tokens }
    {
        put_answers(
            &mut answers,
            &self.cache,
            self.moment,
            self.core.tokens.pending(),
        );
        settle(&mut self.core.tokens, &answers);
    }

    /// A packet was heard (RFC 826, "Packet reception").
    pub fn on_frame(&mut self, a: &Arp) -> Result<(), NoMemory>
        ensures ok { OnOk result (self.new ≡ heard self.old a.now) }
        ensures keeps { Keeps self.old.drive.tokens self.new.drive.tokens }
        ensures moment { self.new.moment ≡ self.old.moment }
    {
        let answers = room_for(self.alloc, self.core.tokens.pending())?;
        let claim = claim_on(self.stations.as_slice(), &self.core.children, a.tpa);
        let reply = reply_to(a, self.mac, claim.is_some());
        self.cache.expire(self.moment);
        self.cache.hear(a, self.moment, claim.map(|c| c.entry));
        if let Some(m) = reply {
            self.core.outbox.ask(m)?;
        }
        self.answer(answers);
        Ok(())
    }

    /// The station's addresses from now on. One that was before keeps its age; another is younger than the children that there
    /// are, and older than those to come. It takes no memory.
    pub fn learn_stations(&mut self, a: &[Ip4])
        requires { length a.now ≤ 257 }
        ensures after { self.new ≡ stations_learned self.old a.now }
        ensures moment { self.new.moment ≡ self.old.moment }
    {
        let next = self.core.children.next_serial();
        self.stations = learned(self.stations.as_slice(), next, a);
    }

    /// The last moment that came.
    pub fn moment(&self) -> Tick
        ensures { result ≡ self.now.moment }
    {
        self.moment
    }

    /// The first moment to come at which a request goes again or a token ends.
    pub fn next(&self) -> Option<Tick>
        ensures { option_map (λ t. t.0) result ≡ next_of self.now }
    {
        match next_after(self.moment, self.core.tokens.pending()) {
            Some(at) => Some(Tick(at)),
            None => None,
        }
    }

    /// The moment comes, and what is due at it is done.
    pub fn act(&mut self, m: Tick) -> Result<(), NoMemory>
        requires { m.0 ≤ 2 ^ 62 }
        ensures ok { OnOk result (self.new ≡ acted m.0 self.old) }
        ensures keeps { Keeps self.old.drive.tokens self.new.drive.tokens }
        ensures moment { self.new.moment ≡ m }
    {
        self.moment = m;
        let found = dues(self.alloc, m, self.core.tokens.pending())?;
        do_all(&mut self.core, self.mac, m, &found)
    }

    /// The moment comes, at which nothing is due. It takes no memory.
    pub fn place(&mut self, m: Tick)
        requires { m.0 ≤ 2 ^ 62 }
        ensures { self.new ≡ at m.0 self.old }
    {
        self.moment = m;
    }

    /// The moments up to this one come, and what is due at them is done: requests go again, and tokens end as `NoMapping`.
    pub fn tick(&mut self, now: Tick) -> Result<(), NoMemory>
        requires later { self.old.moment.0 ≤ now.0 }
        requires within { now.0 ≤ 2 ^ 62 }
        ensures ok { OnOk result (self.new ≡ ticked (now.0 - self.old.moment.0) self.old) }
        ensures keeps { Keeps self.old.drive.tokens self.new.drive.tokens }
        ensures moment { OnOk result (self.new.moment ≡ now) }
    {
        while let Some(m) = self.next() {
            if m.0 > now.0 {
                break;
            }
            self.act(m)?;
        }
        self.moment = now;
        Ok(())
    }

    /// The caller's token that ended first. It takes no memory.
    pub fn take_done(&mut self) -> Option<Done<ArpWork>>
        ensures first { result ≡ option_map done_of (slice_get self.old.drive.tokens.done 0) }
        ensures some { IfSome result (λ _. self.new ≡ in_drive self.old (in_tokens self.old.drive (without_done self.old.drive.tokens))) }
        ensures none { IfNone result (self.new ≡ self.old) }
        ensures keeps { (o : OwnerValue) → times o self.new.drive.tokens + given o result ≡ times o self.old.drive.tokens }
        ensures moment { self.new.moment ≡ self.old.moment }
    {
        match self.core.take_done() {
            Some(d) => Some(plain_done(d)),
            None => None,
        }
    }

    /// The token of a driver above that ended first. It takes no memory.
    pub fn take_up(&mut self) -> Option<Raised<ArpWork>>
        ensures first { result ≡ option_map raised_of (slice_get self.old.drive.tokens.ups 0) }
        ensures some { IfSome result (λ _. self.new ≡ in_drive self.old (in_tokens self.old.drive (without_up self.old.drive.tokens))) }
        ensures none { IfNone result (self.new ≡ self.old) }
        ensures keeps { (o : OwnerValue) → times o self.new.drive.tokens + given_up o result ≡ times o self.old.drive.tokens }
        ensures moment { self.new.moment ≡ self.old.moment }
    {
        match self.core.take_up() {
            Some(d) => Some(plain_raised(d)),
            None => None,
        }
    }

    /// The packet for the layer below that waits longest: a request goes to all stations, a reply to its target. It takes
    /// no memory.
    pub fn take_down(&mut self) -> Option<Arp>
        ensures first { result ≡ slice_get self.old.drive.outbox.messages 0 }
        ensures some { IfSome result (λ _. self.new ≡ in_drive self.old (in_outbox self.old.drive (without_first self.old.drive.outbox))) }
        ensures none { IfNone result (self.new ≡ self.old) }
        ensures moment { self.new.moment ≡ self.old.moment }
    {
        self.core.take_down()
    }
}
