//! The device: its state, its filters and its queue. What a link does isn't here.
ghost use Rattle.std.specs.Prelude.{◌≡◌, ℕ, ◌+◌, ◌<◌, ◌≤◌, length, IfOk, IfErr, OnOk, OnErr};
ghost use Rattle.std.specs.VecDeque.{deque_len, deque_capacity};
ghost use Rattle.efi_base.specs.Refusals.{HandsBackExactly, RefusesExactly};
ghost use Rattle.efi_link.specs.Wires.{Sends};
ghost use Rattle.drv_snp.specs.Devices.{filtered, filters_refusal, hears, in_state, initialize_refusal, initialized, is_initialized, new_device, queued, shut, shutdown_refusal, start_refusal, stop_refusal, transmit_refusal};
ghost use Rattle.drv_snp.specs.Flushes.{Flushes, answer_of};

use crate::filter::{ALL, FIRST, passes};
use efi_base::{Bytes, Field, Mac, NoMemory, Refuse, Refused};
use efi_link::Link;
use efi_outside::Miss;
use std::alloc::Global;
use std::collections::VecDeque;
use std::marker::Model;
use wire_link::read_ether;

/// How many frames may wait.
pub const QUEUE: usize = 64;

/// The octets of the shortest and the longest frame, without the check sequence.
const LEAST: usize = 60;

const MOST: usize = 1_514;

#[derive(Clone, Copy, PartialEq, Eq, Debug)]
pub enum State {
    Stopped,
    Started,
    /// Only then are frames heard and sent.
    Initialized,
}

/// A frame that waits, and the mark by which its sender knows it.
#[derive(Drop)]
pub struct Queued {
    pub frame: Bytes,
    pub mark: u64,
}

/// The frame of this mark was handed to the link, which took it or lost it.
#[derive(Clone, Copy, PartialEq, Eq, Debug)]
pub struct Sent {
    pub mark: u64,
    pub ok: bool,
}

/// The device of the station with this address.
#[derive(Drop)]
pub struct Snp {
    mac: Mac,
    state: State,
    filters: u8,
    queue: VecDeque<Queued>,
}

impl Model for Snp {
    ghost use Rattle.std.specs.Prelude.{◌≤◌};
    ghost use Rattle.std.specs.VecDeque.{deque_len, deque_capacity};
    ghost use Rattle.drv_snp.specs.Devices.{Device};

    ghost Value = { Device };

    ghost view = { λ s. record { mac = s.mac; state = s.state; filters = s.filters; queue = s.queue.items } };

    ghost invariant = { λ s. (deque_len s.queue ≤ 64) × (64 ≤ deque_capacity s.queue) };
}

impl Snp {
    /// A stopped device. It takes the room of its queue.
    pub fn new(alloc: Global, mac: Mac) -> Result<Snp, NoMemory>
        ensures { IfOk result (λ s. s ≡ new_device mac) }
    {
        let queue = VecDeque::with_capacity(alloc, QUEUE)?;
        Ok(Snp {
            mac,
            state: State::Stopped,
            filters: 0,
            queue,
        })
    }

    pub fn state(&self) -> State
        ensures { result ≡ self.now.state }
    {
        self.state
    }

    pub fn start(&mut self) -> Result<(), Refuse>
        ensures answer { RefusesExactly (start_refusal self.old.state) result }
        ensures ok { OnOk result (self.new ≡ in_state self.old State.Started) }
        ensures err { OnErr result (self.new ≡ self.old) }
    {
        match self.state {
            State::Stopped => {
                self.state = State::Started;
                Ok(())
            }
            State::Started => Err(Refuse::AlreadyStarted),
            State::Initialized => Err(Refuse::AlreadyStarted),
        }
    }

    /// From then on frames are heard and sent. The filters become 0x05.
    pub fn initialize(&mut self) -> Result<(), Refuse>
        ensures answer { RefusesExactly (initialize_refusal self.old.state) result }
        ensures ok { OnOk result (self.new ≡ initialized self.old) }
        ensures err { OnErr result (self.new ≡ self.old) }
    {
        match self.state {
            State::Stopped => Err(Refuse::NotStarted),
            State::Started => {
                self.state = State::Initialized;
                self.filters = FIRST;
                Ok(())
            }
            State::Initialized => Err(Refuse::AlreadyStarted),
        }
    }

    /// The device stays started, and the frames that wait are lost. `busy` says that a layer above uses it.
    pub fn shutdown(&mut self, busy: bool) -> Result<(), Refuse>
        ensures answer { RefusesExactly (shutdown_refusal self.old.state busy) result }
        ensures ok { OnOk result (self.new ≡ shut self.old) }
        ensures err { OnErr result (self.new ≡ self.old) }
    {
        if !is_on(self.state) {
            return Err(Refuse::NotStarted);
        }
        if busy {
            return Err(Refuse::AccessDenied);
        }
        self.state = State::Started;
        self.queue.clear();
        Ok(())
    }

    pub fn stop(&mut self) -> Result<(), Refuse>
        ensures answer { RefusesExactly (stop_refusal self.old.state) result }
        ensures ok { OnOk result (self.new ≡ in_state self.old State.Stopped) }
        ensures err { OnErr result (self.new ≡ self.old) }
    {
        match self.state {
            State::Stopped => Err(Refuse::NotStarted),
            State::Started => {
                self.state = State::Stopped;
                Ok(())
            }
            State::Initialized => Err(Refuse::AlreadyStarted),
        }
    }

    /// Unicasts to the station pass by 0x01, multicasts by 0x02 or 0x10, broadcasts by 0x04, and every frame by 0x08.
    pub fn filters(&mut self, mask: u8) -> Result<(), Refuse>
        ensures answer { RefusesExactly (filters_refusal self.old.state mask) result }
        ensures ok { OnOk result (self.new ≡ filtered self.old mask) }
        ensures err { OnErr result (self.new ≡ self.old) }
    {
        if !is_on(self.state) {
            return Err(Refuse::NotStarted);
        }
        if mask > ALL {
            return Err(Refuse::BadConfig(Field::Filter));
        }
        self.filters = mask;
        Ok(())
    }

    /// Whether the frame is handed up.
    pub fn hear(&self, frame: &[u8]) -> bool
        ensures { result ≡ hears self.now frame.now }
    {
        if !is_on(self.state) {
            return false;
        }
        match read_ether(frame) {
            Ok(e) => passes(self.filters, self.mac, e.dest),
            Err(_) => false,
        }
    }

    /// Puts a frame behind those that wait. It takes no memory.
    pub fn transmit(&mut self, frame: Bytes, mark: u64) -> Result<(), Refused<Bytes>>
        ensures answer { HandsBackExactly (transmit_refusal self.old.state (length frame) (length self.old.queue)) result }
        ensures ok { OnOk result (self.new ≡ queued self.old frame mark) }
        ensures err { IfErr result (λ r. (r.work ≡ frame) × (self.new ≡ self.old)) }
    {
        if let Some(why) = refusal_of(self.state, frame.len(), self.queue.len()) {
            return Err(Refused { why, work: frame });
        }
        self.queue.push_back_reserved(Queued { frame, mark });
        Ok(())
    }

    /// Hands the frame in front to the link, once. Where the link has no memory for it, it stays in front. The call
    /// itself takes none.
    pub fn flush_one<L: Link>(&mut self, link: &mut L) -> Result<Option<Sent>, NoMemory>
        ensures flushes { Flushes self.old self.new (L.wire link.old) (L.wire link.new) result }
        ensures made { L.made link.new ≡ L.made link.old }
    {
        let Some(q) = self.queue.front() else {
            return Ok(None);
        };
        let mark = q.mark;
        let ok = send(link, q.frame.as_slice())?;
        self.queue.pop_front();
        Ok(Some(Sent { mark, ok }))
    }
}

fn is_on(state: State) -> bool
    ensures { result ≡ is_initialized state }
{
    match state {
        State::Stopped => false,
        State::Started => false,
        State::Initialized => true,
    }
}

/// Why a frame of so many octets isn't taken where so many frames wait.
fn refusal_of(state: State, octets: usize, waiting: usize) -> Option<Refuse>
    ensures { result ≡ transmit_refusal state octets waiting }
{
    if !is_on(state) {
        return Some(Refuse::NotStarted);
    }
    if octets < LEAST || octets > MOST {
        return Some(Refuse::BadConfig(Field::Length));
    }
    if waiting >= QUEUE {
        return Some(Refuse::NotReady);
    }
    None
}

/// Whether the link took the frame.
fn send<L: Link>(link: &mut L, frame: &[u8]) -> Result<bool, NoMemory>
    ensures ok { IfOk result (λ ok. Sends (L.wire link.old) (L.wire link.new) frame.now (answer_of ok)) }
    ensures err { OnErr result (L.wire link.new ≡ L.wire link.old) }
    ensures made { L.made link.new ≡ L.made link.old }
{
    match link.send(frame) {
        Ok(()) => Ok(true),
        Err(Miss::Failed) => Ok(false),
        Err(Miss::OutOfResources) => Err(NoMemory),
    }
}
