//! What the stack hears, and its clock. What an event leaves to be sent isn't here.
ghost use Rattle.std.specs.Prelude.{◌≡◌, ◌-◌, ◌≤◌, ◌^◌, OnOk, option_map};
ghost use Rattle.efi_book.specs.Books.{Keeps};
ghost use Rattle.efi_stack.specs.Events.{arp_heard, heard, ticked};
ghost use Rattle.efi_stack.specs.Stacks.{moment_of};
ghost use Rattle.efi_stack.specs.Traces.{Heard, IsStep, Ticked};
ghost use Rattle.drv_arp.specs.Ticks.{next_of};

use crate::stack::Stack;
use drv_arp::DrvArp;
use efi_base::{NoMemory, Tick};
use wire_link::{read_arp, read_ether};

/// The type of frames that carry ARP (RFC 826).
pub(crate) const ARP_FRAMES: u16 = 0x0806;

impl Stack {
    /// A frame came. Where the device hands it up, MNP and then ARP hear it. After `NoMemory` it may not have reached all.
    pub fn frame(&mut self, bytes: &[u8]) -> Result<(), NoMemory>
        ensures ok { OnOk result (self.new ≡ heard self.old bytes.now) }
        ensures step { IsStep self.old (Heard bytes.now) self.new }
        ensures moment { OnOk result (moment_of self.new ≡ moment_of self.old) }
    {
        if !self.snp.hear(bytes) {
            return Ok(());
        }
        self.mnp.deliver(bytes)?;
        hear_arp(&mut self.arp, bytes)
    }

    /// The clock stands at this moment: what is due up to it is done, by rising moment.
    pub fn tick(&mut self, now: Tick) -> Result<(), NoMemory>
        requires later { moment_of self.old ≤ now.0 }
        requires within { now.0 ≤ 2 ^ 62 }
        ensures ok { OnOk result (self.new ≡ ticked self.old now.0) }
        ensures step { IsStep self.old (Ticked now.0) self.new }
        ensures moment { OnOk result (moment_of self.new ≡ now.0) }
    {
        self.arp.tick(now)
    }

    /// The last moment that came.
    pub fn moment(&self) -> Tick
        ensures { result.0 ≡ moment_of self.now }
    {
        self.arp.moment()
    }

    /// The least moment to come at which something is due.
    pub fn next_deadline(&self) -> Option<Tick>
        ensures { option_map (λ t. t.0) result ≡ next_of self.now.arp }
    {
        self.arp.next()
    }
}

/// ARP hears its packets.
fn hear_arp(arp: &mut DrvArp, bytes: &[u8]) -> Result<(), NoMemory>
    ensures ok { OnOk result (arp.new ≡ arp_heard arp.old bytes.now) }
    ensures keeps { Keeps arp.old.drive.tokens arp.new.drive.tokens }
    ensures moment { OnOk result (arp.new.moment ≡ arp.old.moment) }
{
    let Ok(ether) = read_ether(bytes) else {
        return Ok(());
    };
    if ether.proto != ARP_FRAMES {
        return Ok(());
    }
    match read_arp(ether.payload) {
        Ok(a) => arp.on_frame(&a),
        Err(_) => Ok(()),
    }
}
