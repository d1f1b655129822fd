//! What an event left goes to the link, each frame tried once, in order.
ghost use Rattle.std.specs.Prelude.{◌≡◌, ℕ, ◌-◌, ◌^◌, true, [], min, length, count_by, IfOk, OnOk, cond};
ghost use Rattle.efi_book.specs.Books.{Keeps};
ghost use Rattle.efi_link.specs.Wires.{Wire};
ghost use Rattle.drv_snp.specs.Devices.{is_initialized};
ghost use Rattle.drv_snp.specs.Flushes.{with_queue};
ghost use Rattle.drv_mnp.specs.Mnps.{frame_sent};
ghost use Rattle.efi_stack.specs.Sends.{AreFlushed, AreSent, IsPolled, IsSent, fits, nothing_to_send};
ghost use Rattle.efi_stack.specs.Stacks.{moment_of};
ghost use Rattle.efi_stack.specs.Traces.{IsStep, Polled};

use crate::carry::sink;
use crate::stack::Stack;
use drv_mnp::{DrvMnp, Framed};
use drv_snp::{Sent, Snp};
use efi_base::NoMemory;
use efi_link::Link;

impl Stack {
    /// Sends all that the events so far left, in order, and answers how many frames were tried. Where the device isn't
    /// initialized, what was to be sent is dropped. After `NoMemory` the frames that weren't tried wait for the next call.
    pub fn poll<L: Link>(&mut self, link: &mut L) -> Result<u64, NoMemory>
        ensures ok { IfOk result (IsPolled self.old self.new (L.wire link.old) (L.wire link.new)) }
        ensures made { L.made link.new ≡ L.made link.old }
        ensures step { IsStep self.old Polled self.new }
        ensures moment { OnOk result (moment_of self.new ≡ moment_of self.old) }
    {
        sink(&mut self.arp, &mut self.mnp)?;
        if !self.is_on() {
            drop_all(&mut self.mnp);
            return Ok(0);
        }
        let waiting = flush(&mut self.snp, &mut self.mnp, link)?;
        let further = send_all(&mut self.snp, &mut self.mnp, link)?;
        Ok(waiting.saturating_add(further))
    }
}

/// The frames are gone.
fn drop_all(mnp: &mut DrvMnp)
    ensures after { mnp.new ≡ nothing_to_send mnp.old }
{
    while let Some(gone) = mnp.take_down() {
        drop(gone);
    }
}

/// MNP is told what came of a frame.
fn tell(mnp: &mut DrvMnp, sent: Sent)
    ensures after { mnp.new ≡ frame_sent mnp.old sent.mark sent.ok }
    ensures keeps { Keeps mnp.old.drive.tokens mnp.new.drive.tokens }
    ensures waiting { mnp.new.drive.outbox ≡ mnp.old.drive.outbox }
{
    mnp.sent(sent.mark, sent.ok);
}

/// The frames that wait at the device are tried, in order, and MNP is told what came of each.
fn flush<L: Link>(snp: &mut Snp, mnp: &mut DrvMnp, link: &mut L) -> Result<u64, NoMemory>
    ensures snp { OnOk result (snp.new ≡ with_queue snp.old []) }
    ensures sent { OnOk result (AreFlushed snp.old.queue mnp.old mnp.new (L.wire link.old) (L.wire link.new)) }
    ensures tried { IfOk result (λ n. n ≡ min (2 ^ 64 - 1) (length snp.old.queue)) }
    ensures waiting { OnOk result (mnp.new.drive.outbox ≡ mnp.old.drive.outbox) }
    ensures made { L.made link.new ≡ L.made link.old }
    ensures keeps { Keeps mnp.old.drive.tokens mnp.new.drive.tokens }
{
    let mut tried: u64 = 0;
    while let Some(sent) = snp.flush_one(link)? {
        tell(mnp, sent);
        tried = tried.saturating_add(1);
    }
    Ok(tried)
}

/// A frame goes through the device, whose queue is empty; one that it doesn't take is dropped.
fn send_one<L: Link>(
    snp: &mut Snp,
    mnp: &mut DrvMnp,
    link: &mut L,
    f: Framed,
) -> Result<u64, NoMemory>
    requires on { is_initialized snp.old.state ≡ true }
    requires empty { snp.old.queue ≡ [] }
    ensures snp { OnOk result (snp.new ≡ snp.old) }
    ensures sent { OnOk result (IsSent (fits f) f mnp.old (L.wire link.old) (λ m w. (mnp.new ≡ m) × (L.wire link.new ≡ w))) }
    ensures tried { IfOk result (λ n. n ≡ cond (fits f) 1 0) }
    ensures waiting { mnp.new.drive.outbox ≡ mnp.old.drive.outbox }
    ensures made { L.made link.new ≡ L.made link.old }
    ensures keeps { Keeps mnp.old.drive.tokens mnp.new.drive.tokens }
{
    if snp.transmit(f.frame, f.mark).is_err() {
        return Ok(0);
    }
    match snp.flush_one(link)? {
        Some(sent) => {
            tell(mnp, sent);
            Ok(1)
        }
        None => Ok(0),
    }
}

/// MNP's frames are tried, in order.
fn send_all<L: Link>(snp: &mut Snp, mnp: &mut DrvMnp, link: &mut L) -> Result<u64, NoMemory>
    requires on { is_initialized snp.old.state ≡ true }
    requires empty { snp.old.queue ≡ [] }
    ensures snp { OnOk result (snp.new ≡ snp.old) }
    ensures sent { OnOk result (AreSent mnp.old.drive.outbox.messages mnp.old mnp.new (L.wire link.old) (L.wire link.new)) }
    ensures tried { IfOk result (λ n. n ≡ min (2 ^ 64 - 1) (count_by fits mnp.old.drive.outbox.messages)) }
    ensures made { L.made link.new ≡ L.made link.old }
    ensures keeps { Keeps mnp.old.drive.tokens mnp.new.drive.tokens }
{
    let mut tried: u64 = 0;
    while let Some(f) = mnp.take_down() {
        let n = send_one(snp, mnp, link, f)?;
        tried = tried.saturating_add(n);
    }
    Ok(tried)
}
