//! From one driver's messages to the next one's: what ARP sends goes to MNP as frames.
ghost use Rattle.std.specs.Prelude.{◌≡◌, ◌≤◌, length, OnOk};
ghost use Rattle.efi_book.specs.Books.{Keeps};
ghost use Rattle.wire_link.specs.Arp.{IsOperation, arp_text};
ghost use Rattle.wire_link.specs.Seen.{arp_seen};
ghost use Rattle.efi_stack.specs.Carries.{all_carried, carried, dest_of, emptied};

use crate::events::ARP_FRAMES;
use drv_arp::DrvArp;
use drv_mnp::DrvMnp;
use efi_base::{Mac, NoMemory};
use wire_link::{Arp, REPLY, REQUEST, write_arp};

/// The address of all stations.
const EVERYONE: Mac = Mac([0xFF, 0xFF, 0xFF, 0xFF, 0xFF, 0xFF]);

/// To whom a packet goes: a request to all, a reply to its target (RFC 826).
fn dest_of(a: &Arp) -> Mac
    ensures { result.0 ≡ dest_of a.now }
{
    if a.op == REQUEST { EVERYONE } else { a.tha }
}

/// Puts the frame of a packet behind MNP's others.
fn put(mnp: &mut DrvMnp, a: &Arp) -> Result<(), NoMemory>
    requires { IsOperation a.now.op }
    ensures ok { OnOk result (mnp.new ≡ carried mnp.old a.now) }
    ensures keeps { Keeps mnp.old.drive.tokens mnp.new.drive.tokens }
{
    let mut room = [0; 28];
    match write_arp(a, &mut room) {
        Ok(n) => mnp.put(dest_of(a), ARP_FRAMES, &room[..n]),
        Err(_) => Err(NoMemory),
    }
}

/// A packet goes to MNP; what is no request and no reply goes nowhere.
fn carry(mnp: &mut DrvMnp, a: &Arp) -> Result<(), NoMemory>
    ensures ok { OnOk result (mnp.new ≡ carried mnp.old a.now) }
    ensures keeps { Keeps mnp.old.drive.tokens mnp.new.drive.tokens }
{
    if a.op == REQUEST || a.op == REPLY {
        return put(mnp, a);
    }
    Ok(())
}

/// All that ARP has to send goes to MNP, in order.
pub(crate) fn sink(arp: &mut DrvArp, mnp: &mut DrvMnp) -> Result<(), NoMemory>
    ensures mnp { OnOk result (mnp.new ≡ all_carried mnp.old arp.old.drive.outbox.messages) }
    ensures arp { OnOk result (arp.new ≡ emptied arp.old) }
    ensures keeps_mnp { Keeps mnp.old.drive.tokens mnp.new.drive.tokens }
    ensures keeps_arp { Keeps arp.old.drive.tokens arp.new.drive.tokens }
{
    while let Some(a) = arp.take_down() {
        carry(mnp, &a)?;
    }
    Ok(())
}
