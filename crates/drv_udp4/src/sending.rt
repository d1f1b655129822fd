//! Datagrams that are sent: from where, and with which octets. Why one isn't sent stands elsewhere.
ghost use Rattle.std.specs.Prelude.{◌≡◌, ◌+◌, ◌≤◌, length, None, IfOk, IfErr};
ghost use Rattle.efi_base.specs.declared.refuse.Refuse.TheVariants.{OutOfResources};
ghost use Rattle.efi_base.specs.declared.tokens.Owner.{Owner as OwnerValue};
ghost use Rattle.efi_book.specs.Books.{times};
ghost use Rattle.efi_book.specs.Cores.{in_outbox, post_refusal as core_post_refusal, posted};
ghost use Rattle.efi_book.specs.Drives.{drive};
ghost use Rattle.efi_book.specs.Outboxes.{asked};
ghost use Rattle.efi_book.specs.Owners.{gained};
ghost use Rattle.wire_l4.specs.Datagram.{datagram_text};
ghost use Rattle.wire_l4.specs.Seen.{datagram_seen};
ghost use Rattle.drv_udp4.specs.Udps.{out_of};
ghost use Rattle.drv_udp4.specs.declared.work.UdpWork.TheVariants.{Transmit};

use crate::work::{Ask, Udp4, UdpCfg, UdpOut, UdpTx, UdpWork};
use efi_base::{Addr, Bytes, Ip4, NoMemory, Owner, Proto, Refuse, Refused, Ticket};
use efi_book::{Core, Handle};
use std::alloc::Global;
use wire_l4::{Udp, write_udp};

/// What the driver is made of.
pub(crate) type UdpCore = Core<Udp4, UdpCfg, Ask, UdpOut>;

/// The octets of the longest payload of a datagram.
pub(crate) const MOST_PAYLOAD: usize = 65_507;

/// The octets of a header.
const HEADER: usize = 8;

/// From where a child sends: its configuration, and its address.
#[derive(Clone, Copy)]
pub(crate) struct Source {
    pub cfg: UdpCfg,
    pub addr: Addr,
}

fn zeros(alloc: Global, size: usize) -> Result<Vec<u8>, NoMemory>
    ensures { IfOk result (λ octets. length octets.items ≡ size) }
{
    match vec![in alloc; 0; size] {
        Ok(octets) => Ok(octets),
        Err(_) => Err(NoMemory),
    }
}

/// The octets of a datagram.
pub(crate) fn make_text(alloc: Global, from: &Source, tx: &UdpTx) -> Result<Bytes, NoMemory>
    requires { length tx.now.payload ≤ 65507 }
    ensures { IfOk result (λ text. text ≡ datagram_text from.now.addr.ip.0 tx.now.dest.0 (record { sport = from.now.cfg.port; dport = tx.now.port; payload = tx.now.payload })) }
{
    let mut room = zeros(alloc, HEADER + tx.payload.len())?;
    let datagram = Udp {
        sport: from.cfg.port,
        dport: tx.port,
        payload: tx.payload.as_slice(),
    };
    fill(from.addr.ip, tx.dest, &datagram, &mut room);
    Ok(Bytes::from_vec(room))
}

/// Writes a datagram into a room of its length.
fn fill(src: Ip4, dest: Ip4, datagram: &Udp<'_>, room: &mut [u8])
    requires most { length datagram.now.payload.now ≤ 65507 }
    requires room { length room.old ≡ 8 + length datagram.now.payload.now }
    ensures { room.new ≡ datagram_text src.0 dest.0 (datagram_seen datagram.now) }
{
    write_udp(src, dest, datagram, room).unwrap();
}

/// Takes a transmit in that nothing refuses, and puts its datagram behind the others.
pub(crate) fn accept_with(
    core: &mut UdpCore,
    h: Handle<Udp4>,
    owner: Owner,
    from: &Source,
    tx: UdpTx,
    text: Bytes,
) -> Result<Ticket, Refused<UdpWork>>
    requires accepted { core_post_refusal (drive core.old) h.key h.serial owner ≡ None }
    requires text { text ≡ datagram_text from.now.addr.ip.0 tx.dest.0 (record { sport = from.now.cfg.port; dport = tx.port; payload = tx.payload }) }
    ensures answer { IfErr result (λ r. r.why ≡ OutOfResources) }
    ensures ok { IfOk result (λ t. (t.0 ≡ (drive core.old).tokens.next) × (drive core.new ≡ in_outbox (posted (drive core.old) h.serial owner (record { work = Transmit tx; until = None })) (asked (drive core.old).outbox (out_of from.now (drive core.old).tokens.next tx)))) }
    ensures err { IfErr result (λ r. (r.work ≡ Transmit tx) × (drive core.new ≡ drive core.old)) }
    ensures keeps { (o : OwnerValue) → times o (drive core.new).tokens ≡ times o (drive core.old).tokens + gained o owner result }
{
    if core.outbox.take_room().is_err() {
        return Err(Refused {
            why: Refuse::OutOfResources,
            work: UdpWork::Transmit(tx),
        });
    }
    let dest = tx.dest;
    let ask = Ask {
        work: UdpWork::Transmit(tx),
        until: None,
    };
    match core.accept(h, owner, ask) {
        Ok(ticket) => {
            core.outbox.put(UdpOut {
                waits: Some((Proto::Udp4, ticket)),
                from: from.cfg.at,
                dest,
                text,
            });
            Ok(ticket)
        }
        Err(refused) => {
            core.outbox.give_room();
            Err(Refused {
                why: refused.why,
                work: refused.work.work,
            })
        }
    }
}

/// Takes a receive in.
pub(crate) fn accept_plain(
    core: &mut UdpCore,
    h: Handle<Udp4>,
    owner: Owner,
    ask: Ask,
) -> Result<Ticket, Refused<UdpWork>>
    requires { core_post_refusal (drive core.old) h.key h.serial owner ≡ None }
    ensures answer { IfErr result (λ r. r.why ≡ OutOfResources) }
    ensures ok { IfOk result (λ t. (t.0 ≡ (drive core.old).tokens.next) × (drive core.new ≡ posted (drive core.old) h.serial owner ask)) }
    ensures err { IfErr result (λ r. (r.work ≡ ask.work) × (drive core.new ≡ drive core.old)) }
    ensures keeps { (o : OwnerValue) → times o (drive core.new).tokens ≡ times o (drive core.old).tokens + gained o owner result }
{
    match core.accept(h, owner, ask) {
        Ok(ticket) => Ok(ticket),
        Err(refused) => Err(Refused {
            why: refused.why,
            work: refused.work.work,
        }),
    }
}
