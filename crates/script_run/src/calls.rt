//! Calls of the stack that a script's steps are. Their answers aren't here.
ghost use Rattle.std.specs.Prelude.{◌≡◌, IfOk};
ghost use Rattle.script_run.specs.Calls.{arp_call_of, call_of, cfg_of, child_of, configure_of, post_of, snp_call_of, work_of};

use crate::scope::layer_of;
use drv_arp::{ArpCfg, ArpWork};
use drv_mnp::{MnpCfg, MnpTx, MnpWork};
use efi_base::{Bytes, NoMemory};
use efi_stack::{AnyCfg, AnyHandle, AnyWork, Call};
use script_text::{ArpCall, Handle, Settings, SnpCall, Step, Work};
use std::alloc::Global;

/// The child that was given as this number, counted from 1.
fn child_of(given: &[AnyHandle], h: Handle) -> Option<AnyHandle>
    ensures { result ≡ child_of given.now h }
{
    let Handle::Created(n) = h else {
        return None;
    };
    if n == 0 {
        return None;
    }
    match given.get(n as usize - 1) {
        Some(child) => Some(*child),
        None => None,
    }
}

fn snp_call_of(c: SnpCall) -> efi_stack::SnpCall
    ensures { result ≡ snp_call_of c }
{
    match c {
        SnpCall::Start => efi_stack::SnpCall::Start,
        SnpCall::Initialize => efi_stack::SnpCall::Initialize,
        SnpCall::Shutdown => efi_stack::SnpCall::Shutdown,
        SnpCall::Stop => efi_stack::SnpCall::Stop,
        SnpCall::Filters(mask) => efi_stack::SnpCall::Filters(mask),
    }
}

fn cfg_of(s: &Settings) -> Option<AnyCfg>
    ensures { result ≡ cfg_of s.now }
{
    match s {
        Settings::Mnp(s) => Some(AnyCfg::Mnp(MnpCfg {
            proto: s.kind,
            unicast: s.unicast,
            multicast: s.multicast,
            broadcast: s.broadcast,
            promiscuous: s.promiscuous,
        })),
        Settings::Arp(s) => Some(AnyCfg::Arp(ArpCfg {
            ip: s.ip,
            entry: s.entry,
            tries: s.tries,
            gap: s.gap,
        })),
        _ => None,
    }
}

fn work_of(alloc: Global, w: &Work) -> Result<Option<AnyWork>, NoMemory>
    ensures { IfOk result (λ work. work ≡ work_of w.now) }
{
    match w {
        Work::SendFrame(dest, proto, octets) => {
            let payload = Bytes::copy_of(alloc, octets.as_slice())?;
            Ok(Some(AnyWork::Mnp(MnpWork::Transmit(MnpTx {
                dest: *dest,
                proto: *proto,
                payload,
            }))))
        }
        Work::Receive => Ok(Some(AnyWork::Mnp(MnpWork::Receive(None)))),
        Work::Request(ip) => Ok(Some(AnyWork::Arp(ArpWork { ip: *ip, mac: None }))),
        _ => Ok(None),
    }
}

fn configure_of(child: Option<AnyHandle>, cfg: Option<AnyCfg>) -> Option<Call>
    ensures { result ≡ configure_of child cfg }
{
    let Some(child) = child else {
        return None;
    };
    let Some(cfg) = cfg else {
        return None;
    };
    Some(Call::Configure(child, Some(cfg)))
}

fn post_of(child: Option<AnyHandle>, work: Option<AnyWork>) -> Option<Call>
    ensures { result ≡ post_of child work }
{
    let Some(child) = child else {
        return None;
    };
    let Some(work) = work else {
        return None;
    };
    Some(Call::Post(child, work))
}

fn arp_call_of(child: Option<AnyHandle>, c: &ArpCall) -> Option<Call>
    ensures { result ≡ arp_call_of child c.now }
{
    let Some(AnyHandle::Arp(h)) = child else {
        return None;
    };
    let call = match c {
        ArpCall::Add(ip, mac, fixed) => efi_stack::ArpCall::Add(h, *ip, *mac, *fixed, false),
        ArpCall::Find(ip) => efi_stack::ArpCall::Find(h, *ip),
        ArpCall::Delete(ip) => efi_stack::ArpCall::Delete(h, *ip),
        ArpCall::Flush => efi_stack::ArpCall::Flush(h),
    };
    Some(Call::Arp(call))
}

/// The call that a step is, where the child that it names was given.
pub(crate) fn call_of(
    alloc: Global,
    given: &[AnyHandle],
    step: &Step,
) -> Result<Option<Call>, NoMemory>
    ensures { IfOk result (λ call. call ≡ call_of given.now step.now) }
{
    match step {
        Step::Snp(c) => Ok(Some(Call::Snp(snp_call_of(*c)))),
        Step::Create(proto) => Ok(layer_of(*proto).map(|layer| Call::Create(layer))),
        Step::Destroy(h) => Ok(child_of(given, *h).map(|child| Call::Destroy(child))),
        Step::Reset(h) => Ok(child_of(given, *h).map(|child| Call::Configure(child, None))),
        Step::Configure(h, s) => Ok(configure_of(child_of(given, *h), cfg_of(s))),
        Step::Cancel(h, t) => {
            let token = *t;
            Ok(child_of(given, *h).map(|child| Call::Cancel(child, token)))
        }
        Step::Post(h, w) => {
            let work = work_of(alloc, w)?;
            Ok(post_of(child_of(given, *h), work))
        }
        Step::Arp(h, c) => Ok(arp_call_of(child_of(given, *h), c)),
        _ => Ok(None),
    }
}
