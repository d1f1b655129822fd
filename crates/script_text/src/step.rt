//! A line of a script behind its head: a call, a moment, or a frame.
ghost use Rattle.std.specs.Prelude.{◌≡◌, ◌≤◌, length, IfOk};
ghost use Rattle.script_text.specs.Step.{address_of, arp_add, arp_call, arp_step, cancel_of, child_call, child_step, create_of, dns_row, filters_of, frame_of, free_step, is_fixed, kept_step, path_next, post_of, route_of, snp_call, step_of, tick_of};

use crate::handles::{Handle, handle_next, token_of};
use crate::settings::{Settings, addr_next, proto_of, settings_of};
use crate::words::Words;
use crate::works::{Work, last_ip, last_octets, work_of};
use efi_base::{Addr, Bytes, Ip4, Mac, Name, NoMemory, Proto, Tick, TokenId};
use std::alloc::Global;

/// A call of the interface below the drivers (UEFI 2.10, section 24.1).
#[derive(Clone, Copy, PartialEq, Eq, Debug)]
pub enum SnpCall {
    Start,
    Initialize,
    Shutdown,
    Stop,
    /// Which frames it takes, by the bits of this mask.
    Filters(u8),
}

/// A call about the mappings of addresses.
#[derive(Clone, Copy, PartialEq, Eq, Debug)]
pub enum ArpCall {
    /// To add a mapping. Whether it is fixed comes last.
    Add(Ip4, Mac, bool),
    Find(Ip4),
    Delete(Ip4),
    /// To remove the mappings that aren't fixed.
    Flush,
}

/// A way to a network: its address and mask, and the next hop.
#[derive(Clone, Copy, PartialEq, Eq, Debug)]
pub struct Path {
    pub network: Addr,
    pub gate: Ip4,
}

/// A step of a script.
#[derive(Debug, Drop)]
pub enum Step {
    Snp(SnpCall),
    /// To set the default address, or to take it away.
    Address(Option<Addr>),
    Create(Proto),
    Destroy(Handle),
    Reset(Handle),
    Configure(Handle, Settings),
    /// To cancel a token, or all of the child.
    Cancel(Handle, Option<TokenId>),
    Post(Handle, Work),
    Arp(Handle, ArpCall),
    AddRoute(Path),
    RemoveRoute(Path),
    /// A name, its address, and for how many seconds.
    DnsCache(Handle, Name, Ip4, u32),
    Tick(Tick),
    /// A frame that is heard.
    Frame(Bytes),
}

/// The last moment of a script.
const MOST_TICK: u64 = 1_099_511_627_776;

/// The least and the most octets of a frame.
const LEAST_FRAME: usize = 14;

const MOST_FRAME: usize = 1_514;

fn filters_of(words: Words<'_>) -> Option<SnpCall>
    ensures { result ≡ filters_of words.entry }
{
    let Some((n, words)) = words.number(0, 255) else {
        return None;
    };
    words.finished(SnpCall::Filters(n as u8))
}

fn snp_call(words: Words<'_>) -> Option<SnpCall>
    ensures { result ≡ snp_call words.entry }
{
    let Some((key, words)) = words.word() else {
        return None;
    };
    if key == b"start".as_slice() {
        return words.finished(SnpCall::Start);
    }
    if key == b"initialize".as_slice() {
        return words.finished(SnpCall::Initialize);
    }
    if key == b"shutdown".as_slice() {
        return words.finished(SnpCall::Shutdown);
    }
    if key == b"stop".as_slice() {
        return words.finished(SnpCall::Stop);
    }
    if key == b"filters".as_slice() {
        return filters_of(words);
    }
    None
}

/// An address and its mask, or `off`.
fn address_of(words: Words<'_>) -> Option<Option<Addr>>
    ensures { result ≡ address_of words.entry }
{
    if let Some(words) = words.behind(b"off") {
        return words.finished(None);
    }
    let Some((addr, words)) = addr_next(words) else {
        return None;
    };
    words.finished(Some(addr))
}

fn create_of(words: Words<'_>) -> Option<Proto>
    ensures { result ≡ create_of words.entry }
{
    let Some((word, words)) = words.word() else {
        return None;
    };
    let Some(proto) = proto_of(word) else {
        return None;
    };
    words.finished(proto)
}

/// A network, its mask, and the next hop.
fn path_next(words: Words<'_>) -> Option<Path>
    ensures { result ≡ path_next words.entry }
{
    let Some((network, words)) = addr_next(words) else {
        return None;
    };
    let Some(gate) = last_ip(words) else {
        return None;
    };
    Some(Path { network, gate })
}

fn route_of(words: Words<'_>) -> Option<Step>
    ensures { result ≡ route_of words.entry }
{
    let Some((key, words)) = words.word() else {
        return None;
    };
    if key == b"add".as_slice() {
        return path_next(words).map(|path| Step::AddRoute(path));
    }
    if key == b"remove".as_slice() {
        return path_next(words).map(|path| Step::RemoveRoute(path));
    }
    None
}

fn tick_of(words: Words<'_>) -> Option<Tick>
    ensures { result ≡ tick_of words.entry }
{
    let Some((n, words)) = words.number(0, MOST_TICK) else {
        return None;
    };
    words.finished(Tick(n))
}

/// A step that names no child.
fn free_step(key: &[u8], words: Words<'_>) -> Option<Step>
    ensures { result ≡ free_step key.now words.entry }
{
    if key == b"snp".as_slice() {
        return snp_call(words).map(|call| Step::Snp(call));
    }
    if key == b"address".as_slice() {
        return address_of(words).map(|addr| Step::Address(addr));
    }
    if key == b"create".as_slice() {
        return create_of(words).map(|proto| Step::Create(proto));
    }
    if key == b"route".as_slice() {
        return route_of(words);
    }
    if key == b"tick".as_slice() {
        return tick_of(words).map(|tick| Step::Tick(tick));
    }
    None
}

/// A token, or `all`.
fn cancel_of(posts: u64, words: Words<'_>) -> Option<Option<TokenId>>
    ensures { result ≡ cancel_of posts words.entry }
{
    let Some((word, words)) = words.word() else {
        return None;
    };
    if word == b"all".as_slice() {
        return words.finished(None);
    }
    let Some(token) = token_of(posts, word) else {
        return None;
    };
    words.finished(Some(token))
}

/// Whether a mapping is fixed.
fn is_fixed(words: Words<'_>) -> Option<bool>
    ensures { result ≡ is_fixed words.entry }
{
    let Some((word, words)) = words.word() else {
        return None;
    };
    if word == b"fixed".as_slice() {
        return words.finished(true);
    }
    if word == b"dynamic".as_slice() {
        return words.finished(false);
    }
    None
}

fn arp_add(words: Words<'_>) -> Option<ArpCall>
    ensures { result ≡ arp_add words.entry }
{
    let Some((ip, words)) = words.ip() else {
        return None;
    };
    let Some((mac, words)) = words.mac() else {
        return None;
    };
    let Some(fixed) = is_fixed(words) else {
        return None;
    };
    Some(ArpCall::Add(ip, mac, fixed))
}

fn arp_call(key: &[u8], words: Words<'_>) -> Option<ArpCall>
    ensures { result ≡ arp_call key.now words.entry }
{
    if key == b"arpadd".as_slice() {
        return arp_add(words);
    }
    if key == b"arpfind".as_slice() {
        return last_ip(words).map(|ip| ArpCall::Find(ip));
    }
    if key == b"arpdelete".as_slice() {
        return last_ip(words).map(|ip| ArpCall::Delete(ip));
    }
    if key == b"arpflush".as_slice() {
        return words.finished(ArpCall::Flush);
    }
    None
}

/// A call about mappings, which a child of ARP takes.
fn arp_step(handle: Handle, proto: Proto, key: &[u8], words: Words<'_>) -> Option<Step>
    ensures { result ≡ arp_step handle proto key.now words.entry }
{
    match proto {
        Proto::Arp => arp_call(key, words).map(|call| Step::Arp(handle, call)),
        _ => None,
    }
}

/// A name, its address, and seconds.
fn dns_row(handle: Handle, words: Words<'_>) -> Option<Step>
    ensures { result ≡ dns_row handle words.entry }
{
    let Some((name, words)) = words.name() else {
        return None;
    };
    let Some((ip, words)) = words.ip() else {
        return None;
    };
    let Some((secs, words)) = words.number(0, 4_294_967_295) else {
        return None;
    };
    words.finished(Step::DnsCache(handle, name, ip, secs as u32))
}

/// A call of a child of this protocol.
fn child_call(
    posts: u64,
    handle: Handle,
    proto: Proto,
    key: &[u8],
    words: Words<'_>,
) -> Option<Step>
    ensures { result ≡ child_call posts handle proto key.now words.entry }
{
    if key == b"destroy".as_slice() {
        return words.finished(Step::Destroy(handle));
    }
    if key == b"reset".as_slice() {
        return words.finished(Step::Reset(handle));
    }
    if key == b"configure".as_slice() {
        return settings_of(proto, words).map(|s| Step::Configure(handle, s));
    }
    if key == b"cancel".as_slice() {
        return cancel_of(posts, words).map(|token| Step::Cancel(handle, token));
    }
    if key == b"dnscache".as_slice() {
        return dns_row(handle, words);
    }
    arp_step(handle, proto, key, words)
}

/// A step that names a child.
fn child_step(made: &[Proto], posts: u64, key: &[u8], words: Words<'_>) -> Option<Step>
    ensures { result ≡ child_step made.now posts key.now words.entry }
{
    let Some((handle, proto, words)) = handle_next(made, posts, words) else {
        return None;
    };
    child_call(posts, handle, proto, key, words)
}

/// A frame of 14 to 1,514 octets.
fn frame_of(alloc: Global, words: Words<'_>) -> Result<Option<Step>, NoMemory>
    ensures { IfOk result (λ step. step ≡ frame_of words.entry) }
{
    let Some(octets) = last_octets(alloc, words)? else {
        return Ok(None);
    };
    if octets.len() < LEAST_FRAME || octets.len() > MOST_FRAME {
        return Ok(None);
    }
    Ok(Some(Step::Frame(octets)))
}

/// A child, and its work.
fn post_of(
    alloc: Global,
    made: &[Proto],
    posts: u64,
    words: Words<'_>,
) -> Result<Option<Step>, NoMemory>
    ensures { IfOk result (λ step. step ≡ post_of made.now posts words.entry) }
{
    let Some((handle, proto, words)) = handle_next(made, posts, words) else {
        return Ok(None);
    };
    match work_of(alloc, proto, words)? {
        Some(work) => Ok(Some(Step::Post(handle, work))),
        None => Ok(None),
    }
}

/// A step whose octets are kept.
fn kept_step(
    alloc: Global,
    made: &[Proto],
    posts: u64,
    key: &[u8],
    words: Words<'_>,
) -> Result<Option<Step>, NoMemory>
    ensures { IfOk result (λ step. step ≡ kept_step made.now posts key.now words.entry) }
{
    if key == b"frame".as_slice() {
        return frame_of(alloc, words);
    }
    if key == b"post".as_slice() {
        return post_of(alloc, made, posts, words);
    }
    Ok(None)
}

/// The step of a line, by its word and what stands behind it.
pub fn step_of(
    alloc: Global,
    made: &[Proto],
    posts: u64,
    key: &[u8],
    words: Words<'_>,
) -> Result<Option<Step>, NoMemory>
    ensures { IfOk result (λ step. step ≡ step_of made.now posts key.now words.entry) }
{
    if let Some(step) = free_step(key, words.again()) {
        return Ok(Some(step));
    }
    if let Some(step) = child_step(made, posts, key, words.again()) {
        return Ok(Some(step));
    }
    kept_step(alloc, made, posts, key, words)
}
