//! Handles, configurations and works of whichever driver, and the calls and answers that carry them.
use drv_arp::{ArpCfg, ArpK, ArpWork};
use drv_mnp::{Mnp, MnpCfg, MnpWork};
use efi_base::{End, Ip4, Mac, Refuse, TokenId};
use efi_book::Handle;

/// The drivers of which a caller makes children.
#[derive(Clone, Copy, PartialEq, Eq, Debug)]
pub enum Layer {
    Mnp,
    Arp,
}

/// A child of one of the drivers.
#[derive(Clone, Copy, PartialEq, Eq, Debug)]
pub enum AnyHandle {
    Mnp(Handle<Mnp>),
    Arp(Handle<ArpK>),
}

/// What a child is configured with.
#[derive(Clone, Copy, PartialEq, Eq, Debug)]
pub enum AnyCfg {
    Mnp(MnpCfg),
    Arp(ArpCfg),
}

/// The work of a token.
#[derive(Drop)]
pub enum AnyWork {
    Mnp(MnpWork),
    Arp(ArpWork),
}

/// A call of the device.
#[derive(Clone, Copy, PartialEq, Eq, Debug)]
pub enum SnpCall {
    Start,
    Initialize,
    Shutdown,
    Stop,
    /// Which frames are handed up, by the bits of this mask.
    Filters(u8),
}

/// A call on the ARP cache.
#[derive(Clone, Copy, PartialEq, Eq, Debug)]
pub enum ArpCall {
    /// Whether the entry is fixed, and whether it may take the place of another one, come last.
    Add(Handle<ArpK>, Ip4, Mac, bool, bool),
    Find(Handle<ArpK>, Ip4),
    Delete(Handle<ArpK>, Ip4),
    /// Takes out the entries that aren't fixed.
    Flush(Handle<ArpK>),
}

/// A call of the stack.
#[derive(Drop)]
pub enum Call {
    Snp(SnpCall),
    Create(Layer),
    Destroy(AnyHandle),
    /// Without a configuration the child is reset.
    Configure(AnyHandle, Option<AnyCfg>),
    /// Without a token, all of the child's are cancelled.
    Cancel(AnyHandle, Option<TokenId>),
    Post(AnyHandle, AnyWork),
    Arp(ArpCall),
}

/// What a call answers at once.
#[derive(Drop)]
pub enum Answer {
    Done,
    /// The Ethernet address that was asked for.
    Found(Mac),
    /// The child that was made.
    Made(AnyHandle),
    /// The token that was accepted. Tokens are numbered from 1 in the order of acceptance.
    Posted(TokenId),
    /// Nothing was changed, and the work of a post is handed back.
    Refused(Refuse, Option<AnyWork>),
}

/// A token that has ended, with its work.
#[derive(Drop)]
pub struct Fired {
    pub token: TokenId,
    pub end: End,
    pub work: AnyWork,
}
