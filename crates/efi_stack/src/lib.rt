//! The stack: one state over all drivers. An event is one call, one heard frame or one tick; what an event leaves to be sent
//! goes down to the link by `poll`, and what has ended is taken by `take_fired`. The rules of single protocols aren't here.
#![tactic(auto)]

// handles, configurations and works of whichever driver
mod any;
// from one driver's messages to the next one's
mod carry;
// heard frames and ticks
mod events;
// tokens that have ended
mod fired;
// what holds over any list of events
mod laws;
// ARP as callers use it
mod on_arp;
// MNP as callers use it
mod on_mnp;
// SNP as callers use it
mod on_snp;
// frames for the link
mod sending;
// the stack and its calls
mod stack;

pub use any::{Answer, AnyCfg, AnyHandle, AnyWork, ArpCall, Call, Fired, Layer, SnpCall};
pub use laws::each_token_is_here_or_was_given_back_once;
pub use stack::Stack;
