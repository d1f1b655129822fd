//! The network device of the station: its states, its filters of what is heard, and its queue of frames to send. Who
//! uses what it hears isn't here.
#![tactic(auto)]

// the device
mod device;
// which frames the filters pass
mod filter;

pub use device::{QUEUE, Sent, Snp, State};
