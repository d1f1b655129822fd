//! Readers that are fed their input in pieces, and the one function that reads a source to its end so. What the octets mean
//! is each reader's affair.
#![tactic(auto)]

// a reader that is fed
mod feed;
// a source, fed to its end
mod feeding;

pub use feed::Feed;
pub use feeding::read_whole;
