//! Bytes by place: a window in which the first byte at a place stays, and from which the longest run without a gap
//! is taken.
#![tactic(auto)]

// which indices hold a byte
mod bits;
// the window
mod by_place;
// vectors within memory that was taken before
mod memory;
// a ring, by place
mod ring;
// runs of a ring
mod runs;

pub use by_place::Window;
pub use memory::lengthen;

#[cfg(test)]
mod tests;
