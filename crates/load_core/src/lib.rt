//! What a load finds in a response that comes in pieces, and its body in a buffer. Segments, ticks and records
//! aren't here.
#![tactic(auto)]

// the cases in which a stream ends a load
mod cases;
// where the final head of a stream ends
mod heads;
// what is kept of a list up to a limit
mod kept;
// what holds of the definitions
mod laws;
// a response that comes in pieces
mod load;
// the body behind the final head
mod reading;

pub use laws::case_is_one;
pub use load::Load;
