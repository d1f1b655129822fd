//! Tests of how a load ends, and of the tap over captures: small streams and frames that other programs made. They stand
//! apart so that a crate is proved without them.
#![tactic(auto)]

// responses in pieces
#[cfg(test)]
mod load_tests;
// frames of a capture
#[cfg(test)]
mod tap_tests;
