//! Tests of the crates for books, children and timers: each public call once with ample memory, and cases from
//! outside. They stand apart so that a crate is proved without them.
#![tactic(auto)]

// children under handles
#[cfg(test)]
mod handle_tests;
// moments by number
#[cfg(test)]
mod timer_tests;
// tokens, and the messages for the layer below
#[cfg(test)]
mod token_tests;
// a driver of these tests
#[cfg(test)]
mod words;
