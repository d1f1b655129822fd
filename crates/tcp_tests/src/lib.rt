//! Tests of TCP's crates on cases from outside. They stand apart so that those crates are proved without them.
#![tactic(auto)]

// what is sent when
#[cfg(test)]
mod send_tests;
