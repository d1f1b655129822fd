//! Scripts and their traces, octet by octet. They stand apart so that the run of scripts is proved without them.
#![tactic(auto)]

// scripts with their traces
#[cfg(test)]
mod trace_tests;
