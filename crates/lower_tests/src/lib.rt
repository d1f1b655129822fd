//! Tests of the device, its link and the ARP cache: each call that may want memory once with ample memory, and cases from
//! outside. They stand apart so that a crate is proved without them.
#![tactic(auto)]

// entries that are heard, live, and give up their places
#[cfg(test)]
mod cache_tests;
// states, filters and frames that wait
#[cfg(test)]
mod device_tests;
