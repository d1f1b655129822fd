//! Tests of TCP connections on cases from outside. They stand apart so that the connection is proved without them.
#![tactic(auto)]

// what a connection sends, and which state it is in
#[cfg(test)]
mod conn_tests;
