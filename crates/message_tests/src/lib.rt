//! Tests of the messages of DHCP, DNS and TFTP, with octets that other programs send, and what must be read of them. They stand
//! apart so that a crate is proved without them.
#![tactic(auto)]

// answers as they are written
#[cfg(test)]
mod answer_tests;
// messages of servers and stations, and leases
#[cfg(test)]
mod dhcp_tests;
// names, answers and queries
#[cfg(test)]
mod dns_tests;
// packets and options
#[cfg(test)]
mod tftp_tests;
// octets as rows write them
#[cfg(test)]
mod words;
