//! Tests of the crates that read and write formats, and of those below them: each public call once with ample memory, and
//! values from outside. They stand apart so that a crate is proved without them.
#![tactic(auto)]

// checksums, headers, addresses, names
#[cfg(test)]
mod base_tests;
// UDP datagrams
#[cfg(test)]
mod datagram_tests;
// heads and bodies of responses
#[cfg(test)]
mod http_tests;
// IPv4 packets and ICMP messages
#[cfg(test)]
mod ip4_tests;
// Ethernet frames and ARP packets
#[cfg(test)]
mod link_tests;
// sources and sinks, and the system's
#[cfg(test)]
mod outside_tests;
// captures
#[cfg(test)]
mod pcap_tests;
// TCP segments
#[cfg(test)]
mod segment_tests;
// URIs and requests
#[cfg(test)]
mod uri_tests;
