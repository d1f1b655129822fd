//! What a station has learned of its neighbours' Ethernet addresses (RFC 826), within a fixed room. Who asks, when a request is
//! sent again and which children a station has aren't here.
#![tactic(auto)]

// the cache
mod cache;
// one entry, and which of two goes first
mod entry;
// loops over the entries
mod entries;
// what holds of reception and of a full cache
mod laws;
// the answer to a request
mod reply;

pub use cache::Cache;
pub use entry::Entry;
pub use laws::{
    another_stations_packet_keeps_the_others, entered_entry_is_found, fixed_entries_stay,
    known_sender_has_what_was_heard, none_goes_before_the_first,
};
pub use reply::reply_to;
