//! What every layer speaks of: plain addresses and moments, byte strings and names, refusals and ends, and the Internet
//! checksum. From where octets come and to which they go isn't here.
#![tactic(auto)]

// which addresses and masks are which
mod addresses;
// how a load ends
mod load_end;
// why a call gave no value
mod fault;
// headers: numbers at their places, and what follows
mod fields;
// the Internet checksum
mod internet_sum;
// what holds of the checksum and of what writers do
mod laws;
// names, kept in place
mod names;
// strings of octets that own their memory
mod octets;
// addresses, moments, records
mod plain;
// why a call is refused
mod refuse;
// what can be wrong with a response
mod response;
// what a driver is told of the station
mod station;
// tokens: who owns them, and how they end
mod tokens;
// what is handed up: datagrams
mod units;

pub use addresses::{is_broadcast, is_mask, is_unicast};
pub use fault::{Bad, NoMemory, NoRoom};
pub use fields::{put_parts, u16_at, u32_at};
pub use internet_sum::checksum;
pub use laws::{changed_word_is_seen, filled_in_sums_to_ones, written_text_is_in_front};
pub use load_end::{LoadEnd, What};
pub use names::{MOST_NAME, Name, is_host_name};
pub use octets::Bytes;
pub use plain::{Addr, Ip4, Mac, Peer, Record, Tick};
pub use refuse::{Field, Refuse, Refused};
pub use response::{CodingField, Part};
pub use station::{Known, Servers};
pub use tokens::{ChildId, End, Owner, Proto, Ticket, TokenId};
pub use units::{Datagram, IpPacket};
